// Image files, listings and made sources: what commands leave in out, in the notes and in the folder.
use super::rows::{run_calls, run_pieces};
use std::test::Fail;

const CALLS: &str = r#"
list a             | | | J1_1~CODE~@0000_raw_6010~DATA~END~ |  | a = J1IM^01^00^01^00^00^00^10` | b
asm a b            | | |  |  | a = J1_1~CODE~@0000_raw_6010~DATA~END~ | b = J1IM^01^00^01^00^00^00^10`
list a             | | | J1_1~CODE~@0000_lit_0048~@0001_lit_4000~@0002_alu_T_N->[T]_d-1~@0003_alu_N_d-1_\_drop~DATA~@2000_0A~END~ |  | a = J1IM^01^00^04^00^01^00H^80^00^C0#`^03a~ | b
asm a b            | | |  |  | a = J1_1~CODE~@0000_lit_0048~@0001_lit_4000~@0002_alu_T_N->[T]_d-1~@0003_alu_N_d-1_\_drop~DATA~@2000_0A~END~ | b = J1IM^01^00^04^00^01^00H^80^00^C0#`^03a~
exec a --steps 7   | | | H | 6 steps used | a = J1IM^01^00^04^00^01^00H^80^00^C0#`^03a~ | b
exec a --steps 8   | | | HH | 6 steps used | a = J1IM^01^00^04^00^01^00H^80^00^C0#`^03a~ | b
build a b ; exec b | | | Hi |  | a = :_MAIN_72_EMIT_105_EMIT_; | a = :_MAIN_72_EMIT_105_EMIT_;
exec a             | | |  | 5 image byte 18 | a = J1IM^01^00^04^00^01^00H^80^00^C0#`^03a | b
list a             | | |  | 5 image byte 18 | a = J1IM^01^00^04^00^01^00H^80^00^C0#`^03a | b
exec a             | | |  | 5 image byte 19 | a = J1IM^01^00^04^00^01^00H^80^00^C0#`^03a~^00 | b
exec a             | | |  | 5 image byte 0 | a =  | b
exec a             | | |  | 5 image byte 7 | a = J1IM^01^00^01^10 | b
exec a             | | |  | 5 image byte 7 | a = J1IM^02^00^00_ | b
exec a             | | |  | 5 image byte 6 | a = J1IM^02^00^01^10 | b
exec a             | | | H | 9 halted 5 | a = J1IM^01^00^01^00^0E^00^00^10H^80^00^C0#`^03a^05^80^04^C0#` | b
exec a             | | |  | 8 outside 0 | a = J1IM^01^00^02^00^00^00^00^80^00l | b
exec a --steps 3   | | |  | 6 steps used | a = J1IM^01^00^01^00^00^00^0Cp | b
asm a b            | | |  | 5 listing line 3 | a = J1_1~CODE~lit_8000 | b
asm a b            | | |  | 5 listing line 1 | a =  | b
asm a b            | | |  | 5 listing line 3 | a = J1_1~CODE~@0001_raw_0000~ | b
asm a b            | | |  | 5 listing line 3 | a = J1_1~CODE~jump_:X~DATA~END~ | b
asm a b            | | |  | 5 listing line 5 | a = J1_1~CODE~DATA~END~END~ | b
make 0 2           | | | 30642_~tokens_17_bytes_52~ |  | a =  | b
list b             | | |  | 2 b: missing | a =  | b
exec b             | | |  | 2 b: missing | a =  | b
asm b a            | | |  | 2 b: missing | a =  | b
build b c          | | |  | 2 b: missing | a =  | b
build a b          | | |  | 3 source token 3: OpenDefinition | a = :_MAIN | b
build a b          | | |  | 4 MAIN: not certified: Data | a = :_MAIN_DROP_; | b
list a             | | | J1_2_1770~CODE~DATA~@1770_FF~END~ |  | a = J1IM^02^00p^17^00^00^01^00^FF | b
asm a b            | | |  |  | a = J1_2_1770~CODE~X:_@_\_over~~jump_:X~DATA~@1770_fF~END | b = J1IM^02^00p^17^02^00^01^00^00l^00^00^FF
"#;

#[test]
fn works_on_images(rt: HostRuntime) -> Result<(), Fail> {
    run_calls(rt.alloc(), CALLS)
}

// Each file may have so many bytes, and is too large with one more. Fields are those of `run_pieces`.
const LARGE: &str = r#"
exec a  | 5 image byte 0   | _ 32768
exec a  | 13 a: too large  | _ 32769
list a  | 5 image byte 0   | _ 32768
list a  | 13 a: too large  | _ 32769
asm a b | 5 listing line 1 | _ 524288
asm a b | 13 a: too large  | _ 524289
"#;

#[test]
fn tells_large_files(rt: HostRuntime) -> Result<(), Fail> {
    run_pieces(rt.alloc(), LARGE)
}
