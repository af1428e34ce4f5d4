// `trace`: a line for each instruction, and for each byte that is printed or taken.
use super::rows::{NEVER, Outside, call, run_calls, run_faults};
use crate::Status;
use std::alloc::Global;
use std::test::Fail;

// Words that have no form, and files that `exec` refuses too.
const REFUSED: &str = r#"
trace                   | | |  | 1 bad words     | a = J1IM^01^00^00^00^00^00
trace a b               | | |  | 1 bad words     | a = J1IM^01^00^00^00^00^00
trace -a                | | |  | 1 bad words     | a = J1IM^01^00^00^00^00^00
trace a --steps         | | |  | 1 bad words     | a = J1IM^01^00^00^00^00^00
trace a --steps 1000001 | | |  | 1 bad words     | a = J1IM^01^00^00^00^00^00
trace b --steps 1000000 | | |  | 2 b: missing    | a = J1IM^01^00^00^00^00^00
trace a                 | | |  | 5 image byte 11 | a = J1IM^01^00^01^00^00^00^10
trace a --steps 0       | | |  | 6 steps used    | a = J1IM^01^00^00^00^00^00
"#;

#[test]
fn refuses_what_is_no_image(rt: HostRuntime) -> Result<(), Fail> {
    run_calls(rt.alloc(), REFUSED)
}

// A print, and an end of the steps before and behind it; a call and a return; a fetch and a store at one address, of odd and even bytes; both
// pointers down from 0; a cell that is listed as a number; a halt; a fetch outside; and a byte that is taken, or that is not there.
const LINES: &str = r#"
trace a --steps 3 | | | 1_@0000_8048_T=0000_N=0000_R=0000_DSP=00_RSP=00_lit_0048~2_@0001_C000_T=0048_N=0000_R=0000_DSP=01_RSP=00_lit_4000~3_@0002_6023_T=4000_N=0048_R=0000_DSP=02_RSP=00_store_4000_0048_alu_T_N->[T]_d-1~print_48~ | 6 steps used | a = J1IM^01^00^04^00^01^00H^80^00^C0#`^03a~
trace a --steps 2 | | | 1_@0000_8048_T=0000_N=0000_R=0000_DSP=00_RSP=00_lit_0048~2_@0001_C000_T=0048_N=0000_R=0000_DSP=01_RSP=00_lit_4000~ | 6 steps used | a = J1IM^01^00^04^00^01^00H^80^00^C0#`^03a~
trace a --steps 3 | | | 1_@0000_4002_T=0000_N=0000_R=0000_DSP=00_RSP=00_call_0002~2_@0002_700C_T=0000_N=0000_R=0002_DSP=00_RSP=01_alu_T_R->PC_r-1_\_exit~3_@0001_0000_T=0000_N=0000_R=0000_DSP=00_RSP=00_jump_0000~ | 6 steps used | a = J1IM^01^00^03^00^00^00^02^40^00^00^0Cp
trace a --steps 3 | | | 1_@0000_A001_T=0000_N=0000_R=0000_DSP=00_RSP=00_lit_2001~2_@0001_6C20_T=2001_N=0000_R=0000_DSP=01_RSP=00_fetch_2000_1234_store_2000_0000_alu_[T]_N->[T]~3_@0002_0000_T=1234_N=0000_R=0000_DSP=01_RSP=00_jump_0000~ | 6 steps used | a = J1IM^01^00^02^00^02^00^01^A0^20l^34^12
trace a --steps 2 | | | 1_@0000_610F_T=0000_N=0000_R=0000_DSP=00_RSP=00_alu_N_r-1_d-1~2_@0001_6010_T=0000_N=0000_R=0000_DSP=1F_RSP=1F_raw_6010~ | 6 steps used | a = J1IM^01^00^02^00^00^00^0Fa^10`
trace a           | | | 1_@0000_8005_T=0000_N=0000_R=0000_DSP=00_RSP=00_lit_0005~2_@0001_C004_T=0005_N=0000_R=0000_DSP=01_RSP=00_lit_4004~3_@0002_6023_T=4004_N=0005_R=0000_DSP=02_RSP=00_store_4004_0005_alu_T_N->[T]_d-1~ | 9 halted 5 | a = J1IM^01^00^03^00^00^00^05^80^04^C0#`
trace a           | | | 1_@0000_8000_T=0000_N=0000_R=0000_DSP=00_RSP=00_lit_0000~2_@0001_6C00_T=0000_N=0000_R=0000_DSP=01_RSP=00_fetch_0000_alu_[T]_\_@~ | 8 outside 0 | a = J1IM^01^00^02^00^00^00^00^80^00l
trace a --steps 3 | | x | 1_@0000_C002_T=0000_N=0000_R=0000_DSP=00_RSP=00_lit_4002~2_@0001_6C00_T=4002_N=0000_R=0000_DSP=01_RSP=00_fetch_4002_alu_[T]_\_@~take_78~3_@0002_0000_T=0078_N=0000_R=0000_DSP=01_RSP=00_jump_0000~ | 6 steps used | a = J1IM^01^00^02^00^00^00^02^C0^00l
trace a --steps 3 | |   | 1_@0000_C002_T=0000_N=0000_R=0000_DSP=00_RSP=00_lit_4002~2_@0001_6C00_T=4002_N=0000_R=0000_DSP=01_RSP=00_fetch_4002_alu_[T]_\_@~ | 7 input ended | a = J1IM^01^00^02^00^00^00^02^C0^00l
"#;

#[test]
fn traces_instructions(rt: HostRuntime) -> Result<(), Fail> {
    run_calls(rt.alloc(), LINES)
}

// The line of an instruction is written before its byte is asked for.
const FAULTS: &str = r#"
files 1     | trace a --steps 3 | | x |  | 10 read fault | a = J1IM^01^00^02^00^00^00^02^C0^00l
questions 1 | trace a --steps 3 | | x | 1_@0000_C002_T=0000_N=0000_R=0000_DSP=00_RSP=00_lit_4002~2_@0001_6C00_T=4002_N=0000_R=0000_DSP=01_RSP=00_fetch_4002_alu_[T]_\_@~ | 10 read fault | a = J1IM^01^00^02^00^00^00^02^C0^00l
writes 1    | trace a --steps 3 | | x |  | 11 write fault | a = J1IM^01^00^02^00^00^00^02^C0^00l
writes 3    | trace a --steps 3 | | x | 1_@0000_C002_T=0000_N=0000_R=0000_DSP=00_RSP=00_lit_4002~2_@0001_6C00_T=4002_N=0000_R=0000_DSP=01_RSP=00_fetch_4002_alu_[T]_\_@~ | 11 write fault | a = J1IM^01^00^02^00^00^00^02^C0^00l
writes 3    | trace a --steps 2 | |   | 1_@0000_C002_T=0000_N=0000_R=0000_DSP=00_RSP=00_lit_4002~2_@0001_6C00_T=4002_N=0000_R=0000_DSP=01_RSP=00_fetch_4002_alu_[T]_\_@~ | 7 input ended | a = J1IM^01^00^02^00^00^00^02^C0^00l
"#;

#[test]
fn tells_faults(rt: HostRuntime) -> Result<(), Fail> {
    run_faults(rt.alloc(), FAULTS)
}

// The number of lines that are written where the steps are used, of an image without code, which jumps to cell 0 without an end.
fn counts_lines(alloc: Global, words: &str) -> Result<usize, Fail> {
    let mut met = Outside::new(alloc, b"", NEVER)?;
    met.files.put("a", b"J1IM\x01\x00\x00\x00\x00\x00")?;
    let is_used = call(alloc, &mut met, words)? == Status::StepsUsed;
    let lines = met.out.held().iter().filter(|byte| **byte == b'\n').count();
    Ok(if is_used { lines } else { 0 })
}

// 1,000 lines where no number is given.
#[test]
fn makes_so_many_lines(rt: HostRuntime) -> Result<(), Fail> {
    assert_eq!(rt; counts_lines(rt.alloc(), "trace a")?, 1000);
    assert_eq!(rt; counts_lines(rt.alloc(), "trace a --steps 1001")?, 1001);
    Ok(())
}
