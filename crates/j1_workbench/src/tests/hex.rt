// `hex`: the memory that an image begins with, as lines of hexadecimal digits.
use super::rows::{run_calls, run_faults, run_pieces};
use std::test::Fail;

// Words that have no form, and files that `list` refuses too. Nothing is written.
const REFUSED: &str = r#"
hex              | | |  | 1 bad words             | a = J1IM^01^00^00^00^00^00            | b
hex a            | | |  | 1 bad words             | a = J1IM^01^00^00^00^00^00            | b
hex a b c        | | |  | 1 bad words             | a = J1IM^01^00^00^00^00^00            | b
hex -a b         | | |  | 1 bad words             | a = J1IM^01^00^00^00^00^00            | b
hex a -b         | | |  | 1 bad words             | a = J1IM^01^00^00^00^00^00            | b
HEX a b          | | |  | 1 bad words             | a = J1IM^01^00^00^00^00^00            | b
hex c b          | | |  | 2 c: missing            | a = J1IM^01^00^00^00^00^00            | b
hex a b          | | |  | 5 image byte 0          | a =                                   | b
hex a b          | | |  | 5 image byte 11         | a = J1IM^01^00^01^00^00^00^10         | b
hex a b          | | |  | 5 image byte 12         | a = J1IM^01^00^01^00^00^00^10`~       | b
hex a b          | | |  | 5 image byte 6          | a = J1IM^02^00^01^10                  | b
"#;

#[test]
fn refuses_what_is_no_image(rt: HostRuntime) -> Result<(), Fail> {
    run_calls(rt.alloc(), REFUSED)
}

// 8192 lines: of both versions, where a byte alone is the low one of its cell, the last cell has its line, and data space begins at half its
// address; and of data bytes that reach the last cell of memory, with 1 at the byte before its end, which is its high byte.
const LINES: &str = r#"
hex a b |                   | J1IM^01^00^04^00^01^00H^80^00^C0#`^03a~ 1 | 8048~C000~6023~6103~ 1, 0000~ 4092, 000A~ 1, 0000~ 4095
hex a b |                   | J1IM^02^00p^17^01^00^03^00^0Cp^12^EF^09 1 | 700C~ 1, 0000~ 2999, EF12~0009~ 1, 0000~ 5190
hex a b |                   | J1IM^01^00^00^00^00_ 1, ^00 8191, ^01 1   | 0000~ 8191, 0100~ 1
hex a b | 5 image byte 8202 | J1IM^01^00^00^00^00_ 1, ^00 8191, ^01^00 1
hex a b | 13 a: too large   | _ 32769
"#;

#[test]
fn writes_each_cell(rt: HostRuntime) -> Result<(), Fail> {
    run_pieces(rt.alloc(), LINES)
}

// A file that can't be read or written.
const FAULTS: &str = r#"
files 1 | hex a b | | |  | 10 read fault  | a = J1IM^01^00^00^00^00^00 | b
files 2 | hex a b | | |  | 11 write fault | a = J1IM^01^00^00^00^00^00 | b
"#;

#[test]
fn tells_faults(rt: HostRuntime) -> Result<(), Fail> {
    run_faults(rt.alloc(), FAULTS)
}
