// Sources at the limits of the stacks, of code, of the output and of a text.
use super::rows::{NEVER, Row, run_row};
use std::alloc::Global;
use std::test::Fail;
use test_notation::{field, repeated};

// Pieces of a source, each with how often it stands; such pieces of what it prints; and its answer.
const LIMITS: &str = r#"
: MAIN_ 1, 7_ 33, DROP_ 33, ; 1
: MAIN_ 1, 7_ 34, DROP_ 34, ; 1                     |        | 4 MAIN: not certified: Data
: MAIN_ 1, 7_ 31, ; 1
: MAIN_ 1, 7_ 32, ; 1                               |        | 4 MAIN: not certified: Data
: MAIN_ 1, DEPTH_ 1, DROP_ 1, 7_ 32, DROP_ 32, ; 1
: MAIN_ 1, DEPTH_ 1, DROP_ 1, 7_ 33, DROP_ 33, ; 1  |        | 4 MAIN: not certified: Data
: MAIN_ 1, 7_ 33, DROP_ 33, ABORT_ 1, DEPTH_ 1, ; 1 |        | 4 MAIN: not certified: Data
: MAIN_ 1, 7_ 32, 1+_ 1, DROP_ 32, ; 1
: MAIN_ 1, 7_ 33, 1+_ 1, DROP_ 33, ; 1              |        | 4 MAIN: not certified: Data
: MAIN_ 1, 7_ 31, CR_ 1, DROP_ 31, ; 1              | ~ 1
: MAIN_ 1, 7_ 32, CR_ 1, DROP_ 32, ; 1              |        | 4 MAIN: not certified: Data
: MAIN_ 1, 7_ 32, EMIT_ 32, ; 1                     | ^07 32
: MAIN_ 1, 7_ 33, EMIT_ 33, ; 1                     |        | 4 MAIN: not certified: Data
: MAIN_ 1, 0_ 1, 1+_ 1198, DROP_ 1, ; 1
: MAIN_ 1, 0_ 1, 1+_ 1199, DROP_ 1, ; 1             |        | 3 source token 1203: CodeFull
: MAIN_ 1, 0_ 1, 1-_ 2396, DROP_ 1, ; 1
: MAIN_ 1, 0_ 1, 1-_ 2397, DROP_ 1, ; 1             |        | 3 source token 2402: CodeFull
: MAIN_ 1, 0_ 1, 1-_ 2398, DROP_ 1, ; 1             |        | 3 source token 2402: CodeFull
: MAIN_ 1, 0_ 1, 1-_ 2397, [CHAR]_A_ 1, ; 1         |        | 3 source token 2401: CodeFull
: MAIN_ 1, CHARS_ 3000, ; 1                         |        | 4 MAIN: not certified: Data
: MAIN_ 1, 0_ 1, CHARS_ 3000, DROP_ 1, ; 1
: MAIN_ 1, 65 EMIT_ 479, ; 1                        | A 479
: MAIN_ 1, 0_ 1, 1-_ 2390, ['] DUP DROP_ 1, DROP_ 1, ; 1 |   | 
: MAIN_ 1, 0_ 1, 1-_ 2391, ['] DUP DROP_ 1, DROP_ 1, ; 1 |   | 3 source token 2399: CodeFull
: MAIN_ 1, 0_ 1, 1-_ 2397, ['] DUP_ 1, ; 1          |        | 3 source token 2401: CodeFull
: MAIN_ 1, 0_ 1, 1-_ 2398, LITERAL_ 1, ; 1          |        | 3 source token 2402: HostUnderflow
: MAIN_ 1, 0_ 1, 1-_ 2397, [_1_]_LITERAL_ 1, ; 1    |        | 3 source token 2404: CodeFull
: MAIN_ 1, [_ 1, 7_ 32, ]_ 1, LITERAL_DROP_ 32, ; 1
: MAIN_ 1, [_ 1, 7_ 33, ]_ 1, ; 1                   |        | 3 source token 36: HostOverflow
: MAIN_ 1, [_ 1, 7_ 32, DUP_ 1, ]_ 1, ; 1           |        | 3 source token 36: HostOverflow
: MAIN_ 1, [_ 1, 7_ 32, HERE_ 1, ]_ 1, ; 1          |        | 3 source token 36: HostOverflow
_ 65536                                             |        | 3 source token 1: NoMain
_ 65537                                             |        | 13 source.fs: too large
A 65536                                             |        | 3 source token 1: NameTooLong
"#;

/// Runs a line of pieces.
pub(super) fn run_limit(alloc: Global, line: &str) -> Result<(), Fail> {
    let mut rest = line;
    let source = repeated(alloc, field(&mut rest))?;
    let out = repeated(alloc, field(&mut rest))?;
    let row = Row {
        words: "run source.fs",
        source: source.as_str(),
        console: "",
        out: out.as_str(),
        answer: field(&mut rest),
        files: "",
        after: "",
    };
    run_row(alloc, &row, NEVER)
}

#[test]
fn keeps_limits(rt: HostRuntime) -> Result<(), Fail> {
    for line in LIMITS.trim_matches('\n').lines() {
        run_limit(rt.alloc(), line)?;
    }
    Ok(())
}
