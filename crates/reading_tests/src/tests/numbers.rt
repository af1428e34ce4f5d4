// Tokens as numbers, with answers from the rules of the language, by hand.
use forth_reader::number_of;
use std::alloc::Global;
use std::test::Fail;
use test_notation::{field, number};

// A token, a base, and what is read.
const NUMBERS: &str = r#"
0                                | 10    | Value(0)
0072                             | 10    | Value(72)
65535                            | 10    | Value(65535)
65536                            | 10    | Range
-1                               | 10    | Value(65535)
-0                               | 10    | Value(0)
-32768                           | 10    | Value(32768)
-32769                           | 10    | Range
99999999999999999999999999999999 | 10    | Range
9999999999999999999999999999999A | 10    | NotNumber
                                 | 10    | NotNumber
-                                | 10    | NotNumber
--1                              | 10    | NotNumber
1-                               | 10    | NotNumber
+1                               | 10    | NotNumber
1.                               | 10    | NotNumber
1A                               | 10    | NotNumber
1111111111111111                 | 2     | Value(65535)
10000000000000000                | 2     | Range
-1000000000000000                | 2     | Value(32768)
2                                | 2     | NotNumber
FFFF                             | 16    | Value(65535)
ffFf                             | 16    | Value(65535)
-8000                            | 16    | Value(32768)
10000                            | 16    | Range
G                                | 16    | NotNumber
@                                | 16    | NotNumber
1ekf                             | 36    | Value(65535)
1EKG                             | 36    | Range
Z                                | 36    | Value(35)
[                                | 36    | NotNumber
{                                | 36    | NotNumber
0                                | 0     | NotNumber
0                                | 1     | NotNumber
0                                | 37    | NotNumber
0                                | 65535 | NotNumber
"#;

fn read_number(alloc: Global, line: &str) -> Result<(), Fail> {
    let mut rest = line;
    let text = field(&mut rest);
    let base = number(field(&mut rest), 10).ok_or(line)?;
    let told = format!(in alloc; "{:?}", number_of(text, base))?;
    if *told.as_str() == *field(&mut rest) {
        Ok(())
    } else {
        Ok(Err(line)?)
    }
}

#[test]
fn reads_numbers(rt: HostRuntime) -> Result<(), Fail> {
    for line in NUMBERS.trim_matches('\n').lines() {
        read_number(rt.alloc(), line)?;
    }
    Ok(())
}
