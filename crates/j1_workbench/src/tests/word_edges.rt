// Words of one and two cells at the ends of their range, as sources, with answers from the standard.
use super::rows::runs_text;
use std::alloc::{AllocError, Global};
use std::test::Fail;
use test_notation::{cells_in, field};

// A word: the first cells, the second cells where there are two, and the result of each pair.
const EDGES: &str = r#"
NEGATE | 0 1 32767 32768 65535 | | 0 65535 32769 32768 1
1+ | 0 1 32767 32768 65535 | | 1 2 32768 32769 0
1- | 0 1 32767 32768 65535 | | 65535 0 32766 32767 65534
2* | 0 1 32767 32768 65535 | | 0 2 65534 0 65534
INVERT | 0 1 32767 32768 65535 | | 65535 65534 32768 32767 0
0= | 0 1 32767 32768 65535 | | 65535 0 0 0 0
0< | 0 1 32767 32768 65535 | | 0 0 0 65535 65535
CELLS | 0 1 32767 32768 65535 | | 0 2 65534 0 65534
CELL+ | 0 1 32767 32768 65535 | | 2 3 32769 32770 1
CHARS | 0 1 32767 32768 65535 | | 0 1 32767 32768 65535
CHAR+ | 0 1 32767 32768 65535 | | 1 2 32768 32769 0
ALIGNED | 0 1 32767 32768 65535 | | 0 2 32768 32768 0
+ | 0 1 32767 32768 65535 | 0 1 32767 32768 65535 | 0 1 32767 32768 65535 1 2 32768 32769 0 32767 32768 65534 65535 32766 32768 32769 65535 0 32767 65535 0 32766 32767 65534
- | 0 1 32767 32768 65535 | 0 1 32767 32768 65535 | 0 65535 32769 32768 1 1 0 32770 32769 2 32767 32766 0 65535 32768 32768 32767 1 0 32769 65535 65534 32768 32767 0
AND | 0 1 32767 32768 65535 | 0 1 32767 32768 65535 | 0 0 0 0 0 0 1 1 0 1 0 1 32767 0 32767 0 0 0 32768 32768 0 1 32767 32768 65535
OR | 0 1 32767 32768 65535 | 0 1 32767 32768 65535 | 0 1 32767 32768 65535 1 1 32767 32769 65535 32767 32767 32767 65535 65535 32768 32769 65535 32768 65535 65535 65535 65535 65535 65535
XOR | 0 1 32767 32768 65535 | 0 1 32767 32768 65535 | 0 1 32767 32768 65535 1 0 32766 32769 65534 32767 32766 0 65535 32768 32768 32769 65535 0 32767 65535 65534 32768 32767 0
= | 0 1 32767 32768 65535 | 0 1 32767 32768 65535 | 65535 0 0 0 0 0 65535 0 0 0 0 0 65535 0 0 0 0 0 65535 0 0 0 0 0 65535
< | 0 1 32767 32768 65535 | 0 1 32767 32768 65535 | 0 65535 65535 0 0 0 0 65535 0 0 0 0 0 0 0 65535 65535 65535 0 65535 65535 65535 65535 0 0
> | 0 1 32767 32768 65535 | 0 1 32767 32768 65535 | 0 0 0 65535 65535 65535 0 0 65535 65535 65535 65535 0 65535 65535 0 0 0 0 0 0 0 0 65535 0
U< | 0 1 32767 32768 65535 | 0 1 32767 32768 65535 | 0 65535 65535 65535 65535 0 0 65535 65535 65535 0 0 0 65535 65535 0 0 0 0 65535 0 0 0 0 0
LSHIFT | 0 1 32767 32768 65535 | 0 1 15 16 17 65535 | 0 0 0 0 0 0 1 2 32768 1 2 32768 32767 65534 32768 32767 65534 32768 32768 0 0 32768 0 0 65535 65534 32768 65535 65534 32768
RSHIFT | 0 1 32767 32768 65535 | 0 1 15 16 17 65535 | 0 0 0 0 0 0 1 0 0 1 0 0 32767 16383 0 32767 16383 0 32768 16384 1 32768 16384 1 65535 32767 1 65535 32767 1
"#;

// Appends a word on each pair of cells, and prints each result.
fn append_edges(
    text: &mut Vec<u8>,
    first: &str,
    seconds: &str,
    word: &str,
) -> Result<(), AllocError> {
    for second in seconds.split(' ') {
        for item in [first, second, word] {
            text.push(b' ')?;
            text.extend_from_slice(item.as_bytes())?;
        }
        text.extend_from_slice(b" DUP 8 RSHIFT EMIT EMIT")?;
    }
    Ok(())
}

// A definition of MAIN that does a word on each pair of cells, and prints each result, the high byte first.
fn edges_of(alloc: Global, word: &str, firsts: &str, seconds: &str) -> Result<Vec<u8>, AllocError> {
    let mut text = Vec::from_slice(alloc, b": MAIN")?;
    for first in firsts.split_whitespace() {
        append_edges(&mut text, first, seconds, word)?;
    }
    text.extend_from_slice(b" ;")?;
    Ok(text)
}

// The bytes of the cells of a list, of each the high byte first.
fn results_in(alloc: Global, list: &str) -> Result<Vec<u8>, Fail> {
    let mut bytes = Vec::new(alloc);
    for cell in cells_in(alloc, list, 10)?.as_slice() {
        bytes.push((*cell / 256) as u8)?;
        bytes.push((*cell % 256) as u8)?;
    }
    Ok(bytes)
}

fn runs_edges(alloc: Global, line: &str) -> Result<bool, Fail> {
    let mut rest = line;
    let word = field(&mut rest);
    let firsts = field(&mut rest);
    let seconds = field(&mut rest);
    let text = edges_of(alloc, word, firsts, seconds)?;
    let printed = results_in(alloc, field(&mut rest))?;
    runs_text(alloc, text.as_slice(), b"", printed.as_slice(), "")
}

#[test]
fn does_words_at_edges(rt: HostRuntime) -> Result<(), Fail> {
    for line in EDGES.trim_matches('\n').lines() {
        if !runs_edges(rt.alloc(), line)? {
            Err(line)?;
        }
    }
    Ok(())
}
