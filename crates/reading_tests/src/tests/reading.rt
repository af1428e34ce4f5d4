// Worked texts for the reader, with answers from the rules of the language, by hand.
use forth_reader::{ReadRefusal, Reader, Token};
use std::alloc::{AllocError, Global};
use std::test::Fail;
use test_notation::{bytes_in, field};

// A text, and the calls on it in their order: each with the text, the place and the number of its token, a string in quotes, the number of
// all tokens at the end, or the number of the refused token and the cause.
const TOKENS: &str = r#"
                                                                 | next = ends 0
_^09^0D~                                                         | next = ends 0 & next = ends 0
: SQUARE DUP * ;                                                 | next = : 0 1 & next = SQUARE 2 2 & next = DUP 9 3 & next = * 13 4 & next = ; 15 5 & next = ends 5
( a)B( b)C ( c                                                   | next = B( 4 2 & next = b)C 7 3 & next = fails 4 OpenComment
A ( b ( c ) d ) E                                                | next = A 0 1 & next = d 12 3 & next = ) 14 4 & next = E 16 5 & next = ends 5
(a) ()                                                           | next = (a) 0 1 & next = () 4 2 & next = ends 2
(~a~) ( )B                                                       | next = B 9 3 & next = ends 3
A (                                                              | next = A 0 1 & next = fails 2 OpenComment
A \                                                              | next = A 0 1 & next = ends 2
\ a ( b^0D~C\ D\~                                                | next = C\ 9 2 & next = D\ 12 3 & next = ends 3
ABCDEFGHIJKLMNOPQRSTUVWXYZ12345 ABCDEFGHIJKLMNOPQRSTUVWXYZ123456 | next = ABCDEFGHIJKLMNOPQRSTUVWXYZ12345 0 1 & next = fails 2 NameTooLong
ABCDEFGHIJKLMNOPQRSTUVWXYZ123456^7F                              | next = fails 1 NotText
"#;

const STRINGS: &str = r#"
: ( ( a )                          | next = : 0 1 & name = ( 2 2 & name = ( 4 3 & next = a 6 4 & next = ) 8 5 & name = ends 5
CHAR \ A                           | next = CHAR 0 1 & name = \ 5 2 & name = A 7 3
'_                                 | next = ' 0 1 & name = ends 1
' ABCDEFGHIJKLMNOPQRSTUVWXYZ123456 | next = ' 0 1 & name = fails 2 NameTooLong
' ^FFA                             | next = ' 0 1 & name = fails 2 NotText
." "A                              | next = ." 0 1 & string = "" & next = A 4 2
S"__( a^09^0D" TYPE                | next = S" 0 1 & string = "_(_a^09^0D" & next = TYPE 11 2
S"^09A"^80                         | next = S" 0 1 & string = "A" & next = fails 2 NotText
."                                 | next = ." 0 1 & string = fails 1 OpenString
."~A"                              | next = ." 0 1 & string = fails 1 OpenString
." A~"                             | next = ." 0 1 & string = fails 1 OpenString
." A                               | next = ." 0 1 & string = fails 1 OpenString
." A^00"                           | next = ." 0 1 & string = fails 1 NotText
"#;

// Where `@` is any byte that is none of a source: in the space, behind a token, a `(` and a `\`, in both comments, behind them, where it
// belongs to the next token, and in a string.
const OTHERS: &str = r#"
@     | next = fails 1 NotText
_@_   | next = fails 1 NotText
A@    | next = fails 1 NotText
(@)   | next = fails 1 NotText
\@~   | next = fails 1 NotText
( @)  | next = fails 1 NotText
\ @~  | next = fails 1 NotText
( )@  | next = fails 2 NotText
\~@   | next = fails 2 NotText
(@    | name = fails 1 NotText
." @" | next = ." 0 1 & string = fails 1 NotText
"#;

fn token_told(
    alloc: Global,
    answer: Result<Option<Token>, ReadRefusal>,
    count: u32,
) -> Result<String, AllocError> {
    match answer {
        Ok(Some(token)) => format!(in alloc; "{} {} {}", token.text, token.start, token.number),
        Ok(None) => format!(in alloc; "ends {count}"),
        Err(refusal) => refusal_told(alloc, refusal),
    }
}

fn refusal_told(alloc: Global, refusal: ReadRefusal) -> Result<String, AllocError> {
    format!(in alloc; "fails {} {:?}", refusal.token, refusal.cause)
}

fn string_told(alloc: Global, answer: Result<&str, ReadRefusal>) -> Result<String, AllocError> {
    match answer {
        Ok(text) => format!(in alloc; "\"{text}\""),
        Err(refusal) => refusal_told(alloc, refusal),
    }
}

// What a call answers.
fn told(alloc: Global, reader: &mut Reader, call: &str) -> Result<String, AllocError> {
    if call == "string" {
        return string_told(alloc, reader.string());
    }
    let answer = if call == "name" {
        reader.name()
    } else {
        reader.next()
    };
    token_told(alloc, answer, reader.count())
}

fn is_told(
    alloc: Global,
    reader: &mut Reader,
    call: &str,
    wanted: &[u8],
) -> Result<bool, AllocError> {
    Ok(*told(alloc, reader, call)?.as_bytes() == *wanted)
}

// Whether the reader gives a refusal by every call.
fn stays_refused(alloc: Global, reader: &mut Reader, refusal: &[u8]) -> Result<bool, AllocError> {
    for call in "next name string".split(' ') {
        if !is_told(alloc, reader, call, refusal)? {
            return Ok(false);
        }
    }
    Ok(true)
}

// Whether a call gives its answer. A refusal stands for good.
fn answers(alloc: Global, reader: &mut Reader, call: &str) -> Result<bool, Fail> {
    let (call, wanted) = call.split_once('=').ok_or("no call")?;
    let wanted = bytes_in(alloc, wanted.trim_ascii())?;
    let is_wanted = is_told(alloc, reader, call.trim_ascii(), wanted.as_slice())?;
    let is_refused = wanted.as_slice().starts_with(b"fails");
    Ok(is_wanted && (!is_refused || stays_refused(alloc, reader, wanted.as_slice())?))
}

// Whether the calls on this text, in their order, give the answers that are wanted.
fn reads(alloc: Global, bytes: &[u8], calls: &str) -> Result<bool, Fail> {
    if bytes.len() > 1_000_000 {
        return Ok(false);
    }
    let mut reader = Reader::new(bytes);
    for call in calls.split('&') {
        if !answers(alloc, &mut reader, call)? {
            return Ok(false);
        }
    }
    Ok(true)
}

// Reads the text of a line with this byte in the places of `@`.
fn read_row(alloc: Global, line: &str, byte: u8) -> Result<(), Fail> {
    let mut rest = line;
    let mut bytes = bytes_in(alloc, field(&mut rest))?;
    for place in bytes.as_mut_slice() {
        if *place == b'@' {
            *place = byte;
        }
    }
    if reads(alloc, bytes.as_slice(), rest)? {
        Ok(())
    } else {
        Ok(Err(line)?)
    }
}

fn read_rows(alloc: Global, table: &str, byte: u8) -> Result<(), Fail> {
    for line in table.trim_matches('\n').lines() {
        read_row(alloc, line, byte)?;
    }
    Ok(())
}

#[test]
fn reads_tokens(rt: HostRuntime) -> Result<(), Fail> {
    read_rows(rt.alloc(), TOKENS, b'@')
}

#[test]
fn reads_names_and_strings(rt: HostRuntime) -> Result<(), Fail> {
    read_rows(rt.alloc(), STRINGS, b'@')
}

#[test]
fn refuses_other_bytes(rt: HostRuntime) -> Result<(), Fail> {
    for byte in bytes_in(rt.alloc(), "^00^08^0B^0C^0E^1F^7F^80^FF")?.as_slice() {
        read_rows(rt.alloc(), OTHERS, *byte)?;
    }
    Ok(())
}

#[test]
fn refuses_a_long_token(rt: HostRuntime) -> Result<(), Fail> {
    let bytes = vec![in rt.alloc(); b'A'; 65536]?;
    let is_refused = reads(rt.alloc(), bytes.as_slice(), "next = fails 1 NameTooLong")?;
    assert!(rt; is_refused);
    Ok(())
}
