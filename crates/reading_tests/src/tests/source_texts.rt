// Source texts, as the reader of programs takes them: their definitions and tokens, or why they are refused.
use control_flow::{Nest, SourceCause, SourceError, read_program};
use forth_program::{DefId, Item, Program};
use std::alloc::{AllocError, Global};
use std::test::Fail;
use test_notation::{bytes_in, field, repeated};
use word_table::Word;

// A text, and what is read of it: the number of definitions and that of tokens, the refused token and the cause, or that it is not built yet.
const TEXTS: &str = r#"
: OTHER ; ( one more )                                                       | 5 NoMain
: MAIN 1                                                                     | 4 OpenDefinition
: ( abc ) ;                                                                  | 2 NeedsName
: \ ;                                                                        | 2 NeedsName
: abort" ;                                                                   | 2 NeedsName
: MAIN ^80 ;                                                                 | 3 NotText
: MAIN XYZZY^7F ;                                                            | 3 NotText
: MAIN XYZZY ;                                                               | 3 UnknownWord
: A 65 EMIT ; : A A 66 EMIT ; : MAIN A ;                                     | 3 15
: DUP ; : if ; : MAIN dup IF ;                                               | 3 11
: EXIT-NOW ; : MAIN exit-now Exit-Now ;                                      | 2 8
: abcdefghijklmnopqrstuvwxyzabcde ; : MAIN ABCDEFGHIJKLMNOPQRSTUVWXYZABCDE ; | 2 7
: abcdefghijklmnopqrstuvwxyzabcdef ;                                         | 2 NameTooLong
: MAIN abcdefghijklmnopqrstuvwxyzabcdef ;                                    | 3 NameTooLong
: MAIN MAIN ;                                                                | 3 UnknownWord
: MAIN RECURSE ; ( a ) \ b                                                   | 1 6
: MAIN -7 2 /MOD . . 0 ?DUP ;                                                | 1 10
: MAIN -32768 65535 $-8000 #-5 %-101 $fFfF 'a' ''' - -0 ;                    | 1 13
: MAIN -32769 ;                                                              | 3 NumberRange
: MAIN -$1 ;                                                                 | 3 UnknownWord
: MAIN $ ;                                                                   | 3 UnknownWord
: MAIN '' ;                                                                  | 3 UnknownWord
: MAIN 1F ;                                                                  | 3 UnknownWord
: F IF UNTIL ;                                                               | 4 BadNest
: F IF ELSE ELSE ;                                                           | 5 BadNest
: F BEGIN WHILE WHILE ;                                                      | 5 BadNest
: F BEGIN DO LOOP REPEAT ;                                                   | 6 BadNest
: F CASE IF OF ;                                                             | 5 BadNest
: F CASE ENDOF ;                                                             | 4 BadNest
: F DO LOOP LEAVE ;                                                          | 5 BadNest
: F BEGIN LEAVE AGAIN ;                                                      | 4 BadNest
: MAIN 0 IF XYZZY ;                                                          | 5 UnknownWord
: MAIN DO CASE OF IF LEAVE THEN ENDOF ENDCASE LOOP ;                         | 1 12
: MAIN 1 EXECUTE ;                                                           | 1 5
: MAIN : ;                                                                   | 3 NotInDefinition
: MAIN CREATE ;                                                              | 5 NoMain
: MAIN ; 5 CONSTANT X                                                        | 1 6
XYZZY                                                                        | 1 UnknownWord
XYZZY^80                                                                     | 1 NotText
: MAIN [CHAR] A [CHAR] ( [char] XYZ ;                                        | 1 9
: MAIN [CHAR] A XYZZY ;                                                      | 5 UnknownWord
: MAIN [CHAR] A^80 ;                                                         | 4 NotText
: MAIN XYZZY ['] A ;                                                         | 3 UnknownWord
: MAIN ; DUP ( a                                                             | 4 HostUnderflow
: MAIN ; ( a                                                                 | 4 OpenComment
"#;

// Pieces of a text, each with how often it stands, and what is read of it.
const LIMITS: &str = r#"
:_F_ 1, IF_ 17                     | 19 TooDeep
:_F_ 1, BEGIN_ 17                  | 19 TooDeep
:_F_ 1, DO_ 17                     | 19 TooDeep
:_F_ 1, ?DO_ 17                    | 19 TooDeep
:_F_ 1, CASE_ 17                   | 19 TooDeep
:_F_IF_ 1, CASE_OF_ 8              | 19 TooDeep
:_F_ 1, CASE_OF_ 9                 | 19 TooDeep
:_F_ 1, IF_ELSE_ 17                | 35 TooDeep
:_F_ 1, BEGIN_WHILE_ 17            | 35 TooDeep
:_F_ 1, IF_ 16, OF 1               | 19 BadNest
:_F_ 1, IF_ 16, UNTIL 1            | 19 BadNest
:_F_ 1, IF_THEN_ 17, ;_:_MAIN_; 1  | 2 40
:_A_;_ 513                         | 1538 TooManyWords
:_A_;_ 512, :_; 1                  | 1538 NeedsName
:_A_;_ 511, :_MAIN_; 1             | 512 1536
:_MAIN_DUP_ 1, 1_ 1199, ; 1        | 1 1203
:_MAIN_ 1, 1_ 1200, ; 1            | 1203 CodeFull
:_MAIN_DUP_ 1, 1_ 1200             | 1203 CodeFull
:_MAIN_ 1, 1_ 1200, BEGIN_LOOP 1   | 1204 BadNest
:_MAIN_DUP_ 1, 1_ 1199, [CHAR]_A 1 | 1203 CodeFull
:_MAIN_ 1, 1_ 1197, DO 1           | 1200 CodeFull
"#;

// What is read of a text.
fn told(alloc: Global, text: &[u8]) -> Result<String, AllocError> {
    if text.len() > 65536 {
        return String::from_str(alloc, "too large");
    }
    match read_program(alloc, text) {
        Ok(program) => format!(in alloc; "{} {}", program.def_count(), program.source_tokens()),
        Err(SourceError::Refused(refusal)) => format!(in alloc;
            "{} {:?}",
            refusal.token, refusal.cause
        ),
        Err(SourceError::OutOfMemory) => Err(AllocError),
    }
}

// Reads a text, and tells one that gives anything else than is wanted.
fn read_text(alloc: Global, text: &str, wanted: &str) -> Result<(), Fail> {
    let bytes = bytes_in(alloc, text)?;
    if *told(alloc, bytes.as_slice())?.as_str() == *wanted {
        Ok(())
    } else {
        Err(format!(in alloc; "{text}: {wanted}")?)?;
        Ok(())
    }
}

#[test]
fn judges_texts(rt: HostRuntime) -> Result<(), Fail> {
    for line in TEXTS.trim_matches('\n').lines() {
        let mut rest = line;
        let text = field(&mut rest);
        read_text(rt.alloc(), text, field(&mut rest))?;
    }
    Ok(())
}

#[test]
fn judges_long_texts(rt: HostRuntime) -> Result<(), Fail> {
    for line in LIMITS.trim_matches('\n').lines() {
        let mut rest = line;
        let text = repeated(rt.alloc(), field(&mut rest))?;
        read_text(rt.alloc(), text.as_str(), field(&mut rest))?;
    }
    Ok(())
}

// Whether a program has a loop behind two numbers that calls its second definition first, and ends with a CASE of one arm.
fn has_loop(program: &Program) -> bool {
    match program.body(program.main()).list().get(2) {
        Some(Item::Do(body, false)) => {
            matches!(body.list().get(0), Some(Item::Call(DefId(1)))) && has_case(body.list())
        }
        _ => false,
    }
}

fn has_case(items: &[Item]) -> bool {
    match items.get(2) {
        Some(Item::Case(arms, rest)) => arms.list().len() == 1 && rest.list().len() == 0,
        _ => false,
    }
}

#[test]
fn reads_a_program(rt: HostRuntime) -> Result<(), Fail> {
    let text =
        b": A 65 EMIT ; : A A 66 EMIT ; : Main 2 0 DO A I CASE 1 OF LEAVE ENDOF ENDCASE LOOP ;";
    match read_program(rt.alloc(), text) {
        Ok(program) => {
            assert_eq!(rt; program.def_count(), 3);
            assert_eq!(rt; program.name(program.main()), "Main");
            assert_eq!(rt; program.body(DefId(1)).list().len(), 3);
            assert_eq!(rt; program.space().len(), 128);
            assert!(rt; has_loop(&program));
        }
        Err(error) => assert!(rt; false, "{error:?}"),
    }
    Ok(())
}

#[test]
fn nests_at_most_sixteen(rt: HostRuntime) {
    let mut nest = Nest::new();
    assert_eq!(rt; nest.opens(Word::Of), Err(SourceCause::BadNest));
    for _ in 0..15 {
        assert_eq!(rt; nest.opens(Word::Do), Ok(()));
    }
    assert_eq!(rt; nest.opens(Word::Case), Ok(()));
    assert_eq!(rt; nest.opens(Word::If), Err(SourceCause::TooDeep));
    assert_eq!(rt; nest.opens(Word::Of), Err(SourceCause::TooDeep));
    assert_eq!(rt; nest.closes(Word::Leave), Ok(()));
    assert_eq!(rt; nest.closes(Word::Loop), Err(SourceCause::BadNest));
    assert_eq!(rt; nest.closes(Word::EndCase), Ok(()));
    assert_eq!(rt; nest.closes(Word::PlusLoop), Ok(()));
}
