// Why sources with words outside definitions are refused: each cause at its token, also where another cause stands at the same one.
use super::limits::run_limit;
use super::rows::run_rows;
use std::alloc::Global;
use std::test::Fail;

// Bytes, comments, strings and long tokens.
const TEXT: &str = r#"
CREATE A2345678901234567890123456789012^07           |  |  | 3 source token 2: NotText
1 ^07CONSTANT X                                      |  |  | 3 source token 2: NotText
' ^80NOPE                                            |  |  | 3 source token 2: NotText
CONSTANT^7F                                          |  |  | 3 source token 1: NotText
: MAIN ; ^0C                                         |  |  | 3 source token 4: NotText
S" a^07                                              |  |  | 3 source token 1: NotText
( a^07                                               |  |  | 3 source token 1: NotText
1 CONSTANT A2345678901234567890123456789012          |  |  | 3 source token 3: NameTooLong
12345678901234567890123456789012                     |  |  | 3 source token 1: NameTooLong
' A2345678901234567890123456789012                   |  |  | 3 source token 2: NameTooLong
1 CONSTANT X ( abc                                   |  |  | 3 source token 4: OpenComment
: D CREATE ( abc                                     |  |  | 3 source token 4: OpenComment
S" abc                                               |  |  | 3 source token 1: OpenString
: D CREATE ." abc                                    |  |  | 3 source token 4: OpenString
ABORT"~"                                             |  |  | 3 source token 1: OpenString
"#;

// Names that are due, unknown words and numbers out of range.
const NAMES: &str = r#"
1 CONSTANT                                           |  |  | 3 source token 3: NeedsName
1 CONSTANT ;                                         |  |  | 3 source token 3: NeedsName
VARIABLE (                                           |  |  | 3 source token 2: NeedsName
CREATE ." X"                                         |  |  | 3 source token 2: NeedsName
CREATE \ 1                                           |  |  | 3 source token 2: NeedsName
CHAR                                                 |  |  | 3 source token 2: NeedsName
'                                                    |  |  | 3 source token 2: NeedsName
' EXECUTE                                            |  |  | 3 source token 2: NeedsName
' CONSTANT                                           |  |  | 3 source token 2: NeedsName
' IF                                                 |  |  | 3 source token 2: NeedsName
' >R                                                 |  |  | 3 source token 2: NeedsName
: D CREATE ; ' D                                     |  |  | 3 source token 6: NeedsName
: D CREATE , ; 1 D                                   |  |  | 3 source token 8: NeedsName
: D CREATE , ; D S"                                  |  |  | 3 source token 7: NeedsName
1 >BODY                                              |  |  | 3 source token 2: NeedsName
: A ; ' A >BODY                                      |  |  | 3 source token 6: NeedsName
5 CONSTANT K ' K >BODY                               |  |  | 3 source token 6: NeedsName
' DUP >BODY                                          |  |  | 3 source token 3: NeedsName
VARIABLE V ' V DROP 2 >BODY                          |  |  | 3 source token 7: NeedsName
' DUP2                                               |  |  | 3 source token 2: UnknownWord
NOPE                                                 |  |  | 3 source token 1: UnknownWord
1 BASE ! 0                                           |  |  | 3 source token 4: UnknownWord
2 BASE ! 2                                           |  |  | 3 source token 4: UnknownWord
' 5                                                  |  |  | 3 source token 2: UnknownWord
: D CREATE NOPE                                      |  |  | 3 source token 4: UnknownWord
: D CREATE DOES> D                                   |  |  | 3 source token 5: UnknownWord
65536 CONSTANT X                                     |  |  | 3 source token 1: NumberRange
HEX 10000                                            |  |  | 3 source token 2: NumberRange
-32769                                               |  |  | 3 source token 1: NumberRange
: D CREATE $10000                                    |  |  | 3 source token 4: NumberRange
"#;

// Words that cannot stand inside a definition, in a host part neither.
const INSIDE: &str = r#"
: X VARIABLE Y ;                                     |  |  | 3 source token 3: NotInDefinition
: X CONSTANT ;                                       |  |  | 3 source token 3: NotInDefinition
: X ' NOPE ;                                         |  |  | 3 source token 3: NotInDefinition
: X CHAR ;                                           |  |  | 3 source token 3: NotInDefinition
: X CODE-CELLS ;                                     |  |  | 3 source token 3: NotInDefinition
: D CREATE ; : X D Y ;                               |  |  | 3 source token 7: NotInDefinition
: X 1 >BODY ;                                        |  |  | 3 source token 4: NotInDefinition
: X DUP CREATE ;                                     |  |  | 3 source token 4: NotInDefinition
: X DOES> ;                                          |  |  | 3 source token 3: NotInDefinition
: D CREATE DOES> RECURSE ;                           |  |  | 3 source token 5: NotInDefinition
: D CREATE DOES> DOES> ;                             |  |  | 3 source token 5: NotInDefinition
: D CREATE DOES> CREATE ;                            |  |  | 3 source token 5: NotInDefinition
: D CREATE CREATE ;                                  |  |  | 3 source token 4: NotInDefinition
: D CREATE DUP . ;                                   |  |  | 3 source token 5: NotInDefinition
: D CREATE IF ;                                      |  |  | 3 source token 4: NotInDefinition
: D CREATE THEN ;                                    |  |  | 3 source token 4: NotInDefinition
: D CREATE [ 1 ] ;                                   |  |  | 3 source token 4: NotInDefinition
: D CREATE ] ;                                       |  |  | 3 source token 4: NotInDefinition
: D CREATE CHAR A ;                                  |  |  | 3 source token 4: NotInDefinition
: D CREATE 3000 CODE-CELLS ;                         |  |  | 3 source token 5: NotInDefinition
: D CREATE >BODY ;                                   |  |  | 3 source token 4: NotInDefinition
: D CREATE S" a" ;                                   |  |  | 3 source token 4: NotInDefinition
: A ; : D CREATE A ;                                 |  |  | 3 source token 7: NotInDefinition
5 : D CREATE LITERAL ;                               |  |  | 3 source token 5: NotInDefinition
: C CREATE , DOES> @ ; 1 C N : D CREATE N ;          |  |  | 3 source token 14: NotInDefinition
: C CREATE , DOES> @ ; 1 C N : MAIN [ N ] ;          |  |  | 3 source token 14: NotInDefinition
: D CREATE RECURSE ;                                 |  |  | 3 source token 4: NotInDefinition
"#;

// Words that can stand only inside a definition, and structures behind `DOES>`.
const OUTSIDE: &str = r#"
;                                                    |  |  | 3 source token 1: OnlyInDefinition
: MAIN ; ]                                           |  |  | 3 source token 4: OnlyInDefinition
[ 1 ]                                                |  |  | 3 source token 1: OnlyInDefinition
IF                                                   |  |  | 3 source token 1: OnlyInDefinition
1 .                                                  |  |  | 3 source token 2: OnlyInDefinition
: A ; A                                              |  |  | 3 source token 4: OnlyInDefinition
DOES>                                                |  |  | 3 source token 1: OnlyInDefinition
['] NOPE                                             |  |  | 3 source token 1: OnlyInDefinition
[CHAR]                                               |  |  | 3 source token 1: OnlyInDefinition
LITERAL                                              |  |  | 3 source token 1: OnlyInDefinition
S" abc"                                              |  |  | 3 source token 1: OnlyInDefinition
NIP                                                  |  |  | 3 source token 1: OnlyInDefinition
' DUP EXECUTE                                        |  |  | 3 source token 3: OnlyInDefinition
: C CREATE , DOES> @ ; 1 C N N                       |  |  | 3 source token 11: OnlyInDefinition
: D CREATE DOES> THEN ;                              |  |  | 3 source token 5: BadNest
: D CREATE DOES> IF ;                                |  |  | 3 source token 6: BadNest
: D CREATE DOES> LEAVE ;                             |  |  | 3 source token 5: BadNest
: D CREATE DOES> ] ;                                 |  |  | 3 source token 5: BadNest
: D CREATE DOES> BEGIN BEGIN BEGIN BEGIN BEGIN BEGIN BEGIN BEGIN BEGIN BEGIN BEGIN BEGIN BEGIN BEGIN BEGIN BEGIN IF |  |  | 3 source token 21: TooDeep
"#;

// What host words find: too few cells, another split, data space that is full.
const HOST: &str = r#"
CONSTANT X                                           |  |  | 3 source token 1: HostUnderflow
CONSTANT                                             |  |  | 3 source token 1: HostUnderflow
CONSTANT A2345678901234567890123456789012            |  |  | 3 source token 1: HostUnderflow
DROP                                                 |  |  | 3 source token 1: HostUnderflow
1 +                                                  |  |  | 3 source token 2: HostUnderflow
1 !                                                  |  |  | 3 source token 2: HostUnderflow
1 2 ROT                                              |  |  | 3 source token 3: HostUnderflow
,                                                    |  |  | 3 source token 1: HostUnderflow
>BODY                                                |  |  | 3 source token 1: HostUnderflow
: D CREATE , ; D X                                   |  |  | 3 source token 6: HostUnderflow
: D CREATE 0 ! ; D X                                 |  |  | 3 source token 7: HostUnderflow
5 : A LITERAL ; : MAIN LITERAL ;                     |  |  | 3 source token 8: HostUnderflow
CODE-CELLS                                           |  |  | 3 source token 1: HostUnderflow
: MAIN ; CODE-CELLS                                  |  |  | 3 source token 4: HostUnderflow
1 DROP CODE-CELLS                                    |  |  | 3 source token 3: HostUnderflow
1 CODE-CELLS                                         |  |  | 3 source token 2: BadSplit
: MAIN ; 3000 CODE-CELLS                             |  |  | 3 source token 5: BadSplit
2047 CODE-CELLS                                      |  |  | 3 source token 2: BadSplit
8001 CODE-CELLS                                      |  |  | 3 source token 2: BadSplit
-1 CODE-CELLS                                        |  |  | 3 source token 2: BadSplit
3000 3000 CODE-CELLS                                 |  |  | 3 source token 3: BadSplit
3000 CODE-CELLS 3000 CODE-CELLS                      |  |  | 3 source token 4: BadSplit
BL CODE-CELLS                                        |  |  | 3 source token 2: BadSplit
5 DROP 3000 CODE-CELLS                               |  |  | 3 source token 4: BadSplit
3000 ALIGN CODE-CELLS                                |  |  | 3 source token 3: BadSplit
-1 ALLOT                                             |  |  | 3 source token 2: DataFull
8065 ALLOT                                           |  |  | 3 source token 2: DataFull
8064 ALLOT 1 C,                                      |  |  | 3 source token 4: DataFull
8063 ALLOT 1 ,                                       |  |  | 3 source token 4: DataFull
0 @                                                  |  |  | 3 source token 2: DataFull
1 16384 !                                            |  |  | 3 source token 3: DataFull
8190 C@                                              |  |  | 3 source token 2: DataFull
0 8196 !                                             |  |  | 3 source token 3: DataFull
8064 ALLOT VARIABLE V                                |  |  | 3 source token 3: DataFull
: D CREATE 10000 ALLOT ; D X                         |  |  | 3 source token 7: DataFull
: D CREATE 0 @ DROP DROP ; D X                       |  |  | 3 source token 9: DataFull
8064 ALLOT : MAIN S" a" ;                            |  |  | 3 source token 5: DataFull
3000 CODE-CELLS 5998 @                               |  |  | 3 source token 4: DataFull
3000 CODE-CELLS -1 ALLOT                             |  |  | 3 source token 4: DataFull
8000 CODE-CELLS 257 ALLOT                            |  |  | 3 source token 4: DataFull
2048 CODE-CELLS 12161 ALLOT                          |  |  | 3 source token 4: DataFull
"#;

// The end of the text.
const ENDS: &str = r#"
: X CREATE                                           |  |  | 3 source token 4: OpenDefinition
: X CREATE DOES>                                     |  |  | 3 source token 5: OpenDefinition
: X CREATE 1                                         |  |  | 3 source token 5: OpenDefinition
: MAIN ; : X CREATE DOES> [                          |  |  | 3 source token 9: OpenDefinition
VARIABLE MAIN                                        |  |  | 3 source token 3: NoMain
: MAIN ; 7 CONSTANT MAIN                             |  |  | 3 source token 7: NoMain
: MAIN CREATE DOES> ;                                |  |  | 3 source token 6: NoMain
: MAIN ; : D CREATE ; D main                         |  |  | 3 source token 10: NoMain
3000 CODE-CELLS                                      |  |  | 3 source token 3: NoMain
1 2 3                                                |  |  | 3 source token 4: NoMain
"#;

// Pieces of a source, each with how often it stands; such pieces of what it prints; and its answer. First the limit of names.
const NAMES_FULL: &str = r#"
CREATE A_ 512, CREATE B 1                                |        | 3 source token 1026: TooManyWords
CREATE A_ 512, CREATE ; 1                                |        | 3 source token 1026: NeedsName
CREATE A_ 512, 1 CONSTANT B 1                            |        | 3 source token 1027: TooManyWords
CREATE A_ 512, CONSTANT B 1                              |        | 3 source token 1025: HostUnderflow
CREATE A_ 512, : MAIN ; 1                                |        | 3 source token 1026: TooManyWords
CREATE A_ 512, 8064 ALLOT VARIABLE B 1                   |        | 3 source token 1028: TooManyWords
CREATE A_ 511, 8064 ALLOT VARIABLE B 1                   |        | 3 source token 1025: DataFull
CREATE A_ 511, : MAIN 65 EMIT ; 1                        | A 1
: D CREATE ;_ 1, D A_ 511, D B 1                         |        | 3 source token 1028: TooManyWords
"#;

// The limit of the host stack.
const CELLS_FULL: &str = r#"
1_ 33                                                    |        | 3 source token 33: HostOverflow
1_ 32, DUP 1                                             |        | 3 source token 33: HostOverflow
1_ 32, OVER 1                                            |        | 3 source token 33: HostOverflow
1_ 32, 65536 1                                           |        | 3 source token 33: NumberRange
1_ 32, ' NOPE 1                                          |        | 3 source token 34: UnknownWord
1_ 32, CHAR A 1                                          |        | 3 source token 33: HostOverflow
: A ;_ 1, 1_ 32, ' A 1                                   |        | 3 source token 36: HostOverflow
5 CONSTANT K_ 1, 1_ 32, K 1                              |        | 3 source token 36: HostOverflow
: D CREATE 1 ;_ 1, 1_ 32, D X 1                          |        | 3 source token 38: HostOverflow
1_ 32, CODE-CELLS 1                                      |        | 3 source token 33: BadSplit
1_ 32, SWAP ROT_ 1, DROP_ 31, : MAIN LITERAL EMIT ; 1    | ^01 1
"#;

// The limit of the weights, with ticks and texts.
const CODE_FULL: &str = r#"
: MAIN_ 1, 0_ 1, 1-_ 2396, DROP ;_ 1, ' MAIN 1           |        | 3 source token 2402: CodeFull
: MAIN_ 1, 0_ 1, 1-_ 2395, DROP ;_ 1, ' MAIN ' MAIN 1
: MAIN_ 1, 0_ 1, 1-_ 2393, DROP ;_ 1, ' DUP DROP 1
: MAIN_ 1, 0_ 1, 1-_ 2394, DROP ;_ 1, ' DUP 1            |        | 3 source token 2400: CodeFull
VARIABLE V_ 1, : MAIN_ 1, 0_ 1, 1-_ 2391, DROP ;_ 1, ' V 1
VARIABLE V_ 1, : MAIN_ 1, 0_ 1, 1-_ 2392, DROP ;_ 1, ' V 1 |      | 3 source token 2400: CodeFull
1_ 32, : MAIN_ 1, 0_ 1, 1-_ 2396, DROP ;_ 1, ' MAIN 1    |        | 3 source token 2434: HostOverflow
: MAIN_ 1, 0_ 1, 1-_ 2397, S" a"_ 1, ; 1                 |        | 3 source token 2401: CodeFull
8064 ALLOT_ 1, : MAIN_ 1, 0_ 1, 1-_ 2397, S" a"_ 1, ; 1  |        | 3 source token 2403: DataFull
"#;

// The same with structures, defining words and other data starts.
const DEFINITIONS_FULL: &str = r#"
: MAIN IF_ 1, 0_ 1, 1-_ 2397, ; 1                        |        | 3 source token 2402: BadNest
: MAIN_ 1, IF_ 16, 0_ 1, 1-_ 2382, IF 1                  |        | 3 source token 2402: TooDeep
: MAIN_ 1, 0_ 1, 1-_ 2396, DROP ;_ 1, : D CREATE DUP DROP ; CREATE W 5 CONSTANT Y VARIABLE Z 1
: MAIN_ 1, 0_ 1, 1-_ 2396, DROP ;_ 1, : D CREATE DOES> ; 1 |      | 3 source token 2406: CodeFull
: MAIN_ 1, 0_ 1, 1-_ 2395, DROP ;_ 1, : D CREATE DOES> ; 1
2048 CODE-CELLS : MAIN_ 1, 0_ 1, 1-_ 348, DROP ; 1
2048 CODE-CELLS : MAIN_ 1, 0_ 1, 1-_ 349, DROP ; 1       |        | 3 source token 356: CodeFull
8000 CODE-CELLS : MAIN_ 1, 0_ 1, 1-_ 6300, DROP ; 1
8000 CODE-CELLS : MAIN_ 1, 0_ 1, 1-_ 6301, DROP ; 1      |        | 3 source token 6308: CodeFull
"#;

#[test]
fn texts_are_refused(rt: HostRuntime) -> Result<(), Fail> {
    for table in [TEXT, NAMES, ENDS] {
        run_rows(rt.alloc(), "run source.fs", table)?;
    }
    Ok(())
}

#[test]
fn words_are_refused_where_they_stand(rt: HostRuntime) -> Result<(), Fail> {
    for table in [INSIDE, OUTSIDE] {
        run_rows(rt.alloc(), "run source.fs", table)?;
    }
    Ok(())
}

#[test]
fn host_words_are_refused(rt: HostRuntime) -> Result<(), Fail> {
    run_rows(rt.alloc(), "run source.fs", HOST)
}

// Runs the lines of a table of pieces.
fn run_limits(alloc: Global, table: &str) -> Result<(), Fail> {
    for line in table.trim_matches('\n').lines() {
        run_limit(alloc, line)?;
    }
    Ok(())
}

#[test]
fn names_have_a_limit(rt: HostRuntime) -> Result<(), Fail> {
    run_limits(rt.alloc(), NAMES_FULL)
}

#[test]
fn host_cells_have_a_limit(rt: HostRuntime) -> Result<(), Fail> {
    run_limits(rt.alloc(), CELLS_FULL)
}

#[test]
fn code_has_a_limit(rt: HostRuntime) -> Result<(), Fail> {
    run_limits(rt.alloc(), CODE_FULL)
}

#[test]
fn definitions_have_a_limit(rt: HostRuntime) -> Result<(), Fail> {
    run_limits(rt.alloc(), DEFINITIONS_FULL)
}
