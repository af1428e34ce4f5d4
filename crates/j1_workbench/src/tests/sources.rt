// Whole sources of one definition, from their text to what the chip prints.
use super::rows::run_rows;
use std::test::Fail;

// A source, its input, what it prints, and its answer.
const SOURCES: &str = r#"
: MAIN 72 EMIT 105 EMIT ;                 |    | Hi
: MAIN ;
: main -1 Emit 256 emit 0072 EMIT ;       |    | ^FF^00H
: MAIN ( 66 EMIT ) 65 EMIT ; \ 67 EMIT ;  |    | A
: OTHER ;                                 |    |         | 3 source token 4: NoMain
: MAIN 65 EMIT 1 0 ! 66 EMIT ;            |    | A       | 8 outside 0
: MAIN 65 EMIT 16385 @ EMIT ;             |    | A       | 8 outside 16384
: MAIN KEY EMIT KEY EMIT ;                | x  | x       | 7 input ended
: MAIN KEY EMIT KEY EMIT ;                | xy | xy
: MAIN 16386 @ EMIT ;                     | x  | x
: MAIN 65 EMIT ABORT ;                    |    | A       | 9 halted 1
: MAIN 65 EMIT QUIT 66 EMIT ;             |    | A       | 9 halted 3
: MAIN ABORT DROP DROP ;                  |    |         | 9 halted 1
: MAIN 65 EMIT 0 16388 ! 66 EMIT ;        |    | A
: MAIN 263 16388 ! ;                      |    |         | 9 halted 7
: MAIN DEPTH 48 + EMIT ;                  |    | 0
: MAIN 7 7 DEPTH 48 + EMIT ;              |    | 2
: MAIN 16 BASE ! 10 EMIT BASE @ EMIT ;    |    | ~^10
: MAIN 513 HERE ! HERE @ EMIT HERE EMIT ; |    | ^01^80
: MAIN DROP ;                             |    |         | 4 MAIN: not certified: Data
: MAIN 1 DROP DROP ;                      |    |         | 4 MAIN: not certified: Data
: MAIN 1 + ;                              |    |         | 4 MAIN: not certified: Data
                                          |    |         | 3 source token 1: NoMain
( a ) \ b                                 |    |         | 3 source token 3: NoMain
( abc                                     |    |         | 3 source token 1: OpenComment
: MAIN ( abc                              |    |         | 3 source token 3: OpenComment
:                                         |    |         | 3 source token 2: NeedsName
: ;                                       |    |         | 3 source token 2: NeedsName
: : ;                                     |    |         | 3 source token 2: NeedsName
: MAIN [CHAR]                             |    |         | 3 source token 4: NeedsName
: MAIN [CHAR] ;                           |    |         | 3 source token 5: OpenDefinition
: MAIN [char] abc EMIT [CHAR] ) EMIT ;    |    | a)
: ( a ) MAIN ;                            |    |         | 3 source token 2: NeedsName
: \ MAIN ;                                |    |         | 3 source token 2: NeedsName
: ." MAIN ;                               |    |         | 3 source token 2: NeedsName
: s" MAIN ;                               |    |         | 3 source token 2: NeedsName
: Abort" MAIN ;                           |    |         | 3 source token 2: NeedsName
: MAIN                                    |    |         | 3 source token 3: OpenDefinition
: MAIN 65 EMIT                            |    |         | 3 source token 5: OpenDefinition
( c ) : MAIN XYZZY ;                      |    |         | 3 source token 4: UnknownWord
: MAIN -- ;                               |    |         | 3 source token 3: UnknownWord
: MAIN 12A ;                              |    |         | 3 source token 3: UnknownWord
: MAIN 65536 DROP ;                       |    |         | 3 source token 3: NumberRange
: MAIN -32769 DROP ;                      |    |         | 3 source token 3: NumberRange
: MAIN 1 DROP 99999999999999999999 ;      |    |         | 3 source token 5: NumberRange
: MAIN 1234567890123456789012345678901 ;  |    |         | 3 source token 3: NumberRange
: MAIN 12345678901234567890123456789012 ; |    |         | 3 source token 3: NameTooLong
: M234567890123456789012345678901 ;       |    |         | 3 source token 4: NoMain
: M2345678901234567890123456789012 ;      |    |         | 3 source token 2: NameTooLong
: MAIN ; : MAIN ;
: MAIN ; ( 1 ) 65536                      |    |         | 3 source token 5: NumberRange
: MAIN ; ;                                |    |         | 3 source token 4: OnlyInDefinition
X : MAIN ;                                |    |         | 3 source token 1: UnknownWord
65536 : MAIN ;                            |    |         | 3 source token 1: NumberRange
A2345678901234567890123456789012 : MAIN ; |    |         | 3 source token 1: NameTooLong
: MAIN 0 IF THEN ;
: MAIN 1 >R ;                             |    |         | 4 MAIN: not certified: Shape
: MAIN 1 . ;                              |    | 1_
: MAIN 1 CONSTANT X ;                     |    |         | 3 source token 4: NotInDefinition
: MAIN EXIT XYZZY ;                       |    |         | 3 source token 4: UnknownWord
: MAIN XYZZY EXIT ;                       |    |         | 3 source token 3: UnknownWord
: MAIN . 65536 ;                          |    |         | 3 source token 4: NumberRange
: MAIN 65536 . ;                          |    |         | 3 source token 3: NumberRange
: MAIN CREATE ( ;                         |    |         | 3 source token 4: OpenComment
: MAIN ( ;                                |    |         | 3 source token 3: OpenComment
: MAIN RECURSE                            |    |         | 3 source token 4: OpenDefinition
: MAIN DUP                                |    |         | 3 source token 4: OpenDefinition
"#;

#[test]
fn runs_sources(rt: HostRuntime) -> Result<(), Fail> {
    run_rows(rt.alloc(), "run source.fs", SOURCES)
}

// Sources with other bytes.
const BYTES: &str = r#"
:^09main^0D~0072 emit^09105 Emit ;~ |  | Hi
: MAIN \ a~65 EMIT ;                |  | A
: MAIN^0B72 EMIT ;                  |  |    | 3 source token 2: NotText
: MAIN ^0B72 ;                      |  |    | 3 source token 3: NotText
: MAIN ( ^80 ) ;                    |  |    | 3 source token 3: NotText
: MAIN IF^00                        |  |    | 3 source token 3: NotText
: MAIN IF ^00                       |  |    | 3 source token 4: NotText
"#;

#[test]
fn reads_bytes(rt: HostRuntime) -> Result<(), Fail> {
    run_rows(rt.alloc(), "run source.fs", BYTES)
}
