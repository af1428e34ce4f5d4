// Texts, execution tokens and host words in brackets: what such sources print, on the chip and by their meaning, and why they are refused.
use super::rows::run_rows;
use std::test::Fail;

// A source with texts, what it prints, and its answer.
const TEXTS: &str = r#"
: MAIN S" ab" TYPE ." cd" CR ;                               |  | abcd~
: MAIN ." Hello, ( all ) \ of it" ;                          |  | Hello,_(_all_)_\_of_it
: MAIN s" ab"TYPE ."  c "65 EMIT ;                           |  | ab_c_A
: MAIN S" " . . S" ab" . . HERE . ;                          |  | 0_8320_2_8320_8322_
: MAIN S" ab" S" c" . . . . ;                                |  | 1_8322_2_8320_
: A ." x" ; : MAIN A S" y" . . A ;                           |  | x1_8321_x
: MAIN 0 ABORT" no" ." yes" ;                                |  | yes
: MAIN 7 ABORT" stop" ." no" ;                               |  | stop | 9 halted 2
: MAIN 1 0 DO I ABORT" no" ." a" LOOP ;                      |  | a
: MAIN 2 0 DO ." ab" LOOP 0 IF ." c" ELSE ." d" THEN ;       |  | ababd
: MAIN [ 16380 HERE - ALLOT ] S" abcd" TYPE HERE . ;         |  | abcd16384_
: MAIN [ 3 ALLOT ] ." ab" S" c" DROP . ;                     |  | ab8325_
"#;

// The same with execution tokens.
const TICKS: &str = r#"
: A 65 EMIT ; : MAIN ['] A EXECUTE ['] a . ;                 |  | A1_
: MAIN 2 3 ['] + EXECUTE . ;                                 |  | 5_
: MAIN ['] DUP ['] SWAP ['] dup . . . ;                      |  | 1_2_1_
: A 1 ; : B ['] A ; : A 2 ; : MAIN ['] A EXECUTE . B . ;     |  | 2_1_
: A 1 ; : B ['] A ; : A 2 ; : MAIN ['] A . B EXECUTE . ;     |  | 2_1_
: MAIN 65 EMIT 0 EXECUTE ;                                   |  | A    | 9 halted 13
: A ; : MAIN ['] A 1+ EXECUTE ;                              |  |      | 9 halted 13
: MAIN 65 ['] EMIT EXECUTE 66 ['] EMIT EXECUTE ;             |  | AB
: DUP 67 EMIT ; : MAIN ['] DUP EXECUTE ;                     |  | C
: MAIN 0 IF ['] BL ELSE ['] BASE THEN EXECUTE . ;            |  | 8192_
: MAIN ['] BASE EXECUTE @ . ;                                |  | 10_
: MAIN 40000 ['] U. EXECUTE ['] u. . ;                       |  | 40000_1_
: F EXECUTE ; : MAIN 65 ['] EMIT F 66 ['] EMIT F ;           |  | AB
"#;

// The same with host words in brackets.
const BRACKETS: &str = r#"
: MAIN [ 5 2 * ] LITERAL . ;                                 |  | 10_
: A [ 65 ] ; : MAIN LITERAL EMIT ;                           |  | A
: MAIN [ 1 2 3 ] LITERAL LITERAL LITERAL . . . ;             |  | 1_2_3_
: MAIN 1 IF [ 9 ] LITERAL . ELSE [ ] THEN [ ] ;              |  | 9_
: MAIN [ ( a ] ) 1 \ 2 ]~] LITERAL . ;                       |  | 1_
: MAIN [ 3 2 LSHIFT 1 RSHIFT 1+ 1- 2* 2/ NEGATE INVERT ] LITERAL . ; |  | 5_
: MAIN [ 12 10 AND 5 OR 3 XOR -7 2/ ] LITERAL . LITERAL . ;  |  | -4_14_
: MAIN [ 1 2 SWAP OVER ROT DUP DROP + - ] LITERAL . ;        |  | -3_
: MAIN [ 3 CELLS CELL+ CHARS CHAR+ ALIGNED BL + ] LITERAL . ; |  | 42_
: MAIN [ HERE 7 , DUP 1 SWAP +! @ BASE @ ] LITERAL . LITERAL . 8320 @ . ; |  | 10_8_8_
: MAIN [ 65 8321 C! 8321 C@ ] LITERAL EMIT 8320 2 TYPE HERE . ; |  | A^00A8320_
: MAIN [ 66 C, 67 C, 16706 , ] 8320 4 TYPE HERE . ;          |  | BCBA8324_
: MAIN [ 1 C, ALIGN HERE 4 ALLOT ] LITERAL . HERE . ;        |  | 8322_8326_
: MAIN [ 5 16382 ! ] 16382 @ . HERE . ;                      |  | 5_8320_
: MAIN [ HEX ] FF [ DECIMAL ] . ;                            |  | 255_
: MAIN [ HEX ] FF . ;                                        |  | FF_
: MAIN [ 2 BASE ! ] 101 [ 1111 1111 * ] LITERAL [ DECIMAL ] . . ; |  | 225_5_
: MAIN [ 36 BASE ! ] z $10 %11 'Z' [ A BASE ! ] . . . . ;    |  | 90_3_16_35_
: MAIN [ 40000 40000 + 300 300 * ] LITERAL U. LITERAL U. ;   |  | 24464_14464_
: MAIN [ 8064 ALLOT HERE ] LITERAL U. ;                      |  | 16384_
"#;

#[test]
fn texts_tokens_and_brackets_run(rt: HostRuntime) -> Result<(), Fail> {
    for table in [TEXTS, TICKS, BRACKETS, UNCERTIFIED] {
        run_rows(rt.alloc(), "run source.fs", table)?;
    }
    Ok(())
}

// `eval` needs no certificate, and prints the same where there is one.
#[test]
fn texts_tokens_and_brackets_are_evaluated(rt: HostRuntime) -> Result<(), Fail> {
    for table in [TEXTS, TICKS, BRACKETS] {
        run_rows(rt.alloc(), "eval source.fs", table)?;
    }
    Ok(())
}

// The shared effect is that of all that is ticked.
const UNCERTIFIED: &str = r#"
: MAIN 65 ['] EMIT EXECUTE ['] CR EXECUTE ;                  |  |      | 4 MAIN: not certified: Data
"#;

// Sources that are refused, each cause at its token, also where another cause stands at the same one.
const REFUSALS: &str = r#"
: MAIN ." abc                            |  |  | 3 source token 3: OpenString
: MAIN ."~" ;                            |  |  | 3 source token 3: OpenString
: MAIN 1 ABORT" abc~" ;                  |  |  | 3 source token 4: OpenString
: MAIN [ S" abc                          |  |  | 3 source token 4: OpenString
: MAIN S" a^80" ;                        |  |  | 3 source token 3: NotText
: MAIN [ ." ^07" ] ;                     |  |  | 3 source token 4: NotText
: MAIN [ ^07 ] ;                         |  |  | 3 source token 4: NotText
: MAIN [ A2345678901234567890123456789012 |  |  | 3 source token 4: NameTooLong
: MAIN ['] A2345678901234567890123456789012 |  |  | 3 source token 4: NameTooLong
: MAIN [ ( abc                           |  |  | 3 source token 4: OpenComment
: MAIN [']                               |  |  | 3 source token 4: NeedsName
: MAIN ['] EXECUTE ;                     |  |  | 3 source token 4: NeedsName
: MAIN ['] ( ;                           |  |  | 3 source token 4: NeedsName
: MAIN ['] >R ;                          |  |  | 3 source token 4: NeedsName
: MAIN ['] CONSTANT ;                    |  |  | 3 source token 4: NeedsName
: MAIN [ 1 >BODY ] ;                     |  |  | 3 source token 5: NeedsName
: A ; : MAIN ['] A [ 1 >BODY ] ;         |  |  | 3 source token 10: NeedsName
: MAIN ['] XYZZY ;                       |  |  | 3 source token 4: UnknownWord
: MAIN ['] 5 ;                           |  |  | 3 source token 4: UnknownWord
: MAIN ['] MAIN ;                        |  |  | 3 source token 4: UnknownWord
: MAIN [ XYZZY ] ;                       |  |  | 3 source token 4: UnknownWord
: MAIN [ 2 BASE ! 2 ] ;                  |  |  | 3 source token 7: UnknownWord
: MAIN [ 1 BASE ! ] 0 ;                  |  |  | 3 source token 8: UnknownWord
: MAIN [ 65536 ] ;                       |  |  | 3 source token 4: NumberRange
: MAIN [ HEX ] 10000 ;                   |  |  | 3 source token 6: NumberRange
: MAIN CONSTANT ;                        |  |  | 3 source token 3: NotInDefinition
: MAIN 1 >BODY ;                         |  |  | 3 source token 4: NotInDefinition
: MAIN CODE-CELLS ;                      |  |  | 3 source token 3: NotInDefinition
: MAIN DUP CREATE ;                      |  |  | 3 source token 4: NotInDefinition
: X [ ] CREATE ;                         |  |  | 3 source token 5: NotInDefinition
: MAIN DOES> ;                           |  |  | 3 source token 3: NotInDefinition
: A : B ;                                |  |  | 3 source token 3: NotInDefinition
: MAIN [ ; ] ;                           |  |  | 3 source token 4: NotInDefinition
: MAIN [ [ ] ] ;                         |  |  | 3 source token 4: NotInDefinition
: MAIN [ IF ] ;                          |  |  | 3 source token 4: NotInDefinition
: MAIN IF [ THEN ] ;                     |  |  | 3 source token 5: NotInDefinition
: MAIN [ 5 . ] ;                         |  |  | 3 source token 5: NotInDefinition
: MAIN [ LITERAL ] ;                     |  |  | 3 source token 4: NotInDefinition
: MAIN [ 3000 CODE-CELLS ] ;             |  |  | 3 source token 5: NotInDefinition
: MAIN [ S" a" ] ;                       |  |  | 3 source token 4: NotInDefinition
: MAIN [ CHAR A ] ;                      |  |  | 3 source token 4: NotInDefinition
: A ; : MAIN [ A ] ;                     |  |  | 3 source token 7: NotInDefinition
: + ; : MAIN [ 1 2 + ] ;                 |  |  | 3 source token 9: NotInDefinition
: MAIN ] ;                               |  |  | 3 source token 3: BadNest
: MAIN [ ] ] ;                           |  |  | 3 source token 5: BadNest
: MAIN IF [ ] ;                          |  |  | 3 source token 6: BadNest
: MAIN LITERAL ;                         |  |  | 3 source token 3: HostUnderflow
: A [ 1 ] LITERAL ; : MAIN LITERAL ;     |  |  | 3 source token 10: HostUnderflow
: MAIN [ DROP ] ;                        |  |  | 3 source token 4: HostUnderflow
: MAIN [ 1 + ] ;                         |  |  | 3 source token 5: HostUnderflow
: MAIN [ 0 ! ] ;                         |  |  | 3 source token 5: HostUnderflow
: MAIN [ >BODY ] ;                       |  |  | 3 source token 4: HostUnderflow
: MAIN [ 0 @ ] ;                         |  |  | 3 source token 5: DataFull
: MAIN [ 8190 C@ ] ;                     |  |  | 3 source token 5: DataFull
: MAIN [ 1 16384 ! ] ;                   |  |  | 3 source token 6: DataFull
: MAIN [ -1 ALLOT ] ;                    |  |  | 3 source token 5: DataFull
: MAIN [ 8065 ALLOT ] ;                  |  |  | 3 source token 5: DataFull
: MAIN [ 5 8196 ! ] ;                    |  |  | 3 source token 6: DataFull
: MAIN [ 16384 8196 ! 1 , ] ;            |  |  | 3 source token 8: DataFull
: MAIN [ 8064 ALLOT ] S" a" ;            |  |  | 3 source token 7: DataFull
: MAIN [ 8063 ALLOT ] ." a" ." a" ;      |  |  | 3 source token 8: DataFull
: MAIN [                                 |  |  | 3 source token 4: OpenDefinition
: MAIN [ 1                               |  |  | 3 source token 5: OpenDefinition
: MAIN [ ] 1                             |  |  | 3 source token 6: OpenDefinition
: MAIN CREATE ] ;                        |  |  | 3 source token 4: NotInDefinition
: MAIN ( a ) CREATE ;                    |  |  | 3 source token 6: NoMain
: MAIN ; [ 1 ]                           |  |  | 3 source token 4: OnlyInDefinition
: MAIN ; LITERAL                         |  |  | 3 source token 4: OnlyInDefinition
"#;

#[test]
fn refuses_at_the_token(rt: HostRuntime) -> Result<(), Fail> {
    run_rows(rt.alloc(), "run source.fs", REFUSALS)
}
