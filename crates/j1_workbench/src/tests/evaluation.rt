// Sources that are evaluated, beside the same sources run on the chip.
use super::rows::{left_by, row_in, run_calls};
use std::alloc::Global;
use std::test::Fail;

// A source of each word that a definition may use, and its input. `run` and `eval` print and answer the same.
const SOURCES: &str = r#"
: MAIN 1 2 OVER . SWAP . . 7 DUP . . 1 2 3 ROT . . . 1 2 2DUP . . 2DROP ;
: MAIN 5 6 NIP . 7 8 TUCK . . . 0 ?DUP IF . THEN 9 ?DUP IF . THEN ;
: MAIN 1 2 3 4 2SWAP . . . . 1 2 3 4 2OVER DEPTH . . . . . . . ;
: MAIN 40000 30000 + . 3 5 - . 7 NEGATE . -1 1+ . 0 1- . 20000 2* . -7 2/ . -9 ABS . ;
: MAIN -1 1 MAX . -1 1 MIN . 12 10 AND . 12 10 OR . 12 10 XOR . 12 INVERT . ;
: MAIN 3 17 LSHIFT . -1 18 RSHIFT U. 0 16 LSHIFT . ;
: MAIN 2 2 = . 2 3 <> . -1 1 < . 1 -1 > . -1 1 U< . 0 0= . -5 0< . 5 0> . 5 1 9 WITHIN . ;
: MAIN -3 S>D . . 5 CELLS . 5 CELL+ . 5 CHARS . 5 CHAR+ . 5 ALIGNED . BL . ;
: MAIN 300 300 UM* U. U. -300 300 M* . . 300 300 * U. ;
: MAIN 5 1 7 UM/MOD U. U. -7 -1 2 SM/REM . . -7 -1 2 FM/MOD . . -7 2 /MOD . . ;
: MAIN -7 2 / . -7 2 MOD . 10000 -7 3 */MOD . . 32767 32767 32767 */ . ;
: MAIN 16706 8400 ! 8400 @ . 8401 C@ . 67 8401 C! 3 8400 +! 8400 @ . ;
: MAIN 1 2 8400 2! 8400 2@ . . 8400 COUNT . . BASE @ . HERE . ;
: MAIN 7 , 8 C, ALIGN 5 ALLOT HERE . HEX 255 . DECIMAL 255 . ;
: MAIN KEY EMIT CR SPACE 3 SPACES -1 SPACES 65 EMIT ;                                      | q
: MAIN 8400 20 65 FILL 8400 8403 9 MOVE 8403 8400 9 MOVE 8400 12 TYPE ;
: MAIN 8400 9 ACCEPT . 8400 5 TYPE KEY EMIT ;                                              | abc~d
: MAIN 8400 9 ACCEPT . ;                                                                   | abc
: MAIN 8400 4 ACCEPT . 0 0 8400 4 >NUMBER . . . . ;                                        | 12x4
: MAIN -123 DUP ABS 0 <# # #S 46 HOLD ROT SIGN #> TYPE -5 . 40000 U. ;
: MAIN 40 BASE ! 5 . ;
: MAIN 8290 8194 ! 1 BEGIN 65 HOLD AGAIN ;
: MAIN 1 >R R@ . R> . 3 0 DO I . LOOP 2 0 DO 2 0 DO J . I . LOOP LOOP ;
: MAIN 9 0 DO I 3 = IF LEAVE THEN I . LOOP 0 10 DO I . -5 +LOOP 0 0 ?DO 65 EMIT LOOP ;
: F 4 0 DO I . UNLOOP EXIT LOOP ; : MAIN F 3 BEGIN DUP WHILE DUP . 1- REPEAT DROP ;
: K CASE 1 OF 65 ENDOF 2 OF 66 ENDOF 67 SWAP ENDCASE EMIT ; : MAIN 1 K 2 K 9 K ABORT ;
: MAIN BEGIN KEY DUP EMIT 32 = UNTIL QUIT ;                                                | ab_c
: MAIN BEGIN KEY EMIT AGAIN ;                                                              | ab
: MAIN 65 EMIT 1 0 / . ;
: MAIN 65 16384 ! 16387 @ . 7 16388 ! ;                                                    | x
: MAIN 66 EMIT 16390 @ ;
: MAIN 65 16386 ! ;
"#;

const EVALUATED: &str = r#"
eval source.fs             | : MAIN 72 EMIT 105 EMIT ;             |   | Hi
eval source.fs             | : MAIN 1 >R ;                         |   |    | 14 unbalanced
eval source.fs             | : MAIN DROP ;                         |   |    | 14 underflow
eval source.fs             | : MAIN 65 EMIT 1 + ;                  |   | A  | 14 underflow
eval source.fs             | : MAIN 65 EMIT R> ;                   |   | A  | 14 unbalanced
eval source.fs             | : MAIN 65 EMIT LEAVE ;                |   |    | 3 source token 5: BadNest
eval source.fs             | : MAIN 2 0 DO 1 >R LOOP ;             |   |    | 14 unbalanced
eval source.fs             | : MAIN 2 0 DO 1 >R +LOOP ;            |   |    | 14 underflow
eval source.fs             | : F 1 >R ; : MAIN 65 EMIT F 66 EMIT ; |   | A  | 14 unbalanced
eval source.fs --steps 999 | : MAIN BEGIN 1 AGAIN ;                |   |    | 6 steps used
eval source.fs --steps 4   | : MAIN 65 EMIT 66 EMIT ;              |   | AB | 6 steps used
eval source.fs --steps 5   | : MAIN 65 EMIT 66 EMIT ;              |   | AB
eval source.fs --steps 0   | : MAIN DROP ;                         |   |    | 6 steps used
eval source.fs --steps 1   | : MAIN DROP ;                         |   |    | 14 underflow
eval source.fs             | : MAIN KEY EMIT KEY EMIT ;            | x | x  | 7 input ended
eval source.fs             | : MAIN X ;                            |   |    | 3 source token 3: UnknownWord
eval NONE                  | : MAIN ;                              |   |    | 2 NONE: missing
"#;

// `eval` leaves what `run` leaves.
fn run_alike(alloc: Global, line: &str) -> Result<(), Fail> {
    let ran = left_by(alloc, &row_in("run source.fs", line))?;
    let evaluated = left_by(alloc, &row_in("eval source.fs", line))?;
    if *evaluated.as_str() == *ran.as_str() {
        Ok(())
    } else {
        Ok(Err(line)?)
    }
}

#[test]
fn evaluates_as_it_runs(rt: HostRuntime) -> Result<(), Fail> {
    for line in SOURCES.trim_matches('\n').lines() {
        run_alike(rt.alloc(), line)?;
    }
    Ok(())
}

#[test]
fn evaluates_without_a_certificate(rt: HostRuntime) -> Result<(), Fail> {
    run_calls(rt.alloc(), EVALUATED)
}
