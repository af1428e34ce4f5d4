// Sources of several definitions with structures, run and certified.
use super::rows::{NEVER, Outside, call, run_rows};
use crate::Status;
use std::test::Fail;

// A source, its input, what it prints, and its answer.
const PROGRAMS: &str = r#"
: A 65 EMIT ; : A A 66 EMIT ; : MAIN A ;                                                    |           | AB
: MAIN 0 0 DO LOOP 65 EMIT ;                                                                |           | A
: MAIN 2 0 DO 2 0 DO J 48 + EMIT I 48 + EMIT LOOP LOOP ;                                    |           | 00011011
: MAIN 5 0 DO I 3 = IF LEAVE THEN I 48 + EMIT LOOP ;                                        |           | 012
: MAIN 0 10 DO I 48 + EMIT -5 +LOOP ;                                                       |           | :50
: MAIN 0 0 ?DO 65 EMIT LOOP 3 0 ?DO 66 EMIT LOOP ;                                          |           | BBB
: MAIN 3 BEGIN DUP WHILE DUP 48 + EMIT 1- REPEAT DROP ;                                     |           | 321
: MAIN BEGIN KEY DUP EMIT 0= UNTIL ;                                                        | ^07^00^09 | ^07^00
: MAIN BEGIN KEY EMIT AGAIN ;                                                               | ab        | ab       | 7 input ended
: F 1 IF 65 EMIT EXIT THEN 66 EMIT ; : MAIN F ;                                             |           | A
: F IF 65 ELSE 66 THEN EMIT ; : MAIN 1 F 0 F ;                                              |           | AB
: K CASE 1 OF 65 ENDOF 2 OF 66 ENDOF 67 SWAP ENDCASE EMIT ; : MAIN 1 K 2 K 9 K ;            |           | ABC
: DUP 68 EMIT ; : MAIN dup Dup ;                                                            |           | DD
: MAIN 65 EMIT ; : main 66 EMIT ;                                                           |           | B
: MAIN 1 >R R@ R> + EMIT ;                                                                  |           | ^02
: MAIN $41 EMIT #66 EMIT %1000011 EMIT 'D' EMIT $-1 1+ 69 + EMIT ;                          |           | ABCDE
: MAIN 65 5 1 10 WITHIN 1+ + EMIT 66 5 5 <> + EMIT 67 3 0> 1+ + EMIT 1 68 NIP EMIT ;        |           | ABCD
: MAIN 65 66 TUCK EMIT EMIT EMIT ;                                                          |           | BAB
: MAIN HEX BASE @ EMIT DECIMAL BASE @ EMIT ;                                                |           | ^10~
: DOWN DUP IF 1- RECURSE ELSE DROP THEN ; : MAIN 1000 DOWN 75 EMIT ;                        |           | K
: DOWN DUP IF 1- RECURSE 75 EMIT ELSE DROP THEN ; : MAIN 3 DOWN ;                           |           |          | 4 DOWN: not certified: Return
: MAIN DEPTH DROP 0 BEGIN DUP WHILE 1- REPEAT DROP ;
: MAIN BEGIN 1 AGAIN ;                                                                      |           |          | 4 MAIN: not certified: Data
: G ; : F 1 >R G ; : MAIN F ;                                                               |           |          | 4 F: not certified: Shape
: F DROP DROP ; : MAIN 1 F ;                                                                |           |          | 4 MAIN: not certified: Data
: F R> ; : MAIN 1 >R F ;                                                                    |           |          | 4 F: not certified: Shape
: MAIN 4 0 DO I EMIT UNLOOP EXIT LOOP ;                                                     |           | ^00
: F IF ; : MAIN ;                                                                           |           |          | 3 source token 4: BadNest
: F OF ;                                                                                    |           |          | 3 source token 3: BadNest
: MAIN %2 ;                                                                                 |           |          | 3 source token 3: UnknownWord
: MAIN $1FFFF ;                                                                             |           |          | 3 source token 3: NumberRange
: MAIN 0 IF 0 IF 0 IF 0 IF 0 IF 0 IF 0 IF 0 IF 0 IF 0 IF 0 IF 0 IF 0 IF 0 IF 0 IF 0 IF 0 IF |           |          | 3 source token 36: TooDeep
"#;

#[test]
fn runs_programs(rt: HostRuntime) -> Result<(), Fail> {
    run_rows(rt.alloc(), "run source.fs", PROGRAMS)
}

// Whether at least 165 bytes were printed, each an `A`.
fn prints_on(out: &[u8]) -> bool {
    out.len() >= 165 && out.iter().all(|byte| *byte == b'A')
}

// A recursion that is a last call goes on and on, and takes no return cell.
#[test]
fn loops_by_last_calls(rt: HostRuntime) -> Result<(), Fail> {
    let alloc = rt.alloc();
    let mut met = Outside::new(alloc, b"", NEVER)?;
    met.files
        .put("source.fs", b": LOOPY 65 EMIT RECURSE ; : MAIN LOOPY ;")?;
    let is_used = call(alloc, &mut met, "run source.fs --steps 1000")? == Status::StepsUsed;
    let is_told = met.notes.held() == b"j1: steps used\n".as_slice();
    assert!(rt; is_used && is_told && prints_on(met.out.held()));
    Ok(())
}

// A source, no input, the lines of its certificate, and its answer.
const CERTIFICATES: &str = r#"
: MAIN 1 EMIT ;                             |  | MAIN_need_0_peak_2_back_0_exit_0_0~
: MAIN ABORT ;                              |  | MAIN_need_0_peak_2_back_0_exit_never~
: LOOPY 65 EMIT RECURSE ; : MAIN LOOPY ;    |  | LOOPY_need_0_peak_2_back_0_exit_never~MAIN_need_0_peak_2_back_0_exit_never~
: SQ DUP * ; : MAIN 3 SQ . ;                |  | SQ_need_1_peak_9_back_6_exit_0_0~MAIN_need_0_peak_15_back_12_exit_0_0~
: F IF 1 ELSE 1 1 THEN ; : MAIN 0 F 2DROP ; |  |                                                                                                     | 4 MAIN: not certified: Data
: F DUP ; : G F F ; : MAIN 1 G 2DROP DROP ; |  | F_need_1_peak_1_back_0_exit_1_1~G_need_1_peak_2_back_1_exit_2_2~MAIN_need_0_peak_3_back_2_exit_0_0~
: MAIN DROP ;                               |  |                                                                                                     | 4 MAIN: not certified: Data
: MAIN 65 ['] EMIT EXECUTE ;                |  | MAIN_need_0_peak_6_back_3_exit_0_0~*_need_1_peak_1_back_0_exit_-1_-1~
: MAIN S" ab" TYPE ." c" ;                  |  | MAIN_need_0_peak_10_back_7_exit_0_0~
: MAIN X ;                                  |  |                                                                                                     | 3 source token 3: UnknownWord
"#;

#[test]
fn writes_certificates(rt: HostRuntime) -> Result<(), Fail> {
    run_rows(rt.alloc(), "certify source.fs", CERTIFICATES)
}
