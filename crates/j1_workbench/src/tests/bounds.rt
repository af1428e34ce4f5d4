// Step bounds of sources, and why a source has none. The rows give the cause that comes first.
use super::rows::run_rows;
use std::test::Fail;

const BOUNDS: &str = r#"
: MAIN ;                                                               |  | 9~
: MAIN 10 0 DO LOOP ;                                                  |  | 141~
: MAIN 10 0 DO I . LOOP ;                                              |  | 1200191~
: MAIN 0 10 DO I . -5 +LOOP ;                                          |  | 360114~
: MAIN 10 0 DO 3 +LOOP ;                                               |  | 125~
: MAIN 0 0 DO LOOP 65 EMIT ;                                           |  | 786458~
: MAIN 5 5 ?DO LOOP ;                                                  |  | 25~
: MAIN 10 0 ?DO LOOP ;                                                 |  | 145~
: MAIN 1 1 IF EMIT ELSE DROP THEN ;                                    |  | 18~
: MAIN 65 1 IF EMIT ELSE DROP 66 EMIT THEN ;                           |  | 20~
: MAIN 1 CASE 1 OF 65 EMIT ENDOF 2 OF 5 SPACES ENDOF 66 EMIT ENDCASE ; |  | 266~
: MAIN 3 SPACES ;                                                      |  | 171~
: MAIN -1 SPACES ;                                                     |  | 51~
: MAIN 10 0 DO I 3 = IF LEAVE THEN LOOP ;                              |  | 281~
: A 65 EMIT ; : MAIN A A ;                                             |  | 23~
: F RECURSE ; : MAIN 65 EMIT ;                                         |  | 14~
: MAIN 0 0 DO 0 0 DO 0 0 DO LOOP LOOP LOOP ;                           |  | 3377802801315861~
: MAIN 0 0 DO 0 0 DO 0 0 DO 0 0 DO LOOP LOOP LOOP LOOP ;               |  |                   | 16 MAIN: no bound: TooLarge
: MAIN BEGIN KEY EMIT 0 UNTIL ;                                        |  |                   | 16 MAIN: no bound: BeginLoop
: MAIN BEGIN 0 WHILE REPEAT ;                                          |  |                   | 16 MAIN: no bound: BeginLoop
: MAIN BEGIN AGAIN ;                                                   |  |                   | 16 MAIN: no bound: BeginLoop
: F RECURSE ; : G F ; : MAIN G ;                                       |  |                   | 16 F: no bound: Recursion
: MAIN 3 DUP 0 DO LOOP DROP ;                                          |  |                   | 16 MAIN: no bound: OpenBounds
: MAIN 10 0 DO I +LOOP ;                                               |  |                   | 16 MAIN: no bound: OpenBounds
: MAIN 10 0 DO 0 +LOOP ;                                               |  |                   | 16 MAIN: no bound: OpenBounds
: MAIN 3 DUP SPACES DROP ;                                             |  |                   | 16 MAIN: no bound: OpenBounds
: MAIN 8320 9 0 FILL ;                                                 |  |                   | 16 MAIN: no bound: OpenBounds
: F 2 DUP DO LOOP ; : MAIN BEGIN 1 UNTIL F ;                           |  |                   | 16 F: no bound: OpenBounds
: MAIN 2 DUP DO BEGIN 1 UNTIL LOOP ;                                   |  |                   | 16 MAIN: no bound: OpenBounds
: MAIN 3 0 DO BEGIN 1 UNTIL 2 DUP DO LOOP LOOP ;                       |  |                   | 16 MAIN: no bound: BeginLoop
: MAIN 2 DUP DO LOOP 0 0 DO 0 0 DO 0 0 DO 0 0 DO LOOP LOOP LOOP LOOP ; |  |                   | 16 MAIN: no bound: OpenBounds
: MAIN 0 EXECUTE ;                                                     |  |                   | 16 MAIN: no bound: Execute
: F 65 ['] EMIT EXECUTE ; : MAIN F ;                                   |  |                   | 16 F: no bound: Execute
: MAIN ." ab" ;                                                        |  | 211~
: MAIN S" ab" TYPE ;                                                   |  | 211~
: MAIN 0 ABORT" ab" ;                                                  |  | 211~
: MAIN [ 2 3 + ] LITERAL 0 DO LOOP ;                                   |  | 81~
: MAIN DROP ;                                                          |  |                   | 4 MAIN: not certified: Data
: MAIN X ;                                                             |  |                   | 3 source token 3: UnknownWord
"#;

#[test]
fn bounds_sources(rt: HostRuntime) -> Result<(), Fail> {
    run_rows(rt.alloc(), "bound source.fs", BOUNDS)
}
