// Sources with library words. What they print was worked out by a program of its own, which has the meaning of each word by the
// standard and the word table over whole numbers.
use super::rows::run_rows;
use std::test::Fail;

// A source, its input, what it prints, and its answer.
const FIRST_ROWS: &str = r#"
: MAIN DEPTH . ;                                               |     | 0_
: MAIN -7 2 /MOD . . -7 S>D 2 SM/REM . . ;                     |     | -4_1_-3_-1_
: MAIN 1 0 / . ;                                               |     |                         | 9 halted 10
: MAIN 0 10 DO I . -5 +LOOP ;                                  |     | 10_5_0_
: MAIN 2 BASE ! -32768 . 1 BASE ! 5 . ;                        |     | -1000000000000000_      | 9 halted 11
: SQ DUP * ; : MAIN 3 SQ . ;                                   |     | 9_
: MAIN 3 BEGIN ?DUP WHILE DUP . 1- REPEAT ;                    |     | 3_2_1_
: MAIN 65 16381 C! 66 16382 C! 67 16383 C! 16381 4 TYPE ;      |     | ABC                     | 8 outside 16384
: MAIN 50000 2 UM* U. U. ;                                     |     | 1_34464_
: MAIN 0 2 2 UM/MOD ;                                          |     |                         | 9 halted 10
: MAIN 12345 0 <# # # 46 HOLD #S #> TYPE ;                     |     | 123.45
: MAIN 12345 0 <# # # [CHAR] . HOLD #S #> TYPE ;                |     | 123.45
: MAIN 7 9 * 2 + EMIT ;                                        |     | A
: MAIN -7 2 / 69 + EMIT ;                                      |     | A
: MAIN 1 0 / EMIT ;                                            |     |                         | 9 halted 10
: MAIN 0 ?DUP IF 1 . THEN 7 ?DUP IF . THEN -1 ?DUP IF . THEN ; |     | 7_-1_
: MAIN 1 2 3 4 2SWAP . . . . ;                                 |     | 2_1_4_3_
: MAIN 1 2 3 4 2OVER . . . . . . ;                             |     | 2_1_4_3_2_1_
: MAIN 0 ABS . 5 ABS . -5 ABS . -32767 ABS . -32768 ABS . ;    |     | 0_5_5_32767_-32768_
: MAIN -1 1 MAX . 1 -1 MAX . -32768 32767 MAX . 3 3 MAX . ;    |     | 1_1_32767_3_
: MAIN -1 1 MIN . 1 -1 MIN . -32768 32767 MIN . 3 3 MIN . ;    |     | -1_-1_-32768_3_
: MAIN 7 2/ . -7 2/ . -1 2/ . 32767 2/ . -32768 2/ . 0 2/ . ;  |     | 3_-4_-1_16383_-16384_0_
: MAIN 16706 8400 ! 8400 C@ . 8401 C@ . ;                      |     | 66_65_
: MAIN 65 EMIT 16384 C@ . ;                                    |     | A                       | 8 outside 16384
: MAIN 16386 C@ . 16387 C@ . KEY EMIT ;                        | abc | 97_0_c
: MAIN 0 C@ . ;                                                |     |                         | 8 outside 0
: MAIN 16706 8400 ! 600 8400 C! 8400 @ . 67 8401 C! 8400 @ . ; |     | 16728_17240_
: MAIN 66 EMIT 65 16384 C! ;                                   |     | B                       | 8 outside 16384
: MAIN 65 16387 C! ;                                           | x   |                         | 8 outside 16386
: MAIN 7 8400 ! -9 8400 +! 8400 @ . 1 8401 +! 8400 @ . ;       |     | -2_-1_
: MAIN 1 16386 +! ;                                            | xy  |                         | 8 outside 16386
: MAIN 32767 8400 ! 1 8400 +! 8400 @ . ;                       |     | -32768_
: MAIN 1 8400 ! 2 8402 ! 8400 2@ . . 8401 2@ . . ;             |     | 1_2_1_2_
: MAIN 16382 2@ . . ;                                          |     |                         | 8 outside 16384
: MAIN 16384 2@ . . ;                                          | a   |                         | 8 outside 16384
: MAIN 1 2 8400 2! 8400 @ . 8402 @ . ;                         |     | 2_1_
: MAIN 66 65 16382 2! 16382 @ . ;                              |     | B65_
: MAIN 1 67 16384 2! ;                                         |     | C                       | 8 outside 16386
: MAIN 1 7 16388 2! ;                                          |     |                         | 9 halted 7
: MAIN 16706 8400 ! 8400 COUNT . . 8401 COUNT . . ;            |     | 66_8401_65_8402_
: MAIN 65 EMIT 16384 COUNT . . ;                               |     | A                       | 8 outside 16384
"#;

#[test]
fn does_library_words(rt: HostRuntime) -> Result<(), Fail> {
    run_rows(rt.alloc(), "run source.fs", FIRST_ROWS)
}

const MORE_ROWS: &str = r#"
: MAIN HERE . 7 , HERE . 8320 @ . 8196 8196 ! 100 , HERE . ;                         |  | 8320_8322_7_102_
: MAIN 16384 8196 ! 65 , HERE . ;                                                    |  | A16386_
: MAIN 16388 8196 ! 261 , 65 EMIT ;                                                  |  |                                                                                  | 9 halted 5
: MAIN 65 C, 66 C, HERE . 8320 @ . 16384 8196 ! 67 C, ;                              |  | 8322_16961_                                                                      | 8 outside 16384
: MAIN 3 ALLOT HERE . -5 ALLOT HERE . -32768 ALLOT HERE U. ;                         |  | 8323_8318_41086_
: MAIN ALIGN HERE . 1 ALLOT ALIGN HERE . 65535 8196 ! ALIGN HERE . ;                 |  | 8320_8322_0_
: MAIN 65535 65535 UM* U. U. 0 65535 UM* U. U. 256 256 UM* U. U. ;                   |  | 65534_1_0_0_1_0_
: MAIN -32768 -32768 M* U. U. -1 1 M* U. U. -32768 32767 M* U. U. ;                  |  | 16384_0_65535_65535_49152_32768_
: MAIN 300 300 * U. -3 5 * . -32768 -1 * . 0 7 * . ;                                 |  | 24464_-15_-32768_0_
: MAIN 65535 65534 65535 UM/MOD U. U. 5 0 2 UM/MOD U. U. 0 1 2 UM/MOD U. U. ;        |  | 65535_65534_2_1_32768_0_
: MAIN 65 EMIT 0 65535 65535 UM/MOD U. U. ;                                          |  | A                                                                                | 9 halted 10
: MAIN 1 1 1 UM/MOD . . ;                                                            |  |                                                                                  | 9 halted 10
: MAIN 1 0 0 UM/MOD . . ;                                                            |  |                                                                                  | 9 halted 10
: MAIN 7 0 2 SM/REM . . -7 -1 2 SM/REM . . 7 0 -2 SM/REM . . -7 -1 -2 SM/REM . . ;   |  | 3_1_-3_-1_-3_1_3_-1_
: MAIN 7 0 2 FM/MOD . . -7 -1 2 FM/MOD . . 7 0 -2 FM/MOD . . -7 -1 -2 FM/MOD . . ;   |  | 3_1_-4_1_-4_-1_3_-1_
: MAIN -32768 -1 1 SM/REM . . -32768 -1 1 FM/MOD . . 32767 0 -1 FM/MOD . . ;         |  | -32768_0_-32768_0_-32767_0_
: MAIN 0 -32768 -32768 SM/REM . . ;                                                  |  |                                                                                  | 9 halted 10
: MAIN -32768 -1 -1 SM/REM . . ;                                                     |  |                                                                                  | 9 halted 10
: MAIN 65535 -1 2 SM/REM . . 65535 -1 2 FM/MOD . . ;                                 |  | 0_-1_-1_1_
: MAIN 32769 0 -1 SM/REM . . ;                                                       |  |                                                                                  | 9 halted 10
: MAIN 1 1 -2 SM/REM . . 65 EMIT 1 1 -2 FM/MOD . . ;                                 |  | -32768_1_A                                                                       | 9 halted 10
: MAIN 1 0 0 SM/REM . . ;                                                            |  |                                                                                  | 9 halted 10
: MAIN 1 0 0 FM/MOD . . ;                                                            |  |                                                                                  | 9 halted 10
: MAIN 7 2 / . -7 2 / . 7 -2 / . -7 -2 / . -32768 2 / . 1 32767 / . -1 32767 / . ;   |  | 3_-4_-4_3_-16384_0_-1_
: MAIN 7 2 MOD . -7 2 MOD . 7 -2 MOD . -7 -2 MOD . -32768 2 MOD . -1 32767 MOD . ;   |  | 1_1_-1_-1_0_32766_
: MAIN -32768 -1 / . ;                                                               |  |                                                                                  | 9 halted 10
: MAIN 5 0 MOD . ;                                                                   |  |                                                                                  | 9 halted 10
: MAIN 5 0 /MOD . . ;                                                                |  |                                                                                  | 9 halted 10
: MAIN 10000 7 3 */MOD . . -10000 7 3 */MOD . . 32767 32767 32767 */ . -7 1 2 */ . ; |  | 23333_1_-23334_2_32767_-4_
: MAIN 32767 2 1 */ . ;                                                              |  |                                                                                  | 9 halted 10
: MAIN 1 1 0 */MOD . . ;                                                             |  |                                                                                  | 9 halted 10
: MAIN <# 8194 @ . 0 8194 ! <# 8194 @ . ;                                            |  | 8288_8288_
: MAIN <# 80 0 DO I 10 MOD 48 + HOLD LOOP 0 0 #> TYPE ;                              |  | 98765432109876543210987654321098765432109876543210987654321098765432109876543210
: MAIN 65 EMIT <# 81 0 DO 66 HOLD LOOP ;                                             |  | A                                                                                | 9 halted 12
: MAIN 0 8194 ! 65 HOLD ;                                                            |  |                                                                                  | 9 halted 12
: MAIN 8289 8194 ! 65 HOLD ;                                                         |  |                                                                                  | 9 halted 12
: MAIN 8288 8194 ! 321 HOLD 8287 C@ EMIT 8194 @ . ;                                  |  | A8287_
: MAIN <# -1 SIGN 0 SIGN 1 SIGN -32768 SIGN 0 0 #> TYPE ;                            |  | --
: MAIN 16 BASE ! 65535 0 <# # # # # # #> TYPE ;                                      |  | 0FFFF
: MAIN 36 BASE ! 35 0 <# # 0 0 #> TYPE 2DROP DECIMAL ;                               |  | Z
"#;

#[test]
fn does_more_library_words(rt: HostRuntime) -> Result<(), Fail> {
    run_rows(rt.alloc(), "run source.fs", MORE_ROWS)
}

const LAST_ROWS: &str = r#"
: MAIN 37 BASE ! 65 EMIT 1 0 <# # 2DROP ;                                                 |        | A                                | 9 halted 11
: MAIN 0 BASE ! 1 0 <# # 2DROP ;                                                          |        |                                  | 9 halted 11
: MAIN 65535 65535 <# #S #> TYPE 0 0 <# #S #> TYPE ;                                      |        | 42949672950
: MAIN 2 BASE ! 65535 65535 <# #S #> TYPE ;                                               |        | 11111111111111111111111111111111
: MAIN 0 . 1 . -1 . 32767 . -32768 . 16 BASE ! -32768 . 255 . 36 BASE ! 35 . ;            |        | 0_1_-1_32767_-32768_-8000_FF_Z_
: MAIN 0 U. 65535 U. 2 BASE ! 65535 U. 36 BASE ! 65535 U. ;                               |        | 0_65535_1111111111111111_1EKF_
: MAIN 0 8192 ! 5 U. ;                                                                    |        |                                  | 9 halted 11
: MAIN 0 8194 ! 65 EMIT 1 0 # 2DROP ;                                                     |        | A                                | 9 halted 12
: MAIN 8210 8194 ! 65 EMIT 12345 0 #S 2DROP ;                                             |        | A                                | 9 halted 12
: MAIN 65 EMIT 37 BASE ! 7 . ;                                                            |        | A                                | 9 halted 11
: MAIN 16 BASE ! 65244 0 <# #S 36 HOLD #> TYPE ;                                          |        | $FEDC
: MAIN 25185 8400 ! 25699 8402 ! 8400 4 TYPE 8401 2 TYPE 16384 0 TYPE ;                   |        | abcdbc
: MAIN 16386 2 TYPE ;                                                                     | ab     | a^00
: MAIN 65 EMIT 2 SPACES 66 EMIT 0 SPACES -1 SPACES -32768 SPACES 67 EMIT ;                |        | A__BC
: MAIN 8400 5 65 FILL 66 8402 C! 8400 6 TYPE 8400 0 67 FILL 8400 C@ EMIT ;                |        | AABAA^00A
: MAIN 65 EMIT 16382 3 66 FILL 67 EMIT ;                                                  |        | A                                | 8 outside 16384
: MAIN 16386 1 66 FILL ;                                                                  | x      |                                  | 8 outside 16386
: MAIN 8400 4 65 FILL 66 8400 C! 8400 8401 3 MOVE 8400 4 TYPE ;                           |        | BBAA
: MAIN 8400 4 65 FILL 66 8403 C! 8401 8400 3 MOVE 8400 4 TYPE ;                           |        | AABB
: MAIN 65 8400 C! 66 8401 C! 67 8402 C! 0 8403 C! 8400 8401 3 MOVE 8400 4 TYPE ;          |        | AABC
: MAIN 65 8400 C! 66 8401 C! 67 8402 C! 8401 8400 2 MOVE 8400 3 TYPE 0 0 0 MOVE ;         |        | BCC
: MAIN 8400 16382 3 MOVE ;                                                                |        |                                  | 8 outside 16384
: MAIN 16382 8400 3 MOVE ;                                                                |        |                                  | 8 outside 16384
: MAIN 16386 8400 1 MOVE 8400 C@ EMIT ;                                                   | q      | q
: MAIN 8400 4 ACCEPT 8400 SWAP TYPE KEY EMIT ;                                            | abcdef | abcde
: MAIN 8400 0 ACCEPT . 7 8400 C! 8400 4 ACCEPT . 8400 C@ . ;                              | ~      | 0_0_7_
: MAIN 8400 4 ACCEPT . ;                                                                  | ab     |                                  | 7 input ended
: MAIN 65 EMIT 16383 4 ACCEPT . ;                                                         | xyz    | A                                | 8 outside 16384
: MAIN 49 8400 C! 50 8401 C! 46 8402 C! 0 0 8400 3 >NUMBER . . U. U. ;                    |        | 1_8402_0_12_
: MAIN 16 BASE ! 70 8400 C! 102 8401 C! 71 8402 C! 0 0 8400 3 >NUMBER . . U. U. ;         |        | 1_20D2_0_FF_
: MAIN 2 BASE ! 49 8400 C! 50 8401 C! 1 0 8400 2 >NUMBER DECIMAL . . U. U. ;              |        | 1_8401_0_3_
: MAIN 8 BASE ! 55 8400 C! 56 8401 C! 0 0 8400 2 >NUMBER DECIMAL . . U. U. ;              |        | 1_8401_0_7_
: MAIN 57 8400 C! 65535 65535 8400 1 >NUMBER . . U. U. ;                                  |        | 0_8401_65535_65535_
: MAIN 47 8400 C! 58 8401 C! 64 8402 C! 91 8403 C! 1 0 8400 4 >NUMBER . . U. U. ;         |        | 4_8400_0_1_
: MAIN 36 BASE ! 122 8400 C! 90 8401 C! 96 8402 C! 0 0 8400 3 >NUMBER DECIMAL . . U. U. ; |        | 1_8402_0_1295_
: MAIN 37 BASE ! 57 8400 C! 0 0 8400 1 >NUMBER DECIMAL . . U. U. ;                        |        | 0_8401_0_9_
: MAIN 1 2 8400 0 >NUMBER . . U. U. ;                                                     |        | 0_8400_2_1_
: MAIN 65 EMIT 49 16382 C! 50 16383 C! 0 0 16382 3 >NUMBER . . U. U. ;                    |        | A                                | 8 outside 16384
: MAIN 0 0 16386 2 >NUMBER . . U. U. ;                                                    | 7x     | 1_16387_0_7_
: MAIN $FF . #10 . %101 . 'A' . $-1 . ;                                                   |        | 255_10_5_65_-1_
: MAIN 5 1 10 WITHIN . 5 5 <> . 3 0> . 1 2 NIP . ;                                        |        | -1_0_-1_2_
: MAIN 5 1 10 WITHIN . 5 5 <> . 3 0> . 1 2 NIP . DROP-ME ;                                |        |                                  | 3 source token 19: UnknownWord
: MAIN 1 2 TUCK . . . ;                                                                   |        | 2_1_2_
"#;

#[test]
fn does_the_last_library_words(rt: HostRuntime) -> Result<(), Fail> {
    run_rows(rt.alloc(), "run source.fs", LAST_ROWS)
}
