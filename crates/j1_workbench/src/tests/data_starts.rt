// Sources that state where their data space begins: what they print, their image files, and their certificates and bounds.
use super::rows::{run_calls, run_rows};
use std::test::Fail;

// A source, its input, what it prints, and its answer.
const STARTS: &str = r#"
3000 CODE-CELLS : MAIN BASE . HERE . ;                                   |      | 6000_6128_
3000 CODE-CELLS : MAIN 65 6200 C! 6200 1 TYPE 5998 @ ;                   |      | A     | 8 outside 5998
2048 CODE-CELLS 7 , : MAIN BASE . 4224 @ . HERE . ;                      |      | 4096_7_4226_
8000 CODE-CELLS : MAIN BASE . HERE . 16383 C@ . ;                        |      | 16000_16128_0_
8000 CODE-CELLS 256 ALLOT : MAIN HERE . ;                                |      | 16384_
2048 CODE-CELLS 12160 ALLOT : MAIN HERE . ;                              |      | 16384_
4096 CODE-CELLS : MAIN BASE . HERE . ;                                   |      | 8192_8320_
$BB8 CODE-CELLS : MAIN BASE . ;                                          |      | 6000_
( split ) 3000 \ cells~CODE-CELLS : MAIN HERE . ;                        |      | 6128_
2048 CODE-CELLS VARIABLE V 9 V ! : MAIN V . V @ . 12 V ! V @ . ;         |      | 4224_9_12_
"#;

// The same with texts, tokens, defining words and the hold buffer.
const PROGRAMS: &str = r#"
2048 CODE-CELLS : ARRAY CREATE CELLS ALLOT DOES> SWAP CELLS + ; 4 ARRAY SQ : MAIN 4 0 DO I I * I SQ ! LOOP 4 0 DO I SQ @ . LOOP ; |      | 0_1_4_9_
5000 CODE-CELLS : A ." ok" ; ' A CONSTANT T : MAIN T EXECUTE 255 HEX . ; |      | okFF_
3000 CODE-CELLS : MAIN 12345 0 <# #S #> . . ;                            |      | 5_6091_
3000 CODE-CELLS : MAIN 6002 @ . ;                                        |      | 6096_
2100 CODE-CELLS : MAIN 65 EMIT 4198 @ ;                                  |      | A     | 8 outside 4198
2100 CODE-CELLS : MAIN 65 EMIT 1 4199 ! ;                                |      | A     | 8 outside 4198
6000 CODE-CELLS HEX : MAIN FF . 2EE0 @ . ;                               |      | FF_10_
7000 CODE-CELLS CREATE B 4 ALLOT : MAIN B 4 ACCEPT B SWAP TYPE ;         | abc~ | abc
2500 CODE-CELLS : MAIN S" ab" . . [ BASE @ HERE ] LITERAL . LITERAL . ;  |      | 2_5128_5130_10_
8000 CODE-CELLS : MAIN 7 16380 ! 16380 @ . 1 15998 ! ;                   |      | 7_    | 8 outside 15998
"#;

#[test]
fn stated_starts_run(rt: HostRuntime) -> Result<(), Fail> {
    run_rows(rt.alloc(), "run source.fs", STARTS)
}

#[test]
fn stated_starts_are_evaluated(rt: HostRuntime) -> Result<(), Fail> {
    run_rows(rt.alloc(), "eval source.fs", STARTS)
}

#[test]
fn programs_with_a_start_run(rt: HostRuntime) -> Result<(), Fail> {
    run_rows(rt.alloc(), "run source.fs", PROGRAMS)
}

#[test]
fn programs_with_a_start_are_evaluated(rt: HostRuntime) -> Result<(), Fail> {
    run_rows(rt.alloc(), "eval source.fs", PROGRAMS)
}

// Certificates and bounds are the same at each data start.
const CERTIFIED: &str = r#"
certify source.fs | 3000 CODE-CELLS : SQ DUP * ; : MAIN 3 SQ . ;        |  | SQ_need_1_peak_9_back_6_exit_0_0~MAIN_need_0_peak_15_back_12_exit_0_0~
bound source.fs   | 2048 CODE-CELLS : MAIN 10 0 DO LOOP ;               |  | 141~
build source.fs a ; exec a | 2048 CODE-CELLS : MAIN 10 0 DO I . LOOP ;  |  | 0_1_2_3_4_5_6_7_8_9_
"#;

#[test]
fn certificates_know_no_data_start(rt: HostRuntime) -> Result<(), Fail> {
    run_calls(rt.alloc(), CERTIFIED)
}

// Two sources have one image file, and it begins with these bytes: 8192 is the start of version 1, stated or not.
const IMAGES: &str = r#"
build source.fs a ; build other b | 3000 CODE-CELLS : MAIN HERE . ; | | | | other = $BB8_CODE-CELLS_:_MAIN_HERE_._; | a == b & a >= J1IM^02^00p^17
build source.fs a ; build other b | 4096 CODE-CELLS : MAIN 72 EMIT ; | | | | other = :_MAIN_72_EMIT_; | a == b & a >= J1IM^01^00
build source.fs a ; build other b | 4096 CODE-CELLS : ADD + ; : MAIN 1 2 ADD DROP ; | | | | other = :_ADD_+_;_:_MAIN_1_2_ADD_DROP_; | a == b & a >= J1IM^01^00
build source.fs a ; build other b | 4096 CODE-CELLS : CON CREATE , DOES> @ ; 7 CON N : MAIN N . ; | | | | other = :_CON_CREATE_,_DOES>_@_;_7_CON_N_:_MAIN_N_._; | a == b & a >= J1IM^01^00
"#;

#[test]
fn image_files_have_the_start(rt: HostRuntime) -> Result<(), Fail> {
    run_calls(rt.alloc(), IMAGES)
}
