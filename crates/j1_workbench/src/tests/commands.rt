// Words of commands, the instructions of runs, faults, and the exit statuses.
use super::rows::{run_calls, run_faults};
use crate::{Status, status_number};
use std::test::Fail;

const WORDS: &str = r#"
                                 | : MAIN ;                     |  |  | 1 bad words
run                              | : MAIN ;                     |  |  | 1 bad words
run -x                           | : MAIN ;                     |  |  | 1 bad words
RUN source.fs                    | : MAIN ;                     |  |  | 1 bad words
run source.fs x                  | : MAIN ;                     |  |  | 1 bad words
run source.fs --steps            | : MAIN ;                     |  |  | 1 bad words
run source.fs --steps 1000000001 | : MAIN ;                     |  |  | 1 bad words
run source.fs --steps +1         | : MAIN ;                     |  |  | 1 bad words
bound                            | : MAIN ;                     |  |  | 1 bad words
bound source.fs x                | : MAIN ;                     |  |  | 1 bad words
bound NONE                       | : MAIN ;                     |  |  | 2 NONE: missing
net source.fs                    | : MAIN ;                     |  |  | 17 net line 1
eval x --steps 20000001          | : MAIN ;                     |  |  | 1 bad words
make 65536 1                     | : MAIN ;                     |  |  | 1 bad words
make 0 0                         | : MAIN ;                     |  |  | 1 bad words
make 0 201                       | : MAIN ;                     |  |  | 1 bad words
eval X                           | : MAIN ;                     |  |  | 2 X: missing
build a b                        | : MAIN ;                     |  |  | 2 a: missing
exec a --steps 0                 | : MAIN ;                     |  |  | 2 a: missing
build a                          | : MAIN ;                     |  |  | 1 bad words
asm a                            | : MAIN ;                     |  |  | 1 bad words
list a b                         | : MAIN ;                     |  |  | 1 bad words
run NONE                         | : MAIN ;                     |  |  | 2 NONE: missing
run NONE --steps 5               | : MAIN ;                     |  |  | 2 NONE: missing
run source.fs --steps 0          | : MAIN ;                     |  |  | 6 steps used
run source.fs                    | : MAIN ;
run source.fs --steps 1000000000 | : MAIN ;
certify                          | : MAIN ;                     |  |  | 1 bad words
certify -x                       | : MAIN ;                     |  |  | 1 bad words
certify source.fs --steps 5      | : MAIN ;                     |  |  | 1 bad words
certify NONE                     | : MAIN ;                     |  |  | 2 NONE: missing
run _                            | : MAIN ;                     |  |  | 1 bad words
run source.fs --steps 100        | : MAIN 0 0 DO LOOP 65 EMIT ; |  |  | 6 steps used
run n                            | : MAIN ;                     |  |  | 2 n: missing
run nnnnnnnnnnnnnnnnnnnnnnnnnnnnnnnnnnnnnnnnnnnnnnnnnnnnnnnnnnnnnnnnnnnnnnnnnnnnnnnnnnnnnnnnnnnnnnnnnnnnnnnnnnnnnnnnnnnnnnnnnnnnnnnnnnnnnnnnnnnnnnnnnnnnnnnnnnnnnnnnnnnnnnnnnnnnnnnnnnnnnnnnnnnnnnnnnnnnnnnnnnnnnnnnnnnnnnnnnnnnnnnnnnnnnnnnnnnnnnnnnnnnnnnnnnnnnnn | : MAIN ; |  |  | 2 nnnnnnnnnnnnnnnnnnnnnnnnnnnnnnnnnnnnnnnnnnnnnnnnnnnnnnnnnnnnnnnnnnnnnnnnnnnnnnnnnnnnnnnnnnnnnnnnnnnnnnnnnnnnnnnnnnnnnnnnnnnnnnnnnnnnnnnnnnnnnnnnnnnnnnnnnnnnnnnnnnnnnnnnnnnnnnnnnnnnnnnnnnnnnnnnnnnnnnnnnnnnnnnnnnnnnnnnnnnnnnnnnnnnnnnnnnnnnnnnnnnnnnnnnnnnnnn: missing
run nnnnnnnnnnnnnnnnnnnnnnnnnnnnnnnnnnnnnnnnnnnnnnnnnnnnnnnnnnnnnnnnnnnnnnnnnnnnnnnnnnnnnnnnnnnnnnnnnnnnnnnnnnnnnnnnnnnnnnnnnnnnnnnnnnnnnnnnnnnnnnnnnnnnnnnnnnnnnnnnnnnnnnnnnnnnnnnnnnnnnnnnnnnnnnnnnnnnnnnnnnnnnnnnnnnnnnnnnnnnnnnnnnnnnnnnnnnnnnnnnnnnnnnnnnnnnnnn | : MAIN ; |  |  | 1 bad words
"#;

#[test]
fn answers_words(rt: HostRuntime) -> Result<(), Fail> {
    run_calls(rt.alloc(), WORDS)
}

// The call of MAIN, two cells, the store at the console (the fourth instruction), DROP, the return, and three to the halt.
const STEPS: &str = r#"
run source.fs --steps 0 | : MAIN 65 EMIT ; |  |   | 6 steps used
run source.fs --steps 3 | : MAIN 65 EMIT ; |  |   | 6 steps used
run source.fs --steps 4 | : MAIN 65 EMIT ; |  | A | 6 steps used
run source.fs --steps 8 | : MAIN 65 EMIT ; |  | A | 6 steps used
run source.fs --steps 9 | : MAIN 65 EMIT ; |  | A
"#;

#[test]
fn counts_steps(rt: HostRuntime) -> Result<(), Fail> {
    run_calls(rt.alloc(), STEPS)
}

// A console that has ended is asked once: a second question would be a fault.
const FAULTS: &str = r#"
files 1     | run source.fs     | : MAIN 72 EMIT ;                             | x  |    | 10 read fault
writes 1    | run source.fs     | : MAIN 72 EMIT ;                             | x  |    | 11 write fault
writes 1    | run source.fs     | : MAIN ;                                     | x
questions 1 | run source.fs     | : MAIN 72 EMIT KEY EMIT ;                    | x  | H  | 10 read fault
notes 2     | run source.fs     | X                                            | x  |    | 11 =j1:_
notes 4     | run source.fs     | : MAIN X ;                                   | x  |    | 11 =j1:_source_token_3
notes 2     | run source.fs     | : MAIN 72 EMIT ABORT ;                       | x  | H  | 11 =j1:_
files 1     | certify source.fs | : MAIN 72 EMIT ;                             | x  |    | 10 read fault
writes 1    | certify source.fs | : MAIN 72 EMIT ;                             | x  |    | 11 write fault
questions 2 | eval source.fs    | : MAIN 72 EMIT KEY EMIT KEY EMIT ;           | xy | Hx | 10 read fault
writes 1    | eval source.fs    | : MAIN 72 EMIT KEY EMIT KEY EMIT ;           | xy |    | 11 write fault
files 1     | bound source.fs   | : MAIN ;                                     | x  |    | 10 read fault
files 2     | build source.fs b | : MAIN ;                                     | x  |    | 11 write fault
writes 1    | bound source.fs   | : MAIN ;                                     | x  |    | 11 write fault
writes 2    | bound source.fs   | : MAIN 10 0 DO LOOP ;                        | x  | 141 | 11 write fault
files 1     | eval source.fs    | : MAIN ;                                     | x   |    | 10 read fault
writes 1    | eval source.fs    | : MAIN ;
files 1     | build source.fs b | : MAIN 72 EMIT ;                             | x   |    | 10 read fault  |  | b
files 2     | build source.fs b | : MAIN 72 EMIT ;                             | x   |    | 11 write fault |  | source.fs = :_MAIN_72_EMIT_;
files 1     | exec a            |                                              | x   |    | 10 read fault  | a = J1IM^01^00^05^00^00^00^02^C0^00l^00^C0#`^03a
questions 2 | exec a            |                                              | xy  | x  | 10 read fault  | a = J1IM^01^00^05^00^00^00^02^C0^00l^00^C0#`^03a
writes 1    | exec a            |                                              | xy  |    | 11 write fault | a = J1IM^01^00^05^00^00^00^02^C0^00l^00^C0#`^03a
files 1     | asm a b           |                                              | x   |    | 10 read fault  | a = J1_1~CODE~DATA~END~ | b
files 2     | asm a b           |                                              | x   |    | 11 write fault | a = J1_1~CODE~DATA~END~ | a = J1_1~CODE~DATA~END~
questions 5 | forth             |                                              | 1_.~2_.~ | 1__ok~ | 10 read fault
writes 1    | forth             |                                              | 1_.~ |    | 11 write fault
questions 3 | run source.fs     | : MAIN BEGIN KEY EMIT 0 UNTIL ;              | abc | ab | 10 read fault
files 1     | list a            |                                              |     |    | 10 read fault  | a = x
files 1     | net a             |                                              |     |    | 10 read fault  | a = x
writes 1    | make 0 2          |                                              |     |    | 11 write fault
questions 2 | run source.fs     | : MAIN KEY EMIT KEY EMIT KEY EMIT KEY EMIT ; |    |    | 7 input ended
questions 3 | run source.fs     | : MAIN KEY EMIT KEY EMIT KEY EMIT KEY EMIT ; | x  | x  | 7 input ended
questions 4 | run source.fs     | : MAIN KEY EMIT KEY EMIT KEY EMIT KEY EMIT ; | xy | xy | 7 input ended
"#;

#[test]
fn tells_faults(rt: HostRuntime) -> Result<(), Fail> {
    run_faults(rt.alloc(), FAULTS)
}

// No row runs out of memory. Each other status has its number in a row.
#[test]
fn numbers_want_of_memory(rt: HostRuntime) {
    assert_eq!(rt; status_number(&Status::OutOfMemory), 12);
}
