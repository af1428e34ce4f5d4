// Words outside definitions: what sources with them print, on the chip and by their meaning.
use super::rows::run_rows;
use std::test::Fail;

// Constants and what host words compute.
const CONSTANTS: &str = r#"
5 CONSTANT FIVE : MAIN [ FIVE 2 * ] LITERAL . ;                                        |  | 10_
-1 CONSTANT ALL 65535 CONSTANT TOP : MAIN ALL . TOP U. ALL TOP = . ;                   |  | -1_65535_-1_
1 CONSTANT A A 1+ CONSTANT B B A + CONSTANT a : MAIN A . B . ;                         |  | 3_2_
5 CONSTANT DUP DUP CONSTANT X : MAIN DUP . X . ;                                       |  | 5_5_
5 CONSTANT HERE HERE CONSTANT X : MAIN X . HERE . ;                                    |  | 5_5_
5 CONSTANT 10 10 CONSTANT X : MAIN X . 10 . ;                                          |  | 5_5_
CHAR A CONSTANT C CHAR CHAR CONSTANT D CHAR ( CONSTANT P : MAIN C EMIT D . P . ;       |  | A67_40_
2 3 LSHIFT 1+ CONSTANT X -16 2/ CONSTANT Y 7 3 AND 8 OR 1 XOR CONSTANT Z : MAIN X . Y . Z . ; |  | 17_-8_10_
1 2 3 ROT CONSTANT A CONSTANT B CONSTANT C : MAIN A . B . C . ;                        |  | 1_3_2_
1 2 OVER + + CONSTANT X 9 3 SWAP - CONSTANT Y 40000 40000 + CONSTANT Z : MAIN X . Y . Z U. ; |  | 4_-6_14464_
5 NEGATE CONSTANT N -1 1 RSHIFT CONSTANT R 0 INVERT CONSTANT V : MAIN N . R . V . ;    |  | -5_32767_-1_
3 CELLS CELL+ CHAR+ ALIGNED CHARS CONSTANT X BL 1- 2* CONSTANT Y : MAIN X . Y . ;      |  | 10_62_
300 300 * CONSTANT X -3 7 * DUP CONSTANT Y DROP : MAIN X U. Y . ;                      |  | 24464_-21_
$10 CONSTANT X %11 CONSTANT Y 'a' CONSTANT Z #-7 CONSTANT W : MAIN X . Y . Z . W . ;   |  | 16_3_97_-7_
"#;

// Variables and created addresses.
const ADDRESSES: &str = r#"
VARIABLE V : MAIN V @ . 7 V ! V @ . V . ;                                              |        | 0_7_8320_
VARIABLE V VARIABLE W 5 V ! V @ 1+ W ! : MAIN V @ . W @ . W V - . ;                    |        | 5_6_2_
1 ALLOT VARIABLE V HERE CONSTANT H : MAIN V . H . ;                                    |        | 8322_8324_
5 , -2 ALLOT VARIABLE V CREATE C : MAIN V @ . C @ . C V - . ;                          |        | 0_0_2_
5 , -2 ALLOT CREATE C 2 ALLOT : MAIN C @ . HERE . ;                                    |        | 5_8322_
VARIABLE V 3 V +! 4 V +! V @ CONSTANT S 9 V ! : MAIN S . V @ . ;                       |        | 7_9_
VARIABLE V : TICK 1 V +! ; : MAIN TICK TICK TICK V @ . ;                               |        | 3_
CREATE A 1 , 2 , 3 , : MAIN 0 3 0 DO I CELLS A + @ + LOOP . ;                          |        | 6_
CREATE A HERE CONSTANT H 1 C, CREATE B : MAIN A . H . B . ;                            |        | 8320_8320_8322_
CREATE B CHAR a C, CHAR b C, CHAR c C, 0 C, : MAIN B B CHAR+ 3 MOVE B 4 TYPE ;         |        | aabc
CREATE B 4 ALLOT : MAIN B 4 ACCEPT B SWAP TYPE ;                                       | abcdef | abcd
CREATE B 4 ALLOT : MAIN B 4 ACCEPT B SWAP TYPE ;                                       | x~     | x
CREATE MSG 3 C, CHAR o C, CHAR n C, CHAR e C, : MAIN MSG COUNT TYPE ;                  |        | one
CREATE FIB 1 , 1 , FIB @ FIB CELL+ @ + , FIB CELL+ @ FIB 2 CELLS + @ + , : MAIN 4 0 DO I CELLS FIB + @ . LOOP ; |  | 1_1_2_3_
8064 ALLOT CREATE X : MAIN X . HERE . ;                                                |        | 16384_16384_
8063 ALLOT CREATE X : MAIN X . HERE . ;                                                |        | 16384_16384_
8061 ALLOT VARIABLE X 7 X ! : MAIN X . X @ . HERE . ;                                  |        | 16382_7_16384_
"#;

// Execution tokens and data addresses.
const TOKENS: &str = r#"
: A 65 EMIT ; ' A CONSTANT TA : MAIN TA EXECUTE 0 EXECUTE ;                            |  | A     | 9 halted 13
CREATE T 7 , ' T >BODY @ CONSTANT S : MAIN S . ;                                       |  | 7_
: A 1 . ; : B 2 . ; ' B ' A : MAIN LITERAL EXECUTE LITERAL EXECUTE ;                   |  | 1_2_
: A 1 . ; : B 2 . ; ' B CONSTANT TB ' A CONSTANT TA : MAIN TB . TA . ['] A . ['] B . ; |  | 1_2_2_1_
' DUP CONSTANT D : MAIN 3 D EXECUTE + . D . ;                                          |  | 6_1_
' . CONSTANT P ' . CONSTANT Q : MAIN 5 P EXECUTE Q . ;                                 |  | 5_1_
5 CONSTANT K ' K CONSTANT T : MAIN T EXECUTE . T . ;                                   |  | 5_1_
VARIABLE V ' V CONSTANT T 8 V ! : MAIN T EXECUTE @ . ;                                 |  | 8_
1 C, VARIABLE V ' V >BODY CONSTANT A : MAIN A V = . A . ;                              |  | -1_8322_
: A 1 . ; ' A CONSTANT T : A 2 . ; ' A CONSTANT U : MAIN T EXECUTE U EXECUTE T . U . ; |  | 1_2_1_2_
: A ; ' A ' A - CONSTANT D : MAIN D . ;                                                |  | 0_
: RED ." red " ; : BLUE ." blue " ; CREATE ACTS ' RED , ' BLUE , ' RED , : MAIN 3 0 DO I CELLS ACTS + @ EXECUTE LOOP ; |  | red_blue_red_
: TWICE DUP >R EXECUTE R> EXECUTE ; : STAR 42 EMIT ; ' STAR CONSTANT S : MAIN S TWICE ; |  | **
' DUP DROP ' SWAP CONSTANT S : MAIN S . ['] SWAP . ['] OVER . ;                        |  | 2_2_3_
"#;

// Defining words and what they define.
const DEFINING: &str = r#"
: ARRAY CREATE CELLS ALLOT DOES> SWAP CELLS + ; 4 ARRAY SQ : FILLUP 4 0 DO I I * I SQ ! LOOP ; : MAIN FILLUP 4 0 DO I SQ @ . LOOP ; |  | 0_1_4_9_
: CON CREATE , DOES> @ ; 5 CON F 6 CON S : MAIN F S * . ;                              |  | 30_
: BUF CREATE ALLOT ; 4 BUF P 6 BUF Q : MAIN Q P - . HERE Q - . ;                       |  | 4_6_
: PAIR CREATE , , ; 1 2 PAIR P : MAIN P @ . P CELL+ @ . ;                              |  | 2_1_
: BUF CREATE ALLOT ; 4 BUF P P CONSTANT A ' P >BODY CONSTANT B : MAIN A . B A = . ;    |  | 8320_-1_
: CON CREATE , DOES> @ ; 9 CON N ' N CONSTANT T : MAIN T EXECUTE . T . ;               |  | 9_1_
: CON CREATE , DOES> @ ; 9 CON N ' N >BODY @ CONSTANT V : MAIN V . ;                   |  | 9_
: ADDER CREATE , DOES> @ + ; 1 ADDER INC 10 ADDER TEN : MAIN 5 INC TEN . ;             |  | 16_
: ADDER CREATE , DOES> @ + ; 1 ADDER INC -1 ADDER DEC ' INC , ' DEC , : MAIN 5 8324 @ EXECUTE . 5 8326 @ EXECUTE . ; |  | 6_4_
: MARK CREATE DOES> . ; MARK X MARK Y : MAIN X Y ;                                     |  | 8320_8320_
: SHOW @ . ; : SHOWN CREATE , DOES> SHOW ; 3 SHOWN X : MAIN X X ;                      |  | 3_3_
1 C, : MARK CREATE DOES> ; MARK X : MAIN X . ;                                         |  | 8322_
CREATE LAST 0 , : LINK CREATE HERE LAST @ , LAST ! ; LINK A LINK B LINK C : MAIN LAST @ BEGIN DUP WHILE DUP . @ REPEAT DROP ; |  | 8326_8324_8322_
: ENUM CREATE DUP , 1+ DOES> @ ; 0 ENUM RED ENUM GREEN ENUM BLUE CONSTANT N : MAIN RED . GREEN . BLUE . N . ; |  | 0_1_2_3_
"#;

// More of them: what a host part leaves, parts with structures, and names that are defined again.
const CHILDREN: &str = r#"
: DOUBLE CREATE DUP + ; 4 DOUBLE X CONSTANT E : MAIN E . ;                             |  | 8_
: STARS CREATE , DOES> @ 0 DO 42 EMIT LOOP ; 3 STARS THREE : MAIN THREE THREE ;        |  | ******
: SIGN-OF CREATE , DOES> @ DUP 0< IF DROP ." neg" EXIT THEN . ; -1 SIGN-OF A 4 SIGN-OF B : MAIN A B ; |  | neg4_
: SAY CREATE , DOES> ." <" @ . ." >" ; 5 SAY X : MAIN X X ;                            |  | <5_><5_>
: VECTOR CREATE 3 CELLS ALLOT DOES> SWAP CELLS + ; VECTOR V 5 ' V >BODY CELL+ ! : MAIN 1 V @ . ; |  | 5_
: CON CREATE , DOES> @ ; 1 CON A : CON CREATE , DOES> @ NEGATE ; 1 CON B : MAIN A . B . ; |  | 1_-1_
: CON CREATE , DOES> @ ; 1 CON A : G A . ; 2 CON A : MAIN G A . ;                      |  | 1_2_
HEX : CON CREATE 10 , DOES> @ ; DECIMAL CON X : MAIN X . ;                             |  | 16_
5 CONSTANT K VARIABLE V : TABLE CREATE K , V , DOES> DUP @ . CELL+ @ . ; TABLE T : MAIN T ; |  | 5_8320_
: ODD CREATE -100 ALLOT 100 ALLOT ; ODD X : MAIN X . HERE . ;                          |  | 8320_8320_
: MOVED CREATE 8196 8196 ! , ; 8400 MOVED X : MAIN HERE . X . ;                        |  | 8402_8320_
: BYTE CREATE C, DOES> C@ EMIT ; CHAR A BYTE A CHAR B BYTE B : MAIN B A ;             |  | BA
: LIST CREATE DOES> [ 7 ] LITERAL . . ; LIST L : MAIN L ;                              |  | 7_8320_
"#;

// The base, the data image, texts at HERE, and cells from outside in definitions.
const STATE: &str = r#"
HEX : MAIN 10 DECIMAL . ;                                                              |  | 16_
HEX : MAIN FF . ;                                                                      |  | FF_
2 BASE ! 101 DECIMAL CONSTANT X HEX 1F DECIMAL CONSTANT Y : MAIN X . Y . ;             |  | 5_31_
HEX 7 CONSTANT A A DECIMAL CONSTANT Y : MAIN Y . ;                                     |  | 7_
16 8192 ! FF CONSTANT X DECIMAL : MAIN X . ;                                           |  | 255_
1 BASE ! $A BASE ! : MAIN 7 . ;                                                        |  | 7_
7 8400 ! : MAIN 8400 @ . HERE . ;                                                      |  | 7_8320_
65 8321 C! 66 8320 C! : MAIN 8320 2 TYPE ;                                             |  | BA
8400 8196 ! CREATE X 5 8194 ! : MAIN X . ;                                             |  | 8400_
3 ALLOT : MAIN S" ab" . . HERE . ;                                                     |  | 2_8323_8325_
: A S" xy" TYPE ; CREATE B 65 C, : MAIN A B C@ EMIT B . ;                              |  | xyA8322_
: A ." q" ; CREATE B : MAIN A B . ;                                                    |  | q8322_
: A S" abc" TYPE ; 88 8321 C! : MAIN A ;                                               |  | aXc
7 : MAIN LITERAL . ;                                                                   |  | 7_
1 2 3 : A LITERAL . ; : MAIN A LITERAL . LITERAL . ;                                   |  | 3_2_1_
5 : MAIN [ 2 * ] LITERAL . ;                                                           |  | 10_
: A [ 4 5 ] ; + CONSTANT X : MAIN X . ;                                                |  | 9_
VARIABLE V : MAIN [ HERE V ! ] V @ . ;                                                 |  | 8322_
"#;

// Names that are defined again, in either case of letters.
const NAMES: &str = r#"
10 CONSTANT X : OLD X . ; 20 CONSTANT X : MAIN OLD X . ;                               |  | 10_20_
VARIABLE X 5 X ! : GET X @ ; VARIABLE X 7 X ! : MAIN GET . X @ . ;                     |  | 5_7_
: F 1 . ; : G F ; 2 CONSTANT F : MAIN G F . ;                                          |  | 1_2_
variable Count 3 cOUNT ! : main COUNT @ . ; : Main main ;                              |  | 3_
: CONSTANT 1 . ; : MAIN CONSTANT ;                                                     |  | 1_
5 CONSTANT BASE : MAIN BASE . ;                                                        |  | 5_
: X ; CREATE X 4 , : MAIN X @ . ;                                                      |  | 4_
1 CONSTANT VARIABLE VARIABLE CONSTANT Y : MAIN Y . ;                                   |  | 1_
"#;

#[test]
fn constants_run(rt: HostRuntime) -> Result<(), Fail> {
    run_rows(rt.alloc(), "run source.fs", CONSTANTS)
}

#[test]
fn constants_are_evaluated(rt: HostRuntime) -> Result<(), Fail> {
    run_rows(rt.alloc(), "eval source.fs", CONSTANTS)
}

#[test]
fn addresses_run(rt: HostRuntime) -> Result<(), Fail> {
    run_rows(rt.alloc(), "run source.fs", ADDRESSES)
}

#[test]
fn addresses_are_evaluated(rt: HostRuntime) -> Result<(), Fail> {
    run_rows(rt.alloc(), "eval source.fs", ADDRESSES)
}

#[test]
fn tokens_run(rt: HostRuntime) -> Result<(), Fail> {
    run_rows(rt.alloc(), "run source.fs", TOKENS)
}

#[test]
fn tokens_are_evaluated(rt: HostRuntime) -> Result<(), Fail> {
    run_rows(rt.alloc(), "eval source.fs", TOKENS)
}

#[test]
fn defining_words_run(rt: HostRuntime) -> Result<(), Fail> {
    run_rows(rt.alloc(), "run source.fs", DEFINING)
}

#[test]
fn defining_words_are_evaluated(rt: HostRuntime) -> Result<(), Fail> {
    run_rows(rt.alloc(), "eval source.fs", DEFINING)
}

#[test]
fn children_run(rt: HostRuntime) -> Result<(), Fail> {
    run_rows(rt.alloc(), "run source.fs", CHILDREN)
}

#[test]
fn children_are_evaluated(rt: HostRuntime) -> Result<(), Fail> {
    run_rows(rt.alloc(), "eval source.fs", CHILDREN)
}

#[test]
fn data_images_run(rt: HostRuntime) -> Result<(), Fail> {
    run_rows(rt.alloc(), "run source.fs", STATE)
}

#[test]
fn data_images_are_evaluated(rt: HostRuntime) -> Result<(), Fail> {
    run_rows(rt.alloc(), "eval source.fs", STATE)
}

#[test]
fn names_defined_again_run(rt: HostRuntime) -> Result<(), Fail> {
    run_rows(rt.alloc(), "run source.fs", NAMES)
}

#[test]
fn names_defined_again_are_evaluated(rt: HostRuntime) -> Result<(), Fail> {
    run_rows(rt.alloc(), "eval source.fs", NAMES)
}
