// Sessions with the interactive Forth. A line of a table is a line that is typed, a bar, and the reply to it; both are written as `test_notation`
// says. The replies are those of ANS Forth, and of `docs/FORTH.md` where the standard leaves them to the system, by hand.
use super::rows::{NEVER, Row, run_calls, run_row};
use std::alloc::{AllocError, Global};
use std::test::Fail;
use test_notation::field;

// Each Core word at least once.
const WORDS: &str = r#"
: SQ DUP * ;                                        | _ok
7 SQ .                                              | 49__ok
XYZZY                                               | XYZZY_?
1 2 + .                                             | 3__ok
VARIABLE V 5 V ! V @ .                              | 5__ok
: C CREATE , DOES> @ ; 9 C N N .                    | 9__ok
: X S" 3 4 + ." EVALUATE ; X                        | 7__ok
: E S" ENV" ENVIRONMENT? . ; E                      | 0__ok
BL WORD DUP FIND SWAP DROP .                        | -1__ok
                                                    | _ok
1 2 3 . . .                                         | 3_2_1__ok
1 2 SWAP . .                                        | 1_2__ok
1 2 OVER . . .                                      | 1_2_1__ok
1 2 3 ROT . . .                                     | 1_3_2__ok
7 DUP . .                                           | 7_7__ok
1 2 DROP .                                          | 1__ok
0 ?DUP . 5 ?DUP . .                                 | 0_5_5__ok
1 2 2DUP . . . .                                    | 2_1_2_1__ok
1 2 3 2DROP .                                       | 1__ok
1 2 3 4 2SWAP . . . .                               | 2_1_4_3__ok
1 2 3 4 2OVER . . . . . .                           | 2_1_4_3_2_1__ok
DEPTH . 5 6 DEPTH . 2DROP                           | 0_2__ok
7 3 - . 3 7 - . -3 4 * . 300 300 * U.               | 4_-4_-12_24464__ok
7 2 / . -7 2 / . 7 -2 / . -7 2 MOD . 7 -2 MOD .     | 3_-4_-4_1_-1__ok
-7 2 /MOD . . 7 3 5 */ . 7 3 5 */MOD . .            | -4_1_4_4_1__ok
32767 2 3 */ . 5 1+ . 5 1- . 5 2* . -5 2/ .         | 21844_6_4_10_-3__ok
5 NEGATE . -5 ABS . -32768 ABS . 3 7 MAX . 3 7 MIN . | -5_5_-32768_7_3__ok
-3 7 MAX . -3 7 MIN . 6 3 AND . 6 3 OR . 6 3 XOR .  | 7_-3_2_7_5__ok
0 INVERT . 1 4 LSHIFT . -1 12 RSHIFT .              | -1_16_15__ok
1 2 = . 2 2 = . 1 2 < . 2 1 < . -1 1 < .            | 0_-1_-1_0_-1__ok
1 2 > . 2 1 > . 1 2 U< . -1 1 U< . 0 0= . 3 0= .    | 0_-1_-1_0_-1_0__ok
-1 0< . 1 0< . -1 S>D . . 1 S>D . .                 | -1_0_-1_-1_0_1__ok
65535 U. 65535 . -32768 . 65 EMIT SPACE 66 EMIT     | 65535_-1_-32768_A_B_ok
65535 .                                             | -1__ok
67 EMIT CR 68 EMIT                                  | C~D_ok
3 SPACES 69 EMIT BL EMIT BL .                       | ___E_32__ok
50000 2 UM* U. U. -3 4 M* . .                       | 1_34464_-1_-12__ok
34464 1 2 UM/MOD U. U. -7 -1 2 SM/REM . .           | 50000_0_-3_-1__ok
-7 -1 2 FM/MOD . . 7 0 -2 FM/MOD . .                | -4_1_-4_-1__ok
: MONEY 0 <# # # [CHAR] . HOLD #S #> TYPE ;         | _ok
12345 MONEY 5 MONEY                                 | 123.450.05_ok
-7 DUP ABS 0 <# #S ROT SIGN #> TYPE                 | -7_ok
DECIMAL 26 16 BASE ! DUP . DECIMAL .                | 1A_26__ok
2 BASE ! 101 DECIMAL .                              | 5__ok
16 BASE ! ff -1F DECIMAL . .                        | -31_255__ok
CREATE B 10 ALLOT B B ALIGNED = .                   | -1__ok
B 4 65 FILL B 4 TYPE                                | AAAA_ok
66 B C! B C@ . B CHAR+ C@ .                         | 66_65__ok
B B CHAR+ 3 MOVE B 4 TYPE                           | BBAA_ok
1 2 B 2! B 2@ . . B @ . B CELL+ @ .                 | 2_1_2_1__ok
5 B ! 3 B +! B @ . 2 CELLS . 3 CHARS .              | 8_4_3__ok
HERE 1 , 2 C, 3 C, ALIGN HERE SWAP - .              | 4__ok
HERE 1 C, ALIGN HERE SWAP - . 3 ALIGNED .           | 2_4__ok
HERE 12288 U< . HERE 2 ALLOT HERE SWAP - .          | -1_2__ok
42 CONSTANT K K . K K + .                           | 42_84__ok
VARIABLE W W @ . 7 W ! W @ .                        | 0_7__ok
: S S" abc" ; S TYPE S SWAP DROP .                  | abc3__ok
CHAR A . CHAR BCD . : AT [CHAR] @ ; AT .            | 65_66_64__ok
: HI ." Hi there" ; HI CR HI                        | Hi_there~Hi_there_ok
( a comment ) 1 . ( and one ) 2 .                   | 1_2__ok
: SGN DUP 0< IF DROP -1 ELSE 0= 0= 1 AND THEN ;     | _ok
-5 SGN . 0 SGN . 9 SGN .                            | -1_0_1__ok
: DOWN BEGIN DUP . 1- DUP 0= UNTIL DROP ; 3 DOWN    | 3_2_1__ok
: DN BEGIN ?DUP WHILE DUP . 1- REPEAT ; 3 DN        | 3_2_1__ok
: TEN 10 0 DO I . LOOP ; TEN                        | 0_1_2_3_4_5_6_7_8_9__ok
: DN2 0 10 DO I . -5 +LOOP ; DN2                    | 10_5_0__ok
: TAB 3 1 DO 3 1 DO J I * . LOOP LOOP ; TAB         | 1_2_2_4__ok
: L5 10 0 DO I 5 = IF LEAVE THEN I . LOOP ; L5      | 0_1_2_3_4__ok
: FND 10 0 DO I 7 = IF I UNLOOP EXIT THEN LOOP 0 ;  | _ok
FND .                                               | 7__ok
: FAC DUP 1 > IF DUP 1- RECURSE * THEN ; 7 FAC .    | 5040__ok
: RR 1 2 >R >R R@ R> R> . . . ; RR                  | 2_1_1__ok
: TWICE >R R@ EXECUTE R> EXECUTE ; 3 ' SQ TWICE .   | 81__ok
: T ['] SQ EXECUTE ; 5 T .                          | 25__ok
: SEVEN [ 3 4 + ] LITERAL ; SEVEN .                 | 7__ok
: ST STATE @ ; IMMEDIATE : Q ST LITERAL ; Q .       | -1__ok
STATE @ .                                           | 0__ok
: ENDIF POSTPONE THEN ; IMMEDIATE                   | _ok
: P IF 11 ELSE 22 ENDIF ; 1 P . 0 P .               | 11_22__ok
: +! POSTPONE + POSTPONE DUP ; IMMEDIATE            | _ok
: P2 3 4 +! . . ; P2                                | 7_7__ok
: CON CREATE , DOES> @ ; 5 CON FIVE FIVE .          | 5__ok
CREATE D1 99 , ' D1 >BODY @ . D1 @ .                | 99_99__ok
BL WORD hello COUNT TYPE                            | hello_ok
CHAR ) WORD a b c) COUNT TYPE                       | a_b_c_ok
: '' BL WORD FIND ; '' SWAP . DROP                  | -1__ok
BL WORD swap FIND . DROP BL WORD if FIND . DROP     | -1_1__ok
BL WORD nope FIND . COUNT TYPE                      | 0_nope_ok
: LEN SOURCE SWAP DROP ; LEN .                      | 30__ok
: REST SOURCE >IN @ - SWAP DROP ; REST .  12345     | 8__ok
.                                                   | 12345__ok
>IN @ .                                             | 6__ok
: SKIPPED SOURCE >IN ! DROP ; SKIPPED 1 2 3 nope    | _ok
: EV S" : NEW 77 ;" EVALUATE ; EV NEW .             | 77__ok
: NUM 0 0 S" 12x" >NUMBER . DROP . . ; NUM          | 1_0_12__ok
KEY . KEY .~AB                                      | 65_66__ok~_ok
B 5 ACCEPT . B 3 TYPE~abc                           | 3_abc_ok
B 2 ACCEPT . .~xyz                                  | 2_._stack_?~z_?
: AQ ABORT" oops" 7 . ; 0 AQ                        | 7__ok
5 1 AQ 9 .~DEPTH .                                  | oops~0__ok
1 2 ABORT 3~DEPTH .                                 | 0__ok
1 2 QUIT 3~DEPTH . 2DROP                            | 2__ok
: DEEP 1 ABORT ; : DEEPER DEEP 2 ; 8 DEEPER~DEPTH . | 0__ok
DEPTH .                                             | 0__ok
"#;

// Lines that are refused, and what stands after them; names, open definitions, and lines of 80 bytes and more.
const REFUSALS: &str = r#"
+                                                   | +_stack_?
1 2 DROP DROP DROP                                  | DROP_stack_?
: TAKES DROP DROP ; 1 TAKES                         | TAKES_stack_?
1 2 NOPE 3                                          | NOPE_?
DEPTH .                                             | 0__ok
: BAD 1 NOPE ; 5                                    | NOPE_?
BAD                                                 | BAD_?
DEPTH .                                             | 0__ok
: STAYS 11 ; NOPE                                   | NOPE_?
STAYS .                                             | 11__ok
THEN                                                | THEN_?
;                                                   | ;_?
: F IF ; 1                                          | ;_?
: F IF IF IF IF IF IF IF IF IF IF IF IF IF IF IF IF IF | IF_?
: F UNTIL                                           | UNTIL_?
: F BEGIN THEN                                      | THEN_?
: F LEAVE                                           | LEAVE_?
F                                                   | F_?
>R                                                  | >R_stack_?
I                                                   | I_stack_?
65536                                               | 65536_?
99999                                               | 99999_?
-32769                                              | -32769_?
1F                                                  | 1F_?
20000 ALLOT                                         | ALLOT_full_?
HERE 12288 U< . -20000 ALLOT                        | -1_ALLOT_full_?
HERE 12288 U< .                                     | -1__ok
1 2 3 4 5 6 7 8 9 10 11 12 13 14 15 16 17 18 19 20 21 | 21_stack_?
1 2 3 4 5 6 7 8 9 10 11 12 13 14 15 16 17 18 19 20  | _ok
. NOPE                                              | 20_NOPE_?
DEPTH .                                             | 0__ok
: abcdefghijklmnopqrstuvwxyzabcde 1 ;               | _ok
ABCDEFGHIJKLMNOPQRSTUVWXYZABCDE .                   | 1__ok
: abcdefghijklmnopqrstuvwxyzabcdef 1 ;              | abcdefghijklmnopqrstuvwxyzabcdef_?
: sq2 dup * ; 3 SQ2 .                               | 9__ok
: dup2 DUP + ;                                      | _ok
4 DUP2 .                                            | 8__ok
: A 65 EMIT ; : A A 66 EMIT ; A                     | AB_ok
: DUP 9 ; DUP .                                     | 9__ok
GO                                                  | GO_?
MAIN                                                | MAIN_?
K-FIND                                              | K-FIND_?
NIP                                                 | NIP_?
\ 1                                                 | \_?
: LATER 1                                           | _ok
2 +                                                 | _ok
; LATER .                                           | 3__ok
: LATER 4                                           | _ok
NOPE                                                | NOPE_?
LATER .                                             | 3__ok
1^092_+ .^0D                                        | 3__ok
7______________________________________________________________________________. | 7__ok
7_______________________________________________________________________________. | line_too_long_?
DEPTH .                                             | 0__ok
1_1_1_1_1_1_1_1_1_1_1_1_1_1_1_1_1_1_1_1_1_1_1_1_1_1_1_1_1_1_1_1_1_1_1_1_1_1_1_1_1_1_1_1_1_1_1_1_1_1_1_1_1_1_1_1_1_1_1_1_1_1_1_1_1_1_1_1_1_1_1_1_1_1_1_1_1_1_1_1_1_1_1_1_1_1_1_1_1_1_1_1_1_1_1_1_1_1_1_1_. | line_too_long_?
8 : LONG 7 ; LONG______________________________________________________________________ | line_too_long_?
LONG                                                | LONG_?
DEPTH .                                             | 0__ok
"#;

// Sessions that end otherwise than with their input, and those without a whole line: fields as in `rows`.
const ENDS: &str = r#"
forth            | |                       |            |
forth            | | 1_.                   |            |
forth            | | : SQ DUP * ;~7 SQ .~XYZZY~ | _ok~49__ok~XYZZY_?~ |
forth            | | 7_.~65_EMIT_1_0_/_66_EMIT~ | 7__ok~A | 9 halted 10
forth            | | 65_EMIT_0_@~8_.~      | A          | 8 outside 0
forth            | | 3_16388_!~            |            | 9 halted 3
forth            | | 0_16388_!~8_.~        |            |
forth --steps 1  | |                       |            | 6 steps used
forth --steps 900 | | 1_.~                 |            | 6 steps used
"#;

// Appends a line, in the notation of bytes.
fn append_line(text: &mut String, line: &str) -> Result<(), AllocError> {
    text.push_str(line)?;
    text.push('~')
}

// Types all lines of a table in one session, and looks at all replies.
fn replies_as(alloc: Global, table: &str) -> Result<(), Fail> {
    let mut typed = String::new(alloc);
    let mut replies = String::new(alloc);
    for line in table.trim_matches('\n').lines() {
        let mut rest = line;
        append_line(&mut typed, field(&mut rest))?;
        append_line(&mut replies, rest.trim_ascii())?;
    }
    let row = Row {
        words: "forth",
        source: "",
        console: typed.as_str(),
        out: replies.as_str(),
        answer: "",
        files: "",
        after: "",
    };
    run_row(alloc, &row, NEVER)
}

#[test]
fn replies_with_words(rt: HostRuntime) -> Result<(), Fail> {
    replies_as(rt.alloc(), WORDS)
}

#[test]
fn replies_to_refused_lines(rt: HostRuntime) -> Result<(), Fail> {
    replies_as(rt.alloc(), REFUSALS)
}

#[test]
fn sessions_end(rt: HostRuntime) -> Result<(), Fail> {
    run_calls(rt.alloc(), ENDS)
}
