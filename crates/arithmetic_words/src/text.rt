// The text.
ghost use Rattle.std.specs.Prelude.{◌≡◌};

/// The definitions of the arithmetic words, and of those that copy cells and bytes. That of a word has the name `~` and the word's: so
/// a body that uses a word finds the word, and no definition. The entry MAIN is empty.
pub const ARITHMETIC_TEXT: &str = "\
: ~?DUP DUP IF DUP THEN ;
: ~2SWAP ROT >R ROT R> ;
: ~2OVER >R >R 2DUP R> R> 2SWAP ;
: ~ABS DUP 0< IF NEGATE THEN ;
: ~MAX 2DUP < IF SWAP THEN DROP ;
: ~MIN 2DUP > IF SWAP THEN DROP ;
: ~2/ DUP 32768 AND SWAP 1 RSHIFT + ;
: ~C@ DUP @ SWAP 1 AND IF 8 RSHIFT ELSE 255 AND THEN ;
: ~C!
  DUP >R @
  R@ 1 AND IF 255 AND SWAP 8 LSHIFT ELSE 65280 AND SWAP 255 AND THEN
  + R> ! ;
: ~+! DUP @ ROT + SWAP ! ;
: ~2@ DUP CELL+ @ SWAP @ ;
: ~2! SWAP OVER ! CELL+ ! ;
: ~COUNT DUP CHAR+ SWAP C@ ;
: ~, HERE ! 2 BASE 4 + +! ;
: ~C, HERE C! 1 BASE 4 + +! ;
: ~ALLOT BASE 4 + +! ;
: ~ALIGN HERE ALIGNED BASE 4 + ! ;
: ~UM*
  0 SWAP
  16 0 DO
    >R
    OVER 1 AND IF R@ ELSE 0 THEN
    OVER + DUP ROT U<
    15 LSHIFT OVER 1 RSHIFT +
    SWAP 15 LSHIFT ROT 1 RSHIFT + SWAP
    R>
  LOOP
  DROP ;
: ~M*
  2DUP 0< AND >R
  2DUP SWAP 0< AND R> + >R
  UM* R> - ;
: ~* UM* DROP ;
: ~UM/MOD
  2DUP U< 0= IF 10 16388 ! THEN
  16 0 DO
    >R
    OVER 15 RSHIFT OVER +
    OVER R@ SWAP -
    2DUP U<
    IF DROP + SWAP 2* ELSE - SWAP DROP SWAP 2* 1+ THEN
    SWAP R>
  LOOP
  DROP SWAP ;
: ~SM/REM
  DUP >R ROT ROT R>
  OVER >R ABS >R
  DUP 0< IF INVERT OVER 0= - SWAP NEGATE SWAP THEN
  R> UM/MOD
  SWAP R@ 0< IF NEGATE THEN SWAP
  ROT R> XOR 0<
  IF 32768 OVER U< IF 10 16388 ! THEN NEGATE
  ELSE 32767 OVER U< IF 10 16388 ! THEN
  THEN ;
: ~FM/MOD
  DUP >R ROT ROT R> SM/REM
  ROT ROT 2DUP XOR 0< OVER AND
  IF + SWAP DUP 32768 = IF 10 16388 ! THEN 1-
  ELSE SWAP DROP SWAP
  THEN ;
: ~/MOD >R S>D R> FM/MOD ;
: ~/ /MOD SWAP DROP ;
: ~MOD /MOD DROP ;
: ~*/MOD >R M* R> FM/MOD ;
: ~*/ */MOD SWAP DROP ;
: MAIN ;
";

/// The Forth text of the arithmetic words.
pub fn arithmetic_text() -> &'static str
    ensures { result.now ≡ ARITHMETIC_TEXT.now }
{
    ARITHMETIC_TEXT
}
