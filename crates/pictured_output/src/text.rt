// The text.
ghost use Rattle.std.specs.Prelude.{◌≡◌};

/// The definitions of the words of pictured output, of those that print, move and take bytes, and of `>NUMBER`. That of a word has the
/// name `~` and the word's: so a body that uses a word finds the word, and no definition. The entry MAIN is empty.
pub const PICTURED_TEXT: &str = "\
: ~<# BASE 96 + BASE CELL+ ! ;
: ~HOLD
  BASE CELL+ @ 1-
  DUP BASE 16 + - 80 U< 0= IF 12 16388 ! THEN
  DUP BASE CELL+ ! C! ;
: ~SIGN 0< IF 45 HOLD THEN ;
: ~#
  BASE @ DUP 2 - 35 U< 0= IF 11 16388 ! THEN
  >R 0 R@ UM/MOD
  R> SWAP >R UM/MOD
  SWAP DUP 9 > IF 7 + THEN 48 + HOLD
  R> ;
: ~#S BEGIN # 2DUP OR 0= UNTIL ;
: ~#> 2DROP BASE CELL+ @ BASE 96 + OVER - ;
: ~TYPE BEGIN DUP WHILE SWAP COUNT EMIT SWAP 1- REPEAT 2DROP ;
: ~.
  DUP ABS 0 <# BEGIN # 2DUP OR 0= UNTIL
  ROT SIGN #> TYPE SPACE ;
: ~U. 0 <# BEGIN # 2DUP OR 0= UNTIL #> TYPE SPACE ;
: ~SPACES BEGIN DUP 0 > WHILE SPACE 1- REPEAT DROP ;
: ~FILL
  >R BEGIN DUP WHILE
    SWAP R@ OVER C! CHAR+ SWAP 1-
  REPEAT 2DROP R> DROP ;
: ~MOVE
  >R 2DUP U< R> SWAP
  IF
    BEGIN DUP WHILE
      1- >R OVER R@ + C@ OVER R@ + C! R>
    REPEAT
  ELSE
    BEGIN DUP WHILE
      >R OVER C@ OVER C! CHAR+ SWAP CHAR+ SWAP R> 1-
    REPEAT
  THEN 2DROP DROP ;
: ~ACCEPT
  OVER >R BEGIN DUP WHILE
    KEY DUP 10 =
    IF 2DROP 0
    ELSE ROT SWAP OVER C! CHAR+ SWAP 1-
    THEN
  REPEAT DROP R> - ;
: ~>NUMBER
  BEGIN
    DUP IF
      OVER C@
      DUP 48 - 10 U< IF 48 - ELSE
      DUP 65 - 26 U< IF 55 - ELSE
      DUP 97 - 26 U< IF 87 - ELSE
      DROP 65535 THEN THEN THEN
      DUP BASE @ U<
    ELSE 0 0 THEN
  WHILE
    SWAP >R SWAP >R >R
    BASE @ * SWAP BASE @ UM* ROT +
    SWAP R@ + DUP R> U< ROT SWAP -
    R> R> SWAP CHAR+ SWAP 1-
  REPEAT DROP ;
: MAIN ;
";

/// The Forth text of pictured output and of the words on bytes.
pub fn pictured_text() -> &'static str
    ensures { result.now ≡ PICTURED_TEXT.now }
{
    PICTURED_TEXT
}
