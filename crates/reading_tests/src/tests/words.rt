// The table of words, written down by hand from its rules, against the crate's.
use std::alloc::{AllocError, Global};
use std::test::Fail;
use test_notation::{cells_in, field};
use word_table::{Class, Vocabulary, Word, WordEntry, entry, plain_cells, word_in, word_of};

// The lines of `docs/WORDS.md`: name, class, stack, need, exit, peak, back, price, weight, cells in hexadecimal, meaning.
const TABLE: &str = r#"
| `DUP` | inline | x -- x x | 1 | 1 | 1 | 0 | 1 | 1 | 6081 | copies the top cell |
| `DROP` | inline | x -- | 1 | -1 | 0 | 0 | 1 | 1 | 6103 | takes the top cell away |
| `SWAP` | inline | x y -- y x | 2 | 0 | 0 | 0 | 1 | 1 | 6180 | exchanges the two top cells |
| `OVER` | inline | x y -- x y x | 2 | 1 | 1 | 0 | 1 | 1 | 6181 | copies the second cell to the top |
| `ROT` | inline | x y z -- y z x | 3 | 0 | 0 | 1 | 4 | 4 | 6147 6180 6B8D 6180 | moves the third cell to the top |
| `2DUP` | inline | x y -- x y x y | 2 | 2 | 2 | 0 | 2 | 2 | 6181 6181 | copies the two top cells |
| `2DROP` | inline | x y -- | 2 | -2 | 0 | 0 | 2 | 2 | 6103 6103 | takes the two top cells away |
| `NIP` | inline | x y -- y | 2 | -1 | 0 | 0 | 1 | 1 | 6003 | takes the second cell away |
| `TUCK` | inline | x y -- y x y | 2 | 1 | 1 | 0 | 2 | 2 | 6180 6181 | copies the top cell below the second |
| `+` | inline | x y -- z | 2 | -1 | 0 | 0 | 1 | 1 | 6203 | the sum |
| `-` | inline | x y -- z | 2 | -1 | 0 | 0 | 4 | 4 | 6600 6203 8001 6203 | x less y |
| `NEGATE` | inline | n -- -n | 1 | 0 | 1 | 0 | 3 | 3 | 6600 8001 6203 | 0 less n |
| `1+` | inline | x -- y | 1 | 0 | 1 | 0 | 2 | 2 | 8001 6203 | one more |
| `1-` | inline | x -- y | 1 | 0 | 0 | 0 | 1 | 1 | 6A00 | one less |
| `2*` | inline | x -- y | 1 | 0 | 1 | 0 | 2 | 2 | 8001 6D03 | twice x |
| `AND` | inline | x y -- z | 2 | -1 | 0 | 0 | 1 | 1 | 6303 | the bits that both have |
| `OR` | inline | x y -- z | 2 | -1 | 0 | 0 | 1 | 1 | 6403 | the bits that one of them has |
| `XOR` | inline | x y -- z | 2 | -1 | 0 | 0 | 1 | 1 | 6503 | the bits in which they differ |
| `INVERT` | inline | x -- y | 1 | 0 | 0 | 0 | 1 | 1 | 6600 | every bit turned |
| `LSHIFT` | inline | x u -- y | 2 | -1 | 0 | 0 | 1 | 1 | 6D03 | shifts left by the low four bits of u |
| `RSHIFT` | inline | x u -- y | 2 | -1 | 0 | 0 | 1 | 1 | 6903 | shifts right by the low four bits of u, zeros in |
| `=` | inline | x y -- flag | 2 | -1 | 0 | 0 | 1 | 1 | 6703 | whether they are equal |
| `<>` | inline | x y -- flag | 2 | -1 | 0 | 0 | 2 | 2 | 6703 6600 | whether they differ |
| `<` | inline | n m -- flag | 2 | -1 | 0 | 0 | 1 | 1 | 6803 | whether n is less than m, signed |
| `>` | inline | n m -- flag | 2 | -1 | 0 | 0 | 2 | 2 | 6180 6803 | whether n is greater than m, signed |
| `U<` | inline | u v -- flag | 2 | -1 | 0 | 0 | 1 | 1 | 6F03 | whether u is less than v, unsigned |
| `0=` | inline | x -- flag | 1 | 0 | 1 | 0 | 2 | 2 | 8000 6703 | whether x is 0 |
| `0<` | inline | n -- flag | 1 | 0 | 1 | 0 | 2 | 2 | 8000 6803 | whether n is negative |
| `0>` | inline | n -- flag | 1 | 0 | 1 | 0 | 3 | 3 | 8000 6180 6803 | whether n is greater than 0, signed |
| `WITHIN` | inline | u a b -- flag | 3 | -2 | 1 | 1 | 12 | 12 | 6181 6600 6203 8001 6203 6147 6600 6203 8001 6203 6B8D 6F03 | whether u is one of the numbers from a up to, and without, b, counted round past 65535 |
| `S>D` | inline | n -- d | 1 | 1 | 2 | 0 | 3 | 3 | 6081 8000 6803 | widens a signed cell to a double cell |
| `CELLS` | inline | n -- m | 1 | 0 | 1 | 0 | 2 | 2 | 8001 6D03 | the bytes of n cells: twice n |
| `CELL+` | inline | a -- b | 1 | 0 | 1 | 0 | 2 | 2 | 8002 6203 | the address one cell on: a + 2 |
| `CHARS` | inline | n -- n | 1 | 0 | 0 | 0 | 0 | 0 | | the bytes of n characters: n |
| `CHAR+` | inline | a -- b | 1 | 0 | 1 | 0 | 2 | 2 | 8001 6203 | the address one byte on: a + 1 |
| `ALIGNED` | inline | a -- b | 1 | 0 | 1 | 0 | 5 | 5 | 8001 6203 8001 6600 6303 | the first even address from a on |
| `@` | inline | a -- x | 1 | 0 | 0 | 0 | 1 | 1 | 6C00 | fetches the cell at a |
| `!` | inline | x a -- | 2 | -2 | 0 | 0 | 2 | 2 | 6023 6103 | stores x at a |
| `EMIT` | inline | c -- | 1 | -1 | 1 | 0 | 3 | 3 | C000 6023 6103 | prints the low byte of c |
| `KEY` | inline | -- c | 0 | 1 | 1 | 0 | 2 | 2 | C002 6C00 | takes a byte of the input |
| `BL` | inline | -- c | 0 | 1 | 1 | 0 | 1 | 1 | 8020 | the space character, 32 |
| `CR` | inline | -- | 0 | 0 | 2 | 0 | 4 | 4 | 800A C000 6023 6103 | prints a line feed, byte 10 |
| `SPACE` | inline | -- | 0 | 0 | 2 | 0 | 4 | 4 | 8020 C000 6023 6103 | prints a space, byte 32 |
| `BASE` | inline | -- a | 0 | 1 | 1 | 0 | 1 | 1 | A000 | the address of the number base, where data space begins |
| `HERE` | inline | -- a | 0 | 1 | 1 | 0 | 2 | 2 | A004 6C00 | the next free address of data space: the cell 4 bytes after the number base |
| `DECIMAL` | inline | -- | 0 | 0 | 2 | 0 | 4 | 4 | 800A A000 6023 6103 | makes the number base ten |
| `HEX` | inline | -- | 0 | 0 | 2 | 0 | 4 | 4 | 8010 A000 6023 6103 | makes the number base sixteen |
| `DEPTH` | inline | -- u | 0 | 1 | 2 | 0 | 3 | 3 | 6E81 801F 6303 | the number of data cells before it |
| `ABORT` | inline | -- | 0 | - | 2 | 0 | 3 | 3 | 8001 C004 6023 | ends the run as Halted(1) |
| `QUIT` | inline | -- | 0 | - | 2 | 0 | 3 | 3 | 8003 C004 6023 | ends the run as Halted(3) |
| `;` | structure | -- | 0 | 0 | 0 | 0 | 1 | 1 | | ends a definition, which returns there |
| `(` | structure | -- | 0 | 0 | 0 | 0 | 0 | 0 | | a comment up to the next `)` |
| `\` | structure | -- | 0 | 0 | 0 | 0 | 0 | 0 | | a comment up to the end of the line |
| `>R` | structure | x -- | 1 | -1 | 0 | 0 | 1 | 1 | 6147 | moves a cell to the return stack |
| `R>` | structure | -- x | 0 | 1 | 1 | 0 | 1 | 1 | 6B8D | moves a cell back from the return stack |
| `R@` | structure | -- x | 0 | 1 | 1 | 0 | 1 | 1 | 6B81 | copies the top cell of the return stack |
| `I` | structure | -- n | 0 | 1 | 3 | 0 | 5 | 5 | 6B8D 6B81 6181 6147 6203 | the index of the loop |
| `J` | structure | -- n | 0 | 1 | 5 | 0 | 12 | 12 | 6B8D 6B8D 6B8D 6B81 6181 6203 6180 6147 6180 6147 6180 6147 | the index of the next outer loop |
| `UNLOOP` | structure | -- | 0 | 0 | 1 | 0 | 4 | 4 | 6B8D 6103 6B8D 6103 | takes the innermost loop's two return cells away |
| `S"` | structure | -- a u | 0 | 2 | 2 | 0 | 2 | 2 | | the address and length of the text up to the next `"` |
| `."` | structure | -- | 0 | 0 | 10 | 7 | 42 + 80 | 3 | | prints the text up to the next `"`; counts bytes |
| `ABORT"` | structure | flag -- | 1 | -1 | 11 | 8 | 40 + 80 | 3 | | where the flag is true, prints the text and ends the run as Halted(2); counts bytes, none at a false flag |
| `IF` | structure | flag -- | 1 | -1 | 0 | 0 | 1 | 1 | | goes on where the flag is true, else behind `ELSE` or `THEN` |
| `WHILE` | structure | flag -- | 1 | -1 | 0 | 0 | 1 | 1 | | goes on where the flag is true, else behind `REPEAT` |
| `UNTIL` | structure | flag -- | 1 | -1 | 0 | 0 | 1 | 1 | | goes back to `BEGIN` where the flag is false |
| `ELSE` | structure | -- | 0 | 0 | 0 | 0 | 1 | 1 | | ends the true branch of an `IF` and begins the false one |
| `REPEAT` | structure | -- | 0 | 0 | 0 | 0 | 1 | 1 | | goes back to `BEGIN` |
| `THEN` | structure | -- | 0 | 0 | 0 | 0 | 0 | 0 | | ends an `IF` |
| `BEGIN` | structure | -- | 0 | 0 | 0 | 0 | 0 | 0 | | begins a loop that `UNTIL`, `REPEAT` or `AGAIN` ends |
| `DO` | structure | limit first -- | 2 | -2 | 1 | 0 | 8 | 8 | | begins a loop from the first index toward the limit |
| `LOOP` | structure | -- | 0 | 0 | 2 | 0 | 12 | 12 | | adds 1 to the index and goes on unless it then is the limit |
| `+LOOP` | structure | n -- | 1 | -1 | 4 | 0 | 24 | 24 | | adds n to the index and goes on unless it crosses the line between limit - 1 and limit |
| `?DO` | structure | limit start -- | 2 | -2 | 2 | 0 | 12 | 15 | | begins a loop where the two differ, else goes on behind it |
| `AGAIN` | structure | -- | 0 | 0 | 0 | 0 | 1 | 1 | | goes back to `BEGIN` |
| `CASE` | structure | -- | 0 | 0 | 0 | 0 | 0 | 0 | | begins a case |
| `OF` | structure | x y -- x? | 2 | 0 | 1 | 0 | 4 | 4 | | takes y, and x too where they are equal: then the body of the arm follows, else what stands behind its `ENDOF` |
| `ENDOF` | structure | -- | 0 | 0 | 0 | 0 | 1 | 1 | | ends the body of an arm, and goes on behind `ENDCASE` |
| `ENDCASE` | structure | x -- | 1 | -1 | 0 | 0 | 1 | 1 | | ends a case |
| `LEAVE` | structure | -- | 0 | 0 | 1 | 0 | 5 | 5 | | leaves the innermost `DO` at once |
| `EXIT` | structure | -- | 0 | 0 | 0 | 0 | 1 | 1 | | returns from the definition |
| `RECURSE` | structure | -- | 0 | 0 | 0 | 0 | 1 | 1 | | calls the definition that it stands in |
| `[']` | structure | -- t | 0 | 1 | 1 | 0 | 2 | 2 | | the token of the word that follows |
| `[CHAR]` | structure | -- c | 0 | 1 | 1 | 0 | 2 | 2 | | the first character of the name that follows |
| `LITERAL` | structure | -- x | 0 | 1 | 1 | 0 | 2 | 2 | | the cell that was on top of the host stack |
| `[` | structure | -- | 0 | 0 | 0 | 0 | 0 | 0 | | begins host words inside a definition |
| `]` | structure | -- | 0 | 0 | 0 | 0 | 0 | 0 | | ends them |
| `?DUP` | library | x -- 0 or x x | 1 | 0 to 1 | 2 | 2 | 12 | 1 | | copies the top cell unless it is 0 |
| `2SWAP` | library | x y z w -- z w x y | 4 | 0 | 2 | 4 | 24 | 1 | | exchanges the two top pairs |
| `2OVER` | library | x y z w -- x y z w x y | 4 | 2 | 4 | 6 | 48 | 1 | | copies the second pair to the top |
| `ABS` | library | n -- u | 1 | 0 | 3 | 2 | 20 | 1 | | the absolute value; -32768 gives 32768 |
| `MAX` | library | n m -- k | 2 | -1 | 3 | 2 | 20 | 1 | | the greater, signed |
| `MIN` | library | n m -- k | 2 | -1 | 3 | 2 | 20 | 1 | | the lesser, signed |
| `2/` | library | n -- m | 1 | 0 | 3 | 2 | 24 | 1 | | half, rounded down, signed |
| `C@` | library | a -- c | 1 | 0 | 4 | 2 | 24 | 1 | | fetches the byte at a; the odd byte of a cell is the high one |
| `C!` | library | c a -- | 2 | -2 | 5 | 4 | 48 | 1 | | stores the low byte of c at a |
| `+!` | library | n a -- | 2 | -2 | 3 | 3 | 24 | 1 | | adds n to the cell at a |
| `2@` | library | a -- x y | 1 | 1 | 3 | 2 | 16 | 1 | | fetches a pair: y at a, x at the next cell |
| `2!` | library | x y a -- | 3 | -3 | 3 | 2 | 20 | 1 | | stores a pair: y at a, x at the next cell |
| `COUNT` | library | a -- b c | 1 | 1 | 6 | 4 | 40 | 1 | | a counted text: the address of its first byte and its length |
| `,` | library | x -- | 1 | -1 | 5 | 5 | 48 | 1 | | appends a cell to data space |
| `C,` | library | c -- | 1 | -1 | 7 | 6 | 96 | 1 | | appends a byte to data space |
| `ALLOT` | library | n -- | 1 | -1 | 5 | 5 | 40 | 1 | | moves HERE by n bytes |
| `ALIGN` | library | -- | 0 | 0 | 5 | 4 | 32 | 1 | | makes HERE even |
| `UM*` | library | u v -- ud | 2 | 0 | 6 | 5 | 1100 | 1 | | the double product, unsigned |
| `M*` | library | n m -- d | 2 | 0 | 8 | 7 | 1400 | 1 | | the double product, signed |
| `*` | library | x y -- z | 2 | -1 | 8 | 6 | 1200 | 1 | | the low cell of the product |
| `UM/MOD` | library | ud u -- r q | 3 | -1 | 6 | 5 | 2400 | 1 | | remainder and quotient, unsigned |
| `SM/REM` | library | d n -- r q | 3 | -1 | 8 | 7 | 3000 | 1 | | remainder and quotient, rounded toward 0 |
| `FM/MOD` | library | d n -- r q | 3 | -1 | 10 | 8 | 3200 | 1 | | remainder and quotient, rounded down |
| `/MOD` | library | n m -- r q | 2 | 0 | 12 | 10 | 3600 | 1 | | remainder and quotient, rounded down |
| `/` | library | n m -- q | 2 | -1 | 12 | 11 | 3700 | 1 | | the quotient, rounded down |
| `MOD` | library | n m -- r | 2 | -1 | 12 | 11 | 3700 | 1 | | the remainder of the quotient that is rounded down |
| `*/MOD` | library | n m k -- r q | 3 | -1 | 12 | 11 | 5200 | 1 | | remainder and quotient of the double product n * m by k, rounded down |
| `*/` | library | n m k -- q | 3 | -2 | 12 | 12 | 5300 | 1 | | that quotient |
| `<#` | library | -- | 0 | 0 | 3 | 2 | 20 | 1 | | begins a number's text |
| `HOLD` | library | c -- | 1 | -1 | 8 | 6 | 140 | 1 | | puts a character before the text |
| `SIGN` | library | n -- | 1 | -1 | 9 | 7 | 180 | 1 | | puts a minus before the text where n is negative |
| `#` | library | ud -- ud | 2 | 0 | 10 | 9 | 6000 | 1 | | puts the next digit before the text |
| `#S` | library | ud -- 0 0 | 2 | 0 | 11 | 10 | 200000 | 1 | | puts all digits that are left before the text, at least one |
| `#>` | library | ud -- a u | 2 | 0 | 3 | 2 | 20 | 1 | | ends the text: its address and length |
| `.` | library | n -- | 1 | -1 | 14 | 12 | 120000 | 1 | | prints n, signed, and a space |
| `U.` | library | u -- | 1 | -1 | 14 | 12 | 120000 | 1 | | prints u, unsigned, and a space |
| `TYPE` | library | a u -- | 2 | -2 | 8 | 6 | 40 + 80 | 1 | | prints u bytes from a on; counts bytes |
| `SPACES` | library | n -- | 1 | -1 | 5 | 4 | 40 + 40 | 1 | | prints n spaces, none where n is not positive; counts spaces |
| `FILL` | library | a u c -- | 3 | -3 | 8 | 8 | 40 + 120 | 1 | | stores c in each of u bytes from a on; counts bytes |
| `MOVE` | library | a b u -- | 3 | -3 | 10 | 8 | 80 + 160 | 1 | | copies u bytes from a to b, also where they overlap; counts bytes |
| `ACCEPT` | library | a u -- v | 2 | -1 | 8 | 8 | 100 + 120 | 1 | | takes a line of at most u bytes to a and gives its length; counts bytes taken |
| `>NUMBER` | library | ud a u -- ud b v | 4 | 0 | 12 | 10 | 100 + 3200 | 1 | | adds digits to a double number until another byte comes; counts bytes fetched |
| `EXECUTE` | library | t -- | 1 | - | 4 | 3 | 30 | 1 | | does the word of the token t; the exit is that of the word |
| `GO` | library | a -- | 1 | -1 | 24 | 18 | 3 | 1 | | in a kernel alone: calls the code at the byte address a, and goes on where it comes back |
| `:` | host | -- | 0 | 0 | 0 | 0 | 0 | 0 | | begins a definition of the name that follows |
| `'` | host | -- t | 0 | 0 | 0 | 0 | 0 | 0 | | the token of the word that follows |
| `CHAR` | host | -- c | 0 | 0 | 0 | 0 | 0 | 0 | | the first character of the name that follows |
| `CONSTANT` | host | x -- | 0 | 0 | 0 | 0 | 0 | 0 | | names x |
| `VARIABLE` | host | -- | 0 | 0 | 0 | 0 | 0 | 0 | | names a new cell of data space |
| `CREATE` | host | -- | 0 | 0 | 0 | 0 | 0 | 0 | | names the next free address |
| `DOES>` | host | -- | 0 | 0 | 0 | 0 | 0 | 0 | | begins what the words of a defining word do |
| `>BODY` | host | t -- a | 0 | 0 | 0 | 0 | 0 | 0 | | the data address of a word that `CREATE` made |
| `CODE-CELLS` | host | n -- | 0 | 0 | 0 | 0 | 0 | 0 | | leaves n cells for code: data space begins at byte address 2n |
"#;

// The Core word set of ANS Forth.
const CORE: &str = r#"
! # #> #S ' ( * */ */MOD + +! +LOOP , - . ." / /MOD 0< 0= 1+ 1- 2! 2* 2/ 2@ 2DROP 2DUP 2OVER 2SWAP : ; < <# = > >BODY
>IN >NUMBER >R ?DUP @ ABORT ABORT" ABS ACCEPT ALIGN ALIGNED ALLOT AND BASE BEGIN BL C! C, C@ CELL+ CELLS CHAR CHAR+
CHARS CONSTANT COUNT CR CREATE DECIMAL DEPTH DO DOES> DROP DUP ELSE EMIT ENVIRONMENT? EVALUATE EXECUTE EXIT FILL FIND
FM/MOD HERE HOLD I IF IMMEDIATE INVERT J KEY LEAVE LITERAL LOOP LSHIFT M* MAX MIN MOD MOVE NEGATE OR OVER POSTPONE QUIT
R> R@ RECURSE REPEAT ROT RSHIFT S" S>D SIGN SM/REM SOURCE SPACE SPACES STATE SWAP THEN TYPE U. U< UM* UM/MOD UNLOOP
UNTIL VARIABLE WHILE WORD XOR [ ['] [CHAR] ]
"#;

fn class_name(class: Class) -> &'static str {
    match class {
        Class::Inline => "inline",
        Class::Library => "library",
        Class::Structure => "structure",
        Class::Host => "host",
    }
}

fn is_number(field: &str, number: u32) -> bool {
    match field.parse::<u32>() {
        Ok(told) => told == number,
        Err(_) => false,
    }
}

fn is_change(field: &str, change: i8) -> bool {
    match field.parse::<i8>() {
        Ok(told) => told == change,
        Err(_) => false,
    }
}

// A change that is one number or goes from one to another; `-` stands for none.
fn is_exit(field: &str, exit: Option<(i8, i8)>) -> bool {
    match exit {
        Some((low, high)) => {
            let (from, to) = field.split_once(" to ").unwrap_or((field, field));
            is_change(from, low) && is_change(to, high)
        }
        None => field == "-",
    }
}

// A price that is one number, or a number and that for each of what the word counts.
fn is_price(field: &str, base: u32, per: u32) -> bool {
    let (first, second) = field.split_once(" + ").unwrap_or((field, "0"));
    is_number(first, base) && is_number(second, per)
}

// Whether need, exit, peak, back, price and weight are those that a line goes on with.
fn is_entry(rest: &mut &str, entry: &WordEntry) -> bool {
    let is_need = is_number(field(rest), u32::from(entry.need));
    let has_exit = is_exit(field(rest), entry.exit);
    let is_peak = is_number(field(rest), u32::from(entry.peak));
    let is_back = is_number(field(rest), u32::from(entry.back));
    let has_price = is_price(field(rest), entry.base, entry.per);
    let is_weight = is_number(field(rest), u32::from(entry.weight));
    is_need & has_exit & is_peak & is_back & has_price & is_weight
}

// The cells on one side of a stack effect: a double is two.
fn cells_named(side: &str) -> i8 {
    let mut cells: i8 = 0;
    for name in side.split_whitespace() {
        let width = if name == "d" || name == "ud" { 2 } else { 1 };
        cells = cells.wrapping_add(width);
    }
    cells
}

// Whether need and exit are what a stack effect shows. Of a choice, with `?`, and of an end it shows none, and it is the host's where the
// class is.
fn shows(stack: &str, entry: &WordEntry) -> bool {
    let (before, after) = stack.split_once("--").unwrap_or(("", ""));
    let takes = cells_named(before);
    let change = cells_named(after).wrapping_sub(takes);
    let is_shown = match entry.exit {
        Some((low, high)) => low != high || low == change || after.ends_with('?'),
        None => true,
    };
    entry.class == Class::Host || (i16::from(entry.need) == i16::from(takes) && is_shown)
}

// Whether the word table has what a line says of a word.
fn agrees(alloc: Global, line: &str, word: Word) -> Result<bool, Fail> {
    let mut rest = line;
    let entry = entry(word);
    let is_class = *field(&mut rest) == *class_name(entry.class);
    let is_shown = shows(field(&mut rest), &entry);
    let has_entry = is_entry(&mut rest, &entry);
    let cells = cells_in(alloc, field(&mut rest), 16)?;
    Ok(is_class && is_shown && has_entry && *plain_cells(word) == *cells.as_slice())
}

// Compares a line, and adds its word to the others.
fn agree_row(alloc: Global, line: &str, words: &mut Vec<Word>) -> Result<(), Fail> {
    let mut rest = line;
    let _begin = field(&mut rest);
    let name = field(&mut rest).trim_matches('`');
    let word = word_in(Vocabulary::Kernel, name).ok_or(line)?;
    if words.as_slice().contains(&word) || !agrees(alloc, rest, word)? {
        Err(line)?;
    }
    words.push(word)?;
    Ok(())
}

#[test]
fn agrees_with_the_tables(rt: HostRuntime) -> Result<(), Fail> {
    let mut words = Vec::new(rt.alloc());
    for line in TABLE.trim_ascii().lines() {
        agree_row(rt.alloc(), line, &mut words)?;
    }
    assert_eq!(rt; words.len(), 139);
    Ok(())
}

// Those of the names that are no words of a source, each with a blank behind it.
fn other_names(alloc: Global, names: &str) -> Result<String, AllocError> {
    let mut others = String::new(alloc);
    for name in names.split_whitespace() {
        if word_of(name).is_none() {
            others.push_str(name)?;
            others.push(' ')?;
        }
    }
    Ok(others)
}

// Nine words of the set are none of a source.
#[test]
fn names_the_core_words(rt: HostRuntime) -> Result<(), Fail> {
    let others = other_names(rt.alloc(), CORE)?;
    let wanted = ">IN ENVIRONMENT? EVALUATE FIND IMMEDIATE POSTPONE SOURCE STATE WORD ";
    assert_eq!(rt; others.as_str(), wanted);
    Ok(())
}

#[test]
fn names_no_other_words(rt: HostRuntime) -> Result<(), Fail> {
    let others = other_names(rt.alloc(), "PICK ROLL MAIN DUP2 GO")?;
    assert_eq!(rt; others.as_str(), "PICK ROLL MAIN DUP2 GO ");
    Ok(())
}
