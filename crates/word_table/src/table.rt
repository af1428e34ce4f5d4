// The table, a line for each word.
ghost use Rattle.std.specs.Prelude.{◌≡◌, ◌≤◌, length, IsTrue};
ghost use Rattle.word_table.specs.Table.{row as row_of, entry_of, cells_of};
ghost use Rattle.word_table.specs.Line.{row_of_line, is_in_range, IsLineOf};

use crate::row::{Row, host, inline, library, never, on_returns, structure};
use crate::word::{Word, WordEntry};

// The longest cells: of `WITHIN`, `ALIGNED` and `J`.
const WITHIN: [u16; 12] = [
    0x6181, 0x6600, 0x6203, 0x8001, 0x6203, 0x6147, 0x6600, 0x6203, 0x8001, 0x6203, 0x6B8D, 0x6F03,
];

const ALIGNED: [u16; 5] = [0x8001, 0x6203, 0x8001, 0x6600, 0x6303];

const OUTER_INDEX: [u16; 12] = [
    0x6B8D, 0x6B8D, 0x6B8D, 0x6B81, 0x6181, 0x6203, 0x6180, 0x6147, 0x6180, 0x6147, 0x6180, 0x6147,
];

/// A line of the table: a name, and what a row of its kind is made of.
#[derive(Clone, Copy)]
enum Line {
    /// Taken, left, peak, back and cells.
    Inline(&'static str, u8, u8, u8, u8, &'static [u16]),
    /// Taken, peak, back and cells.
    Never(&'static str, u8, u8, u8, &'static [u16]),
    /// Taken, left, peak, back and cells.
    OnReturns(&'static str, u8, u8, u8, u8, &'static [u16]),
    /// Need, change, peak, back, price, and price for each of the count.
    Library(&'static str, u8, Option<(i8, i8)>, u8, u8, u32, u32),
    /// Taken, left, peak, back, price, price for each of the count, and weight.
    Structure(&'static str, u8, u8, u8, u8, u32, u32, u16),
    Host(&'static str),
}

// A line for each word, in the order of `Word`.
static LINES: [Line; 139] = [
    // inline words: taken, left, peak, back, cells
    Line::Inline("DUP", 1, 2, 1, 0, &[0x6081]),
    Line::Inline("DROP", 1, 0, 0, 0, &[0x6103]),
    Line::Inline("SWAP", 2, 2, 0, 0, &[0x6180]),
    Line::Inline("OVER", 2, 3, 1, 0, &[0x6181]),
    Line::Inline("ROT", 3, 3, 0, 1, &[0x6147, 0x6180, 0x6B8D, 0x6180]),
    Line::Inline("2DUP", 2, 4, 2, 0, &[0x6181, 0x6181]),
    Line::Inline("2DROP", 2, 0, 0, 0, &[0x6103, 0x6103]),
    Line::Inline("NIP", 2, 1, 0, 0, &[0x6003]),
    Line::Inline("TUCK", 2, 3, 1, 0, &[0x6180, 0x6181]),
    Line::Inline("+", 2, 1, 0, 0, &[0x6203]),
    Line::Inline("-", 2, 1, 0, 0, &[0x6600, 0x6203, 0x8001, 0x6203]),
    Line::Inline("NEGATE", 1, 1, 1, 0, &[0x6600, 0x8001, 0x6203]),
    Line::Inline("1+", 1, 1, 1, 0, &[0x8001, 0x6203]),
    Line::Inline("1-", 1, 1, 0, 0, &[0x6A00]),
    Line::Inline("2*", 1, 1, 1, 0, &[0x8001, 0x6D03]),
    Line::Inline("AND", 2, 1, 0, 0, &[0x6303]),
    Line::Inline("OR", 2, 1, 0, 0, &[0x6403]),
    Line::Inline("XOR", 2, 1, 0, 0, &[0x6503]),
    Line::Inline("INVERT", 1, 1, 0, 0, &[0x6600]),
    Line::Inline("LSHIFT", 2, 1, 0, 0, &[0x6D03]),
    Line::Inline("RSHIFT", 2, 1, 0, 0, &[0x6903]),
    Line::Inline("=", 2, 1, 0, 0, &[0x6703]),
    Line::Inline("<", 2, 1, 0, 0, &[0x6803]),
    Line::Inline(">", 2, 1, 0, 0, &[0x6180, 0x6803]),
    Line::Inline("U<", 2, 1, 0, 0, &[0x6F03]),
    Line::Inline("0=", 1, 1, 1, 0, &[0x8000, 0x6703]),
    Line::Inline("0<", 1, 1, 1, 0, &[0x8000, 0x6803]),
    Line::Inline("S>D", 1, 2, 2, 0, &[0x6081, 0x8000, 0x6803]),
    Line::Inline("0>", 1, 1, 1, 0, &[0x8000, 0x6180, 0x6803]),
    Line::Inline("<>", 2, 1, 0, 0, &[0x6703, 0x6600]),
    Line::Inline("WITHIN", 3, 1, 1, 1, &WITHIN),
    Line::Inline("CELLS", 1, 1, 1, 0, &[0x8001, 0x6D03]),
    Line::Inline("CELL+", 1, 1, 1, 0, &[0x8002, 0x6203]),
    Line::Inline("CHARS", 1, 1, 0, 0, &[]),
    Line::Inline("CHAR+", 1, 1, 1, 0, &[0x8001, 0x6203]),
    Line::Inline("ALIGNED", 1, 1, 1, 0, &ALIGNED),
    Line::Inline("@", 1, 1, 0, 0, &[0x6C00]),
    Line::Inline("!", 2, 0, 0, 0, &[0x6023, 0x6103]),
    Line::Inline("EMIT", 1, 0, 1, 0, &[0xC000, 0x6023, 0x6103]),
    Line::Inline("KEY", 0, 1, 1, 0, &[0xC002, 0x6C00]),
    Line::Inline("BL", 0, 1, 1, 0, &[0x8020]),
    Line::Inline("CR", 0, 0, 2, 0, &[0x800A, 0xC000, 0x6023, 0x6103]),
    Line::Inline("SPACE", 0, 0, 2, 0, &[0x8020, 0xC000, 0x6023, 0x6103]),
    Line::Inline("BASE", 0, 1, 1, 0, &[0xA000]),
    Line::Inline("HERE", 0, 1, 1, 0, &[0xA004, 0x6C00]),
    Line::Inline("DECIMAL", 0, 0, 2, 0, &[0x800A, 0xA000, 0x6023, 0x6103]),
    Line::Inline("DEPTH", 0, 1, 2, 0, &[0x6E81, 0x801F, 0x6303]),
    Line::Inline("HEX", 0, 0, 2, 0, &[0x8010, 0xA000, 0x6023, 0x6103]),
    Line::Never("ABORT", 0, 2, 0, &[0x8001, 0xC004, 0x6023]),
    Line::Never("QUIT", 0, 2, 0, &[0x8003, 0xC004, 0x6023]),
    // words on return entries, of class structure
    Line::OnReturns(">R", 1, 0, 0, 0, &[0x6147]),
    Line::OnReturns("R>", 0, 1, 1, 0, &[0x6B8D]),
    Line::OnReturns("R@", 0, 1, 1, 0, &[0x6B81]),
    Line::OnReturns("I", 0, 1, 3, 0, &[0x6B8D, 0x6B81, 0x6181, 0x6147, 0x6203]),
    Line::OnReturns("J", 0, 1, 5, 0, &OUTER_INDEX),
    Line::OnReturns("UNLOOP", 0, 0, 1, 0, &[0x6B8D, 0x6103, 0x6B8D, 0x6103]),
    // library words: need, change, peak, back, price, price for each of the count
    Line::Library("?DUP", 1, Some((0, 1)), 2, 2, 12, 0),
    Line::Library("2SWAP", 4, Some((0, 0)), 2, 4, 24, 0),
    Line::Library("2OVER", 4, Some((2, 2)), 4, 6, 48, 0),
    Line::Library("ABS", 1, Some((0, 0)), 3, 2, 20, 0),
    Line::Library("MAX", 2, Some((-1, -1)), 3, 2, 20, 0),
    Line::Library("MIN", 2, Some((-1, -1)), 3, 2, 20, 0),
    Line::Library("2/", 1, Some((0, 0)), 3, 2, 24, 0),
    Line::Library("C@", 1, Some((0, 0)), 4, 2, 24, 0),
    Line::Library("C!", 2, Some((-2, -2)), 5, 4, 48, 0),
    Line::Library("+!", 2, Some((-2, -2)), 3, 3, 24, 0),
    Line::Library("2@", 1, Some((1, 1)), 3, 2, 16, 0),
    Line::Library("2!", 3, Some((-3, -3)), 3, 2, 20, 0),
    Line::Library("COUNT", 1, Some((1, 1)), 6, 4, 40, 0),
    Line::Library(",", 1, Some((-1, -1)), 5, 5, 48, 0),
    Line::Library("C,", 1, Some((-1, -1)), 7, 6, 96, 0),
    Line::Library("ALLOT", 1, Some((-1, -1)), 5, 5, 40, 0),
    Line::Library("ALIGN", 0, Some((0, 0)), 5, 4, 32, 0),
    Line::Library("UM*", 2, Some((0, 0)), 6, 5, 1100, 0),
    Line::Library("M*", 2, Some((0, 0)), 8, 7, 1400, 0),
    Line::Library("*", 2, Some((-1, -1)), 8, 6, 1200, 0),
    Line::Library("UM/MOD", 3, Some((-1, -1)), 6, 5, 2400, 0),
    Line::Library("SM/REM", 3, Some((-1, -1)), 8, 7, 3000, 0),
    Line::Library("FM/MOD", 3, Some((-1, -1)), 10, 8, 3200, 0),
    Line::Library("/MOD", 2, Some((0, 0)), 12, 10, 3600, 0),
    Line::Library("/", 2, Some((-1, -1)), 12, 11, 3700, 0),
    Line::Library("MOD", 2, Some((-1, -1)), 12, 11, 3700, 0),
    Line::Library("*/MOD", 3, Some((-1, -1)), 12, 11, 5200, 0),
    Line::Library("*/", 3, Some((-2, -2)), 12, 12, 5300, 0),
    Line::Library("<#", 0, Some((0, 0)), 3, 2, 20, 0),
    Line::Library("HOLD", 1, Some((-1, -1)), 8, 6, 140, 0),
    Line::Library("SIGN", 1, Some((-1, -1)), 9, 7, 180, 0),
    Line::Library("#", 2, Some((0, 0)), 10, 9, 6000, 0),
    Line::Library("#S", 2, Some((0, 0)), 11, 10, 200000, 0),
    Line::Library("#>", 2, Some((0, 0)), 3, 2, 20, 0),
    Line::Library(".", 1, Some((-1, -1)), 14, 12, 120000, 0),
    Line::Library("U.", 1, Some((-1, -1)), 14, 12, 120000, 0),
    Line::Library("TYPE", 2, Some((-2, -2)), 8, 6, 40, 80),
    Line::Library("SPACES", 1, Some((-1, -1)), 5, 4, 40, 40),
    Line::Library("FILL", 3, Some((-3, -3)), 8, 8, 40, 120),
    Line::Library("MOVE", 3, Some((-3, -3)), 10, 8, 80, 160),
    Line::Library("ACCEPT", 2, Some((-1, -1)), 8, 8, 100, 120),
    Line::Library(">NUMBER", 4, Some((0, 0)), 12, 10, 100, 3200),
    Line::Library("EXECUTE", 1, None, 4, 3, 30, 0),
    Line::Library("GO", 1, Some((-1, -1)), 24, 18, 3, 0),
    // structure words: taken, left, peak, back, price, price for each of the count, weight
    Line::Structure("S\"", 0, 2, 2, 0, 2, 0, 2),
    Line::Structure(".\"", 0, 0, 10, 7, 42, 80, 3),
    Line::Structure("ABORT\"", 1, 0, 11, 8, 40, 80, 3),
    Line::Structure("IF", 1, 0, 0, 0, 1, 0, 1),
    Line::Structure("WHILE", 1, 0, 0, 0, 1, 0, 1),
    Line::Structure("UNTIL", 1, 0, 0, 0, 1, 0, 1),
    Line::Structure("ELSE", 0, 0, 0, 0, 1, 0, 1),
    Line::Structure("REPEAT", 0, 0, 0, 0, 1, 0, 1),
    Line::Structure("THEN", 0, 0, 0, 0, 0, 0, 0),
    Line::Structure("BEGIN", 0, 0, 0, 0, 0, 0, 0),
    Line::Structure("DO", 2, 0, 1, 0, 8, 0, 8),
    Line::Structure("LOOP", 0, 0, 2, 0, 12, 0, 12),
    Line::Structure("+LOOP", 1, 0, 4, 0, 24, 0, 24),
    Line::Structure("?DO", 2, 0, 2, 0, 12, 0, 15),
    Line::Structure("AGAIN", 0, 0, 0, 0, 1, 0, 1),
    Line::Structure("CASE", 0, 0, 0, 0, 0, 0, 0),
    Line::Structure("OF", 2, 2, 1, 0, 4, 0, 4),
    Line::Structure("ENDOF", 0, 0, 0, 0, 1, 0, 1),
    Line::Structure("ENDCASE", 1, 0, 0, 0, 1, 0, 1),
    Line::Structure("LEAVE", 0, 0, 1, 0, 5, 0, 5),
    Line::Structure("EXIT", 0, 0, 0, 0, 1, 0, 1),
    Line::Structure(";", 0, 0, 0, 0, 1, 0, 1),
    Line::Structure("RECURSE", 0, 0, 0, 0, 1, 0, 1),
    Line::Structure("[']", 0, 1, 1, 0, 2, 0, 2),
    Line::Structure("[CHAR]", 0, 1, 1, 0, 2, 0, 2),
    Line::Structure("LITERAL", 0, 1, 1, 0, 2, 0, 2),
    Line::Structure("[", 0, 0, 0, 0, 0, 0, 0),
    Line::Structure("]", 0, 0, 0, 0, 0, 0, 0),
    Line::Structure("(", 0, 0, 0, 0, 0, 0, 0),
    Line::Structure("\\", 0, 0, 0, 0, 0, 0, 0),
    // host words
    Line::Host(":"),
    Line::Host("'"),
    Line::Host("CHAR"),
    Line::Host("CONSTANT"),
    Line::Host("VARIABLE"),
    Line::Host("CREATE"),
    Line::Host("DOES>"),
    Line::Host(">BODY"),
    Line::Host("CODE-CELLS"),
];

/// The line with the number of a word.
fn line_at(lines: &[Line], word: Word) -> Line
    requires { 139 ≤ length lines.now }
    ensures { IsLineOf lines.now word result }
{
    lines[word as usize]
}

/// The line of a word.
fn line_of(word: Word) -> Line
    ensures row { row_of_line result ≡ row_of word }
    ensures range { IsTrue (is_in_range result) }
{
    line_at(&LINES, word)
}

/// The row of a word.
pub(crate) fn row(word: Word) -> Row
    ensures name { result.name.now ≡ (row_of word).name }
    ensures entry { result.entry ≡ (row_of word).entry }
    ensures cells { result.cells.now ≡ (row_of word).cells }
{
    match line_of(word) {
        Line::Inline(name, takes, leaves, peak, back, cells) => {
            inline(name, takes, leaves, peak, back, cells)
        }
        Line::Never(name, takes, peak, back, cells) => never(name, takes, peak, back, cells),
        Line::OnReturns(name, takes, leaves, peak, back, cells) => {
            on_returns(name, takes, leaves, peak, back, cells)
        }
        Line::Library(name, need, exit, peak, back, base, per) => {
            library(name, need, exit, peak, back, base, per)
        }
        Line::Structure(name, takes, leaves, peak, back, base, per, weight) => {
            structure(name, takes, leaves, peak, back, base, per, weight)
        }
        Line::Host(name) => host(name),
    }
}

/// What the table says of a word.
pub fn entry(word: Word) -> WordEntry
    ensures { result ≡ entry_of word }
{
    row(word).entry
}

/// The machine's cells of a word whose code stands in an image as it is: of an inline word and of the six words on the return
/// stack. For every other word there are none. The words that name data space do so where it begins at 8192.
pub fn plain_cells(word: Word) -> &'static [u16]
    ensures { result.now ≡ cells_of word }
{
    row(word).cells
}
