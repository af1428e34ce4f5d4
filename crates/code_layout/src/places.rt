// Where the code of library words and definitions begins.
ghost use Rattle.std.specs.Prelude.{◌≡◌};
ghost use Rattle.code_layout.specs.Numbering.{library_number as number_of, output_number as output_number_of};

use word_table::Word;

/// The number of `TYPE`, with which texts are printed.
pub(crate) const TYPE: usize = 34;

// The number of a word of output, of memory blocks or of input.
fn output_number(word: Word) -> Option<u16>
    ensures { result ≡ output_number_of word }
{
    match word {
        Word::LessSharp => Some(28),
        Word::Hold => Some(29),
        Word::Sign => Some(30),
        Word::Sharp => Some(31),
        Word::SharpS => Some(32),
        Word::SharpGreater => Some(33),
        Word::TypeOut => Some(34),
        Word::Dot => Some(35),
        Word::UDot => Some(36),
        Word::Spaces => Some(37),
        Word::Fill => Some(38),
        Word::Move => Some(39),
        Word::Accept => Some(40),
        Word::ToNumber => Some(41),
        _ => None,
    }
}

/// The number of a library word, in the order of the library.
pub(crate) fn library_number(word: Word) -> Option<u16>
    ensures { result ≡ number_of word }
{
    match word {
        Word::QDup => Some(0),
        Word::TwoSwap => Some(1),
        Word::TwoOver => Some(2),
        Word::Abs => Some(3),
        Word::Max => Some(4),
        Word::Min => Some(5),
        Word::TwoSlash => Some(6),
        Word::CFetch => Some(7),
        Word::CStore => Some(8),
        Word::PlusStore => Some(9),
        Word::TwoFetch => Some(10),
        Word::TwoStore => Some(11),
        Word::Count => Some(12),
        Word::Comma => Some(13),
        Word::CComma => Some(14),
        Word::Allot => Some(15),
        Word::Align => Some(16),
        Word::UMStar => Some(17),
        Word::MStar => Some(18),
        Word::Star => Some(19),
        Word::UMSlashMod => Some(20),
        Word::SMSlashRem => Some(21),
        Word::FMSlashMod => Some(22),
        Word::SlashMod => Some(23),
        Word::Slash => Some(24),
        Word::Mod => Some(25),
        Word::StarSlashMod => Some(26),
        Word::StarSlash => Some(27),
        _ => output_number(word),
    }
}

/// The cells where routines begin: each library word, each definition, and the code of `EXECUTE`, of `ABORT"` and of
/// `GO`.
#[derive(Drop)]
pub(crate) struct Places {
    pub(crate) words: Vec<u16>,
    pub(crate) definitions: Vec<u16>,
    pub(crate) execute: u16,
    pub(crate) abort: u16,
    /// Where the code of the tokens begins.
    pub(crate) tokens: u16,
    /// Where that of `GO` begins, behind it.
    pub(crate) leaving: u16,
}
