// What tokens stand for where host words act.
ghost use Rattle.std.specs.Prelude.{◌≡◌};
ghost use Rattle.word_table.specs.Names.{word_in};
ghost use Rattle.control_flow.specs.HostSense.{host_word, plain_host_sense, word_host_sense, number_host_sense, known_host_sense, host_sense_by};

use forth_reader::{NumberRead, number_of};
use host_state::{HostItem, HostWord, Known};
use word_table::{Vocabulary, Word, word_in};

/// What a token stands for in brackets and in the host part of a defining word.
#[derive(Clone, Copy)]
pub(crate) enum HostSense {
    /// A number, a constant, a created address or a plain host word: it acts at once.
    Acts(HostItem),
    /// `]`.
    Closes,
    /// `;`.
    Ends,
    /// `DOES>`.
    Does,
    /// A string word.
    Quoted,
    /// A number that is out of range.
    OutOfRange,
    /// No word and no number.
    Unknown,
    /// A name or a word that cannot stand here.
    Forbidden,
}

/// The plain host words of the table.
pub(crate) fn host_word(word: Word) -> Option<HostWord>
    ensures { result ≡ host_word word }
{
    match word {
        Word::Dup => Some(HostWord::Dup),
        Word::DropTop => Some(HostWord::DropTop),
        Word::Swap => Some(HostWord::Swap),
        Word::Over => Some(HostWord::Over),
        Word::Rot => Some(HostWord::Rot),
        Word::Plus => Some(HostWord::Plus),
        Word::Minus => Some(HostWord::Minus),
        Word::Star => Some(HostWord::Star),
        Word::And => Some(HostWord::And),
        Word::Or => Some(HostWord::Or),
        Word::Xor => Some(HostWord::Xor),
        Word::LShift => Some(HostWord::LShift),
        Word::RShift => Some(HostWord::RShift),
        Word::Negate => Some(HostWord::Negate),
        Word::OnePlus => Some(HostWord::OnePlus),
        Word::OneMinus => Some(HostWord::OneMinus),
        Word::TwoStar => Some(HostWord::TwoStar),
        Word::TwoSlash => Some(HostWord::TwoSlash),
        Word::Invert => Some(HostWord::Invert),
        Word::Cells => Some(HostWord::Cells),
        Word::CellPlus => Some(HostWord::CellPlus),
        Word::Chars => Some(HostWord::Chars),
        Word::CharPlus => Some(HostWord::CharPlus),
        Word::Aligned => Some(HostWord::Aligned),
        Word::Fetch => Some(HostWord::Fetch),
        Word::Store => Some(HostWord::Store),
        Word::CFetch => Some(HostWord::CFetch),
        Word::CStore => Some(HostWord::CStore),
        Word::PlusStore => Some(HostWord::PlusStore),
        Word::Here => Some(HostWord::Here),
        Word::Comma => Some(HostWord::Comma),
        Word::CComma => Some(HostWord::CComma),
        Word::Allot => Some(HostWord::Allot),
        Word::Align => Some(HostWord::Align),
        Word::Base => Some(HostWord::Base),
        Word::Decimal => Some(HostWord::Decimal),
        Word::Hex => Some(HostWord::Hex),
        Word::Blank => Some(HostWord::Blank),
        Word::ToBody => Some(HostWord::ToBody),
        _ => None,
    }
}

fn plain_host_sense(word: Option<HostWord>) -> HostSense
    ensures { result ≡ plain_host_sense word }
{
    match word {
        Some(word) => HostSense::Acts(HostItem::Word(word)),
        None => HostSense::Forbidden,
    }
}

fn word_host_sense(word: Word) -> HostSense
    ensures { result ≡ word_host_sense word }
{
    match word {
        Word::RightBracket => HostSense::Closes,
        Word::Semicolon => HostSense::Ends,
        Word::Does => HostSense::Does,
        Word::SQuote => HostSense::Quoted,
        Word::DotQuote => HostSense::Quoted,
        Word::AbortQuote => HostSense::Quoted,
        _ => plain_host_sense(host_word(word)),
    }
}

fn number_host_sense(number: NumberRead) -> HostSense
    ensures { result ≡ number_host_sense number }
{
    match number {
        NumberRead::Value(cell) => HostSense::Acts(HostItem::Number(cell)),
        NumberRead::Range => HostSense::OutOfRange,
        NumberRead::NotNumber => HostSense::Unknown,
    }
}

/// What a name that is defined stands for in brackets.
pub(crate) fn known_host_sense(known: Known) -> HostSense
    ensures { result ≡ known_host_sense known }
{
    match known {
        Known::Constant(cell) => HostSense::Acts(HostItem::Number(cell)),
        Known::Address(address) => HostSense::Acts(HostItem::Number(address)),
        Known::Definition(_) => HostSense::Forbidden,
        Known::Child(_, _) => HostSense::Forbidden,
        Known::Defining(_) => HostSense::Forbidden,
    }
}

/// What a token stands for in brackets that is no name of a definition.
pub(crate) fn host_sense_of(words: Vocabulary, token: &str, base: u16) -> HostSense
    ensures { result ≡ host_sense_by base token.now (word_in words token.now) }
{
    match word_in(words, token) {
        Some(word) => word_host_sense(word),
        None => number_host_sense(number_of(token, base)),
    }
}
