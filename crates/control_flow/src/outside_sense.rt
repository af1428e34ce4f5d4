// What tokens stand for outside definitions.
ghost use Rattle.std.specs.Prelude.{◌≡◌};
ghost use Rattle.word_table.specs.Names.{word_in};
ghost use Rattle.control_flow.specs.OutsideSense.{plain_outside_sense, word_outside_sense, number_outside_sense, known_outside_sense, outside_sense_by, is_number};

use crate::host_sense::host_word;
use forth_reader::{NumberRead, number_of};
use host_state::{HostItem, HostWord, Known};
use word_table::{Vocabulary, Word, word_in};

/// What a token stands for outside definitions.
#[derive(Clone, Copy)]
pub(crate) enum OutsideSense {
    /// `:`.
    Begins,
    /// A number, a constant, a created address or a plain host word: it acts at once.
    Acts(HostItem),
    /// `CONSTANT`.
    NamesConstant,
    /// `VARIABLE`.
    NamesVariable,
    /// `CREATE`.
    NamesAddress,
    /// A defining word, by its number.
    NamesChild(u16),
    /// `'`.
    Ticks,
    /// `CHAR`.
    Spells,
    /// `CODE-CELLS`.
    Splits,
    /// A string word.
    Quoted,
    /// A number that is out of range.
    OutOfRange,
    /// No word and no number.
    Unknown,
    /// A name or a word that can stand only in a definition.
    Forbidden,
}

fn plain_outside_sense(word: Option<HostWord>) -> OutsideSense
    ensures { result ≡ plain_outside_sense word }
{
    match word {
        Some(word) => OutsideSense::Acts(HostItem::Word(word)),
        None => OutsideSense::Forbidden,
    }
}

fn word_outside_sense(word: Word) -> OutsideSense
    ensures { result ≡ word_outside_sense word }
{
    match word {
        Word::Colon => OutsideSense::Begins,
        Word::Constant => OutsideSense::NamesConstant,
        Word::Variable => OutsideSense::NamesVariable,
        Word::Create => OutsideSense::NamesAddress,
        Word::Tick => OutsideSense::Ticks,
        Word::Char => OutsideSense::Spells,
        Word::CodeCells => OutsideSense::Splits,
        Word::SQuote => OutsideSense::Quoted,
        Word::DotQuote => OutsideSense::Quoted,
        Word::AbortQuote => OutsideSense::Quoted,
        _ => plain_outside_sense(host_word(word)),
    }
}

fn number_outside_sense(number: NumberRead) -> OutsideSense
    ensures { result ≡ number_outside_sense number }
{
    match number {
        NumberRead::Value(cell) => OutsideSense::Acts(HostItem::Number(cell)),
        NumberRead::Range => OutsideSense::OutOfRange,
        NumberRead::NotNumber => OutsideSense::Unknown,
    }
}

/// What a name that is defined stands for outside definitions.
pub(crate) fn known_outside_sense(known: Known) -> OutsideSense
    ensures { result ≡ known_outside_sense known }
{
    match known {
        Known::Constant(cell) => OutsideSense::Acts(HostItem::Number(cell)),
        Known::Address(address) => OutsideSense::Acts(HostItem::Number(address)),
        Known::Defining(number) => OutsideSense::NamesChild(number),
        Known::Definition(_) => OutsideSense::Forbidden,
        Known::Child(_, _) => OutsideSense::Forbidden,
    }
}

/// What a token stands for outside definitions that is no name of a definition.
pub(crate) fn outside_sense_of(words: Vocabulary, token: &str, base: u16) -> OutsideSense
    ensures { result ≡ outside_sense_by base token.now (word_in words token.now) }
{
    match word_in(words, token) {
        Some(word) => word_outside_sense(word),
        None => number_outside_sense(number_of(token, base)),
    }
}

/// Whether it is a number.
pub(crate) fn is_number(sense: OutsideSense) -> bool
    ensures { result ≡ is_number sense }
{
    match sense {
        OutsideSense::Acts(item) => match item {
            HostItem::Number(_) => true,
            HostItem::Word(_) => false,
        },
        _ => false,
    }
}
