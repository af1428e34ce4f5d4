// What tokens stand for.
ghost use Rattle.std.specs.Prelude.{◌≡◌};
ghost use Rattle.word_table.specs.Names.{word_in, word_named};
ghost use Rattle.control_flow.specs.Sense.{sense_by, word_sense, acting_sense, structure_sense, number_sense, known_sense, is_create};
ghost use Rattle.control_flow.specs.OutsideWords.{is_reserved, is_reserved_name};

use crate::nest::{Ending, Opening};
use forth_program::TextKind;
use forth_reader::{NumberRead, number_of};
use host_state::Known;
use word_table::{Class, Vocabulary, Word, entry, word_in, word_of};

/// What a token stands for inside a definition.
#[derive(Clone, Copy)]
pub(crate) enum Sense {
    /// A number, a constant or a created address, as a cell.
    Number(u16),
    /// An inline word, a library word, or a word on return entries.
    Plain(Word),
    /// A definition, by its number.
    Calls(u16),
    /// A child of a defining word: the definition behind `DOES>`, and the data address.
    Inherits(u16, u16),
    /// `RECURSE`.
    Recurses,
    /// A word that opens a structure.
    Opens(Opening),
    /// A word that ends a list of items.
    Ends(Ending),
    /// `LEAVE`.
    Leaves,
    /// `EXIT`.
    Exits,
    /// `[CHAR]`.
    Spells,
    /// A string word.
    Quotes(TextKind),
    /// `[']`.
    Ticks,
    /// `LITERAL`.
    Takes,
    /// `[`.
    Brackets,
    /// `CREATE`.
    Creates,
    /// A word that cannot stand in a definition.
    Forbidden,
    /// `]` where no `[` is open.
    Unfit,
    /// A number that is out of range.
    OutOfRange,
    /// No word and no number.
    Unknown,
}

fn structure_sense(word: Word) -> Sense
    ensures { result ≡ structure_sense word }
{
    match word {
        Word::ToR => Sense::Plain(word),
        Word::RFrom => Sense::Plain(word),
        Word::RFetch => Sense::Plain(word),
        Word::Index => Sense::Plain(word),
        Word::OuterIndex => Sense::Plain(word),
        Word::Unloop => Sense::Plain(word),
        Word::If => Sense::Opens(Opening::If),
        Word::Begin => Sense::Opens(Opening::Begin),
        Word::Do => Sense::Opens(Opening::Do),
        Word::QDo => Sense::Opens(Opening::QDo),
        Word::Case => Sense::Opens(Opening::Case),
        Word::Else => Sense::Ends(Ending::Else),
        Word::Then => Sense::Ends(Ending::Then),
        Word::Until => Sense::Ends(Ending::Until),
        Word::While => Sense::Ends(Ending::While),
        Word::Repeat => Sense::Ends(Ending::Repeat),
        Word::Again => Sense::Ends(Ending::Again),
        Word::Loop => Sense::Ends(Ending::Loop),
        Word::PlusLoop => Sense::Ends(Ending::PlusLoop),
        Word::Of => Sense::Ends(Ending::Of),
        Word::EndOf => Sense::Ends(Ending::EndOf),
        Word::EndCase => Sense::Ends(Ending::EndCase),
        Word::Semicolon => Sense::Ends(Ending::Semicolon),
        Word::Leave => Sense::Leaves,
        Word::Exit => Sense::Exits,
        Word::Recurse => Sense::Recurses,
        Word::BracketChar => Sense::Spells,
        Word::SQuote => Sense::Quotes(TextKind::Address),
        Word::DotQuote => Sense::Quotes(TextKind::Print),
        Word::AbortQuote => Sense::Quotes(TextKind::Abort),
        Word::BracketTick => Sense::Ticks,
        Word::Literal => Sense::Takes,
        Word::LeftBracket => Sense::Brackets,
        _ => Sense::Unfit,
    }
}

fn acting_sense(word: Word) -> Sense
    ensures { result ≡ acting_sense word }
{
    match word {
        Word::Create => Sense::Creates,
        _ => Sense::Forbidden,
    }
}

fn word_sense(word: Word) -> Sense
    ensures { result ≡ word_sense word }
{
    match entry(word).class {
        Class::Inline => Sense::Plain(word),
        Class::Library => Sense::Plain(word),
        Class::Structure => structure_sense(word),
        Class::Host => acting_sense(word),
    }
}

fn number_sense(number: NumberRead) -> Sense
    ensures { result ≡ number_sense number }
{
    match number {
        NumberRead::Value(cell) => Sense::Number(cell),
        NumberRead::Range => Sense::OutOfRange,
        NumberRead::NotNumber => Sense::Unknown,
    }
}

/// What a name that is defined stands for.
pub(crate) fn known_sense(known: Known) -> Sense
    ensures { result ≡ known_sense known }
{
    match known {
        Known::Definition(definition) => Sense::Calls(definition),
        Known::Constant(cell) => Sense::Number(cell),
        Known::Address(address) => Sense::Number(address),
        Known::Child(part, address) => Sense::Inherits(part, address),
        Known::Defining(_) => Sense::Forbidden,
    }
}

/// Whether it is CREATE.
pub(crate) fn is_create(sense: Sense) -> bool
    ensures { result ≡ is_create sense }
{
    match sense {
        Sense::Creates => true,
        _ => false,
    }
}

/// What a token stands for that is no name of a definition: first a word of the table, then a number in this base.
pub(crate) fn sense_of(words: Vocabulary, token: &str, base: u16) -> Sense
    ensures { result ≡ sense_by base token.now (word_in words token.now) }
{
    match word_in(words, token) {
        Some(word) => word_sense(word),
        None => number_sense(number_of(token, base)),
    }
}

fn is_reserved(word: Word) -> bool
    ensures { result ≡ is_reserved word }
{
    match word {
        Word::Colon => true,
        Word::Semicolon => true,
        Word::Paren => true,
        Word::Backslash => true,
        Word::DotQuote => true,
        Word::SQuote => true,
        Word::AbortQuote => true,
        _ => false,
    }
}

/// Whether the token is a name that cannot be defined.
pub(crate) fn is_reserved_name(token: &str) -> bool
    ensures { result ≡ is_reserved_name (word_named token.now) }
{
    match word_of(token) {
        Some(word) => is_reserved(word),
        None => false,
    }
}
