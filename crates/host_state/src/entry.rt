// What names stand for, and what execution tokens stand for.
ghost use Rattle.std.specs.Prelude.{◌≡◌, ◌≤◌, length};
ghost use Rattle.std.specs.Str.{bytes_eq};
ghost use Rattle.word_table.specs.Names.{name_of};
ghost use Rattle.host_state.specs.Tokens.{data_address, is_same, token_of};

use word_table::{Word, each_is_found};

/// A name that the source defines: its number among the entries, and what it stands for.
#[derive(Clone, Copy, Debug, PartialEq, Eq)]
pub struct Entry {
    pub number: u16,
    pub known: Known,
}

/// What a name that the source defines stands for.
#[derive(Clone, Copy, Debug, PartialEq, Eq)]
pub enum Known {
    /// A definition, by its number.
    Definition(u16),
    Constant(u16),
    /// A created address.
    Address(u16),
    /// A child of a defining word: the definition behind `DOES>`, and the data address.
    Child(u16, u16),
    /// A defining word, by its number among them.
    Defining(u16),
}

/// What an execution token stands for.
#[derive(Clone, Copy, Debug, PartialEq, Eq)]
pub enum Ticked {
    Word(Word),
    Entry(Entry),
}

/// The data address of a created address or of a child.
pub(crate) fn data_address(ticked: Ticked) -> Option<u16>
    ensures { result ≡ data_address ticked }
{
    match ticked {
        Ticked::Word(_) => None,
        Ticked::Entry(entry) => match entry.known {
            Known::Address(address) => Some(address),
            Known::Child(_, address) => Some(address),
            Known::Definition(_) => None,
            Known::Constant(_) => None,
            Known::Defining(_) => None,
        },
    }
}

/// Whether two words have one name.
fn same_word(a: Word, b: Word) -> bool
    ensures { result ≡ bytes_eq (name_of a) (name_of b) }
{
    each_is_found();
    a == b
}

/// Whether two ticks are of one word.
fn is_same(a: Ticked, b: Ticked) -> bool
    ensures { result ≡ is_same a b }
{
    match a {
        Ticked::Word(word) => match b {
            Ticked::Word(other) => same_word(word, other),
            Ticked::Entry(_) => false,
        },
        Ticked::Entry(entry) => match b {
            Ticked::Word(_) => false,
            Ticked::Entry(other) => entry.number == other.number,
        },
    }
}

/// The token that a word already has.
pub(crate) fn token_of(ticked: Ticked, tokens: &[Ticked]) -> Option<u16>
    requires { length tokens.now ≤ 65534 }
    ensures { result ≡ token_of ticked tokens.now }
{
    let mut rest = tokens;
    let mut number = 1;
    while let Some((other, tail)) = rest.split_first() {
        if is_same(ticked, *other) {
            return Some(number);
        }
        rest = tail;
        number += 1;
    }
    None
}
