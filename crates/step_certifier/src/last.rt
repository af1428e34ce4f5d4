// What stands directly before an item, and what it tells of the item.
ghost use Rattle.std.specs.Prelude.{◌≡◌};
ghost use Rattle.step_certifier.specs.Cost.{literal_of, with_literal, known_count as count_of};
ghost use Rattle.step_certifier.specs.Refusal.{word_refusal as refusal_of};
ghost use Rattle.step_certifier.specs.Views.{last_of};

use crate::bound::BoundCause;
use word_table::Word;

/// What stands directly before an item in its list.
#[derive(Clone, Copy)]
pub(crate) enum Last {
    /// Something else, or nothing.
    Other,
    /// A literal.
    One(u16),
    /// Two literals.
    Two(u16, u16),
    /// `S"` with the size of its text.
    TextSize(u16),
}

impl Last {
    /// The literal directly before an item.
    pub(crate) fn literal(self) -> Option<u16>
        ensures { result ≡ literal_of (last_of self) }
    {
        match self {
            Last::One(value) => Some(value),
            Last::Two(_, value) => Some(value),
            _ => None,
        }
    }

    /// And then a literal.
    pub(crate) fn with_literal(self, next: u16) -> Last
        ensures { last_of result ≡ with_literal (last_of self) next }
    {
        match self {
            Last::One(value) => Last::Two(value, next),
            Last::Two(_, value) => Last::Two(value, next),
            _ => Last::One(next),
        }
    }

    /// The count of a word, where it has none or it is known.
    pub(crate) fn known_count(self, word: Word) -> Option<u16>
        ensures { result ≡ count_of word (last_of self) }
    {
        match word {
            Word::TypeOut => match self {
                Last::TextSize(size) => Some(size),
                _ => self.literal(),
            },
            Word::Spaces => match self.literal() {
                Some(value) => Some(if value < 32768 { value } else { 0 }),
                None => None,
            },
            Word::Move => self.literal(),
            Word::Accept => self.literal(),
            Word::Fill => None,
            Word::ToNumber => None,
            _ => Some(0),
        }
    }

    /// Why a word has no bound.
    pub(crate) fn word_refusal(self, word: Word) -> Option<BoundCause>
        ensures { result ≡ refusal_of word (last_of self) }
    {
        match word {
            Word::Execute => Some(BoundCause::Execute),
            _ => match self.known_count(word) {
                Some(_) => None,
                None => Some(BoundCause::OpenBounds),
            },
        }
    }
}
