// The open structures of a definition.
ghost use Rattle.std.specs.Prelude.{◌≡◌, [], IfOk};
ghost use Rattle.control_flow.specs.Nest.{open_of, step_of, with_open, nest_ended, is_do, any_do, is_inside_do, nest_left, opened_by, nest_closed_by, Nested};
ghost use Rattle.control_flow.specs.Sense.{opening_word, ending_word};

use crate::refusal::SourceCause;
use arrayvec::ArrayVec;
use std::alloc::AllocError;
use std::marker::Model;
use word_table::Word;

/// A word that opens a structure.
#[derive(Clone, Copy)]
pub(crate) enum Opening {
    If,
    Begin,
    Do,
    QDo,
    Case,
}

/// A word that ends a list of items.
#[derive(Clone, Copy)]
pub enum Ending {
    Else,
    Then,
    Until,
    While,
    Repeat,
    Again,
    Loop,
    PlusLoop,
    Of,
    EndOf,
    EndCase,
    Semicolon,
}

/// An open structure, by the word with which its present part begins. `?DO` counts as `DO`.
#[derive(Clone, Copy, Default)]
pub enum Open {
    #[default]
    If,
    Else,
    Begin,
    While,
    Do,
    Case,
    Of,
}

/// What a word does to the innermost open structure.
#[derive(Clone, Copy)]
enum Step {
    /// It ends it.
    Gone,
    /// Its next part begins.
    Becomes(Open),
    /// It opens one inside.
    Holds(Open),
    /// It does not fit.
    Unfit,
}

/// The structure that a word opens.
pub(crate) fn open_of(opening: Opening) -> Open
    ensures { result ≡ open_of opening }
{
    match opening {
        Opening::If => Open::If,
        Opening::Begin => Open::Begin,
        Opening::Do => Open::Do,
        Opening::QDo => Open::Do,
        Opening::Case => Open::Case,
    }
}

/// The word itself.
pub(crate) fn opening_word(opening: Opening) -> Word
    ensures { result ≡ opening_word opening }
{
    match opening {
        Opening::If => Word::If,
        Opening::Begin => Word::Begin,
        Opening::Do => Word::Do,
        Opening::QDo => Word::QDo,
        Opening::Case => Word::Case,
    }
}

/// The word itself.
pub(crate) fn ending_word(ending: Ending) -> Word
    ensures { result ≡ ending_word ending }
{
    match ending {
        Ending::Else => Word::Else,
        Ending::Then => Word::Then,
        Ending::Until => Word::Until,
        Ending::While => Word::While,
        Ending::Repeat => Word::Repeat,
        Ending::Again => Word::Again,
        Ending::Loop => Word::Loop,
        Ending::PlusLoop => Word::PlusLoop,
        Ending::Of => Word::Of,
        Ending::EndOf => Word::EndOf,
        Ending::EndCase => Word::EndCase,
        Ending::Semicolon => Word::Semicolon,
    }
}

fn step_of(top: Open, ending: Ending) -> Step
    ensures { result ≡ step_of top ending }
{
    match top {
        Open::If => match ending {
            Ending::Else => Step::Becomes(Open::Else),
            Ending::Then => Step::Gone,
            _ => Step::Unfit,
        },
        Open::Else => match ending {
            Ending::Then => Step::Gone,
            _ => Step::Unfit,
        },
        Open::Begin => match ending {
            Ending::Until => Step::Gone,
            Ending::Again => Step::Gone,
            Ending::While => Step::Becomes(Open::While),
            _ => Step::Unfit,
        },
        Open::While => match ending {
            Ending::Repeat => Step::Gone,
            _ => Step::Unfit,
        },
        Open::Do => match ending {
            Ending::Loop => Step::Gone,
            Ending::PlusLoop => Step::Gone,
            _ => Step::Unfit,
        },
        Open::Case => match ending {
            Ending::Of => Step::Holds(Open::Of),
            Ending::EndCase => Step::Gone,
            _ => Step::Unfit,
        },
        Open::Of => match ending {
            Ending::EndOf => Step::Gone,
            _ => Step::Unfit,
        },
    }
}

fn is_do(structure: Open) -> bool
    ensures { result ≡ is_do structure }
{
    match structure {
        Open::Do => true,
        _ => false,
    }
}

fn any_do(structures: &[Open]) -> bool
    ensures { result ≡ any_do structures.now }
{
    for structure in structures {
        if is_do(*structure) {
            return true;
        }
    }
    false
}

/// The open structures of a definition, at most 16. Contracts see the list, the innermost first.
#[derive(Drop)]
pub struct Nest {
    structures: ArrayVec<Open, 16>,
}

impl Model for Nest {
    ghost use Rattle.std.specs.Prelude.{List, length, ◌≤◌, reverse};
    ghost use Rattle.control_flow.specs.declared.nest.Open.{Open};

    ghost Value = { List Open };

    ghost view = { λ n. reverse n.structures.items };

    ghost invariant = { λ n. length n.structures.items ≤ 16 };
}

impl Nest {
    /// No structure is open.
    pub fn new() -> Nest
        ensures { result ≡ [] }
    {
        Nest {
            structures: ArrayVec::new(),
        }
    }

    /// The same structures.
    pub(crate) fn copy(&self) -> Result<Nest, AllocError>
        ensures { IfOk result (λ copy. copy ≡ self.now) }
    {
        let structures = self.structures.clone()?;
        Ok(Nest { structures })
    }

    /// A structure opens. TooDeep comes exactly at a 17th.
    #[tactic(auto, using(crate::proofs::Nests::room_for, crate::proofs::Nests::no_room))]
    pub(crate) fn open(&mut self, structure: Open) -> Result<(), SourceCause>
        ensures { Nested self.old self.new result (with_open structure self.old) }
    {
        if self.structures.is_full() {
            return Err(SourceCause::TooDeep);
        }
        self.structures.push(structure);
        Ok(())
    }

    /// A word ends a list of items.
    pub(crate) fn end(&mut self, ending: Ending) -> Result<(), SourceCause>
        ensures { Nested self.old self.new result (nest_ended self.old ending) }
    {
        let Some(top) = self.structures.pop() else {
            return match ending {
                Ending::Semicolon => Ok(()),
                _ => Err(SourceCause::BadNest),
            };
        };
        match step_of(top, ending) {
            Step::Gone => Ok(()),
            Step::Becomes(next) => {
                self.structures.push(next);
                Ok(())
            }
            Step::Holds(inner) => {
                self.structures.push(top);
                if self.structures.is_full() {
                    return Err(SourceCause::TooDeep);
                }
                self.structures.push(inner);
                Ok(())
            }
            Step::Unfit => {
                self.structures.push(top);
                Err(SourceCause::BadNest)
            }
        }
    }

    /// Whether a `DO` or `?DO` is open.
    pub(crate) fn is_inside_do(&self) -> bool
        ensures { result ≡ is_inside_do self.now }
    {
        any_do(self.structures.as_slice())
    }

    fn leave(&self) -> Result<(), SourceCause>
        ensures { Nested self.now self.now result (nest_left self.now) }
    {
        if self.is_inside_do() {
            Ok(())
        } else {
            Err(SourceCause::BadNest)
        }
    }

    /// `IF`, `BEGIN`, `DO`, `?DO`, `CASE` or `OF` opens a structure. TooDeep comes exactly at a 17th, BadNest exactly where an `OF`
    /// stands directly in no `CASE`. A refusal changes nothing. Any other word is refused as BadNest.
    pub fn opens(&mut self, word: Word) -> Result<(), SourceCause>
        ensures { Nested self.old self.new result (opened_by self.old word) }
    {
        match word {
            Word::If => self.open(Open::If),
            Word::Begin => self.open(Open::Begin),
            Word::Do => self.open(Open::Do),
            Word::QDo => self.open(Open::Do),
            Word::Case => self.open(Open::Case),
            Word::Of => self.end(Ending::Of),
            _ => Err(SourceCause::BadNest),
        }
    }

    /// A word ends, parts or leaves the innermost structure. `ELSE` and `WHILE` leave it open, and so does `LEAVE`. BadNest comes
    /// exactly where the word does not fit. A refusal changes nothing.
    pub fn closes(&mut self, word: Word) -> Result<(), SourceCause>
        ensures { Nested self.old self.new result (nest_closed_by self.old word) }
    {
        match word {
            Word::Else => self.end(Ending::Else),
            Word::Then => self.end(Ending::Then),
            Word::Until => self.end(Ending::Until),
            Word::While => self.end(Ending::While),
            Word::Repeat => self.end(Ending::Repeat),
            Word::Again => self.end(Ending::Again),
            Word::Loop => self.end(Ending::Loop),
            Word::PlusLoop => self.end(Ending::PlusLoop),
            Word::EndOf => self.end(Ending::EndOf),
            Word::EndCase => self.end(Ending::EndCase),
            Word::Leave => self.leave(),
            _ => Err(SourceCause::BadNest),
        }
    }
}
