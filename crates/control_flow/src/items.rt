// Reading the items of a definition.
ghost use Rattle.std.specs.Prelude.{◌≡◌, ℕ, ◌<◌, ◌≤◌, length, OnOk};
ghost use Rattle.forth_program.specs.ItemTrees.{node_of, tree_of};
ghost use Rattle.control_flow.specs.Items.{if_at, begin_at, do_at, q_do_at, body_at, case_at, structure_at, item_at, items_by, items_at};
ghost use Rattle.control_flow.specs.Answers.{parser_state, IsReadyParser, AnswersAs};

use crate::nest::{Ending, Opening};
use crate::parser::Parser;
use crate::refusal::{SourceCause, SourceError};
use crate::sense::Sense;
use crate::structures::{
    again, case_of, do_loop, if_else, if_then, q_do_loop, until, while_repeat,
};
use forth_program::{Arms, DefId, Item, Items};
use std::alloc::Global;
use word_table::{Word, entry};

/// Items, and the word that ends them.
#[derive(Drop)]
pub(crate) struct Ended {
    pub(crate) items: Items,
    pub(crate) ending: Ending,
}

impl<'a> Parser<'a> {
    /// `IF` up to its `THEN`.
    #[cycle(items)]
    fn if_item(&mut self, alloc: Global) -> Result<Item, SourceError>
        requires { IsReadyParser self.old }
        ensures gives { (n : ℕ) → length self.old.reader.rest < n → AnswersAs (λ item. record { node = node_of item; at = parser_state self.new }) result (if_at (items_at n) (parser_state self.old)) }
        ensures shorter { OnOk result (length self.new.reader.rest ≤ length self.old.reader.rest) }
        ensures ready { OnOk result (IsReadyParser self.new) }
        ensures entries { self.new.dictionary.pairs ≡ self.old.dictionary.pairs }
    {
        let first = self.items(alloc)?;
        match first.ending {
            Ending::Then => Ok(if_then(alloc, first.items)),
            Ending::Else => {
                let second = self.items(alloc)?;
                match second.ending {
                    Ending::Then => Ok(if_else(first.items, second.items)),
                    _ => self.refuse(SourceCause::BadNest),
                }
            }
            _ => self.refuse(SourceCause::BadNest),
        }
    }

    /// `BEGIN` up to its `UNTIL`, `AGAIN` or `REPEAT`.
    #[cycle(items)]
    fn begin_item(&mut self, alloc: Global) -> Result<Item, SourceError>
        requires { IsReadyParser self.old }
        ensures gives { (n : ℕ) → length self.old.reader.rest < n → AnswersAs (λ item. record { node = node_of item; at = parser_state self.new }) result (begin_at (items_at n) (parser_state self.old)) }
        ensures shorter { OnOk result (length self.new.reader.rest ≤ length self.old.reader.rest) }
        ensures ready { OnOk result (IsReadyParser self.new) }
        ensures entries { self.new.dictionary.pairs ≡ self.old.dictionary.pairs }
    {
        let first = self.items(alloc)?;
        match first.ending {
            Ending::Until => Ok(until(first.items)),
            Ending::Again => Ok(again(first.items)),
            Ending::While => {
                let body = self.items(alloc)?;
                match body.ending {
                    Ending::Repeat => Ok(while_repeat(first.items, body.items)),
                    _ => self.refuse(SourceCause::BadNest),
                }
            }
            _ => self.refuse(SourceCause::BadNest),
        }
    }

    /// `DO` up to its `LOOP` or `+LOOP`.
    #[cycle(items)]
    fn do_item(&mut self, alloc: Global) -> Result<Item, SourceError>
        requires { IsReadyParser self.old }
        ensures gives { (n : ℕ) → length self.old.reader.rest < n → AnswersAs (λ item. record { node = node_of item; at = parser_state self.new }) result (do_at (items_at n) (parser_state self.old)) }
        ensures shorter { OnOk result (length self.new.reader.rest ≤ length self.old.reader.rest) }
        ensures ready { OnOk result (IsReadyParser self.new) }
        ensures entries { self.new.dictionary.pairs ≡ self.old.dictionary.pairs }
    {
        let body = self.items(alloc)?;
        match body.ending {
            Ending::Loop => Ok(do_loop(body.items, false)),
            Ending::PlusLoop => Ok(do_loop(body.items, true)),
            _ => self.refuse(SourceCause::BadNest),
        }
    }

    /// `?DO` up to its `LOOP` or `+LOOP`.
    #[cycle(items)]
    fn q_do_item(&mut self, alloc: Global) -> Result<Item, SourceError>
        requires { IsReadyParser self.old }
        ensures gives { (n : ℕ) → length self.old.reader.rest < n → AnswersAs (λ item. record { node = node_of item; at = parser_state self.new }) result (q_do_at (items_at n) (parser_state self.old)) }
        ensures shorter { OnOk result (length self.new.reader.rest ≤ length self.old.reader.rest) }
        ensures ready { OnOk result (IsReadyParser self.new) }
        ensures entries { self.new.dictionary.pairs ≡ self.old.dictionary.pairs }
    {
        let body = self.items(alloc)?;
        match body.ending {
            Ending::Loop => Ok(q_do_loop(body.items, false)),
            Ending::PlusLoop => Ok(q_do_loop(body.items, true)),
            _ => self.refuse(SourceCause::BadNest),
        }
    }

    /// The body of an arm, up to its `ENDOF`.
    #[cycle(items)]
    fn arm_body(&mut self, alloc: Global) -> Result<Items, SourceError>
        requires { IsReadyParser self.old }
        ensures gives { (n : ℕ) → length self.old.reader.rest < n → AnswersAs (λ items. record { nodes = tree_of items; at = parser_state self.new }) result (body_at (items_at n) (parser_state self.old)) }
        ensures shorter { OnOk result (length self.new.reader.rest < length self.old.reader.rest) }
        ensures ready { OnOk result (IsReadyParser self.new) }
        ensures entries { self.new.dictionary.pairs ≡ self.old.dictionary.pairs }
    {
        let body = self.items(alloc)?;
        match body.ending {
            Ending::EndOf => Ok(body.items),
            _ => self.refuse(SourceCause::BadNest),
        }
    }

    /// `CASE` up to its `ENDCASE`.
    #[cycle(items)]
    fn case_item(&mut self, alloc: Global) -> Result<Item, SourceError>
        requires { IsReadyParser self.old }
        ensures gives { (n m : ℕ) → length self.old.reader.rest < n → length self.old.reader.rest < m → AnswersAs (λ item. record { node = node_of item; at = parser_state self.new }) result (case_at (items_at n) m (parser_state self.old)) }
        ensures shorter { OnOk result (length self.new.reader.rest ≤ length self.old.reader.rest) }
        ensures ready { OnOk result (IsReadyParser self.new) }
        ensures entries { self.new.dictionary.pairs ≡ self.old.dictionary.pairs }
    {
        let mut arms = Arms::new(alloc);
        'arms: loop {
            let tests = match self.items(alloc) {
                Ok(tests) => tests,
                Err(error) => return Err(error),
            };
            match tests.ending {
                Ending::EndCase => return Ok(case_of(arms, tests.items)),
                Ending::Of => {}
                _ => return self.refuse(SourceCause::BadNest),
            }
            let body = match self.arm_body(alloc) {
                Ok(body) => body,
                Err(error) => return Err(error),
            };
            match arms.push(tests.items, body) {
                Ok(()) => {}
                Err(_) => return Err(SourceError::OutOfMemory),
            }
        }
    }

    /// The structure that a word opens.
    #[cycle(items)]
    fn structure(&mut self, alloc: Global, opening: Opening) -> Result<Item, SourceError>
        requires { IsReadyParser self.old }
        ensures gives { (n m : ℕ) → length self.old.reader.rest < n → length self.old.reader.rest < m → AnswersAs (λ item. record { node = node_of item; at = parser_state self.new }) result (structure_at (items_at n) m opening (parser_state self.old)) }
        ensures shorter { OnOk result (length self.new.reader.rest ≤ length self.old.reader.rest) }
        ensures ready { OnOk result (IsReadyParser self.new) }
        ensures entries { self.new.dictionary.pairs ≡ self.old.dictionary.pairs }
    {
        match opening {
            Opening::If => self.if_item(alloc),
            Opening::Begin => self.begin_item(alloc),
            Opening::Do => self.do_item(alloc),
            Opening::QDo => self.q_do_item(alloc),
            Opening::Case => self.case_item(alloc),
        }
    }

    /// The item that begins with the token just read.
    #[cycle(items)]
    fn item(&mut self, alloc: Global, sense: Sense) -> Result<Item, SourceError>
        requires { IsReadyParser self.old }
        ensures gives { (n m : ℕ) → length self.old.reader.rest < n → length self.old.reader.rest < m → AnswersAs (λ item. record { node = node_of item; at = parser_state self.new }) result (item_at (items_at n) m (parser_state self.old) sense) }
        ensures shorter { OnOk result (length self.new.reader.rest ≤ length self.old.reader.rest) }
        ensures ready { OnOk result (IsReadyParser self.new) }
        ensures entries { self.new.dictionary.pairs ≡ self.old.dictionary.pairs }
    {
        match sense {
            Sense::Number(cell) => self.alone(2, Item::Literal(cell)),
            Sense::Plain(word) => self.alone(entry(word).weight, Item::Word(word)),
            Sense::Calls(definition) => self.alone(1, Item::Call(DefId(definition))),
            Sense::Inherits(part, address) => self.alone(2, Item::Child(DefId(part), address)),
            Sense::Recurses => {
                if self.does {
                    return self.refuse(SourceCause::NotInDefinition);
                }
                let definition = DefId(self.definitions);
                self.alone(entry(Word::Recurse).weight, Item::Call(definition))
            }
            Sense::Opens(opening) => {
                self.open(opening)?;
                self.structure(alloc, opening)
            }
            Sense::Ends(_) => self.refuse(SourceCause::BadNest),
            Sense::Leaves => {
                if !self.nest.is_inside_do() {
                    return self.refuse(SourceCause::BadNest);
                }
                self.alone(entry(Word::Leave).weight, Item::Leave)
            }
            Sense::Exits => self.alone(entry(Word::Exit).weight, Item::Exit),
            Sense::Spells => self.char_item(),
            Sense::Quotes(kind) => self.text_item(kind),
            Sense::Ticks => self.tick_item(),
            Sense::Takes => self.literal_item(),
            Sense::Brackets => self.refuse(SourceCause::BadNest),
            Sense::Creates => self.refuse(SourceCause::NotInDefinition),
            Sense::Forbidden => self.refuse(SourceCause::NotInDefinition),
            Sense::Unfit => self.refuse(SourceCause::BadNest),
            Sense::OutOfRange => self.refuse(SourceCause::NumberRange),
            Sense::Unknown => self.refuse(SourceCause::UnknownWord),
        }
    }

    /// Items that begin with the token just read, up to the word that ends them.
    #[cycle(items)]
    pub(crate) fn items_from(&mut self, alloc: Global, first: Sense) -> Result<Ended, SourceError>
        requires { IsReadyParser self.old }
        ensures gives { (n : ℕ) → length self.old.reader.rest < n → AnswersAs (λ body. record { nodes = tree_of body.items; ending = body.ending; at = parser_state self.new }) result (items_by (items_at n) n (parser_state self.old) first) }
        ensures shorter { OnOk result (length self.new.reader.rest ≤ length self.old.reader.rest) }
        ensures ready { OnOk result (IsReadyParser self.new) }
        ensures entries { self.new.dictionary.pairs ≡ self.old.dictionary.pairs }
    {
        let mut done = Items::new(alloc);
        let mut sense = first;
        'tokens: loop {
            if let Sense::Ends(ending) = sense {
                return match self.end(ending) {
                    Ok(()) => Ok(Ended {
                        items: done,
                        ending,
                    }),
                    Err(error) => Err(error),
                };
            }
            if let Sense::Brackets = sense {
                match self.bracket() {
                    Ok(()) => {}
                    Err(error) => return Err(error),
                }
                sense = match self.token() {
                    Ok(sense) => sense,
                    Err(error) => return Err(error),
                };
                continue;
            }
            let item = match self.item(alloc, sense) {
                Ok(item) => item,
                Err(error) => return Err(error),
            };
            match done.push(item) {
                Ok(()) => {}
                Err(_) => return Err(SourceError::OutOfMemory),
            }
            sense = match self.token() {
                Ok(sense) => sense,
                Err(error) => return Err(error),
            };
        }
    }

    /// Items, up to the word that ends them.
    #[cycle(items)]
    pub(crate) fn items(&mut self, alloc: Global) -> Result<Ended, SourceError>
        requires { IsReadyParser self.old }
        ensures gives { (n : ℕ) → length self.old.reader.rest < n → AnswersAs (λ body. record { nodes = tree_of body.items; ending = body.ending; at = parser_state self.new }) result (items_at n (parser_state self.old)) }
        ensures shorter { OnOk result (length self.new.reader.rest < length self.old.reader.rest) }
        ensures ready { OnOk result (IsReadyParser self.new) }
        ensures entries { self.new.dictionary.pairs ≡ self.old.dictionary.pairs }
    {
        let first = match self.token() {
            Ok(sense) => sense,
            Err(error) => return Err(error),
        };
        self.items_from(alloc, first)
    }
}
