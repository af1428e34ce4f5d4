// Items that are no structures.
ghost use Rattle.std.specs.Prelude.{◌≡◌, ◌≤◌, length, OnOk};
ghost use Rattle.forth_program.specs.ItemTrees.{node_of};
ghost use Rattle.forth_reader.specs.Name.{IsName};
ghost use Rattle.control_flow.specs.ReadTokens.{first_byte};
ghost use Rattle.control_flow.specs.Items.{alone_as, alone, char_at, quoting_word, text_at, tick_at, literal_at};
ghost use Rattle.control_flow.specs.Ticks.{ticked_in};
ghost use Rattle.control_flow.specs.Answers.{parser_state, IsReadyParser, AnswersAs};

use crate::parser::Parser;
use crate::refusal::{SourceCause, SourceError, host_cause, refused};
use crate::ticks::{entry_ticked, tick_weight, word_ticked};
use forth_program::{Item, TextKind};
use host_state::{HostError, Ticked};
use word_table::{Word, entry};

/// The byte with which a name begins.
pub(crate) fn first_byte(name: &str) -> u16
    requires { IsName name.now }
    ensures { result ≡ first_byte name.now }
{
    u16::from(name.as_bytes()[0])
}

/// The word of a text.
fn quoting_word(kind: TextKind) -> Word
    ensures { result ≡ quoting_word kind }
{
    match kind {
        TextKind::Address => Word::SQuote,
        TextKind::Print => Word::DotQuote,
        TextKind::Abort => Word::AbortQuote,
    }
}

impl<'a> Parser<'a> {
    /// An item that ends here, with the weight of a token.
    pub(crate) fn alone_as(
        &mut self,
        number: u32,
        weight: u16,
        item: Item,
    ) -> Result<Item, SourceError>
        requires { IsReadyParser self.old }
        ensures gives { AnswersAs (λ item. record { node = node_of item; at = parser_state self.new }) result (alone_as number weight (node_of item) (parser_state self.old)) }
        ensures same { length self.new.reader.rest ≡ length self.old.reader.rest }
        ensures ready { OnOk result (IsReadyParser self.new) }
        ensures entries { self.new.dictionary.pairs ≡ self.old.dictionary.pairs }
    {
        match self.weigh_as(number, weight) {
            Ok(()) => Ok(item),
            Err(error) => Err(error),
        }
    }

    /// An item that is one token, with its weight.
    pub(crate) fn alone(&mut self, weight: u16, item: Item) -> Result<Item, SourceError>
        requires { IsReadyParser self.old }
        ensures gives { AnswersAs (λ item. record { node = node_of item; at = parser_state self.new }) result (alone weight (node_of item) (parser_state self.old)) }
        ensures same { length self.new.reader.rest ≡ length self.old.reader.rest }
        ensures ready { OnOk result (IsReadyParser self.new) }
        ensures entries { self.new.dictionary.pairs ≡ self.old.dictionary.pairs }
    {
        let number = self.reader.count();
        self.alone_as(number, weight, item)
    }

    /// `[CHAR]` and the name that it reads.
    pub(crate) fn char_item(&mut self) -> Result<Item, SourceError>
        requires { IsReadyParser self.old }
        ensures gives { AnswersAs (λ item. record { node = node_of item; at = parser_state self.new }) result (char_at (parser_state self.old)) }
        ensures shorter { OnOk result (length self.new.reader.rest ≤ length self.old.reader.rest) }
        ensures ready { OnOk result (IsReadyParser self.new) }
        ensures entries { self.new.dictionary.pairs ≡ self.old.dictionary.pairs }
    {
        let number = self.reader.count();
        let name = self.spelled()?;
        let byte = first_byte(name);
        self.alone_as(number, entry(Word::BracketChar).weight, Item::Literal(byte))
    }

    /// A string word: its text is laid at HERE.
    pub(crate) fn text_item(&mut self, kind: TextKind) -> Result<Item, SourceError>
        requires { IsReadyParser self.old }
        ensures gives { AnswersAs (λ item. record { node = node_of item; at = parser_state self.new }) result (text_at kind (parser_state self.old)) }
        ensures shorter { OnOk result (length self.new.reader.rest ≤ length self.old.reader.rest) }
        ensures ready { OnOk result (IsReadyParser self.new) }
        ensures entries { self.new.dictionary.pairs ≡ self.old.dictionary.pairs }
    {
        let text = self.quotation()?;
        let address = match self.host.text(text) {
            Ok(address) => address,
            Err(HostError::Refused(cause)) => {
                return self.refuse(host_cause(cause));
            }
            Err(HostError::OutOfMemory) => return Err(SourceError::OutOfMemory),
        };
        self.alone(
            entry(quoting_word(kind)).weight,
            Item::Text(kind, address, text.len() as u16),
        )
    }

    /// What the name stands for that is ticked.
    pub(crate) fn ticked(&mut self, name: &str) -> Result<Ticked, SourceCause>
        ensures value { result ≡ ticked_in self.old.words self.old.dictionary.pairs name.now }
        ensures same { parser_state self.new ≡ parser_state self.old }
        ensures entries { self.new.dictionary.pairs ≡ self.old.dictionary.pairs }
        ensures reader { self.new.reader ≡ self.old.reader }
        ensures weight { self.new.weight ≡ self.old.weight }
    {
        match self.dictionary.look_up(name) {
            Some(entry) => entry_ticked(entry),
            None => word_ticked(self.words, name),
        }
    }

    /// `[']` and the name that it reads.
    pub(crate) fn tick_item(&mut self) -> Result<Item, SourceError>
        requires { IsReadyParser self.old }
        ensures gives { AnswersAs (λ item. record { node = node_of item; at = parser_state self.new }) result (tick_at (parser_state self.old)) }
        ensures shorter { OnOk result (length self.new.reader.rest ≤ length self.old.reader.rest) }
        ensures ready { OnOk result (IsReadyParser self.new) }
        ensures entries { self.new.dictionary.pairs ≡ self.old.dictionary.pairs }
    {
        let number = self.reader.count();
        let name = self.spelled()?;
        let ticked = match self.ticked(name) {
            Ok(ticked) => ticked,
            Err(cause) => return self.refuse(cause),
        };
        let (token, is_first) = match self.host.tick(ticked) {
            Ok(token) => token,
            Err(HostError::Refused(cause)) => return refused(number, host_cause(cause)),
            Err(HostError::OutOfMemory) => return Err(SourceError::OutOfMemory),
        };
        self.alone_as(number, tick_weight(ticked, is_first), Item::Literal(token))
    }

    /// `LITERAL` takes a cell from the host stack.
    pub(crate) fn literal_item(&mut self) -> Result<Item, SourceError>
        requires { IsReadyParser self.old }
        ensures gives { AnswersAs (λ item. record { node = node_of item; at = parser_state self.new }) result (literal_at (parser_state self.old)) }
        ensures same { length self.new.reader.rest ≡ length self.old.reader.rest }
        ensures ready { OnOk result (IsReadyParser self.new) }
        ensures entries { self.new.dictionary.pairs ≡ self.old.dictionary.pairs }
    {
        match self.host.pop() {
            Ok(cell) => self.alone(entry(Word::Literal).weight, Item::Literal(cell)),
            Err(HostError::Refused(cause)) => self.refuse(host_cause(cause)),
            Err(HostError::OutOfMemory) => Err(SourceError::OutOfMemory),
        }
    }
}
