// What words do outside definitions that read a name, or that say where data space begins.
ghost use Rattle.std.specs.Prelude.{◌≡◌, ◌<◌, ◌≤◌, ◌+◌, length, OnOk, IfErr};
ghost use Rattle.forth_reader.specs.Name.{IsName};
ghost use Rattle.control_flow.specs.OutsideWords.{with_name, constant_at, variable_at, create_at, child_of, child_at, outside_tick_at, outside_char_at, code_cells_at};
ghost use Rattle.control_flow.specs.ReadingState.{BeginsWith};
ghost use Rattle.control_flow.specs.Answers.{parser_state, IsReadyParser, AnswersAs};

use crate::parser::Parser;
use crate::refusal::{SourceError, host_cause, refused};
use crate::single_items::first_byte;
use crate::ticks::tick_weight;
use host_state::{Entry, HostError, HostItem, Known, host_words_keep};
use std::alloc::Global;

/// What a defining word names: a child of the part behind its `DOES>`, or without one an address.
fn child_of(part: Option<u16>, address: u16) -> Known
    ensures { result ≡ child_of part address }
{
    match part {
        Some(part) => Known::Child(part, address),
        None => Known::Address(address),
    }
}

impl<'a> Parser<'a> {
    /// A name that is found from here on.
    pub(crate) fn enter(&mut self, name: &str, known: Known) -> Result<(), SourceError>
        requires form { IsName name.now }
        requires ready { IsReadyParser self.old }
        requires room { length self.old.dictionary.pairs < 512 }
        ensures done { OnOk result (parser_state self.new ≡ with_name name.now known (parser_state self.old)) }
        ensures memory { IfErr result (λ error. error ≡ SourceError.OutOfMemory) }
        ensures ready { OnOk result (IsReadyParser self.new) }
        ensures longer { OnOk result (length self.new.dictionary.pairs ≡ length self.old.dictionary.pairs + 1) }
        ensures kept { (self.new.definitions ≡ self.old.definitions) × (self.new.reader ≡ self.old.reader) }
        ensures entries { BeginsWith self.old.dictionary.pairs self.new.dictionary.pairs }
    {
        let number = self.dictionary.len() as u16;
        match self.dictionary.add(name, Entry { number, known }) {
            Ok(_) => Ok(()),
            Err(_) => Err(SourceError::OutOfMemory),
        }
    }

    /// `CONSTANT` takes its cell before it reads the name.
    pub(crate) fn constant(&mut self) -> Result<(), SourceError>
        requires { IsReadyParser self.old }
        ensures gives { AnswersAs (λ _. parser_state self.new) result (constant_at (parser_state self.old)) }
        ensures shorter { OnOk result (length self.new.reader.rest ≤ length self.old.reader.rest) }
        ensures ready { OnOk result (IsReadyParser self.new) }
        ensures kept { OnOk result ((self.new.definitions ≡ self.old.definitions) × (length self.old.dictionary.pairs ≤ length self.new.dictionary.pairs)) }
        ensures entries { BeginsWith self.old.dictionary.pairs self.new.dictionary.pairs }
    {
        let cell = match self.host.pop() {
            Ok(cell) => cell,
            Err(HostError::Refused(cause)) => return self.refuse(host_cause(cause)),
            Err(HostError::OutOfMemory) => return Err(SourceError::OutOfMemory),
        };
        let name = self.name()?;
        self.enter(name, Known::Constant(cell))
    }

    /// `VARIABLE` and the name that it reads.
    pub(crate) fn variable(&mut self) -> Result<(), SourceError>
        requires { IsReadyParser self.old }
        ensures gives { AnswersAs (λ _. parser_state self.new) result (variable_at (parser_state self.old)) }
        ensures shorter { OnOk result (length self.new.reader.rest ≤ length self.old.reader.rest) }
        ensures ready { OnOk result (IsReadyParser self.new) }
        ensures kept { OnOk result ((self.new.definitions ≡ self.old.definitions) × (length self.old.dictionary.pairs ≤ length self.new.dictionary.pairs)) }
        ensures entries { BeginsWith self.old.dictionary.pairs self.new.dictionary.pairs }
    {
        let number = self.reader.count();
        let name = self.name()?;
        let address = match self.host.new_variable() {
            Ok(address) => address,
            Err(HostError::Refused(cause)) => return refused(number, host_cause(cause)),
            Err(HostError::OutOfMemory) => return Err(SourceError::OutOfMemory),
        };
        self.enter(name, Known::Address(address))
    }

    /// `CREATE` and the name that it reads.
    pub(crate) fn create(&mut self) -> Result<(), SourceError>
        requires { IsReadyParser self.old }
        ensures gives { AnswersAs (λ _. parser_state self.new) result (create_at (parser_state self.old)) }
        ensures shorter { OnOk result (length self.new.reader.rest ≤ length self.old.reader.rest) }
        ensures ready { OnOk result (IsReadyParser self.new) }
        ensures kept { OnOk result ((self.new.definitions ≡ self.old.definitions) × (length self.old.dictionary.pairs ≤ length self.new.dictionary.pairs)) }
        ensures entries { BeginsWith self.old.dictionary.pairs self.new.dictionary.pairs }
    {
        let number = self.reader.count();
        let name = self.name()?;
        let address = match self.host.new_address() {
            Ok(address) => address,
            Err(HostError::Refused(cause)) => return refused(number, host_cause(cause)),
            Err(HostError::OutOfMemory) => return Err(SourceError::OutOfMemory),
        };
        self.enter(name, Known::Address(address))
    }

    /// A defining word, by its host part and the part behind its `DOES>`, and the name that it reads.
    pub(crate) fn child(&mut self, items: &[HostItem], part: Option<u16>) -> Result<(), SourceError>
        requires { IsReadyParser self.old }
        ensures gives { AnswersAs (λ _. parser_state self.new) result (child_at (record { items = items.now; part = part }) (parser_state self.old)) }
        ensures shorter { OnOk result (length self.new.reader.rest ≤ length self.old.reader.rest) }
        ensures ready { OnOk result (IsReadyParser self.new) }
        ensures kept { OnOk result ((self.new.definitions ≡ self.old.definitions) × (length self.old.dictionary.pairs ≤ length self.new.dictionary.pairs)) }
        ensures entries { BeginsWith self.old.dictionary.pairs self.new.dictionary.pairs }
    {
        let number = self.reader.count();
        let name = self.name()?;
        let address = match self.host.new_child(items) {
            Ok(address) => address,
            Err(HostError::Refused(cause)) => return refused(number, host_cause(cause)),
            Err(HostError::OutOfMemory) => return Err(SourceError::OutOfMemory),
        };
        self.enter(name, child_of(part, address))
    }

    /// `'` and the name that it reads: the execution token is put on the host stack.
    pub(crate) fn tick(&mut self) -> Result<(), SourceError>
        requires { IsReadyParser self.old }
        ensures gives { AnswersAs (λ _. parser_state self.new) result (outside_tick_at (parser_state self.old)) }
        ensures shorter { OnOk result (length self.new.reader.rest ≤ length self.old.reader.rest) }
        ensures ready { OnOk result (IsReadyParser self.new) }
        ensures kept { OnOk result ((self.new.definitions ≡ self.old.definitions) × (length self.old.dictionary.pairs ≤ length self.new.dictionary.pairs)) }
        ensures entries { self.new.dictionary.pairs ≡ self.old.dictionary.pairs }
    {
        let number = self.reader.count();
        let name = self.spelled()?;
        let ticked = match self.ticked(name) {
            Ok(ticked) => ticked,
            Err(cause) => return self.refuse(cause),
        };
        let (token, is_first) = match self.host.tick(ticked) {
            Ok(token) => token,
            Err(HostError::Refused(cause)) => return refused(number, host_cause(cause)),
            Err(HostError::OutOfMemory) => return Err(SourceError::OutOfMemory),
        };
        match self.host.push(token) {
            Ok(()) => {}
            Err(HostError::Refused(cause)) => return refused(number, host_cause(cause)),
            Err(HostError::OutOfMemory) => return Err(SourceError::OutOfMemory),
        }
        self.weigh_as(number, tick_weight(ticked, is_first) - 2)
    }

    /// `CHAR` and the name that it reads: its first byte is put on the host stack.
    pub(crate) fn char(&mut self) -> Result<(), SourceError>
        requires { IsReadyParser self.old }
        ensures gives { AnswersAs (λ _. parser_state self.new) result (outside_char_at (parser_state self.old)) }
        ensures shorter { OnOk result (length self.new.reader.rest ≤ length self.old.reader.rest) }
        ensures ready { OnOk result (IsReadyParser self.new) }
        ensures kept { OnOk result ((self.new.definitions ≡ self.old.definitions) × (length self.old.dictionary.pairs ≤ length self.new.dictionary.pairs)) }
        ensures entries { self.new.dictionary.pairs ≡ self.old.dictionary.pairs }
    {
        let number = self.reader.count();
        let name = self.spelled()?;
        match self.host.push(first_byte(name)) {
            Ok(()) => Ok(()),
            Err(HostError::Refused(cause)) => refused(number, host_cause(cause)),
            Err(HostError::OutOfMemory) => Err(SourceError::OutOfMemory),
        }
    }

    /// `CODE-CELLS`: where data space begins.
    pub(crate) fn split(&mut self, alloc: Global, is_due: bool) -> Result<(), SourceError>
        requires { IsReadyParser self.old }
        ensures gives { AnswersAs (λ _. parser_state self.new) result (code_cells_at is_due (parser_state self.old)) }
        ensures shorter { OnOk result (length self.new.reader.rest ≤ length self.old.reader.rest) }
        ensures ready { OnOk result (IsReadyParser self.new) }
        ensures kept { OnOk result ((self.new.definitions ≡ self.old.definitions) × (length self.old.dictionary.pairs ≤ length self.new.dictionary.pairs)) }
        ensures entries { self.new.dictionary.pairs ≡ self.old.dictionary.pairs }
    {
        host_words_keep();
        match self.host.code_cells(alloc, is_due) {
            Ok(()) => Ok(()),
            Err(HostError::Refused(cause)) => self.refuse(host_cause(cause)),
            Err(HostError::OutOfMemory) => Err(SourceError::OutOfMemory),
        }
    }
}
