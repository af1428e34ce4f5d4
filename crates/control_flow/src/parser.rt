// A place in a source, its tokens and their weights.
ghost use Rattle.std.specs.Prelude.{◌≡◌, ◌<◌, ◌≤◌, length, Some, OnOk, IfOk};
ghost use Rattle.forth_reader.specs.Name.{IsName};
ghost use Rattle.control_flow.specs.ParseResult.{weighed_as, weighed};
ghost use Rattle.control_flow.specs.Sense.{sense_in};
ghost use Rattle.control_flow.specs.HostSense.{host_sense_in};
ghost use Rattle.control_flow.specs.ReadTokens.{base_at, token_at, host_token_at, spelled_at, quotation_at};
ghost use Rattle.control_flow.specs.Items.{opened_at, ended_at};
ghost use Rattle.control_flow.specs.OutsideSense.{outside_sense_in};
ghost use Rattle.control_flow.specs.OutsideWords.{name_at};
ghost use Rattle.control_flow.specs.SourceText.{outside_at};
ghost use Rattle.control_flow.specs.Answers.{parser_state, IsReadyParser, AnswersAs};

use crate::host_sense::{HostSense, host_sense_of, known_host_sense};
use crate::nest::{Ending, Nest, Opening, ending_word, open_of, opening_word};
use crate::outside_sense::{OutsideSense, known_outside_sense, outside_sense_of};
use crate::piece_reader::PieceReader;
use crate::refusal::{SourceCause, SourceError, refused, source_cause};
use crate::sense::{Sense, is_reserved_name, known_sense, sense_of};
use dictionary_core::Dictionary;
use host_state::{Entry, HostState};
use word_table::{Vocabulary, entry};

/// A place in a source, and what the source has come to.
#[derive(Drop)]
pub(crate) struct Parser<'a> {
    pub(crate) reader: PieceReader<'a>,
    /// The sum of the weights so far.
    pub(crate) weight: u32,
    /// The open structures of the definition that is read.
    pub(crate) nest: Nest,
    /// The names that are defined, with what they stand for.
    pub(crate) dictionary: Dictionary<Entry>,
    /// The number of definitions.
    pub(crate) definitions: u16,
    /// What host words act on.
    pub(crate) host: HostState,
    /// Whether the part behind a `DOES>` is read.
    pub(crate) does: bool,
    /// The words that the text may use.
    pub(crate) words: Vocabulary,
}

impl<'a> Parser<'a> {
    /// Adds the weight of a token. CodeFull comes where the sum then passes the limit: the cells in front of data space, without
    /// 1,696.
    pub(crate) fn weigh_as(&mut self, number: u32, weight: u16) -> Result<(), SourceError>
        requires { IsReadyParser self.old }
        ensures gives { AnswersAs (λ _. parser_state self.new) result (weighed_as number weight (parser_state self.old)) }
        ensures same { length self.new.reader.rest ≡ length self.old.reader.rest }
        ensures ready { OnOk result (IsReadyParser self.new) }
        ensures entries { self.new.dictionary.pairs ≡ self.old.dictionary.pairs }
    {
        let most = u32::from(self.host.data_start() / 2 - 1696);
        if self.weight + u32::from(weight) > most {
            return refused(number, SourceCause::CodeFull);
        }
        self.weight += u32::from(weight);
        Ok(())
    }

    /// Adds the weight of the last token.
    fn weigh(&mut self, weight: u16) -> Result<(), SourceError>
        requires { IsReadyParser self.old }
        ensures gives { AnswersAs (λ _. parser_state self.new) result (weighed weight (parser_state self.old)) }
        ensures same { length self.new.reader.rest ≡ length self.old.reader.rest }
        ensures ready { OnOk result (IsReadyParser self.new) }
        ensures entries { self.new.dictionary.pairs ≡ self.old.dictionary.pairs }
    {
        let number = self.reader.count();
        self.weigh_as(number, weight)
    }

    /// A structure opens.
    pub(crate) fn open(&mut self, opening: Opening) -> Result<(), SourceError>
        requires { IsReadyParser self.old }
        ensures gives { AnswersAs (λ _. parser_state self.new) result (opened_at opening (parser_state self.old)) }
        ensures same { length self.new.reader.rest ≡ length self.old.reader.rest }
        ensures ready { OnOk result (IsReadyParser self.new) }
        ensures entries { self.new.dictionary.pairs ≡ self.old.dictionary.pairs }
    {
        match self.nest.open(open_of(opening)) {
            Ok(()) => self.weigh(entry(opening_word(opening)).weight),
            Err(cause) => self.refuse(cause),
        }
    }

    /// A word ends a list of items.
    pub(crate) fn end(&mut self, ending: Ending) -> Result<(), SourceError>
        requires { IsReadyParser self.old }
        ensures gives { AnswersAs (λ _. parser_state self.new) result (ended_at ending (parser_state self.old)) }
        ensures same { length self.new.reader.rest ≡ length self.old.reader.rest }
        ensures ready { OnOk result (IsReadyParser self.new) }
        ensures entries { self.new.dictionary.pairs ≡ self.old.dictionary.pairs }
    {
        match self.nest.end(ending) {
            Ok(()) => self.weigh(entry(ending_word(ending)).weight),
            Err(cause) => self.refuse(cause),
        }
    }

    /// What a token stands for: first a name that is defined.
    fn sense(&mut self, token: &str) -> Sense
        ensures value { result ≡ sense_in self.old.words self.old.dictionary.pairs (base_at (parser_state self.old)) token.now }
        ensures same { parser_state self.new ≡ parser_state self.old }
        ensures entries { self.new.dictionary.pairs ≡ self.old.dictionary.pairs }
        ensures reader { self.new.reader ≡ self.old.reader }
        ensures weight { self.new.weight ≡ self.old.weight }
    {
        match self.dictionary.look_up(token) {
            Some(entry) => known_sense(entry.known),
            None => sense_of(self.words, token, self.host.base()),
        }
    }

    /// What a token stands for in brackets.
    fn host_sense(&mut self, token: &str) -> HostSense
        ensures value { result ≡ host_sense_in self.old.words self.old.dictionary.pairs (base_at (parser_state self.old)) token.now }
        ensures same { parser_state self.new ≡ parser_state self.old }
        ensures entries { self.new.dictionary.pairs ≡ self.old.dictionary.pairs }
        ensures reader { self.new.reader ≡ self.old.reader }
        ensures weight { self.new.weight ≡ self.old.weight }
    {
        match self.dictionary.look_up(token) {
            Some(entry) => known_host_sense(entry.known),
            None => host_sense_of(self.words, token, self.host.base()),
        }
    }

    /// What a token stands for outside definitions.
    fn outside_sense(&mut self, token: &str) -> OutsideSense
        ensures value { result ≡ outside_sense_in self.old.words self.old.dictionary.pairs (base_at (parser_state self.old)) token.now }
        ensures same { parser_state self.new ≡ parser_state self.old }
        ensures entries { self.new.dictionary.pairs ≡ self.old.dictionary.pairs }
        ensures reader { self.new.reader ≡ self.old.reader }
        ensures weight { self.new.weight ≡ self.old.weight }
    {
        match self.dictionary.look_up(token) {
            Some(entry) => known_outside_sense(entry.known),
            None => outside_sense_of(self.words, token, self.host.base()),
        }
    }

    /// The next token of a definition, by what it stands for.
    pub(crate) fn token(&mut self) -> Result<Sense, SourceError>
        requires { IsReadyParser self.old }
        ensures gives { AnswersAs (λ sense. record { sense = sense; at = parser_state self.new }) result (token_at (parser_state self.old)) }
        ensures shorter { OnOk result (length self.new.reader.rest < length self.old.reader.rest) }
        ensures ready { OnOk result (IsReadyParser self.new) }
        ensures entries { self.new.dictionary.pairs ≡ self.old.dictionary.pairs }
    {
        match self.reader.next() {
            Err(refusal) => refused(refusal.token, source_cause(refusal.cause)),
            Ok(None) => refused(self.reader.count() + 1, SourceCause::OpenDefinition),
            Ok(Some(token)) => Ok(self.sense(token.text)),
        }
    }

    /// The next token in brackets, by what it stands for there.
    pub(crate) fn host_token(&mut self) -> Result<HostSense, SourceError>
        requires { IsReadyParser self.old }
        ensures gives { AnswersAs (λ sense. record { sense = sense; at = parser_state self.new }) result (host_token_at (parser_state self.old)) }
        ensures shorter { OnOk result (length self.new.reader.rest < length self.old.reader.rest) }
        ensures ready { OnOk result (IsReadyParser self.new) }
        ensures entries { self.new.dictionary.pairs ≡ self.old.dictionary.pairs }
    {
        match self.reader.next() {
            Err(refusal) => refused(refusal.token, source_cause(refusal.cause)),
            Ok(None) => refused(self.reader.count() + 1, SourceCause::OpenDefinition),
            Ok(Some(token)) => Ok(self.host_sense(token.text)),
        }
    }

    /// The text of the string word that was read last.
    pub(crate) fn quotation(&mut self) -> Result<&'a str, SourceError>
        requires { IsReadyParser self.old }
        ensures gives { AnswersAs (λ text. record { text = text.now; at = parser_state self.new }) result (quotation_at (parser_state self.old)) }
        ensures shorter { OnOk result (length self.new.reader.rest ≤ length self.old.reader.rest) }
        ensures ready { OnOk result (IsReadyParser self.new) }
        ensures entries { self.new.dictionary.pairs ≡ self.old.dictionary.pairs }
    {
        match self.reader.string() {
            Ok(text) => Ok(text),
            Err(refusal) => refused(refusal.token, source_cause(refusal.cause)),
        }
    }

    /// The token just read is refused.
    pub(crate) fn refuse<T>(&self, cause: SourceCause) -> Result<T, SourceError>
        ensures { result ≡ Err (SourceError.Refused (record { token = self.now.reader.count; cause = cause })) }
    {
        refused(self.reader.count(), cause)
    }

    /// A token read as a name.
    pub(crate) fn spelled(&mut self) -> Result<&'a str, SourceError>
        requires { IsReadyParser self.old }
        ensures gives { AnswersAs (λ name. record { name = name.now; at = parser_state self.new }) result (spelled_at (parser_state self.old)) }
        ensures form { IfOk result (λ name. IsName name.now) }
        ensures shorter { OnOk result (length self.new.reader.rest < length self.old.reader.rest) }
        ensures ready { OnOk result (IsReadyParser self.new) }
        ensures kept { (self.new.dictionary ≡ self.old.dictionary) × (self.new.definitions ≡ self.old.definitions) }
    {
        match self.reader.name() {
            Err(refusal) => refused(refusal.token, source_cause(refusal.cause)),
            Ok(None) => refused(self.reader.count() + 1, SourceCause::NeedsName),
            Ok(Some(token)) => Ok(token.text),
        }
    }

    /// The next token outside definitions, by what it stands for, or none at the end of the text.
    pub(crate) fn outside(&mut self) -> Result<Option<OutsideSense>, SourceError>
        requires { IsReadyParser self.old }
        ensures gives { AnswersAs (λ sense. record { sense = sense; at = parser_state self.new }) result (outside_at (parser_state self.old)) }
        ensures shorter { IfOk result (λ sense. (s : OutsideSense) → sense ≡ Some s → length self.new.reader.rest < length self.old.reader.rest) }
        ensures ready { OnOk result (IsReadyParser self.new) }
        ensures kept { (self.new.dictionary.pairs ≡ self.old.dictionary.pairs) × (self.new.definitions ≡ self.old.definitions) }
    {
        match self.reader.next() {
            Err(refusal) => refused(refusal.token, source_cause(refusal.cause)),
            Ok(None) => Ok(None),
            Ok(Some(token)) => Ok(Some(self.outside_sense(token.text))),
        }
    }

    /// The name behind `:` or behind another word that defines it.
    pub(crate) fn name(&mut self) -> Result<&'a str, SourceError>
        requires { IsReadyParser self.old }
        ensures gives { AnswersAs (λ name. record { name = name.now; at = parser_state self.new }) result (name_at (parser_state self.old)) }
        ensures form { IfOk result (λ name. IsName name.now) }
        ensures room { OnOk result (length self.new.dictionary.pairs < 512) }
        ensures shorter { OnOk result (length self.new.reader.rest < length self.old.reader.rest) }
        ensures ready { OnOk result (IsReadyParser self.new) }
        ensures kept { (self.new.dictionary ≡ self.old.dictionary) × (self.new.definitions ≡ self.old.definitions) }
    {
        let name = self.spelled()?;
        if is_reserved_name(name) {
            self.refuse(SourceCause::NeedsName)
        } else if self.dictionary.len() >= 512 {
            self.refuse(SourceCause::TooManyWords)
        } else {
            Ok(name)
        }
    }
}
