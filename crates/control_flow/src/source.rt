// Reading a whole source.
ghost use Rattle.std.specs.Prelude.{◌≡◌, ℕ, ◌+◌, ◌<◌, ◌≤◌, length, map, IfOk, IfErr, OnOk};
ghost use Rattle.forth_program.specs.Form.{IsProgram};
ghost use Rattle.forth_program.specs.ItemTrees.{tree_of};
ghost use Rattle.word_table.specs.declared.word.Vocabulary.TheVariants as vocabulary;
ghost use Rattle.forth_reader.specs.Name.{IsName};
ghost use Rattle.control_flow.specs.ParseResult.{Each};
ghost use Rattle.control_flow.specs.SourceText.{main_of, source_start, with_body, with_definition, with_defining, defining_at, definition_at, outside_by, at_once_at, program_of_source, program_in, program_of_text};
ghost use Rattle.control_flow.specs.Pieces.{read_at};
ghost use Rattle.control_flow.specs.ReadingState.{BeginsWith, Grows};
ghost use Rattle.control_flow.specs.Answers.{parser_state, source_of, defining_word_of, IsReadyParser, IsCounted, AnswersAs};

use crate::before::{Before, before_next, is_due};
use crate::nest::{Ending, Nest};
use crate::outside_sense::OutsideSense;
use crate::parser::Parser;
use crate::piece_reader::PieceReader;
use crate::refusal::{SourceCause, SourceError, refused};
use crate::sense::is_create;
use crate::ticks::program_tokens;
use dictionary_core::Dictionary;
use forth_program::{DefId, Items, Name, Program, ProgramParts};
use host_state::{Entry, HostItem, HostState, Known, host_words_keep};
use std::alloc::{AllocError, Global};
use word_table::Vocabulary;

/// What is read of a source so far.
#[derive(Drop)]
pub(crate) struct ReadSource<'a> {
    pub(crate) parser: Parser<'a>,
    /// The name of each definition.
    pub(crate) names: Vec<Name>,
    /// The items of each definition, in the same order.
    pub(crate) bodies: Vec<Items>,
    /// The defining words.
    pub(crate) defining: Vec<DefiningWord>,
    /// What stands before the next token outside definitions.
    pub(crate) before: Before,
}

/// A defining word: its host part, and the definition behind its `DOES>` where it has one.
#[derive(Drop)]
pub(crate) struct DefiningWord {
    pub(crate) items: Vec<HostItem>,
    pub(crate) part: Option<u16>,
}

/// The definition that a name stands for.
fn main_of(entry: Option<Entry>) -> Option<u16>
    ensures { result ≡ main_of entry }
{
    match entry {
        None => None,
        Some(entry) => match entry.known {
            Known::Definition(main) => Some(main),
            _ => None,
        },
    }
}

/// What a token does at once outside definitions, with the defining words that are there.
fn at_once<'a>(
    parser: &mut Parser<'a>,
    alloc: Global,
    sense: OutsideSense,
    defining: &[DefiningWord],
    is_due: bool,
) -> Result<(), SourceError>
    requires { IsReadyParser parser.old }
    ensures gives { AnswersAs (λ _. parser_state parser.new) result (at_once_at (map defining_word_of defining.now) is_due sense (parser_state parser.old)) }
    ensures shorter { OnOk result (length parser.new.reader.rest ≤ length parser.old.reader.rest) }
    ensures ready { OnOk result (IsReadyParser parser.new) }
    ensures kept { OnOk result ((parser.new.definitions ≡ parser.old.definitions) × (length parser.old.dictionary.pairs ≤ length parser.new.dictionary.pairs)) }
    ensures entries { BeginsWith parser.old.dictionary.pairs parser.new.dictionary.pairs }
{
    match sense {
        OutsideSense::Begins => parser.refuse(SourceCause::OnlyInDefinition),
        OutsideSense::Acts(item) => parser.act(item),
        OutsideSense::NamesConstant => parser.constant(),
        OutsideSense::NamesVariable => parser.variable(),
        OutsideSense::NamesAddress => parser.create(),
        OutsideSense::NamesChild(number) => match defining.get(usize::from(number)) {
            Some(word) => parser.child(word.items.as_slice(), word.part),
            None => parser.refuse(SourceCause::OnlyInDefinition),
        },
        OutsideSense::Ticks => parser.tick(),
        OutsideSense::Spells => parser.char(),
        OutsideSense::Splits => parser.split(alloc, is_due),
        OutsideSense::Quoted => Err(parser.quoted(SourceCause::OnlyInDefinition)),
        OutsideSense::OutOfRange => parser.refuse(SourceCause::NumberRange),
        OutsideSense::Unknown => parser.refuse(SourceCause::UnknownWord),
        OutsideSense::Forbidden => parser.refuse(SourceCause::OnlyInDefinition),
    }
}

impl<'a> ReadSource<'a> {
    /// A source at its start.
    pub(crate) fn new(
        alloc: Global,
        words: Vocabulary,
        bytes: &'a [u8],
    ) -> Result<ReadSource<'a>, AllocError>
        requires { length bytes.now < 4294967295 }
        ensures start { IfOk result (λ source. source_of source ≡ source_start words bytes.now) }
        ensures ready { IfOk result (λ source. IsReadyParser source.parser) }
        ensures counted { IfOk result (λ source. IsCounted source) }
    {
        let dictionary = Dictionary::new(alloc)?;
        let host = HostState::new(alloc, 8192)?;
        Ok(ReadSource {
            parser: Parser {
                reader: PieceReader::new(bytes, 0),
                weight: 0,
                nest: Nest::new(),
                dictionary,
                definitions: 0,
                host,
                does: false,
                words,
            },
            names: Vec::new(alloc),
            bodies: Vec::new(alloc),
            defining: Vec::new(alloc),
            before: Before::Nothing,
        })
    }

    /// A body more, with its name.
    fn keep(&mut self, name: &str, items: Items) -> Result<(), SourceError>
        requires form { IsName name.now }
        requires counted { IsCounted self.old }
        requires due { self.old.parser.definitions < length self.old.parser.dictionary.pairs }
        requires few { length self.old.parser.dictionary.pairs ≤ 512 }
        ensures done { OnOk result (source_of self.new ≡ with_body (source_of self.old) name.now (tree_of items) (parser_state self.old.parser)) }
        ensures memory { IfErr result (λ error. error ≡ SourceError.OutOfMemory) }
        ensures kept { OnOk result (self.new.parser ≡ record self.old.parser { definitions = self.old.parser.definitions + 1 }) }
        ensures counted { OnOk result (IsCounted self.new) }
        ensures grows { Grows self.old self.new }
    {
        let kept = match Name::new(name) {
            Some(kept) => kept,
            None => unreachable!(),
        };
        match self.names.push(kept) {
            Ok(()) => {}
            Err(_) => return Err(SourceError::OutOfMemory),
        }
        match self.bodies.push(items) {
            Ok(()) => {}
            Err(_) => return Err(SourceError::OutOfMemory),
        }
        self.parser.definitions += 1;
        Ok(())
    }

    /// A definition that was read, whose name is found from here on.
    fn define(&mut self, name: &str, items: Items) -> Result<(), SourceError>
        requires form { IsName name.now }
        requires ready { IsReadyParser self.old.parser }
        requires counted { IsCounted self.old }
        requires room { length self.old.parser.dictionary.pairs < 512 }
        ensures done { OnOk result (source_of self.new ≡ with_definition (source_of self.old) name.now (tree_of items) (parser_state self.old.parser)) }
        ensures memory { IfErr result (λ error. error ≡ SourceError.OutOfMemory) }
        ensures same { OnOk result (length self.new.parser.reader.rest ≡ length self.old.parser.reader.rest) }
        ensures ready { OnOk result (IsReadyParser self.new.parser) }
        ensures counted { OnOk result (IsCounted self.new) }
        ensures grows { Grows self.old self.new }
    {
        let definition = self.parser.definitions;
        self.parser.enter(name, Known::Definition(definition))?;
        self.before = Before::More;
        self.keep(name, items)
    }

    /// A defining word that was read, whose name is found from here on.
    fn define_defining(
        &mut self,
        name: &str,
        items: Vec<HostItem>,
        part: Option<u16>,
    ) -> Result<(), SourceError>
        requires form { IsName name.now }
        requires ready { IsReadyParser self.old.parser }
        requires counted { IsCounted self.old }
        requires room { length self.old.parser.dictionary.pairs < 512 }
        ensures done { OnOk result (source_of self.new ≡ with_defining (source_of self.old) name.now items.items part) }
        ensures memory { IfErr result (λ error. error ≡ SourceError.OutOfMemory) }
        ensures longer { OnOk result (length self.new.parser.dictionary.pairs ≡ length self.old.parser.dictionary.pairs + 1) }
        ensures kept { OnOk result (self.new.parser.definitions ≡ self.old.parser.definitions) }
        ensures same { OnOk result (length self.new.parser.reader.rest ≡ length self.old.parser.reader.rest) }
        ensures ready { OnOk result (IsReadyParser self.new.parser) }
        ensures counted { OnOk result (IsCounted self.new) }
        ensures grows { Grows self.old self.new }
    {
        let number = self.defining.len() as u16;
        self.parser.enter(name, Known::Defining(number))?;
        match self.defining.push(DefiningWord { items, part }) {
            Ok(()) => {}
            Err(_) => return Err(SourceError::OutOfMemory),
        }
        self.parser.does = false;
        self.before = Before::More;
        Ok(())
    }

    /// A defining word behind its CREATE.
    fn defining_word(&mut self, alloc: Global, name: &str) -> Result<(), SourceError>
        requires form { IsName name.now }
        requires ready { IsReadyParser self.old.parser }
        requires counted { IsCounted self.old }
        requires room { length self.old.parser.dictionary.pairs < 512 }
        ensures gives { (n : ℕ) → length self.old.parser.reader.rest < n → AnswersAs (λ _. source_of self.new) result (defining_at n (source_of self.old) name.now (parser_state self.old.parser)) }
        ensures shorter { OnOk result (length self.new.parser.reader.rest ≤ length self.old.parser.reader.rest) }
        ensures ready { OnOk result (IsReadyParser self.new.parser) }
        ensures counted { OnOk result (IsCounted self.new) }
        ensures grows { Grows self.old self.new }
    {
        host_words_keep();
        let part = self.parser.host_part(alloc)?;
        if !part.does {
            return self.define_defining(name, part.items, None);
        }
        self.parser.does = true;
        let body = self.parser.items(alloc)?;
        match body.ending {
            Ending::Semicolon => {
                let definition = self.parser.definitions;
                self.define_defining(name, part.items, Some(definition))?;
                self.keep(name, body.items)
            }
            _ => refused(self.parser.reader.count(), SourceCause::BadNest),
        }
    }

    /// A definition behind its `:`.
    fn definition(&mut self, alloc: Global) -> Result<(), SourceError>
        requires ready { IsReadyParser self.old.parser }
        requires counted { IsCounted self.old }
        ensures gives { (n : ℕ) → length self.old.parser.reader.rest < n → AnswersAs (λ _. source_of self.new) result (definition_at n (source_of self.old) (parser_state self.old.parser)) }
        ensures shorter { OnOk result (length self.new.parser.reader.rest ≤ length self.old.parser.reader.rest) }
        ensures ready { OnOk result (IsReadyParser self.new.parser) }
        ensures counted { OnOk result (IsCounted self.new) }
        ensures grows { Grows self.old self.new }
    {
        host_words_keep();
        let name = self.parser.name()?;
        let first = self.parser.token()?;
        if is_create(first) {
            return self.defining_word(alloc, name);
        }
        let body = self.parser.items_from(alloc, first)?;
        match body.ending {
            Ending::Semicolon => self.define(name, body.items),
            _ => refused(self.parser.reader.count(), SourceCause::BadNest),
        }
    }

    /// A definition, or what is done at once, by its first token.
    fn outside_word(&mut self, alloc: Global, sense: OutsideSense) -> Result<(), SourceError>
        requires ready { IsReadyParser self.old.parser }
        requires counted { IsCounted self.old }
        ensures gives { (n : ℕ) → length self.old.parser.reader.rest < n → AnswersAs (λ _. source_of self.new) result (outside_by n (source_of self.old) (parser_state self.old.parser) sense) }
        ensures shorter { OnOk result (length self.new.parser.reader.rest ≤ length self.old.parser.reader.rest) }
        ensures ready { OnOk result (IsReadyParser self.new.parser) }
        ensures counted { OnOk result (IsCounted self.new) }
        ensures grows { Grows self.old self.new }
    {
        if let OutsideSense::Begins = sense {
            return self.definition(alloc);
        }
        let is_due = is_due(self.before);
        match at_once(
            &mut self.parser,
            alloc,
            sense,
            self.defining.as_slice(),
            is_due,
        ) {
            Ok(()) => {}
            Err(error) => return Err(error),
        }
        self.before = before_next(self.before, sense);
        Ok(())
    }

    /// What stands up to the end of the text.
    pub(crate) fn read_on(&mut self, alloc: Global) -> Result<(), SourceError>
        requires ready { IsReadyParser self.old.parser }
        requires counted { IsCounted self.old }
        ensures gives { (n : ℕ) → length self.old.parser.reader.rest < n → AnswersAs (λ _. source_of self.new) result (read_at n (source_of self.old)) }
        ensures ready { OnOk result (IsReadyParser self.new.parser) }
        ensures counted { OnOk result (IsCounted self.new) }
        ensures grows { Grows self.old self.new }
    {
        'tokens: loop {
            let sense = match self.parser.outside() {
                Ok(Some(sense)) => sense,
                Ok(None) => return Ok(()),
                Err(error) => return Err(error),
            };
            match self.outside_word(alloc, sense) {
                Ok(()) => {}
                Err(error) => return Err(error),
            }
        }
    }

    /// The program, at the end of the text.
    pub(crate) fn program(self, alloc: Global) -> Result<Program, SourceError>
        requires counted { IsCounted self }
        requires form { Each IsProgram (program_of_source (source_of self) (parser_state self.parser)) }
        ensures { AnswersAs (λ program. program) result (program_of_source (source_of self.entry) (parser_state self.entry.parser)) }
    {
        let ReadSource {
            mut parser,
            names,
            bodies,
            ..
        } = self;
        let tokens = parser.reader.count();
        let Some(main) = main_of(parser.dictionary.look_up("MAIN")) else {
            return refused(tokens + 1, SourceCause::NoMain);
        };
        let ticked = match program_tokens(alloc, parser.host.tokens()) {
            Ok(ticked) => ticked,
            Err(AllocError) => return Err(SourceError::OutOfMemory),
        };
        let space = match parser.host.image(alloc) {
            Ok(space) => space,
            Err(AllocError) => return Err(SourceError::OutOfMemory),
        };
        match Program::new(
            alloc,
            ProgramParts {
                names,
                bodies,
                main: DefId(main),
                tokens: ticked,
                data_start: parser.host.data_start(),
                space,
                source_tokens: tokens,
            },
        ) {
            Ok(program) => Ok(program),
            Err(AllocError) => Err(SourceError::OutOfMemory),
        }
    }
}

/// The program of a source text, or its first refusal.
///
/// The text is read from its start, and the first token that is refused decides. A refusal at the
/// end of the text has the number of all tokens and one more.
pub fn read_program(alloc: Global, bytes: &[u8]) -> Result<Program, SourceError>
    requires { length bytes.now < 4294967295 }
    ensures { AnswersAs (λ program. program) result (program_of_text bytes.now) }
{
    read_in(alloc, Vocabulary::Source, bytes)
}

/// The program of a kernel text, which may use `GO` beside the words of a source, or its first refusal.
pub fn read_kernel(alloc: Global, bytes: &[u8]) -> Result<Program, SourceError>
    requires { length bytes.now < 4294967295 }
    ensures { AnswersAs (λ program. program) result (program_in vocabulary.Kernel bytes.now) }
{
    read_in(alloc, Vocabulary::Kernel, bytes)
}

/// The program of a text in a vocabulary, or its first refusal.
fn read_in(alloc: Global, words: Vocabulary, bytes: &[u8]) -> Result<Program, SourceError>
    requires { length bytes.now < 4294967295 }
    ensures { AnswersAs (λ program. program) result (program_in words bytes.now) }
{
    host_words_keep();
    let mut source = match ReadSource::new(alloc, words, bytes) {
        Ok(source) => source,
        Err(AllocError) => return Err(SourceError::OutOfMemory),
    };
    match source.read_on(alloc) {
        Ok(()) => source.program(alloc),
        Err(error) => Err(error),
    }
}
