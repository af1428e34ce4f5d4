// A source that comes in pieces.
ghost use Rattle.std.specs.Prelude.{◌≡◌, ℕ, ◌+◌, ◌<◌, ◌≤◌, [], length, take, map, true, None, IfOk, IfErr, OnOk, OnErr};
ghost use Rattle.forth_program.specs.ItemTrees.{tree_of};
ghost use Rattle.host_state.specs.HostMemory.{is_here_within};
ghost use Rattle.control_flow.specs.SourceText.{program_of_text};
ghost use Rattle.control_flow.specs.Answers.{parser_state, source_of, defining_word_of, IsReadyParser, IsCounted, AnswersAs};
ghost use Rattle.control_flow.specs.Pieces.{read_at, IsReadable, with_piece, CannotBeRead, LacksMain};
ghost use Rattle.control_flow.specs.ReadingState.{IsMark};

use crate::before::Before;
use crate::nest::Nest;
use crate::parser::Parser;
use crate::piece_reader::PieceReader;
use crate::refusal::SourceError;
use crate::source::ReadSource;
use dictionary_core::Mark;
use forth_program::Program;
use host_state::{HostState, host_words_keep};
use std::alloc::{AllocError, Global};
use std::marker::Model;
use word_table::Vocabulary;

/// What a source was before a piece.
#[derive(Drop)]
pub(crate) struct SourceMark {
    /// The number of tokens.
    count: u32,
    weight: u32,
    nest: Nest,
    /// What the dictionary is cut back to.
    entries: Mark,
    definitions: u16,
    host: HostState,
    does: bool,
    /// The words that the text may use.
    words: Vocabulary,
    /// How many names, bodies and defining words there were.
    names: usize,
    bodies: usize,
    defining: usize,
    before: Before,
}

impl<'a> ReadSource<'a> {
    /// What it is now.
    fn mark(&self, alloc: Global) -> Result<SourceMark, AllocError>
        ensures { IfOk result (λ mark. IsMark mark self.now) }
    {
        let nest = self.parser.nest.copy()?;
        let host = self.parser.host.copy(alloc)?;
        Ok(SourceMark {
            count: self.parser.reader.count(),
            weight: self.parser.weight,
            nest,
            entries: self.parser.dictionary.mark(),
            definitions: self.parser.definitions,
            host,
            does: self.parser.does,
            words: self.parser.words,
            names: self.names.len(),
            bodies: self.bodies.len(),
            defining: self.defining.len(),
            before: self.before,
        })
    }

    /// The same source, which is read on in a piece behind so many tokens.
    fn on<'b>(self, count: u32, bytes: &'b [u8]) -> ReadSource<'b>
        requires { count + length bytes.now < 4294967295 }
        ensures source { source_of result ≡ record (source_of self.entry) { at = record (parser_state self.entry.parser) { rest = bytes.now; count = count } } }
        ensures ready { IsReadyParser self.entry.parser → IsReadyParser result.parser }
        ensures names { result.names ≡ self.entry.names }
        ensures bodies { result.bodies ≡ self.entry.bodies }
        ensures defining { result.defining ≡ self.entry.defining }
        ensures entries { result.parser.dictionary.pairs ≡ self.entry.parser.dictionary.pairs }
        ensures definitions { result.parser.definitions ≡ self.entry.parser.definitions }
        ensures rest { result.parser.reader.rest ≡ bytes.now }
    {
        let ReadSource {
            parser,
            names,
            bodies,
            defining,
            before,
        } = self;
        let Parser {
            weight,
            nest,
            dictionary,
            definitions,
            host,
            does,
            words,
            ..
        } = parser;
        ReadSource {
            parser: Parser {
                reader: PieceReader::new(bytes, count),
                weight,
                nest,
                dictionary,
                definitions,
                host,
                does,
                words,
            },
            names,
            bodies,
            defining,
            before,
        }
    }

    /// The source as it was at a mark.
    fn back_to(self, mark: SourceMark) -> ReadSource<'static>
        requires entries { mark.entries.0 ≤ length self.parser.dictionary.pairs }
        requires count { mark.count < 4294967295 }
        ensures source { source_of result ≡ record {
          at = record { rest = []; count = mark.count; weight = mark.weight; nest = mark.nest; entries = take mark.entries.0 self.entry.parser.dictionary.pairs; definitions = mark.definitions; host = mark.host; does = mark.does; words = mark.words };
          names = take mark.names self.entry.names.items;
          bodies = map tree_of (take mark.bodies self.entry.bodies.items);
          defining = map defining_word_of (take mark.defining self.entry.defining.items);
          before = mark.before;
        } }
        ensures ready { mark.weight ≤ 6304 → is_here_within mark.host.space ≡ true → IsReadyParser result.parser }
        ensures names { result.names.items ≡ take mark.names self.entry.names.items }
        ensures bodies { result.bodies.items ≡ take mark.bodies self.entry.bodies.items }
        ensures defining { result.defining.items ≡ take mark.defining self.entry.defining.items }
        ensures entries { result.parser.dictionary.pairs ≡ take mark.entries.0 self.entry.parser.dictionary.pairs }
        ensures definitions { result.parser.definitions ≡ mark.definitions }
    {
        let ReadSource {
            parser,
            mut names,
            mut bodies,
            mut defining,
            ..
        } = self;
        let mut dictionary = parser.dictionary;
        dictionary.forget_to(mark.entries);
        names.truncate(mark.names);
        bodies.truncate(mark.bodies);
        defining.truncate(mark.defining);
        ReadSource {
            parser: Parser {
                reader: PieceReader::new(b"", mark.count),
                weight: mark.weight,
                nest: mark.nest,
                dictionary,
                definitions: mark.definitions,
                host: mark.host,
                does: mark.does,
                words: mark.words,
            },
            names,
            bodies,
            defining,
            before: mark.before,
        }
    }
}

/// Reads a source on in a piece, up to its end. After an error the source is as before.
fn read_piece(
    alloc: Global,
    source: ReadSource<'static>,
    bytes: &[u8],
) -> (ReadSource<'static>, Result<(), SourceError>)
    requires ready { IsReadyParser source.parser }
    requires counted { IsCounted source }
    requires rest { source.parser.reader.rest ≡ [] }
    requires short { source.parser.reader.count + length bytes.now < 4294967295 }
    ensures gives { (n : ℕ) → length bytes.now < n → AnswersAs (λ _. source_of result.0) result.1 (read_at n (record (source_of source.entry) { at = record (parser_state source.entry.parser) { rest = bytes.now } })) }
    ensures same { OnErr result.1 (source_of result.0 ≡ source_of source.entry) }
    ensures ready { IsReadyParser result.0.parser }
    ensures counted { IsCounted result.0 }
{
    let mark = match source.mark(alloc) {
        Ok(mark) => mark,
        Err(AllocError) => return (source, Err(SourceError::OutOfMemory)),
    };
    let mut longer = source.on(mark.count, bytes);
    match longer.read_on(alloc) {
        Ok(()) => {
            let count = longer.parser.reader.count();
            (longer.on(count, b""), Ok(()))
        }
        Err(error) => (longer.back_to(mark), Err(error)),
    }
}

/// Reads a source in pieces, each of which begins on a line of its own. A piece that is refused leaves no trace.
///
/// Contracts see the text read so far. It can be read on: it has a program, or MAIN alone is missing.
#[derive(Drop)]
pub struct Reading {
    alloc: Global,
    bytes: Vec<u8>,
    source: Option<ReadSource<'static>>,
}

impl Model for Reading {
    ghost use Rattle.std.specs.Prelude.{ℕ, List};
    ghost use Rattle.control_flow.specs.ReadingState.{KeepsRead};

    ghost Value = { List ℕ };

    ghost view = { λ r. r.bytes.items };

    ghost invariant = { λ r. KeepsRead r.bytes.items r.source };
}

impl Reading {
    /// A reading of no text. It keeps the allocator.
    pub fn new(alloc: Global) -> Result<Reading, AllocError>
        ensures { IfOk result (λ reading. reading ≡ []) }
    {
        let source = ReadSource::new(alloc, Vocabulary::Source, b"")?;
        Ok(Reading {
            alloc,
            bytes: Vec::new(alloc),
            source: Some(source),
        })
    }

    /// The number of bytes of the text.
    pub fn length(&self) -> usize
        ensures { result ≡ length self.now }
    {
        self.bytes.len()
    }

    /// Reads a piece on a line of its own, and keeps it. It is refused exactly where the longer text is refused for another cause than
    /// that MAIN is missing, with the number of the token in the longer text. After an error the reading is as before.
    pub fn add(&mut self, bytes: &[u8]) -> Result<(), SourceError>
        requires { length self.old + 1 + length bytes.now ≤ 65536 }
        ensures ok { OnOk result (self.new ≡ with_piece self.old bytes.now) }
        ensures readable { OnOk result (IsReadable self.new) }
        ensures err { OnErr result (self.new ≡ self.old) }
        ensures refused { IfErr result (λ error. CannotBeRead error (program_of_text (with_piece self.old bytes.now))) }
    {
        let before = self.bytes.len();
        match self.bytes.push(b'\n') {
            Ok(()) => {}
            Err(_) => return Err(SourceError::OutOfMemory),
        }
        match self.bytes.extend_from_slice(bytes) {
            Ok(()) => {}
            Err(AllocError) => {
                self.bytes.truncate(before);
                return Err(SourceError::OutOfMemory);
            }
        }
        let Some(source) = self.source.take() else {
            unreachable!()
        };
        let (source, result) = read_piece(self.alloc, source, bytes);
        self.source = Some(source);
        match result {
            Ok(()) => Ok(()),
            Err(error) => {
                self.bytes.truncate(before);
                Err(error)
            }
        }
    }

    /// The program of the text, or its refusal, whose cause is then that MAIN is missing.
    pub fn finish(self) -> Result<Program, SourceError>
        ensures program { AnswersAs (λ program. program) result (program_of_text self) }
        ensures refused { IfErr result LacksMain }
    {
        host_words_keep();
        let Reading { alloc, source, .. } = self;
        let Some(source) = source else { unreachable!() };
        source.program(alloc)
    }
}
