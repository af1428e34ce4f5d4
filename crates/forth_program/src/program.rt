// Programs, and the parts from which one is made.
ghost use Rattle.std.specs.Prelude.{◌≡◌, ◌-◌, ◌<◌, ◌≤◌, map, length, not, slice_index_or, [], IfOk};
ghost use Rattle.forth_program.specs.Form.{IsProgram, has_no_go};
ghost use Rattle.console_ports.specs.DataSpace.{IsDataStart};
ghost use Rattle.forth_program.specs.ItemTrees.{tree_of};
ghost use Rattle.forth_reader.specs.Name.{IsName};
ghost use Rattle.forth_program.specs.Parts.{program_of, token_node};
ghost use Rattle.forth_program.specs.Program.{body_of, uses_depth as depth_is_used};

use crate::depth::{bodies_have_depth, tokens_have_depth};
use crate::go::bodies_lack_go;
use crate::item::{DefId, Items};
use crate::name::Name;
use std::alloc::{AllocError, Global};
use std::marker::Model;
use word_table::Word;

/// What an execution token stands for.
#[derive(Clone, Copy, Debug, PartialEq, Eq)]
pub enum Token {
    /// A definition.
    Def(DefId),
    /// A word of the table.
    Table(Word),
    /// A constant or a created address, as a cell.
    Value(u16),
    /// A child of a defining word: the part after `DOES>`, and the byte address of the child's data.
    Child(DefId, u16),
}

/// The parts from which a program is made.
#[derive(Drop)]
pub struct ProgramParts {
    /// The name of each definition.
    pub names: Vec<Name>,
    /// The items of each definition, in the same order.
    pub bodies: Vec<Items>,
    /// The definition with which a run begins.
    pub main: DefId,
    /// What each execution token stands for, token 1 first.
    pub tokens: Vec<Token>,
    /// The byte address at which data space begins, even and from 4096 to 16000.
    pub data_start: u16,
    /// The first bytes of data space.
    pub space: Vec<u8>,
    /// The number of tokens of the source text.
    pub source_tokens: u32,
}

/// A program of Forth source: its definitions, its execution tokens and its first data space. Contracts see it as a plain
/// record, with bodies as trees and execution tokens as items.
#[derive(Drop)]
pub struct Program {
    parts: ProgramParts,
}

impl Model for Program {
    ghost use Rattle.std.specs.Coded.{codes};
    ghost use Rattle.forth_program.specs.TreeCode.{nodes_code, node_code};
    ghost use Rattle.forth_program.specs.Form.{IsProgram};
    ghost use Rattle.forth_program.specs.Parts.{program_of};
    ghost use Rattle.forth_program.specs.Program.{SourceProgram};

    ghost Value = { SourceProgram };

    ghost coded = { Prim.hlevel (codes, nodes_code, node_code) };

    ghost view = { λ p. program_of p.parts };

    ghost invariant = { λ p. IsProgram (program_of p.parts) };
}

impl Program {
    /// The program of these parts. `IsProgram` lists what has to hold of them. A want of memory would drop them; today none is
    /// taken.
    pub fn new(_alloc: Global, source: ProgramParts) -> Result<Program, AllocError>
        requires { IsProgram (program_of source) }
        ensures { IfOk result (λ program. program ≡ program_of source) }
    {
        Ok(Program { parts: source })
    }

    /// The number of definitions, at least 1.
    pub fn def_count(&self) -> u16
        ensures value { result ≡ length self.now.bodies }
        ensures form { IsProgram self.now }
    {
        self.parts.bodies.len() as u16
    }

    /// The items of a definition.
    pub fn body(&self, id: DefId) -> &Items
        requires { id.0 < length self.now.bodies }
        ensures { tree_of result.now ≡ body_of self.now id.0 }
    {
        &self.parts.bodies[id.0 as usize]
    }

    /// The name of a definition.
    pub fn name(&self, id: DefId) -> &str
        requires { id.0 < length self.now.bodies }
        ensures value { result.now ≡ slice_index_or self.now.names id.0 [] }
        ensures form { IsName result.now }
    {
        self.parts.names[id.0 as usize].as_str()
    }

    /// The definition with which a run begins.
    pub fn main(&self) -> DefId
        ensures value { result.0 ≡ self.now.main_body }
        ensures form { result.0 < length self.now.bodies }
    {
        self.parts.main
    }

    /// What each execution token stands for, token 1 first.
    pub fn tokens(&self) -> &[Token]
        ensures { map token_node result.now ≡ self.now.tokens }
    {
        self.parts.tokens.as_slice()
    }

    /// The byte address at which data space begins.
    pub fn data_start(&self) -> u16
        ensures value { result ≡ self.now.data_start }
        ensures form { IsDataStart result }
    {
        self.parts.data_start
    }

    /// The first bytes of data space. Those that follow are 0.
    pub fn space(&self) -> &[u8]
        ensures value { result.now ≡ self.now.first_space }
        ensures bound { length result.now ≤ 0x4000 - self.now.data_start }
    {
        self.parts.space.as_slice()
    }

    /// The number of tokens of the source text.
    pub fn source_tokens(&self) -> u32
        ensures { result ≡ self.now.source_tokens }
    {
        self.parts.source_tokens
    }

    /// Whether the word `DEPTH` stands in a body or among the execution tokens.
    pub fn uses_depth(&self) -> bool
        ensures { result ≡ depth_is_used self.now }
    {
        bodies_have_depth(self.parts.bodies.as_slice())
            | tokens_have_depth(self.parts.tokens.as_slice())
    }

    /// Whether the word `GO` stands in a body.
    pub fn uses_go(&self) -> bool
        ensures { result ≡ not (has_no_go self.now) }
    {
        !bodies_lack_go(self.parts.bodies.as_slice())
    }
}
