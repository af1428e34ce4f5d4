// Names that are ticked.
ghost use Rattle.std.specs.Prelude.{◌≡◌, IfOk, map};
ghost use Rattle.forth_program.specs.Tree as tree;
ghost use Rattle.forth_program.specs.Form.{may_be_token};
ghost use Rattle.forth_program.specs.Parts.{token_node};
ghost use Rattle.word_table.specs.Names.{word_in};
ghost use Rattle.control_flow.specs.Ticks.{known_ticked, word_ticked, ticked_node, token_nodes, tick_weight};

use crate::refusal::SourceCause;
use forth_program::{DefId, Token};
use host_state::{Entry, Known, Ticked};
use std::alloc::{AllocError, Global};
use word_table::{Class, Vocabulary, Word, entry, word_in};

/// The execution token of a name that is defined.
pub(crate) fn entry_ticked(entry: Entry) -> Result<Ticked, SourceCause>
    ensures { result ≡ known_ticked entry entry.known }
{
    match entry.known {
        Known::Defining(_) => Err(SourceCause::NeedsName),
        Known::Definition(_) => Ok(Ticked::Entry(entry)),
        Known::Constant(_) => Ok(Ticked::Entry(entry)),
        Known::Address(_) => Ok(Ticked::Entry(entry)),
        Known::Child(_, _) => Ok(Ticked::Entry(entry)),
    }
}

/// Whether a word of the table has an execution token.
fn may_be_ticked(word: Word) -> bool
    ensures { result ≡ may_be_token (tree.Plain word) }
{
    match word {
        Word::Execute => false,
        Word::Go => false,
        _ => match entry(word).class {
            Class::Inline => true,
            Class::Library => true,
            _ => false,
        },
    }
}

/// The execution token of a name that is not defined.
pub(crate) fn word_ticked(words: Vocabulary, name: &str) -> Result<Ticked, SourceCause>
    ensures { result ≡ word_ticked (word_in words name.now) }
{
    match word_in(words, name) {
        Some(word) => {
            if may_be_ticked(word) {
                Ok(Ticked::Word(word))
            } else {
                Err(SourceCause::NeedsName)
            }
        }
        None => Err(SourceCause::UnknownWord),
    }
}

/// What EXECUTE does with a token.
fn token_of(ticked: Ticked) -> Token
    ensures { token_node result ≡ ticked_node ticked }
{
    match ticked {
        Ticked::Word(word) => Token::Table(word),
        Ticked::Entry(entry) => match entry.known {
            Known::Definition(definition) => Token::Def(DefId(definition)),
            Known::Constant(cell) => Token::Value(cell),
            Known::Address(address) => Token::Value(address),
            Known::Child(part, address) => Token::Child(DefId(part), address),
            Known::Defining(_) => Token::Value(0),
        },
    }
}

/// The tokens of a program.
pub(crate) fn program_tokens(alloc: Global, ticked: &[Ticked]) -> Result<Vec<Token>, AllocError>
    ensures { IfOk result (λ tokens. map token_node tokens.items ≡ token_nodes ticked.now) }
{
    let mut tokens = Vec::new(alloc);
    let mut rest = ticked;
    while let Some((one, tail)) = rest.split_first() {
        match tokens.push(token_of(*one)) {
            Ok(()) => {}
            Err(_) => return Err(AllocError),
        }
        rest = tail;
    }
    Ok(tokens)
}

/// What a tick weighs: the first of a name has the cells of its token too.
#[tactic(auto, using(crate::proofs::Weights::word_is_light))]
pub(crate) fn tick_weight(ticked: Ticked, is_first: bool) -> u16
    ensures { result ≡ tick_weight ticked is_first }
{
    if !is_first {
        return 2;
    }
    match ticked {
        Ticked::Word(word) => 4 + entry(word).weight,
        Ticked::Entry(entry) => match entry.known {
            Known::Definition(_) => 3,
            _ => 7,
        },
    }
}
