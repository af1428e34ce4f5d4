// The cells of words, calls, children and texts, at the end of the code.
ghost use Rattle.std.specs.Prelude.{◌≡◌, ◌≤◌, ◌++◌, ◌∷◌, [], OnOk, true};
ghost use Rattle.forth_program.specs.Tree.{Call, Child, Text};
ghost use Rattle.code_layout.specs.Built.{word_is_laid_out, text_is_laid_out, is_laid_out};
ghost use Rattle.code_layout.specs.Layout.{Definition, routine_of, call_cell as cell_of_call, word_cells, text_cells, node_cells};
ghost use Rattle.code_layout.specs.Places.{ArePlaces, place_by, word_count, definition_count};

use crate::cells::{add_call, add_number, add_word};
use crate::places::{Places, TYPE, library_number};
use forth_program::{DefId, TextKind};
use std::alloc::AllocError;
use word_table::Word;

/// The cells of a word, or the call of its routine.
#[tactic(auto, unfolding(crate::specs::Places::place_by))]
pub(crate) fn add_plain(
    code: &mut Vec<u16>,
    word: Word,
    places: &Places,
    data_start: u16,
    tail: bool,
) -> Result<(), AllocError>
    requires places { ArePlaces places.now }
    requires start { data_start ≤ 16000 }
    requires laid_out { word_is_laid_out true (word_count places.now) (routine_of word) word ≡ true }
    ensures { OnOk result (code.new.items ≡ code.old.items ++ word_cells data_start (place_by places.now) tail (routine_of word) word) }
{
    match word {
        Word::Execute => add_call(code, places.execute, tail),
        Word::Go => add_call(code, places.leaving, tail),
        _ => match library_number(word) {
            None => add_word(code, word, data_start),
            Some(number) => add_call(code, places.words[number as usize], tail),
        },
    }
}

/// The call of a definition.
#[tactic(auto, unfolding(crate::specs::Places::place_by))]
pub(crate) fn add_definition_call(
    code: &mut Vec<u16>,
    id: DefId,
    places: &Places,
    tail: bool,
) -> Result<(), AllocError>
    requires places { ArePlaces places.now }
    requires laid_out { is_laid_out true (word_count places.now) (definition_count places.now) (Call id.0) ≡ true }
    ensures { OnOk result (code.new.items ≡ code.old.items ++ cell_of_call tail (place_by places.now (Definition id.0)) ∷ []) }
{
    add_call(code, places.definitions[id.0 as usize], tail)
}

/// A child: its address, and then the call of what DOES> gave it.
pub(crate) fn add_child(
    code: &mut Vec<u16>,
    id: DefId,
    address: u16,
    places: &Places,
    tail: bool,
) -> Result<(), AllocError>
    requires places { ArePlaces places.now }
    requires laid_out { is_laid_out true (word_count places.now) (definition_count places.now) (Child id.0 address) ≡ true }
    ensures { OnOk result (code.new.items ≡ code.old.items ++ node_cells 0 (place_by places.now) 0 0 tail true (Child id.0 address)) }
{
    add_number(code, address)?;
    add_definition_call(code, id, places, tail)
}

// What follows the address and the length of a text: nothing for `S"`, `TYPE` for `."`, and the code of `ABORT"`.
#[tactic(auto, unfolding(crate::specs::Places::place_by))]
fn add_text_call(
    code: &mut Vec<u16>,
    kind: TextKind,
    places: &Places,
    tail: bool,
) -> Result<(), AllocError>
    requires places { ArePlaces places.now }
    requires laid_out { text_is_laid_out (word_count places.now) kind ≡ true }
    ensures { OnOk result (code.new.items ≡ code.old.items ++ text_cells (place_by places.now) tail kind) }
{
    match kind {
        TextKind::Address => Ok(()),
        TextKind::Print => add_call(code, places.words[TYPE], tail),
        TextKind::Abort => add_call(code, places.abort, tail),
    }
}

/// A text: its address and its length, and what follows them.
pub(crate) fn add_text(
    code: &mut Vec<u16>,
    kind: TextKind,
    address: u16,
    characters: u16,
    places: &Places,
    tail: bool,
) -> Result<(), AllocError>
    requires places { ArePlaces places.now }
    requires laid_out { is_laid_out true (word_count places.now) (definition_count places.now) (Text kind address characters) ≡ true }
    ensures { OnOk result (code.new.items ≡ code.old.items ++ node_cells 0 (place_by places.now) 0 0 tail true (Text kind address characters)) }
{
    add_number(code, address)?;
    add_number(code, characters)?;
    add_text_call(code, kind, places, tail)
}
