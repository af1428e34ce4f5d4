// Words that copy, move and drop cells, or add one.
ghost use Rattle.std.specs.Prelude.{◌≡◌};
ghost use Rattle.forth_program.specs.State.{World, Gives};
ghost use Rattle.forth_program.specs.Meaning.{meaning};
ghost use Rattle.reference_eval.specs.declared.shapes.Shape.TheVariants as shapes;
ghost use Rattle.reference_eval.specs.Shapes.{shape_of};
ghost use Rattle.reference_eval.specs.Answers.{Leaves, put_on};

use crate::ends::Stop;
use crate::stack::Stack;
use word_table::Word;

/// Puts cells on the others, the last of them on top.
pub(crate) fn put(cells: &mut Stack<u16>, new: &[u16]) -> Result<(), Stop>
    ensures { (w : World) → Leaves result cells.new (Gives (put_on new.now cells.old) w) w }
{
    match new {
        [] => Ok(()),
        [first, rest @ ..] => {
            cells.push(*first)?;
            put(cells, rest)
        }
    }
}

/// A word that adds a cell. Data space begins at `data_start`.
pub(crate) fn adding_word(word: Word, cells: &mut Stack<u16>, data_start: u16) -> Result<(), Stop>
    requires { shape_of word ≡ shapes.Adds }
    ensures { (w : World) → w.data_start ≡ data_start → Leaves result cells.new (meaning word cells.old w) w }
{
    match word {
        Word::Depth => put(cells, &[(cells.len() % 65536) as u16]),
        Word::Blank => put(cells, &[32]),
        Word::Base => put(cells, &[data_start]),
        _ => unreachable!(),
    }
}

/// A word that copies or drops a cell.
pub(crate) fn shuffle_one(word: Word, cells: &mut Stack<u16>) -> Result<(), Stop>
    requires { shape_of word ≡ shapes.ShufflesOne }
    ensures { (w : World) → Leaves result cells.new (meaning word cells.old w) w }
{
    let Some(x) = cells.pop() else {
        return Err(Stop::Underflow);
    };
    match word {
        Word::Dup => put(cells, &[x, x]),
        Word::DropTop => Ok(()),
        Word::QDup => {
            if x == 0 {
                put(cells, &[x])
            } else {
                put(cells, &[x, x])
            }
        }
        _ => unreachable!(),
    }
}

/// A word that copies, moves or drops two cells.
pub(crate) fn shuffle_two(word: Word, cells: &mut Stack<u16>) -> Result<(), Stop>
    requires { shape_of word ≡ shapes.ShufflesTwo }
    ensures { (w : World) → Leaves result cells.new (meaning word cells.old w) w }
{
    let Some(y) = cells.pop() else {
        return Err(Stop::Underflow);
    };
    let Some(x) = cells.pop() else {
        return Err(Stop::Underflow);
    };
    match word {
        Word::Swap => put(cells, &[y, x]),
        Word::Over => put(cells, &[x, y, x]),
        Word::TwoDup => put(cells, &[x, y, x, y]),
        Word::TwoDrop => Ok(()),
        Word::Nip => put(cells, &[y]),
        Word::Tuck => put(cells, &[y, x, y]),
        _ => unreachable!(),
    }
}

/// A word that moves three cells.
pub(crate) fn shuffle_three(word: Word, cells: &mut Stack<u16>) -> Result<(), Stop>
    requires { shape_of word ≡ shapes.ShufflesThree }
    ensures { (w : World) → Leaves result cells.new (meaning word cells.old w) w }
{
    let Some(z) = cells.pop() else {
        return Err(Stop::Underflow);
    };
    let Some(y) = cells.pop() else {
        return Err(Stop::Underflow);
    };
    let Some(x) = cells.pop() else {
        return Err(Stop::Underflow);
    };
    match word {
        Word::Rot => put(cells, &[y, z, x]),
        _ => unreachable!(),
    }
}

/// A word that copies or moves four cells.
pub(crate) fn shuffle_four(word: Word, cells: &mut Stack<u16>) -> Result<(), Stop>
    requires { shape_of word ≡ shapes.ShufflesFour }
    ensures { (w : World) → Leaves result cells.new (meaning word cells.old w) w }
{
    let Some(w) = cells.pop() else {
        return Err(Stop::Underflow);
    };
    let Some(z) = cells.pop() else {
        return Err(Stop::Underflow);
    };
    let Some(y) = cells.pop() else {
        return Err(Stop::Underflow);
    };
    let Some(x) = cells.pop() else {
        return Err(Stop::Underflow);
    };
    match word {
        Word::TwoSwap => put(cells, &[z, w, x, y]),
        Word::TwoOver => put(cells, &[x, y, z, w, x, y]),
        _ => unreachable!(),
    }
}
