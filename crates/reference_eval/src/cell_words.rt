// Words on cells alone.
ghost use Rattle.std.specs.Prelude.{◌≡◌, ◌∷◌, ◌%◌, ℕ, List, length};
ghost use Rattle.cell_math.specs.Cell.{flag as flag_of};
ghost use Rattle.forth_program.specs.State.{World, Gives};
ghost use Rattle.forth_program.specs.Meaning.{meaning};
ghost use Rattle.reference_eval.specs.declared.shapes.Shape.TheVariants as shape;
ghost use Rattle.reference_eval.specs.Shapes.{shape_of};
ghost use Rattle.reference_eval.specs.Answers.{Leaves};

use crate::ends::Stop;
use crate::stack::Stack;
use cell_math::{add, negate, signed, um_star};
use word_table::Word;

fn flag(holds: bool) -> u16
    ensures { result ≡ flag_of holds }
{
    if holds { 65535 } else { 0 }
}

// What a word of one cell leaves.
fn unary(word: Word, x: u16) -> u16
    requires { shape_of word ≡ shape.Unary }
    ensures { (c : List ℕ) (w : World) → meaning word (x ∷ c) w ≡ Gives (result ∷ c) w }
{
    match word {
        Word::Negate => negate(x),
        Word::OnePlus => add(x, 1),
        Word::OneMinus => x.wrapping_sub(1),
        Word::TwoStar | Word::Cells => x.wrapping_add(x),
        Word::TwoSlash => { if x < 32768 { x / 2 } else { 32768 + x / 2 } }
        Word::Abs => signed(x).unsigned_abs(),
        Word::Invert => !x,
        Word::ZeroEqual => flag(x == 0),
        Word::ZeroLess => flag(signed(x) < 0),
        Word::ZeroGreater => flag(0 < signed(x)),
        Word::CellPlus => add(x, 2),
        Word::Chars => x,
        Word::CharPlus => add(x, 1),
        Word::Aligned => add(x, 1) / 2 * 2,
        _ => unreachable!(),
    }
}

// What a word of two cells leaves.
fn binary(word: Word, x: u16, y: u16) -> u16
    requires { shape_of word ≡ shape.Binary }
    ensures { (c : List ℕ) (w : World) → meaning word (y ∷ x ∷ c) w ≡ Gives (result ∷ c) w }
{
    match word {
        Word::Plus => add(x, y),
        Word::Minus => x.wrapping_sub(y),
        Word::And => x & y,
        Word::Or => x | y,
        Word::Xor => x ^ y,
        Word::LShift => x << (y % 16),
        Word::RShift => x >> (y % 16),
        Word::Equal => flag(x == y),
        Word::NotEqual => flag(x != y),
        Word::Less => flag(signed(x) < signed(y)),
        Word::Greater => flag(signed(y) < signed(x)),
        Word::ULess => flag(x < y),
        Word::Max => { if signed(x) < signed(y) { y } else { x } }
        Word::Min => { if signed(x) < signed(y) { x } else { y } }
        Word::Star => um_star(x, y).0,
        _ => unreachable!(),
    }
}

// What a word of three cells leaves.
fn ternary(word: Word, x: u16, y: u16, z: u16) -> u16
    requires { shape_of word ≡ shape.Ternary }
    ensures { (c : List ℕ) (w : World) → meaning word (z ∷ y ∷ x ∷ c) w ≡ Gives (result ∷ c) w }
{
    match word {
        Word::Within => flag(x.wrapping_sub(y) < z.wrapping_sub(y)),
        _ => unreachable!(),
    }
}

/// A word of one cell.
pub(crate) fn unary_word(word: Word, cells: &mut Stack<u16>) -> Result<(), Stop>
    requires { shape_of word ≡ shape.Unary }
    ensures { (w : World) → Leaves result cells.new (meaning word cells.old w) w }
{
    let Some(x) = cells.pop() else {
        return Err(Stop::Underflow);
    };
    cells.push(unary(word, x))?;
    Ok(())
}

/// A word of two cells.
pub(crate) fn binary_word(word: Word, cells: &mut Stack<u16>) -> Result<(), Stop>
    requires { shape_of word ≡ shape.Binary }
    ensures { (w : World) → Leaves result cells.new (meaning word cells.old w) w }
{
    let Some(y) = cells.pop() else {
        return Err(Stop::Underflow);
    };
    let Some(x) = cells.pop() else {
        return Err(Stop::Underflow);
    };
    cells.push(binary(word, x, y))?;
    Ok(())
}

/// A word of three cells.
pub(crate) fn ternary_word(word: Word, cells: &mut Stack<u16>) -> Result<(), Stop>
    requires { shape_of word ≡ shape.Ternary }
    ensures { (w : World) → Leaves result cells.new (meaning word cells.old w) w }
{
    let Some(z) = cells.pop() else {
        return Err(Stop::Underflow);
    };
    let Some(y) = cells.pop() else {
        return Err(Stop::Underflow);
    };
    let Some(x) = cells.pop() else {
        return Err(Stop::Underflow);
    };
    cells.push(ternary(word, x, y, z))?;
    Ok(())
}
