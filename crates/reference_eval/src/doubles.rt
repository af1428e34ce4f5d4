// Words on double cells: products and quotients.
ghost use Rattle.std.specs.Prelude.{◌≡◌, ◌*ℤ◌, Some};
ghost use Rattle.cell_math.specs.Cell.{double_of, high_cell, low_cell, signed as signed_view, signed_double};
ghost use Rattle.cell_math.specs.Divisions.{floored_division};
ghost use Rattle.forth_program.specs.State.{World};
ghost use Rattle.forth_program.specs.Meaning.{both, meaning, quotient_only, rest_only};
ghost use Rattle.reference_eval.specs.declared.shapes.Shape.TheVariants as shapes;
ghost use Rattle.reference_eval.specs.Shapes.{shape_of};
ghost use Rattle.reference_eval.specs.Answers.{Leaves};

use crate::ends::{End, Halt, Stop};
use crate::stack::Stack;
use cell_math::{fm_div, m_star, signed, sm_div, um_div, um_star};
use word_table::Word;

// Puts a double on the cells, the high cell on top.
fn put(parts: (u16, u16), cells: &mut Stack<u16>) -> Result<(), Stop>
    ensures { (w : World) → Leaves result cells.new (both (Some parts) cells.old w) w }
{
    cells.push(parts.0)?;
    cells.push(parts.1)?;
    Ok(())
}

// Puts the remainder and the quotient, or halts where there are none.
fn put_both(parts: Option<(u16, u16)>, cells: &mut Stack<u16>) -> Result<(), Stop>
    ensures { (w : World) → Leaves result cells.new (both parts cells.old w) w }
{
    match parts {
        None => Err(Stop::Halt(Halt::Ended(End::Halted(10)))),
        Some((rest, quotient)) => {
            cells.push(rest)?;
            cells.push(quotient)?;
            Ok(())
        }
    }
}

// The quotient alone.
fn put_quotient(parts: Option<(u16, u16)>, cells: &mut Stack<u16>) -> Result<(), Stop>
    ensures { (w : World) → Leaves result cells.new (quotient_only parts cells.old w) w }
{
    match parts {
        None => Err(Stop::Halt(Halt::Ended(End::Halted(10)))),
        Some((_, quotient)) => {
            cells.push(quotient)?;
            Ok(())
        }
    }
}

// The remainder alone.
fn put_rest(parts: Option<(u16, u16)>, cells: &mut Stack<u16>) -> Result<(), Stop>
    ensures { (w : World) → Leaves result cells.new (rest_only parts cells.old w) w }
{
    match parts {
        None => Err(Stop::Halt(Halt::Ended(End::Halted(10)))),
        Some((rest, _)) => {
            cells.push(rest)?;
            Ok(())
        }
    }
}

// A cell as a double of the same sign.
fn extended(x: u16) -> (u16, u16)
    ensures low { result.0 ≡ x }
    ensures value { signed_double result.0 result.1 ≡ signed_view x }
    ensures double { (low_cell (double_of (signed_view x)), high_cell (double_of (signed_view x))) ≡ result }
{
    if x < 32768 { (x, 0) } else { (x, 65535) }
}

// The floored quotient of two cells.
fn single_division(n: u16, m: u16) -> Option<(u16, u16)>
    ensures { result ≡ floored_division (signed_view n) (signed_view m) }
{
    let (low, high) = extended(n);
    fm_div(low, high, m)
}

// The signed product of two cells.
fn product(n: u16, m: u16) -> i32
    ensures { result ≡ signed_view n *ℤ signed_view m }
{
    i32::from(signed(n)) * i32::from(signed(m))
}

// A whole number as a double.
fn halves(z: i32) -> (u16, u16)
    ensures { result ≡ (low_cell (double_of z), high_cell (double_of z)) }
{
    let double = z.cast_unsigned();
    ((double % 65536) as u16, (double / 65536) as u16)
}

// The floored quotient of a product of two cells.
fn scaled_division(n: u16, m: u16, k: u16) -> Option<(u16, u16)>
    ensures { result ≡ floored_division (signed_view n *ℤ signed_view m) (signed_view k) }
{
    let product = product(n, m);
    let parts = halves(product);
    fm_div(parts.0, parts.1, k)
}

/// A word that extends a cell.
pub(crate) fn extend_word(word: Word, cells: &mut Stack<u16>) -> Result<(), Stop>
    requires { shape_of word ≡ shapes.Extend }
    ensures { (w : World) → Leaves result cells.new (meaning word cells.old w) w }
{
    let Some(x) = cells.pop() else {
        return Err(Stop::Underflow);
    };
    match word {
        Word::SToD => put(extended(x), cells),
        _ => unreachable!(),
    }
}

/// A word that multiplies two cells.
pub(crate) fn product_word(word: Word, cells: &mut Stack<u16>) -> Result<(), Stop>
    requires { shape_of word ≡ shapes.Product }
    ensures { (w : World) → Leaves result cells.new (meaning word cells.old w) w }
{
    let Some(y) = cells.pop() else {
        return Err(Stop::Underflow);
    };
    let Some(x) = cells.pop() else {
        return Err(Stop::Underflow);
    };
    match word {
        Word::UMStar => put(um_star(x, y), cells),
        Word::MStar => put(m_star(x, y), cells),
        _ => unreachable!(),
    }
}

/// A word that divides two cells.
pub(crate) fn quotient_word(word: Word, cells: &mut Stack<u16>) -> Result<(), Stop>
    requires { shape_of word ≡ shapes.Quotient }
    ensures { (w : World) → Leaves result cells.new (meaning word cells.old w) w }
{
    let Some(m) = cells.pop() else {
        return Err(Stop::Underflow);
    };
    let Some(n) = cells.pop() else {
        return Err(Stop::Underflow);
    };
    let parts = single_division(n, m);
    match word {
        Word::SlashMod => put_both(parts, cells),
        Word::Slash => put_quotient(parts, cells),
        Word::Mod => put_rest(parts, cells),
        _ => unreachable!(),
    }
}

/// A word that divides a double by a cell, or a product of two cells.
pub(crate) fn long_quotient_word(word: Word, cells: &mut Stack<u16>) -> Result<(), Stop>
    requires { shape_of word ≡ shapes.LongQuotient }
    ensures { (w : World) → Leaves result cells.new (meaning word cells.old w) w }
{
    let Some(top) = cells.pop() else {
        return Err(Stop::Underflow);
    };
    let Some(second) = cells.pop() else {
        return Err(Stop::Underflow);
    };
    let Some(third) = cells.pop() else {
        return Err(Stop::Underflow);
    };
    match word {
        Word::UMSlashMod => put_both(um_div(third, second, top), cells),
        Word::SMSlashRem => put_both(sm_div(third, second, top), cells),
        Word::FMSlashMod => put_both(fm_div(third, second, top), cells),
        Word::StarSlashMod => put_both(scaled_division(third, second, top), cells),
        Word::StarSlash => put_quotient(scaled_division(third, second, top), cells),
        _ => unreachable!(),
    }
}
