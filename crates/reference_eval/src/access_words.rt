// Words that make accesses: to data space, and to the console.
ghost use Rattle.std.specs.Prelude.{◌≡◌, ◌∷◌, List, ℕ, int_lt, pos, unsigned_abs};
ghost use Rattle.cell_math.specs.Cell.{double as double_of, high_cell, low_cell, signed as signed_view};
ghost use Rattle.forth_program.specs.State.{World, Reply, Gives, ◌▸◌};
ghost use Rattle.forth_program.specs.ByteWords.{Rest};
ghost use Rattle.forth_program.specs.Meaning.{meaning};
ghost use Rattle.reference_eval.specs.declared.shapes.Shape.TheVariants as shapes;
ghost use Rattle.reference_eval.specs.Shapes.{shape_of};
ghost use Rattle.reference_eval.specs.Outside.{Scene, scene, input_of};
ghost use Rattle.reference_eval.specs.Answers.{Does, answer_of, cells_answer};

use crate::accesses::{
    add_at, align_here, comma, comma_byte, count, fetch_byte, fetch_pair, grow_here, here,
    set_base, store_byte, store_pair,
};
use crate::byte_words::{accept, emit_spaces, fill, move_bytes, number_from, type_out};
use crate::ends::{Halt, Stop};
use crate::memory::Memory;
use crate::pictures::{held, hold, hold_all, hold_digit, hold_sign, open_picture, print_number};
use crate::shuffles::put;
use crate::stack::Stack;
use cell_math::signed;
use outside_io::{Sink, Source};
use word_table::Word;

// What accesses answer, as the answer of a word that leaves the cells below those it took.
pub(crate) fn done(answer: Result<(), Halt>) -> Result<(), Stop>
    ensures { (meant : World → Reply (Unit {0})) (cells : List ℕ) (old new : Scene) → Does meant (answer_of answer) old new →
        Does (λ w. meant w ▸ λ _. Gives cells) (cells_answer result cells) old new }
{
    match answer {
        Ok(()) => Ok(()),
        Err(halt) => Err(Stop::Halt(halt)),
    }
}

// Puts the cell that accesses answer.
fn put_cell(answer: Result<u16, Halt>, cells: &mut Stack<u16>) -> Result<(), Stop>
    ensures { (meant : World → Reply ℕ) (old new : Scene) → Does meant (answer_of answer) old new →
        Does (λ w. meant w ▸ λ x. Gives (x ∷ cells.old)) (cells_answer result cells.new) old new }
{
    match answer {
        Ok(x) => put(cells, &[x]),
        Err(halt) => Err(Stop::Halt(halt)),
    }
}

// Puts two cells, the second of them on top.
fn put_pair(answer: Result<(u16, u16), Halt>, cells: &mut Stack<u16>) -> Result<(), Stop>
    ensures { (meant : World → Reply (ℕ × ℕ)) (old new : Scene) → Does meant (answer_of answer) old new →
        Does (λ w. meant w ▸ λ pair. Gives (pair.1 ∷ pair.0 ∷ cells.old)) (cells_answer result cells.new) old new }
{
    match answer {
        Ok((x, y)) => put(cells, &[x, y]),
        Err(halt) => Err(Stop::Halt(halt)),
    }
}

// Puts a double, its high cell on top.
fn put_double(answer: Result<u32, Halt>, cells: &mut Stack<u16>) -> Result<(), Stop>
    ensures { (meant : World → Reply ℕ) (old new : Scene) → Does meant (answer_of answer) old new →
        Does (λ w. meant w ▸ λ d. Gives (high_cell d ∷ low_cell d ∷ cells.old)) (cells_answer result cells.new) old new }
{
    match answer {
        Ok(double) => put(cells, &[low(double), high(double)]),
        Err(halt) => Err(Stop::Halt(halt)),
    }
}

// Puts what is left of a number's bytes: a double, an address and a count, which is on top.
fn put_rest(answer: Result<(u32, u16, u16), Halt>, cells: &mut Stack<u16>) -> Result<(), Stop>
    ensures { (meant : World → Reply Rest) (old new : Scene) → Does meant (answer_of answer) old new →
        Does (λ w. meant w ▸ λ r. Gives (r.2 ∷ r.1 ∷ high_cell r.0 ∷ low_cell r.0 ∷ cells.old)) (cells_answer result cells.new) old new }
{
    match answer {
        Ok((double, address, size)) => put(cells, &[low(double), high(double), address, size]),
        Err(halt) => Err(Stop::Halt(halt)),
    }
}

// The cells of a double.
fn low(double: u32) -> u16
    ensures { result ≡ low_cell double }
{
    (double % 65536) as u16
}

fn high(double: u32) -> u16
    ensures { result ≡ high_cell double }
{
    (double / 65536) as u16
}

// Two cells as one number.
fn double(low: u16, high: u16) -> u32
    ensures { result ≡ double_of low high }
{
    u32::from(low) + 65536 * u32::from(high)
}

// Whether a cell is negative.
fn is_negative(x: u16) -> bool
    ensures { result ≡ int_lt (signed_view x) (pos 0) }
{
    signed(x) < 0
}

// The absolute value of a signed cell.
fn magnitude(x: u16) -> u16
    ensures { result ≡ unsigned_abs (signed_view x) }
{
    signed(x).unsigned_abs()
}

/// A word that makes accesses and takes no cell.
pub(crate) fn no_cell_word<C: Source, O: Sink>(
    word: Word,
    cells: &mut Stack<u16>,
    memory: &mut Memory,
    console: &mut C,
    out: &mut O,
) -> Result<(), Stop>
    requires { shape_of word ≡ shapes.TakesNone }
    ensures { Does (meaning word cells.old) (cells_answer result cells.new)
        (scene memory.old (input_of (C.left console.old) (C.calls console.old)) (C.faults console.old) (O.held out.old) (O.faults out.old))
        (scene memory.new (input_of (C.left console.new) (C.calls console.new)) (C.faults console.new) (O.held out.new) (O.faults out.new)) }
{
    match word {
        Word::Here => put_cell(here(memory, console, out), cells),
        Word::Key => put_cell(memory.fetch(0x4002, console, out), cells),
        Word::Decimal => done(set_base(10, memory, out)),
        Word::Hex => done(set_base(16, memory, out)),
        Word::Align => done(align_here(memory, console, out)),
        Word::Cr => done(memory.store(0x4000, 10, out)),
        Word::Space => done(memory.store(0x4000, 32, out)),
        Word::LessSharp => done(open_picture(memory, out)),
        _ => unreachable!(),
    }
}

/// A word that makes accesses and takes one cell.
pub(crate) fn one_cell_word<C: Source, O: Sink>(
    word: Word,
    cells: &mut Stack<u16>,
    memory: &mut Memory,
    console: &mut C,
    out: &mut O,
) -> Result<(), Stop>
    requires { shape_of word ≡ shapes.TakesOne }
    ensures { Does (meaning word cells.old) (cells_answer result cells.new)
        (scene memory.old (input_of (C.left console.old) (C.calls console.old)) (C.faults console.old) (O.held out.old) (O.faults out.old))
        (scene memory.new (input_of (C.left console.new) (C.calls console.new)) (C.faults console.new) (O.held out.new) (O.faults out.new)) }
{
    let Some(x) = cells.pop() else {
        return Err(Stop::Underflow);
    };
    match word {
        Word::Fetch => put_cell(memory.fetch(x, console, out), cells),
        Word::CFetch => put_cell(fetch_byte(x, memory, console, out), cells),
        Word::TwoFetch => put_pair(fetch_pair(x, memory, console, out), cells),
        Word::Count => put_pair(count(x, memory, console, out), cells),
        Word::Comma => done(comma(x, memory, console, out)),
        Word::CComma => done(comma_byte(x, memory, console, out)),
        Word::Allot => done(grow_here(x, memory, console, out)),
        Word::Emit => done(memory.store(0x4000, x, out)),
        Word::Spaces => done(emit_spaces(x, memory, out)),
        Word::Hold => done(hold(x, memory, console, out)),
        Word::Sign => done(hold_sign(is_negative(x), memory, console, out)),
        Word::Dot => done(print_number(magnitude(x), is_negative(x), memory, console, out)),
        Word::UDot => done(print_number(x, false, memory, console, out)),
        _ => unreachable!(),
    }
}

/// A word that makes accesses and takes two cells.
pub(crate) fn two_cell_word<C: Source, O: Sink>(
    word: Word,
    cells: &mut Stack<u16>,
    memory: &mut Memory,
    console: &mut C,
    out: &mut O,
) -> Result<(), Stop>
    requires { shape_of word ≡ shapes.TakesTwo }
    ensures { Does (meaning word cells.old) (cells_answer result cells.new)
        (scene memory.old (input_of (C.left console.old) (C.calls console.old)) (C.faults console.old) (O.held out.old) (O.faults out.old))
        (scene memory.new (input_of (C.left console.new) (C.calls console.new)) (C.faults console.new) (O.held out.new) (O.faults out.new)) }
{
    let Some(y) = cells.pop() else {
        return Err(Stop::Underflow);
    };
    let Some(x) = cells.pop() else {
        return Err(Stop::Underflow);
    };
    match word {
        Word::Store => done(memory.store(y, x, out)),
        Word::CStore => done(store_byte(y, x, memory, console, out)),
        Word::PlusStore => done(add_at(y, x, memory, console, out)),
        Word::TypeOut => done(type_out(y, x, memory, console, out)),
        Word::Accept => put_cell(accept(y, x, memory, console, out), cells),
        Word::Sharp => put_double(hold_digit(double(x, y), memory, console, out), cells),
        Word::SharpS => put_double(hold_all(double(x, y), memory, console, out), cells),
        Word::SharpGreater => put_pair(held(memory, console, out), cells),
        _ => unreachable!(),
    }
}

/// A word that makes accesses and takes three cells.
pub(crate) fn three_cell_word<C: Source, O: Sink>(
    word: Word,
    cells: &mut Stack<u16>,
    memory: &mut Memory,
    console: &mut C,
    out: &mut O,
) -> Result<(), Stop>
    requires { shape_of word ≡ shapes.TakesThree }
    ensures { Does (meaning word cells.old) (cells_answer result cells.new)
        (scene memory.old (input_of (C.left console.old) (C.calls console.old)) (C.faults console.old) (O.held out.old) (O.faults out.old))
        (scene memory.new (input_of (C.left console.new) (C.calls console.new)) (C.faults console.new) (O.held out.new) (O.faults out.new)) }
{
    let Some(z) = cells.pop() else {
        return Err(Stop::Underflow);
    };
    let Some(y) = cells.pop() else {
        return Err(Stop::Underflow);
    };
    let Some(x) = cells.pop() else {
        return Err(Stop::Underflow);
    };
    match word {
        Word::TwoStore => done(store_pair(z, x, y, memory, out)),
        Word::Fill => done(fill(y, x, z, memory, console, out)),
        Word::Move => done(move_bytes(z, x, y, memory, console, out)),
        _ => unreachable!(),
    }
}

/// A word that makes accesses and takes four cells.
pub(crate) fn four_cell_word<C: Source, O: Sink>(
    word: Word,
    cells: &mut Stack<u16>,
    memory: &mut Memory,
    console: &mut C,
    out: &mut O,
) -> Result<(), Stop>
    requires { shape_of word ≡ shapes.TakesFour }
    ensures { Does (meaning word cells.old) (cells_answer result cells.new)
        (scene memory.old (input_of (C.left console.old) (C.calls console.old)) (C.faults console.old) (O.held out.old) (O.faults out.old))
        (scene memory.new (input_of (C.left console.new) (C.calls console.new)) (C.faults console.new) (O.held out.new) (O.faults out.new)) }
{
    let Some(top) = cells.pop() else {
        return Err(Stop::Underflow);
    };
    let Some(third) = cells.pop() else {
        return Err(Stop::Underflow);
    };
    let Some(second) = cells.pop() else {
        return Err(Stop::Underflow);
    };
    let Some(first) = cells.pop() else {
        return Err(Stop::Underflow);
    };
    match word {
        Word::ToNumber => put_rest(
            number_from(double(first, second), third, top, memory, console, out),
            cells,
        ),
        _ => unreachable!(),
    }
}
