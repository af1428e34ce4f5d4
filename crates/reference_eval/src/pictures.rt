// Numeric output: digits are held from the end of the hold buffer down.
ghost use Rattle.std.specs.Prelude.{◌≡◌, ◌+◌, ◌<◌, ◌≤◌, ◌&&◌, nat_le, ℕ, List, Option, IfOk};
ghost use Rattle.cell_math.specs.Cell.{difference_of};
ghost use Rattle.forth_program.specs.Access as access;
ghost use Rattle.forth_program.specs.PicturedOutput as picture;
ghost use Rattle.reference_eval.specs.Outside.{scene, input_of, Input};
ghost use Rattle.reference_eval.specs.Answers.{Does, answer_of};
ghost use Rattle.reference_eval.specs.Steps.{is_in_hold_buffer};

use crate::accesses::{base, store_byte};
use crate::byte_words::type_out;
use crate::ends::{End, Halt};
use crate::memory::Memory;
use outside_io::{Sink, Source};

/// Empties the hold buffer.
pub(crate) fn open_picture<O: Sink>(memory: &mut Memory, out: &mut O) -> Result<(), Halt>
    ensures { (input : Input) (reads : ℕ) → Does (picture.open_picture) (answer_of result)
        (scene memory.old input reads (O.held out.old) (O.faults out.old))
        (scene memory.new input reads (O.held out.new) (O.faults out.new)) }
{
    let start = memory.data_start();
    memory.store(start + 2, start + 96, out)
}

// The hold pointer.
fn hold_pointer<C: Source, O: Sink>(
    memory: &mut Memory,
    console: &mut C,
    out: &mut O,
) -> Result<u16, Halt>
    ensures { Does (λ w. access.fetch (w.data_start + 2) w) (answer_of result)
        (scene memory.old (input_of (C.left console.old) (C.calls console.old)) (C.faults console.old) (O.held out.old) (O.faults out.old))
        (scene memory.new (input_of (C.left console.new) (C.calls console.new)) (C.faults console.new) (O.held out.new) (O.faults out.new)) }
{
    let start = memory.data_start();
    memory.fetch(start + 2, console, out)
}

// Stores the hold pointer.
fn set_hold_pointer<O: Sink>(address: u16, memory: &mut Memory, out: &mut O) -> Result<(), Halt>
    ensures { (input : Input) (reads : ℕ) → Does (λ w. access.store (w.data_start + 2) address w) (answer_of result)
        (scene memory.old input reads (O.held out.old) (O.faults out.old))
        (scene memory.new input reads (O.held out.new) (O.faults out.new)) }
{
    let start = memory.data_start();
    memory.store(start + 2, address, out)
}

// A cell less another, modulo 65536.
fn less(x: u16, y: u16) -> u16
    ensures { result ≡ difference_of x y }
{
    x.wrapping_sub(y)
}

// Whether an address lies in the hold buffer.
fn is_in_buffer(address: u16, memory: &Memory) -> bool
    ensures { result ≡ is_in_hold_buffer memory.now.data_start address }
{
    let start = memory.data_start();
    start + 16 <= address && address <= start + 95
}

/// Holds a byte in front of those that are held; halts where the hold buffer has no room.
pub(crate) fn hold<C: Source, O: Sink>(
    byte: u16,
    memory: &mut Memory,
    console: &mut C,
    out: &mut O,
) -> Result<(), Halt>
    ensures { Does (picture.hold byte) (answer_of result)
        (scene memory.old (input_of (C.left console.old) (C.calls console.old)) (C.faults console.old) (O.held out.old) (O.faults out.old))
        (scene memory.new (input_of (C.left console.new) (C.calls console.new)) (C.faults console.new) (O.held out.new) (O.faults out.new)) }
{
    let old = hold_pointer(memory, console, out)?;
    let pointer = less(old, 1);
    if !is_in_buffer(pointer, memory) {
        return Err(Halt::Ended(End::Halted(12)));
    }
    set_hold_pointer(pointer, memory, out)?;
    store_byte(pointer, byte, memory, console, out)
}

/// Holds a minus sign where the number is negative.
pub(crate) fn hold_sign<C: Source, O: Sink>(
    negative: bool,
    memory: &mut Memory,
    console: &mut C,
    out: &mut O,
) -> Result<(), Halt>
    ensures { Does (picture.hold_sign negative) (answer_of result)
        (scene memory.old (input_of (C.left console.old) (C.calls console.old)) (C.faults console.old) (O.held out.old) (O.faults out.old))
        (scene memory.new (input_of (C.left console.new) (C.calls console.new)) (C.faults console.new) (O.held out.new) (O.faults out.new)) }
{
    if negative {
        hold(45, memory, console, out)
    } else {
        Ok(())
    }
}

// 0 to 9, then A to Z.
fn digit_char(digit: u16) -> u16
    requires { digit < 36 }
    ensures { result ≡ picture.digit_char digit }
{
    if digit < 10 { 48 + digit } else { 55 + digit }
}

// Whether a cell can be a radix.
fn is_radix(x: u16) -> bool
    ensures { result ≡ (nat_le 2 x && nat_le x 36) }
{
    2 <= x && x <= 36
}

// `BASE`, from 2 to 36; halts where it is another.
fn radix<C: Source, O: Sink>(memory: &mut Memory, console: &mut C, out: &mut O) -> Result<u32, Halt>
    ensures does { Does (picture.radix) (answer_of result)
        (scene memory.old (input_of (C.left console.old) (C.calls console.old)) (C.faults console.old) (O.held out.old) (O.faults out.old))
        (scene memory.new (input_of (C.left console.new) (C.calls console.new)) (C.faults console.new) (O.held out.new) (O.faults out.new)) }
    ensures bound { IfOk result (λ radix. (2 ≤ radix) × (radix ≤ 36)) }
{
    let radix = base(memory, console, out)?;
    if !is_radix(radix) {
        return Err(Halt::Ended(End::Halted(11)));
    }
    Ok(u32::from(radix))
}

/// Holds the last digit of a number, and gives the others.
pub(crate) fn hold_digit<C: Source, O: Sink>(
    number: u32,
    memory: &mut Memory,
    console: &mut C,
    out: &mut O,
) -> Result<u32, Halt>
    ensures { Does (picture.hold_digit number) (answer_of result)
        (scene memory.old (input_of (C.left console.old) (C.calls console.old)) (C.faults console.old) (O.held out.old) (O.faults out.old))
        (scene memory.new (input_of (C.left console.new) (C.calls console.new)) (C.faults console.new) (O.held out.new) (O.faults out.new)) }
{
    let by = radix(memory, console, out)?;
    let digit = digit_char((number % by) as u16);
    hold(digit, memory, console, out)?;
    Ok(number / by)
}

/// Holds the digits of a number, at most 32 of them, and gives what is left.
pub(crate) fn hold_all<C: Source, O: Sink>(
    number: u32,
    memory: &mut Memory,
    console: &mut C,
    out: &mut O,
) -> Result<u32, Halt>
    ensures { Does (picture.hold_all number) (answer_of result)
        (scene memory.old (input_of (C.left console.old) (C.calls console.old)) (C.faults console.old) (O.held out.old) (O.faults out.old))
        (scene memory.new (input_of (C.left console.new) (C.calls console.new)) (C.faults console.new) (O.held out.new) (O.faults out.new)) }
{
    let mut left = number;
    let mut digits = 32u32;
    while digits > 0 {
        left = hold_digit(left, memory, console, out)?;
        if left == 0 {
            return Ok(0);
        }
        digits -= 1;
    }
    Ok(left)
}

/// The address and the size of what is held.
pub(crate) fn held<C: Source, O: Sink>(
    memory: &mut Memory,
    console: &mut C,
    out: &mut O,
) -> Result<(u16, u16), Halt>
    ensures { Does (picture.picture) (answer_of result)
        (scene memory.old (input_of (C.left console.old) (C.calls console.old)) (C.faults console.old) (O.held out.old) (O.faults out.old))
        (scene memory.new (input_of (C.left console.new) (C.calls console.new)) (C.faults console.new) (O.held out.new) (O.faults out.new)) }
{
    let address = hold_pointer(memory, console, out)?;
    let start = memory.data_start();
    let size = less(start + 96, address);
    Ok((address, size))
}

/// Prints a number of this size, with its sign, and a space.
pub(crate) fn print_number<C: Source, O: Sink>(
    size: u16,
    negative: bool,
    memory: &mut Memory,
    console: &mut C,
    out: &mut O,
) -> Result<(), Halt>
    ensures { Does (picture.print_number size negative) (answer_of result)
        (scene memory.old (input_of (C.left console.old) (C.calls console.old)) (C.faults console.old) (O.held out.old) (O.faults out.old))
        (scene memory.new (input_of (C.left console.new) (C.calls console.new)) (C.faults console.new) (O.held out.new) (O.faults out.new)) }
{
    open_picture(memory, out)?;
    hold_all(u32::from(size), memory, console, out)?;
    hold_sign(negative, memory, console, out)?;
    let picture = held(memory, console, out)?;
    type_out(picture.1, picture.0, memory, console, out)?;
    memory.store(0x4000, 32, out)
}
