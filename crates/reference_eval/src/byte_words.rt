// Words that go over bytes one by one.
ghost use Rattle.std.specs.Prelude.{◌≡◌, ◌+◌, ◌*◌, ◌%◌, ℕ, List, Option};
ghost use Rattle.cell_math.specs.Cell.{signed as signed_view};
ghost use Rattle.forth_program.specs.State.{◌▸◌};
ghost use Rattle.forth_program.specs.Access.{base as base_of};
ghost use Rattle.forth_program.specs.ByteWords as bytes;
ghost use Rattle.reference_eval.specs.Outside.{scene, input_of, Input};
ghost use Rattle.reference_eval.specs.Answers.{Does, answer_of};

use crate::accesses::{base, fetch_byte, store_byte};
use crate::ends::Halt;
use crate::memory::Memory;
use cell_math::{add, signed};
use outside_io::{Sink, Source};

/// Prints bytes from an address on.
pub(crate) fn type_out<C: Source, O: Sink>(
    size: u16,
    address: u16,
    memory: &mut Memory,
    console: &mut C,
    out: &mut O,
) -> Result<(), Halt>
    ensures { Does (bytes.type_out size address) (answer_of result)
        (scene memory.old (input_of (C.left console.old) (C.calls console.old)) (C.faults console.old) (O.held out.old) (O.faults out.old))
        (scene memory.new (input_of (C.left console.new) (C.calls console.new)) (C.faults console.new) (O.held out.new) (O.faults out.new)) }
{
    let mut left = size;
    let mut at = address;
    while left > 0 {
        let byte = fetch_byte(at, memory, console, out)?;
        memory.store(0x4000, byte, out)?;
        at = add(at, 1);
        left -= 1;
    }
    Ok(())
}

// A count that is not positive is 0.
fn positive(count: u16) -> u16
    ensures { result ≡ bytes.positive (signed_view count) }
{
    if signed(count) > 0 { count } else { 0 }
}

/// Prints spaces; a count that is not positive is 0.
pub(crate) fn emit_spaces<O: Sink>(count: u16, memory: &mut Memory, out: &mut O) -> Result<(), Halt>
    ensures { (input : Input) (reads : ℕ) → Does (bytes.emit_spaces (bytes.positive (signed_view count))) (answer_of result)
        (scene memory.old input reads (O.held out.old) (O.faults out.old))
        (scene memory.new input reads (O.held out.new) (O.faults out.new)) }
{
    let mut left = positive(count);
    while left > 0 {
        memory.store(0x4000, 32, out)?;
        left -= 1;
    }
    Ok(())
}

/// Stores a byte at addresses from one on.
pub(crate) fn fill<C: Source, O: Sink>(
    size: u16,
    address: u16,
    byte: u16,
    memory: &mut Memory,
    console: &mut C,
    out: &mut O,
) -> Result<(), Halt>
    ensures { Does (bytes.fill size address byte) (answer_of result)
        (scene memory.old (input_of (C.left console.old) (C.calls console.old)) (C.faults console.old) (O.held out.old) (O.faults out.old))
        (scene memory.new (input_of (C.left console.new) (C.calls console.new)) (C.faults console.new) (O.held out.new) (O.faults out.new)) }
{
    let mut left = size;
    let mut at = address;
    while left > 0 {
        store_byte(at, byte, memory, console, out)?;
        at = add(at, 1);
        left -= 1;
    }
    Ok(())
}

// Copies a byte.
fn copy_byte<C: Source, O: Sink>(
    from: u16,
    to: u16,
    memory: &mut Memory,
    console: &mut C,
    out: &mut O,
) -> Result<(), Halt>
    ensures { Does (bytes.copy_byte from to) (answer_of result)
        (scene memory.old (input_of (C.left console.old) (C.calls console.old)) (C.faults console.old) (O.held out.old) (O.faults out.old))
        (scene memory.new (input_of (C.left console.new) (C.calls console.new)) (C.faults console.new) (O.held out.new) (O.faults out.new)) }
{
    let byte = fetch_byte(from, memory, console, out)?;
    store_byte(to, byte, memory, console, out)
}

// Copies bytes, the first one first.
fn move_up<C: Source, O: Sink>(
    size: u16,
    from: u16,
    to: u16,
    memory: &mut Memory,
    console: &mut C,
    out: &mut O,
) -> Result<(), Halt>
    ensures { Does (bytes.move_up size from to) (answer_of result)
        (scene memory.old (input_of (C.left console.old) (C.calls console.old)) (C.faults console.old) (O.held out.old) (O.faults out.old))
        (scene memory.new (input_of (C.left console.new) (C.calls console.new)) (C.faults console.new) (O.held out.new) (O.faults out.new)) }
{
    let mut left = size;
    let mut source = from;
    let mut target = to;
    while left > 0 {
        copy_byte(source, target, memory, console, out)?;
        source = add(source, 1);
        target = add(target, 1);
        left -= 1;
    }
    Ok(())
}

// Copies bytes, the last one first.
fn move_down<C: Source, O: Sink>(
    size: u16,
    from: u16,
    to: u16,
    memory: &mut Memory,
    console: &mut C,
    out: &mut O,
) -> Result<(), Halt>
    ensures { Does (bytes.move_down size from to) (answer_of result)
        (scene memory.old (input_of (C.left console.old) (C.calls console.old)) (C.faults console.old) (O.held out.old) (O.faults out.old))
        (scene memory.new (input_of (C.left console.new) (C.calls console.new)) (C.faults console.new) (O.held out.new) (O.faults out.new)) }
{
    let mut left = size;
    while left > 0 {
        left -= 1;
        copy_byte(add(from, left), add(to, left), memory, console, out)?;
    }
    Ok(())
}

/// Copies bytes as if to a place apart.
pub(crate) fn move_bytes<C: Source, O: Sink>(
    size: u16,
    from: u16,
    to: u16,
    memory: &mut Memory,
    console: &mut C,
    out: &mut O,
) -> Result<(), Halt>
    ensures { Does (bytes.move size from to) (answer_of result)
        (scene memory.old (input_of (C.left console.old) (C.calls console.old)) (C.faults console.old) (O.held out.old) (O.faults out.old))
        (scene memory.new (input_of (C.left console.new) (C.calls console.new)) (C.faults console.new) (O.held out.new) (O.faults out.new)) }
{
    if from < to {
        move_down(size, from, to, memory, console, out)
    } else {
        move_up(size, from, to, memory, console, out)
    }
}

/// Stores bytes of input until byte 10 is taken, and gives how many were stored.
pub(crate) fn accept<C: Source, O: Sink>(
    most: u16,
    address: u16,
    memory: &mut Memory,
    console: &mut C,
    out: &mut O,
) -> Result<u16, Halt>
    ensures { Does (bytes.accept most address 0) (answer_of result)
        (scene memory.old (input_of (C.left console.old) (C.calls console.old)) (C.faults console.old) (O.held out.old) (O.faults out.old))
        (scene memory.new (input_of (C.left console.new) (C.calls console.new)) (C.faults console.new) (O.held out.new) (O.faults out.new)) }
{
    let mut kept = 0;
    let mut left = most;
    let mut at = address;
    while left > 0 {
        let byte = memory.fetch(0x4002, console, out)?;
        if byte == 10 {
            return Ok(kept);
        }
        store_byte(at, byte, memory, console, out)?;
        kept += 1;
        at = add(at, 1);
        left -= 1;
    }
    Ok(kept)
}

// The digit that a byte is.
fn digit_of(radix: u16, byte: u16) -> Option<u16>
    ensures { result ≡ bytes.digit_of radix byte }
{
    let value = match byte {
        48..=57 => byte - 48,
        65..=90 => byte - 55,
        97..=122 => byte - 87,
        _ => return None,
    };
    if value < radix { Some(value) } else { None }
}

// A number with one more digit, modulo 2 to the 32nd.
fn with_digit(number: u32, radix: u16, digit: u16) -> u32
    ensures { result ≡ (number * radix + digit) % 4294967296 }
{
    ((u64::from(number) * u64::from(radix) + u64::from(digit)) % 0x1_0000_0000) as u32
}

/// Adds the digits among bytes to a number, modulo 2 to the 32nd. Gives it with the address and the count of what is left.
pub(crate) fn number_from<C: Source, O: Sink>(
    number: u32,
    address: u16,
    size: u16,
    memory: &mut Memory,
    console: &mut C,
    out: &mut O,
) -> Result<(u32, u16, u16), Halt>
    ensures { Does (λ w. base_of w ▸ λ b w. bytes.number_from b size address number w) (answer_of result)
        (scene memory.old (input_of (C.left console.old) (C.calls console.old)) (C.faults console.old) (O.held out.old) (O.faults out.old))
        (scene memory.new (input_of (C.left console.new) (C.calls console.new)) (C.faults console.new) (O.held out.new) (O.faults out.new)) }
{
    let radix = base(memory, console, out)?;
    let mut value = number;
    let mut at = address;
    let mut left = size;
    while left > 0 {
        let byte = fetch_byte(at, memory, console, out)?;
        let Some(digit) = digit_of(radix, byte) else {
            return Ok((value, at, left));
        };
        value = with_digit(value, radix, digit);
        at = add(at, 1);
        left -= 1;
    }
    Ok((value, at, left))
}
