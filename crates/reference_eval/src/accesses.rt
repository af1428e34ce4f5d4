// Fetches and stores of bytes, of pairs of cells, and of the fixed cells of data space.
ghost use Rattle.std.specs.Prelude.{◌≡◌, ◌+◌, ℕ, List, Option};
ghost use Rattle.cell_math.specs.Cell.{sum_of};
ghost use Rattle.console_ports.specs.Ports.{even};
ghost use Rattle.forth_program.specs.State.{Gives, ◌▸◌};
ghost use Rattle.forth_program.specs.Access as access;
ghost use Rattle.reference_eval.specs.Outside.{scene, input_of, Input};
ghost use Rattle.reference_eval.specs.Answers.{Does, answer_of};

use crate::ends::Halt;
use crate::memory::Memory;
use cell_math::add;
use outside_io::{Sink, Source};

// The byte at an address, of its cell.
fn byte_of(address: u16, cell: u16) -> u16
    ensures { result ≡ access.byte_of address cell }
{
    if address % 2 == 0 {
        cell % 256
    } else {
        cell / 256
    }
}

// The cell with a byte at that address.
fn with_byte(address: u16, cell: u16, byte: u16) -> u16
    ensures { result ≡ access.with_byte address cell byte }
{
    if address % 2 == 0 {
        cell - cell % 256 + byte % 256
    } else {
        cell % 256 + 256 * (byte % 256)
    }
}

/// The byte at an address.
pub(crate) fn fetch_byte<C: Source, O: Sink>(
    address: u16,
    memory: &mut Memory,
    console: &mut C,
    out: &mut O,
) -> Result<u16, Halt>
    ensures { Does (access.fetch_byte address) (answer_of result)
        (scene memory.old (input_of (C.left console.old) (C.calls console.old)) (C.faults console.old) (O.held out.old) (O.faults out.old))
        (scene memory.new (input_of (C.left console.new) (C.calls console.new)) (C.faults console.new) (O.held out.new) (O.faults out.new)) }
{
    let cell = memory.fetch(address, console, out)?;
    Ok(byte_of(address, cell))
}

/// Stores the low byte of a cell at an address.
pub(crate) fn store_byte<C: Source, O: Sink>(
    address: u16,
    byte: u16,
    memory: &mut Memory,
    console: &mut C,
    out: &mut O,
) -> Result<(), Halt>
    ensures { Does (access.store_byte address byte) (answer_of result)
        (scene memory.old (input_of (C.left console.old) (C.calls console.old)) (C.faults console.old) (O.held out.old) (O.faults out.old))
        (scene memory.new (input_of (C.left console.new) (C.calls console.new)) (C.faults console.new) (O.held out.new) (O.faults out.new)) }
{
    let cell = memory.fetch(address, console, out)?;
    memory.store(address, with_byte(address, cell, byte), out)
}

/// `BASE`, the radix of numbers.
pub(crate) fn base<C: Source, O: Sink>(
    memory: &mut Memory,
    console: &mut C,
    out: &mut O,
) -> Result<u16, Halt>
    ensures { Does (access.base) (answer_of result)
        (scene memory.old (input_of (C.left console.old) (C.calls console.old)) (C.faults console.old) (O.held out.old) (O.faults out.old))
        (scene memory.new (input_of (C.left console.new) (C.calls console.new)) (C.faults console.new) (O.held out.new) (O.faults out.new)) }
{
    let start = memory.data_start();
    memory.fetch(start, console, out)
}

/// `HERE`, the address behind what data space holds.
pub(crate) fn here<C: Source, O: Sink>(
    memory: &mut Memory,
    console: &mut C,
    out: &mut O,
) -> Result<u16, Halt>
    ensures { Does (access.here) (answer_of result)
        (scene memory.old (input_of (C.left console.old) (C.calls console.old)) (C.faults console.old) (O.held out.old) (O.faults out.old))
        (scene memory.new (input_of (C.left console.new) (C.calls console.new)) (C.faults console.new) (O.held out.new) (O.faults out.new)) }
{
    let start = memory.data_start();
    memory.fetch(start + 4, console, out)
}

/// Stores `HERE`.
pub(crate) fn set_here<O: Sink>(address: u16, memory: &mut Memory, out: &mut O) -> Result<(), Halt>
    ensures { (input : Input) (reads : ℕ) → Does (λ w. access.store (w.data_start + 4) address w) (answer_of result)
        (scene memory.old input reads (O.held out.old) (O.faults out.old))
        (scene memory.new input reads (O.held out.new) (O.faults out.new)) }
{
    let start = memory.data_start();
    memory.store(start + 4, address, out)
}

/// Adds to `HERE`.
pub(crate) fn grow_here<C: Source, O: Sink>(
    size: u16,
    memory: &mut Memory,
    console: &mut C,
    out: &mut O,
) -> Result<(), Halt>
    ensures { Does (access.grow_here size) (answer_of result)
        (scene memory.old (input_of (C.left console.old) (C.calls console.old)) (C.faults console.old) (O.held out.old) (O.faults out.old))
        (scene memory.new (input_of (C.left console.new) (C.calls console.new)) (C.faults console.new) (O.held out.new) (O.faults out.new)) }
{
    let old = here(memory, console, out)?;
    set_here(add(old, size), memory, out)
}

/// Stores `BASE`.
pub(crate) fn set_base<O: Sink>(radix: u16, memory: &mut Memory, out: &mut O) -> Result<(), Halt>
    ensures { (input : Input) (reads : ℕ) → Does (λ w. access.store w.data_start radix w) (answer_of result)
        (scene memory.old input reads (O.held out.old) (O.faults out.old))
        (scene memory.new input reads (O.held out.new) (O.faults out.new)) }
{
    let start = memory.data_start();
    memory.store(start, radix, out)
}

/// Makes `HERE` even.
pub(crate) fn align_here<C: Source, O: Sink>(
    memory: &mut Memory,
    console: &mut C,
    out: &mut O,
) -> Result<(), Halt>
    ensures { Does (λ w. access.here w ▸ λ h w. access.store (w.data_start + 4) (even (sum_of h 1)) w) (answer_of result)
        (scene memory.old (input_of (C.left console.old) (C.calls console.old)) (C.faults console.old) (O.held out.old) (O.faults out.old))
        (scene memory.new (input_of (C.left console.new) (C.calls console.new)) (C.faults console.new) (O.held out.new) (O.faults out.new)) }
{
    let old = here(memory, console, out)?;
    set_here(add(old, 1) / 2 * 2, memory, out)
}

/// `,`: a cell at `HERE`, which grows by it.
pub(crate) fn comma<C: Source, O: Sink>(
    x: u16,
    memory: &mut Memory,
    console: &mut C,
    out: &mut O,
) -> Result<(), Halt>
    ensures { Does (λ w. access.here w ▸ λ h w. access.store h x w ▸ λ _ w. access.grow_here 2 w) (answer_of result)
        (scene memory.old (input_of (C.left console.old) (C.calls console.old)) (C.faults console.old) (O.held out.old) (O.faults out.old))
        (scene memory.new (input_of (C.left console.new) (C.calls console.new)) (C.faults console.new) (O.held out.new) (O.faults out.new)) }
{
    let old = here(memory, console, out)?;
    memory.store(old, x, out)?;
    grow_here(2, memory, console, out)
}

/// `C,`: a byte at `HERE`, which grows by it.
pub(crate) fn comma_byte<C: Source, O: Sink>(
    x: u16,
    memory: &mut Memory,
    console: &mut C,
    out: &mut O,
) -> Result<(), Halt>
    ensures { Does (λ w. access.here w ▸ λ h w. access.store_byte h x w ▸ λ _ w. access.grow_here 1 w) (answer_of result)
        (scene memory.old (input_of (C.left console.old) (C.calls console.old)) (C.faults console.old) (O.held out.old) (O.faults out.old))
        (scene memory.new (input_of (C.left console.new) (C.calls console.new)) (C.faults console.new) (O.held out.new) (O.faults out.new)) }
{
    let old = here(memory, console, out)?;
    store_byte(old, x, memory, console, out)?;
    grow_here(1, memory, console, out)
}

/// `+!`: adds to the cell at an address.
pub(crate) fn add_at<C: Source, O: Sink>(
    address: u16,
    x: u16,
    memory: &mut Memory,
    console: &mut C,
    out: &mut O,
) -> Result<(), Halt>
    ensures { Does (λ w. access.fetch address w ▸ λ y w. access.store address (sum_of y x) w) (answer_of result)
        (scene memory.old (input_of (C.left console.old) (C.calls console.old)) (C.faults console.old) (O.held out.old) (O.faults out.old))
        (scene memory.new (input_of (C.left console.new) (C.calls console.new)) (C.faults console.new) (O.held out.new) (O.faults out.new)) }
{
    let old = memory.fetch(address, console, out)?;
    memory.store(address, add(old, x), out)
}

/// `2@`: the cell behind an address, and the one at it.
pub(crate) fn fetch_pair<C: Source, O: Sink>(
    address: u16,
    memory: &mut Memory,
    console: &mut C,
    out: &mut O,
) -> Result<(u16, u16), Halt>
    ensures { Does (λ w. access.fetch (sum_of address 2) w ▸ λ x w. access.fetch address w ▸ λ y. Gives (x, y)) (answer_of result)
        (scene memory.old (input_of (C.left console.old) (C.calls console.old)) (C.faults console.old) (O.held out.old) (O.faults out.old))
        (scene memory.new (input_of (C.left console.new) (C.calls console.new)) (C.faults console.new) (O.held out.new) (O.faults out.new)) }
{
    let x = memory.fetch(add(address, 2), console, out)?;
    let y = memory.fetch(address, console, out)?;
    Ok((x, y))
}

/// `2!`: a cell at an address, and one behind it.
pub(crate) fn store_pair<O: Sink>(
    address: u16,
    x: u16,
    y: u16,
    memory: &mut Memory,
    out: &mut O,
) -> Result<(), Halt>
    ensures { (input : Input) (reads : ℕ) → Does (λ w. access.store address y w ▸ λ _ w. access.store (sum_of address 2) x w) (answer_of result)
        (scene memory.old input reads (O.held out.old) (O.faults out.old))
        (scene memory.new input reads (O.held out.new) (O.faults out.new)) }
{
    memory.store(address, y, out)?;
    memory.store(add(address, 2), x, out)
}

/// `COUNT`: the address behind a byte, and the byte.
pub(crate) fn count<C: Source, O: Sink>(
    address: u16,
    memory: &mut Memory,
    console: &mut C,
    out: &mut O,
) -> Result<(u16, u16), Halt>
    ensures { Does (λ w. access.fetch_byte address w ▸ λ x. Gives (sum_of address 1, x)) (answer_of result)
        (scene memory.old (input_of (C.left console.old) (C.calls console.old)) (C.faults console.old) (O.held out.old) (O.faults out.old))
        (scene memory.new (input_of (C.left console.new) (C.calls console.new)) (C.faults console.new) (O.held out.new) (O.faults out.new)) }
{
    let byte = fetch_byte(address, memory, console, out)?;
    Ok((add(address, 1), byte))
}
