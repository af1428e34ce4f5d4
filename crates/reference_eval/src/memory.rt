// Data space, and the bytes that wait to be written.
ghost use Rattle.std.specs.Prelude.{◌≡◌, ◌+◌, ◌-◌, ◌/◌, ◌%◌, ◌++◌, ◌≤◌, ◌<◌, ℕ, List, Option, [], false, length, IfOk, OnOk, IfSome, MatchResult, OnErr, slice_get, slice_index, slice_set, drop};
ghost use Rattle.cell_math.specs.Bytes.{cells_of_bytes, filled};
ghost use Rattle.outside_io.specs.Causes.{HasCause, risen};
ghost use Rattle.forth_program.specs.Access as access;
ghost use Rattle.console_ports.specs.DataSpace.{IsDataStart};
ghost use Rattle.reference_eval.specs.Outside.{Leads, NotWritten, Whole, scene, input_of, Input};
ghost use Rattle.reference_eval.specs.Answers.{Does, Gave, answer_of};
ghost use Rattle.reference_eval.specs.Steps.{IsSame, Prints};

use crate::buffers::Buffer;
use crate::ends::{End, Halt};
use console_ports::{Access, Fence, access};
use forth_program::Program;
use outside_io::{Failed, Sink, Source};
use std::alloc::{AllocError, Global};
use std::marker::Model;

/// Data space and what waits to be written. Where a write has failed, nothing more is written.
#[derive(Drop)]
pub(crate) struct Memory {
    fence: Fence,
    space: Vec<u16>,
    buffer: Buffer,
    failed: bool,
}

impl Model for Memory {
    ghost use Rattle.reference_eval.specs.Outside.{MemoryState};
    ghost use Rattle.reference_eval.specs.Steps.{IsMemory};

    ghost Value = { MemoryState };

    ghost view = { λ m. record { data_start = m.fence.data_start; space = m.space.items; waiting = m.buffer; failed = m.failed } };

    ghost invariant = { λ m. IsMemory (record { data_start = m.fence.data_start; space = m.space.items; waiting = m.buffer; failed = m.failed }) };
}

// Appends bytes as cells, the low byte first.
fn add_bytes(cells: &mut Vec<u16>, bytes: &[u8]) -> Result<(), AllocError>
    ensures { OnOk result (cells.new.items ≡ cells.old.items ++ cells_of_bytes bytes.now) }
{
    let mut rest = bytes;
    while let [low, high, others @ ..] = rest {
        cells.push(u16::from(*low) + 256 * u16::from(*high))?;
        rest = others;
    }
    if let [low] = rest {
        cells.push(u16::from(*low))?;
    }
    Ok(())
}

// Adds zeros, up to a length.
#[tactic(auto, using(std::proofs::lemmas::List::take_all))]
fn fill(cells: &mut Vec<u16>, len: usize) -> Result<(), AllocError>
    requires { length cells.old.items ≤ len }
    ensures items { OnOk result (cells.new.items ≡ filled len cells.old.items) }
    ensures len { OnOk result (length cells.new.items ≡ len) }
{
    cells.resize(len, 0)
}

// Asks the console for one byte.
fn ask<C: Source>(console: &mut C) -> Result<Option<u8>, Failed>
    ensures byte { IfSome (C.left console.old) (λ input. MatchResult result (λ byte. (byte ≡ slice_get input 0) × (C.left console.new ≡ Some (drop 1 input))) (λ _. C.left console.new ≡ Some input)) }
    ensures calls { C.calls console.new ≡ risen (C.calls console.old) }
    ensures cause { HasCause (C.faults console.old) (C.faults console.new) result }
{
    let mut buf = [0u8; 1];
    match console.read(&mut buf) {
        Ok(0) => Ok(None),
        Ok(_) => Ok(Some(buf[0])),
        Err(failed) => Err(failed),
    }
}

fn cell_at(space: &[u16], i: usize) -> u16
    requires { i < length space.now }
    ensures { result ≡ slice_index space.now i }
{
    space[i]
}

fn set_cell(space: &mut Vec<u16>, i: usize, cell: u16)
    requires { i < length space.old.items }
    ensures { space.new.items ≡ slice_set space.old.items i cell }
{
    space[i] = cell;
}

impl Memory {
    /// Data space as the source leaves it.
    #[tactic(auto, using(crate::proofs::Bytes::cells_few))]
    pub(crate) fn new(alloc: Global, program: &Program) -> Result<Memory, AllocError>
        ensures { IfOk result (λ memory. memory ≡ record { data_start = program.now.data_start; space = filled ((0x4000 - program.now.data_start) / 2) (cells_of_bytes program.now.first_space); waiting = []; failed = false }) }
    {
        let data_start = program.data_start();
        let mut space = Vec::new(alloc);
        add_bytes(&mut space, program.space())?;
        fill(&mut space, usize::from((0x4000 - data_start) / 2))?;
        Ok(Memory {
            fence: Fence { data_start },
            space,
            buffer: Buffer::new(),
            failed: false,
        })
    }

    /// The byte address at which data space begins.
    pub(crate) fn data_start(&self) -> u16
        ensures value { result ≡ self.now.data_start }
        ensures form { IsDataStart result }
    {
        self.fence.data_start
    }

    /// Whether a write has failed.
    pub(crate) fn has_failed(&self) -> bool
        ensures { result ≡ self.now.failed }
    {
        self.failed
    }

    /// Writes out what waits.
    pub(crate) fn flush<O: Sink>(&mut self, out: &mut O)
        ensures leads { (input : Input) (reads : ℕ) → Leads IsSame Whole
            (scene self.old input reads (O.held out.old) (O.faults out.old))
            (scene self.new input reads (O.held out.new) (O.faults out.new)) }
        ensures empty { self.new.failed ≡ false → self.new.waiting ≡ [] }
        ensures well { self.old.waiting ≡ [] → self.old.failed ≡ false → self.new.failed ≡ false }
    {
        if self.failed {
            return;
        }
        match self.buffer.flush(out) {
            Ok(()) => {}
            Err(_) => self.failed = true,
        }
    }

    // Writes out what waits, where the buffer is full.
    fn make_room<O: Sink>(&mut self, out: &mut O)
        ensures leads { (input : Input) (reads : ℕ) → Leads IsSame Whole
            (scene self.old input reads (O.held out.old) (O.faults out.old))
            (scene self.new input reads (O.held out.new) (O.faults out.new)) }
        ensures room { self.new.failed ≡ false → length self.new.waiting < 512 }
    {
        if self.buffer.is_full() {
            self.flush(out);
        }
    }

    /// Prints the low byte of a cell.
    pub(crate) fn print<O: Sink>(&mut self, cell: u16, out: &mut O)
        ensures { (input : Input) (reads : ℕ) → Leads (Prints cell) Whole
            (scene self.old input reads (O.held out.old) (O.faults out.old))
            (scene self.new input reads (O.held out.new) (O.faults out.new)) }
    {
        self.make_room(out);
        if !self.failed {
            self.buffer.push((cell % 256) as u8);
        }
    }

    /// Takes an input byte. What was printed is written out before.
    fn take<C: Source, O: Sink>(&mut self, console: &mut C, out: &mut O) -> Result<u16, Halt>
        ensures { Does access.take_key (answer_of result)
            (scene self.old (input_of (C.left console.old) (C.calls console.old)) (C.faults console.old) (O.held out.old) (O.faults out.old))
            (scene self.new (input_of (C.left console.new) (C.calls console.new)) (C.faults console.new) (O.held out.new) (O.faults out.new)) }
    {
        self.flush(out);
        if self.failed {
            return Err(Halt::Write);
        }
        match ask(console) {
            Ok(Some(byte)) => Ok(u16::from(byte)),
            Ok(None) => Err(Halt::Ended(End::InputEnded)),
            Err(_) => Err(Halt::Read),
        }
    }

    /// The cell at an address, or an input byte.
    pub(crate) fn fetch<C: Source, O: Sink>(
        &mut self,
        address: u16,
        console: &mut C,
        out: &mut O,
    ) -> Result<u16, Halt>
        ensures { Does (access.fetch address) (answer_of result)
            (scene self.old (input_of (C.left console.old) (C.calls console.old)) (C.faults console.old) (O.held out.old) (O.faults out.old))
            (scene self.new (input_of (C.left console.new) (C.calls console.new)) (C.faults console.new) (O.held out.new) (O.faults out.new)) }
    {
        match access(address, self.fence, false) {
            Access::Data(place) => {
                Ok(cell_at(
                    self.space.as_slice(),
                    place - usize::from(self.fence.data_start / 2),
                ))
            }
            Access::Key => self.take(console, out),
            Access::Outside(outside) => Err(Halt::Ended(End::Outside(outside))),
            Access::Print => Err(Halt::Ended(End::Outside(0x4000))),
            Access::Halt => Err(Halt::Ended(End::Outside(0x4004))),
        }
    }

    /// Stores a cell at an address, or prints its low byte, or ends the run with it.
    pub(crate) fn store<O: Sink>(
        &mut self,
        address: u16,
        cell: u16,
        out: &mut O,
    ) -> Result<(), Halt>
        ensures { (input : Input) (reads : ℕ) → Does (access.store address cell) (answer_of result)
            (scene self.old input reads (O.held out.old) (O.faults out.old))
            (scene self.new input reads (O.held out.new) (O.faults out.new)) }
    {
        match access(address, self.fence, true) {
            Access::Data(place) => {
                set_cell(
                    &mut self.space,
                    place - usize::from(self.fence.data_start / 2),
                    cell,
                );
                Ok(())
            }
            Access::Print => {
                self.print(cell, out);
                Ok(())
            }
            Access::Halt => Err(Halt::Ended(End::Halted((cell % 256) as u8))),
            Access::Outside(outside) => Err(Halt::Ended(End::Outside(outside))),
            Access::Key => Err(Halt::Ended(End::Outside(0x4002))),
        }
    }
}
