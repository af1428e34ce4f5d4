// Traces of whole runs over a console and an output.
ghost use Rattle.std.specs.Prelude.{◌≡◌, ◌+◌, ◌≤◌, Some, None, Err, MatchResult, IfOk, OnErr};
ghost use Rattle.std.specs.Io.KnownBytes.{Keeps, Consumes, IsAtEnd};
ghost use Rattle.outside_io.specs.Causes.{Rose, HasCause};
ghost use Rattle.j1_simulator.specs.MachineState.{WantsAByte};
ghost use Rattle.instruction_trace.specs.Turn.{bytes_of, asked, Makes, IsShownBy, TurnEnds};
ghost use Rattle.instruction_trace.specs.Leaves.{IsTraceOf};

use crate::lines::instruction_line;
use crate::outcomes::write_outcome;
use j1_simulator::{End, Event, Finish, Machine, runs_only_grow, steps_are_the_run};
use j1_table::Image;
use outside_io::{Failed, Sink, Source};
use std::alloc::{AllocError, Global};

/// Why a trace broke off.
#[derive(Clone, Copy, Debug, PartialEq, Eq)]
pub enum TraceError {
    /// The console could not be read. Out has the line of the instruction that wants its byte.
    Read,
    /// Out could not be written. It has a beginning of the trace.
    Write,
    /// There was no memory for the machine, or for the line of the next instruction. Out has the trace so far.
    OutOfMemory,
}

// Asks the console for one byte.
fn ask<C: Source>(console: &mut C) -> Result<Option<u8>, TraceError>
    ensures bytes { MatchResult result (λ byte. Consumes (C.left console.old) (C.left console.new) (bytes_of (Some byte)) × (byte ≡ None → IsAtEnd (C.left console.new))) (λ _. Keeps (C.left console.old) (C.left console.new)) }
    ensures err { OnErr result (result ≡ Err TraceError.Read) }
    ensures cause { HasCause (C.faults console.old) (C.faults console.new) result }
    ensures calls { C.calls console.new ≤ C.calls console.old + 1 }
{
    let mut buf = [0u8; 1];
    match console.read(&mut buf) {
        Ok(0) => Ok(None),
        Ok(_) => Ok(Some(buf[0])),
        Err(Failed) => Err(TraceError::Read),
    }
}

// What an instruction did, and what it took where it asked.
#[derive(Clone, Copy, Debug, PartialEq, Eq)]
struct Made {
    event: Event,
    taken: Option<Option<u8>>,
}

// Makes the next instruction, with the question for its byte.
fn make<C: Source>(machine: &mut Machine, console: &mut C) -> Result<Made, TraceError>
    requires running { machine.old.ended ≡ None }
    requires given { machine.old.given ≡ None }
    ensures makes { IfOk result (λ made. Makes machine.old machine.new made.event made.taken) }
    ensures took { IfOk result (λ made. Consumes (C.left console.old) (C.left console.new) (bytes_of made.taken)) }
    ensures at_end { IfOk result (λ made. made.taken ≡ Some None → IsAtEnd (C.left console.new)) }
    ensures calls { IfOk result (λ made. C.calls console.new ≤ C.calls console.old + asked made.taken) }
    ensures err { OnErr result (result ≡ Err TraceError.Read) }
    ensures kept { OnErr result (Keeps (C.left console.old) (C.left console.new)) }
    ensures wants { OnErr result (WantsAByte machine.old) }
    ensures asked { C.calls console.new ≤ C.calls console.old + 1 }
    ensures cause { HasCause (C.faults console.old) (C.faults console.new) result }
{
    steps_are_the_run();
    match machine.step_apart() {
        Event::WantsByte => {
            let byte = ask(console)?;
            machine.give_byte(byte);
            let event = machine.step_apart();
            Ok(Made {
                event,
                taken: Some(byte),
            })
        }
        event => Ok(Made { event, taken: None }),
    }
}

// Writes the line of the next instruction.
fn show<O: Sink>(
    alloc: Global,
    number: u32,
    machine: &Machine,
    out: &mut O,
) -> Result<(), TraceError>
    requires { machine.now.ended ≡ None }
    ensures shown { IsShownBy result number machine.now (O.held out.old) (O.held out.new) }
    ensures cause { result ≡ Err TraceError.Write → Rose (O.faults out.old) (O.faults out.new) }
    ensures faults { O.faults out.old ≤ O.faults out.new }
{
    match instruction_line(alloc, number, machine) {
        Ok(line) => match out.write(line.as_slice()) {
            Ok(()) => Ok(()),
            Err(Failed) => Err(TraceError::Write),
        },
        Err(AllocError) => Err(TraceError::OutOfMemory),
    }
}

// Writes the line of the next instruction, makes it, and writes that of its byte.
fn turn<C: Source, O: Sink>(
    alloc: Global,
    number: u32,
    machine: &mut Machine,
    console: &mut C,
    out: &mut O,
) -> Result<Option<End>, TraceError>
    requires running { machine.old.ended ≡ None }
    requires given { machine.old.given ≡ None }
    ensures ends { TurnEnds number result machine.old machine.new (C.left console.old) (C.left console.new) (O.held out.old) (O.held out.new) (C.calls console.old) (C.calls console.new) }
    ensures read_cause { result ≡ Err TraceError.Read → Rose (C.faults console.old) (C.faults console.new) }
    ensures write_cause { result ≡ Err TraceError.Write → Rose (O.faults out.old) (O.faults out.new) }
    ensures console_faults { C.faults console.old ≤ C.faults console.new }
    ensures out_faults { O.faults out.old ≤ O.faults out.new }
    ensures calls { C.calls console.new ≤ C.calls console.old + 1 }
{
    show(alloc, number, machine, out)?;
    let made = make(machine, console)?;
    match write_outcome(made.event, made.taken, out) {
        Ok(()) => Ok(machine.ended()),
        Err(Failed) => Err(TraceError::Write),
    }
}

/// The trace of at most `n` instructions on an image, with the input from `console`, written to `out` as it comes.
///
/// The line of an instruction is written before it is made, and that of its byte when it has been. The console is asked for one byte, and only
/// where the next instruction takes one. The answer is the end of the run, and `StepsUsed` exactly where it has none within `n` instructions.
pub fn trace<C: Source, O: Sink>(
    alloc: Global,
    image: &Image,
    n: u32,
    console: &mut C,
    out: &mut O,
) -> Result<Finish, TraceError>
    ensures trace { IsTraceOf image.now n result (C.left console.old) (C.left console.new) (O.held out.old) (O.held out.new) (C.calls console.old) (C.calls console.new) }
    ensures read_cause { result ≡ Err TraceError.Read → Rose (C.faults console.old) (C.faults console.new) }
    ensures write_cause { result ≡ Err TraceError.Write → Rose (O.faults out.old) (O.faults out.new) }
    ensures console_faults { C.faults console.old ≤ C.faults console.new }
    ensures out_faults { O.faults out.old ≤ O.faults out.new }
    ensures calls { C.calls console.new ≤ C.calls console.old + n }
{
    runs_only_grow();
    let mut machine = match Machine::new(alloc, image) {
        Ok(machine) => machine,
        Err(AllocError) => return Err(TraceError::OutOfMemory),
    };
    for made in 0..n {
        if let Some(end) = turn(alloc, made + 1, &mut machine, console, out)? {
            return Ok(Finish::Ended(end));
        }
    }
    Ok(Finish::StepsUsed)
}
