// Whole runs over a console and an output.
ghost use Rattle.std.specs.Prelude.{ℕ, Bool, ◌&&◌, List, Option, ◌≡◌, ◌⊎◌, ◌+◌, ◌≤◌, ◌<◌, slice_get, length, [], ◌++◌, drop, option_map, OnOk, OnErr, IfSome, MatchResult, IfOk};
ghost use Rattle.outside_io.specs.Causes.{risen, Rose, HasCause};
ghost use Rattle.j1_simulator.specs.Run.{Configuration};
ghost use Rattle.j1_simulator.specs.RoundMachine.{RingCells};
ghost use Rattle.j1_simulator.specs.MachineState.{WantsAByte};
ghost use Rattle.j1_simulator.specs.Drive.{HoldsPrints, HoldsFront, HoldsAll, IsAt, told, end_of_event, given_after, IsDriven, IsBrokenOff, MadeAtMost, end_told, KeepsEnd};
ghost use Rattle.j1_simulator.specs.Turn.{Turns};

use crate::buffers::Buffer;
use crate::ends::{DriveError, End, Event, Finish};
use crate::machines::Machine;
use outside_io::{Failed, Sink, Source};

// Asks the console for one byte.
fn ask<C: Source>(console: &mut C) -> Result<Option<u8>, DriveError>
    ensures byte { IfSome (C.left console.old) (λ input. MatchResult result (λ byte. (byte ≡ slice_get input 0) × (C.left console.new ≡ Some (drop 1 input))) (λ _. C.left console.new ≡ Some input)) }
    ensures err { OnErr result (result ≡ Err DriveError.Read) }
    ensures cause { HasCause (C.faults console.old) (C.faults console.new) result }
    ensures calls { C.calls console.new ≡ risen (C.calls console.old) }
{
    let mut buf = [0u8; 1];
    match console.read(&mut buf) {
        Ok(0) => Ok(None),
        Ok(_) => Ok(Some(buf[0])),
        Err(Failed) => Err(DriveError::Read),
    }
}

// Notes what an event prints, and gives its end.
#[inline(always)]
fn note<O: Sink>(event: Event, buffer: &mut Buffer, out: &mut O) -> Result<Option<End>, DriveError>
    requires room { length buffer.old < 512 }
    requires answered { event ≡ Event.WantsByte → ⊥ }

    ensures room { OnOk result (length buffer.new < 512) }
    ensures end { IfOk result (λ end. end ≡ end_of_event event) }
    ensures err { OnErr result (result ≡ Err DriveError.Write) }
    ensures cause { HasCause (O.faults out.old) (O.faults out.new) result }
    ensures ok { (before : Option (List ℕ)) (printed : List ℕ) → HoldsPrints before (O.held out.old) (buffer.old ++ told event) printed →
        OnOk result (HoldsPrints before (O.held out.new) buffer.new printed) }
    ensures front { (before : Option (List ℕ)) (printed : List ℕ) → HoldsPrints before (O.held out.old) (buffer.old ++ told event) printed →
        OnErr result (HoldsFront before (O.held out.new) printed) }
    ensures grows { HoldsAll (O.held out.old) (O.held out.new) [] }
    ensures waits { OnOk result ((buffer.new ≡ []) ⊎ (buffer.new ≡ buffer.old ++ told event)) }
    ensures full { OnErr result ((length (buffer.old ++ told event) ≡ 512) × (told event ≡ [] → ⊥)) }
    ensures writes { O.calls out.new ≤ O.calls out.old + length (buffer.old ++ told event) }
    ensures fewer { OnOk result (O.calls out.new + length buffer.new ≤ O.calls out.old + length (buffer.old ++ told event)) }
{
    match event {
        Event::Went => Ok(None),
        Event::Printed(byte) => {
            buffer.push(byte);
            if buffer.is_full() {
                buffer.flush(out)?;
            }
            Ok(None)
        }
        Event::Ended(end) => Ok(Some(end)),
        Event::WantsByte => unreachable!(),
    }
}

// One instruction, with the question for its byte.
#[inline(always)]
fn turn<C: Source, O: Sink>(
    machine: &mut Machine,
    buffer: &mut Buffer,
    console: &mut C,
    out: &mut O,
) -> Result<Option<End>, DriveError>
    requires { length buffer.old < 512 }

    ensures room { OnOk result (length buffer.new < 512) }
    ensures read_cause { result ≡ Err DriveError.Read → Rose (C.faults console.old) (C.faults console.new) }
    ensures write_cause { result ≡ Err DriveError.Write → Rose (O.faults out.old) (O.faults out.new) }
    ensures console_faults { C.faults console.old ≤ C.faults console.new }
    ensures out_faults { O.faults out.old ≤ O.faults out.new }
    ensures calls { C.calls console.new ≤ C.calls console.old + 1 }

    ensures ended { IfOk result (λ end. end ≡ machine.new.ended) }
    ensures over { KeepsEnd machine.old machine.new }
    ensures wants { result ≡ Err DriveError.Read → WantsAByte machine.new }

    ensures kept { result ≡ Err DriveError.Read → machine.new ≡ machine.old }
    ensures given { machine.new.given ≡ None }
    ensures quiet { (WantsAByte machine.old → ⊥) → console.new ≡ console.old }

    ensures grows { HoldsAll (O.held out.old) (O.held out.new) [] }
    ensures run { Turns result machine.old machine.new (C.left console.old) (C.left console.new) (O.held out.old) (O.held out.new) buffer.old buffer.new (C.calls console.old) (C.calls console.new) (O.calls out.old) (O.calls out.new) }
{
    match machine.step() {
        Event::WantsByte => {
            buffer.flush(out)?;
            let byte = ask(console)?;
            machine.give_byte(byte);
            note(machine.step_apart(), buffer, out)
        }
        event => note(event, buffer, out),
    }
}

/// Makes at most `n` instructions, with the input from `console` and what is printed going to `out`.
///
/// The console is asked for one byte, and only where the next instruction takes one. What is printed waits in a buffer of
/// 512 bytes, which is written out before each such question, when it is full, and at the end, but only where a byte waits: `out` is
/// called at most once for each byte. Where the run has ended, now or before, the answer is its end at each `n`; `StepsUsed` comes
/// exactly where it has not.
///
/// An error comes only where the count of faults of `console` or of `out` rose. After `Read` the machine still wants its
/// byte, and all that was printed has been written. After `Write` the machine and the console stand where that write was
/// due, and `out` holds a beginning of what was printed: it lacks at most the 512 bytes that were written last, of which there is
/// at least one, and none had been printed when the console was last asked.
///
/// The input of the run is the byte given by hand, where there is one that is not yet used, and then the bytes of the console;
/// where it was told by hand that there is none left, it is empty, and the console is left alone. The clauses `run`, `read`
/// and `write` speak of a console that tells its bytes, `at_most` of every console.
pub fn drive<C: Source, O: Sink>(
    machine: &mut Machine,
    n: u64,
    console: &mut C,
    out: &mut O,
) -> Result<Finish, DriveError>
    // The machine, the input left and the output are those of the run after n instructions.
    ensures run { IfSome (C.left console.old) (λ bytes.
        OnOk result (IsDriven machine.old n bytes machine.new (C.left console.new) (O.held out.old) (O.held out.new) [])) }
    ensures at_most { MadeAtMost n result machine.old machine.new (C.left console.old) (C.left console.new) (O.held out.old) (O.held out.new) (C.calls console.old) (C.calls console.new) (O.calls out.old) (O.calls out.new) }
    // The first instruction uses what was given by hand.
    ensures given { machine.new.given ≡ given_after n machine.old.given }
    ensures by_hand { machine.old.given ≡ Some None → console.new ≡ console.old }
    // The answer is the end of the machine, and one that had ended before has its end still. After Read it wants its byte.
    ensures finish { IfOk result (λ finish. end_told finish ≡ machine.new.ended) }
    ensures over { KeepsEnd machine.old machine.new }
    ensures wants { result ≡ Err DriveError.Read → WantsAByte machine.new }

    ensures read_cause { result ≡ Err DriveError.Read → Rose (C.faults console.old) (C.faults console.new) }
    ensures write_cause { result ≡ Err DriveError.Write → Rose (O.faults out.old) (O.faults out.new) }
    ensures console_faults { C.faults console.old ≤ C.faults console.new }
    ensures out_faults { O.faults out.old ≤ O.faults out.new }
    // The console is asked at most once for each instruction.
    ensures calls { C.calls console.new ≤ C.calls console.old + n }

    ensures read { IfSome (C.left console.old) (λ bytes. result ≡ Err DriveError.Read →
        (k : ℕ) × (k < n) × IsDriven machine.old k bytes machine.new (C.left console.new) (O.held out.old) (O.held out.new) []) }
    ensures write { IfSome (C.left console.old) (λ bytes. result ≡ Err DriveError.Write →
        IsBrokenOff n machine.old bytes machine.new (C.left console.new) (O.held out.old) (O.held out.new)) }
{
    let mut buffer = Buffer::new();
    for _made in 0..n {
        if let Some(end) = turn(machine, &mut buffer, console, out)? {
            buffer.flush(out)?;
            return Ok(Finish::Ended(end));
        }
    }
    buffer.flush(out)?;
    match machine.ended() {
        Some(end) => Ok(Finish::Ended(end)),
        None => Ok(Finish::StepsUsed),
    }
}
