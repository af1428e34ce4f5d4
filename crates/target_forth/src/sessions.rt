// A session with the kernel.
ghost use Rattle.std.specs.Prelude.{◌≡◌, IfOk};
ghost use Rattle.j1_simulator.specs.MachineState.{machine_start};
ghost use Rattle.target_forth.specs.Kernel.{kernel};
ghost use Rattle.target_forth.specs.Session.{SessionLeaves, stream};

use crate::image::kernel_image;
use j1_simulator::{DriveError, Finish, Machine, drive};
use outside_io::{Sink, Source};
use std::alloc::{AllocError, Global};

/// Why a session broke off: the console could not be read, out could not be written, or there was no memory for the image and the machine.
#[derive(Clone, Copy, Debug, PartialEq, Eq)]
pub enum SessionError {
    Read,
    Write,
    OutOfMemory,
}

// A machine at its start on the kernel's image.
fn kernel_machine(alloc: Global) -> Result<Machine, AllocError>
    ensures { IfOk result (λ machine. machine ≡ machine_start kernel) }
{
    let image = kernel_image(alloc)?;
    Machine::new(alloc, &image)
}

/// An interactive session: the kernel's image is driven from its start for at most `n` instructions, with what is typed from `console` and
/// what the kernel prints going to `out`.
///
/// The answer is that of `drive`. `OutOfMemory` comes before the first instruction.
pub fn session<C: Source, O: Sink>(
    alloc: Global,
    n: u64,
    console: &mut C,
    out: &mut O,
) -> Result<Finish, SessionError>
    ensures { SessionLeaves kernel n (stream (C.left console.old) (C.calls console.old) (C.faults console.old)) (stream (C.left console.new) (C.calls console.new) (C.faults console.new))
        (stream (O.held out.old) (O.calls out.old) (O.faults out.old)) (stream (O.held out.new) (O.calls out.new) (O.faults out.new)) result }
{
    let mut machine = match kernel_machine(alloc) {
        Ok(machine) => machine,
        Err(AllocError) => return Err(SessionError::OutOfMemory),
    };
    match drive(&mut machine, n, console, out) {
        Ok(finish) => Ok(finish),
        Err(DriveError::Read) => Err(SessionError::Read),
        Err(DriveError::Write) => Err(SessionError::Write),
    }
}
