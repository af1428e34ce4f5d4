// An image is driven on the console and out.
ghost use Rattle.std.specs.Prelude.{◌≡◌, MatchResult};
ghost use Rattle.j1_workbench.specs.Statuses.{status_of};
ghost use Rattle.j1_workbench.specs.Surroundings.{stream};
ghost use Rattle.j1_workbench.specs.Driving.{Drives, status_after};

use crate::status::Status;
use j1_simulator::{DriveError, End, Finish, Machine, drive, runs_only_grow};
use j1_table::Image;
use outside_io::{Sink, Source};
use std::alloc::{AllocError, Global};

/// The status of a run that ended.
pub fn status_of(end: End) -> Status
    ensures { result ≡ status_of (Some end) }
{
    match end {
        End::Halted(0) => Status::Done,
        End::Halted(status) => Status::Halted(status),
        End::InputEnded => Status::InputEnded,
        End::Outside(address) => Status::Outside(address),
    }
}

// The status of a drive.
fn status_after(driven: Result<Finish, DriveError>) -> Status
    ensures { result ≡ status_after driven }
{
    match driven {
        Ok(Finish::Ended(end)) => status_of(end),
        Ok(Finish::StepsUsed) => Status::StepsUsed,
        Err(DriveError::Read) => Status::ReadFault,
        Err(DriveError::Write) => Status::WriteFault,
    }
}

/// Drives an image on the console and out, for at most `steps` instructions. Want of memory comes before the first of them.
pub fn run_image<C: Source, O: Sink>(
    alloc: Global,
    image: &Image,
    steps: u64,
    console: &mut C,
    out: &mut O,
) -> Result<Status, AllocError>
    ensures { let console_before = stream (C.left console.old) (C.calls console.old) (C.faults console.old) in
        let console_after = stream (C.left console.new) (C.calls console.new) (C.faults console.new) in
        let out_before = stream (O.held out.old) (O.calls out.old) (O.faults out.old) in
        let out_after = stream (O.held out.new) (O.calls out.new) (O.faults out.new) in
        MatchResult result (λ status. Drives image.now steps console_before console_after out_before out_after status)
        (λ error. (console_after ≡ console_before) × (out_after ≡ out_before)) }
{
    runs_only_grow();
    let mut machine = Machine::new(alloc, image)?;
    Ok(status_after(drive(&mut machine, steps, console, out)))
}
