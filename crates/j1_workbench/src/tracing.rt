// `trace`: the image in a file is run, and out gains a line for each instruction.
ghost use Rattle.std.specs.Prelude.{◌≡◌};
ghost use Rattle.j1_workbench.specs.Surroundings.{folder, stream, surroundings};
ghost use Rattle.j1_workbench.specs.Tracing.{trace_steps, traced_status, Traces};

use crate::driving::status_of;
use crate::images::image_in;
use crate::status::Status;
use instruction_trace::{TraceError, trace};
use j1_simulator::Finish;
use outside_io::{Folder, Sink, Source};
use std::alloc::Global;

/// How many instructions a trace may make: so many, or 1,000 where no number is given.
#[tactic(auto, unfolding(crate::specs::Tracing::trace_steps))]
pub fn trace_steps(steps: Option<u32>) -> u32
    ensures { result ≡ trace_steps steps }
{
    match steps {
        None => 1000,
        Some(steps) => steps,
    }
}

// The status of a trace.
fn traced_status(traced: Result<Finish, TraceError>) -> Status
    ensures { result ≡ traced_status traced }
{
    match traced {
        Ok(Finish::Ended(end)) => status_of(end),
        Ok(Finish::StepsUsed) => Status::StepsUsed,
        Err(TraceError::Read) => Status::ReadFault,
        Err(TraceError::Write) => Status::WriteFault,
        Err(TraceError::OutOfMemory) => Status::OutOfMemory,
    }
}

/// Runs the image in a file on the console, for at most `steps` instructions, and writes its trace to out.
#[tactic(auto, using(crate::proofs::TraceCommand::trace_refused))]
pub fn trace_image<F: Folder, C: Source, O: Sink>(
    alloc: Global,
    file: &str,
    steps: u32,
    files: &mut F,
    console: &mut C,
    out: &mut O,
) -> Status
    ensures { let before = surroundings (folder (F.files files.old) (F.calls files.old) (F.read_faults files.old) (F.write_faults files.old) (F.absences files.old))
        (stream (C.left console.old) (C.calls console.old) (C.faults console.old)) (stream (O.held out.old) (O.calls out.old) (O.faults out.old)) in
        let after = surroundings (folder (F.files files.new) (F.calls files.new) (F.read_faults files.new) (F.write_faults files.new) (F.absences files.new))
        (stream (C.left console.new) (C.calls console.new) (C.faults console.new)) (stream (O.held out.new) (O.calls out.new) (O.faults out.new)) in
        Traces file.now steps before after result }
{
    let image = match image_in(alloc, file, files) {
        Ok(image) => image,
        Err(status) => return status,
    };
    traced_status(trace(alloc, &image, steps, console, out))
}
