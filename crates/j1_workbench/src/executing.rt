// `exec`: the image in a file is driven.
ghost use Rattle.j1_workbench.specs.Surroundings.{folder, stream, surroundings};
ghost use Rattle.j1_workbench.specs.Executing.{Executes};

use crate::driving::run_image;
use crate::images::image_in;
use crate::status::Status;
use outside_io::{Folder, Sink, Source};
use std::alloc::{AllocError, Global};

/// Drives the image in a file on the console and out, for at most `steps` instructions.
#[tactic(auto, using(crate::proofs::FileCommands::execute_refused, crate::proofs::FileCommands::execute_without_memory, crate::proofs::FileCommands::execute_driven))]
pub fn execute<F: Folder, C: Source, O: Sink>(
    alloc: Global,
    file: &str,
    steps: u64,
    files: &mut F,
    console: &mut C,
    out: &mut O,
) -> Status
    ensures { let before = surroundings (folder (F.files files.old) (F.calls files.old) (F.read_faults files.old) (F.write_faults files.old) (F.absences files.old))
        (stream (C.left console.old) (C.calls console.old) (C.faults console.old)) (stream (O.held out.old) (O.calls out.old) (O.faults out.old)) in
        let after = surroundings (folder (F.files files.new) (F.calls files.new) (F.read_faults files.new) (F.write_faults files.new) (F.absences files.new))
        (stream (C.left console.new) (C.calls console.new) (C.faults console.new)) (stream (O.held out.new) (O.calls out.new) (O.faults out.new)) in
        Executes file.now steps before after result }
{
    let image = match image_in(alloc, file, files) {
        Ok(image) => image,
        Err(status) => return status,
    };
    match run_image(alloc, &image, steps, console, out) {
        Ok(status) => status,
        Err(AllocError) => Status::OutOfMemory,
    }
}
