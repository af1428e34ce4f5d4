// `run`: the image of a source is driven.
ghost use Rattle.j1_workbench.specs.Notes.{named};
ghost use Rattle.j1_workbench.specs.Surroundings.{folder, stream, surroundings};
ghost use Rattle.j1_workbench.specs.Running.{Runs};

use crate::answer::{Answer, answered};
use crate::compiling::compiled_source;
use crate::driving::run_image;
use crate::status::Status;
use outside_io::{Folder, Sink, Source};
use std::alloc::{AllocError, Global};

/// Compiles a source file and drives its image on the console and out, for at most `steps` instructions.
#[tactic(auto, using(crate::proofs::Commands::run_refused, crate::proofs::Commands::run_without_memory, crate::proofs::Commands::run_driven))]
pub fn run<F: Folder, C: Source, O: Sink>(
    alloc: Global,
    source: &str,
    steps: u64,
    files: &mut F,
    console: &mut C,
    out: &mut O,
) -> Answer
    ensures { let before = surroundings (folder (F.files files.old) (F.calls files.old) (F.read_faults files.old) (F.write_faults files.old) (F.absences files.old))
        (stream (C.left console.old) (C.calls console.old) (C.faults console.old)) (stream (O.held out.old) (O.calls out.old) (O.faults out.old)) in
        let after = surroundings (folder (F.files files.new) (F.calls files.new) (F.read_faults files.new) (F.write_faults files.new) (F.absences files.new))
        (stream (C.left console.new) (C.calls console.new) (C.faults console.new)) (stream (O.held out.new) (O.calls out.new) (O.faults out.new)) in
        Runs source.now steps before after result.status (named result.name) }
{
    let image = match compiled_source(alloc, source, files) {
        Ok(image) => image,
        Err(answer) => return answer,
    };
    match run_image(alloc, &image, steps, console, out) {
        Ok(status) => answered(status),
        Err(AllocError) => answered(Status::OutOfMemory),
    }
}
