// `bound`: the step bound of a program is written to out.
ghost use Rattle.std.specs.Prelude.{◌++◌, ◌∷◌, [], decimal};
ghost use Rattle.j1_workbench.specs.Notes.{named};
ghost use Rattle.j1_workbench.specs.Surroundings.{Stream, folder, stream, surroundings};
ghost use Rattle.j1_workbench.specs.Certifying.{Writes};
ghost use Rattle.j1_workbench.specs.Bounding.{Bounds};

use crate::answer::{Answer, Subject, answered};
use crate::laws::texts_are_built;
use crate::notes::write_parts;
use crate::source::certified_source;
use crate::status::Status;
use control_flow::programs_are_sources;
use forth_library::linked_image;
use itoa::Buffer;
use outside_io::{Failed, Folder, Sink};
use std::alloc::{AllocError, Global};
use step_certifier::{BoundError, step_bound};

// Writes a number in decimal and a line feed.
fn write_number<O: Sink>(number: u64, out: &mut O) -> Status
    ensures { Writes (stream (O.held out.old) (O.calls out.old) (O.faults out.old)) (stream (O.held out.new) (O.calls out.new) (O.faults out.new)) (decimal number ++ 10 ∷ []) result }
{
    let mut digits = Buffer::new();
    match write_parts(out, &[digits.format(number).as_bytes()]) {
        Ok(()) => Status::Done,
        Err(Failed) => Status::WriteFault,
    }
}

/// Compiles a source file, and writes to out a number of instructions within which the run of its image ends on every input.
#[tactic(auto, using(crate::proofs::Commands::built, crate::proofs::Commands::is_valid, crate::proofs::Commands::bound_refused, crate::proofs::Commands::bound_without_memory))]
pub fn bound<F: Folder, O: Sink>(alloc: Global, source: &str, files: &mut F, out: &mut O) -> Answer
    ensures { (console : Stream) →
        let before = surroundings (folder (F.files files.old) (F.calls files.old) (F.read_faults files.old) (F.write_faults files.old) (F.absences files.old))
        console (stream (O.held out.old) (O.calls out.old) (O.faults out.old)) in
        let after = surroundings (folder (F.files files.new) (F.calls files.new) (F.read_faults files.new) (F.write_faults files.new) (F.absences files.new))
        console (stream (O.held out.new) (O.calls out.new) (O.faults out.new)) in
        Bounds source.now before after result.status (named result.name) }
{
    texts_are_built();
    programs_are_sources();
    let (program, certificate) = match certified_source(alloc, source, files) {
        Ok(found) => found,
        Err(answer) => return answer,
    };
    let image = match linked_image(alloc, &program) {
        Ok(image) => image,
        Err(AllocError) => return answered(Status::OutOfMemory),
    };
    match step_bound(alloc, &program, &certificate, &image) {
        Ok(bound) => answered(write_number(bound.steps, out)),
        Err(BoundError::Refused(id, cause)) => {
            Answer {
                status: Status::BoundRefused(id, cause),
                name: Subject::new(program.name(id)),
            }
        }
        Err(BoundError::OutOfMemory) => answered(Status::OutOfMemory),
    }
}
