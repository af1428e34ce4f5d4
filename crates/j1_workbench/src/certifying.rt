// `certify`: the text of a certificate is written to out.
ghost use Rattle.j1_workbench.specs.Notes.{named};
ghost use Rattle.j1_workbench.specs.Surroundings.{Stream, folder, stream, surroundings};
ghost use Rattle.j1_workbench.specs.Certifying.{Certifies, Writes};

use crate::answer::{Answer, answered};
use crate::source::certified_source;
use crate::status::Status;
use depth_certifier::certificate_text;
use outside_io::{Failed, Folder, Sink};
use std::alloc::{AllocError, Global};

/// Writes a text to out.
pub fn write_text<O: Sink>(text: &[u8], out: &mut O) -> Status
    ensures { Writes (stream (O.held out.old) (O.calls out.old) (O.faults out.old)) (stream (O.held out.new) (O.calls out.new) (O.faults out.new)) text.now result }
{
    match out.write(text) {
        Ok(()) => Status::Done,
        Err(Failed) => Status::WriteFault,
    }
}

/// Writes the text of the least certificate of a source file to out.
#[tactic(auto, using(crate::proofs::Commands::certify_refused, crate::proofs::Commands::certify_without_memory, crate::proofs::Commands::certify_written))]
pub fn certify<F: Folder, O: Sink>(
    alloc: Global,
    source: &str,
    files: &mut F,
    out: &mut O,
) -> Answer
    ensures { (console : Stream) →
        let before = surroundings (folder (F.files files.old) (F.calls files.old) (F.read_faults files.old) (F.write_faults files.old) (F.absences files.old))
        console (stream (O.held out.old) (O.calls out.old) (O.faults out.old)) in
        let after = surroundings (folder (F.files files.new) (F.calls files.new) (F.read_faults files.new) (F.write_faults files.new) (F.absences files.new))
        console (stream (O.held out.new) (O.calls out.new) (O.faults out.new)) in
        Certifies source.now before after result.status (named result.name) }
{
    let (program, certificate) = match certified_source(alloc, source, files) {
        Ok(found) => found,
        Err(answer) => return answer,
    };
    match certificate_text(alloc, &program, &certificate) {
        Ok(text) => answered(write_text(text.as_bytes(), out)),
        Err(AllocError) => answered(Status::OutOfMemory),
    }
}
