// Source files, certified or not.
ghost use Rattle.std.specs.Prelude.{◌≡◌, ◌⊎◌, MatchResult};
ghost use Rattle.j1_workbench.specs.Notes.{named};
ghost use Rattle.j1_workbench.specs.Surroundings.{folder, IsOnlyRead};
ghost use Rattle.j1_workbench.specs.Sources.{IsRefusedText, IsRefusedSource};
ghost use Rattle.j1_workbench.specs.Evaluating.{IsReading, IsReadText, IsReadSource};

use crate::answer::{Answer, answered};
use crate::files::read_file;
use crate::source::MOST_SOURCE;
use crate::status::Status;
use control_flow::{SourceError, read_program};
use forth_program::Program;
use outside_io::Folder;
use std::alloc::Global;

// The program of a source text, or why the text is refused.
fn read_text(alloc: Global, text: &[u8]) -> Result<Program, Answer>
    ensures { MatchResult result (λ program. IsReadText text.now program)
        (λ answer. ((answer.status ≡ Status.OutOfMemory) ⊎ IsRefusedText text.now answer.status (named answer.name)) × IsReading answer.status) }
{
    if text.len() > MOST_SOURCE {
        return Err(answered(Status::TooLarge));
    }
    match read_program(alloc, text) {
        Ok(program) => Ok(program),
        Err(SourceError::Refused(refusal)) => Err(answered(Status::SourceRefused(refusal))),
        Err(SourceError::OutOfMemory) => Err(answered(Status::OutOfMemory)),
    }
}

/// The program of a source file, certified or not, or why a command that works on it ends before it begins.
#[tactic(auto, using(crate::proofs::FilesRead::unread_source, crate::proofs::FilesRead::unread_reading))]
pub fn read_source<F: Folder>(alloc: Global, source: &str, files: &mut F) -> Result<Program, Answer>
    ensures read { let before = folder (F.files files.old) (F.calls files.old) (F.read_faults files.old) (F.write_faults files.old) (F.absences files.old) in
        let after = folder (F.files files.new) (F.calls files.new) (F.read_faults files.new) (F.write_faults files.new) (F.absences files.new) in
        IsOnlyRead 1 before after }
    ensures found { let before = folder (F.files files.old) (F.calls files.old) (F.read_faults files.old) (F.write_faults files.old) (F.absences files.old) in
        let after = folder (F.files files.new) (F.calls files.new) (F.read_faults files.new) (F.write_faults files.new) (F.absences files.new) in
        MatchResult result (λ program. IsReadSource source.now before program)
        (λ answer. IsRefusedSource source.now before after answer.status (named answer.name) × IsReading answer.status) }
{
    match read_file(alloc, source, MOST_SOURCE, files) {
        Ok(text) => read_text(alloc, text.as_slice()),
        Err(status) => Err(answered(status)),
    }
}
