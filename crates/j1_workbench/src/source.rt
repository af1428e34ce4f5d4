// Source files with a certificate.
ghost use Rattle.std.specs.Prelude.{◌≡◌, ◌⊎◌, MatchResult};
ghost use Rattle.j1_workbench.specs.Notes.{named};
ghost use Rattle.j1_workbench.specs.Surroundings.{folder, IsOnlyRead};
ghost use Rattle.j1_workbench.specs.Sources.{HasCertificate, IsCertifiedSource, IsRefusedText, IsRefusedSource};

use crate::answer::{Answer, Subject, answered};
use crate::files::read_file;
use crate::status::Status;
use control_flow::{SourceError, read_program};
use depth_certifier::{CertError, Certificate, certify};
use forth_program::Program;
use outside_io::Folder;
use std::alloc::Global;

/// The most bytes of a source.
pub(crate) const MOST_SOURCE: usize = 65_536;

/// The program of a source text and its least certificate, or why the text is refused.
pub fn certified_text(alloc: Global, text: &[u8]) -> Result<(Program, Certificate), Answer>
    ensures { MatchResult result (λ found. HasCertificate text.now found.0 found.1)
        (λ answer. (answer.status ≡ Status.OutOfMemory) ⊎ IsRefusedText text.now answer.status (named answer.name)) }
{
    if text.len() > MOST_SOURCE {
        return Err(answered(Status::TooLarge));
    }
    let program = match read_program(alloc, text) {
        Ok(program) => program,
        Err(SourceError::Refused(refusal)) => {
            return Err(answered(Status::SourceRefused(refusal)));
        }
        Err(SourceError::OutOfMemory) => return Err(answered(Status::OutOfMemory)),
    };
    match certify(alloc, &program) {
        Ok(certificate) => Ok((program, certificate)),
        Err(CertError::NotCertified(id, cause)) => {
            Err(Answer {
                status: Status::NotCertified(id, cause),
                name: Subject::new(program.name(id)),
            })
        }
        Err(CertError::OutOfMemory) => Err(answered(Status::OutOfMemory)),
    }
}

/// The program of a source file and its least certificate, or why a command that works on it ends before it begins.
pub fn certified_source<F: Folder>(
    alloc: Global,
    source: &str,
    files: &mut F,
) -> Result<(Program, Certificate), Answer>
    ensures read { let before = folder (F.files files.old) (F.calls files.old) (F.read_faults files.old) (F.write_faults files.old) (F.absences files.old) in
        let after = folder (F.files files.new) (F.calls files.new) (F.read_faults files.new) (F.write_faults files.new) (F.absences files.new) in
        IsOnlyRead 1 before after }
    ensures found { let before = folder (F.files files.old) (F.calls files.old) (F.read_faults files.old) (F.write_faults files.old) (F.absences files.old) in
        let after = folder (F.files files.new) (F.calls files.new) (F.read_faults files.new) (F.write_faults files.new) (F.absences files.new) in
        MatchResult result (λ found. IsCertifiedSource source.now before found.0 found.1) (λ answer. IsRefusedSource source.now before after answer.status (named answer.name)) }
{
    match read_file(alloc, source, MOST_SOURCE, files) {
        Ok(text) => certified_text(alloc, text.as_slice()),
        Err(status) => Err(answered(status)),
    }
}
