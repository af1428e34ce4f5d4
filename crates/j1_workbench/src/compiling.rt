// The image of a source file.
ghost use Rattle.std.specs.Prelude.{◌≡◌, ◌⊎◌, MatchResult, IfOk};
ghost use Rattle.library_laws.specs.Bodies.{whole_library};
ghost use Rattle.code_layout.specs.Built.{IsBuilt};
ghost use Rattle.decompiler.specs.Listing.{listing};
ghost use Rattle.decompiler.specs.Laws.{AssemblesOnlyTo};
ghost use Rattle.j1_workbench.specs.Notes.{named};
ghost use Rattle.j1_workbench.specs.Surroundings.{folder, IsOnlyRead};
ghost use Rattle.j1_workbench.specs.Sources.{IsRefusedText, IsRefusedSource};
ghost use Rattle.j1_workbench.specs.Headline.{image_of};
ghost use Rattle.j1_workbench.specs.Compiling.{CompilesText, CompilesSource};

use crate::answer::{Answer, answered};
use crate::laws::{certified_texts_agree, texts_are_built};
use crate::source::{certified_source, certified_text};
use crate::status::Status;
use decompiler::listings_assemble;
use forth_library::linked_image;
use forth_program::Program;
use j1_table::Image;
use outside_io::Folder;
use std::alloc::{AllocError, Global};

// The image of a program that can be laid out.
fn listed_image(alloc: Global, program: &Program) -> Result<Image, AllocError>
    requires { IsBuilt whole_library program.now }
    ensures laid { IfOk result (λ image. image ≡ image_of program.now) }
    ensures lists { IfOk result (λ image. AssemblesOnlyTo (listing image) image) }
{
    let image = linked_image(alloc, program)?;
    listings_assemble(&image);
    Ok(image)
}

/// The program and the image of a source text with a certificate, or why the text is refused.
#[tactic(auto, using(crate::proofs::Commands::text_built, crate::proofs::Commands::text_compiled))]
pub fn compiled_text(alloc: Global, text: &[u8]) -> Result<(Program, Image), Answer>
    ensures { MatchResult result (λ found. CompilesText text.now found.0 found.1)
        (λ answer. (answer.status ≡ Status.OutOfMemory) ⊎ IsRefusedText text.now answer.status (named answer.name)) }
{
    texts_are_built();
    certified_texts_agree();
    let (program, _certificate) = match certified_text(alloc, text) {
        Ok(found) => found,
        Err(answer) => return Err(answer),
    };
    match listed_image(alloc, &program) {
        Ok(image) => Ok((program, image)),
        Err(AllocError) => Err(answered(Status::OutOfMemory)),
    }
}

/// The image of a source file with a certificate, or why a command that works on it ends before it begins.
#[tactic(auto, using(crate::proofs::Commands::built, crate::proofs::Commands::compiled))]
pub fn compiled_source<F: Folder>(
    alloc: Global,
    source: &str,
    files: &mut F,
) -> Result<Image, Answer>
    ensures read { let before = folder (F.files files.old) (F.calls files.old) (F.read_faults files.old) (F.write_faults files.old) (F.absences files.old) in
        let after = folder (F.files files.new) (F.calls files.new) (F.read_faults files.new) (F.write_faults files.new) (F.absences files.new) in
        IsOnlyRead 1 before after }
    ensures found { let before = folder (F.files files.old) (F.calls files.old) (F.read_faults files.old) (F.write_faults files.old) (F.absences files.old) in
        let after = folder (F.files files.new) (F.calls files.new) (F.read_faults files.new) (F.write_faults files.new) (F.absences files.new) in
        MatchResult result (λ image. CompilesSource source.now before image) (λ answer. IsRefusedSource source.now before after answer.status (named answer.name)) }
{
    texts_are_built();
    certified_texts_agree();
    let (program, _certificate) = match certified_source(alloc, source, files) {
        Ok(found) => found,
        Err(answer) => return Err(answer),
    };
    match listed_image(alloc, &program) {
        Ok(image) => Ok(image),
        Err(AllocError) => Err(answered(Status::OutOfMemory)),
    }
}
