// `build`: the file of the image of a source is written.
ghost use Rattle.j1_workbench.specs.Notes.{named};
ghost use Rattle.j1_workbench.specs.Surroundings.{Stream, folder, surroundings};
ghost use Rattle.j1_workbench.specs.Building.{Builds};

use crate::answer::{Answer, answered};
use crate::compiling::compiled_source;
use crate::files::write_file;
use crate::status::Status;
use image_file::write_image;
use outside_io::Folder;
use std::alloc::{AllocError, Global};

/// Compiles a source file and writes the file of its image.
#[tactic(auto, using(crate::proofs::FileCommands::build_refused, crate::proofs::FileCommands::build_without_memory, crate::proofs::FileCommands::build_put))]
pub fn build<F: Folder>(alloc: Global, source: &str, file: &str, files: &mut F) -> Answer
    ensures { (console out : Stream) →
        let before = surroundings (folder (F.files files.old) (F.calls files.old) (F.read_faults files.old) (F.write_faults files.old) (F.absences files.old)) console out in
        let after = surroundings (folder (F.files files.new) (F.calls files.new) (F.read_faults files.new) (F.write_faults files.new) (F.absences files.new)) console out in
        Builds source.now file.now before after result.status (named result.name) }
{
    let image = match compiled_source(alloc, source, files) {
        Ok(image) => image,
        Err(answer) => return answer,
    };
    match write_image(alloc, &image) {
        Ok(content) => answered(write_file(alloc, file, content.as_slice(), files)),
        Err(AllocError) => answered(Status::OutOfMemory),
    }
}
