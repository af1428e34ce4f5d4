// `asm`: the file of the image that an assembly text stands for is written.
ghost use Rattle.j1_workbench.specs.Surroundings.{Stream, folder, surroundings};
ghost use Rattle.j1_workbench.specs.Assembling.{AssemblesFile};

use crate::files::{read_file, write_file};
use crate::status::Status;
use image_file::write_image;
use j1_assembler::{AsmError, assemble};
use outside_io::Folder;
use std::alloc::{AllocError, Global};

/// The most bytes of an assembly text.
const MOST_LISTING: usize = 524_288;

/// Assembles a text and writes the file of its image.
#[tactic(auto, using(crate::proofs::FileCommands::assemble_unread, crate::proofs::FileCommands::assemble_bad, crate::proofs::FileCommands::assemble_without_memory, crate::proofs::FileCommands::assemble_put))]
pub fn assemble_file<F: Folder>(alloc: Global, listing: &str, file: &str, files: &mut F) -> Status
    ensures { (console out : Stream) →
        let before = surroundings (folder (F.files files.old) (F.calls files.old) (F.read_faults files.old) (F.write_faults files.old) (F.absences files.old)) console out in
        let after = surroundings (folder (F.files files.new) (F.calls files.new) (F.read_faults files.new) (F.write_faults files.new) (F.absences files.new)) console out in
        AssemblesFile listing.now file.now before after result }
{
    let text = match read_file(alloc, listing, MOST_LISTING, files) {
        Ok(text) => text,
        Err(status) => return status,
    };
    let image = match assemble(alloc, text.as_slice()) {
        Ok(image) => image,
        Err(AsmError::Refused(line, _)) => return Status::BadListing(line),
        Err(AsmError::OutOfMemory) => return Status::OutOfMemory,
    };
    match write_image(alloc, &image) {
        Ok(content) => write_file(alloc, file, content.as_slice(), files),
        Err(AllocError) => Status::OutOfMemory,
    }
}
