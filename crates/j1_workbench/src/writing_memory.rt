// `hex`: the memory that the image in a file begins with is written to a file as a text.
ghost use Rattle.j1_workbench.specs.Surroundings.{Stream, folder, surroundings};
ghost use Rattle.j1_workbench.specs.WritingMemory.{WritesMemory};

use crate::files::write_file;
use crate::images::image_in;
use crate::status::Status;
use memory_text::{memory_text, memory_texts_tell};
use outside_io::Folder;
use std::alloc::{AllocError, Global};

/// Writes the memory that the image in a file begins with to another file, a line of four hexadecimal digits a cell.
#[tactic(auto, using(crate::proofs::WritingFiles::memory_refused, crate::proofs::WritingFiles::memory_without_memory, crate::proofs::WritingFiles::memory_put))]
pub fn write_memory<F: Folder>(alloc: Global, name: &str, file: &str, files: &mut F) -> Status
    ensures { (console out : Stream) →
        let before = surroundings (folder (F.files files.old) (F.calls files.old) (F.read_faults files.old) (F.write_faults files.old) (F.absences files.old)) console out in
        let after = surroundings (folder (F.files files.new) (F.calls files.new) (F.read_faults files.new) (F.write_faults files.new) (F.absences files.new)) console out in
        WritesMemory name.now file.now before after result }
{
    memory_texts_tell();
    let image = match image_in(alloc, name, files) {
        Ok(image) => image,
        Err(status) => return status,
    };
    match memory_text(alloc, &image) {
        Ok(text) => write_file(alloc, file, text.as_slice(), files),
        Err(AllocError) => Status::OutOfMemory,
    }
}
