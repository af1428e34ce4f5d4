// `kernel`: the file of the image of the interactive Forth is written.
ghost use Rattle.std.specs.Prelude.{◌≡◌, IfOk, OnOk};
ghost use Rattle.image_file.specs.File.{IsImage, image_bytes};
ghost use Rattle.target_forth.specs.Kernel.{kernel};
ghost use Rattle.j1_workbench.specs.Surroundings.{Stream, folder, surroundings};
ghost use Rattle.j1_workbench.specs.WritingKernel.{WritesKernel};

use crate::files::write_file;
use crate::status::Status;
use image_file::write_image;
use outside_io::Folder;
use std::alloc::{AllocError, Global};
use target_forth::kernel_image;

// The file of the kernel's image.
#[tactic(auto, using(crate::proofs::WritingFiles::kernel_fits))]
fn kernel_file(alloc: Global) -> Result<Vec<u8>, AllocError>
    ensures bytes { IfOk result (λ file. file.items ≡ image_bytes kernel) }
    ensures fits { OnOk result (IsImage kernel) }
{
    let image = kernel_image(alloc)?;
    write_image(alloc, &image)
}

/// Writes the file of the image of the interactive Forth.
#[tactic(auto, using(crate::proofs::WritingFiles::kernel_without_memory, crate::proofs::WritingFiles::kernel_put))]
pub fn write_kernel<F: Folder>(alloc: Global, file: &str, files: &mut F) -> Status
    ensures { (console out : Stream) →
        let before = surroundings (folder (F.files files.old) (F.calls files.old) (F.read_faults files.old) (F.write_faults files.old) (F.absences files.old)) console out in
        let after = surroundings (folder (F.files files.new) (F.calls files.new) (F.read_faults files.new) (F.write_faults files.new) (F.absences files.new)) console out in
        WritesKernel file.now before after result }
{
    match kernel_file(alloc) {
        Ok(content) => write_file(alloc, file, content.as_slice(), files),
        Err(AllocError) => Status::OutOfMemory,
    }
}
