// Image files that commands read.
ghost use Rattle.std.specs.Prelude.{MatchResult};
ghost use Rattle.j1_workbench.specs.Surroundings.{folder, IsOnlyRead};
ghost use Rattle.j1_workbench.specs.Images.{IsRefusedImage, IsImageFile};

use crate::files::read_file;
use crate::status::Status;
use image_file::{ImageError, images_fit, read_image};
use j1_table::Image;
use outside_io::Folder;
use std::alloc::Global;

/// The most bytes of an image file.
const MOST_IMAGE: usize = 32_768;

/// The image in a file, or why a command that works on it ends before it begins.
#[tactic(auto, using(crate::proofs::FileCommands::image_unread, crate::proofs::FileCommands::image_bad, crate::proofs::FileCommands::image_read))]
pub fn image_in<F: Folder>(alloc: Global, file: &str, files: &mut F) -> Result<Image, Status>
    ensures read { let before = folder (F.files files.old) (F.calls files.old) (F.read_faults files.old) (F.write_faults files.old) (F.absences files.old) in
        let after = folder (F.files files.new) (F.calls files.new) (F.read_faults files.new) (F.write_faults files.new) (F.absences files.new) in
        IsOnlyRead 1 before after }
    ensures found { let before = folder (F.files files.old) (F.calls files.old) (F.read_faults files.old) (F.write_faults files.old) (F.absences files.old) in
        let after = folder (F.files files.new) (F.calls files.new) (F.read_faults files.new) (F.write_faults files.new) (F.absences files.new) in
        MatchResult result (λ image. IsImageFile file.now before image) (λ status. IsRefusedImage file.now before after status) }
{
    let content = match read_file(alloc, file, MOST_IMAGE, files) {
        Ok(content) => content,
        Err(status) => return Err(status),
    };
    match read_image(alloc, content.as_slice()) {
        Ok(image) => {
            images_fit(&image);
            Ok(image)
        }
        Err(ImageError::Refused(offset)) => Err(Status::BadImage(offset)),
        Err(ImageError::OutOfMemory) => Err(Status::OutOfMemory),
    }
}
