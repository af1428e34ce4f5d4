// `list`: the listing of the image in a file is written to out.
ghost use Rattle.j1_workbench.specs.Surroundings.{Stream, folder, stream, surroundings};
ghost use Rattle.j1_workbench.specs.ListingImage.{Lists};

use crate::certifying::write_text;
use crate::images::image_in;
use crate::status::Status;
use decompiler::{listing, listings_assemble};
use outside_io::{Folder, Sink};
use std::alloc::{AllocError, Global};

/// Writes the listing of the image in a file to out.
#[tactic(auto, using(crate::proofs::FileCommands::list_refused, crate::proofs::FileCommands::list_without_memory, crate::proofs::FileCommands::list_written))]
pub fn list<F: Folder, O: Sink>(alloc: Global, file: &str, files: &mut F, out: &mut O) -> Status
    ensures { (console : Stream) →
        let before = surroundings (folder (F.files files.old) (F.calls files.old) (F.read_faults files.old) (F.write_faults files.old) (F.absences files.old))
        console (stream (O.held out.old) (O.calls out.old) (O.faults out.old)) in
        let after = surroundings (folder (F.files files.new) (F.calls files.new) (F.read_faults files.new) (F.write_faults files.new) (F.absences files.new))
        console (stream (O.held out.new) (O.calls out.new) (O.faults out.new)) in
        Lists file.now before after result }
{
    let image = match image_in(alloc, file, files) {
        Ok(image) => image,
        Err(status) => return status,
    };
    listings_assemble(&image);
    match listing(alloc, &image) {
        Ok(text) => write_text(text.as_slice(), out),
        Err(AllocError) => Status::OutOfMemory,
    }
}
