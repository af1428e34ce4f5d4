// Files that commands read and write.
ghost use Rattle.std.specs.Prelude.{◌<◌, ◌^◌, MatchResult};
ghost use Rattle.j1_workbench.specs.Surroundings.{folder, IsOnlyRead};
ghost use Rattle.j1_workbench.specs.Files.{IsRead, IsUnread, IsPut};

use crate::status::Status;
use outside_io::{FileFault, Folder, PutFault};
use std::alloc::Global;

/// The content of a file of at most `most` bytes, or why it is not read. The folder is asked once, for one byte more: so it tells
/// that a file is too large.
#[tactic(auto, using(crate::proofs::FilesRead::read_whole, crate::proofs::FilesRead::read_too_large))]
pub fn read_file<F: Folder>(
    alloc: Global,
    name: &str,
    most: usize,
    files: &mut F,
) -> Result<Vec<u8>, Status>
    requires { most < 2 ^ 32 }
    ensures read { let before = folder (F.files files.old) (F.calls files.old) (F.read_faults files.old) (F.write_faults files.old) (F.absences files.old) in
        let after = folder (F.files files.new) (F.calls files.new) (F.read_faults files.new) (F.write_faults files.new) (F.absences files.new) in
        IsOnlyRead 1 before after }
    ensures found { let before = folder (F.files files.old) (F.calls files.old) (F.read_faults files.old) (F.write_faults files.old) (F.absences files.old) in
        let after = folder (F.files files.new) (F.calls files.new) (F.read_faults files.new) (F.write_faults files.new) (F.absences files.new) in
        MatchResult result (λ content. IsRead most name.now before content.items) (λ status. IsUnread most name.now before after status) }
{
    match files.read(alloc, name, most + 1) {
        Ok(content) => {
            if content.len() > most {
                Err(Status::TooLarge)
            } else {
                Ok(content)
            }
        }
        Err(FileFault::Absent) => Err(Status::Missing),
        Err(FileFault::Failed) => Err(Status::ReadFault),
        Err(FileFault::OutOfMemory) => Err(Status::OutOfMemory),
    }
}

/// Makes a file hold these bytes.
pub fn write_file<F: Folder>(alloc: Global, name: &str, content: &[u8], files: &mut F) -> Status
    ensures { let before = folder (F.files files.old) (F.calls files.old) (F.read_faults files.old) (F.write_faults files.old) (F.absences files.old) in
        let after = folder (F.files files.new) (F.calls files.new) (F.read_faults files.new) (F.write_faults files.new) (F.absences files.new) in
        IsPut 1 name.now content.now before after result }
{
    match files.write(alloc, name, content) {
        Ok(()) => Status::Done,
        Err(PutFault::Failed) => Status::WriteFault,
        Err(PutFault::OutOfMemory) => Status::OutOfMemory,
    }
}
