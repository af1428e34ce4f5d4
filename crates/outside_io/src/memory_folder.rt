// Folders in memory, which fail at the calls whose numbers a list has.
ghost use Rattle.std.specs.Prelude.{◌≡◌, ◌↔◌, ◌≤◌, vec_len, Err, Some, OnOk, OnErr, IfOk, option_map};
ghost use Rattle.std.specs.FinMap.{empty, get, insert};
ghost use Rattle.outside_io.specs.Causes.{risen};
ghost use Rattle.outside_io.specs.Contents.{contents_of};
ghost use Rattle.outside_io.specs.Files.{Lacks, IsLacking, HasFront, SetsFile, KeepsOthers};
ghost use Rattle.outside_io.specs.Answers.{IsAbsentAnswer};
ghost use Rattle.outside_io.specs.Scripts.{IsFailing};

use crate::memory::is_listed;
use crate::{FileFault, Folder, PutFault};
use std::alloc::{AllocError, Global};
use std::collections::BTreeMap;
use std::marker::Model;

// Puts a file among the files, or leaves them.
fn put_file(
    alloc: Global,
    files: &mut BTreeMap<String, Vec<u8>>,
    name: &str,
    bytes: &[u8],
) -> Result<(), AllocError>
    ensures ok { OnOk result
        (contents_of files.new ≡ insert (contents_of files.old) name.now bytes.now) }
    ensures err { OnErr result (contents_of files.new ≡ contents_of files.old) }
{
    let content = bytes.to_vec(alloc)?;
    let key = String::from_str(alloc, name)?;
    files.insert(key, content)?;
    Ok(())
}

// The bytes of a file.
fn find_file<'a>(files: &'a BTreeMap<String, Vec<u8>>, name: &str) -> Option<&'a [u8]>
    ensures { option_map (λ b. b.now) result ≡ get (contents_of files.now) name.now }
{
    match files.get(name) {
        Some(bytes) => Some(bytes),
        None => None,
    }
}

/// Files in memory.
///
/// Contracts see it as a record: the files, as a finite map from the bytes of a name to the bytes
/// of the file, the number of calls so far, the numbers of the calls that fail, and the three
/// counts.
#[derive(Drop)]
pub struct MemFolder {
    alloc: Global,
    files: BTreeMap<String, Vec<u8>>,
    fails: Vec<u32>,
    calls: u64,
    read_faults: u64,
    write_faults: u64,
    absences: u64,
}

impl Model for MemFolder {
    ghost use Rattle.outside_io.specs.Contents.{contents_of};
    ghost use Rattle.outside_io.specs.Scripts.{FolderScript, folder_code};

    ghost Value = { FolderScript };

    ghost coded = { folder_code };

    ghost view = { λ f. record {
      files = contents_of f.files;
      calls = f.calls;
      fails = f.fails.items;
      read_faults = f.read_faults;
      write_faults = f.write_faults;
      absences = f.absences;
    } };
}

impl MemFolder {
    /// A folder with no file. Its reads and writes are numbered together from 1, and those whose
    /// numbers stand in `fails` fail.
    pub fn new(alloc: Global, fails: &[u32]) -> Result<MemFolder, AllocError>
        ensures { IfOk result (λ f. f ≡ record {
          files = empty;
          calls = 0;
          fails = fails.now;
          read_faults = 0;
          write_faults = 0;
          absences = 0;
        }) }
    {
        Ok(MemFolder {
            alloc,
            files: BTreeMap::new(alloc),
            fails: fails.to_vec(alloc)?,
            calls: 0,
            read_faults: 0,
            write_faults: 0,
            absences: 0,
        })
    }

    /// Makes the file of that name hold these bytes, in memory of the folder's own allocator. This
    /// is no numbered call. Want of memory leaves the folder as it was.
    pub fn put(&mut self, name: &str, bytes: &[u8]) -> Result<(), AllocError>
        ensures ok { OnOk result (self.new ≡ record self.old {
          files = insert self.old.files name.now bytes.now;
        }) }
        ensures err { OnErr result (self.new ≡ self.old) }
    {
        put_file(self.alloc, &mut self.files, name, bytes)
    }

    /// The bytes of a file, and `None` exactly where there is no file of that name.
    pub fn file(&self, name: &str) -> Option<&[u8]>
        ensures { option_map (λ b. b.now) result ≡ get self.now.files name.now }
    {
        find_file(&self.files, name)
    }
}

impl Folder for MemFolder {
    ghost files = { λ f. Some (get f.files) };

    ghost calls = { λ f. f.calls };

    ghost read_faults = { λ f. f.read_faults };

    ghost write_faults = { λ f. f.write_faults };

    ghost absences = { λ f. f.absences };

    /// Fails exactly where the number of the call is listed.
    fn read(&mut self, alloc: Global, name: &str, most: usize) -> Result<Vec<u8>, FileFault>
        ensures bound { IfOk result (λ bytes. vec_len bytes ≤ most) }
        ensures bytes { IfOk result (λ bytes.
            HasFront (Some (get self.old.files)) name.now most bytes.items) }
        ensures calls { self.new.calls ≡ risen self.old.calls }
        ensures read_faults { self.old.read_faults ≤ self.new.read_faults }
        ensures absences { self.old.absences ≤ self.new.absences }
        ensures absent_lacks { result ≡ Err FileFault.Absent
            → Lacks (Some (get self.old.files)) name.now }
        ensures lacking { IsLacking (Some (get self.old.files)) name.now
            → IsAbsentAnswer self.old.read_faults self.new.read_faults result }

        ensures failing { (result ≡ Err FileFault.Failed)
            ↔ IsFailing self.old.calls self.old.fails }
        ensures failed { result ≡ Err FileFault.Failed → self.new ≡ record self.old {
          calls = risen self.old.calls;
          read_faults = risen self.old.read_faults;
        } }
        ensures absent { result ≡ Err FileFault.Absent → self.new ≡ record self.old {
          calls = risen self.old.calls;
          absences = risen self.old.absences;
        } }
        ensures no_memory { result ≡ Err FileFault.OutOfMemory → self.new ≡ record self.old {
          calls = risen self.old.calls;
        } }
        ensures ok { OnOk result (self.new ≡ record self.old { calls = risen self.old.calls }) }
    {
        self.calls = self.calls.saturating_add(1);
        if is_listed(&self.fails, self.calls) {
            self.read_faults = self.read_faults.saturating_add(1);
            return Err(FileFault::Failed);
        }
        match find_file(&self.files, name) {
            None => {
                self.absences = self.absences.saturating_add(1);
                Err(FileFault::Absent)
            }
            Some(bytes) => match bytes[..most.min(bytes.len())].to_vec(alloc) {
                Ok(front) => Ok(front),
                Err(_) => Err(FileFault::OutOfMemory),
            },
        }
    }

    /// Fails exactly where the number of the call is listed, and then leaves all files, as want of
    /// memory does.
    fn write(&mut self, alloc: Global, name: &str, bytes: &[u8]) -> Result<(), PutFault>
        ensures written { OnOk result
            (SetsFile (Some (get self.old.files)) (Some (get self.new.files)) name.now bytes.now) }
        ensures others { KeepsOthers (Some (get self.old.files)) (Some (get self.new.files)) name.now }
        ensures calls { self.new.calls ≡ risen self.old.calls }
        ensures write_faults { self.old.write_faults ≤ self.new.write_faults }

        ensures failing { (result ≡ Err PutFault.Failed)
            ↔ IsFailing self.old.calls self.old.fails }
        ensures failed { result ≡ Err PutFault.Failed → self.new ≡ record self.old {
          calls = risen self.old.calls;
          write_faults = risen self.old.write_faults;
        } }
        ensures no_memory { result ≡ Err PutFault.OutOfMemory → self.new ≡ record self.old {
          calls = risen self.old.calls;
        } }
        ensures ok { OnOk result (self.new ≡ record self.old {
          files = insert self.old.files name.now bytes.now;
          calls = risen self.old.calls;
        }) }
    {
        self.calls = self.calls.saturating_add(1);
        if is_listed(&self.fails, self.calls) {
            self.write_faults = self.write_faults.saturating_add(1);
            return Err(PutFault::Failed);
        }
        if put_file(alloc, &mut self.files, name, bytes).is_err() {
            return Err(PutFault::OutOfMemory);
        }
        Ok(())
    }
}
