// The working folder of the system. It tells no content.
ghost use Rattle.std.specs.Prelude.{◌≡◌, ◌≤◌, vec_len, Err, None, OnOk, IfOk};
ghost use Rattle.outside_io.specs.Causes.{risen};

use crate::{FileFault, Folder, PutFault};
use std::alloc::Global;
use std::fs;
use std::io::{ErrorKind, Read, Write};
use std::marker::Model;
use std::rt::Files;

// The first bytes of a file of the system, or all of them where it is shorter.
fn read_front<R: Files>(
    rt: &R,
    alloc: Global,
    name: &str,
    most: usize,
) -> Result<Vec<u8>, ErrorKind>
    ensures { IfOk result (λ bytes. vec_len bytes ≤ most) }
{
    let mut bytes = Vec::new(alloc);
    let file = match fs::open(rt, name) {
        Ok(file) => file,
        Err(error) => return Err(error.kind()),
    };
    match file.take(most as u64).read_to_end(&mut bytes) {
        Ok(_) => {
            bytes.truncate(most);
            Ok(bytes)
        }
        Err(error) => Err(error.kind()),
    }
}

// Makes a file of the system hold these bytes. Want of memory is told only before the file is
// opened, and so cut to nothing; from then on each error is a failure.
fn write_whole<R: Files>(rt: &R, name: &str, bytes: &[u8]) -> Result<(), PutFault> {
    let mut file = match fs::create(rt, name) {
        Ok(file) => file,
        Err(error) => {
            return Err(match error.kind() {
                ErrorKind::OutOfMemory => PutFault::OutOfMemory,
                _ => PutFault::Failed,
            });
        }
    };
    match file.write_all(bytes) {
        Ok(()) => Ok(()),
        Err(_) => Err(PutFault::Failed),
    }
}

/// The working folder. A name is a path that begins there, and the folder tells no content.
///
/// Contracts see it as its four counts: that of the calls rises at each, and one of the others at
/// each `Failed` and each `Absent`.
#[derive(Drop)]
pub struct StdFolder<R> {
    rt: R,
    calls: u64,
    read_faults: u64,
    write_faults: u64,
    absences: u64,
}

impl<R> Model for StdFolder<R> {
    ghost use Rattle.outside_io.specs.Scripts.{FolderCounts};

    ghost Value = { FolderCounts };

    ghost view = { λ f. record {
      calls = f.calls;
      read_faults = f.read_faults;
      write_faults = f.write_faults;
      absences = f.absences;
    } };
}

impl<R: Files> StdFolder<R> {
    /// The working folder of this runtime, with no call, no fault and no absence so far.
    pub fn new(rt: R) -> Self
        ensures { result ≡ record { calls = 0; read_faults = 0; write_faults = 0; absences = 0 } }
    {
        StdFolder {
            rt,
            calls: 0,
            read_faults: 0,
            write_faults: 0,
            absences: 0,
        }
    }
}

impl<R: Files> Folder for StdFolder<R> {
    ghost files = { λ _. None };

    ghost calls = { λ f. f.calls };

    ghost read_faults = { λ f. f.read_faults };

    ghost write_faults = { λ f. f.write_faults };

    ghost absences = { λ f. f.absences };

    fn read(&mut self, alloc: Global, name: &str, most: usize) -> Result<Vec<u8>, FileFault>
        ensures bound { IfOk result (λ bytes. vec_len bytes ≤ most) }
        ensures calls { self.new.calls ≡ risen self.old.calls }
        ensures read_faults { self.old.read_faults ≤ self.new.read_faults }
        ensures absences { self.old.absences ≤ self.new.absences }

        ensures failed { result ≡ Err FileFault.Failed → self.new ≡ record self.old {
          calls = risen self.old.calls;
          read_faults = risen self.old.read_faults;
        } }
        ensures absent { result ≡ Err FileFault.Absent → self.new ≡ record self.old {
          calls = risen self.old.calls;
          absences = risen self.old.absences;
        } }
        ensures no_memory { result ≡ Err FileFault.OutOfMemory → self.new ≡ record self.old {
          calls = risen self.old.calls;
        } }
        ensures ok { OnOk result (self.new ≡ record self.old { calls = risen self.old.calls }) }
    {
        self.calls = self.calls.saturating_add(1);
        match read_front(&self.rt, alloc, name, most) {
            Ok(bytes) => Ok(bytes),
            Err(ErrorKind::OutOfMemory) => Err(FileFault::OutOfMemory),
            Err(ErrorKind::NotFound) => {
                self.absences = self.absences.saturating_add(1);
                Err(FileFault::Absent)
            }
            Err(_) => {
                self.read_faults = self.read_faults.saturating_add(1);
                Err(FileFault::Failed)
            }
        }
    }

    fn write(&mut self, _alloc: Global, name: &str, bytes: &[u8]) -> Result<(), PutFault>
        ensures calls { self.new.calls ≡ risen self.old.calls }
        ensures write_faults { self.old.write_faults ≤ self.new.write_faults }

        ensures failed { result ≡ Err PutFault.Failed → self.new ≡ record self.old {
          calls = risen self.old.calls;
          write_faults = risen self.old.write_faults;
        } }
        ensures no_memory { result ≡ Err PutFault.OutOfMemory → self.new ≡ record self.old {
          calls = risen self.old.calls;
        } }
        ensures ok { OnOk result (self.new ≡ record self.old { calls = risen self.old.calls }) }
    {
        self.calls = self.calls.saturating_add(1);
        match write_whole(&self.rt, name, bytes) {
            Ok(()) => Ok(()),
            Err(PutFault::OutOfMemory) => Err(PutFault::OutOfMemory),
            Err(PutFault::Failed) => {
                self.write_faults = self.write_faults.saturating_add(1);
                Err(PutFault::Failed)
            }
        }
    }
}
