// The outside, by what it has left, holds or keeps, and by how often it was called and has failed.
ghost use Rattle.std.specs.Prelude.{ℕ, List, Option, ◌≡◌, ◌≤◌, Err, IfOk, OnOk, vec_len};
ghost use Rattle.std.specs.Io.{ReadsAtMost};
ghost use Rattle.std.specs.Io.KnownBytes.{ReadConsumes};
ghost use Rattle.outside_io.specs.Bytes.{WritesAll};
ghost use Rattle.outside_io.specs.Causes.{risen, Rose, HasCause};
ghost use Rattle.outside_io.specs.Files.{Files, Lacks, IsLacking, HasFront, KeepsFiles, SetsFile, KeepsOthers};
ghost use Rattle.outside_io.specs.Answers.{IsAbsentAnswer};

use std::alloc::Global;

/// A read of a source or a write to a sink that failed.
#[derive(Clone, Copy, Debug, PartialEq, Eq)]
pub struct Failed;

/// Where bytes come from, as a console's input.
pub trait Source {
    /// The bytes left, the next one first, where they are told. What is told once stays told.
    ghost left: { Self → Option (List ℕ) };

    /// How often it was read, with the reads that failed. Each read raises the count by one, until
    /// it stands still at the last value of a u64.
    ghost calls: { Self → ℕ };

    /// How often a read failed. The count never falls, and stands still at the last value of a u64.
    ghost faults: { Self → ℕ };

    /// Moves the next bytes into the front of `buf`, and returns how many.
    ///
    /// It may move fewer than `buf` has room for. `Ok(0)` for a `buf` that is not empty is the end
    /// of the input. `Failed` takes no byte, and comes only where the faults rose.
    fn read(&mut self, buf: &mut [u8]) -> Result<usize, Failed>
        ensures bound { ReadsAtMost result buf.new }
        ensures bytes { ReadConsumes (left self.old) (left self.new) result buf.new }
        ensures calls { calls self.new ≡ risen (calls self.old) }
        ensures cause { HasCause (faults self.old) (faults self.new) result };
}

/// Where bytes go to, as a console's output.
pub trait Sink {
    /// The bytes held, the first that came first, where they are told. What is told once stays
    /// told.
    ghost held: { Self → Option (List ℕ) };

    /// How often it was written, with the writes that failed. Each write raises the count by one,
    /// until it stands still at the last value of a u64.
    ghost calls: { Self → ℕ };

    /// How often a write failed. The count never falls, and stands still at the last value of a
    /// u64.
    ghost faults: { Self → ℕ };

    /// Appends all bytes.
    ///
    /// `Failed` has appended some front of them, which may be empty or all, and comes only where
    /// the faults rose.
    fn write(&mut self, bytes: &[u8]) -> Result<(), Failed>
        ensures bytes { WritesAll (held self.old) (held self.new) result bytes.now }
        ensures calls { calls self.new ≡ risen (calls self.old) }
        ensures cause { HasCause (faults self.old) (faults self.new) result };
}

/// Why a file was not read.
#[derive(Clone, Copy, Debug, PartialEq, Eq)]
pub enum FileFault {
    /// There is no file of that name.
    Absent,
    /// The read failed.
    Failed,
    /// There was no memory for the bytes.
    OutOfMemory,
}

/// Why a file was not written.
#[derive(Clone, Copy, Debug, PartialEq, Eq)]
pub enum PutFault {
    /// The write failed, and the file may hold anything or be gone.
    Failed,
    /// There was no memory, and no file has changed.
    OutOfMemory,
}

/// Files by their names.
///
/// A name is a list of bytes, and so is what a file holds. No count ever falls, and each stands
/// still at the last value of a u64.
pub trait Folder {
    /// The files, as a function from each name to the bytes of its file, where they are told. What
    /// is told once stays told.
    ghost files: { Self → Option Files };

    /// How often it was read or written, with the calls that failed. Each raises the count by one.
    ghost calls: { Self → ℕ };

    /// How often a read failed.
    ghost read_faults: { Self → ℕ };

    /// How often a write failed.
    ghost write_faults: { Self → ℕ };

    /// How often a read met no file of its name.
    ghost absences: { Self → ℕ };

    /// The first `most` bytes of a file, or all of them where it is shorter. No file changes.
    ///
    /// `Absent` comes only where the absences rose and, where the files are told, only where they
    /// lack the name. Where they lack it, no other answer comes, unless the read faults rose or
    /// memory was wanting. `Failed` comes only where the read faults rose. `OutOfMemory` raises no
    /// other count.
    fn read(&mut self, alloc: Global, name: &str, most: usize) -> Result<Vec<u8>, FileFault>
        ensures bound { IfOk result (λ bytes. vec_len bytes ≤ most) }
        ensures bytes { IfOk result (λ bytes. HasFront (files self.old) name.now most bytes.items) }
        ensures files { KeepsFiles (files self.old) (files self.new) }
        ensures calls { calls self.new ≡ risen (calls self.old) }

        ensures read_faults { read_faults self.old ≤ read_faults self.new }
        ensures write_faults { write_faults self.new ≡ write_faults self.old }
        ensures absences { absences self.old ≤ absences self.new }

        ensures failed { result ≡ Err FileFault.Failed
            → Rose (read_faults self.old) (read_faults self.new) }
        ensures absent { result ≡ Err FileFault.Absent
            → Rose (absences self.old) (absences self.new) }
        ensures absent_lacks { result ≡ Err FileFault.Absent
            → Lacks (files self.old) name.now }
        ensures lacking { IsLacking (files self.old) name.now
            → IsAbsentAnswer (read_faults self.old) (read_faults self.new) result }
        ensures no_memory { result ≡ Err FileFault.OutOfMemory
            → (read_faults self.new ≡ read_faults self.old)
            × (absences self.new ≡ absences self.old) };

    /// Makes the file of that name hold these bytes and no others, and leaves the other files.
    ///
    /// `Failed` comes only where the write faults rose: the named file may then hold anything or be
    /// gone, and the others stay. `OutOfMemory` leaves all files and raises no other count.
    fn write(&mut self, alloc: Global, name: &str, bytes: &[u8]) -> Result<(), PutFault>
        ensures written { OnOk result
            (SetsFile (files self.old) (files self.new) name.now bytes.now) }
        ensures others { KeepsOthers (files self.old) (files self.new) name.now }
        ensures calls { calls self.new ≡ risen (calls self.old) }
        ensures no_memory { result ≡ Err PutFault.OutOfMemory
            → KeepsFiles (files self.old) (files self.new)
            × (write_faults self.new ≡ write_faults self.old) }

        ensures read_faults { read_faults self.new ≡ read_faults self.old }
        ensures write_faults { write_faults self.old ≤ write_faults self.new }
        ensures absences { absences self.new ≡ absences self.old }

        ensures failed { result ≡ Err PutFault.Failed
            → Rose (write_faults self.old) (write_faults self.new) };
}
