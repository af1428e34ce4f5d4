// Streams of the system. They tell no content.
ghost use Rattle.std.specs.Prelude.{◌≡◌, ◌≤◌, length, None, IfSome, OnOk, OnErr};
ghost use Rattle.std.specs.Io.{ReadsAtMost};
ghost use Rattle.outside_io.specs.Causes.{HasCause, risen};

use crate::{Failed, Sink, Source};
use std::io::{ErrorKind, Read, Write};
use std::marker::Model;

// Reads once, and again where a signal came between.
fn read_once<R: Read>(reader: &mut R, buf: &mut [u8]) -> Option<usize>
    ensures { IfSome result (λ n. n ≤ length buf.new) }
{
    for _ in 0..u64::MAX {
        match reader.read(buf) {
            Ok(count) => return Some(count),
            Err(error) => {
                if error.kind() != ErrorKind::Interrupted {
                    return None;
                }
            }
        }
    }
    None
}

/// A source over a reader of the system, as standard input. It tells no bytes.
///
/// Contracts see it as its counts of calls and of faults, which rise at each call and at each
/// `Failed`.
#[derive(Drop)]
pub struct StdSource<R> {
    reader: R,
    calls: u64,
    faults: u64,
}

impl<R> Model for StdSource<R> {
    ghost use Rattle.outside_io.specs.Scripts.{StreamCounts};

    ghost Value = { StreamCounts };

    ghost view = { λ s. record { calls = s.calls; faults = s.faults } };
}

impl<R> StdSource<R> {
    /// A source over the reader, with no call and no fault so far.
    pub fn new(reader: R) -> Self
        ensures { result ≡ record { calls = 0; faults = 0 } }
    {
        StdSource {
            reader,
            calls: 0,
            faults: 0,
        }
    }
}

impl<R: Read> Source for StdSource<R> {
    ghost left = { λ _. None };

    ghost calls = { λ s. s.calls };

    ghost faults = { λ s. s.faults };

    fn read(&mut self, buf: &mut [u8]) -> Result<usize, Failed>
        ensures bound { ReadsAtMost result buf.new }
        ensures calls { self.new.calls ≡ risen self.old.calls }
        ensures cause { HasCause self.old.faults self.new.faults result }
        ensures counted { OnErr result (self.new.faults ≡ risen self.old.faults) }
        ensures kept { OnOk result (self.new.faults ≡ self.old.faults) }
    {
        self.calls = self.calls.saturating_add(1);
        match read_once(&mut self.reader, buf) {
            Some(count) => Ok(count),
            None => {
                self.faults = self.faults.saturating_add(1);
                Err(Failed)
            }
        }
    }
}

/// A sink over a writer of the system, as standard output. It tells no bytes.
///
/// Contracts see it as its counts of calls and of faults, which rise at each call and at each
/// `Failed`.
#[derive(Drop)]
pub struct StdSink<W> {
    writer: W,
    calls: u64,
    faults: u64,
}

impl<W> Model for StdSink<W> {
    ghost use Rattle.outside_io.specs.Scripts.{StreamCounts};

    ghost Value = { StreamCounts };

    ghost view = { λ s. record { calls = s.calls; faults = s.faults } };
}

impl<W> StdSink<W> {
    /// A sink over the writer, with no call and no fault so far.
    pub fn new(writer: W) -> Self
        ensures { result ≡ record { calls = 0; faults = 0 } }
    {
        StdSink {
            writer,
            calls: 0,
            faults: 0,
        }
    }
}

impl<W: Write> Sink for StdSink<W> {
    ghost held = { λ _. None };

    ghost calls = { λ s. s.calls };

    ghost faults = { λ s. s.faults };

    /// Writes the bytes in as many pieces as the writer takes, and then flushes. A writer that
    /// takes nothing of a piece has failed.
    fn write(&mut self, bytes: &[u8]) -> Result<(), Failed>
        ensures calls { self.new.calls ≡ risen self.old.calls }
        ensures cause { HasCause self.old.faults self.new.faults result }
        ensures counted { OnErr result (self.new.faults ≡ risen self.old.faults) }
        ensures kept { OnOk result (self.new.faults ≡ self.old.faults) }
    {
        self.calls = self.calls.saturating_add(1);
        if self.writer.write_all(bytes).is_err() || self.writer.flush().is_err() {
            self.faults = self.faults.saturating_add(1);
            return Err(Failed);
        }
        Ok(())
    }
}
