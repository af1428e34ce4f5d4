// Sources and sinks in memory, which fail at the calls whose numbers a list has.
ghost use Rattle.std.specs.Prelude.{◌≡◌, ◌↔◌, ◌⊎◌, ◌+◌, ◌<◌, [], ◌++◌, length, min, take, drop, Some, IfOk, OnOk, OnErr, IsErr, IsTrue, Contains};
ghost use Rattle.std.specs.Io.{ReadsAtMost};
ghost use Rattle.std.specs.Io.KnownBytes.{ReadConsumes};
ghost use Rattle.outside_io.specs.Bytes.{WritesAll};
ghost use Rattle.outside_io.specs.Causes.{HasCause, risen};
ghost use Rattle.outside_io.specs.Scripts.{IsFailing};

use crate::{Failed, Sink, Source};
use std::alloc::{AllocError, Global};
use std::marker::Model;

// Whether a call's number is among those of the calls that fail.
pub(crate) fn is_listed(fails: &[u32], call: u64) -> bool
    ensures { IsTrue result ↔ Contains fails.now call }
{
    fails.iter().any(|number| u64::from(*number) == call)
}

// Copies as many of the first bytes as there is room for.
fn copy_front(rest: &[u8], buf: &mut [u8]) -> usize
    ensures count { result ≡ min (length rest.now) (length buf.old) }
    ensures copied { rest.now ≡ take result buf.new ++ drop result rest.now }
{
    let count = rest.len().min(buf.len());
    buf[..count].copy_from_slice(&rest[..count]);
    count
}

/// A source over bytes in memory.
///
/// Contracts see it as a record: the bytes left, the number of calls so far, the numbers of the
/// calls that fail, and the count of faults.
#[derive(Drop)]
pub struct MemSource {
    bytes: Vec<u8>,
    at: usize,
    fails: Vec<u32>,
    calls: u64,
    faults: u64,
}

impl Model for MemSource {
    ghost use Rattle.std.specs.Prelude.{◌≤◌, drop, length};
    ghost use Rattle.outside_io.specs.Scripts.{SourceScript};

    ghost Value = { SourceScript };

    ghost view = { λ s. record {
      left = drop s.at s.bytes.items;
      calls = s.calls;
      fails = s.fails.items;
      faults = s.faults;
    } };

    ghost invariant = { λ s. s.at ≤ length s.bytes.items };
}

impl MemSource {
    /// A source that has these bytes left. Its reads are numbered from 1, and those whose numbers
    /// stand in `fails` fail.
    pub fn new(alloc: Global, bytes: &[u8], fails: &[u32]) -> Result<MemSource, AllocError>
        ensures { IfOk result (λ s.
            s ≡ record { left = bytes.now; calls = 0; fails = fails.now; faults = 0 }) }
    {
        Ok(MemSource {
            bytes: bytes.to_vec(alloc)?,
            at: 0,
            fails: fails.to_vec(alloc)?,
            calls: 0,
            faults: 0,
        })
    }
}

impl Source for MemSource {
    ghost left = { λ s. Some s.left };

    ghost calls = { λ s. s.calls };

    ghost faults = { λ s. s.faults };

    /// Fails exactly where the number of the call is listed, and else moves all that `buf` has room
    /// for.
    fn read(&mut self, buf: &mut [u8]) -> Result<usize, Failed>
        ensures bound { ReadsAtMost result buf.new }
        ensures bytes { ReadConsumes (Some self.old.left) (Some self.new.left) result buf.new }
        ensures calls { self.new.calls ≡ risen self.old.calls }
        ensures cause { HasCause self.old.faults self.new.faults result }

        ensures failing { IsErr result ↔ IsFailing self.old.calls self.old.fails }
        ensures failed { OnErr result (self.new ≡ record self.old {
          calls = risen self.old.calls;
          faults = risen self.old.faults;
        }) }
        ensures count { IfOk result (λ n. n ≡ min (length self.old.left) (length buf.new)) }
        ensures moved { IfOk result (λ n. self.new ≡ record self.old {
          left = drop n self.old.left;
          calls = risen self.old.calls;
        }) }
    {
        self.calls = self.calls.saturating_add(1);
        if is_listed(&self.fails, self.calls) {
            self.faults = self.faults.saturating_add(1);
            return Err(Failed);
        }
        let count = copy_front(&self.bytes[self.at..], buf);
        self.at += count;
        Ok(count)
    }
}

/// A sink in memory, with room for a number of bytes.
///
/// Contracts see it as a record: the bytes held, the room in bytes, the number of calls so far, the
/// numbers of the calls that fail, and the count of faults.
#[derive(Drop)]
pub struct MemSink {
    bytes: Vec<u8>,
    room: usize,
    fails: Vec<u32>,
    calls: u64,
    faults: u64,
}

impl Model for MemSink {
    ghost use Rattle.std.specs.Prelude.{◌≤◌, length, vec_capacity};
    ghost use Rattle.outside_io.specs.Scripts.{SinkScript};

    ghost Value = { SinkScript };

    ghost view = { λ s. record {
      held = s.bytes.items;
      room = s.room;
      calls = s.calls;
      fails = s.fails.items;
      faults = s.faults;
    } };

    ghost invariant = { λ s. (length s.bytes.items ≤ s.room) × (s.room ≤ vec_capacity s.bytes) };
}

impl MemSink {
    /// An empty sink with room for `room` bytes, which it takes here. Its writes are numbered from
    /// 1, and those whose numbers stand in `fails` fail.
    pub fn new(alloc: Global, room: usize, fails: &[u32]) -> Result<MemSink, AllocError>
        ensures { IfOk result (λ s.
            s ≡ record { held = []; room = room; calls = 0; fails = fails.now; faults = 0 }) }
    {
        Ok(MemSink {
            bytes: Vec::with_capacity(alloc, room)?,
            room,
            fails: fails.to_vec(alloc)?,
            calls: 0,
            faults: 0,
        })
    }

    /// The bytes held, the first that came first.
    pub fn held(&self) -> &[u8]
        ensures { result.now ≡ self.now.held }
    {
        &self.bytes
    }
}

impl Sink for MemSink {
    ghost held = { λ s. Some s.held };

    ghost calls = { λ s. s.calls };

    ghost faults = { λ s. s.faults };

    /// Fails exactly where the bytes go past the room or the number of the call is listed, and
    /// then appends nothing. It takes no memory.
    fn write(&mut self, bytes: &[u8]) -> Result<(), Failed>
        ensures bytes { WritesAll (Some self.old.held) (Some self.new.held) result bytes.now }
        ensures calls { self.new.calls ≡ risen self.old.calls }
        ensures cause { HasCause self.old.faults self.new.faults result }

        ensures failing { IsErr result
            ↔ ((self.old.room < length self.old.held + length bytes.now)
            ⊎ IsFailing self.old.calls self.old.fails) }
        ensures failed { OnErr result (self.new ≡ record self.old {
          calls = risen self.old.calls;
          faults = risen self.old.faults;
        }) }
        ensures appended { OnOk result (self.new ≡ record self.old {
          held = self.old.held ++ bytes.now;
          calls = risen self.old.calls;
        }) }
    {
        self.calls = self.calls.saturating_add(1);
        let is_past_room = bytes.len() > self.room - self.bytes.len();
        if is_past_room
            || is_listed(&self.fails, self.calls)
            || self.bytes.extend_from_slice(bytes).is_err()
        {
            self.faults = self.faults.saturating_add(1);
            return Err(Failed);
        }
        Ok(())
    }
}
