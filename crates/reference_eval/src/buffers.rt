// Bytes that wait to be written.
ghost use Rattle.std.specs.Prelude.{◌≡◌, ◌<◌, ◌≤◌, ◌↔◌, ◌++◌, ◌∷◌, [], length, IsTrue, IsOk, OnOk, OnErr};
ghost use Rattle.std.specs.Io.KnownBytes.{Appends};
ghost use Rattle.outside_io.specs.Causes.{HasCause};
ghost use Rattle.outside_io.specs.Bytes.{WritesAll};

use crate::ends::Halt;
use outside_io::{Failed, Sink};
use std::marker::Model;

/// Up to 512 bytes.
#[derive(Drop)]
pub(crate) struct Buffer {
    bytes: [u8; 512],
    len: usize,
}

impl Model for Buffer {
    ghost use Rattle.std.specs.Prelude.{List, ℕ, ◌≤◌, take};

    ghost Value = { List ℕ };

    ghost view = { λ b. take b.len b.bytes };

    ghost invariant = { λ b. b.len ≤ 512 };
}

impl Buffer {
    pub(crate) fn new() -> Buffer
        ensures { result ≡ [] }
    {
        Buffer {
            bytes: [0; 512],
            len: 0,
        }
    }

    pub(crate) fn is_full(&self) -> bool
        ensures full { IsTrue result ↔ (length self.now ≡ 512) }
        ensures bound { length self.now ≤ 512 }
    {
        self.len == 512
    }

    pub(crate) fn push(&mut self, byte: u8)
        requires { length self.old < 512 }
        ensures { self.new ≡ self.old ++ byte ∷ [] }
    {
        self.bytes[self.len] = byte;
        self.len += 1;
    }

    /// Writes the bytes out, where there are some.
    pub(crate) fn flush<O: Sink>(&mut self, out: &mut O) -> Result<(), Halt>
        ensures none { self.old ≡ [] → IsOk result }
        ensures bytes { WritesAll (O.held out.old) (O.held out.new) result self.old }
        ensures empty { OnOk result (self.new ≡ []) }
        ensures err { OnErr result (result ≡ Err Halt.Write) }
        ensures cause { HasCause (O.faults out.old) (O.faults out.new) result }
    {
        if self.len == 0 {
            return Ok(());
        }
        match out.write(&self.bytes[..self.len]) {
            Ok(()) => {
                self.len = 0;
                Ok(())
            }
            Err(Failed) => Err(Halt::Write),
        }
    }
}
