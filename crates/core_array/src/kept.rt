// What is kept of a run: bytes and cells, with room for more.
ghost use Rattle.std.specs.Prelude.{◌≡◌, ◌<◌, ◌≤◌, ◌+◌, ◌++◌, ◌∷◌, [], ◌-◌, OnOk};

use std::alloc::{AllocError, Global};
use std::marker::Model;

/// Bytes that a core printed.
#[derive(Drop)]
pub struct Bytes {
    bytes: Vec<u8>,
}

impl Model for Bytes {
    ghost use Rattle.std.specs.Prelude.{◌-◌, vec_capacity, vec_len};
    ghost use Rattle.core_array.specs.ArrayState.{Kept};

    ghost Value = { Kept };

    ghost view = { λ b. record { items = b.bytes.items; room = vec_capacity b.bytes - vec_len b.bytes } };
}

impl Bytes {
    pub fn new(alloc: Global) -> Bytes
        ensures { result.items ≡ [] }
    {
        Bytes {
            bytes: Vec::new(alloc),
        }
    }

    pub fn reserve(&mut self, n: usize) -> Result<(), AllocError>
        ensures items { self.new.items ≡ self.old.items }
        ensures room { OnOk result (n ≤ self.new.room) }
    {
        self.bytes.reserve(n)
    }

    pub fn push(&mut self, byte: u8)
        requires { 0 < self.old.room }
        ensures items { self.new.items ≡ self.old.items ++ byte ∷ [] }
        ensures room { self.old.room ≤ self.new.room + 1 }
    {
        self.bytes.push_reserved(byte);
    }

    pub fn as_slice(&self) -> &[u8]
        ensures { result.now ≡ self.now.items }
    {
        self.bytes.as_slice()
    }
}

/// Cells that were sent by a link.
#[derive(Drop)]
pub struct Cells {
    cells: Vec<u16>,
}

impl Model for Cells {
    ghost use Rattle.std.specs.Prelude.{◌-◌, vec_capacity, vec_len};
    ghost use Rattle.core_array.specs.ArrayState.{Kept};

    ghost Value = { Kept };

    ghost view = { λ c. record { items = c.cells.items; room = vec_capacity c.cells - vec_len c.cells } };
}

impl Cells {
    pub fn new(alloc: Global) -> Cells
        ensures { result.items ≡ [] }
    {
        Cells {
            cells: Vec::new(alloc),
        }
    }

    pub fn reserve(&mut self, n: usize) -> Result<(), AllocError>
        ensures items { self.new.items ≡ self.old.items }
        ensures room { OnOk result (n ≤ self.new.room) }
    {
        self.cells.reserve(n)
    }

    pub fn push(&mut self, cell: u16)
        requires { 0 < self.old.room }
        ensures items { self.new.items ≡ self.old.items ++ cell ∷ [] }
        ensures room { self.old.room ≤ self.new.room + 1 }
    {
        self.cells.push_reserved(cell);
    }

    pub fn as_slice(&self) -> &[u16]
        ensures { result.now ≡ self.now.items }
    {
        self.cells.as_slice()
    }
}
