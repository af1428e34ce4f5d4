// Images.
ghost use Rattle.std.specs.Prelude.{◌≡◌, ◌≤◌, length, IfOk};
ghost use Rattle.j1_table.specs.Image.{HasRoom};

use std::alloc::{AllocError, Global};
use std::marker::Model;

/// What the memory of a machine begins with: code cells from cell 0 on, data bytes from the data start on, and 0 in all
/// the rest. The data start is even and lies from 4096 to 16000; there are at most half as many code cells, and at most 16384 data
/// bytes less that number.
#[derive(Drop)]
pub struct Image {
    cells: Vec<u16>,
    bytes: Vec<u8>,
    data_start: u16,
}

impl Model for Image {
    ghost use Rattle.j1_table.specs.Image.{Content, HasRoom};

    ghost Value = { Content };

    ghost view = { λ i. record { cells = i.cells.items; bytes = i.bytes.items; data_start = i.data_start } };

    ghost invariant = { λ i. HasRoom (record { cells = i.cells.items; bytes = i.bytes.items; data_start = i.data_start }) };
}

impl Image {
    /// The image of this code and these data bytes, with its data start at byte 8192. An error is want of memory.
    pub fn new(alloc: Global, code: &[u16], space: &[u8]) -> Result<Image, AllocError>
        requires code { length code.now ≤ 4096 }
        requires space { length space.now ≤ 8192 }
        ensures { IfOk result (λ i. i ≡ record { cells = code.now; bytes = space.now; data_start = 8192 }) }
    {
        Image::split(alloc, code, space, 8192)
    }

    /// The image of this code and these data bytes, with its data start at a byte address. An error is want of memory.
    pub fn split(
        alloc: Global,
        code: &[u16],
        space: &[u8],
        data_start: u16,
    ) -> Result<Image, AllocError>
        requires { HasRoom (record { cells = code.now; bytes = space.now; data_start = data_start }) }
        ensures { IfOk result (λ i. i ≡ record { cells = code.now; bytes = space.now; data_start = data_start }) }
    {
        Ok(Image {
            cells: code.to_vec(alloc)?,
            bytes: space.to_vec(alloc)?,
            data_start,
        })
    }

    /// The code cells, that of cell 0 first.
    pub fn cells(&self) -> &[u16]
        ensures cells { result.now ≡ self.now.cells }
        ensures bound { HasRoom self.now }
    {
        &self.cells
    }

    /// The data bytes, that of the data start first.
    pub fn bytes(&self) -> &[u8]
        ensures bytes { result.now ≡ self.now.bytes }
        ensures bound { HasRoom self.now }
    {
        &self.bytes
    }

    /// The byte address at which data space begins.
    pub fn data_start(&self) -> u16
        ensures value { result ≡ self.now.data_start }
        ensures bound { HasRoom self.now }
    {
        self.data_start
    }
}
