// Data space while a source is read.
ghost use Rattle.std.specs.Prelude.{◌≡◌, ◌<◌, ◌≤◌, ◌%◌, IfOk, OnOk};
ghost use Rattle.host_state.specs.HostMemory.{is_inside, cell_in, with_cell_in, first_space};

use std::alloc::{AllocError, Global};
use std::marker::Model;

/// Data space: where it begins, and its cells up to the highest that was ever written.
#[derive(Drop)]
pub struct DataSpace {
    data_start: u16,
    cells: Vec<u16>,
}

impl Model for DataSpace {
    ghost use Rattle.std.specs.Prelude.{◌≡◌, ◌+◌, ◌/◌, ◌%◌, ◌≤◌, length};
    ghost use Rattle.host_state.specs.HostCells.{Space};

    ghost Value = { Space };

    ghost view = { λ d. record { data_start = d.data_start; cells = d.cells.items } };

    ghost invariant = { λ d. (4096 ≤ d.data_start) × (d.data_start ≤ 16000) × (d.data_start % 2 ≡ 0) × (length d.cells.items + d.data_start / 2 ≤ 8192) };
}

impl DataSpace {
    /// Data space at first.
    pub fn new(alloc: Global, data_start: u16) -> Result<DataSpace, AllocError>
        requires { (4096 ≤ data_start) × (data_start ≤ 16000) × (data_start % 2 ≡ 0) }
        ensures { IfOk result (λ space. space ≡ first_space data_start) }
    {
        let cells = Vec::from_slice(alloc, &[10, data_start + 96, data_start + 128])?;
        Ok(DataSpace { data_start, cells })
    }

    /// The same data space.
    pub(crate) fn copy(&self, alloc: Global) -> Result<DataSpace, AllocError>
        ensures { IfOk result (λ copy. copy ≡ self.now) }
    {
        let cells = Vec::from_slice(alloc, self.cells.as_slice())?;
        Ok(DataSpace {
            data_start: self.data_start,
            cells,
        })
    }

    /// Where it begins.
    pub fn data_start(&self) -> u16
        ensures value { result ≡ self.now.data_start }
        ensures range { (4096 ≤ result) × (result ≤ 16000) × (result % 2 ≡ 0) }
    {
        self.data_start
    }

    /// Its cells up to the highest that was ever written.
    pub(crate) fn cells(&self) -> &[u16]
        ensures { result.now ≡ self.now.cells }
    {
        self.cells.as_slice()
    }

    /// Whether an address is in it.
    pub fn has(&self, address: u16) -> bool
        ensures value { result ≡ is_inside self.now.data_start address }
    {
        self.data_start <= address / 2 * 2 && address < 16384
    }

    /// The cell at an address.
    #[tactic(auto, using(crate::proofs::Cells::cell_below, crate::proofs::Cells::cell_beyond))]
    pub fn cell(&self, address: u16) -> u16
        ensures { result ≡ cell_in self.now address }
    {
        let place = usize::from(address.saturating_sub(self.data_start) / 2);
        if place < self.cells.len() {
            self.cells[place]
        } else {
            0
        }
    }

    /// Another cell at an address.
    #[tactic(auto, using(crate::proofs::Cells::set_below, crate::proofs::Cells::set_longer))]
    pub fn set_cell(&mut self, address: u16, x: u16) -> Result<(), AllocError>
        requires { (self.old.data_start ≤ address) × (address < 16384) }
        ensures { OnOk result (self.new ≡ with_cell_in self.old address x) }
    {
        let place = usize::from(address.saturating_sub(self.data_start) / 2);
        if place < self.cells.len() {
            self.cells[place] = x;
            return Ok(());
        }
        self.cells.resize(place, 0)?;
        match self.cells.push(x) {
            Ok(()) => Ok(()),
            Err(_) => Err(AllocError),
        }
    }
}
