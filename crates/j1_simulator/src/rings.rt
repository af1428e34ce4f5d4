// Stacks of 32 places.
ghost use Rattle.std.specs.Prelude.{◌≡◌, ◌<◌, ◌≤ℤ◌, pos, negsuc};
ghost use Rattle.j1_simulator.specs.RoundMachine.{empty_ring, ring_top, ring_moved, ring_put};

use std::marker::Model;

/// A ring of cells with a pointer.
#[derive(Drop)]
pub struct Ring {
    cells: [u16; 32],
    at: u8,
}

impl Model for Ring {
    ghost use Rattle.std.specs.Prelude.{◌<◌};
    ghost use Rattle.j1_simulator.specs.RoundMachine.{RingCells};

    ghost Value = { RingCells };

    ghost view = { λ r. record { cells = r.cells; at = r.at } };

    ghost invariant = { λ r. r.at < 32 };
}

impl Ring {
    pub fn new() -> Ring
        ensures { result ≡ empty_ring }
    {
        Ring {
            cells: [0; 32],
            at: 0,
        }
    }

    #[inline(always)]
    pub fn at(&self) -> u8
        ensures value { result ≡ self.now.at }
        ensures bound { result < 32 }
    {
        self.at
    }

    #[inline(always)]
    pub fn top(&self) -> u16
        ensures { result ≡ ring_top self.now }
    {
        self.cells[usize::from(self.at)]
    }

    #[inline(always)]
    pub fn move_by(&mut self, places: i8)
        requires low { negsuc 1 ≤ℤ places }
        requires high { places ≤ℤ pos 1 }
        ensures { self.new ≡ ring_moved places self.old }
    {
        if places != 0 {
            self.at = (self.at as i8 + places).rem_euclid(32) as u8;
        }
    }

    #[inline(always)]
    pub fn put(&mut self, cell: u16)
        ensures { self.new ≡ ring_put cell self.old }
    {
        self.cells[usize::from(self.at)] = cell;
    }
}
