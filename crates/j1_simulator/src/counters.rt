// The signed depth counters.
ghost use Rattle.std.specs.Prelude.{◌≡◌, ◌+ℤ◌, pos};
ghost use Rattle.j1_simulator.specs.MachineState.{held, depths_after};

use crate::effects::Effect;
use std::marker::Model;

/// Pushes less pops of both stacks.
#[derive(Drop)]
pub struct Depths {
    of_data: i64,
    of_return: i64,
}

impl Model for Depths {
    ghost use Rattle.j1_simulator.specs.MachineState.{Depths as Counts};

    ghost Value = { Counts };

    ghost view = { λ d. record { data_depth = d.of_data; return_depth = d.of_return } };
}

// Short of this depth, either way, no instruction comes to the ends of i64.
const FAR: i64 = 0x4000_0000;

// The sum, held at the ends of i64, wherever the depth is.
#[cold]
#[inline(never)]
fn moved_far(depth: i64, places: i8) -> i64
    ensures { result ≡ held (depth +ℤ places) }
{
    depth.saturating_add(i64::from(places))
}

// The sum, held at the ends of i64.
#[inline(always)]
fn moved(depth: i64, places: i8) -> i64
    ensures { result ≡ held (depth +ℤ places) }
{
    if -FAR < depth && depth < FAR {
        depth + i64::from(places)
    } else {
        moved_far(depth, places)
    }
}

// Moves a depth by these places, where there are some.
#[inline(always)]
fn change(depth: &mut i64, places: i8)
    ensures { depth.new ≡ held (depth.old +ℤ places) }
{
    let before = *depth;
    if places != 0 {
        *depth = moved(before, places);
    }
}

impl Depths {
    pub fn new() -> Depths
        ensures { result ≡ record { data_depth = pos 0; return_depth = pos 0 } }
    {
        Depths {
            of_data: 0,
            of_return: 0,
        }
    }

    pub fn of_data(&self) -> i64
        ensures { result ≡ self.now.data_depth }
    {
        self.of_data
    }

    pub fn of_return(&self) -> i64
        ensures { result ≡ self.now.return_depth }
    {
        self.of_return
    }

    /// Counts the moves of an instruction.
    #[inline(always)]
    pub fn count(&mut self, effect: Effect)
        ensures { self.new ≡ depths_after self.old effect }
    {
        change(&mut self.of_data, effect.data_move);
        change(&mut self.of_return, effect.return_move);
    }
}
