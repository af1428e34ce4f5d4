// The schedule of a net.
ghost use Rattle.std.specs.Prelude.{◌≡◌, ◌<◌, ◌≤◌, ◌++◌, ℕ, length, replicate, slice_index, IfOk, OnOk};
ghost use Rattle.net_file.specs.Schedule.{round_from, schedule_of};

use crate::nets::Net;
use std::alloc::{AllocError, Global};

// Appends so many entries of a core.
fn add_entries(round: &mut Vec<u8>, core: u8, entries: u16) -> Result<(), AllocError>
    ensures { OnOk result (round.new.items ≡ round.old.items ++ replicate entries core) }
{
    for _ in 0..entries {
        round.push(core)?;
    }
    Ok(())
}

// One round.
fn round(alloc: Global, cores: u8, entries: u16) -> Result<Vec<u8>, AllocError>
    ensures { IfOk result (λ round. round.items ≡ round_from cores 0 entries) }
{
    let mut round = Vec::new(alloc);
    for core in 0..cores {
        add_entries(&mut round, core, entries)?;
    }
    Ok(round)
}

/// The schedule of a net: its rounds, in each the entries of core 0, then those of core 1, and so on. An error is want of memory.
pub fn schedule(alloc: Global, net: &Net) -> Result<Vec<u8>, AllocError>
    requires { length net.now.cores ≤ 16 }
    ensures value { IfOk result (λ schedule. schedule.items ≡ schedule_of net.now) }
    ensures cores { IfOk result (λ schedule. (i : ℕ) → i < length schedule.items → slice_index schedule.items i < length net.now.cores) }
{
    let round = round(alloc, net.cores().len() as u8, net.entries())?;
    let mut schedule = Vec::new(alloc);
    for _ in 0..net.rounds() {
        schedule.extend_from_slice(round.as_slice())?;
    }
    Ok(schedule)
}
