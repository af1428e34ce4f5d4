//! A simulator of the J1: one instruction at a time, and whole runs over a console.
//!
//! The machine is that of Bowman's J1 paper, with 16-bit cells, 8192 cells of memory, and a data and a return stack
//! that are rings of 32 cells. Its definition stands in `specs/`: `Effect` says what an instruction does, `Step` does it
//! over any cells and stacks, `RoundMachine` gives it rings, and `Run` makes n instructions. `PortAccess`
//! tells the accesses of the next instruction, and makes it where its one access is made outside the machine.
#![tactic(auto)]

mod accesses;
mod buffers;
mod counters;
mod cpu;
mod drives;
mod effects;
mod ends;
mod laws;
mod machines;
mod memory;
mod operate;
mod plans;
mod reach;
mod registers;
mod rings;

pub use accesses::Accesses;
pub use drives::drive;
pub use ends::{DriveError, End, Event, Finish};
pub use laws::{
    call_then_return, drive_is_run, literal_then_drop, runs_only_grow, steps_are_the_run,
};
pub use machines::Machine;
pub use memory::memory_cells;
pub use registers::Registers;
