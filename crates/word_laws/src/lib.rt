//! Laws that compilers to the J1 stand on, with no code: what the cells of words and of numbers do on the open machine, and
//! when the rings of the chip do the same.
//!
//! The open machine of `j1_simulator` has stacks without end and cells that may be unknown. `Standing` in `specs/` says when it
//! stands where a source of `forth_program` stands. Each law is a function with an empty body.
#![tactic(auto)]

mod control;
mod joins;
mod numbers;
mod rings;
mod words;

pub use control::{control_leads, halt_ends};
pub use joins::{cells_stand, runs_join};
pub use numbers::numbers_do_their_meaning;
pub use rings::{counters_mislead, rings_do_the_same, rings_keep_places};
pub use words::{
    needs_are_exact, words_change_depths, words_do_their_meaning, words_keep_their_bounds,
    words_leave_cells,
};
