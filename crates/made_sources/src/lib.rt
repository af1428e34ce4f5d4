//! The sources that `make` writes itself: each is read and certified, and its run halts with 0. Laws with no code.
#![tactic(auto)]

mod laws;

pub use laws::{made_programs_are_certified, made_programs_halt_well, made_sources_are_read};
