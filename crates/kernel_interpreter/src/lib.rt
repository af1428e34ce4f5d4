//! The words of the kernel of an interactive Forth that interpret the words of a line: their definitions in Forth, as trees, and what they
//! do outside definitions, up to the `GO` of a typed word and behind its way back.
#![tactic(auto)]

mod laws;

pub use laws::kernel_interpreter_keeps_its_laws;
