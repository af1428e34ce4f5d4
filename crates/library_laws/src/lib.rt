//! The definitions of the library's words, in Forth, and that each does what its word means.
//!
//! `specs` has the bodies as trees, and the law: the run of a body by the word steps of `forth_program` comes to the word's meaning,
//! within its price, its peak and its back.
#![tactic(auto)]

mod laws;

pub use laws::{bodies_mean_words, definitions_do_their_meaning, library_words_leave_well};
