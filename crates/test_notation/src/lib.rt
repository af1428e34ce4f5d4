//! How the tests of several crates write their tables: a line has fields between bars, with bytes, lists of numbers and repeated texts.
#![tactic(auto)]

mod notation;
mod phrases;

pub use notation::{append_cells, append_times, bytes_in, cells_in, field, number, repeated};
pub use phrases::{PHRASES, Phrase, phrase_in};
