//! The words of Forth source: their names, depth effects, prices, weights and plain cells.
//!
//! The table stands in `specs/Table.antt`, one line for each word. The code here gives what it says.
#![tactic(auto)]

mod names;
mod row;
mod table;
mod word;

pub use names::{each_is_found, word_in, word_of};
pub use table::{entry, plain_cells};
pub use word::{Class, Vocabulary, Word, WordEntry};
