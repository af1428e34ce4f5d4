//! Laws, with no code, of the machine code that the kernel of the interactive Forth has around a typed word: it puts the user's cells
//! onto the data stack, calls the word, and takes the cells back into memory.
//!
//! They hold on the open machine of `j1_simulator`, from each memory that has this code at its places. Each law is a function with an
//! empty body.
#![tactic(auto)]

mod laws;
mod typed_words;
mod way_back;

pub use laws::{a_typed_word_comes_back, calls_lead_behind, cells_are_loaded, cells_are_saved};
pub use typed_words::{typed_words_do_their_meaning, typed_words_do_their_meaning_on_chip};
pub use way_back::{returns_go_back, saved_cells_keep_code, typed_words_go_back};
