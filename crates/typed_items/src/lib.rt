//! Laws, with no code, of the machine code of definitions that are typed at the interactive Forth: the cells that its kernel lays for
//! their items do what the items mean.
//!
//! They hold on the open machine of `j1_simulator`, from each memory that has this code at its places, with code behind the execution
//! tokens of the listed words that does these words. Each law is a function with an empty body.
#![tactic(auto)]

mod laws;

pub use laws::{items_do_their_meaning, items_do_their_meaning_on_chip, typed_code_is_kept};
