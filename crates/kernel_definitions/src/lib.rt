//! The words of the kernel of an interactive Forth that compile a typed definition: what they do, and that the cells that a definition
//! comes to are those of its items.
#![tactic(auto)]

mod laws;

pub use laws::{
    defining_words_store, definitions_are_read_off_lines, items_are_typed, texts_are_interpreted,
    turns_read_words, typed_definitions_are_compiled,
};
