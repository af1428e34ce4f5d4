//! The words of the kernel of an interactive Forth that read its source, look for names and numbers, and lay headers: their definitions in
//! Forth, as trees, and what they do.
#![tactic(auto)]

mod laws;

pub use laws::kernel_words_keep_their_laws;
