//! The words of the kernel of an interactive Forth that read a line, go over its words and reply: their definitions in Forth, as trees, and
//! what they do.
#![tactic(auto)]

mod laws;

pub use laws::{
    lines_are_interpreted, lines_keep_their_laws, main_repeats_lines, what_is_outside_stays,
};
