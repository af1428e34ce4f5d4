//! Reads the program of a Forth source text: its definitions, or why it is refused.
//!
//! A text is definitions `: NAME items ;` with host words between them: they fill the data image, and give names to constants, created
//! addresses and children of defining words. Items are numbers in the present base, words, calls, structures, string words, `[']` and
//! `[CHAR]` with a name, and `LITERAL`; between them host words may act in brackets. In `specs/`, `SourceText` computes the program of a
//! text, or its first refusal.
#![tactic(auto)]

mod before;
mod brackets;
mod host_parts;
mod host_sense;
mod items;
mod laws;
mod nest;
mod outside_sense;
mod outside_words;
mod parser;
mod piece_reader;
mod pieces;
mod refusal;
mod sense;
mod single_items;
mod source;
mod structures;
mod ticks;

pub use laws::{programs_are_sources, tests_widen, texts_are_judged, texts_end_in_sources};
pub use nest::{Ending, Nest, Open};
pub use pieces::Reading;
pub use refusal::{SourceCause, SourceError, SourceRefusal};
pub use source::{read_kernel, read_program};
