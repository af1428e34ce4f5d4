//! A plain evaluator of Forth source: the run of a program, word step by word step, over a console and an output.
//!
//! It is slow and stays plain: a word step looks at the first work of the newest frame and does what the meaning says.
#![tactic(auto)]

mod access_words;
mod accesses;
mod buffers;
mod byte_words;
mod cell_words;
mod doubles;
mod ends;
mod evaluation;
mod frame_words;
mod machine;
mod memory;
mod pictures;
mod shapes;
mod shuffles;
mod stack;
mod steps;
mod structures;
mod words;
mod work;

pub use ends::{End, EvalError, EvalFinish};
pub use evaluation::evaluate;
