//! The arithmetic words of the library, in Forth.
#![tactic(auto)]

mod laws;
mod program;
mod text;

pub use laws::arithmetic_text_is_read;
pub use program::arithmetic_program;
pub use text::{ARITHMETIC_TEXT, arithmetic_text};
