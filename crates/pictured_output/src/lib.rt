//! Pictured output and the words on bytes, in Forth: the second text of the library.
#![tactic(auto)]

mod laws;
mod program;
mod text;

pub use laws::pictured_text_is_read;
pub use program::pictured_program;
pub use text::{PICTURED_TEXT, pictured_text};
