//! The memory that a machine begins with, as a text for `$readmemh` of Verilog: a line of four hexadecimal digits for each of the 8192
//! cells, that of cell 0 first.
//!
//! Digits are in upper case, and each line ends with a line feed. Code cells stand from cell 0 on, data bytes as cells from half the data
//! start on, the low byte at the even address, and 0 in all the rest.
#![tactic(auto)]

mod laws;
mod text;

pub use laws::memory_texts_tell;
pub use text::memory_text;
