//! Images as assembly texts, which assemble to the images again.
//!
//! Each cell has a line with its number and its instruction, and the name of the cell as a comment where it has one. An ALU cell
//! with bit 4 is listed as a number. The data bytes stand 16 to a line, each line with the address of its first byte.
#![tactic(auto)]

mod code;
mod digits;
mod laws;
mod text;

pub use code::add_instruction;
pub use digits::{add_field, add_hex2, add_hex4, add_place, digit};
pub use laws::listings_assemble;
pub use text::listing;
