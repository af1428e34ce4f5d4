//! The instructions of the J1, the cells that stand for them, and images.
//!
//! A cell has 16 bits. Its highest bits tell its kind (Bowman's J1 paper, "Instruction encoding").
//!
//! | cell | instruction |
//! |---|---|
//! | bit 15 set | a literal, the low 15 bits |
//! | `000` and 13 bits | a jump to that cell of memory |
//! | `001` and 13 bits | a branch: a jump where T is 0, and T is popped |
//! | `010` and 13 bits | a call of that cell |
//! | `011` and 13 bits | an ALU instruction, by its fields |
#![tactic(auto)]

mod bits;
mod coding;
mod fields;
mod image;
mod instr;

pub use bits::{Bits13, Bits15};
pub use coding::{cells_are_instructions, decode, effect_of, encode};
pub use fields::AluWord;
pub use image::Image;
pub use instr::Instr;
