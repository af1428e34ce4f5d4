//! Assembly texts: their image, or their first bad line.
//!
//! | lines with fields, in this order | |
//! |---|---|
//! | `J1 1`, or `J1 2 HHHH` | the data start: 8192, or HHHH |
//! | `CODE` | |
//! | code lines | an optional `@` and the number of the next cell, an optional label and `:`, an optional instruction |
//! | `DATA` | |
//! | data lines | an optional `@` and the address of the next byte, and 1 to 16 bytes of two digits |
//! | `END` | |
//!
//! Fields are split by spaces, tabs and carriage returns. A field `\` and what follows it in the line are a comment. HHHH are four
//! hexadecimal digits, letters in either case. An instruction is `lit HHHH`, `raw HHHH`, `jump`, `branch` or `call` and a
//! target, which is HHHH or `:` and a label, `alu` with an operation and the optional fields `T->N T->R N->[T] R->PC`, a move of
//! the return stack and a move of the data stack, or a name of a cell, such as `dup`.
#![tactic(auto)]

mod assembler;
mod fields;
mod instruction;
mod labels;
mod laws;
mod lines;
mod names;
mod numbers;
mod refusal;
mod rows;
mod text;

pub use fields::next_field;
pub use laws::{assembles_by_grammar, refuses_first_bad};
pub use lines::next_line;
pub use names::{name_of_cell, operation_name};
pub use refusal::{AsmCause, AsmError};
pub use text::assemble;
