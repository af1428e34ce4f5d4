//! What the kernel compiles of typed definitions is the machine code whose meaning `typed_items` tells: laws with no code.
#![tactic(auto)]

mod laws;

pub use laws::compiled_cells_are_typed_cells;
