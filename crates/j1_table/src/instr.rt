// Instructions.
use crate::{AluWord, Bits13, Bits15};

/// What a cell stands for.
#[derive(Clone, Copy, Debug, PartialEq, Eq)]
pub enum Instr {
    /// Pushes T, and T becomes the number.
    Literal(Bits15),
    /// Goes on at the cell.
    Jump(Bits13),
    /// Pops T, and goes on at the cell where the old T was 0.
    Branch(Bits13),
    /// Pushes the byte address of the next cell on the return stack, and goes on at the cell.
    Call(Bits13),
    /// Does what its fields say.
    Alu(AluWord),
}
