// What stands in registers and stacks.

/// What a machine has before an instruction: the cell of memory that the program counter is at, its content, T, N, R, and the pointers
/// of the data ring and of the return ring, below 32.
#[derive(Clone, Copy, Debug, PartialEq, Eq)]
pub struct Registers {
    pub place: u16,
    pub cell: u16,
    pub t: u16,
    pub n: u16,
    pub r: u16,
    pub data_pointer: u8,
    pub return_pointer: u8,
}
