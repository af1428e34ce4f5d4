// Fences, and what an access reaches.

/// Where data space begins: the byte address from which on, up to 16383, cells may be fetched and stored.
#[derive(Clone, Copy, Debug, PartialEq, Eq)]
pub struct Fence {
    pub data_start: u16,
}

/// What a fetch or a store reaches.
#[derive(Clone, Copy, Debug, PartialEq, Eq)]
pub enum Access {
    /// A cell of data space, by its place among the 8192 cells of memory.
    Data(usize),
    /// The port that prints the low byte of what is stored.
    Print,
    /// The port that a fetch takes an input byte from.
    Key,
    /// The port that ends the run, with the low byte of what is stored as its status.
    Halt,
    /// No such cell and no such port: the address without bit 0.
    Outside(u16),
}
