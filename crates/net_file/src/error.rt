// Why there is no net.

/// Why a text has no net.
#[derive(Clone, Copy, Debug, PartialEq, Eq)]
pub enum NetError {
    /// The text is no net file, with its first bad line, counted from 1. A text that ends early is bad at the line behind its last.
    BadLine(u32),
    /// There is no memory.
    OutOfMemory,
}
