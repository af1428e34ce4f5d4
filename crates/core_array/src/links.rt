// Links between cores.

/// A link by which core `from` sends cells to core `to`.
#[derive(Clone, Copy, Debug, PartialEq, Eq)]
pub struct Link {
    pub from: u8,
    pub to: u8,
}
