// What a definition does to both stacks, and why a program has no certificate.

/// What a word or a definition does to both stacks.
#[derive(Clone, Copy, Debug, PartialEq, Eq)]
pub struct Effect {
    /// The data cells that must be there.
    pub need: u8,
    /// The greatest rise of the data cells above those at the entry.
    pub peak: u8,
    /// The greatest number of return cells.
    pub back: u8,
    /// The least and the greatest change of the data cells; nothing where the word never returns.
    pub exit: Option<(i8, i8)>,
}

/// Why a definition is refused.
#[derive(Clone, Copy, Debug, PartialEq, Eq)]
pub enum CertCause {
    /// Its need, its peak, an interval or its exit passes a limit.
    Data,
    /// Its return cells pass the limit.
    Return,
    /// The return entries are not those that an item asks for.
    Shape,
}
