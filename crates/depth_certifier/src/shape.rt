// Return entries of a body.
ghost use Rattle.std.specs.Prelude.{◌≤◌};

/// An entry that a body has put on the return stack.
#[derive(Clone, Copy, Debug, PartialEq, Eq)]
pub enum Slot {
    /// One cell.
    OfCell,
    /// A loop, with its limit and its index.
    OfLoop,
}

/// Up to 32 return entries, the oldest first.
#[derive(Clone, Copy)]
pub struct Entries {
    pub slots: [Slot; 32],
    pub count: u8,
    ghost few: { count ≤ 32 },
}
