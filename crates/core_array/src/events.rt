// What one step of a core did.
use j1_simulator::End;

/// What one step of a core did.
#[derive(Clone, Copy, Debug, PartialEq, Eq)]
pub enum CoreEvent {
    /// It made an instruction that prints nothing and does not halt.
    Went,
    /// It made an instruction that printed this byte.
    Printed(u8),
    /// It made nothing: the next instruction takes from an empty mailbox, or sends to a full one.
    Blocked,
    /// The core has ended, by this step or an earlier one.
    Ended(End),
}
