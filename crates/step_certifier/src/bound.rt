// What a bound is, and why a program has none.

use forth_program::DefId;

/// Why a program has no step bound.
#[derive(Clone, Copy, Debug, PartialEq, Eq)]
pub enum BoundCause {
    /// `BEGIN` with `UNTIL`, `REPEAT` or `AGAIN`.
    BeginLoop,
    /// A `DO` whose turns are not known, or a word whose count is not known.
    OpenBounds,
    /// A definition that calls itself.
    Recursion,
    /// `EXECUTE`.
    Execute,
    /// A bound of more than 1,000,000,000,000,000,000.
    TooLarge,
}

/// Why there is no answer.
#[derive(Clone, Copy, Debug, PartialEq, Eq)]
pub enum BoundError {
    /// The definition of the first refused item, and the cause.
    Refused(DefId, BoundCause),
    /// There was no memory.
    OutOfMemory,
}

/// A number of instructions within which every run of a program ends.
#[derive(Clone, Copy, Debug, PartialEq, Eq)]
pub struct StepBound {
    /// The number.
    pub steps: u64,
}
