// How a run ends, and why an evaluation breaks off.
ghost use Rattle.std.specs.Prelude.{◌≡◌};
ghost use Rattle.reference_eval.specs.declared.ends.Stop.TheVariants as stops;

use std::alloc::AllocError;
use std::convert::From;
use thiserror::Error;

/// How a run ends.
#[derive(Clone, Copy, Debug, PartialEq, Eq)]
pub enum End {
    /// A store to the halt port, whose low byte is the status, or a word that ends the run so.
    Halted(u8),
    /// An input byte was due and the input had none left.
    InputEnded,
    /// A fetch or a store at an address that is no cell of data space and no port for it, without bit 0.
    Outside(u16),
}

/// How an evaluation finishes.
#[derive(Clone, Copy, Debug, PartialEq, Eq)]
pub enum EvalFinish {
    /// The run ended.
    Ended(End),
    /// All word steps asked for were made, and the run has not ended.
    StepsUsed,
    /// A word found too few data cells.
    Underflow,
    /// A word found other return entries than it needs, or a body ended with entries left.
    Unbalanced,
}

/// Why an evaluation broke off.
#[derive(Clone, Copy, Debug, PartialEq, Eq, Error)]
pub enum EvalError {
    /// The console failed. All that was printed has been written.
    #[error("the console could not be read")]
    Read,
    /// The output failed. It holds a beginning of what was printed.
    #[error("the output could not be written")]
    Write,
    /// There was no memory for the lists of the run. The output holds a beginning of what was printed.
    #[error("there was no memory")]
    OutOfMemory,
}

// Why an access does not give what it is asked for: the run ends, or the console or the output failed.
#[derive(Clone, Copy, Debug, PartialEq, Eq)]
pub(crate) enum Halt {
    Ended(End),
    Read,
    Write,
}

// Why a word step does not go on.
#[derive(Clone, Copy, Debug, PartialEq, Eq)]
pub(crate) enum Stop {
    Halt(Halt),
    Underflow,
    Unbalanced,
    // `GO` has called the code at an address. A program without it does not come here.
    Left(u16),
    OutOfMemory,
}

impl From<AllocError> for Stop {
    ghost from_gives = { λ _ stop. stop ≡ stops.OutOfMemory };

    fn from(_error: AllocError) -> Stop {
        Stop::OutOfMemory
    }
}

impl From<Halt> for Stop {
    ghost from_gives = { λ halt stop. stop ≡ stops.Halt halt };

    fn from(halt: Halt) -> Stop {
        Stop::Halt(halt)
    }
}
