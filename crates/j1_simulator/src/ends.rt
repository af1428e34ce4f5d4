// Events of a step, and how a run ends.
use thiserror::Error;

/// How a run ends.
#[derive(Clone, Copy, Debug, PartialEq, Eq)]
pub enum End {
    /// A store to the halt port (byte address 16388), whose low byte is the status. The instruction was made.
    Halted(u8),
    /// An instruction takes a byte, and the input has none left. Nothing else changed.
    InputEnded,
    /// A fetch or a store at an address that is no cell of data space and no port for it, without bit 0. Nothing else changed.
    Outside(u16),
}

/// What one step of a machine did.
#[derive(Clone, Copy, Debug, PartialEq, Eq)]
pub enum Event {
    /// It made an instruction that prints nothing and does not halt.
    Went,
    /// It made an instruction that printed this byte.
    Printed(u8),
    /// It made nothing: the next instruction takes a byte, and none was given.
    WantsByte,
    /// The run has ended, by this step or an earlier one.
    Ended(End),
}

/// How a drive finished.
#[derive(Clone, Copy, Debug, PartialEq, Eq)]
pub enum Finish {
    /// The run has ended, in this drive or before it.
    Ended(End),
    /// All instructions asked for were made, and the run has not ended.
    StepsUsed,
}

/// Why a drive broke off.
#[derive(Clone, Copy, Debug, PartialEq, Eq, Error)]
pub enum DriveError {
    /// The console failed. All that was printed has been written, and the machine still wants its byte.
    #[error("the console could not be read")]
    Read,
    /// The output failed. It holds a beginning of what was printed.
    #[error("the output could not be written")]
    Write,
}
