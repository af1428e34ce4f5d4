// How a call of the workbench ends.
ghost use Rattle.std.specs.Prelude.{◌≡◌};
ghost use Rattle.j1_workbench.specs.Statuses.{number_of};

use control_flow::SourceRefusal;
use depth_certifier::CertCause;
use forth_program::DefId;
use step_certifier::BoundCause;

/// How a call of the workbench ends.
#[derive(Clone, Copy, Debug, PartialEq, Eq)]
pub enum Status {
    /// The command did its work; a run halted with status 0.
    Done,
    /// The words have the form of no command.
    BadWords,
    /// The file to be read is not there.
    Missing,
    /// The source text is refused: its first refused token, and why.
    SourceRefused(SourceRefusal),
    /// The program has no stack certificate: the definition that is refused first, and why.
    NotCertified(DefId, CertCause),
    /// The file is no image file: its first bad offset.
    BadImage(u32),
    /// The file is no assembly text: its first bad line.
    BadListing(u32),
    /// The run had no end within its instructions.
    StepsUsed,
    /// The run wanted an input byte where none was left.
    InputEnded,
    /// The run met no cell and no port at this byte address, whose bit 0 is cleared.
    Outside(u16),
    /// The run halted with this status, which is not 0.
    Halted(u8),
    /// A file or the console could not be read.
    ReadFault,
    /// The output, the notes or a file could not be written.
    WriteFault,
    /// There was no memory.
    OutOfMemory,
    /// The file has more bytes than its kind may have.
    TooLarge,
    /// A word found too few data cells; from an evaluation alone.
    Underflow,
    /// A word found other return entries than it needs, or a body ended with entries left; from an evaluation alone.
    Unbalanced,
    /// The program has no step bound: the definition of the first item without one, and why.
    BoundRefused(DefId, BoundCause),
    /// The file is no net file: its first bad line.
    BadNet(u32),
}

/// The exit status of the program for a status.
pub fn status_number(status: &Status) -> u8
    ensures { result ≡ number_of status.now }
{
    match status {
        Status::Done => 0,
        Status::BadWords => 1,
        Status::Missing => 2,
        Status::SourceRefused(_) => 3,
        Status::NotCertified(_, _) => 4,
        Status::BadImage(_) | Status::BadListing(_) => 5,
        Status::StepsUsed => 6,
        Status::InputEnded => 7,
        Status::Outside(_) => 8,
        Status::Halted(_) => 9,
        Status::ReadFault => 10,
        Status::WriteFault => 11,
        Status::OutOfMemory => 12,
        Status::TooLarge => 13,
        Status::Underflow => 14,
        Status::Unbalanced => 14,
        Status::BoundRefused(_, _) => 16,
        Status::BadNet(_) => 17,
    }
}
