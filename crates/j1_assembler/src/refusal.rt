// Why a text is refused.
ghost use Rattle.std.specs.Prelude.{◌≡◌};

/// What is wrong with a line. At one line the first of these stands.
#[derive(Clone, Copy, Debug, PartialEq, Eq)]
pub enum AsmCause {
    /// Fields stand behind the line `END`.
    AfterEnd,
    /// The first line with fields is no header.
    Header,
    /// A line `CODE`, `DATA` or `END` is not the next of these three, or another line stands directly behind the header.
    Section,
    /// No such line, a number out of range, a line over 256 bytes, or a byte that no line may have.
    Form,
    /// `@` with another number than the present one.
    Address,
    /// A label that an earlier line defines too, or one that no line defines.
    Label,
    /// A cell or a byte too many.
    Full,
    /// The text ends without `END`; the line is that behind the last.
    NoEnd,
}

/// Why there is no image.
#[derive(Clone, Copy, Debug, PartialEq, Eq)]
pub enum AsmError {
    /// The text is no assembly text, with its first bad line and the cause.
    Refused(u32, AsmCause),
    /// There is no memory.
    OutOfMemory,
}

/// Why a line adds nothing.
#[derive(Clone, Copy, Debug, PartialEq, Eq)]
pub(crate) enum LineError {
    Fault(AsmCause),
    OutOfMemory,
}
