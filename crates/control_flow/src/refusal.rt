// Why a source is refused, and where.
ghost use Rattle.std.specs.Prelude.{◌≡◌};
ghost use Rattle.control_flow.specs.ParseResult.{source_cause, host_cause};

use forth_reader::ReadCause;
use host_state::HostRefusal;

/// Why a source is refused. Where two causes hold at one token, the one named first stands.
#[derive(Clone, Copy, Debug, PartialEq, Eq)]
pub enum SourceCause {
    /// A byte is none of 32 to 126, tab, line feed and carriage return. It stands in the space before the token, in its
    /// comment, in its string, or directly behind its last byte.
    NotText,
    /// The token has more than 31 bytes.
    NameTooLong,
    /// No `)` follows this `(`.
    OpenComment,
    /// The line or the text ends before the closing quote of a string.
    OpenString,
    /// A name is due, and the text has ended, the name cannot be defined, or the name that is ticked has no execution token; or
    /// `>BODY` finds no token of a created address or of a child.
    NeedsName,
    /// The token is no word and has not the form of a number.
    UnknownWord,
    /// The token has the form of a number and is out of range.
    NumberRange,
    /// The word cannot stand inside a definition, in brackets or in the host part of a defining word.
    NotInDefinition,
    /// The word or the name can stand only inside a definition.
    OnlyInDefinition,
    /// The word does not fit the open structure.
    BadNest,
    /// The token opens a 17th structure.
    TooDeep,
    /// A word finds too few cells on the host stack.
    HostUnderflow,
    /// `CODE-CELLS` stands at another place than behind a first number, or with a number outside 2048 to 8000.
    BadSplit,
    /// The token would put a 33rd cell on the host stack.
    HostOverflow,
    /// The token names the 513th entry.
    TooManyWords,
    /// Data space is full, or an access is outside of it.
    DataFull,
    /// At this token the sum of the weights first passes the limit: half the data start, without 1,696. At 8192 that is 2,400.
    CodeFull,
    /// The text ends inside a definition.
    OpenDefinition,
    /// The text ends and there is no definition MAIN.
    NoMain,
}

/// A refused source: the number of its first refused token, from 1, and the cause. A refusal at the end of the text has the
/// number of all tokens and one more.
#[derive(Clone, Copy, Debug, PartialEq, Eq)]
pub struct SourceRefusal {
    pub token: u32,
    pub cause: SourceCause,
}

/// Why a source gives no program.
#[derive(Clone, Copy, Debug, PartialEq, Eq)]
pub enum SourceError {
    /// The source is refused.
    Refused(SourceRefusal),
    /// There was no memory for the program.
    OutOfMemory,
}

/// A refusal of a token.
pub(crate) fn refused<T>(token: u32, cause: SourceCause) -> Result<T, SourceError>
    ensures { result ≡ Err (SourceError.Refused (record { token = token; cause = cause })) }
{
    Err(SourceError::Refused(SourceRefusal { token, cause }))
}

/// The cause of a token that the reader refuses.
pub(crate) fn source_cause(cause: ReadCause) -> SourceCause
    ensures { result ≡ source_cause cause }
{
    match cause {
        ReadCause::NotText => SourceCause::NotText,
        ReadCause::NameTooLong => SourceCause::NameTooLong,
        ReadCause::OpenComment => SourceCause::OpenComment,
        ReadCause::OpenString => SourceCause::OpenString,
    }
}

/// The cause of a token whose host word is refused.
pub(crate) fn host_cause(cause: HostRefusal) -> SourceCause
    ensures { result ≡ host_cause cause }
{
    match cause {
        HostRefusal::NeedsName => SourceCause::NeedsName,
        HostRefusal::HostUnderflow => SourceCause::HostUnderflow,
        HostRefusal::BadSplit => SourceCause::BadSplit,
        HostRefusal::HostOverflow => SourceCause::HostOverflow,
        HostRefusal::DataFull => SourceCause::DataFull,
    }
}
