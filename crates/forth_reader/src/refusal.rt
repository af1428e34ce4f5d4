// Why a text is refused, and where.

/// Why a text is refused. Where two causes hold at one token, the one named first stands.
#[derive(Clone, Copy, Debug, PartialEq, Eq)]
pub enum ReadCause {
    /// A byte is none of 32 to 126, tab, line feed and carriage return. It stands in the space before the token, in its
    /// comment, in its string, or directly behind its last byte.
    NotText,
    /// The token has more than 31 bytes.
    NameTooLong,
    /// No `)` follows this `(`.
    OpenComment,
    /// The line or the text ends before the closing quote of a string.
    OpenString,
}

/// A refused text: the number of the token, from 1, and the cause.
#[derive(Clone, Copy, Debug, PartialEq, Eq)]
pub struct ReadRefusal {
    pub token: u32,
    pub cause: ReadCause,
}
