// Tokens.

/// A token of a source.
///
/// `text` has 1 to 31 bytes of 33 to 126. `start` is the place of its first byte in the source, from 0. `number` counts the
/// tokens up to it, comments too, from 1.
#[derive(Clone, Copy)]
pub struct Token<'a> {
    pub text: &'a str,
    pub start: u32,
    pub number: u32,
}
