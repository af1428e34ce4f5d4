//! Reads Forth source: tokens, comments, the texts of string words, names and numbers.
//!
//! A source is a list of bytes. A `Reader` goes over it once and takes no memory: `next` gives the next token that is no
//! comment, `name` the next token whatever it is, and `string` the text that follows a string word (the parsing and
//! the Core words of ANS Forth). `number_of` says which number a token spells.
//!
//! In `specs/`, `Reading` computes what stands at a place of a text, and `Splitting` says what it means: how the text
//! falls into blanks, whole comments, the token and the rest. The law `readings_are_splittings` ties the two.
#![tactic(auto)]

mod ascii;
mod bytes;
mod comments;
mod laws;
mod names;
mod number;
mod reader;
mod refusal;
mod runs;
mod strings;
mod token;

pub use laws::{readings_are_splittings, texts_have_one_token_list};
pub use names::Names;
pub use number::{NumberRead, number_of};
pub use reader::Reader;
pub use refusal::{ReadCause, ReadRefusal};
pub use token::Token;
