// The reader of a piece of a source.
ghost use Rattle.std.specs.Prelude.{◌≡◌, ◌+◌, ◌<◌, ◌≤◌, length, None, MatchResult, MatchOption, OnOk, IfOk, OnSome, IfSome};
ghost use Rattle.forth_reader.specs.Name.{IsName};
ghost use Rattle.forth_reader.specs.ReaderState.{next_reading, name_reading, string_reading, Ended, TookToken, TookString, Failed, FailedString};

use forth_reader::{ReadRefusal, Reader, Token};
use std::marker::Model;

/// Goes over a piece of a source, whose tokens are numbered on from those before it.
#[derive(Drop)]
pub(crate) struct PieceReader<'a> {
    reader: Reader<'a>,
    /// The number of tokens before the piece.
    before: u32,
}

impl<'a> Model for PieceReader<'a> {
    ghost use Rattle.std.specs.Prelude.{◌+◌, ◌<◌, length};
    ghost use Rattle.forth_reader.specs.ReaderState.{ReaderState};
    ghost use Rattle.control_flow.specs.Numbering.{with_tokens_before};

    ghost Value = { ReaderState };

    ghost view = { λ r. with_tokens_before r.before r.reader };

    ghost invariant = { λ r. r.before + r.reader.count + length r.reader.rest < 4294967295 };
}

impl<'a> PieceReader<'a> {
    /// A reader at the start of a piece, where so many tokens stand before it.
    pub(crate) fn new(bytes: &'a [u8], before: u32) -> PieceReader<'a>
        requires { before + length bytes.now < 4294967295 }
        ensures { result ≡ record { text = bytes.now; rest = bytes.now; count = before; failed = None } }
    {
        PieceReader {
            reader: Reader::new(bytes),
            before,
        }
    }

    /// The number of tokens read so far, with those before the piece.
    pub(crate) fn count(&self) -> u32
        ensures value { result ≡ self.now.count }
        ensures short { self.now.count + length self.now.rest < 4294967295 }
    {
        self.before + self.reader.count()
    }

    /// The next token that is no comment.
    pub(crate) fn next(&mut self) -> Result<Option<Token<'a>>, ReadRefusal>
        requires { self.old.failed ≡ None }
        ensures shorter { IfOk result (λ found. OnSome found (length self.new.rest < length self.old.rest)) }
        ensures form { IfOk result (λ found. IfSome found (λ token. IsName token.text.now)) }
        ensures cases { MatchResult result
            (λ found. MatchOption found
            (Ended self.old self.new (next_reading self.old))
            (λ token. TookToken self.old self.new (next_reading self.old) token.text.now token.start token.number))
            (λ refusal. Failed self.old self.new (next_reading self.old) refusal) }
    {
        match self.reader.next() {
            Ok(None) => Ok(None),
            Ok(Some(token)) => Ok(Some(Token {
                text: token.text,
                start: token.start,
                number: self.before + token.number,
            })),
            Err(refusal) => Err(ReadRefusal {
                token: self.before + refusal.token,
                cause: refusal.cause,
            }),
        }
    }

    /// The next token, read as a name.
    pub(crate) fn name(&mut self) -> Result<Option<Token<'a>>, ReadRefusal>
        requires { self.old.failed ≡ None }
        ensures shorter { IfOk result (λ found. OnSome found (length self.new.rest < length self.old.rest)) }
        ensures form { IfOk result (λ found. IfSome found (λ token. IsName token.text.now)) }
        ensures cases { MatchResult result
            (λ found. MatchOption found
            (Ended self.old self.new (name_reading self.old))
            (λ token. TookToken self.old self.new (name_reading self.old) token.text.now token.start token.number))
            (λ refusal. Failed self.old self.new (name_reading self.old) refusal) }
    {
        match self.reader.name() {
            Ok(None) => Ok(None),
            Ok(Some(token)) => Ok(Some(Token {
                text: token.text,
                start: token.start,
                number: self.before + token.number,
            })),
            Err(refusal) => Err(ReadRefusal {
                token: self.before + refusal.token,
                cause: refusal.cause,
            }),
        }
    }

    /// The text of the string word that `next` has just given.
    pub(crate) fn string(&mut self) -> Result<&'a str, ReadRefusal>
        requires { self.old.failed ≡ None }
        ensures shorter { OnOk result (length self.new.rest ≤ length self.old.rest) }
        ensures cases { MatchResult result
            (λ text. TookString self.old self.new (string_reading self.old) text.now)
            (λ refusal. FailedString self.old self.new (string_reading self.old) refusal) }
    {
        match self.reader.string() {
            Ok(text) => Ok(text),
            Err(refusal) => Err(ReadRefusal {
                token: self.before + refusal.token,
                cause: refusal.cause,
            }),
        }
    }
}
