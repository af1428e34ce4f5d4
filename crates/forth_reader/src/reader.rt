// The reader: one pass over a source.
ghost use Rattle.std.specs.Prelude.{◌≡◌, ◌<◌, ◌≤◌, length, MatchResult, MatchOption, OnOk, IfOk, OnSome, IfSome};

use crate::bytes::{is_blank, is_graphic};
use crate::comments::{behind_line, behind_parenthesis};
use crate::refusal::{ReadCause, ReadRefusal};
use crate::runs::{ends_token, may_follow_token, split_run};
use crate::strings::quoted_text;
use crate::token::Token;
use std::marker::Model;

/// Goes over a source token by token.
///
/// Contracts see the whole text, the bytes that are left, the number of tokens read so far (comments too), and the refusal
/// if there was one. A refusal stands for good: every later call gives the same one.
#[derive(Drop)]
pub struct Reader<'a> {
    text: &'a [u8],
    rest: &'a [u8],
    count: u32,
    failed: Option<ReadRefusal>,
}

impl<'a> Model for Reader<'a> {
    ghost use Rattle.forth_reader.specs.ReaderState.{ReaderState, IsReaderState};

    ghost Value = { ReaderState };

    ghost view = { λ r. record { text = r.text.now; rest = r.rest.now; count = r.count; failed = r.failed } };

    ghost invariant = { λ r. IsReaderState (record { text = r.text.now; rest = r.rest.now; count = r.count; failed = r.failed }) };
}

impl<'a> Reader<'a> {
    ghost use Rattle.std.specs.Prelude.{List, [], None, Some, false, ◌+◌};
    ghost use Rattle.forth_reader.specs.Bytes.{graphic_front, behind_graphic};
    ghost use Rattle.forth_reader.specs.Reading.{Quoted, ends_token, whole_token};
    ghost use Rattle.forth_reader.specs.ReaderState.{ReaderState, IsReaderState, next_reading, name_reading, string_reading, Ended, TookToken, TookString, Failed, FailedString};
    ghost use Rattle.forth_reader.specs.Name.{IsName};

    /// A reader at the start of a source, with no token read.
    pub fn new(bytes: &'a [u8]) -> Reader<'a>
        requires { length bytes.now < 4294967295 }
        ensures { result ≡ record { text = bytes.now; rest = bytes.now; count = 0; failed = None } }
    {
        Reader {
            text: bytes,
            rest: bytes,
            count: 0,
            failed: None,
        }
    }

    /// The number of tokens read so far, comments too.
    pub fn count(&self) -> u32
        ensures value { result ≡ self.now.count }
        ensures short { self.now.count + length self.now.rest < 4294967295 }
    {
        self.count
    }

    fn fail(&mut self, token: u32, cause: ReadCause) -> ReadRefusal
        ensures result { result ≡ record { token = token; cause = cause } }
        ensures new { self.new ≡ record self.old { failed = Some result } }
    {
        let refusal = ReadRefusal { token, cause };
        self.failed = Some(refusal);
        refusal
    }

    // Takes the token at the front of `at`, which begins with a graphic byte.
    #[tactic(auto, using(crate::proofs::Fronts::behind_graphic_less, crate::proofs::Fronts::front_is_token))]
    fn take_token(&mut self, at: &'a [u8], number: u32) -> Result<Token<'a>, ReadRefusal>
        requires graphic { ends_token at.now ≡ false }
        requires within { length at.now ≤ length self.old.text }
        requires counted { number + length at.now ≤ length self.old.text + 1 }
        ensures cases { MatchResult result
            (λ token. (token.number ≡ number) × TookToken self.old self.new (whole_token number (graphic_front at.now) (behind_graphic at.now)) token.text.now token.start number)
            (λ refusal. Failed self.old self.new (whole_token number (graphic_front at.now) (behind_graphic at.now)) refusal) }
        ensures shorter { OnOk result (length self.new.rest < length at.now) }
        ensures form { IfOk result (λ token. IsName token.text.now) }
    {
        let (run, behind) = split_run(at);
        if !may_follow_token(behind) {
            return Err(self.fail(number, ReadCause::NotText));
        }
        if run.len() > 31 {
            return Err(self.fail(number, ReadCause::NameTooLong));
        }
        let start = (self.text.len() - at.len()) as u32;
        self.rest = behind;
        self.count = number;
        Ok(Token {
            text: run,
            start,
            number,
        })
    }

    /// The next token that is no comment. Ok(None) comes exactly where none is left.
    ///
    /// A comment is a token too, `(` or `\`, and is counted; its text is not.
    pub fn next(&mut self) -> Result<Option<Token<'a>>, ReadRefusal>
        ensures shorter { IfOk result (λ found. OnSome found (length self.new.rest < length self.old.rest)) }
        ensures form { IfOk result (λ found. IfSome found (λ token. IsName token.text.now)) }
        ensures cases { MatchResult result
            (λ found. MatchOption found
            (Ended self.old self.new (next_reading self.old))
            (λ token. TookToken self.old self.new (next_reading self.old) token.text.now token.start token.number))
            (λ refusal. Failed self.old self.new (next_reading self.old) refusal) }
        ensures for_good { IfSome self.old.failed (λ refusal. (result ≡ Err refusal) × (self.new ≡ self.old)) }
    {
        if let Some(refusal) = self.failed {
            return Err(refusal);
        }
        let mut rest = self.rest;
        let mut count = self.count;
        while let Some((byte, tail)) = rest.split_first() {
            if !is_graphic(*byte) {
                if !is_blank(*byte) {
                    return Err(self.fail(count + 1, ReadCause::NotText));
                }
                rest = tail;
            } else if ends_token(tail) && *byte == b'(' {
                count += 1;
                match behind_parenthesis(tail) {
                    Ok(behind) => rest = behind,
                    Err(cause) => return Err(self.fail(count, cause)),
                }
            } else if ends_token(tail) && *byte == b'\\' {
                count += 1;
                match behind_line(tail) {
                    Some(behind) => rest = behind,
                    None => return Err(self.fail(count, ReadCause::NotText)),
                }
            } else {
                return match self.take_token(rest, count + 1) {
                    Ok(token) => Ok(Some(token)),
                    Err(refusal) => Err(refusal),
                };
            }
        }
        self.rest = rest;
        self.count = count;
        Ok(None)
    }

    /// The next token, read as a name: `(` and `\` too. Ok(None) comes exactly where none is left.
    pub fn name(&mut self) -> Result<Option<Token<'a>>, ReadRefusal>
        ensures shorter { IfOk result (λ found. OnSome found (length self.new.rest < length self.old.rest)) }
        ensures form { IfOk result (λ found. IfSome found (λ token. IsName token.text.now)) }
        ensures cases { MatchResult result
            (λ found. MatchOption found
            (Ended self.old self.new (name_reading self.old))
            (λ token. TookToken self.old self.new (name_reading self.old) token.text.now token.start token.number))
            (λ refusal. Failed self.old self.new (name_reading self.old) refusal) }
        ensures for_good { IfSome self.old.failed (λ refusal. (result ≡ Err refusal) × (self.new ≡ self.old)) }
    {
        if let Some(refusal) = self.failed {
            return Err(refusal);
        }
        let mut rest = self.rest;
        while let Some((byte, tail)) = rest.split_first() {
            if is_graphic(*byte) {
                return match self.take_token(rest, self.count + 1) {
                    Ok(token) => Ok(Some(token)),
                    Err(refusal) => Err(refusal),
                };
            }
            if !is_blank(*byte) {
                return Err(self.fail(self.count + 1, ReadCause::NotText));
            }
            rest = tail;
        }
        self.rest = rest;
        Ok(None)
    }

    /// The text of the string word that `next` has just given: behind one separator, up to the next quote of the line.
    ///
    /// A refusal has the number of the last token, which is the string word.
    pub fn string(&mut self) -> Result<&'a str, ReadRefusal>
        ensures shorter { OnOk result (length self.new.rest ≤ length self.old.rest) }
        ensures cases { MatchResult result
            (λ text. TookString self.old self.new (string_reading self.old) text.now)
            (λ refusal. FailedString self.old self.new (string_reading self.old) refusal) }
        ensures for_good { IfSome self.old.failed (λ refusal. (result ≡ Err refusal) × (self.new ≡ self.old)) }
    {
        if let Some(refusal) = self.failed {
            return Err(refusal);
        }
        match quoted_text(self.rest) {
            Ok((text, behind)) => {
                self.rest = behind;
                Ok(text)
            }
            Err(cause) => Err(self.fail(self.count, cause)),
        }
    }
}
