// The texts of string words of ANS Forth: `."`, `ABORT"` and `S"`.
ghost use Rattle.std.specs.Prelude.{◌≡◌, ◌+◌, ◌≤◌, IfOk, IfErr, length};
ghost use Rattle.forth_reader.specs.Bytes.{is_string_byte, passing_front, behind_front};
ghost use Rattle.forth_reader.specs.Reading.{string_from, Quoted, Unquoted};

use crate::ascii::ascii_text;
use crate::bytes::{is_source_byte, is_string_byte};
use crate::refusal::ReadCause;

/// What stands behind the bytes in front that can stand in a string.
pub(crate) fn behind_text(bytes: &[u8]) -> &[u8]
    ensures { result.now ≡ behind_front is_string_byte bytes.now }
{
    let mut rest = bytes;
    while let Some((byte, tail)) = rest.split_first() {
        if !is_string_byte(*byte) {
            return rest;
        }
        rest = tail;
    }
    rest
}

/// The bytes in front that can stand in a string, and what stands behind them.
#[tactic(auto, using(crate::proofs::Fronts::front_lengths, crate::proofs::Fronts::behind_shorter, crate::proofs::Fronts::string_front_ascii, crate::proofs::Fronts::front_take))]
pub(crate) fn split_text(bytes: &[u8]) -> (&str, &[u8])
    ensures text { result.0.now ≡ passing_front is_string_byte bytes.now }
    ensures rest { result.1.now ≡ behind_front is_string_byte bytes.now }
    ensures lengths { length result.0.now + length result.1.now ≡ length bytes.now }
{
    let behind = behind_text(bytes);
    let (text, _) = bytes.split_at(bytes.len() - behind.len());
    (ascii_text(text), behind)
}

/// The bytes between one separator and the next quote of the line, and what stands behind the quote.
pub(crate) fn quoted_text(bytes: &[u8]) -> Result<(&str, &[u8]), ReadCause>
    ensures ok { IfOk result (λ found. string_from bytes.now ≡ Quoted found.0.now found.1.now) }
    ensures shorter { IfOk result (λ found. length found.1.now ≤ length bytes.now) }
    ensures err { IfErr result (λ cause. string_from bytes.now ≡ Unquoted cause) }
{
    let Some((separator, start)) = bytes.split_first() else {
        return Err(ReadCause::OpenString);
    };
    if *separator == b'\n' {
        return Err(ReadCause::OpenString);
    }
    if !is_source_byte(*separator) {
        return Err(ReadCause::NotText);
    }
    let (text, behind) = split_text(start);
    match behind.split_first() {
        None => Err(ReadCause::OpenString),
        Some((byte, rest)) => {
            if *byte == b'"' {
                Ok((text, rest))
            } else if *byte == b'\n' {
                Err(ReadCause::OpenString)
            } else {
                Err(ReadCause::NotText)
            }
        }
    }
}
