// The comments of ANS Forth: `(` and `\`.
ghost use Rattle.std.specs.Prelude.{◌≡◌, ◌≤◌, ℕ, IfOk, IfErr, IfSome, IfNone, length};
ghost use Rattle.forth_reader.specs.declared.refusal.ReadCause.TheVariants as cause;
ghost use Rattle.forth_reader.specs.Reading.{Refuses, next_from, parenthesis_from, line_from};

use crate::bytes::is_source_byte;
use crate::refusal::ReadCause;

/// What stands behind the `)` that ends a comment.
pub(crate) fn behind_parenthesis(bytes: &[u8]) -> Result<&[u8], ReadCause>
    ensures shorter { IfOk result (λ rest. length rest.now ≤ length bytes.now) }
    ensures ok { IfOk result (λ rest. (k : ℕ) → parenthesis_from k bytes.now ≡ next_from k rest.now) }
    ensures err { IfErr result (λ cause. (k : ℕ) → parenthesis_from k bytes.now ≡ Refuses k cause) }
{
    let mut rest = bytes;
    while let Some((byte, tail)) = rest.split_first() {
        if *byte == b')' {
            return Ok(tail);
        }
        if !is_source_byte(*byte) {
            return Err(ReadCause::NotText);
        }
        rest = tail;
    }
    Err(ReadCause::OpenComment)
}

/// What stands behind the line, or None where the line has a byte that is none of a source.
pub(crate) fn behind_line(bytes: &[u8]) -> Option<&[u8]>
    ensures shorter { IfSome result (λ rest. length rest.now ≤ length bytes.now) }
    ensures some { IfSome result (λ rest. (k : ℕ) → line_from k bytes.now ≡ next_from k rest.now) }
    ensures none { IfNone result ((k : ℕ) → line_from k bytes.now ≡ Refuses k cause.NotText) }
{
    let mut rest = bytes;
    while let Some((byte, tail)) = rest.split_first() {
        if *byte == b'\n' {
            return Some(tail);
        }
        if !is_source_byte(*byte) {
            return None;
        }
        rest = tail;
    }
    Some(rest)
}
