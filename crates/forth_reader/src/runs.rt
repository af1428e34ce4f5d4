// Runs of graphic bytes, which are the tokens.
ghost use Rattle.std.specs.Prelude.{◌≡◌, ◌+◌, length};
ghost use Rattle.forth_reader.specs.Bytes.{graphic_front, behind_graphic};
ghost use Rattle.forth_reader.specs.Reading.{ends_token, may_follow_token};

use crate::ascii::ascii_text;
use crate::bytes::{is_blank, is_graphic};

/// Whether no graphic byte comes next.
pub(crate) fn ends_token(bytes: &[u8]) -> bool
    ensures { result ≡ ends_token bytes.now }
{
    match bytes.split_first() {
        Some((byte, _)) => !is_graphic(*byte),
        None => true,
    }
}

/// Whether a blank comes next, or nothing.
pub(crate) fn may_follow_token(bytes: &[u8]) -> bool
    ensures { result ≡ may_follow_token bytes.now }
{
    match bytes.split_first() {
        Some((byte, _)) => is_blank(*byte),
        None => true,
    }
}

/// What stands behind the graphic bytes in front.
pub(crate) fn behind_run(bytes: &[u8]) -> &[u8]
    ensures { result.now ≡ behind_graphic bytes.now }
{
    let mut rest = bytes;
    while let Some((byte, tail)) = rest.split_first() {
        if !is_graphic(*byte) {
            return rest;
        }
        rest = tail;
    }
    rest
}

/// The graphic bytes in front, and what stands behind them.
#[tactic(auto, using(crate::proofs::Fronts::front_lengths, crate::proofs::Fronts::behind_shorter, crate::proofs::Fronts::graphic_front_ascii, crate::proofs::Fronts::front_take))]
pub(crate) fn split_run(bytes: &[u8]) -> (&str, &[u8])
    ensures text { result.0.now ≡ graphic_front bytes.now }
    ensures rest { result.1.now ≡ behind_graphic bytes.now }
    ensures lengths { length result.0.now + length result.1.now ≡ length bytes.now }
{
    let behind = behind_run(bytes);
    let (run, _) = bytes.split_at(bytes.len() - behind.len());
    (ascii_text(run), behind)
}
