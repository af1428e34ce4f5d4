// What stands before a token outside definitions.
ghost use Rattle.std.specs.Prelude.{◌≡◌};
ghost use Rattle.control_flow.specs.SourceText.{before_next, is_due};

use crate::outside_sense::{OutsideSense, is_number};

/// What stands before a token outside definitions, comments aside.
#[derive(Clone, Copy)]
pub(crate) enum Before {
    Nothing,
    /// One number.
    Number,
    More,
}

/// What stands before the token behind this one.
pub(crate) fn before_next(before: Before, sense: OutsideSense) -> Before
    ensures { result ≡ before_next before sense }
{
    match before {
        Before::Nothing => {
            if is_number(sense) {
                Before::Number
            } else {
                Before::More
            }
        }
        Before::Number => Before::More,
        Before::More => Before::More,
    }
}

/// Whether CODE-CELLS can stand here.
pub(crate) fn is_due(before: Before) -> bool
    ensures { result ≡ is_due before }
{
    match before {
        Before::Number => true,
        _ => false,
    }
}
