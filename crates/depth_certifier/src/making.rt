// The effect that a walk over a body has made.
ghost use Rattle.std.specs.Prelude.{◌≡◌};
ghost use Rattle.depth_certifier.specs.Certificate.{ExitKeeps, Keeps};
ghost use Rattle.depth_certifier.specs.Walk.{made};
ghost use Rattle.depth_certifier.specs.Views.{exit_of};
ghost use Rattle.depth_certifier.specs.Walks.{walk_of};

use crate::effect::Effect;
use crate::noting::narrow;
use crate::place::Change;
use crate::walker::Walker;

fn narrow_exit(exit: Option<Change>) -> Option<(i8, i8)>
    requires { ExitKeeps 33 (exit_of exit) }
    ensures { result ≡ exit_of exit }
{
    match exit {
        None => None,
        Some(change) => Some((narrow(change.low), narrow(change.high))),
    }
}

/// It keeps limits of at most 33.
pub(crate) fn made_of(walker: Walker) -> Effect
    requires { Keeps (record { need = 33; peak = 33; back = 33; top = 33 }) (made (walk_of walker)) }
    ensures { result ≡ made (walk_of walker) }
{
    Effect {
        need: walker.need as u8,
        peak: walker.peak as u8,
        back: walker.back as u8,
        exit: narrow_exit(walker.exit),
    }
}
