// Whether effects and intervals keep limits, and lie inside others.
ghost use Rattle.std.specs.Prelude.{◌≡◌};
ghost use Rattle.std.specs.List.{list_all};
ghost use Rattle.depth_certifier.specs.Checking.{effect_in, interval_keeps as kept_interval, exit_keeps as kept_exit, effect_keeps as kept_effect, is_ordered as ordered, exit_in};
ghost use Rattle.depth_certifier.specs.Walk.{made};
ghost use Rattle.depth_certifier.specs.Views.{exit_of, effect_of_demand, limits_of};
ghost use Rattle.depth_certifier.specs.Walks.{walk_of};

use crate::effect::Effect;
use crate::place::{Bounds, Change, Demand};
use crate::walker::Walker;

/// Whether an interval lies within -33 and a greatest end.
pub(crate) fn interval_keeps(top: u8, interval: (i8, i8)) -> bool
    ensures { result ≡ kept_interval top interval }
{
    let low = interval.0;
    let high = interval.1;
    low >= -33 && low <= high && i16::from(high) <= i16::from(top)
}

/// Whether all heads lie within the limits.
pub(crate) fn heads_keep(heads: &[(i8, i8)]) -> bool
    ensures { result ≡ list_all (kept_interval 33) heads.now }
{
    for head in heads {
        if !interval_keeps(33, *head) {
            return false;
        }
    }
    true
}

/// Whether an exit is an interval.
pub(crate) fn is_ordered(effect: Effect) -> bool
    ensures { result ≡ ordered effect.exit }
{
    match effect.exit {
        None => true,
        Some((low, high)) => low <= high,
    }
}

/// Whether all exits are.
pub(crate) fn are_ordered(effects: &[Effect]) -> bool
    ensures { result ≡ list_all (λ e. ordered e.exit) effects.now }
{
    for effect in effects {
        if !is_ordered(*effect) {
            return false;
        }
    }
    true
}

fn exit_keeps(top: u8, effect: Effect) -> bool
    ensures { result ≡ kept_exit top effect.exit }
{
    match effect.exit {
        None => true,
        Some(interval) => interval_keeps(top, interval),
    }
}

/// Whether an effect keeps its limits.
pub(crate) fn effect_keeps(bounds: Bounds, effect: Effect) -> bool
    ensures { result ≡ kept_effect (limits_of bounds) effect }
{
    u32::from(effect.need) <= bounds.need
        && u32::from(effect.peak) <= bounds.peak
        && u32::from(effect.back) <= bounds.back
        && exit_keeps(bounds.top, effect)
}

// Whether an exit lies inside that of an effect.
fn exit_is_in(exit: Option<Change>, effect: Effect) -> bool
    ensures { result ≡ exit_in (exit_of exit) effect.exit }
{
    match (exit, effect.exit) {
        (None, _) => true,
        (Some(_), None) => false,
        (Some(change), Some((low, high))) => {
            i16::from(low) <= change.low && change.high <= i16::from(high)
        }
    }
}

/// Whether what a walk has made is contained in an effect.
pub(crate) fn made_in(walker: Walker, effect: Effect) -> bool
    ensures { result ≡ effect_in (made (walk_of walker)) effect }
{
    walker.need <= u32::from(effect.need)
        && walker.peak <= u32::from(effect.peak)
        && walker.back <= u32::from(effect.back)
        && exit_is_in(walker.exit, effect)
}

/// Whether a demand is contained in an effect.
pub(crate) fn demand_in(x: Demand, effect: Effect) -> bool
    ensures { result ≡ effect_in (effect_of_demand x) effect }
{
    x.need <= u16::from(effect.need)
        && x.peak <= u16::from(effect.peak)
        && x.back <= u16::from(effect.back)
        && exit_is_in(x.exit, effect)
}
