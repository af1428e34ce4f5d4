// The steps of a walk that notes the heads of loops, or has them given.
ghost use Rattle.std.specs.Prelude.{◌≡◌, ◌+◌, ◌<◌, ◌≤ℤ◌, pos, negsuc, OnOk, None, length, true};
ghost use Rattle.depth_certifier.specs.Walk.{decides, double_at, ends, enters, joins, leaving, noting, returns_to, takes};
ghost use Rattle.depth_certifier.specs.Views.{effect_of_demand, place_of_reach, change_of, limits_of, shapes_of};
ghost use Rattle.depth_certifier.specs.Walks.{StepOf, HeadsKeep, given_by};
ghost use Rattle.depth_certifier.specs.Notes.{walk_in, RoomFor};

use crate::effect::CertCause;
use crate::facts::Facts;
use crate::place::{Demand, EntryChange, Reach, Spot};
use crate::shape::Entries;
use crate::walker::Walker;

/// One effect.
pub(crate) fn take(
    walker: &mut Walker,
    notes: &[(i8, i8)],
    facts: Facts,
    x: Demand,
    change: EntryChange,
) -> Result<(), CertCause>
    ensures step { StepOf result (takes (limits_of facts.bounds) (effect_of_demand x) (change_of change) (walk_in facts.finding notes.now walker.old)) (walk_in facts.finding notes.now walker.new) }
    ensures count { OnOk result (walker.new.count ≡ walker.old.count) }
{
    walker.take(facts.bounds, x, change)
}

/// A `?DUP` before a flag.
pub(crate) fn double(walker: &mut Walker, notes: &[(i8, i8)], facts: Facts) -> Result<(), CertCause>
    ensures step { StepOf result (double_at (limits_of facts.bounds) (walk_in facts.finding notes.now walker.old).place (walk_in facts.finding notes.now walker.old)) (walk_in facts.finding notes.now walker.new) }
    ensures count { OnOk result (walker.new.count ≡ walker.old.count) }
{
    walker.double(facts.bounds)
}

/// A flag: the way where it is not zero.
pub(crate) fn decide(walker: &mut Walker, notes: &[(i8, i8)], facts: Facts) -> Result<(), CertCause>
    ensures step { StepOf result (decides (limits_of facts.bounds) (walk_in facts.finding notes.now walker.old)) (walk_in facts.finding notes.now walker.new) }
    ensures count { OnOk result (walker.new.count ≡ walker.old.count) }
{
    walker.decide(facts.bounds)
}

/// An `EXIT`, or the end of the body.
pub(crate) fn end(walker: &mut Walker, notes: &[(i8, i8)], facts: Facts) -> Result<(), CertCause>
    ensures step { StepOf result (ends (limits_of facts.bounds) (walk_in facts.finding notes.now walker.old)) (walk_in facts.finding notes.now walker.new) }
    ensures count { OnOk result (walker.new.count ≡ walker.old.count) }
{
    walker.end(facts.bounds)
}

/// Another place joins the present one.
pub(crate) fn join(
    walker: &mut Walker,
    notes: &[(i8, i8)],
    facts: Facts,
    other: Reach,
) -> Result<(), CertCause>
    ensures step { StepOf result (joins (place_of_reach other) (walk_in facts.finding notes.now walker.old)) (walk_in facts.finding notes.now walker.new) }
    ensures count { OnOk result (walker.new.count ≡ walker.old.count) }
{
    walker.join(other)
}

/// A `LEAVE` of a loop whose head has these entries.
pub(crate) fn leave(
    walker: &mut Walker,
    notes: &[(i8, i8)],
    facts: Facts,
    top: Option<Entries>,
) -> Result<(), CertCause>
    ensures step { StepOf result (leaving (shapes_of top) (walk_in facts.finding notes.now walker.old)) (walk_in facts.finding notes.now walker.new) }
    ensures count { OnOk result (walker.new.count ≡ walker.old.count) }
{
    walker.leave(top)
}

/// The back edge of a loop.
pub(crate) fn go_back(
    walker: &mut Walker,
    notes: &[(i8, i8)],
    facts: Facts,
    head: Reach,
) -> Result<(), CertCause>
    ensures step { StepOf result (returns_to (place_of_reach head) (walk_in facts.finding notes.now walker.old)) (walk_in facts.finding notes.now walker.new) }
    ensures count { OnOk result (walker.new.count ≡ walker.old.count) }
{
    walker.go_back(head)
}

/// An end of an interval.
pub(crate) fn narrow(x: i16) -> i8
    requires least { negsuc 127 ≤ℤ x }
    requires most { x ≤ℤ pos 127 }
    ensures { result ≡ x }
{
    x as i8
}

// The interval of a place.
fn interval(spot: Spot) -> (i8, i8)
    ensures { result ≡ (spot.low, spot.high) }
{
    (narrow(spot.low), narrow(spot.high))
}

// The head of the next loop is noted.
fn note(walker: &mut Walker, notes: &mut [(i8, i8)], head: (i8, i8))
    requires { walker.old.count < length notes.old }
    ensures value { walk_in true notes.new walker.new ≡ noting head (place_of_reach walker.old.place) (walk_in true notes.old walker.old) }
    ensures count { walker.new.count ≡ walker.old.count + 1 }
    ensures length { length notes.new ≡ length notes.old }
{
    let at = walker.count;
    notes[at] = head;
    walker.count = at + 1;
}

// The head of the next loop is found.
fn find_head(walker: &mut Walker, notes: &mut [(i8, i8)]) -> Result<(), CertCause>
    requires { walker.old.count < length notes.old }
    ensures step { StepOf result (enters None (walk_in true notes.old walker.old)) (walk_in true notes.new walker.new) }
    ensures count { OnOk result (walker.new.count ≡ walker.old.count + 1) }
    ensures length { length notes.new ≡ length notes.old }
{
    match walker.place {
        Reach::Doubled(_) => Err(CertCause::Shape),
        Reach::Unreachable => {
            note(walker, notes, (0, 0));
            Ok(())
        }
        Reach::At(spot) => {
            note(walker, notes, interval(spot));
            Ok(())
        }
    }
}

/// The next loop is entered.
pub(crate) fn enter(
    walker: &mut Walker,
    notes: &mut [(i8, i8)],
    facts: Facts,
    heads: &[(i8, i8)],
) -> Result<(), CertCause>
    requires heads { HeadsKeep heads.now }
    requires room { RoomFor facts.finding walker.old.count 1 notes.old }
    ensures step { StepOf result (enters (given_by facts.finding heads.now) (walk_in facts.finding notes.old walker.old)) (walk_in facts.finding notes.new walker.new) }
    ensures count { OnOk result (walker.new.count ≡ walker.old.count + 1) }
    ensures length { length notes.new ≡ length notes.old }
{
    if facts.finding {
        return find_head(walker, notes);
    }
    walker.enter(heads)
}
