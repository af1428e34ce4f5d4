// Where ways part and meet.
ghost use Rattle.std.specs.Prelude.{◌≡◌, ◌≤ℤ◌, ◌+ℤ◌, pos, negsuc, Option, Some, None, []};
ghost use Rattle.std.specs.Int.{int_max, int_min};
ghost use Rattle.depth_certifier.specs.Place.{moved, At};
ghost use Rattle.depth_certifier.specs.Entries.{entries_of};
ghost use Rattle.depth_certifier.specs.Walk.{decides, double_at, zero_way as way_of_zero, hull, with_exit, ends, joins, leaving, returns_to, shape_at};
ghost use Rattle.depth_certifier.specs.Views.{exit_of, stand_of, place_of_reach, limits_of, shapes_of};
ghost use Rattle.depth_certifier.specs.Walks.{walk_of, StepOf};

use crate::demands::table_demand;
use crate::effect::CertCause;
use crate::place::{Bounds, Change, EntryChange, Query, Reach, Spot};
use crate::shape::Entries;
use crate::walker::Walker;
use word_table::Word;

// With one cell less.
fn lowered(query: Query) -> Spot
    ensures low { result.low ≡ query.spot.low +ℤ negsuc 0 }
    ensures high { result.high ≡ query.spot.high +ℤ negsuc 0 }
    ensures entries { result.entries ≡ query.spot.entries }
{
    let spot = query.spot;
    let low = spot.low - 1;
    let high = spot.high - 1;
    let entries = spot.entries;
    Spot { low, high, entries }
}

/// The way of a flag where it is zero, by the places before it and on the other way.
pub(crate) fn zero_way(from: Reach, on_true: Reach) -> Reach
    ensures { place_of_reach result ≡ way_of_zero (place_of_reach from) (place_of_reach on_true) }
{
    match from {
        Reach::Doubled(query) => Reach::At(lowered(query)),
        _ => on_true,
    }
}

// The least interval that contains both.
fn widest(one: Spot, other: Spot) -> Spot
    ensures low { result.low ≡ int_min one.low other.low }
    ensures high { result.high ≡ int_max one.high other.high }
    ensures entries { result.entries ≡ other.entries }
{
    let low = one.low.min(other.low);
    let high = one.high.max(other.high);
    let entries = other.entries;
    Spot { low, high, entries }
}

fn least_of(one: i16, other: i16) -> i16
    ensures { result ≡ int_min one other }
{
    one.min(other)
}

fn greatest_of(one: i16, other: i16) -> i16
    ensures { result ≡ int_max one other }
{
    one.max(other)
}

fn interval(spot: Spot) -> Change
    ensures low { result.low ≡ spot.low }
    ensures high { result.high ≡ spot.high }
{
    let low = spot.low;
    let high = spot.high;
    Change { low, high }
}

fn wider(change: Change, spot: Spot) -> Change
    ensures low { result.low ≡ int_min change.low spot.low }
    ensures high { result.high ≡ int_max change.high spot.high }
{
    let low = least_of(change.low, spot.low);
    let high = greatest_of(change.high, spot.high);
    Change { low, high }
}

// The exit with one more interval.
fn with_end(exit: Option<Change>, spot: Spot) -> Change
    ensures { Some (result.low, result.high) ≡ with_exit (exit_of exit) (stand_of spot) }
{
    match exit {
        None => interval(spot),
        Some(change) => wider(change, spot),
    }
}

fn widest_query(one: Query, other: Query) -> Query
    ensures { stand_of result.spot ≡ hull (stand_of one.spot) (stand_of other.spot) }
{
    let spot = widest(one.spot, other.spot);
    Query { spot }
}

impl Walker {
    /// A flag: the way where it is not zero.
    pub(crate) fn decide(&mut self, bounds: Bounds) -> Result<(), CertCause>
        ensures { StepOf result (decides (limits_of bounds) (walk_of self.old)) (walk_of self.new) }
    {
        match self.place {
            Reach::Doubled(query) => {
                self.place = Reach::At(query.spot);
                Ok(())
            }
            _ => self.take(bounds, table_demand(Word::If), EntryChange::Keep),
        }
    }

    /// An `EXIT`, or the end of the body.
    pub(crate) fn end(&mut self, bounds: Bounds) -> Result<(), CertCause>
        ensures { StepOf result (ends (limits_of bounds) (walk_of self.old)) (walk_of self.new) }
    {
        match self.place {
            Reach::Unreachable => Ok(()),
            Reach::Doubled(_) => Err(CertCause::Shape),
            Reach::At(spot) => {
                if spot.high > i16::from(bounds.top) {
                    return Err(CertCause::Data);
                }
                if !spot.entries.are(Entries::none()) {
                    return Err(CertCause::Shape);
                }
                self.exit = Some(with_end(self.exit, spot));
                self.place = Reach::Unreachable;
                Ok(())
            }
        }
    }

    /// Another place joins the present one.
    pub(crate) fn join(&mut self, other: Reach) -> Result<(), CertCause>
        ensures { StepOf result (joins (place_of_reach other) (walk_of self.old)) (walk_of self.new) }
    {
        match (other, self.place) {
            (Reach::Unreachable, _) => Ok(()),
            (_, Reach::Unreachable) => {
                self.place = other;
                Ok(())
            }
            (Reach::At(one), Reach::At(two)) => {
                if !one.entries.are(two.entries) {
                    return Err(CertCause::Shape);
                }
                self.place = Reach::At(widest(one, two));
                Ok(())
            }
            (Reach::Doubled(one), Reach::Doubled(two)) => {
                if !one.spot.entries.are(two.spot.entries) {
                    return Err(CertCause::Shape);
                }
                self.place = Reach::Doubled(widest_query(one, two));
                Ok(())
            }
            _ => Err(CertCause::Shape),
        }
    }

    /// A `LEAVE` of a loop whose head has these entries.
    pub(crate) fn leave(&mut self, top: Option<Entries>) -> Result<(), CertCause>
        ensures { StepOf result (leaving (shapes_of top) (walk_of self.old)) (walk_of self.new) }
    {
        match (top, self.place, self.leaves) {
            (_, Reach::Unreachable, _) => Ok(()),
            (Some(entries), Reach::At(spot), Reach::Unreachable) => {
                if !spot.entries.are(entries) {
                    return Err(CertCause::Shape);
                }
                self.place = Reach::Unreachable;
                self.leaves = Reach::At(spot);
                Ok(())
            }
            (Some(entries), Reach::At(spot), Reach::At(earlier)) => {
                if !spot.entries.are(entries) {
                    return Err(CertCause::Shape);
                }
                self.place = Reach::Unreachable;
                self.leaves = Reach::At(widest(spot, earlier));
                Ok(())
            }
            _ => Err(CertCause::Shape),
        }
    }

    /// The back edge of a loop has the entries of its head, and lies inside it.
    pub(crate) fn go_back(&mut self, head: Reach) -> Result<(), CertCause>
        ensures { StepOf result (returns_to (place_of_reach head) (walk_of self.old)) (walk_of self.new) }
    {
        match (head, self.place) {
            (_, Reach::Unreachable) => Ok(()),
            (Reach::At(head), Reach::At(spot)) => {
                if !spot.entries.are(head.entries) {
                    return Err(CertCause::Shape);
                }
                if head.low <= spot.low && spot.high <= head.high {
                    return Ok(());
                }
                Err(CertCause::Data)
            }
            _ => Err(CertCause::Shape),
        }
    }
}
