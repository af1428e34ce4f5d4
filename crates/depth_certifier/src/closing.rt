// The ends of loops.
ghost use Rattle.std.specs.Prelude.{◌≡◌, OnOk};
ghost use Rattle.depth_certifier.specs.Certificate.{dropped};
ghost use Rattle.depth_certifier.specs.Entries.{entries_of, older_of};
ghost use Rattle.depth_certifier.specs.Effects.{turn_word as word_of_turn};
ghost use Rattle.depth_certifier.specs.Walk.{shape_at};
ghost use Rattle.depth_certifier.specs.Views.{place_of_reach, shapes_of, limits_of};
ghost use Rattle.depth_certifier.specs.Notes.{walk_in};
ghost use Rattle.depth_certifier.specs.Walks.{StepOf, drops_loop, closes, query_drops, query_closes};

use crate::demands::table_demand;
use crate::effect::CertCause;
use crate::facts::Facts;
use crate::noting::{go_back, join, take};
use crate::place::{EntryChange, Reach, Spot};
use crate::shape::Entries;
use crate::walker::Walker;
use word_table::Word;

/// The word at the end of a loop.
pub(crate) fn turn_word(plus: bool) -> Word
    ensures { result ≡ word_of_turn plus }
{
    if plus { Word::PlusLoop } else { Word::Loop }
}

/// The entries of a loop's head.
pub(crate) fn entries_at(head: Reach) -> Option<Entries>
    ensures { shapes_of result ≡ shape_at (place_of_reach head) }
{
    match head {
        Reach::At(spot) => Some(spot.entries),
        Reach::Unreachable => None,
        Reach::Doubled(_) => None,
    }
}

fn spot_below(spot: Spot) -> Spot
    ensures low { result.low ≡ spot.low }
    ensures high { result.high ≡ spot.high }
    ensures entries { entries_of result.entries ≡ older_of (entries_of spot.entries) }
{
    let low = spot.low;
    let high = spot.high;
    let entries = spot.entries.below();
    Spot { low, high, entries }
}

// The place after a loop.
fn without_loop(place: Reach) -> Reach
    ensures { place_of_reach result ≡ dropped (place_of_reach place) }
{
    match place {
        Reach::Unreachable => Reach::Unreachable,
        Reach::Doubled(_) => Reach::Unreachable,
        Reach::At(spot) => Reach::At(spot_below(spot)),
    }
}

// The LEAVEs of a loop join its end, and it is taken off, in a loop with these LEAVEs.
fn drop_loop(
    walker: &mut Walker,
    notes: &[(i8, i8)],
    facts: Facts,
    outer: Reach,
) -> Result<(), CertCause>
    ensures step { StepOf result (drops_loop (place_of_reach outer) (walk_in facts.finding notes.now walker.old)) (walk_in facts.finding notes.now walker.new) }
    ensures count { OnOk result (walker.new.count ≡ walker.old.count) }
{
    let leaves = walker.leaves;
    join(walker, notes, facts, leaves)?;
    walker.place = without_loop(walker.place);
    walker.leaves = outer;
    Ok(())
}

/// The end of a loop whose head is this, in a loop with these LEAVEs.
pub(crate) fn close_loop(
    walker: &mut Walker,
    notes: &[(i8, i8)],
    facts: Facts,
    turn: Word,
    head: Reach,
    outer: Reach,
) -> Result<(), CertCause>
    ensures step { StepOf result (closes (limits_of facts.bounds) turn (place_of_reach head) (place_of_reach outer) (walk_in facts.finding notes.now walker.old)) (walk_in facts.finding notes.now walker.new) }
    ensures count { OnOk result (walker.new.count ≡ walker.old.count) }
{
    take(walker, notes, facts, table_demand(turn), EntryChange::Keep)?;
    go_back(walker, notes, facts, head)?;
    drop_loop(walker, notes, facts, outer)
}

// The place where `?DO` leaves its loop out joins the end too.
fn drop_query_loop(
    walker: &mut Walker,
    notes: &[(i8, i8)],
    facts: Facts,
    began: Reach,
    outer: Reach,
) -> Result<(), CertCause>
    ensures step { StepOf result (query_drops (place_of_reach began) (place_of_reach outer) (walk_in facts.finding notes.now walker.old)) (walk_in facts.finding notes.now walker.new) }
    ensures count { OnOk result (walker.new.count ≡ walker.old.count) }
{
    join(walker, notes, facts, began)?;
    drop_loop(walker, notes, facts, outer)
}

/// The end of a loop that `?DO` may leave out, from the place where it began.
pub(crate) fn close_query_loop(
    walker: &mut Walker,
    notes: &[(i8, i8)],
    facts: Facts,
    turn: Word,
    head: Reach,
    began: Reach,
    outer: Reach,
) -> Result<(), CertCause>
    ensures step { StepOf result (query_closes (limits_of facts.bounds) turn (place_of_reach head) (place_of_reach began) (place_of_reach outer) (walk_in facts.finding notes.now walker.old)) (walk_in facts.finding notes.now walker.new) }
    ensures count { OnOk result (walker.new.count ≡ walker.old.count) }
{
    take(walker, notes, facts, table_demand(turn), EntryChange::Keep)?;
    go_back(walker, notes, facts, head)?;
    drop_query_loop(walker, notes, facts, began, outer)
}
