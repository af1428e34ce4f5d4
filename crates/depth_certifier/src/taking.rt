// One effect at a place.
ghost use Rattle.std.specs.Prelude.{◌≡◌, ◌+◌, ◌≤◌, ◌≤ℤ◌, ◌+ℤ◌, ◌-ℤ◌, ◌&&◌, nat_le, int_le, max, pos, negsuc, true, Option, Some, None};
ghost use Rattle.depth_certifier.specs.Place.{size, from_zero, At, Doubled};
ghost use Rattle.depth_certifier.specs.Entries.{entries_of};
ghost use Rattle.depth_certifier.specs.Certificate.{after};
ghost use Rattle.depth_certifier.specs.Walk.{in_limits, need_at as due, peak_at as rise, take_with, takes, double_at as doubled_at};
ghost use Rattle.depth_certifier.specs.Views.{back_with, sizes_of, exit_of, effect_of_demand, stand_of, place_of_reach, change_of, limits_of, EntriesAre};
ghost use Rattle.depth_certifier.specs.Walks.{walk_of, StepOf};

use crate::changes::changed;
use crate::demands::table_demand;
use crate::effect::CertCause;
use crate::place::{Bounds, Change, Demand, EntryChange, Query, Reach, Spot};
use crate::shape::Entries;
use crate::walker::Walker;
use word_table::Word;

fn need_at(x: Demand, spot: Spot) -> u32
    ensures { result ≡ due (effect_of_demand x) (stand_of spot) }
{
    let need = i32::from(x.need) - i32::from(spot.low);
    if need < 0 { 0 } else { need as u32 }
}

fn peak_at(x: Demand, spot: Spot) -> u32
    ensures { result ≡ rise (effect_of_demand x) (stand_of spot) }
{
    let peak = i32::from(spot.high) + i32::from(x.peak);
    if peak < 0 { 0 } else { peak as u32 }
}

fn sum(a: i16, b: i16) -> i16
    requires least { negsuc 2000 ≤ℤ (a +ℤ b) }
    requires most { (a +ℤ b) ≤ℤ pos 2000 }
    ensures { result ≡ a +ℤ b }
{
    a + b
}

fn is_within(low: i16, high: i16) -> bool
    ensures { result ≡ (int_le (negsuc 32) low && int_le high (pos 33)) }
{
    low >= -33 && high <= 33
}

// Whether the interval after an exit lies within the limits.
fn stays(spot: Spot, exit: Option<Change>) -> bool
    ensures { result ≡ in_limits (after (exit_of exit) (stand_of spot) (stand_of spot).shape) }
{
    match exit {
        None => true,
        Some(change) => is_within(sum(spot.low, change.low), sum(spot.high, change.high)),
    }
}

// Whether need, peak and interval keep the limits.
fn keeps(bounds: Bounds, x: Demand, spot: Spot) -> bool
    ensures { result ≡ (nat_le (due (effect_of_demand x) (stand_of spot)) bounds.need && (nat_le (rise (effect_of_demand x) (stand_of spot)) bounds.peak && in_limits (after (exit_of x.exit) (stand_of spot) (stand_of spot).shape))) }
{
    need_at(x, spot) <= bounds.need && peak_at(x, spot) <= bounds.peak && stays(spot, x.exit)
}

// The place after a change of the data cells.
fn moved(spot: Spot, change: Change, entries: Entries) -> Spot
    requires least { negsuc 32 ≤ℤ (spot.low +ℤ change.low) }
    requires most { (spot.high +ℤ change.high) ≤ℤ pos 33 }
    requires small { size (entries_of entries) ≤ 31 }
    ensures low { result.low ≡ spot.low +ℤ change.low }
    ensures high { result.high ≡ spot.high +ℤ change.high }
    ensures entries { result.entries ≡ entries }
{
    let low = spot.low + change.low;
    let high = spot.high + change.high;
    Spot { low, high, entries }
}

// The place after an exit.
fn leads(spot: Spot, exit: Option<Change>, entries: Entries) -> Reach
    requires stays { in_limits (after (exit_of exit) (stand_of spot) (stand_of spot).shape) ≡ true }
    requires small { size (entries_of entries) ≤ 31 }
    ensures { place_of_reach result ≡ after (exit_of exit) (stand_of spot) (entries_of entries) }
{
    match exit {
        None => Reach::Unreachable,
        Some(change) => Reach::At(moved(spot, change, entries)),
    }
}

// The return cells before and after an item.
fn back_at(entries: Entries, back: u16, after: Option<Entries>) -> u32
    ensures { result ≡ back_with (size (entries_of entries)) back (sizes_of after) }
{
    let before = u32::from(entries.cells()) + u32::from(back);
    match after {
        None => before,
        Some(after) => before.max(u32::from(after.cells())),
    }
}

// Whether there is room for one cell less.
fn has_room(spot: Spot) -> bool
    ensures { result ≡ in_limits (Doubled (stand_of spot)) }
{
    spot.low >= -32 && spot.high <= 33
}

// Whether need, peak and interval of a `?DUP` keep the limits.
fn keeps_double(bounds: Bounds, x: Demand, spot: Spot) -> bool
    ensures { result ≡ (nat_le (due (effect_of_demand x) (stand_of spot)) bounds.need && (nat_le (rise (effect_of_demand x) (stand_of spot)) bounds.peak && in_limits (Doubled (stand_of spot)))) }
{
    need_at(x, spot) <= bounds.need && peak_at(x, spot) <= bounds.peak && has_room(spot)
}

fn query(spot: Spot) -> Query
    requires { in_limits (Doubled (stand_of spot)) ≡ true }
    ensures { result.spot ≡ spot }
{
    Query { spot }
}

impl Walker {
    // A `?DUP` before a flag, at a place that is reached.
    fn double_at(&mut self, bounds: Bounds, spot: Spot) -> Result<(), CertCause>
        ensures { StepOf result (doubled_at (limits_of bounds) (At (stand_of spot)) (walk_of self.old)) (walk_of self.new) }
    {
        let x = table_demand(Word::QDup);
        if !keeps_double(bounds, x, spot) {
            return Err(CertCause::Data);
        }
        let back = back_at(spot.entries, x.back, Some(spot.entries));
        if back > bounds.back {
            return Err(CertCause::Return);
        }
        self.need = self.need.max(need_at(x, spot));
        self.peak = self.peak.max(peak_at(x, spot));
        self.back = self.back.max(back);
        self.place = Reach::Doubled(query(spot));
        Ok(())
    }

    /// A `?DUP` before a flag.
    pub(crate) fn double(&mut self, bounds: Bounds) -> Result<(), CertCause>
        ensures { StepOf result (doubled_at (limits_of bounds) (place_of_reach self.old.place) (walk_of self.old)) (walk_of self.new) }
    {
        match self.place {
            Reach::Unreachable => Ok(()),
            Reach::At(spot) => self.double_at(bounds, spot),
            Reach::Doubled(_) => Err(CertCause::Shape),
        }
    }

    // One effect at a place that is reached.
    fn take_at(
        &mut self,
        bounds: Bounds,
        x: Demand,
        change: EntryChange,
        spot: Spot,
    ) -> Result<(), CertCause>
        ensures { StepOf result (take_with (limits_of bounds) (effect_of_demand x) (stand_of spot) (change_of change (stand_of spot).shape) (walk_of self.old)) (walk_of self.new) }
    {
        if !keeps(bounds, x, spot) {
            return Err(CertCause::Data);
        }
        let entries = changed(spot.entries, change);
        let back = back_at(spot.entries, x.back, entries);
        if back > bounds.back {
            return Err(CertCause::Return);
        }
        match entries {
            None => Err(CertCause::Shape),
            Some(entries) => {
                self.need = self.need.max(need_at(x, spot));
                self.peak = self.peak.max(peak_at(x, spot));
                self.back = self.back.max(back);
                self.place = leads(spot, x.exit, entries);
                Ok(())
            }
        }
    }

    /// One effect.
    pub(crate) fn take(
        &mut self,
        bounds: Bounds,
        x: Demand,
        change: EntryChange,
    ) -> Result<(), CertCause>
        ensures { StepOf result (takes (limits_of bounds) (effect_of_demand x) (change_of change) (walk_of self.old)) (walk_of self.new) }
    {
        match self.place {
            Reach::Unreachable => Ok(()),
            Reach::At(spot) => self.take_at(bounds, x, change, spot),
            Reach::Doubled(_) => Err(CertCause::Shape),
        }
    }
}
