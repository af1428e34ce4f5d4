// What is known at a place in a body, as the walk has it.
ghost use Rattle.std.specs.Prelude.{◌≤◌, ◌≤ℤ◌, pos, negsuc};
ghost use Rattle.depth_certifier.specs.Place.{size};
ghost use Rattle.depth_certifier.specs.Entries.{entries_of};

use crate::shape::Entries;

/// The least and the greatest change of the data cells.
#[derive(Clone, Copy)]
pub struct Change {
    pub low: i16,
    pub high: i16,
    ghost least: { negsuc 999 ≤ℤ low },
    ghost order: { low ≤ℤ high },
    ghost most: { high ≤ℤ pos 1000 },
}

/// What an item demands of the effect of a body.
#[derive(Clone, Copy)]
pub struct Demand {
    pub need: u16,
    pub peak: u16,
    pub back: u16,
    pub exit: Option<Change>,
}

/// A place that is reached: the change of the data cells since the entry, and the return entries.
#[derive(Clone, Copy)]
pub struct Spot {
    pub low: i16,
    pub high: i16,
    pub entries: Entries,
    ghost least: { negsuc 32 ≤ℤ low },
    ghost order: { low ≤ℤ high },
    ghost most: { high ≤ℤ pos 33 },
    ghost small: { size (entries_of entries) ≤ 31 },
}

/// After a `?DUP` before a flag: there is room for one cell less.
#[derive(Clone, Copy)]
pub struct Query {
    pub spot: Spot,
    ghost room: { negsuc 31 ≤ℤ spot.low },
}

#[derive(Clone, Copy)]
pub enum Reach {
    Unreachable,
    At(Spot),
    Doubled(Query),
}

/// What an item does to the return entries.
#[derive(Clone, Copy)]
pub enum EntryChange {
    Keep,
    PushLoop,
    ByWord(word_table::Word),
}

/// The greatest need, peak and back, and the greatest high end of the exit.
#[derive(Clone, Copy)]
pub struct Bounds {
    pub need: u32,
    pub peak: u32,
    pub back: u32,
    pub top: u8,
    ghost few: { back ≤ 31 },
}
