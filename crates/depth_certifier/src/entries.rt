// What is asked of return entries.
ghost use Rattle.std.specs.Prelude.{◌≡◌, ◌+◌, ◌<◌, ◌≤◌, [], ◌∷◌, length, Option, Some, None, MatchOption};
ghost use Rattle.depth_certifier.specs.Place.{size};
ghost use Rattle.depth_certifier.specs.Entries.{entries_of, newest_of, older_of};
ghost use Rattle.depth_certifier.specs.Walk.{same_slot, same_shape};

use crate::shape::{Entries, Slot};

fn is_same(one: Slot, other: Slot) -> bool
    ensures { result ≡ same_slot one other }
{
    match (one, other) {
        (Slot::OfCell, Slot::OfCell) => true,
        (Slot::OfLoop, Slot::OfLoop) => true,
        _ => false,
    }
}

impl Entries {
    /// None.
    pub(crate) fn none() -> Entries
        ensures { entries_of result ≡ [] }
    {
        Entries {
            slots: [Slot::OfCell; 32],
            count: 0,
        }
    }

    /// The same under one more.
    pub(crate) fn under(self, slot: Slot) -> Entries
        requires { self.count < 32 }
        ensures { entries_of result ≡ slot ∷ entries_of self }
    {
        let mut slots = self.slots;
        slots[self.count as usize] = slot;
        Entries {
            slots,
            count: self.count + 1,
        }
    }

    /// The newest.
    pub(crate) fn newest(self) -> Option<Slot>
        ensures { result ≡ newest_of (entries_of self) }
    {
        if self.count == 0 {
            return None;
        }
        Some(self.slots[self.count as usize - 1])
    }

    /// Those below the newest.
    pub(crate) fn below(self) -> Entries
        ensures { entries_of result ≡ older_of (entries_of self) }
    {
        if self.count == 0 {
            return self;
        }
        let slots = self.slots;
        Entries {
            slots,
            count: self.count - 1,
        }
    }

    /// Their cells.
    pub(crate) fn cells(self) -> u8
        ensures { result ≡ size (entries_of self) }
    {
        let mut total = 0;
        for i in 0..self.count {
            total += match self.slots[i as usize] {
                Slot::OfCell => 1,
                Slot::OfLoop => 2,
            };
        }
        total
    }

    /// Whether they are the same.
    pub(crate) fn are(self, others: Entries) -> bool
        ensures { result ≡ same_shape (entries_of self) (entries_of others) }
    {
        if self.count != others.count {
            return false;
        }
        let mine = self.slots;
        let theirs = others.slots;
        for i in 0..self.count {
            let one = mine[i as usize];
            let other = theirs[i as usize];
            if !is_same(one, other) {
                return false;
            }
        }
        true
    }
}
