// Loops are entered.
ghost use Rattle.std.specs.Prelude.{◌≡◌, ℕ, ◌<◌, ◌≤◌, ◌≤ℤ◌, ◌&&◌, int_le, pos, negsuc, length, slice_index_or, Some};
ghost use Rattle.depth_certifier.specs.Place.{At};
ghost use Rattle.depth_certifier.specs.Certificate.{no_interval};
ghost use Rattle.depth_certifier.specs.Walk.{enter_given, enters};
ghost use Rattle.depth_certifier.specs.Views.{stand_of, HeadKeeps};
ghost use Rattle.depth_certifier.specs.Walks.{walk_of, StepOf};

use crate::effect::CertCause;
use crate::place::{Reach, Spot};
use crate::walker::Walker;

fn wide(x: i8) -> i16
    ensures { result ≡ x }
{
    i16::from(x)
}

// The place of a head.
fn widened(spot: Spot, low: i16, high: i16) -> Spot
    requires least { negsuc 32 ≤ℤ low }
    requires most { high ≤ℤ pos 33 }
    requires below { low ≤ℤ spot.low }
    requires above { spot.high ≤ℤ high }
    ensures low { result.low ≡ low }
    ensures high { result.high ≡ high }
    ensures entries { result.entries ≡ spot.entries }
{
    let entries = spot.entries;
    Spot { low, high, entries }
}

fn lies_inside(spot: Spot, low: i16, high: i16) -> bool
    ensures { result ≡ (int_le low spot.low && int_le spot.high high) }
{
    low <= spot.low && spot.high <= high
}

impl Walker {
    // From a place that is reached.
    fn enter_at(&mut self, spot: Spot, low: i16, high: i16) -> Result<(), CertCause>
        requires least { negsuc 32 ≤ℤ low }
        requires most { high ≤ℤ pos 33 }
        requires room { self.old.count < usize.MAX }
        ensures { StepOf result (enter_given (low, high) (At (stand_of spot)) (walk_of self.old)) (walk_of self.new) }
    {
        if !lies_inside(spot, low, high) {
            return Err(CertCause::Data);
        }
        self.place = Reach::At(widened(spot, low, high));
        self.count += 1;
        Ok(())
    }

    /// The next loop is entered, with the head that is given for it.
    pub(crate) fn enter(&mut self, heads: &[(i8, i8)]) -> Result<(), CertCause>
        requires { (k : ℕ) → HeadKeeps (slice_index_or heads.now k no_interval) }
        ensures { StepOf result (enters (Some heads.now) (walk_of self.old)) (walk_of self.new) }
    {
        if self.count >= heads.len() {
            return Err(CertCause::Data);
        }
        let (low, high) = heads[self.count];
        match self.place {
            Reach::Unreachable => {
                self.count += 1;
                Ok(())
            }
            Reach::Doubled(_) => Err(CertCause::Shape),
            Reach::At(spot) => self.enter_at(spot, wide(low), wide(high)),
        }
    }
}
