// How the laws of words and numbers join to those of whole programs.
ghost use Rattle.word_laws.specs.Bounds.{RunsJoin, BoundsJoin, BoundsWiden, BoundsFitRings, EndsStay};
ghost use Rattle.word_laws.specs.Standing.{CellsStand};

/// Runs and their bounds join, bounds may be widened, and a run within 33 data cells and 32 return cells uses no place of the
/// rings twice; and a machine that has ended stays as it is.
pub fn runs_join()
    ensures runs { RunsJoin }
    ensures bounds { BoundsJoin }
    ensures wider { BoundsWiden }
    ensures rings { BoundsFitRings }
    ensures ended { EndsStay }
{}

/// Cells that follow others at the beginning of code stand there.
pub fn cells_stand()
    ensures { CellsStand }
{}
