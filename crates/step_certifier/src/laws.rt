// What a step bound says of runs.
ghost use Rattle.step_certifier.specs.Law.{BoundedProgramsEnd, BoundedImagesEnd};
ghost use Rattle.step_certifier.specs.Turns.{TurnsAreCounted};

use chip_laws::certified_chips_agree;
use j1_simulator::runs_only_grow;

/// A loop with a known limit, start and step that is not left early makes exactly as many turns as are counted for it.
#[tactic(auto, using(crate::proofs::LoopTurns::turns_counted))]
pub fn turns_are_counted()
    ensures { TurnsAreCounted }
{}

/// Every run of a program with a stack certificate and a step bound ends, at a price of at most that bound.
pub fn bounded_programs_end()
    ensures { BoundedProgramsEnd }
{}

/// On the chip the run of the image of such a program without `GO` ends within so many instructions, on every input.
pub fn bounded_images_end()
    ensures { BoundedImagesEnd }
{
    bounded_programs_end();
    certified_chips_agree();
    runs_only_grow();
}
