// The number of turns of a loop.
ghost use Rattle.std.specs.Prelude.{◌≡◌};
ghost use Rattle.step_certifier.specs.Turns.{turns as turns_of, distance_up as distance};

/// The distance from the start of a loop up to its limit, 65536 where they are equal.
pub(crate) fn distance_up(limit: u16, start: u16) -> u32
    ensures { result ≡ distance limit start }
{
    65536 - (start as u32 + (65536 - limit as u32)) % 65536
}

/// How many turns a loop makes by a step, where it is not left early.
pub(crate) fn turns(limit: u16, start: u16, step: u16) -> Option<u32>
    ensures { result ≡ turns_of limit start step }
{
    if step == 0 {
        None
    } else if step < 32768 {
        Some((distance_up(limit, start) + (step as u32 - 1)) / step as u32)
    } else {
        Some((start as u32 + (65536 - limit as u32)) % 65536 / (65536 - step as u32) + 1)
    }
}
