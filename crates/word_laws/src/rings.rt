// When rings of 32 places do what unbounded stacks do.
ghost use Rattle.word_laws.specs.Rings.{InstructionDoesTheSame, RunsDoTheSame, PointersGoDown, PlacesAreKept, CountersMislead};

/// The round machine does what the open machine does, at one instruction and in whole runs of any image, where no place of a
/// ring is used twice: before each instruction all known cells stand within the 32 places at and below each pointer, and an
/// instruction that moves a pointer up writes the place that it comes to.
pub fn rings_do_the_same()
    ensures instruction { InstructionDoesTheSame }
    ensures run { RunsDoTheSame }
{}

/// A ring agrees with a stack without end where its pointer goes down, and where cells other than those that the stack knows
/// become any others.
pub fn rings_keep_places()
    ensures down { PointersGoDown }
    ensures others { PlacesAreKept }
{}

/// That both depth counters fit the rings is not enough for this: place 0 of a ring is also place 32.
pub fn counters_mislead()
    ensures { CountersMislead }
{}
