// What runs and single instructions keep.
ghost use Rattle.j1_simulator.specs.Laws.{OnlyGrows, DriveIsRun, BeginsAtStart, WantsExactly, StepIsInstruction, GivenStepIsInstruction, CallThenReturn, LiteralThenDrop, LiteralThenDropBelow};
ghost use Rattle.j1_simulator.specs.OpenMachine.{open_storage};
ghost use Rattle.j1_simulator.specs.RoundMachine.{round_storage};

/// What a machine has printed is a beginning of all that it prints later, and an end is for good.
pub fn runs_only_grow()
    ensures round { OnlyGrows round_storage }
    ensures open { OnlyGrows open_storage }
{}

/// A drive from the start is the run of the round machine.
pub fn drive_is_run()
    ensures { DriveIsRun }
{}

/// One step of a machine is one instruction of the run, and its depths are the counters of the run as long as these
/// have been 64-bit integers.
pub fn steps_are_the_run()
    ensures start { BeginsAtStart }
    ensures wants { WantsExactly }
    ensures step { StepIsInstruction }
    ensures given { GivenStepIsInstruction }
{}

/// A call and then a return come back to the next cell.
pub fn call_then_return()
    ensures { CallThenReturn }
{}

/// A literal and then a drop leave T and all that is below as it was.
pub fn literal_then_drop()
    ensures round { LiteralThenDrop }
    ensures open { LiteralThenDropBelow }
{}
