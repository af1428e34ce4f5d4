// What calls, returns, jumps and branches do.
ghost use Rattle.word_laws.specs.Control.{JumpLeads, CallLeads, ReturnLeads, BranchLeads, BranchPasses, HaltEnds};

/// From where the open machine stands as a source does, one instruction of control leads to where it stands again, with both
/// counters within what stood there.
pub fn control_leads()
    ensures jump { JumpLeads }
    ensures call { CallLeads }
    ensures returns { ReturnLeads }
    ensures branch { BranchLeads }
    ensures passes { BranchPasses }
{}

/// The cells `8000 C004 6023` end the run with status 0.
pub fn halt_ends()
    ensures { HaltEnds }
{}
