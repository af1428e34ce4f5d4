// What the machine code around a typed word does.
ghost use Rattle.typed_code.specs.Laws.{LoadPutsCells, RunCodeLoads, SavePutsBack, SavedIsKept, TypedWordsComeBack, JumpsLead, CallsLeadBehind, StandsAlike};

use word_laws::runs_join;

/// LOAD puts the user's cells onto an empty data stack, in 13 instructions for each and 10 more, and RUN-CODE does so behind keeping the
/// pointers.
pub fn cells_are_loaded()
    ensures load { LoadPutsCells }
    ensures run_code { RunCodeLoads }
{
    runs_join();
}

/// SAVE takes all data cells into memory, in 12 instructions for each and 13 more, and changes no other cell of memory.
pub fn cells_are_saved()
    ensures save { SavePutsBack }
    ensures saved { SavedIsKept }
{
    runs_join();
}

/// Where the call at RUN-CALL comes to the cell behind it, RUN-CODE comes back with no data cell, and the user's cells are those that
/// the word has left.
pub fn a_typed_word_comes_back()
    ensures comes_back { TypedWordsComeBack }
    ensures alike { StandsAlike }
{
    runs_join();
}

/// A jump leads to its place, and a call of what comes back to the cell behind it, wherever they stand in memory.
pub fn calls_lead_behind()
    ensures jump { JumpsLead }
    ensures call { CallsLeadBehind }
{
    runs_join();
}
