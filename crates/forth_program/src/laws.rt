// What holds of all trees of items, and of all runs.
ghost use Rattle.forth_program.specs.TreeLaws.{IfTree, UntilTree, WhileTree, AgainTree, DoTree, QDoTree, CaseTree, TreesJoin};
ghost use Rattle.forth_program.specs.RunLaws.{StepsCompose, EndStays, SpentAdds, WorldsGrow, ProgramsStay, OnlyGoLeaves};

/// The tree of a structure has the trees of its parts, and one list after another has the trees of both.
pub fn trees_have_parts()
    ensures if_tree { IfTree }
    ensures until_tree { UntilTree }
    ensures while_tree { WhileTree }
    ensures again_tree { AgainTree }
    ensures do_tree { DoTree }
    ensures q_do_tree { QDoTree }
    ensures case_tree { CaseTree }
    ensures joined { TreesJoin }
{}

/// A run of a + b word steps is one of a steps and then b more, and once it has ended it stays so.
#[tactic(auto, using(crate::proofs::RunLaws::steps_more, crate::proofs::RunLaws::ended))]
pub fn runs_compose()
    ensures composed { StepsCompose }
    ensures ended { EndStays }
{}

/// What was spent before a run adds to what the run spends.
#[tactic(auto, using(crate::proofs::RunLaws::spent_from))]
pub fn prices_add()
    ensures { SpentAdds }
{}

/// Along a run prints are only added at the end, input is only taken from the front, accesses are only added, and data space
/// keeps its place and its size.
pub fn worlds_grow()
    ensures { WorldsGrow }
{}

/// A run of a program without `GO` is never led out of the source.
pub fn sources_stay()
    ensures { ProgramsStay }
{}

/// Only a step of `GO` leads a run out of the source, to the address that it takes, and changes nothing else.
pub fn only_go_leaves()
    ensures { OnlyGoLeaves }
{}
