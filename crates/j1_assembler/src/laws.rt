// Laws of the definitions.
ghost use Rattle.j1_assembler.specs.Grammar.{AssemblesByGrammar};
ghost use Rattle.j1_assembler.specs.FirstBad.{RefusesFirstBad};

/// A text assembles to an image exactly where the grammar gives it that image.
pub fn assembles_by_grammar()
    ensures { AssemblesByGrammar }
{}

/// A text is refused exactly at its first bad line.
pub fn refuses_first_bad()
    ensures { RefusesFirstBad }
{}
