// The trees of structures, by those of their parts. These functions do nothing, and are called for what they ensure.
ghost use Rattle.std.specs.Prelude.{◌≡◌};
ghost use Rattle.forth_program.specs.declared.item.Item as item;
ghost use Rattle.forth_program.specs.Tree as tree;
ghost use Rattle.forth_program.specs.ItemTrees.{node_of, tree_of, arms_of, arms_tree};

use forth_program::{Arms, Item, Items, trees_have_parts};

/// `IF` has the trees of its true and its false branch.
pub(crate) fn if_has_parts(structure: &Item, first: &Items, second: &Items)
    requires { structure.now ≡ item.If first.now second.now }
    ensures { node_of structure.now ≡ tree.If (tree_of first.now) (tree_of second.now) }
{
    trees_have_parts();
}

/// `UNTIL` has that of its body.
pub(crate) fn until_has_parts(structure: &Item, body: &Items)
    requires { structure.now ≡ item.Until body.now }
    ensures { node_of structure.now ≡ tree.Until (tree_of body.now) }
{
    trees_have_parts();
}

/// `WHILE` has those of its test and its body.
pub(crate) fn while_has_parts(structure: &Item, test: &Items, body: &Items)
    requires { structure.now ≡ item.While test.now body.now }
    ensures { node_of structure.now ≡ tree.While (tree_of test.now) (tree_of body.now) }
{
    trees_have_parts();
}

/// `AGAIN` has that of its body.
pub(crate) fn again_has_parts(structure: &Item, body: &Items)
    requires { structure.now ≡ item.Again body.now }
    ensures { node_of structure.now ≡ tree.Again (tree_of body.now) }
{
    trees_have_parts();
}

/// `?DO` has that of its body.
pub(crate) fn q_do_has_parts(structure: &Item, body: &Items, plus: bool)
    requires { structure.now ≡ item.QDo body.now plus }
    ensures { node_of structure.now ≡ tree.QDo (tree_of body.now) plus }
{
    trees_have_parts();
}

/// `CASE` has those of its arms and of the items behind them.
pub(crate) fn case_has_parts(structure: &Item, arms: &Arms, rest: &Items)
    requires { structure.now ≡ item.Case arms.now rest.now }
    ensures { node_of structure.now ≡ tree.Case (arms_tree (arms_of arms.now)) (tree_of rest.now) }
{
    trees_have_parts();
}

/// `DO` has that of its body.
pub(crate) fn do_has_parts(structure: &Item, body: &Items, plus: bool)
    requires { structure.now ≡ item.Do body.now plus }
    ensures { node_of structure.now ≡ tree.Do (tree_of body.now) plus }
{
    trees_have_parts();
}
