// Structures of their parts.
ghost use Rattle.std.specs.Prelude.{◌≡◌};
ghost use Rattle.forth_program.specs.Tree as tree;
ghost use Rattle.forth_program.specs.ItemTrees.{node_of, tree_of, arms_of, arms_tree};

use forth_program::{Arms, Item, Items, trees_have_parts};
use std::alloc::Global;

/// `IF` .. `THEN`.
pub(crate) fn if_then(alloc: Global, first: Items) -> Item
    ensures { node_of result ≡ tree.If (tree_of first) tree.Empty }
{
    if_else(first, Items::new(alloc))
}

/// `IF` .. `ELSE` .. `THEN`.
pub(crate) fn if_else(first: Items, second: Items) -> Item
    ensures { node_of result ≡ tree.If (tree_of first) (tree_of second) }
{
    trees_have_parts();
    Item::If(first, second)
}

/// `BEGIN` .. `UNTIL`.
pub(crate) fn until(body: Items) -> Item
    ensures { node_of result ≡ tree.Until (tree_of body) }
{
    trees_have_parts();
    Item::Until(body)
}

/// `BEGIN` .. `AGAIN`.
pub(crate) fn again(body: Items) -> Item
    ensures { node_of result ≡ tree.Again (tree_of body) }
{
    trees_have_parts();
    Item::Again(body)
}

/// `BEGIN` .. `WHILE` .. `REPEAT`.
pub(crate) fn while_repeat(test: Items, body: Items) -> Item
    ensures { node_of result ≡ tree.While (tree_of test) (tree_of body) }
{
    trees_have_parts();
    Item::While(test, body)
}

/// `DO` .. `LOOP`, or with true `DO` .. `+LOOP`.
pub(crate) fn do_loop(body: Items, plus: bool) -> Item
    ensures { node_of result ≡ tree.Do (tree_of body) plus }
{
    trees_have_parts();
    Item::Do(body, plus)
}

/// The same with `?DO`.
pub(crate) fn q_do_loop(body: Items, plus: bool) -> Item
    ensures { node_of result ≡ tree.QDo (tree_of body) plus }
{
    trees_have_parts();
    Item::QDo(body, plus)
}

/// `CASE` .. `ENDCASE`.
pub(crate) fn case_of(arms: Arms, rest: Items) -> Item
    ensures { node_of result ≡ tree.Case (arms_tree (arms_of arms)) (tree_of rest) }
{
    trees_have_parts();
    Item::Case(arms, rest)
}
