// Whether the word GO stands in items.
ghost use Rattle.std.specs.Prelude.{◌≡◌, ◌&&◌, map};
ghost use Rattle.std.specs.List.{list_all};
ghost use Rattle.forth_program.specs.Form.{everywhere, in_arms, inside, is_not_go};
ghost use Rattle.forth_program.specs.ItemTrees.{node_of, nodes_of, tree_of, arms_tree};
ghost use Rattle.forth_program.specs.Tree.{Plain};

use crate::item::{Item, Items};
use word_table::Word;

/// Whether it stands nowhere in an item.
#[cycle(go)]
#[tactic(auto, using(crate::proofs::GoViews::go_If, crate::proofs::GoViews::go_Until, crate::proofs::GoViews::go_While, crate::proofs::GoViews::go_Again, crate::proofs::GoViews::go_Do, crate::proofs::GoViews::go_QDo, crate::proofs::GoViews::go_Case))]
fn lacks_go(item: &Item) -> bool
    ensures { result ≡ (is_not_go (node_of item.now) && inside is_not_go (node_of item.now)) }
{
    match item {
        Item::Word(word) => is_other(*word),
        Item::If(first, second) => all_lack_go(first.list()) & all_lack_go(second.list()),
        Item::Until(body) => all_lack_go(body.list()),
        Item::While(test, body) => all_lack_go(test.list()) & all_lack_go(body.list()),
        Item::Again(body) => all_lack_go(body.list()),
        Item::Do(body, _) => all_lack_go(body.list()),
        Item::QDo(body, _) => all_lack_go(body.list()),
        Item::Case(arms, rest) => arms_lack_go(arms.list()) & all_lack_go(rest.list()),
        Item::Literal(_) => true,
        Item::Call(_) => true,
        Item::Child(_, _) => true,
        Item::Text(_, _, _) => true,
        Item::Leave => true,
        Item::Exit => true,
    }
}

fn is_other(word: Word) -> bool
    ensures { result ≡ is_not_go (Plain word) }
{
    match word {
        Word::Go => false,
        _ => true,
    }
}

/// Whether it stands in none of these items.
#[cycle(go)]
fn all_lack_go(items: &[Item]) -> bool
    ensures { result ≡ everywhere is_not_go (nodes_of items.now) }
{
    for item in items {
        if !lacks_go(item) {
            return false;
        }
    }
    true
}

/// Whether it stands in none of these arms.
#[cycle(go)]
fn arms_lack_go(arms: &[(Items, Items)]) -> bool
    ensures { result ≡ in_arms is_not_go (arms_tree arms.now) }
{
    for arm in arms {
        if !(all_lack_go(arm.0.list()) & all_lack_go(arm.1.list())) {
            return false;
        }
    }
    true
}

/// Whether it stands in none of these bodies.
pub(crate) fn bodies_lack_go(bodies: &[Items]) -> bool
    ensures { result ≡ list_all (everywhere is_not_go) (map tree_of bodies.now) }
{
    for body in bodies {
        if !all_lack_go(body.list()) {
            return false;
        }
    }
    true
}
