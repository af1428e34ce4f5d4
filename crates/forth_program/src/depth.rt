// Whether the word DEPTH stands in items and tokens.
ghost use Rattle.std.specs.Prelude.{◌≡◌, map};
ghost use Rattle.std.specs.List.{list_any};
ghost use Rattle.forth_program.specs.ItemTrees.{node_of, nodes_of, tree_of, arms_tree};
ghost use Rattle.forth_program.specs.Parts.{token_node};
ghost use Rattle.forth_program.specs.Program.{depth_in, depth_in_arms, depth_within, is_depth_word};

use crate::item::{Item, Items};
use crate::program::Token;
use word_table::Word;

/// Whether it stands in an item.
#[cycle(depth)]
#[tactic(auto, using(crate::proofs::Views::depth_If, crate::proofs::Views::depth_Until, crate::proofs::Views::depth_While, crate::proofs::Views::depth_Again, crate::proofs::Views::depth_Do, crate::proofs::Views::depth_QDo, crate::proofs::Views::depth_Case))]
fn has_depth(item: &Item) -> bool
    ensures { result ≡ depth_in (node_of item.now) }
{
    match item {
        Item::Word(word) => is_depth(*word),
        Item::If(first, second) => have_depth(first.list()) | have_depth(second.list()),
        Item::Until(body) => have_depth(body.list()),
        Item::While(test, body) => have_depth(test.list()) | have_depth(body.list()),
        Item::Again(body) => have_depth(body.list()),
        Item::Do(body, _) => have_depth(body.list()),
        Item::QDo(body, _) => have_depth(body.list()),
        Item::Case(arms, rest) => arms_have_depth(arms.list()) | have_depth(rest.list()),
        Item::Literal(_) => false,
        Item::Call(_) => false,
        Item::Child(_, _) => false,
        Item::Text(_, _, _) => false,
        Item::Leave => false,
        Item::Exit => false,
    }
}

fn is_depth(word: Word) -> bool
    ensures { result ≡ is_depth_word word }
{
    match word {
        Word::Depth => true,
        _ => false,
    }
}

/// Whether it stands in one of these items.
#[cycle(depth)]
fn have_depth(items: &[Item]) -> bool
    ensures { result ≡ depth_within (nodes_of items.now) }
{
    for item in items {
        if has_depth(item) {
            return true;
        }
    }
    false
}

/// Whether it stands in one of these arms.
#[cycle(depth)]
fn arms_have_depth(arms: &[(Items, Items)]) -> bool
    ensures { result ≡ depth_in_arms (arms_tree arms.now) }
{
    for arm in arms {
        if have_depth(arm.0.list()) | have_depth(arm.1.list()) {
            return true;
        }
    }
    false
}

/// Whether it stands in one of these bodies.
pub(crate) fn bodies_have_depth(bodies: &[Items]) -> bool
    ensures { result ≡ list_any depth_within (map tree_of bodies.now) }
{
    for body in bodies {
        if have_depth(body.list()) {
            return true;
        }
    }
    false
}

/// Whether a token stands for it.
fn token_has_depth(token: Token) -> bool
    ensures { result ≡ depth_in (token_node token) }
{
    match token {
        Token::Table(word) => is_depth(word),
        Token::Def(_) => false,
        Token::Value(_) => false,
        Token::Child(_, _) => false,
    }
}

/// Whether one of these tokens stands for it.
pub(crate) fn tokens_have_depth(tokens: &[Token]) -> bool
    ensures { result ≡ list_any depth_in (map token_node tokens.now) }
{
    for token in tokens {
        if token_has_depth(*token) {
            return true;
        }
    }
    false
}
