// Which definitions are called.
ghost use Rattle.std.specs.Prelude.{◌≡◌};
ghost use Rattle.forth_program.specs.ItemTrees.{node_of, nodes_of, arms_tree};
ghost use Rattle.step_certifier.specs.Refusal.{node_calls, calls as calls_in, arms_call as calls_in_arms};

use crate::parts::{
    again_has_parts, case_has_parts, do_has_parts, if_has_parts, q_do_has_parts, until_has_parts,
    while_has_parts,
};
use forth_program::{DefId, Item, Items};

#[cycle(calls)]
fn item_calls(definition: DefId, item: &Item) -> bool
    ensures { result ≡ node_calls definition.0 (node_of item.now) }
{
    match item {
        Item::Call(called) => definition.0 == called.0,
        Item::Child(called, _) => definition.0 == called.0,
        Item::If(first, second) => {
            if_has_parts(item, first, second);
            calls(definition, first.list()) | calls(definition, second.list())
        }
        Item::Until(body) => {
            until_has_parts(item, body);
            calls(definition, body.list())
        }
        Item::While(test, body) => {
            while_has_parts(item, test, body);
            calls(definition, test.list()) | calls(definition, body.list())
        }
        Item::Again(body) => {
            again_has_parts(item, body);
            calls(definition, body.list())
        }
        Item::Do(body, plus) => {
            do_has_parts(item, body, *plus);
            calls(definition, body.list())
        }
        Item::QDo(body, plus) => {
            q_do_has_parts(item, body, *plus);
            calls(definition, body.list())
        }
        Item::Case(arms, rest) => {
            case_has_parts(item, arms, rest);
            arms_call(definition, arms.list()) | calls(definition, rest.list())
        }
        Item::Literal(_) => false,
        Item::Word(_) => false,
        Item::Text(_, _, _) => false,
        Item::Leave => false,
        Item::Exit => false,
    }
}

/// Whether a definition is called, itself or by a child, among items.
#[cycle(calls)]
pub(crate) fn calls(definition: DefId, items: &[Item]) -> bool
    ensures { result ≡ calls_in definition.0 (nodes_of items.now) }
{
    for item in items {
        if item_calls(definition, item) {
            return true;
        }
    }
    false
}

#[cycle(calls)]
fn arms_call(definition: DefId, arms: &[(Items, Items)]) -> bool
    ensures { result ≡ calls_in_arms definition.0 (arms_tree arms.now) }
{
    for arm in arms {
        if calls(definition, arm.0.list()) | calls(definition, arm.1.list()) {
            return true;
        }
    }
    false
}
