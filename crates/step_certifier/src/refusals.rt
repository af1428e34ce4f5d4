// Which items have no bound.
ghost use Rattle.std.specs.Prelude.{◌≡◌};
ghost use Rattle.forth_program.specs.ItemTrees.{items_of, node_of, nodes_of, arms_tree};
ghost use Rattle.step_certifier.specs.Cost.{Other, last_after, last_of as last_in, literal_of, loop_turns as turns_of_loop};
ghost use Rattle.step_certifier.specs.Refusal.{or_else as first_of, closed as closed_by, call_refusal as refusal_of_call, node_refusal, refusal, arms_refusal as refusal_in_arms};
ghost use Rattle.step_certifier.specs.Views.{last_of};

use crate::bound::BoundCause;
use crate::last::Last;
use crate::parts::{case_has_parts, do_has_parts, if_has_parts, q_do_has_parts};
use crate::turns::{distance_up, turns};
use forth_program::{DefId, Item, Items, TextKind};

/// What stands before the next item.
pub(crate) fn after(last: Last, item: &Item) -> Last
    ensures { last_of result ≡ last_after (last_of last) (node_of item.now) }
{
    match item {
        Item::Literal(value) => last.with_literal(*value),
        Item::Text(kind, _, size) => match kind {
            TextKind::Address => Last::TextSize(*size),
            TextKind::Print => Last::Other,
            TextKind::Abort => Last::Other,
        },
        Item::Word(_) => Last::Other,
        Item::Call(_) => Last::Other,
        Item::Child(_, _) => Last::Other,
        Item::If(_, _) => Last::Other,
        Item::Until(_) => Last::Other,
        Item::While(_, _) => Last::Other,
        Item::Again(_) => Last::Other,
        Item::Do(_, _) => Last::Other,
        Item::QDo(_, _) => Last::Other,
        Item::Case(_, _) => Last::Other,
        Item::Leave => Last::Other,
        Item::Exit => Last::Other,
    }
}

/// The literal that ends items.
fn last_literal(items: &[Item]) -> Option<u16>
    ensures { result ≡ literal_of (last_in Other (nodes_of items.now)) }
{
    let mut last = Last::Other;
    for item in items {
        last = after(last, item);
    }
    last.literal()
}

/// The turns of a loop after two literals.
pub(crate) fn loop_turns(last: Last, body: &Items, plus: bool) -> Option<u32>
    ensures { result ≡ turns_of_loop (last_of last) (nodes_of (items_of body.now)) plus }
{
    match last {
        Last::Two(limit, start) => {
            if plus {
                match last_literal(body.list()) {
                    Some(step) => turns(limit, start, step),
                    None => None,
                }
            } else {
                Some(distance_up(limit, start))
            }
        }
        _ => None,
    }
}

/// A refusal, or the next one.
fn or_else(first: Option<BoundCause>, next: Option<BoundCause>) -> Option<BoundCause>
    ensures { result ≡ first_of first next }
{
    match first {
        Some(cause) => Some(cause),
        None => next,
    }
}

/// What has no number of turns has open bounds.
fn closed(turns: Option<u32>) -> Option<BoundCause>
    ensures { result ≡ closed_by turns }
{
    match turns {
        Some(_) => None,
        None => Some(BoundCause::OpenBounds),
    }
}

/// A call leads to an earlier definition.
fn call_refusal(own: u16, definition: DefId) -> Option<BoundCause>
    ensures { result ≡ refusal_of_call own definition.0 }
{
    if definition.0 < own {
        None
    } else {
        Some(BoundCause::Recursion)
    }
}

#[cycle(refusals)]
fn item_refusal(own: u16, last: Last, item: &Item) -> Option<BoundCause>
    ensures { result ≡ node_refusal own (last_of last) (node_of item.now) }
{
    match item {
        Item::Word(word) => last.word_refusal(*word),
        Item::Call(definition) => call_refusal(own, *definition),
        Item::Child(definition, _) => call_refusal(own, *definition),
        Item::If(first, second) => {
            if_has_parts(item, first, second);
            or_else(
                items_refusal(own, first.list()),
                items_refusal(own, second.list()),
            )
        }
        Item::Until(_) => Some(BoundCause::BeginLoop),
        Item::While(_, _) => Some(BoundCause::BeginLoop),
        Item::Again(_) => Some(BoundCause::BeginLoop),
        Item::Do(body, plus) => {
            do_has_parts(item, body, *plus);
            or_else(
                closed(loop_turns(last, body, *plus)),
                items_refusal(own, body.list()),
            )
        }
        Item::QDo(body, plus) => {
            q_do_has_parts(item, body, *plus);
            or_else(
                closed(loop_turns(last, body, *plus)),
                items_refusal(own, body.list()),
            )
        }
        Item::Case(arms, rest) => {
            case_has_parts(item, arms, rest);
            or_else(
                arms_refusal(own, arms.list()),
                items_refusal(own, rest.list()),
            )
        }
        Item::Literal(_) => None,
        Item::Text(_, _, _) => None,
        Item::Leave => None,
        Item::Exit => None,
    }
}

/// The first refusal among the items of a definition, a structure before its content.
#[cycle(refusals)]
pub(crate) fn items_refusal(own: u16, items: &[Item]) -> Option<BoundCause>
    ensures { result ≡ refusal own Other (nodes_of items.now) }
{
    let mut last = Last::Other;
    for item in items {
        if let Some(cause) = item_refusal(own, last, item) {
            return Some(cause);
        }
        last = after(last, item);
    }
    None
}

#[cycle(refusals)]
fn arms_refusal(own: u16, arms: &[(Items, Items)]) -> Option<BoundCause>
    ensures { result ≡ refusal_in_arms own (arms_tree arms.now) }
{
    for arm in arms {
        let body = items_refusal(own, arm.1.list());
        if let Some(cause) = or_else(items_refusal(own, arm.0.list()), body) {
            return Some(cause);
        }
    }
    None
}
