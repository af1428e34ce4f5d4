// What follows an item of a list.
ghost use Rattle.std.specs.Prelude.{◌≡◌, ◌<◌, ◌+◌, length, drop};
ghost use Rattle.depth_certifier.specs.Effects.{next_of as next_in, branch_next as branch};
ghost use Rattle.forth_program.specs.ItemTrees.{nodes_of};

use crate::follow::Next;
use forth_program::Item;

/// What follows an item before these, of which the last is followed so.
pub(crate) fn next_of(next: Next, rest: &[Item]) -> Next
    ensures { result ≡ next_in next (nodes_of rest.now) }
{
    match rest.first() {
        None => next,
        Some(Item::Exit) => Next::Return,
        Some(Item::If(_, _)) => Next::Flag,
        Some(Item::Literal(_)) => Next::More,
        Some(Item::Word(_)) => Next::More,
        Some(Item::Call(_)) => Next::More,
        Some(Item::Child(_, _)) => Next::More,
        Some(Item::Text(_, _, _)) => Next::More,
        Some(Item::Until(_)) => Next::More,
        Some(Item::While(_, _)) => Next::More,
        Some(Item::Again(_)) => Next::More,
        Some(Item::Do(_, _)) => Next::More,
        Some(Item::QDo(_, _)) => Next::More,
        Some(Item::Case(_, _)) => Next::More,
        Some(Item::Leave) => Next::More,
    }
}

/// What follows one of these items, of which the last is followed so.
pub(crate) fn next_at(next: Next, items: &[Item], at: usize) -> Next
    requires { at < length items.now }
    ensures { result ≡ next_in next (nodes_of (drop (at + 1) items.now)) }
{
    next_of(next, &items[at + 1..])
}

/// What follows the last item of a branch.
pub(crate) fn branch_next(next: Next) -> Next
    ensures { result ≡ branch next }
{
    match next {
        Next::Return => Next::Return,
        _ => Next::More,
    }
}
