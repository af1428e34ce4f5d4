// Tail position, and where code leads on.
ghost use Rattle.std.specs.Prelude.{◌≡◌, true, false, drop};
ghost use Rattle.forth_program.specs.Tree.{Nodes, Exit, Then};
ghost use Rattle.forth_program.specs.Tail.{is_tail};
ghost use Rattle.forth_program.specs.ItemTrees.{node_of, nodes_of, tree_of};
ghost use Rattle.code_layout.specs.Layout.{routine_of, word_falls_through as word_leads_on, text_falls_through as text_leads_on, falls_through, reaches_end};

use crate::parts::if_has_parts;
use crate::places::library_number;
use forth_program::{Item, Items, TextKind};
use word_table::Word;

fn is_exit(item: &Item) -> bool
    ensures { (rest : Nodes) → is_tail (Then (node_of item.now) rest) false ≡ result }
{
    match item {
        Item::Exit => true,
        Item::Literal(_) => false,
        Item::Word(_) => false,
        Item::Call(_) => false,
        Item::Child(_, _) => false,
        Item::Text(_, _, _) => false,
        Item::If(_, _) => false,
        Item::Until(_) => false,
        Item::While(_, _) => false,
        Item::Again(_) => false,
        Item::Do(_, _) => false,
        Item::QDo(_, _) => false,
        Item::Case(_, _) => false,
        Item::Leave => false,
    }
}

/// Whether an item stands in tail position that the items from place `i` on follow, where their end does or not.
pub(crate) fn is_before_end(list: &[Item], i: usize, tail: bool) -> bool
    ensures { result ≡ is_tail (nodes_of (drop i list.now)) tail }
{
    if i < list.len() {
        is_exit(&list[i])
    } else {
        tail
    }
}

// A last call of a routine is a jump.
fn word_falls_through(word: Word, tail: bool) -> bool
    ensures { result ≡ word_leads_on (routine_of word) tail }
{
    match word {
        Word::Execute => !tail,
        Word::Go => !tail,
        _ => match library_number(word) {
            None => true,
            Some(_) => !tail,
        },
    }
}

fn text_falls_through(kind: TextKind, tail: bool) -> bool
    ensures { result ≡ text_leads_on kind tail }
{
    match kind {
        TextKind::Address => true,
        TextKind::Print => !tail,
        TextKind::Abort => !tail,
    }
}

/// Whether code leads to what stands behind an item.
#[cycle(reach)]
pub(crate) fn item_falls_through(item: &Item, tail: bool) -> bool
    ensures { result ≡ falls_through tail (node_of item.now) }
{
    match item {
        Item::Call(_) => !tail,
        Item::If(first, second) => {
            if_has_parts(item, first, second);
            end_is_reached(first, tail) | end_is_reached(second, tail)
        }
        Item::Exit => false,
        Item::Literal(_) => true,
        Item::Word(word) => word_falls_through(*word, tail),
        Item::Child(_, _) => !tail,
        Item::Text(kind, _, _) => text_falls_through(*kind, tail),
        Item::Until(_) => true,
        Item::While(_, _) => true,
        Item::Again(_) => false,
        Item::Do(_, _) => true,
        Item::QDo(_, _) => true,
        Item::Case(_, _) => true,
        Item::Leave => true,
    }
}

/// Whether code leads to what stands behind items.
#[cycle(reach)]
pub(crate) fn end_is_reached(items: &Items, tail: bool) -> bool
    ensures { result ≡ reaches_end tail true (tree_of items.now) }
{
    let list = items.list();
    let mut reached = true;
    for i in 0..list.len() {
        reached = item_falls_through(&list[i], is_before_end(list, i + 1, tail));
    }
    reached
}
