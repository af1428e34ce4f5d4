// Sizes in cells.
ghost use Rattle.std.specs.Prelude.{◌≡◌, ◌≤◌, true, length};
ghost use Rattle.forth_program.specs.ItemTrees.{node_of, tree_of, arms_tree};
ghost use Rattle.word_laws.specs.Numbers.{number_cells};
ghost use Rattle.code_layout.specs.Layout.{routine_of, word_size as word_code_size, text_size as text_code_size, size_if as cell_size_if, node_size, size, else_size as else_jump_size, turn_size as loop_turn_size, arms_size as case_arms_size, body_size as tree_body_size};

use crate::parts::{
    again_has_parts, case_has_parts, do_has_parts, if_has_parts, q_do_has_parts, until_has_parts,
    while_has_parts,
};
use crate::places::library_number;
use crate::reach::{end_is_reached, is_before_end, item_falls_through};
use forth_program::{Item, Items, TextKind};
use word_table::{Word, plain_cells};

/// The size of a number.
pub(crate) fn number_size(value: u16) -> u16
    ensures { result ≡ length (number_cells value) }
{
    if value < 0x8000 { 1 } else { 2 }
}

// A word that has a routine is a call.
fn word_size(word: Word) -> u16
    ensures { result ≡ word_code_size (routine_of word) word }
{
    match word {
        Word::Execute => 1,
        Word::Go => 1,
        _ => match library_number(word) {
            None => plain_cells(word).len() as u16,
            Some(_) => 1,
        },
    }
}

// What follows the address and the length of a text: nothing, or a call.
fn text_size(kind: TextKind) -> u16
    ensures { result ≡ text_code_size kind }
{
    match kind {
        TextKind::Address => 0,
        TextKind::Print => 1,
        TextKind::Abort => 1,
    }
}

pub(crate) fn size_if(reached: bool) -> u16
    ensures { result ≡ cell_size_if reached }
{
    if reached { 1 } else { 0 }
}

/// The size of the jump over a false branch, where it has items and the true branch leads to it.
pub(crate) fn else_size(first: &Items, second: &Items, tail: bool) -> u16
    ensures { result ≡ else_jump_size tail (tree_of first.now) (tree_of second.now) }
{
    if second.list().is_empty() {
        0
    } else {
        size_if(end_is_reached(first, tail))
    }
}

/// The size of the end of a turn, by `LOOP` or with true by `+LOOP`.
pub(crate) fn turn_size(plus: bool) -> u16
    ensures { result ≡ loop_turn_size plus }
{
    if plus { 18 } else { 7 }
}

#[cycle(sizes)]
fn item_size(item: &Item, tail: bool, reached: bool) -> u16
    requires { node_size tail reached (node_of item.now) ≤ 8000 }
    ensures { result ≡ node_size tail reached (node_of item.now) }
{
    match item {
        Item::Literal(value) => number_size(*value),
        Item::Word(word) => word_size(*word),
        Item::Call(_) => 1,
        Item::Child(_, address) => number_size(*address) + 1,
        Item::Text(kind, address, characters) => {
            number_size(*address) + number_size(*characters) + text_size(*kind)
        }
        Item::If(first, second) => {
            if_has_parts(item, first, second);
            1 + items_size(first, tail) + else_size(first, second, tail) + items_size(second, tail)
        }
        Item::Until(body) => {
            until_has_parts(item, body);
            items_size(body, false) + 1
        }
        Item::While(test, body) => {
            while_has_parts(item, test, body);
            items_size(test, false) + 1 + items_size(body, false) + 1
        }
        Item::Again(body) => {
            again_has_parts(item, body);
            items_size(body, false) + 1
        }
        Item::Do(body, plus) => {
            do_has_parts(item, body, *plus);
            8 + items_size(body, false) + turn_size(*plus) + 4
        }
        Item::QDo(body, plus) => {
            q_do_has_parts(item, body, *plus);
            7 + (8 + items_size(body, false) + turn_size(*plus) + 4)
        }
        Item::Case(arms, rest) => {
            case_has_parts(item, arms, rest);
            arms_size(arms.list(), tail) + items_size(rest, false) + 1
        }
        Item::Leave => 1,
        Item::Exit => size_if(reached),
    }
}

/// The size of items, one after the other, whose end is in tail position or not.
#[cycle(sizes)]
pub(crate) fn items_size(items: &Items, tail: bool) -> u16
    requires { size tail true (tree_of items.now) ≤ 8000 }
    ensures { result ≡ size tail true (tree_of items.now) }
{
    let list = items.list();
    let mut reached = true;
    let mut total = 0;
    for i in 0..list.len() {
        let here = is_before_end(list, i + 1, tail);
        total = total + item_size(&list[i], here, reached);
        reached = item_falls_through(&list[i], here);
    }
    total
}

/// The size of the arms of a `CASE`, whose end is in tail position or not.
#[cycle(sizes)]
pub(crate) fn arms_size(arms: &[(Items, Items)], tail: bool) -> u16
    requires { case_arms_size tail (arms_tree arms.now) ≤ 8000 }
    ensures { result ≡ case_arms_size tail (arms_tree arms.now) }
{
    let mut total = 0;
    for arm in arms {
        let body = items_size(&arm.1, tail) + size_if(end_is_reached(&arm.1, tail));
        total = total + items_size(&arm.0, false) + 4 + body;
    }
    total
}

/// The size of a definition, with its return where its items lead to it.
pub(crate) fn body_size(items: &Items) -> u16
    requires { tree_body_size (tree_of items.now) ≤ 8000 }
    ensures { result ≡ tree_body_size (tree_of items.now) }
{
    items_size(items, true) + size_if(end_is_reached(items, true))
}
