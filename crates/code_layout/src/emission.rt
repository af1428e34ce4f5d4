// The cells of items, at the end of the code.
ghost use Rattle.std.specs.Prelude.{◌≡◌, ℕ, ◌+◌, ◌≤◌, ◌++◌, ◌∷◌, [], length, OnOk, true, false};
ghost use Rattle.forth_program.specs.Tree.{If, Until, While, Again, Do, QDo, Case, NoArm, Arm};
ghost use Rattle.forth_program.specs.Form.{everywhere, inside, in_arms};
ghost use Rattle.forth_program.specs.ItemTrees.{node_of, tree_of, arms_of, arms_tree};
ghost use Rattle.code_layout.specs.Built.{is_laid_out};
ghost use Rattle.code_layout.specs.Layout.{node_size, size, arms_size as case_arms_size, body_size, else_cells, node_cells, nodes_cells, arms_cells, arm_cells, body_cells};
ghost use Rattle.code_layout.specs.Places.{ArePlaces, place_by, word_count, definition_count};

use crate::calls::{add_child, add_definition_call, add_plain, add_text};
use crate::cells::{
    add_branch, add_do, add_drop, add_jump, add_jump_if, add_number, add_of, add_out, add_return,
    add_skip, add_turn,
};
use crate::parts::{
    again_has_parts, case_has_parts, do_has_parts, if_has_parts, q_do_has_parts, until_has_parts,
    while_has_parts,
};
use crate::places::Places;
use crate::reach::{end_is_reached, is_before_end, item_falls_through};
use crate::sizes::{arms_size, else_size, items_size, size_if, turn_size};
use forth_program::{Arms, Item, Items};
use std::alloc::AllocError;

// The jump over a false branch, where it has items and the true branch leads to it.
fn add_else(
    code: &mut Vec<u16>,
    first: &Items,
    second: &Items,
    tail: bool,
    target: u16,
) -> Result<(), AllocError>
    ensures { OnOk result (code.new.items ≡ code.old.items ++ else_cells tail (tree_of first.now) (tree_of second.now) target) }
{
    if second.list().is_empty() {
        Ok(())
    } else if end_is_reached(first, tail) {
        add_jump(code, target)
    } else {
        Ok(())
    }
}

#[cycle(emission)]
fn add_if(
    code: &mut Vec<u16>,
    first: &Items,
    second: &Items,
    places: &Places,
    data_start: u16,
    out_at: u16,
    tail: bool,
) -> Result<(), AllocError>
    requires places { ArePlaces places.now }
    requires start { data_start ≤ 16000 }
    requires first { everywhere (is_laid_out true (word_count places.now) (definition_count places.now)) (tree_of first.now) ≡ true }
    requires second { everywhere (is_laid_out true (word_count places.now) (definition_count places.now)) (tree_of second.now) ≡ true }
    requires room { length code.old.items + node_size tail true (If (tree_of first.now) (tree_of second.now)) ≤ 8000 }
    ensures { OnOk result (code.new.items ≡ code.old.items ++ node_cells data_start (place_by places.now) out_at (length code.old.items) tail true (If (tree_of first.now) (tree_of second.now))) }
{
    let at = code.len() as u16;
    let second_at = at + 1 + items_size(first, tail) + else_size(first, second, tail);
    add_branch(code, second_at)?;
    add_items(code, first, places, data_start, out_at, tail)?;
    add_else(
        code,
        first,
        second,
        tail,
        second_at + items_size(second, tail),
    )?;
    add_items(code, second, places, data_start, out_at, tail)
}

#[cycle(emission)]
fn add_until(
    code: &mut Vec<u16>,
    body: &Items,
    places: &Places,
    data_start: u16,
    out_at: u16,
) -> Result<(), AllocError>
    requires places { ArePlaces places.now }
    requires start { data_start ≤ 16000 }
    requires laid_out { everywhere (is_laid_out true (word_count places.now) (definition_count places.now)) (tree_of body.now) ≡ true }
    requires room { length code.old.items + node_size false true (Until (tree_of body.now)) ≤ 8000 }
    ensures { OnOk result (code.new.items ≡ code.old.items ++ node_cells data_start (place_by places.now) out_at (length code.old.items) false true (Until (tree_of body.now))) }
{
    let at = code.len() as u16;
    add_items(code, body, places, data_start, out_at, false)?;
    add_branch(code, at)
}

#[cycle(emission)]
fn add_while(
    code: &mut Vec<u16>,
    test: &Items,
    body: &Items,
    places: &Places,
    data_start: u16,
    out_at: u16,
) -> Result<(), AllocError>
    requires places { ArePlaces places.now }
    requires start { data_start ≤ 16000 }
    requires test { everywhere (is_laid_out true (word_count places.now) (definition_count places.now)) (tree_of test.now) ≡ true }
    requires body { everywhere (is_laid_out true (word_count places.now) (definition_count places.now)) (tree_of body.now) ≡ true }
    requires room { length code.old.items + node_size false true (While (tree_of test.now) (tree_of body.now)) ≤ 8000 }
    ensures { OnOk result (code.new.items ≡ code.old.items ++ node_cells data_start (place_by places.now) out_at (length code.old.items) false true (While (tree_of test.now) (tree_of body.now))) }
{
    let at = code.len() as u16;
    let body_at = at + items_size(test, false) + 1;
    add_items(code, test, places, data_start, out_at, false)?;
    add_branch(code, body_at + items_size(body, false) + 1)?;
    add_items(code, body, places, data_start, out_at, false)?;
    add_jump(code, at)
}

// A LEAVE in the body leads to where this loop is dropped.
#[cycle(emission)]
fn add_do_loop(
    code: &mut Vec<u16>,
    body: &Items,
    plus: bool,
    places: &Places,
    data_start: u16,
) -> Result<(), AllocError>
    requires places { ArePlaces places.now }
    requires start { data_start ≤ 16000 }
    requires laid_out { everywhere (is_laid_out true (word_count places.now) (definition_count places.now)) (tree_of body.now) ≡ true }
    requires room { length code.old.items + node_size false true (Do (tree_of body.now) plus) ≤ 8000 }
    ensures { (out_at : ℕ) → OnOk result (code.new.items ≡ code.old.items ++ node_cells data_start (place_by places.now) out_at (length code.old.items) false true (Do (tree_of body.now) plus)) }
{
    let body_at = code.len() as u16 + 8;
    let drop_at = body_at + items_size(body, false) + turn_size(plus);
    add_do(code)?;
    add_items(code, body, places, data_start, drop_at, false)?;
    add_turn(code, plus, body_at, drop_at)?;
    add_out(code)
}

#[cycle(emission)]
fn add_again(
    code: &mut Vec<u16>,
    body: &Items,
    places: &Places,
    data_start: u16,
    out_at: u16,
) -> Result<(), AllocError>
    requires places { ArePlaces places.now }
    requires start { data_start ≤ 16000 }
    requires laid_out { everywhere (is_laid_out true (word_count places.now) (definition_count places.now)) (tree_of body.now) ≡ true }
    requires room { length code.old.items + node_size false true (Again (tree_of body.now)) ≤ 8000 }
    ensures { OnOk result (code.new.items ≡ code.old.items ++ node_cells data_start (place_by places.now) out_at (length code.old.items) false true (Again (tree_of body.now))) }
{
    let at = code.len() as u16;
    add_items(code, body, places, data_start, out_at, false)?;
    add_jump(code, at)
}

#[cycle(emission)]
fn add_q_do(
    code: &mut Vec<u16>,
    body: &Items,
    plus: bool,
    places: &Places,
    data_start: u16,
) -> Result<(), AllocError>
    requires places { ArePlaces places.now }
    requires start { data_start ≤ 16000 }
    requires laid_out { everywhere (is_laid_out true (word_count places.now) (definition_count places.now)) (tree_of body.now) ≡ true }
    requires room { length code.old.items + node_size false true (QDo (tree_of body.now) plus) ≤ 8000 }
    ensures { (out_at : ℕ) → OnOk result (code.new.items ≡ code.old.items ++ node_cells data_start (place_by places.now) out_at (length code.old.items) false true (QDo (tree_of body.now) plus)) }
{
    let loop_at = code.len() as u16 + 7;
    let end_at = loop_at + 8 + items_size(body, false) + turn_size(plus) + 4;
    add_skip(code, loop_at, end_at)?;
    add_do_loop(code, body, plus, places, data_start)
}

// The tests and the body of an arm, whose case ends at `end_at`.
#[cycle(emission)]
fn add_arm(
    code: &mut Vec<u16>,
    tests: &Items,
    body: &Items,
    places: &Places,
    data_start: u16,
    out_at: u16,
    tail: bool,
    end_at: u16,
) -> Result<(), AllocError>
    requires places { ArePlaces places.now }
    requires start { data_start ≤ 16000 }
    requires tests { everywhere (is_laid_out true (word_count places.now) (definition_count places.now)) (tree_of tests.now) ≡ true }
    requires body { everywhere (is_laid_out true (word_count places.now) (definition_count places.now)) (tree_of body.now) ≡ true }
    requires room { length code.old.items + case_arms_size tail (Arm (tree_of tests.now) (tree_of body.now) NoArm) ≤ 8000 }
    ensures { OnOk result (code.new.items ≡ code.old.items ++ arm_cells data_start (place_by places.now) out_at (length code.old.items) tail end_at (tree_of tests.now) (tree_of body.now)) }
{
    let reached = end_is_reached(body, tail);
    let body_at = code.len() as u16 + items_size(tests, false) + 4;
    let other_at = body_at + items_size(body, tail) + size_if(reached);
    add_items(code, tests, places, data_start, out_at, false)?;
    add_of(code, other_at)?;
    add_items(code, body, places, data_start, out_at, tail)?;
    add_jump_if(code, reached, end_at)
}

#[cycle(emission)]
fn add_arms(
    code: &mut Vec<u16>,
    arms: &[(Items, Items)],
    places: &Places,
    data_start: u16,
    out_at: u16,
    tail: bool,
    end_at: u16,
) -> Result<(), AllocError>
    requires places { ArePlaces places.now }
    requires start { data_start ≤ 16000 }
    requires laid_out { in_arms (is_laid_out true (word_count places.now) (definition_count places.now)) (arms_tree arms.now) ≡ true }
    requires room { length code.old.items + case_arms_size tail (arms_tree arms.now) ≤ 8000 }
    ensures { OnOk result (code.new.items ≡ code.old.items ++ arms_cells data_start (place_by places.now) out_at (length code.old.items) tail end_at (arms_tree arms.now)) }
{
    for arm in arms {
        add_arm(
            code, &arm.0, &arm.1, places, data_start, out_at, tail, end_at,
        )?;
    }
    Ok(())
}

#[cycle(emission)]
fn add_case(
    code: &mut Vec<u16>,
    arms: &Arms,
    rest: &Items,
    places: &Places,
    data_start: u16,
    out_at: u16,
    tail: bool,
) -> Result<(), AllocError>
    requires places { ArePlaces places.now }
    requires start { data_start ≤ 16000 }
    requires arms { in_arms (is_laid_out true (word_count places.now) (definition_count places.now)) (arms_tree (arms_of arms.now)) ≡ true }
    requires rest { everywhere (is_laid_out true (word_count places.now) (definition_count places.now)) (tree_of rest.now) ≡ true }
    requires room { length code.old.items + node_size tail true (Case (arms_tree (arms_of arms.now)) (tree_of rest.now)) ≤ 8000 }
    ensures { OnOk result (code.new.items ≡ code.old.items ++ node_cells data_start (place_by places.now) out_at (length code.old.items) tail true (Case (arms_tree (arms_of arms.now)) (tree_of rest.now))) }
{
    let list = arms.list();
    let rest_at = code.len() as u16 + arms_size(list, tail);
    let end_at = rest_at + items_size(rest, false) + 1;
    add_arms(code, list, places, data_start, out_at, tail, end_at)?;
    add_items(code, rest, places, data_start, out_at, false)?;
    add_drop(code)
}

#[cycle(emission)]
fn add_item(
    code: &mut Vec<u16>,
    item: &Item,
    places: &Places,
    data_start: u16,
    out_at: u16,
    tail: bool,
    reached: bool,
) -> Result<(), AllocError>
    requires places { ArePlaces places.now }
    requires start { data_start ≤ 16000 }
    requires item { is_laid_out true (word_count places.now) (definition_count places.now) (node_of item.now) ≡ true }
    requires parts { inside (is_laid_out true (word_count places.now) (definition_count places.now)) (node_of item.now) ≡ true }
    requires room { length code.old.items + node_size tail reached (node_of item.now) ≤ 8000 }
    ensures { OnOk result (code.new.items ≡ code.old.items ++ node_cells data_start (place_by places.now) out_at (length code.old.items) tail reached (node_of item.now)) }
{
    match item {
        Item::Literal(value) => add_number(code, *value),
        Item::Word(word) => add_plain(code, *word, places, data_start, tail),
        Item::Call(id) => add_definition_call(code, *id, places, tail),
        Item::Child(id, address) => add_child(code, *id, *address, places, tail),
        Item::Text(kind, address, characters) => {
            add_text(code, *kind, *address, *characters, places, tail)
        }
        Item::If(first, second) => {
            if_has_parts(item, first, second);
            add_if(code, first, second, places, data_start, out_at, tail)
        }
        Item::Until(body) => {
            until_has_parts(item, body);
            add_until(code, body, places, data_start, out_at)
        }
        Item::While(test, body) => {
            while_has_parts(item, test, body);
            add_while(code, test, body, places, data_start, out_at)
        }
        Item::Do(body, plus) => {
            do_has_parts(item, body, *plus);
            add_do_loop(code, body, *plus, places, data_start)
        }
        Item::Again(body) => {
            again_has_parts(item, body);
            add_again(code, body, places, data_start, out_at)
        }
        Item::QDo(body, plus) => {
            q_do_has_parts(item, body, *plus);
            add_q_do(code, body, *plus, places, data_start)
        }
        Item::Case(arms, rest) => {
            case_has_parts(item, arms, rest);
            add_case(code, arms, rest, places, data_start, out_at, tail)
        }
        Item::Leave => add_jump(code, out_at),
        Item::Exit => add_return(code, reached),
    }
}

/// The cells of items one after the other, at the end of the code. `data_start` is where data space begins, `places` says where
/// each routine begins, `out_at` where the innermost loop is dropped, and `tail` whether the end of the items is in tail position.
#[cycle(emission)]
pub(crate) fn add_items(
    code: &mut Vec<u16>,
    items: &Items,
    places: &Places,
    data_start: u16,
    out_at: u16,
    tail: bool,
) -> Result<(), AllocError>
    requires places { ArePlaces places.now }
    requires start { data_start ≤ 16000 }
    requires laid_out { everywhere (is_laid_out true (word_count places.now) (definition_count places.now)) (tree_of items.now) ≡ true }
    requires room { length code.old.items + size tail true (tree_of items.now) ≤ 8000 }
    ensures { OnOk result (code.new.items ≡ code.old.items ++ nodes_cells data_start (place_by places.now) out_at (length code.old.items) tail true (tree_of items.now)) }
{
    let list = items.list();
    let mut reached = true;
    for i in 0..list.len() {
        let here = is_before_end(list, i + 1, tail);
        let item = &list[i];
        add_item(code, item, places, data_start, out_at, here, reached)?;
        reached = item_falls_through(item, here);
    }
    Ok(())
}

/// The cells of a definition, at the end of the code.
pub(crate) fn add_body(
    code: &mut Vec<u16>,
    body: &Items,
    places: &Places,
    data_start: u16,
) -> Result<(), AllocError>
    requires places { ArePlaces places.now }
    requires start { data_start ≤ 16000 }
    requires laid_out { everywhere (is_laid_out true (word_count places.now) (definition_count places.now)) (tree_of body.now) ≡ true }
    requires room { length code.old.items + body_size (tree_of body.now) ≤ 8000 }
    ensures { OnOk result (code.new.items ≡ code.old.items ++ body_cells data_start (place_by places.now) (length code.old.items) (tree_of body.now)) }
{
    add_items(code, body, places, data_start, 0, true)?;
    add_return(code, end_is_reached(body, true))
}
