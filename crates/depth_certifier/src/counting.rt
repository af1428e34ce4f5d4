// How many loops a program has, and whether it has EXECUTE.
ghost use Rattle.std.specs.Prelude.{◌≡◌, ◌+◌};
ghost use Rattle.forth_program.specs.ItemTrees.{node_of, nodes_of, arms_tree};
ghost use Rattle.depth_certifier.specs.Certificate.{loops, loops_in, loops_in_arms};
ghost use Rattle.depth_certifier.specs.Counting.{all_loops, CountIs, execute_in, execute_within, execute_in_arms, is_execute_word, uses_execute as execute_is_used};

use crate::parts::{
    again_has_parts, case_has_parts, do_has_parts, if_has_parts, query_do_has_parts,
    until_has_parts, while_has_parts,
};
use forth_program::{DefId, Item, Items, Program};
use word_table::Word;

// The loops of an item, added to a count.
#[cycle(loops)]
fn add_loops_of(item: &Item, count: usize) -> Option<usize>
    ensures { CountIs result (count + loops_in (node_of item.now)) }
{
    match item {
        Item::If(first, second) => {
            if_has_parts(item, first, second);
            add_loops(second.list(), add_loops(first.list(), count)?)
        }
        Item::Until(body) => {
            until_has_parts(item, body);
            add_loops(body.list(), count.checked_add(1)?)
        }
        Item::While(test, body) => {
            while_has_parts(item, test, body);
            add_loops(body.list(), add_loops(test.list(), count.checked_add(1)?)?)
        }
        Item::Do(body, plus) => {
            do_has_parts(item, body, *plus);
            add_loops(body.list(), count.checked_add(1)?)
        }
        Item::Again(body) => {
            again_has_parts(item, body);
            add_loops(body.list(), count.checked_add(1)?)
        }
        Item::QDo(body, plus) => {
            query_do_has_parts(item, body, *plus);
            add_loops(body.list(), count.checked_add(1)?)
        }
        Item::Case(arms, rest) => {
            case_has_parts(item, arms, rest);
            add_loops(rest.list(), add_loops_of_arms(arms.list(), count)?)
        }
        Item::Literal(_) => Some(count),
        Item::Word(_) => Some(count),
        Item::Call(_) => Some(count),
        Item::Child(_, _) => Some(count),
        Item::Text(_, _, _) => Some(count),
        Item::Leave => Some(count),
        Item::Exit => Some(count),
    }
}

// The loops of items, added to a count.
#[cycle(loops)]
fn add_loops(items: &[Item], count: usize) -> Option<usize>
    ensures { CountIs result (count + loops (nodes_of items.now)) }
{
    let mut total = count;
    for item in items {
        total = add_loops_of(item, total)?;
    }
    Some(total)
}

// The loops of the arms of a case, added to a count.
#[cycle(loops)]
fn add_loops_of_arms(arms: &[(Items, Items)], count: usize) -> Option<usize>
    ensures { CountIs result (count + loops_in_arms (arms_tree arms.now)) }
{
    let mut total = count;
    for arm in arms {
        total = add_loops(arm.1.list(), add_loops(arm.0.list(), total)?)?;
    }
    Some(total)
}

/// The number of loops of a program, where a count holds it.
pub(crate) fn count_loops(program: &Program) -> Option<usize>
    ensures { CountIs result (all_loops program.now.bodies) }
{
    let mut total = 0;
    for d in 0..program.def_count() {
        total = add_loops(program.body(DefId(d)).list(), total)?;
    }
    Some(total)
}

fn is_execute(word: Word) -> bool
    ensures { result ≡ is_execute_word word }
{
    match word {
        Word::Execute => true,
        _ => false,
    }
}

// Whether EXECUTE stands in an item.
#[cycle(execute)]
fn has_execute(item: &Item) -> bool
    ensures { result ≡ execute_in (node_of item.now) }
{
    match item {
        Item::Word(word) => is_execute(*word),
        Item::If(first, second) => {
            if_has_parts(item, first, second);
            have_execute(first.list()) | have_execute(second.list())
        }
        Item::Until(body) => {
            until_has_parts(item, body);
            have_execute(body.list())
        }
        Item::While(test, body) => {
            while_has_parts(item, test, body);
            have_execute(test.list()) | have_execute(body.list())
        }
        Item::Do(body, plus) => {
            do_has_parts(item, body, *plus);
            have_execute(body.list())
        }
        Item::Again(body) => {
            again_has_parts(item, body);
            have_execute(body.list())
        }
        Item::QDo(body, plus) => {
            query_do_has_parts(item, body, *plus);
            have_execute(body.list())
        }
        Item::Case(arms, rest) => {
            case_has_parts(item, arms, rest);
            arms_have_execute(arms.list()) | have_execute(rest.list())
        }
        Item::Literal(_) => false,
        Item::Call(_) => false,
        Item::Child(_, _) => false,
        Item::Text(_, _, _) => false,
        Item::Leave => false,
        Item::Exit => false,
    }
}

// Whether it stands in one of these.
#[cycle(execute)]
fn have_execute(items: &[Item]) -> bool
    ensures { result ≡ execute_within (nodes_of items.now) }
{
    for item in items {
        if has_execute(item) {
            return true;
        }
    }
    false
}

// Whether it stands in one of the arms of a case.
#[cycle(execute)]
fn arms_have_execute(arms: &[(Items, Items)]) -> bool
    ensures { result ≡ execute_in_arms (arms_tree arms.now) }
{
    for arm in arms {
        if have_execute(arm.0.list()) | have_execute(arm.1.list()) {
            return true;
        }
    }
    false
}

/// Whether `EXECUTE` stands in a body of a program.
pub(crate) fn uses_execute(program: &Program) -> bool
    ensures { result ≡ execute_is_used program.now }
{
    for d in 0..program.def_count() {
        if have_execute(program.body(DefId(d)).list()) {
            return true;
        }
    }
    false
}
