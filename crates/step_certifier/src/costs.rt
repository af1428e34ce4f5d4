// What items cost: a ceiling on the price of what they do, whichever way they go.
ghost use Rattle.std.specs.Prelude.{◌≡◌, ℕ, ◌+◌, ◌*◌, slice_index_or};
ghost use Rattle.word_table.specs.Table.{entry_of};
ghost use Rattle.forth_program.specs.ItemTrees.{node_of, nodes_of, tree_of, arms_tree};
ghost use Rattle.forth_program.specs.Price.{turn_price as price_of_turn};
ghost use Rattle.step_certifier.specs.Capped.{capped};
ghost use Rattle.step_certifier.specs.Cost.{Other, known_count, loop_turns as turns_of_loop, or_none, entered_turns, true_end, text_cost as cost_of_text, node_cost, cost, tests_cost as cost_of_tests, greatest_end as greatest_of_ends};
ghost use Rattle.step_certifier.specs.Views.{last_of};

use crate::capped::{greater, product, sum};
use crate::last::Last;
use crate::parts::{case_has_parts, do_has_parts, if_has_parts, q_do_has_parts};
use crate::refusals::{after, loop_turns};
use forth_program::{DefId, Item, Items, TextKind};
use word_table::{Word, entry};

/// The count of a word, or 0 where it is not known.
fn counted(last: Last, word: Word) -> u64
    ensures { result ≡ or_none (known_count word (last_of last)) }
{
    match last.known_count(word) {
        Some(count) => u64::from(count),
        None => 0,
    }
}

/// A word, by its count.
fn word_cost(last: Last, word: Word) -> u64
    ensures { result ≡ capped ((entry_of word).base + (entry_of word).per * or_none (known_count word (last_of last))) }
{
    let row = entry(word);
    sum(u64::from(row.base), product(row.per, counted(last, word)))
}

/// A text, `ABORT"` with a true flag.
fn text_cost(kind: TextKind, size: u16) -> u64
    ensures { result ≡ capped (cost_of_text kind size) }
{
    match kind {
        TextKind::Address => 2,
        TextKind::Print => 42 + 80 * u64::from(size),
        TextKind::Abort => 40 + 80 * u64::from(size),
    }
}

/// The items of a definition and its end.
fn called_cost(known: &[u64], definition: DefId) -> u64
    ensures { result ≡ capped (slice_index_or known.now definition.0 0 + 1) }
{
    match known.get(definition.0 as usize) {
        Some(cost) => sum(*cost, 1),
        None => 1,
    }
}

/// The end of a true branch, where the false one has items.
fn true_end(second: &Items) -> u64
    ensures { result ≡ capped (true_end (tree_of second.now)) }
{
    if second.list().is_empty() { 0 } else { 1 }
}

/// The turns of a loop.
fn known_turns(last: Last, body: &Items, plus: bool) -> u32
    ensures { result ≡ or_none (turns_of_loop (last_of last) (tree_of body.now) plus) }
{
    match loop_turns(last, body, plus) {
        Some(turns) => turns,
        None => 0,
    }
}

/// `?DO` makes no turn where the literals are equal.
fn entered(last: Last, turns: u32) -> u32
    ensures { result ≡ entered_turns (last_of last) turns }
{
    match last {
        Last::Two(limit, start) => { if limit == start { 0 } else { turns } }
        Last::Other => turns,
        Last::One(_) => turns,
        Last::TextSize(_) => turns,
    }
}

/// One turn by `LOOP`, or by `+LOOP`.
fn turn_price(plus: bool) -> u64
    ensures { result ≡ capped (price_of_turn plus) }
{
    if plus { 24 } else { 12 }
}

#[cycle(costs)]
fn item_cost(known: &[u64], last: Last, item: &Item) -> u64
    ensures { result ≡ capped (node_cost known.now (last_of last) (node_of item.now)) }
{
    match item {
        Item::Literal(_) => 2,
        Item::Word(word) => word_cost(last, *word),
        Item::Call(definition) => sum(1, called_cost(known, *definition)),
        Item::Child(definition, _) => sum(2, called_cost(known, *definition)),
        Item::Text(kind, _, size) => text_cost(*kind, *size),
        Item::If(first, second) => {
            if_has_parts(item, first, second);
            let on_true = sum(items_cost(known, first.list()), true_end(second));
            sum(1, greater(on_true, items_cost(known, second.list())))
        }
        Item::Do(body, plus) => {
            do_has_parts(item, body, *plus);
            let turn = sum(turn_price(*plus), items_cost(known, body.list()));
            sum(8, product(known_turns(last, body, *plus), turn))
        }
        Item::QDo(body, plus) => {
            q_do_has_parts(item, body, *plus);
            let turns = entered(last, known_turns(last, body, *plus));
            let turn = sum(turn_price(*plus), items_cost(known, body.list()));
            sum(12, product(turns, turn))
        }
        Item::Case(arms, rest) => {
            case_has_parts(item, arms, rest);
            let last_items = items_cost(known, rest.list());
            let ends = sum(1, greatest_end(known, arms.list(), last_items));
            sum(tests_cost(known, arms.list()), ends)
        }
        Item::Leave => 5,
        Item::Exit => 1,
        Item::Until(_) => 0,
        Item::While(_, _) => 0,
        Item::Again(_) => 0,
    }
}

/// The cost of items, where the earlier definitions cost so much.
#[cycle(costs)]
pub(crate) fn items_cost(known: &[u64], items: &[Item]) -> u64
    ensures { result ≡ capped (cost known.now Other (nodes_of items.now)) }
{
    let mut last = Last::Other;
    let mut total = 0;
    for item in items {
        total = sum(total, item_cost(known, last, item));
        last = after(last, item);
    }
    total
}

/// The tests of all arms, with `OF`.
#[cycle(costs)]
fn tests_cost(known: &[u64], arms: &[(Items, Items)]) -> u64
    ensures { result ≡ capped (cost_of_tests known.now (arms_tree arms.now)) }
{
    let mut total = 0;
    for arm in arms {
        total = sum(total, sum(items_cost(known, arm.0.list()), 4));
    }
    total
}

/// The greatest of the bodies and the last items.
#[cycle(costs)]
fn greatest_end(known: &[u64], arms: &[(Items, Items)], last_items: u64) -> u64
    ensures { (x : ℕ) → last_items ≡ capped x → result ≡ capped (greatest_of_ends known.now (arms_tree arms.now) x) }
{
    let mut greatest = last_items;
    for arm in arms {
        greatest = greater(greatest, items_cost(known, arm.1.list()));
    }
    greatest
}
