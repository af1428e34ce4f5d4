// Items are walked, in the order of the source.
ghost use Rattle.std.specs.Prelude.{◌≡◌, ◌+◌, length, OnOk};
ghost use Rattle.forth_program.specs.Tree.{If, Until, While, Again, Do, QDo, Arm};
ghost use Rattle.forth_program.specs.ItemTrees.{node_of, tree_of, arms_tree};
ghost use Rattle.depth_certifier.specs.Certificate.{loops, loops_in, loops_in_arms, SharedInterval};
ghost use Rattle.depth_certifier.specs.Notes.{walk_in, RoomFor};
ghost use Rattle.depth_certifier.specs.Walks.{StepOf, EffectsKeep, HeadsKeep, item_step, items_step, arms_step};

use crate::closing::{close_loop, close_query_loop, entries_at, turn_word};
use crate::demands::{call_demand, of_demand, table_demand};
use crate::effect::{CertCause, Effect};
use crate::facts::Facts;
use crate::follow::Next;
use crate::following::{branch_next, next_at};
use crate::joining::zero_way;
use crate::noting::{decide, end, enter, go_back, join, take};
use crate::parts::{
    again_has_parts, case_has_parts, do_has_parts, if_has_parts, query_do_has_parts,
    until_has_parts, while_has_parts,
};
use crate::place::{EntryChange, Reach};
use crate::shape::Entries;
use crate::single::{text_word, walk_child, walk_leave, walk_word};
use crate::walker::Walker;
use forth_program::{Item, Items};
use word_table::Word;

#[cycle(walking)]
fn walk_if(
    walker: &mut Walker,
    notes: &mut [(i8, i8)],
    facts: Facts,
    effects: &[Effect],
    heads: &[(i8, i8)],
    top: Option<Entries>,
    next: Next,
    first: &Items,
    second: &Items,
) -> Result<(), CertCause>
    requires effects { EffectsKeep effects.now }
    requires heads { HeadsKeep heads.now }
    requires shared { SharedInterval facts.shared.exit }
    requires room { RoomFor facts.finding walker.old.count (loops (tree_of first.now) + loops (tree_of second.now)) notes.old }
    ensures step { StepOf result (item_step facts effects.now heads.now top next (If (tree_of first.now) (tree_of second.now)) (walk_in facts.finding notes.old walker.old)) (walk_in facts.finding notes.new walker.new) }
    ensures count { OnOk result (walker.new.count ≡ walker.old.count + (loops (tree_of first.now) + loops (tree_of second.now))) }
    ensures length { length notes.new ≡ length notes.old }
{
    let from = walker.place;
    let inner = branch_next(next);
    decide(walker, notes, facts)?;
    let on_true = walker.place;
    walk_items(walker, notes, facts, effects, heads, top, inner, first)?;
    let joined = walker.place;
    walker.place = zero_way(from, on_true);
    walk_items(walker, notes, facts, effects, heads, top, inner, second)?;
    join(walker, notes, facts, joined)
}

#[cycle(walking)]
fn walk_until(
    walker: &mut Walker,
    notes: &mut [(i8, i8)],
    facts: Facts,
    effects: &[Effect],
    heads: &[(i8, i8)],
    top: Option<Entries>,
    next: Next,
    body: &Items,
) -> Result<(), CertCause>
    requires effects { EffectsKeep effects.now }
    requires heads { HeadsKeep heads.now }
    requires shared { SharedInterval facts.shared.exit }
    requires room { RoomFor facts.finding walker.old.count (1 + loops (tree_of body.now)) notes.old }
    ensures step { StepOf result (item_step facts effects.now heads.now top next (Until (tree_of body.now)) (walk_in facts.finding notes.old walker.old)) (walk_in facts.finding notes.new walker.new) }
    ensures count { OnOk result (walker.new.count ≡ walker.old.count + (1 + loops (tree_of body.now))) }
    ensures length { length notes.new ≡ length notes.old }
{
    enter(walker, notes, facts, heads)?;
    let head = walker.place;
    walk_items(walker, notes, facts, effects, heads, top, Next::More, body)?;
    take(
        walker,
        notes,
        facts,
        table_demand(Word::Until),
        EntryChange::Keep,
    )?;
    go_back(walker, notes, facts, head)
}

#[cycle(walking)]
fn walk_while(
    walker: &mut Walker,
    notes: &mut [(i8, i8)],
    facts: Facts,
    effects: &[Effect],
    heads: &[(i8, i8)],
    top: Option<Entries>,
    next: Next,
    test: &Items,
    body: &Items,
) -> Result<(), CertCause>
    requires effects { EffectsKeep effects.now }
    requires heads { HeadsKeep heads.now }
    requires shared { SharedInterval facts.shared.exit }
    requires room { RoomFor facts.finding walker.old.count (1 + loops (tree_of test.now) + loops (tree_of body.now)) notes.old }
    ensures step { StepOf result (item_step facts effects.now heads.now top next (While (tree_of test.now) (tree_of body.now)) (walk_in facts.finding notes.old walker.old)) (walk_in facts.finding notes.new walker.new) }
    ensures count { OnOk result (walker.new.count ≡ walker.old.count + (1 + loops (tree_of test.now) + loops (tree_of body.now))) }
    ensures length { length notes.new ≡ length notes.old }
{
    enter(walker, notes, facts, heads)?;
    let head = walker.place;
    walk_items(walker, notes, facts, effects, heads, top, Next::Flag, test)?;
    let tested = walker.place;
    decide(walker, notes, facts)?;
    let on_true = walker.place;
    walk_items(walker, notes, facts, effects, heads, top, Next::More, body)?;
    go_back(walker, notes, facts, head)?;
    walker.place = zero_way(tested, on_true);
    Ok(())
}

#[cycle(walking)]
fn walk_again(
    walker: &mut Walker,
    notes: &mut [(i8, i8)],
    facts: Facts,
    effects: &[Effect],
    heads: &[(i8, i8)],
    top: Option<Entries>,
    next: Next,
    body: &Items,
) -> Result<(), CertCause>
    requires effects { EffectsKeep effects.now }
    requires heads { HeadsKeep heads.now }
    requires shared { SharedInterval facts.shared.exit }
    requires room { RoomFor facts.finding walker.old.count (1 + loops (tree_of body.now)) notes.old }
    ensures step { StepOf result (item_step facts effects.now heads.now top next (Again (tree_of body.now)) (walk_in facts.finding notes.old walker.old)) (walk_in facts.finding notes.new walker.new) }
    ensures count { OnOk result (walker.new.count ≡ walker.old.count + (1 + loops (tree_of body.now))) }
    ensures length { length notes.new ≡ length notes.old }
{
    enter(walker, notes, facts, heads)?;
    let head = walker.place;
    walk_items(walker, notes, facts, effects, heads, top, Next::More, body)?;
    go_back(walker, notes, facts, head)?;
    walker.place = Reach::Unreachable;
    Ok(())
}

#[cycle(walking)]
fn walk_do(
    walker: &mut Walker,
    notes: &mut [(i8, i8)],
    facts: Facts,
    effects: &[Effect],
    heads: &[(i8, i8)],
    top: Option<Entries>,
    next: Next,
    body: &Items,
    plus: bool,
) -> Result<(), CertCause>
    requires effects { EffectsKeep effects.now }
    requires heads { HeadsKeep heads.now }
    requires shared { SharedInterval facts.shared.exit }
    requires room { RoomFor facts.finding walker.old.count (1 + loops (tree_of body.now)) notes.old }
    ensures step { StepOf result (item_step facts effects.now heads.now top next (Do (tree_of body.now) plus) (walk_in facts.finding notes.old walker.old)) (walk_in facts.finding notes.new walker.new) }
    ensures count { OnOk result (walker.new.count ≡ walker.old.count + (1 + loops (tree_of body.now))) }
    ensures length { length notes.new ≡ length notes.old }
{
    let outer = walker.leaves;
    take(
        walker,
        notes,
        facts,
        table_demand(Word::Do),
        EntryChange::PushLoop,
    )?;
    walker.leaves = Reach::Unreachable;
    enter(walker, notes, facts, heads)?;
    let head = walker.place;
    walk_items(
        walker,
        notes,
        facts,
        effects,
        heads,
        entries_at(head),
        Next::More,
        body,
    )?;
    close_loop(walker, notes, facts, turn_word(plus), head, outer)
}

#[cycle(walking)]
fn walk_query_do(
    walker: &mut Walker,
    notes: &mut [(i8, i8)],
    facts: Facts,
    effects: &[Effect],
    heads: &[(i8, i8)],
    top: Option<Entries>,
    next: Next,
    body: &Items,
    plus: bool,
) -> Result<(), CertCause>
    requires effects { EffectsKeep effects.now }
    requires heads { HeadsKeep heads.now }
    requires shared { SharedInterval facts.shared.exit }
    requires room { RoomFor facts.finding walker.old.count (1 + loops (tree_of body.now)) notes.old }
    ensures step { StepOf result (item_step facts effects.now heads.now top next (QDo (tree_of body.now) plus) (walk_in facts.finding notes.old walker.old)) (walk_in facts.finding notes.new walker.new) }
    ensures count { OnOk result (walker.new.count ≡ walker.old.count + (1 + loops (tree_of body.now))) }
    ensures length { length notes.new ≡ length notes.old }
{
    let outer = walker.leaves;
    take(
        walker,
        notes,
        facts,
        table_demand(Word::QDo),
        EntryChange::PushLoop,
    )?;
    let began = walker.place;
    walker.leaves = Reach::Unreachable;
    enter(walker, notes, facts, heads)?;
    let head = walker.place;
    walk_items(
        walker,
        notes,
        facts,
        effects,
        heads,
        entries_at(head),
        Next::More,
        body,
    )?;
    close_query_loop(walker, notes, facts, turn_word(plus), head, began, outer)
}

// An arm of a case, with the others and the last items.
#[cycle(walking)]
fn walk_arm(
    walker: &mut Walker,
    notes: &mut [(i8, i8)],
    facts: Facts,
    effects: &[Effect],
    heads: &[(i8, i8)],
    top: Option<Entries>,
    next: Next,
    tests: &Items,
    body: &Items,
    others: &[(Items, Items)],
    rest: &Items,
) -> Result<(), CertCause>
    requires effects { EffectsKeep effects.now }
    requires heads { HeadsKeep heads.now }
    requires shared { SharedInterval facts.shared.exit }
    requires room { RoomFor facts.finding walker.old.count (loops (tree_of tests.now) + loops (tree_of body.now) + loops_in_arms (arms_tree others.now) + loops (tree_of rest.now)) notes.old }
    ensures step { StepOf result (arms_step facts effects.now heads.now top next (Arm (tree_of tests.now) (tree_of body.now) (arms_tree others.now)) (tree_of rest.now) (walk_in facts.finding notes.old walker.old)) (walk_in facts.finding notes.new walker.new) }
    ensures count { OnOk result (walker.new.count ≡ walker.old.count + (loops (tree_of tests.now) + loops (tree_of body.now) + loops_in_arms (arms_tree others.now) + loops (tree_of rest.now))) }
    ensures length { length notes.new ≡ length notes.old }
{
    walk_items(walker, notes, facts, effects, heads, top, Next::More, tests)?;
    let from = walker.place;
    take(walker, notes, facts, of_demand(-1), EntryChange::Keep)?;
    let on_other = walker.place;
    walker.place = from;
    take(walker, notes, facts, of_demand(-2), EntryChange::Keep)?;
    walk_items(walker, notes, facts, effects, heads, top, next, body)?;
    let joined = walker.place;
    walker.place = on_other;
    walk_arms(
        walker, notes, facts, effects, heads, top, next, others, rest,
    )?;
    join(walker, notes, facts, joined)
}

// The arms of a case, and its last items.
#[cycle(walking)]
fn walk_arms(
    walker: &mut Walker,
    notes: &mut [(i8, i8)],
    facts: Facts,
    effects: &[Effect],
    heads: &[(i8, i8)],
    top: Option<Entries>,
    next: Next,
    arms: &[(Items, Items)],
    rest: &Items,
) -> Result<(), CertCause>
    requires effects { EffectsKeep effects.now }
    requires heads { HeadsKeep heads.now }
    requires shared { SharedInterval facts.shared.exit }
    requires room { RoomFor facts.finding walker.old.count (loops_in_arms (arms_tree arms.now) + loops (tree_of rest.now)) notes.old }
    ensures step { StepOf result (arms_step facts effects.now heads.now top next (arms_tree arms.now) (tree_of rest.now) (walk_in facts.finding notes.old walker.old)) (walk_in facts.finding notes.new walker.new) }
    ensures count { OnOk result (walker.new.count ≡ walker.old.count + (loops_in_arms (arms_tree arms.now) + loops (tree_of rest.now))) }
    ensures length { length notes.new ≡ length notes.old }
{
    match arms.split_first() {
        None => {
            walk_items(walker, notes, facts, effects, heads, top, Next::More, rest)?;
            take(
                walker,
                notes,
                facts,
                table_demand(Word::EndCase),
                EntryChange::Keep,
            )
        }
        Some((arm, others)) => {
            walk_arm(
                walker, notes, facts, effects, heads, top, next, &arm.0, &arm.1, others, rest,
            )
        }
    }
}

#[cycle(walking)]
fn walk_item(
    walker: &mut Walker,
    notes: &mut [(i8, i8)],
    facts: Facts,
    effects: &[Effect],
    heads: &[(i8, i8)],
    top: Option<Entries>,
    next: Next,
    item: &Item,
) -> Result<(), CertCause>
    requires effects { EffectsKeep effects.now }
    requires heads { HeadsKeep heads.now }
    requires shared { SharedInterval facts.shared.exit }
    requires room { RoomFor facts.finding walker.old.count (loops_in (node_of item.now)) notes.old }
    ensures step { StepOf result (item_step facts effects.now heads.now top next (node_of item.now) (walk_in facts.finding notes.old walker.old)) (walk_in facts.finding notes.new walker.new) }
    ensures count { OnOk result (walker.new.count ≡ walker.old.count + loops_in (node_of item.now)) }
    ensures length { length notes.new ≡ length notes.old }
{
    match item {
        Item::Literal(_) => {
            take(
                walker,
                notes,
                facts,
                table_demand(Word::Literal),
                EntryChange::Keep,
            )
        }
        Item::Word(word) => walk_word(walker, notes, facts, effects, heads, top, next, *word),
        Item::Call(id) => take(
            walker,
            notes,
            facts,
            call_demand(effects, *id, next),
            EntryChange::Keep,
        ),
        Item::Child(id, address) => {
            walk_child(
                walker, notes, facts, effects, heads, top, next, *id, *address,
            )
        },
        Item::Text(kind, _, _) => {
            take(
                walker,
                notes,
                facts,
                table_demand(text_word(*kind)),
                EntryChange::Keep,
            )
        }
        Item::If(first, second) => {
            if_has_parts(item, first, second);
            walk_if(
                walker, notes, facts, effects, heads, top, next, first, second,
            )
        }
        Item::Until(body) => {
            until_has_parts(item, body);
            walk_until(walker, notes, facts, effects, heads, top, next, body)
        }
        Item::While(test, body) => {
            while_has_parts(item, test, body);
            walk_while(walker, notes, facts, effects, heads, top, next, test, body)
        }
        Item::Again(body) => {
            again_has_parts(item, body);
            walk_again(walker, notes, facts, effects, heads, top, next, body)
        }
        Item::Do(body, plus) => {
            do_has_parts(item, body, *plus);
            walk_do(walker, notes, facts, effects, heads, top, next, body, *plus)
        }
        Item::QDo(body, plus) => {
            query_do_has_parts(item, body, *plus);
            walk_query_do(walker, notes, facts, effects, heads, top, next, body, *plus)
        }
        Item::Case(arms, rest) => {
            case_has_parts(item, arms, rest);
            walk_arms(
                walker,
                notes,
                facts,
                effects,
                heads,
                top,
                branch_next(next),
                arms.list(),
                rest,
            )
        }
        Item::Leave => walk_leave(walker, notes, facts, effects, heads, top, next),
        Item::Exit => end(walker, notes, facts),
    }
}

/// Items one after the other, before what is next. `top` has the entries of the head of the loop around them.
#[cycle(walking)]
pub(crate) fn walk_items(
    walker: &mut Walker,
    notes: &mut [(i8, i8)],
    facts: Facts,
    effects: &[Effect],
    heads: &[(i8, i8)],
    top: Option<Entries>,
    next: Next,
    items: &Items,
) -> Result<(), CertCause>
    requires effects { EffectsKeep effects.now }
    requires heads { HeadsKeep heads.now }
    requires shared { SharedInterval facts.shared.exit }
    requires room { RoomFor facts.finding walker.old.count (loops (tree_of items.now)) notes.old }
    ensures step { StepOf result (items_step facts effects.now heads.now top next (tree_of items.now) (walk_in facts.finding notes.old walker.old)) (walk_in facts.finding notes.new walker.new) }
    ensures count { OnOk result (walker.new.count ≡ walker.old.count + loops (tree_of items.now)) }
    ensures length { length notes.new ≡ length notes.old }
{
    let list = items.list();
    for at in 0..list.len() {
        let follows = next_at(next, list, at);
        walk_item(
            walker, notes, facts, effects, heads, top, follows, &list[at],
        )?;
    }
    Ok(())
}
