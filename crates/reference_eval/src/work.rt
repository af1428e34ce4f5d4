// The work of a frame: what it still has to do, and what is first of it.
ghost use Rattle.std.specs.Prelude.{◌≡◌, IfOk, IsTrue, MatchOption};
ghost use Rattle.forth_program.specs.ItemTrees.{arms_tree, node_of, nodes_of};
ghost use Rattle.forth_program.specs.Step as step;
ghost use Rattle.forth_program.specs.Tree.{Case};
ghost use Rattle.reference_eval.specs.Work.{first_of, is_open, work_on, works};

use crate::stack::Stack;
use forth_program::{Item, Items, Token};
use std::alloc::AllocError;

/// Work of a frame: items that stand in the program's trees, the item of an execution token, a case of which arms are left, or a
/// mark with the loop or the case that it belongs to.
#[derive(Clone, Copy)]
pub(crate) enum Task<'a> {
    List(&'a [Item]),
    Token(Token),
    Case(&'a [(Items, Items)], &'a [Item]),
    TrueEnd,
    UntilTest(&'a [Item]),
    WhileTest(&'a [Item], &'a [Item]),
    Repeat(&'a [Item], &'a [Item]),
    BeginAgain(&'a [Item]),
    Turn(&'a [Item], bool),
    OfTest(&'a [Item], &'a [(Items, Items)], &'a [Item]),
    EndOf,
    EndCase,
}

/// What a step does first. An item is no `BEGIN` and no `CASE`: what they begin with stands in their place.
#[derive(Clone, Copy)]
pub(crate) enum First<'a> {
    BodyEnd,
    Item(&'a Item),
    Token(Token),
    TrueEnd,
    UntilTest(&'a [Item]),
    WhileTest(&'a [Item], &'a [Item]),
    Repeat(&'a [Item], &'a [Item]),
    BeginAgain(&'a [Item]),
    Turn(&'a [Item], bool),
    OfTest(&'a [Item], &'a [(Items, Items)], &'a [Item]),
    EndOf,
    EndCase,
}

// What items begin with before a mark, or `first` where there are none.
#[cycle(opening)]
fn open_among<'a>(
    items: &'a [Item],
    first: First<'a>,
    mark: Task<'a>,
    tasks: &mut Stack<Task<'a>>,
) -> Result<First<'a>, AllocError>
    requires { IsTrue (is_open first) }
    ensures first { IfOk result (λ found. step.first_among (nodes_of items.now) (first_of first.entry (works tasks.old)) (work_on mark.entry (works tasks.old)) ≡ first_of found (works tasks.new)) }
    ensures open { IfOk result (λ found. IsTrue (is_open found)) }
{
    match items.split_first() {
        None => Ok(first),
        Some((inner, rest)) => {
            tasks.push(mark)?;
            tasks.push(Task::List(rest))?;
            open(inner, tasks)
        }
    }
}

// What an item begins with.
#[cycle(opening)]
#[tactic(auto, using(crate::proofs::WorkLaws::first_until, crate::proofs::WorkLaws::first_while, crate::proofs::WorkLaws::first_again, crate::proofs::WorkLaws::first_case))]
fn open<'a>(item: &'a Item, tasks: &mut Stack<Task<'a>>) -> Result<First<'a>, AllocError>
    ensures first { IfOk result (λ found. step.first_in (node_of item.now) (works tasks.old) ≡ first_of found (works tasks.new)) }
    ensures open { IfOk result (λ found. IsTrue (is_open found)) }
{
    match item {
        Item::Until(body) => open_among(
            body.list(),
            First::UntilTest(body.list()),
            Task::UntilTest(body.list()),
            tasks,
        ),
        Item::While(test, body) => open_among(
            test.list(),
            First::WhileTest(test.list(), body.list()),
            Task::WhileTest(test.list(), body.list()),
            tasks,
        ),
        Item::Again(body) => open_among(
            body.list(),
            First::BeginAgain(body.list()),
            Task::BeginAgain(body.list()),
            tasks,
        ),
        Item::Case(arms, rest) => match arms.list().split_first() {
            None => open_among(rest.list(), First::EndCase, Task::EndCase, tasks),
            Some((arm, others)) => {
                let body = arm.1.list();
                let behind = rest.list();
                open_among(
                    arm.0.list(),
                    First::OfTest(body, others, behind),
                    Task::OfTest(body, others, behind),
                    tasks,
                )
            }
        },
        Item::Literal(_) => Ok(First::Item(item)),
        Item::Word(_) => Ok(First::Item(item)),
        Item::Call(_) => Ok(First::Item(item)),
        Item::Child(_, _) => Ok(First::Item(item)),
        Item::Text(_, _, _) => Ok(First::Item(item)),
        Item::If(_, _) => Ok(First::Item(item)),
        Item::Do(_, _) => Ok(First::Item(item)),
        Item::QDo(_, _) => Ok(First::Item(item)),
        Item::Leave => Ok(First::Item(item)),
        Item::Exit => Ok(First::Item(item)),
    }
}

// What a case begins with.
fn open_case<'a>(
    arms: &'a [(Items, Items)],
    rest: &'a [Item],
    tasks: &mut Stack<Task<'a>>,
) -> Result<First<'a>, AllocError>
    ensures first { IfOk result (λ found. step.first_in (Case (arms_tree arms.now) (nodes_of rest.now)) (works tasks.old) ≡ first_of found (works tasks.new)) }
    ensures open { IfOk result (λ found. IsTrue (is_open found)) }
{
    match arms.split_first() {
        None => open_among(rest, First::EndCase, Task::EndCase, tasks),
        Some((arm, others)) => open_among(
            arm.0.list(),
            First::OfTest(arm.1.list(), others, rest),
            Task::OfTest(arm.1.list(), others, rest),
            tasks,
        ),
    }
}

// What a task begins with, or nothing where it is a list with no items.
fn first_of_task<'a>(
    task: Task<'a>,
    tasks: &mut Stack<Task<'a>>,
) -> Result<Option<First<'a>>, AllocError>
    ensures first { IfOk result (λ found. MatchOption found (works tasks.new ≡ work_on task.entry (works tasks.old)) (λ first. step.first_work (work_on task.entry (works tasks.old)) ≡ first_of first (works tasks.new))) }
    ensures same_or_open { IfOk result (λ found. MatchOption found (tasks.new ≡ tasks.old) (λ first. IsTrue (is_open first))) }
{
    match task {
        Task::List(items) => match items.split_first() {
            None => Ok(None),
            Some((item, rest)) => {
                tasks.push(Task::List(rest))?;
                let first = open(item, tasks)?;
                Ok(Some(first))
            }
        },
        Task::Case(arms, rest) => {
            let first = open_case(arms, rest, tasks)?;
            Ok(Some(first))
        }
        Task::Token(token) => Ok(Some(First::Token(token))),
        Task::TrueEnd => Ok(Some(First::TrueEnd)),
        Task::UntilTest(body) => Ok(Some(First::UntilTest(body))),
        Task::WhileTest(test, body) => Ok(Some(First::WhileTest(test, body))),
        Task::Repeat(test, body) => Ok(Some(First::Repeat(test, body))),
        Task::BeginAgain(body) => Ok(Some(First::BeginAgain(body))),
        Task::Turn(body, plus) => Ok(Some(First::Turn(body, plus))),
        Task::OfTest(body, others, rest) => Ok(Some(First::OfTest(body, others, rest))),
        Task::EndOf => Ok(Some(First::EndOf)),
        Task::EndCase => Ok(Some(First::EndCase)),
    }
}

/// Takes off what is first.
pub(crate) fn take_first<'a>(tasks: &mut Stack<Task<'a>>) -> Result<First<'a>, AllocError>
    ensures first { IfOk result (λ found. step.first_work (works tasks.old) ≡ first_of found (works tasks.new)) }
    ensures open { IfOk result (λ found. IsTrue (is_open found)) }
{
    while let Some(task) = tasks.pop() {
        if let Some(first) = first_of_task(task, tasks)? {
            return Ok(first);
        }
    }
    Ok(First::BodyEnd)
}

/// Drops the work up to and with the innermost turn.
pub(crate) fn leave_loop(tasks: &mut Stack<Task>)
    ensures { works tasks.new ≡ step.after_loop (works tasks.old) }
{
    while let Some(task) = tasks.pop() {
        if let Task::Turn(_, _) = task {
            return;
        }
    }
}
