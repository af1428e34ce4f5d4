// One word step: items other than words, and marks.
ghost use Rattle.std.specs.Prelude.{◌≡◌, ◌∷◌, IsTrue};
ghost use Rattle.cell_math.specs.Cell as cell;
ghost use Rattle.forth_program.specs.State.{World};
ghost use Rattle.forth_program.specs.State as run;
ghost use Rattle.forth_program.specs.Step as step;
ghost use Rattle.forth_program.specs.ItemTrees.{arms_tree, node_of, nodes_of};
ghost use Rattle.reference_eval.specs.Work.{first_of, is_mark, is_structure, work_on, works};
ghost use Rattle.reference_eval.specs.Machine.{Acts, state_of};

use crate::ends::{End, Halt, Stop};
use crate::machine::{Entry, Frame, Machine};
use crate::stack::Stack;
use crate::work::{First, Task, leave_loop};
use cell_math::{add, signed};
use forth_program::{DefId, Item, Items, Program};
use std::mem;

// Whether a turn of a loop by this step crosses the boundary between the limit less one and the limit.
fn crosses(index: u16, limit: u16, by: u16) -> bool
    ensures { result ≡ step.crosses (cell.signed (cell.difference_of index limit)) (cell.signed by) }
{
    let x = i32::from(signed(index.wrapping_sub(limit)));
    let s = i32::from(signed(by));
    if s >= 0 {
        x < 0 && x + s >= 0
    } else {
        x >= 0 && x + s < 0
    }
}

impl<'a> Machine<'a> {
    // A list of items is done, and then a mark.
    fn begin(&mut self, body: &'a [Item], mark: Task<'a>) -> Result<(), Stop>
        ensures { (w : World) → Acts result (run.Goes (record (state_of self.old w) { work = step.before (nodes_of body.now) (work_on mark.entry (works self.old.tasks)) })) (state_of self.new w) }
    {
        self.tasks.push(mark)?;
        self.tasks.push(Task::List(body))?;
        Ok(())
    }

    // A definition begins, in a frame of its own.
    pub(crate) fn call(&mut self, program: &'a Program, id: DefId) -> Result<(), Stop>
        ensures { (w : World) → Acts result (run.Goes (step.called program.now id.0 (state_of self.old w))) (state_of self.new w) }
    {
        let items: &'a [Item] = if id.0 < program.def_count() {
            program.body(id).list()
        } else {
            &[]
        };
        let mut tasks = Stack::new(self.alloc);
        tasks.push(Task::List(items))?;
        let tasks = mem::replace(&mut self.tasks, tasks);
        let entries = mem::replace(&mut self.entries, Stack::new(self.alloc));
        self.callers.push(Frame { tasks, entries })?;
        Ok(())
    }

    // The end of a body, which leaves no return entry.
    fn end_body(&mut self) -> Result<(), Stop>
        ensures { (w : World) → Acts result (step.unwound (state_of self.old w).entries (state_of self.old w).callers (state_of self.old w)) (state_of self.new w) }
    {
        if let Some(_) = self.entries.pop() {
            return Err(Stop::Unbalanced);
        }
        match self.callers.pop() {
            None => Err(Stop::Halt(Halt::Ended(End::Halted(0)))),
            Some(frame) => {
                let _tasks = mem::replace(&mut self.tasks, frame.tasks);
                let _entries = mem::replace(&mut self.entries, frame.entries);
                Ok(())
            }
        }
    }

    // A turn of a loop, by a step.
    fn turn(&mut self, by: u16, body: &'a [Item], plus: bool) -> Result<(), Stop>
        ensures { (w : World) → Acts result (step.turned by (nodes_of body.now) plus (works self.old.tasks) (state_of self.old w).entries (state_of self.old w)) (state_of self.new w) }
    {
        let Some(Entry::Loop(limit, index)) = self.entries.pop() else {
            return Err(Stop::Unbalanced);
        };
        if crosses(index, limit, by) {
            return Ok(());
        }
        self.entries.push(Entry::Loop(limit, add(index, by)))?;
        self.tasks.push(Task::Turn(body, plus))?;
        self.tasks.push(Task::List(body))?;
        Ok(())
    }

    // A loop begins, where its limit and its start are there.
    fn begin_loop(&mut self, body: &'a [Item], plus: bool) -> Result<(), Stop>
        ensures { (w : World) → Acts result (step.loop_begins (nodes_of body.now) plus (works self.old.tasks) (state_of self.old w).cells (state_of self.old w)) (state_of self.new w) }
    {
        let Some(start) = self.cells.pop() else {
            return Err(Stop::Underflow);
        };
        let Some(limit) = self.cells.pop() else {
            return Err(Stop::Underflow);
        };
        self.entries.push(Entry::Loop(limit, start))?;
        self.tasks.push(Task::Turn(body, plus))?;
        self.tasks.push(Task::List(body))?;
        Ok(())
    }

    // The same, unless limit and start are equal.
    fn may_begin_loop(&mut self, body: &'a [Item], plus: bool) -> Result<(), Stop>
        ensures { (w : World) → Acts result (step.loop_may_begin (nodes_of body.now) plus (works self.old.tasks) (state_of self.old w).cells (state_of self.old w)) (state_of self.new w) }
    {
        let Some(start) = self.cells.pop() else {
            return Err(Stop::Underflow);
        };
        let Some(limit) = self.cells.pop() else {
            return Err(Stop::Underflow);
        };
        if limit == start {
            return Ok(());
        }
        self.entries.push(Entry::Loop(limit, start))?;
        self.tasks.push(Task::Turn(body, plus))?;
        self.tasks.push(Task::List(body))?;
        Ok(())
    }

    // A flag chooses a branch.
    fn choose(&mut self, first: &'a [Item], second: &'a [Item]) -> Result<(), Stop>
        ensures { (w : World) → Acts result (step.on_flag (state_of self.old w).cells (step.before (nodes_of second.now) (works self.old.tasks)) (step.before (nodes_of first.now) (step.closed_by (nodes_of second.now) (works self.old.tasks))) (state_of self.old w)) (state_of self.new w) }
    {
        let Some(flag) = self.cells.pop() else {
            return Err(Stop::Underflow);
        };
        if flag == 0 {
            self.tasks.push(Task::List(second))?;
            return Ok(());
        }
        if let Some(_) = second.split_first() {
            self.tasks.push(Task::TrueEnd)?;
        }
        self.tasks.push(Task::List(first))?;
        Ok(())
    }

    // The test of an arm of a case: its body follows where the two top cells are equal, else the other arms.
    fn test_arm(
        &mut self,
        body: &'a [Item],
        others: &'a [(Items, Items)],
        rest: &'a [Item],
    ) -> Result<(), Stop>
        ensures { (w : World) → Acts result (step.of_chooses (nodes_of body.now) (arms_tree others.now) (nodes_of rest.now) (works self.old.tasks) (state_of self.old w).cells (state_of self.old w)) (state_of self.new w) }
    {
        let Some(x) = self.cells.pop() else {
            return Err(Stop::Underflow);
        };
        let Some(y) = self.cells.pop() else {
            return Err(Stop::Underflow);
        };
        if x == y {
            return self.begin(body, Task::EndOf);
        }
        self.cells.push(y)?;
        self.tasks.push(Task::Case(others, rest))?;
        Ok(())
    }

    /// What a mark does.
    pub(crate) fn mark(&mut self, program: &'a Program, first: First<'a>) -> Result<(), Stop>
        requires { IsTrue (is_mark first) }
        ensures { (w : World) → Acts result (step.act program.now (first_of first.entry (works self.old.tasks)) (state_of self.old w)) (state_of self.new w) }
    {
        match first {
            First::BodyEnd => self.end_body(),
            First::TrueEnd | First::EndOf => Ok(()),
            First::UntilTest(body) => {
                let Some(flag) = self.cells.pop() else {
                    return Err(Stop::Underflow);
                };
                if flag != 0 {
                    return Ok(());
                }
                self.begin(body, Task::UntilTest(body))
            }
            First::WhileTest(test, body) => {
                let Some(flag) = self.cells.pop() else {
                    return Err(Stop::Underflow);
                };
                if flag == 0 {
                    return Ok(());
                }
                self.begin(body, Task::Repeat(test, body))
            }
            First::Repeat(test, body) => self.begin(test, Task::WhileTest(test, body)),
            First::BeginAgain(body) => self.begin(body, Task::BeginAgain(body)),
            First::Turn(body, plus) => {
                if !plus {
                    return self.turn(1, body, plus);
                }
                let Some(step) = self.cells.pop() else {
                    return Err(Stop::Underflow);
                };
                self.turn(step, body, plus)
            }
            First::OfTest(body, others, rest) => self.test_arm(body, others, rest),
            First::EndCase => match self.cells.pop() {
                Some(_) => Ok(()),
                None => Err(Stop::Underflow),
            },
            First::Item(_) | First::Token(_) => unreachable!(),
        }
    }

    /// What an item does that is no word and no text.
    #[tactic(auto, using(crate::proofs::StructureLaws::act_if, crate::proofs::StructureLaws::act_do, crate::proofs::StructureLaws::act_q_do))]
    pub(crate) fn structure(&mut self, program: &'a Program, item: &'a Item) -> Result<(), Stop>
        requires { IsTrue (is_structure (node_of item.now)) }
        ensures { (w : World) → Acts result (step.act program.now (step.first_in (node_of item.now) (works self.old.tasks)) (state_of self.old w)) (state_of self.new w) }
    {
        match item {
            Item::Literal(value) => {
                self.cells.push(*value)?;
                Ok(())
            }
            Item::Call(id) => self.call(program, *id),
            Item::Child(id, address) => {
                self.cells.push(*address)?;
                self.call(program, *id)
            }
            Item::If(first, second) => self.choose(first.list(), second.list()),
            Item::Do(body, plus) => self.begin_loop(body.list(), *plus),
            Item::QDo(body, plus) => self.may_begin_loop(body.list(), *plus),
            Item::Leave => {
                let Some(Entry::Loop(_, _)) = self.entries.pop() else {
                    return Err(Stop::Unbalanced);
                };
                leave_loop(&mut self.tasks);
                Ok(())
            }
            Item::Exit => self.end_body(),
            _ => unreachable!(),
        }
    }
}
