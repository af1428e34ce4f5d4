// Whole runs over a console and an output.
ghost use Rattle.std.specs.Prelude.{◌≡◌, true, [], IfOk};
ghost use Rattle.forth_program.specs.Program.{body_of};
ghost use Rattle.forth_program.specs.Form.{has_no_go};
ghost use Rattle.forth_program.specs.Step.{before};
ghost use Rattle.reference_eval.specs.Work.{works};
ghost use Rattle.reference_eval.specs.Outside.{scene, input_of};
ghost use Rattle.reference_eval.specs.Machine.{Runs};
ghost use Rattle.reference_eval.specs.Evaluation.{Evaluates, HasStayed, finish_of};

use crate::ends::{EvalError, EvalFinish, Halt, Stop};
use crate::machine::Machine;
use crate::memory::Memory;
use crate::stack::Stack;
use crate::work::Task;
use forth_program::{Program, runs_compose, sources_stay};
use outside_io::{Sink, Source};
use std::alloc::{AllocError, Global};

impl<'a> Machine<'a> {
    // A machine with MAIN's frame alone.
    fn new(alloc: Global, program: &'a Program) -> Result<Machine<'a>, AllocError>
        ensures work { IfOk result (λ machine. works machine.tasks ≡ before (body_of program.now program.now.main_body) []) }
        ensures empty { IfOk result (λ machine. (machine.entries ≡ []) × (machine.callers ≡ []) × (machine.cells ≡ [])) }
    {
        let mut tasks = Stack::new(alloc);
        tasks.push(Task::List(program.body(program.main()).list()))?;
        Ok(Machine {
            tasks,
            entries: Stack::new(alloc),
            callers: Stack::new(alloc),
            cells: Stack::new(alloc),
            alloc,
        })
    }

    // At most `k` word steps. Where a write has failed, no more are made.
    fn run<C: Source, O: Sink>(
        &mut self,
        program: &'a Program,
        k: u64,
        memory: &mut Memory,
        console: &mut C,
        out: &mut O,
    ) -> Result<(), Stop>
        ensures { Runs program.now k result self.old self.new
            (scene memory.old (input_of (C.left console.old) (C.calls console.old)) (C.faults console.old) (O.held out.old) (O.faults out.old))
            (scene memory.new (input_of (C.left console.new) (C.calls console.new)) (C.faults console.new) (O.held out.new) (O.faults out.new)) }
    {
        runs_compose();
        let mut left = k;
        while left > 0 {
            self.step(program, memory, console, out)?;
            if memory.has_failed() {
                return Err(Stop::Halt(Halt::Write));
            }
            left -= 1;
        }
        Ok(())
    }
}

// The answer of a run that came so far.
fn finish(came: Result<(), Stop>) -> Result<EvalFinish, EvalError>
    requires { HasStayed came }
    ensures { result ≡ finish_of came }
{
    match came {
        Ok(()) => Ok(EvalFinish::StepsUsed),
        Err(Stop::Halt(Halt::Ended(end))) => Ok(EvalFinish::Ended(end)),
        Err(Stop::Halt(Halt::Read)) => Err(EvalError::Read),
        Err(Stop::Halt(Halt::Write)) => Err(EvalError::Write),
        Err(Stop::Underflow) => Ok(EvalFinish::Underflow),
        Err(Stop::Unbalanced) => Ok(EvalFinish::Unbalanced),
        Err(Stop::OutOfMemory) => Err(EvalError::OutOfMemory),
        Err(Stop::Left(_)) => unreachable!(),
    }
}

/// Evaluates a program without `GO` for at most `k` word steps, with the input from `console` and what is printed going to `out`.
///
/// The console is asked for one byte, and only where the run takes one. What is printed waits in a buffer of 512 bytes, which is
/// written out before each such question, when it is full, and at the end.
///
/// `Read` and `Write` come only where the count of faults of `console` or of `out` rose. After `Read` all that was printed before
/// the byte was due has been written; after `Write` and after `OutOfMemory` `out` holds a beginning of what was printed.
pub fn evaluate<C: Source, O: Sink>(
    alloc: Global,
    program: &Program,
    console: &mut C,
    out: &mut O,
    k: u64,
) -> Result<EvalFinish, EvalError>
    requires { has_no_go program.now ≡ true }
    ensures { Evaluates program.now k result (input_of (C.left console.old) (C.calls console.old)) (input_of (C.left console.new) (C.calls console.new)) (C.faults console.old) (C.faults console.new) (O.held out.old) (O.held out.new) (O.faults out.old) (O.faults out.new) }
{
    let Ok(mut memory) = Memory::new(alloc, program) else {
        return Err(EvalError::OutOfMemory);
    };
    let Ok(mut machine) = Machine::new(alloc, program) else {
        return Err(EvalError::OutOfMemory);
    };
    let came = machine.run(program, k, &mut memory, console, out);
    memory.flush(out);
    if memory.has_failed() {
        return Err(EvalError::Write);
    }
    let _count = program.def_count();
    sources_stay();
    finish(came)
}
