// `eval`: a source is evaluated on the console and out.
ghost use Rattle.std.specs.Prelude.{◌≡◌};
ghost use Rattle.j1_workbench.specs.Notes.{named};
ghost use Rattle.j1_workbench.specs.Surroundings.{folder, stream, surroundings};
ghost use Rattle.j1_workbench.specs.Evaluating.{Evaluates, status_after};

use crate::answer::{Answer, answered};
use crate::reading::read_source;
use crate::status::Status;
use control_flow::programs_are_sources;
use outside_io::{Folder, Sink, Source};
use reference_eval::{End, EvalError, EvalFinish, evaluate};
use std::alloc::Global;

// The status of an evaluation.
fn status_after(evaluated: Result<EvalFinish, EvalError>) -> Status
    ensures { result ≡ status_after evaluated }
{
    match evaluated {
        Ok(EvalFinish::Ended(End::Halted(0))) => Status::Done,
        Ok(EvalFinish::Ended(End::Halted(status))) => Status::Halted(status),
        Ok(EvalFinish::Ended(End::InputEnded)) => Status::InputEnded,
        Ok(EvalFinish::Ended(End::Outside(address))) => Status::Outside(address),
        Ok(EvalFinish::StepsUsed) => Status::StepsUsed,
        Ok(EvalFinish::Underflow) => Status::Underflow,
        Ok(EvalFinish::Unbalanced) => Status::Unbalanced,
        Err(EvalError::Read) => Status::ReadFault,
        Err(EvalError::Write) => Status::WriteFault,
        Err(EvalError::OutOfMemory) => Status::OutOfMemory,
    }
}

/// Evaluates a source file on the console and out, certified or not, for at most `steps` word steps.
pub fn evaluate_source<F: Folder, C: Source, O: Sink>(
    alloc: Global,
    source: &str,
    steps: u64,
    files: &mut F,
    console: &mut C,
    out: &mut O,
) -> Answer
    ensures { let before = surroundings (folder (F.files files.old) (F.calls files.old) (F.read_faults files.old) (F.write_faults files.old) (F.absences files.old))
        (stream (C.left console.old) (C.calls console.old) (C.faults console.old)) (stream (O.held out.old) (O.calls out.old) (O.faults out.old)) in
        let after = surroundings (folder (F.files files.new) (F.calls files.new) (F.read_faults files.new) (F.write_faults files.new) (F.absences files.new))
        (stream (C.left console.new) (C.calls console.new) (C.faults console.new)) (stream (O.held out.new) (O.calls out.new) (O.faults out.new)) in
        Evaluates source.now steps before after result.status (named result.name) }
{
    programs_are_sources();
    let program = match read_source(alloc, source, files) {
        Ok(program) => program,
        Err(answer) => return answer,
    };
    answered(status_after(evaluate(alloc, &program, console, out, steps)))
}
