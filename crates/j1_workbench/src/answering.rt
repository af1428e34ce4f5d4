// The answer of each command.
ghost use Rattle.std.specs.Prelude.{◌≡◌, Option};
ghost use Rattle.j1_workbench.specs.Words.{asked, steps_allowed};
ghost use Rattle.j1_workbench.specs.Notes.{named};
ghost use Rattle.j1_workbench.specs.Surroundings.{folder, stream, surroundings};
ghost use Rattle.j1_workbench.specs.Answers.{Does};

use crate::answer::{Answer, answered};
use crate::assembling::assemble_file;
use crate::bounding::bound;
use crate::building::build;
use crate::certifying::certify;
use crate::evaluating::evaluate_source;
use crate::executing::execute;
use crate::listing_image::list;
use crate::making::make;
use crate::networking::net;
use crate::running::run;
use crate::serving::{serve, session_steps};
use crate::status::Status;
use crate::tracing::{trace_image, trace_steps};
use crate::words::{Command, command_of};
use crate::writing_kernel::write_kernel;
use crate::writing_memory::write_memory;
use outside_io::{Folder, Sink, Source};
use std::alloc::Global;

// How many instructions a run may make, and how many word steps an evaluation.
#[tactic(auto, unfolding(crate::specs::Words::steps_allowed))]
fn steps_allowed(steps: Option<u32>) -> u64
    ensures { result ≡ steps_allowed steps }
{
    match steps {
        None => 10_000_000,
        Some(steps) => u64::from(steps),
    }
}

/// Does what the words of a command line ask for, but for the note.
#[tactic(auto, using(crate::proofs::Commands::does_nothing, crate::proofs::Commands::does_run, crate::proofs::Commands::does_certify, crate::proofs::Commands::does_bound, crate::proofs::Commands::does_evaluate, crate::proofs::Commands::does_execute))]
pub fn answer<F: Folder, C: Source, O: Sink>(
    alloc: Global,
    words: &[String],
    files: &mut F,
    console: &mut C,
    out: &mut O,
) -> Answer
    ensures { let before = surroundings (folder (F.files files.old) (F.calls files.old) (F.read_faults files.old) (F.write_faults files.old) (F.absences files.old))
        (stream (C.left console.old) (C.calls console.old) (C.faults console.old)) (stream (O.held out.old) (O.calls out.old) (O.faults out.old)) in
        let after = surroundings (folder (F.files files.new) (F.calls files.new) (F.read_faults files.new) (F.write_faults files.new) (F.absences files.new))
        (stream (C.left console.new) (C.calls console.new) (C.faults console.new)) (stream (O.held out.new) (O.calls out.new) (O.faults out.new)) in
        Does (asked words.now) before after result.status (named result.name) }
{
    match command_of(words) {
        None => answered(Status::BadWords),
        Some(Command::Run { source, steps }) => {
            run(alloc, source, steps_allowed(steps), files, console, out)
        }
        Some(Command::Certify { source }) => certify(alloc, source, files, out),
        Some(Command::Bound { source }) => bound(alloc, source, files, out),
        Some(Command::Net { file }) => net(alloc, file, files, out),
        Some(Command::Build { source, image }) => build(alloc, source, image, files),
        Some(Command::Execute { image, steps }) => {
            let steps = steps_allowed(steps);
            answered(execute(alloc, image, steps, files, console, out))
        }
        Some(Command::ListImage { image }) => answered(list(alloc, image, files, out)),
        Some(Command::Assemble { listing, image }) => {
            answered(assemble_file(alloc, listing, image, files))
        }
        Some(Command::Evaluate { source, steps }) => {
            evaluate_source(alloc, source, steps_allowed(steps), files, console, out)
        }
        Some(Command::Forth { steps }) => {
            answered(serve(alloc, session_steps(steps), console, out))
        }
        Some(Command::Make { seed, count }) => {
            make(alloc, seed, count, steps_allowed(None), out)
        }
        Some(Command::WriteMemory { image, text }) => {
            answered(write_memory(alloc, image, text, files))
        }
        Some(Command::WriteKernel { image }) => answered(write_kernel(alloc, image, files)),
        Some(Command::Trace { image, steps }) => {
            let steps = trace_steps(steps);
            answered(trace_image(alloc, image, steps, files, console, out))
        }
    }
}
