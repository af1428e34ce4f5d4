// `make`: a source is made, compiled and driven, and a summary is written.
ghost use Rattle.std.specs.Prelude.{◌≡◌, ◌≤◌, IfOk};
ghost use Rattle.j1_workbench.specs.Notes.{named};
ghost use Rattle.j1_workbench.specs.Surroundings.{FolderState, Stream, stream, surroundings};
ghost use Rattle.j1_workbench.specs.Summary.{summary};
ghost use Rattle.j1_workbench.specs.Making.{ThenWrites, DrivesMade, Makes};

use crate::answer::{Answer, answered};
use crate::certifying::write_text;
use crate::compiling::compiled_text;
use crate::driving::run_image;
use crate::made_source::{add_parts, made_source};
use crate::status::Status;
use forth_program::Program;
use itoa::Buffer;
use j1_simulator::runs_only_grow;
use made_sources::{made_programs_are_certified, made_programs_halt_well, made_sources_are_read};
use outside_io::{Failed, Sink, Source};
use std::alloc::{AllocError, Global};

// A console without input, which counts how often it is asked.
#[derive(Drop)]
struct NoInput {
    calls: u64,
}

impl Source for NoInput {
    ghost use Rattle.std.specs.Prelude.{Some, []};

    ghost left = { λ _. Some [] };

    ghost calls = { λ s. s.calls };

    ghost faults = { λ _. 0 };

    fn read(&mut self, _buf: &mut [u8]) -> Result<usize, Failed> {
        self.calls = self.calls.saturating_add(1);
        Ok(0)
    }
}

// The numbers of tokens and of bytes of a source.
#[tactic(auto, unfolding(crate::specs::Summary::summary))]
fn summary(alloc: Global, program: &Program, text: &[u8]) -> Result<Vec<u8>, AllocError>
    ensures { IfOk result (λ lines. lines.items ≡ summary program.now text.now) }
{
    let mut tokens = Buffer::new();
    let mut bytes = Buffer::new();
    let parts: [&[u8]; 5] = [
        b"\ntokens ",
        tokens.format(program.source_tokens()).as_bytes(),
        b" bytes ",
        bytes.format(text.len()).as_bytes(),
        b"\n",
    ];
    let mut lines = Vec::new(alloc);
    add_parts(&mut lines, &parts)?;
    Ok(lines)
}

// Writes a text behind a run that ended as Halted(0).
fn sum_up<O: Sink>(ran: Status, text: &[u8], out: &mut O) -> Status
    ensures { ThenWrites ran (stream (O.held out.old) (O.calls out.old) (O.faults out.old)) (stream (O.held out.new) (O.calls out.new) (O.faults out.new)) text.now result }
{
    match ran {
        Status::Done => write_text(text, out),
        _ => ran,
    }
}

// Makes the source of a seed and a count, compiles it, drives its image without input for at most `steps` instructions, and
// writes the numbers of its tokens and bytes where the run ended as Halted(0).
#[tactic(auto, using(crate::proofs::Makes::make_refused, crate::proofs::Makes::make_without_memory))]
fn drive_made<O: Sink>(alloc: Global, seed: u32, count: u32, steps: u64, out: &mut O) -> Answer
    ensures { (files : FolderState) (console : Stream) →
        let before = surroundings files console (stream (O.held out.old) (O.calls out.old) (O.faults out.old)) in
        let after = surroundings files console (stream (O.held out.new) (O.calls out.new) (O.faults out.new)) in
        DrivesMade seed count steps before after result.status (named result.name) }
{
    let text = match made_source(alloc, seed, count) {
        Ok(text) => text,
        Err(AllocError) => return answered(Status::OutOfMemory),
    };
    let (program, image) = match compiled_text(alloc, text.as_slice()) {
        Ok(compiled) => compiled,
        Err(answer) => return answer,
    };
    let lines = match summary(alloc, &program, text.as_slice()) {
        Ok(lines) => lines,
        Err(AllocError) => return answered(Status::OutOfMemory),
    };
    let mut console = NoInput { calls: 0 };
    match run_image(alloc, &image, steps, &mut console, out) {
        Ok(ran) => answered(sum_up(ran, lines.as_slice(), out)),
        Err(AllocError) => answered(Status::OutOfMemory),
    }
}

/// Makes the source of a seed and a count, compiles it, drives its image without input for at most `steps` instructions, and writes
/// the numbers of its tokens and bytes. For a count of at most 200 and 10,000,000 instructions the source is read and certified, and
/// its run ends as Halted(0): only want of memory and a failed write keep the call from that.
pub fn make<O: Sink>(alloc: Global, seed: u32, count: u32, steps: u64, out: &mut O) -> Answer
    ensures { (files : FolderState) (console : Stream) →
        let before = surroundings files console (stream (O.held out.old) (O.calls out.old) (O.faults out.old)) in
        let after = surroundings files console (stream (O.held out.new) (O.calls out.new) (O.faults out.new)) in
        count ≤ 200 → 10000000 ≤ steps → Makes seed count steps before after result.status }
{
    made_sources_are_read();
    made_programs_are_certified();
    made_programs_halt_well();
    runs_only_grow();
    drive_made(alloc, seed, count, steps, out)
}
