// The top call.
ghost use Rattle.std.specs.Prelude.{[], map, string_bytes};
ghost use Rattle.j1_workbench.specs.Surroundings.{folder, stream, surroundings};
ghost use Rattle.j1_workbench.specs.Answers.{Answers, IsNoted};
ghost use Rattle.j1_workbench.specs.Notes.{note_of};
ghost use Rattle.j1_workbench.specs.Completeness.{AnswersAreComplete};

use crate::answering::answer;
use crate::laws::answers_are_complete;
use crate::notes::write_note;
use crate::status::Status;
use outside_io::{Failed, Folder, Sink, Source};
use std::alloc::Global;

/// Does what the words of a command line ask for.
///
/// Files are read from `files`, a run takes its input from `console` one byte at a time and prints to `out`, and each
/// status other than `Done` leaves its line in `notes`. Where that line cannot be written, the status is `WriteFault`.
#[tactic(auto, using(crate::proofs::SinkContents::noted_ok, crate::proofs::SinkContents::noted_fault))]
pub fn workbench<F: Folder, C: Source, O: Sink, N: Sink>(
    alloc: Global,
    words: &[String],
    files: &mut F,
    console: &mut C,
    out: &mut O,
    notes: &mut N,
) -> Status
    // What each command does, by `Does`: a line a command; and its note.
    ensures answers { let before = surroundings (folder (F.files files.old) (F.calls files.old) (F.read_faults files.old) (F.write_faults files.old) (F.absences files.old))
        (stream (C.left console.old) (C.calls console.old) (C.faults console.old)) (stream (O.held out.old) (O.calls out.old) (O.faults out.old)) in
        let after = surroundings (folder (F.files files.new) (F.calls files.new) (F.read_faults files.new) (F.write_faults files.new) (F.absences files.new))
        (stream (C.left console.new) (C.calls console.new) (C.faults console.new)) (stream (O.held out.new) (O.calls out.new) (O.faults out.new)) in
        Answers (map string_bytes words.now) before after (stream (N.held notes.old) (N.calls notes.old) (N.faults notes.old)) (stream (N.held notes.new) (N.calls notes.new) (N.faults notes.new)) result }
    // Where nothing failed, each source has its one answer.
    ensures complete { AnswersAreComplete }
{
    answers_are_complete();
    let answer = answer(alloc, words, files, console, out);
    match write_note(notes, words, answer.status, &answer.name) {
        Ok(()) => answer.status,
        Err(Failed) => Status::WriteFault,
    }
}

/// What is answered where there is no memory for the words of a command line: `OutOfMemory`, with its line in `notes`.
pub fn answer_without_words<N: Sink>(notes: &mut N) -> Status
    ensures noted { IsNoted (note_of [] Status.OutOfMemory []) (stream (N.held notes.old) (N.calls notes.old) (N.faults notes.old))
        (stream (N.held notes.new) (N.calls notes.new) (N.faults notes.new)) Status.OutOfMemory result }
{
    match write_note(notes, &[], Status::OutOfMemory, &None) {
        Ok(()) => Status::OutOfMemory,
        Err(Failed) => Status::WriteFault,
    }
}
