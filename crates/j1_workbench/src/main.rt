//! `j1`: Forth source is compiled for the J1 and run on a simulated chip.
#![tactic(auto)]

mod answer;
mod answering;
mod assembling;
mod bounding;
mod building;
mod certifying;
mod compiling;
mod driving;
mod evaluating;
mod executing;
mod files;
mod images;
mod laws;
mod listing_image;
mod made_source;
mod making;
mod networking;
mod notes;
mod reading;
mod running;
mod serving;
mod source;
mod status;
#[cfg(test)]
mod tests;
mod tracing;
mod words;
mod workbench;
mod writing_kernel;
mod writing_memory;

use outside_io::{StdFolder, StdSink, StdSource};
pub use status::{Status, status_number};
use std::alloc::AllocError;
use std::env;
use std::io::ErrorKind;
use std::process::ExitCode;
pub use workbench::{answer_without_words, workbench};

// The words after the program's name. Words that are no text have the form of no command, and neither has an empty list.
fn words_after_name(rt: &HostRuntime) -> Result<Vec<String>, AllocError> {
    match env::args(rt) {
        Ok(words) => words.skip(1).collect(rt.alloc()),
        Err(error) => match error.kind() {
            ErrorKind::OutOfMemory => Err(AllocError),
            _ => Ok(Vec::new(rt.alloc())),
        },
    }
}

// The call on the streams and the folder of the system.
fn call(rt: HostRuntime) -> Status {
    let mut notes = StdSink::new(rt.stderr());
    let words = match words_after_name(&rt) {
        Ok(words) => words,
        Err(AllocError) => return answer_without_words(&mut notes),
    };
    let alloc = rt.alloc();
    let mut console = StdSource::new(rt.stdin());
    let mut out = StdSink::new(rt.stdout());
    let mut files = StdFolder::new(rt);
    workbench(
        alloc,
        words.as_slice(),
        &mut files,
        &mut console,
        &mut out,
        &mut notes,
    )
}

fn main(rt: HostRuntime) -> ExitCode {
    ExitCode::from(status_number(&call(rt)))
}
