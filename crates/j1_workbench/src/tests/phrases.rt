// Phrases of numbers and words as sources.
use super::rows::runs_text;
use std::alloc::{AllocError, Global};
use std::test::Fail;
use test_notation::{PHRASES, Phrase, append_cells, bytes_in, cells_in, phrase_in};

// Phrases one behind the other: their text, their input, and what they print.
#[derive(Drop)]
struct Batch {
    text: Vec<u8>,
    input: Vec<u8>,
    printed: Vec<u8>,
}

impl Batch {
    fn new(alloc: Global) -> Result<Batch, AllocError> {
        Ok(Batch {
            text: Vec::from_slice(alloc, b": MAIN")?,
            input: Vec::new(alloc),
            printed: Vec::new(alloc),
        })
    }

    // Appends a phrase, which then prints the cells that it leaves, from the top.
    fn add(&mut self, alloc: Global, phrase: &Phrase) -> Result<(), Fail> {
        let left = cells_in(alloc, phrase.left, 10)?;
        append_source(&mut self.text, phrase.text, left.len())?;
        append_bytes(alloc, &mut self.input, phrase.input)?;
        append_bytes(alloc, &mut self.printed, phrase.printed)?;
        append_cells(&mut self.printed, left.as_slice())?;
        Ok(())
    }

    // Runs the phrases as a source.
    fn runs(&self, alloc: Global, answer: &str) -> Result<bool, Fail> {
        let mut text = self.text.clone()?;
        text.extend_from_slice(b" ;")?;
        runs_text(
            alloc,
            text.as_slice(),
            self.input.as_slice(),
            self.printed.as_slice(),
            answer,
        )
    }
}

// Appends a phrase, which then prints so many cells from the top.
fn append_source(text: &mut Vec<u8>, phrase: &str, count: usize) -> Result<(), AllocError> {
    text.push(b' ')?;
    text.extend_from_slice(phrase.as_bytes())?;
    for _ in 0..count {
        text.extend_from_slice(b" DUP 8 RSHIFT EMIT EMIT")?;
    }
    Ok(())
}

fn append_bytes(alloc: Global, bytes: &mut Vec<u8>, field: &str) -> Result<(), Fail> {
    bytes.extend_from_slice(bytes_in(alloc, field)?.as_slice())?;
    Ok(())
}

// Whether a phrase is a source of its own: where it stores, has input, or ends otherwise.
fn is_alone(phrase: &Phrase) -> bool {
    phrase.text.contains("!") || !phrase.input.is_empty() || !phrase.answer.is_empty()
}

// Runs a phrase that is a source of its own.
fn run_alone(alloc: Global, line: &str) -> Result<(), Fail> {
    let phrase = phrase_in(line);
    let mut batch = Batch::new(alloc)?;
    batch.add(alloc, &phrase)?;
    if batch.runs(alloc, phrase.answer)? {
        Ok(())
    } else {
        Ok(Err(line)?)
    }
}

// The phrases that have no word on the return stack.
#[test]
fn runs_phrases_alone(rt: HostRuntime) -> Result<(), Fail> {
    for line in PHRASES.trim_matches('\n').lines() {
        if !line.contains("R>") && is_alone(&phrase_in(line)) {
            run_alone(rt.alloc(), line)?;
        }
    }
    Ok(())
}

// Adds those of some lines that are run together.
fn add_lines(alloc: Global, batch: &mut Batch, first: usize) -> Result<(), Fail> {
    for line in PHRASES.trim_matches('\n').lines().skip(first).take(20) {
        let phrase = phrase_in(line);
        if !line.contains("R>") && !is_alone(&phrase) {
            batch.add(alloc, &phrase)?;
        }
    }
    Ok(())
}

fn runs_lines(alloc: Global, first: usize) -> Result<bool, Fail> {
    let mut batch = Batch::new(alloc)?;
    add_lines(alloc, &mut batch, first)?;
    batch.runs(alloc, "")
}

// The others, of 20 lines together.
#[test]
fn runs_phrases(rt: HostRuntime) -> Result<(), Fail> {
    let count = PHRASES.trim_matches('\n').lines().count();
    for first in (0..count).step_by(20) {
        assert!(rt; runs_lines(rt.alloc(), first)?, "{first}");
    }
    Ok(())
}
