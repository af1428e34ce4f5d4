// Calls of the workbench as lines of tables. A line has these fields, between bars, and those at its end may be left out:
//
//     words | text of source.fs | console | out | answer | other files before | files after
//
// Words are split by blanks; `_` is a word of no byte, and `;` ends a call, where several follow each other on the same folder, console,
// out and notes. An answer is empty for Done without a note, and else the exit status and the line of the note behind `j1: `; or `=` and
// all bytes of the notes. Files are `NAME = bytes`, parted by `&`; behind the calls, `NAME == OTHER` are two of the same bytes, `NAME >= bytes`
// is one that begins with them, and a name alone is of no file. Bytes are written as `test_notation` says. A table for `run_rows` has the
// words of all its calls beside it, and its lines begin with the text; one for `run_faults` has before the words what fails outside, and the
// number of its call.
use crate::{Status, status_number, workbench};
use outside_io::{MemFolder, MemSink, MemSource};
use std::alloc::{AllocError, Global};
use std::test::Fail;
use test_notation::{bytes_in, field, number, repeated};

/// The numbers of the calls that fail: of the folder, the console, the output and the notes.
#[derive(Clone, Copy)]
pub(super) struct Fails<'a> {
    files: &'a [u32],
    questions: &'a [u32],
    writes: &'a [u32],
    notes: &'a [u32],
}

pub(super) const NEVER: Fails<'static> = Fails {
    files: &[],
    questions: &[],
    writes: &[],
    notes: &[],
};

/// What a call meets outside.
#[derive(Drop)]
pub(super) struct Outside {
    pub files: MemFolder,
    pub console: MemSource,
    pub out: MemSink,
    pub notes: MemSink,
}

/// A call, and what it is to leave, as fields of a line.
#[derive(Clone, Copy)]
pub(super) struct Row<'a> {
    pub words: &'a str,
    pub source: &'a str,
    pub console: &'a str,
    pub out: &'a str,
    pub answer: &'a str,
    pub files: &'a str,
    pub after: &'a str,
}

impl Outside {
    pub(super) fn new(alloc: Global, input: &[u8], fails: Fails) -> Result<Outside, AllocError> {
        Ok(Outside {
            files: MemFolder::new(alloc, fails.files)?,
            console: MemSource::new(alloc, input, fails.questions)?,
            out: MemSink::new(alloc, 100_000, fails.writes)?,
            notes: MemSink::new(alloc, 1000, fails.notes)?,
        })
    }
}

// The words of a line.
fn words_in(alloc: Global, line: &str) -> Result<Vec<String>, AllocError> {
    let mut words = Vec::new(alloc);
    for word in line.split_whitespace() {
        words.push(String::from_str(alloc, word.trim_matches('_'))?)?;
    }
    Ok(words)
}

/// One call with these words.
pub(super) fn call(
    alloc: Global,
    outside: &mut Outside,
    words: &str,
) -> Result<Status, AllocError> {
    let words = words_in(alloc, words)?;
    Ok(workbench(
        alloc,
        words.as_slice(),
        &mut outside.files,
        &mut outside.console,
        &mut outside.out,
        &mut outside.notes,
    ))
}

fn put_file(alloc: Global, files: &mut MemFolder, name: &str, text: &str) -> Result<(), Fail> {
    let bytes = bytes_in(alloc, text.trim_ascii())?;
    files.put(name.trim_ascii(), bytes.as_slice())?;
    Ok(())
}

// Puts the files of a list into a folder.
fn put_files(alloc: Global, files: &mut MemFolder, list: &str) -> Result<(), Fail> {
    for file in list.split('&') {
        if let Some((name, text)) = file.split_once('=') {
            put_file(alloc, files, name, text)?;
        }
    }
    Ok(())
}

// Whether a folder has a file, as its part of a list says.
fn has_file(alloc: Global, files: &MemFolder, file: &str) -> Result<bool, Fail> {
    let Some((name, text)) = file.split_once('=') else {
        return Ok(files.file(file.trim_ascii()).is_none());
    };
    if let Some(other) = text.strip_prefix('=') {
        return Ok(are_same(files, name.trim_ascii(), other.trim_ascii()));
    }
    let bytes = bytes_in(alloc, text.trim_ascii())?;
    Ok(match name.strip_suffix('>') {
        Some(name) => begins(files, name.trim_ascii(), bytes.as_slice()),
        None => holds(files, name.trim_ascii(), bytes.as_slice()),
    })
}

// Whether a folder has a file that begins with these bytes.
fn begins(files: &MemFolder, name: &str, bytes: &[u8]) -> bool {
    match files.file(name) {
        Some(held) => held.starts_with(bytes),
        None => false,
    }
}

// Whether a folder has two files of the same bytes.
fn are_same(files: &MemFolder, name: &str, other: &str) -> bool {
    match files.file(other) {
        Some(held) => holds(files, name, held),
        None => false,
    }
}

/// Whether a folder has a file with these bytes.
pub(super) fn holds(files: &MemFolder, name: &str, bytes: &[u8]) -> bool {
    match files.file(name) {
        Some(held) => *held == *bytes,
        None => false,
    }
}

// Whether a folder has the files of a list.
fn has_files(alloc: Global, files: &MemFolder, list: &str) -> Result<bool, Fail> {
    for file in list.split('&') {
        if !has_file(alloc, files, file)? {
            return Ok(false);
        }
    }
    Ok(true)
}

// All bytes of the notes of an answer.
fn notes_in(alloc: Global, note: &str) -> Result<Vec<u8>, Fail> {
    if let Some(notes) = note.strip_prefix('=') {
        return bytes_in(alloc, notes);
    }
    let mut notes = Vec::new(alloc);
    if !note.is_empty() {
        notes.extend_from_slice(b"j1: ")?;
        notes.extend_from_slice(note.as_bytes())?;
        notes.push(b'\n')?;
    }
    Ok(notes)
}

// Whether this is the answer.
fn is_answer(alloc: Global, status: Status, notes: &[u8], answer: &str) -> Result<bool, Fail> {
    let (status_field, note) = answer.split_once(' ').unwrap_or(("0", ""));
    let wanted = notes_in(alloc, note)?;
    let is_status = number(status_field, 10) == Some(u16::from(status_number(&status)));
    Ok(is_status && *notes == *wanted.as_slice())
}

fn leaves(alloc: Global, row: &Row, outside: &Outside, status: Status) -> Result<bool, Fail> {
    let out = bytes_in(alloc, row.out)?;
    let is_left = *outside.out.held() == *out.as_slice()
        && is_answer(alloc, status, outside.notes.held(), row.answer)?
        && has_files(alloc, &outside.files, row.after)?;
    Ok(is_left)
}

// Does the calls of a row. The last status stands.
fn call_all(alloc: Global, outside: &mut Outside, words: &str) -> Result<Status, AllocError> {
    let mut status = Status::Done;
    for words in words.split(';') {
        status = call(alloc, outside, words)?;
    }
    Ok(status)
}

// Puts the text and the other files of a row.
fn put_all(alloc: Global, files: &mut MemFolder, row: &Row) -> Result<(), Fail> {
    put_file(alloc, files, "source.fs", row.source)?;
    put_files(alloc, files, row.files)
}

// What a row meets, before its calls.
fn met_by(alloc: Global, row: &Row, fails: Fails) -> Result<Outside, Fail> {
    let input = bytes_in(alloc, row.console)?;
    let mut met = Outside::new(alloc, input.as_slice(), fails)?;
    put_all(alloc, &mut met.files, row)?;
    Ok(met)
}

// What was left: the status, and the bytes of out and of the notes.
fn told(alloc: Global, outside: &Outside, status: Status) -> Result<String, AllocError> {
    let out = outside.out.held();
    let notes = outside.notes.held();
    format!(in alloc; "{status:?}, {out:?}, {notes:?}")
}

// Does the calls of a row, and tells one that leaves anything else.
fn do_row(alloc: Global, row: &Row, met: &mut Outside) -> Result<(), Fail> {
    let status = call_all(alloc, met, row.words)?;
    if leaves(alloc, row, met, status)? {
        return Ok(());
    }
    let told = told(alloc, met, status)?;
    Err(format!(in alloc; "{}: {}: {told}", row.words, row.source)?)?;
    Ok(())
}

/// Does the calls of a row, of which some fail outside, and tells a row that leaves anything else.
pub(super) fn run_row(alloc: Global, row: &Row, fails: Fails) -> Result<(), Fail> {
    let mut met = met_by(alloc, row, fails)?;
    do_row(alloc, row, &mut met)
}

// Does the calls of a row, and tells what they leave.
fn do_told(alloc: Global, row: &Row, met: &mut Outside) -> Result<String, AllocError> {
    let status = call_all(alloc, met, row.words)?;
    told(alloc, met, status)
}

/// What the calls of a row leave: the status, and the bytes of out and of the notes.
pub(super) fn left_by(alloc: Global, row: &Row) -> Result<String, Fail> {
    let mut met = met_by(alloc, row, NEVER)?;
    let told = do_told(alloc, row, &mut met)?;
    Ok(told)
}

/// The row of a line, but for its words.
pub(super) fn row_in<'a>(words: &'a str, line: &'a str) -> Row<'a> {
    let mut rest = line;
    Row {
        words,
        source: field(&mut rest),
        console: field(&mut rest),
        out: field(&mut rest),
        answer: field(&mut rest),
        files: field(&mut rest),
        after: field(&mut rest),
    }
}

/// Does the calls of all lines of a table, with these words.
pub(super) fn run_rows(alloc: Global, words: &str, table: &str) -> Result<(), Fail> {
    for line in table.trim_matches('\n').lines() {
        run_row(alloc, &row_in(words, line), NEVER)?;
    }
    Ok(())
}

/// Does the calls of all lines of a table.
pub(super) fn run_calls(alloc: Global, table: &str) -> Result<(), Fail> {
    for line in table.trim_matches('\n').lines() {
        let mut rest = line;
        let words = field(&mut rest);
        run_row(alloc, &row_in(words, rest), NEVER)?;
    }
    Ok(())
}

// The calls that fail: those of an object that have these numbers.
fn fails_of<'a>(object: &str, numbers: &'a [u32]) -> Fails<'a> {
    let mut fails = NEVER;
    match object {
        "files" => fails.files = numbers,
        "questions" => fails.questions = numbers,
        "writes" => fails.writes = numbers,
        _ => fails.notes = numbers,
    }
    fails
}

fn run_fault(alloc: Global, line: &str) -> Result<(), Fail> {
    let mut rest = line;
    let (object, number) = field(&mut rest).split_once(' ').ok_or(line)?;
    let numbers = [number.parse::<u32>().ok().ok_or(line)?];
    let words = field(&mut rest);
    run_row(alloc, &row_in(words, rest), fails_of(object, &numbers))
}

/// Does the calls of all lines of a table, each with one that fails outside.
pub(super) fn run_faults(alloc: Global, table: &str) -> Result<(), Fail> {
    for line in table.trim_matches('\n').lines() {
        run_fault(alloc, line)?;
    }
    Ok(())
}

// What a list says of a file: its bytes as pieces, each with how often it stands. Without a piece it is no file.
fn file_in(alloc: Global, name: &str, pieces: &str) -> Result<String, Fail> {
    if pieces.is_empty() {
        return Ok(String::from_str(alloc, name)?);
    }
    let bytes = repeated(alloc, pieces)?;
    Ok(format!(in alloc; "{name} = {bytes}")?)
}

fn run_piece(alloc: Global, line: &str) -> Result<(), Fail> {
    let mut rest = line;
    let words = field(&mut rest);
    let answer = field(&mut rest);
    let files = file_in(alloc, "a", field(&mut rest))?;
    let after = file_in(alloc, "b", field(&mut rest))?;
    let row = Row {
        words,
        source: "",
        console: "",
        out: "",
        answer,
        files: files.as_str(),
        after: after.as_str(),
    };
    run_row(alloc, &row, NEVER)
}

/// Does the calls of all lines of a table that print nothing: the words, the answer, and pieces of the file `a` before and of `b` after.
pub(super) fn run_pieces(alloc: Global, table: &str) -> Result<(), Fail> {
    for line in table.trim_matches('\n').lines() {
        run_piece(alloc, line)?;
    }
    Ok(())
}

/// Whether `run` on this text prints this and gives this answer.
pub(super) fn runs_text(
    alloc: Global,
    text: &[u8],
    input: &[u8],
    printed: &[u8],
    answer: &str,
) -> Result<bool, Fail> {
    let mut met = Outside::new(alloc, input, NEVER)?;
    met.files.put("source.fs", text)?;
    let status = call(alloc, &mut met, "run source.fs")?;
    Ok(*met.out.held() == *printed && is_answer(alloc, status, met.notes.held(), answer)?)
}
