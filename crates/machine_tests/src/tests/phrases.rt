// Phrases of numbers and words on the machine.
use super::machine::{Drive, drives};
use std::alloc::{AllocError, Global};
use std::test::Fail;
use test_notation::{PHRASES, Phrase, append_cells, bytes_in, cells_in, number, phrase_in};
use word_table::{plain_cells, word_of};

// Appends the cells that print the top cell, the high byte first.
fn append_print(code: &mut Vec<u16>) -> Result<(), AllocError> {
    code.extend_from_slice(&[0x6081, 0x8008, 0x6903])?;
    code.extend_from_slice(&[0xC000, 0x6023, 0x6103, 0xC000, 0x6023, 0x6103])
}

// Appends the cells of a word or a number.
fn append_item(code: &mut Vec<u16>, text: &str) -> Result<(), Fail> {
    match word_of(text) {
        Some(word) => code.extend_from_slice(plain_cells(word))?,
        None => {
            let cell = number(text, 10).ok_or("no word")?;
            if cell < 0x8000 {
                code.push(0x8000 | cell)?;
            } else {
                code.extend_from_slice(&[0x8000 | !cell, 0x6600])?;
            }
        }
    }
    Ok(())
}

// The code of a phrase, which then prints both depths in bytes, that of the return stack first, and so many cells from the top,
// and halts.
fn code_of(alloc: Global, phrase: &str, count: usize) -> Result<Vec<u16>, Fail> {
    let mut code = Vec::new(alloc);
    for text in phrase.split_whitespace() {
        append_item(&mut code, text)?;
    }
    code.push(0x6E81)?;
    append_print(&mut code)?;
    for _ in 0..count {
        append_print(&mut code)?;
    }
    code.extend_from_slice(&[0x8000, 0xC004, 0x6023])?;
    Ok(code)
}

// Appends what the code of a phrase prints where it leaves these cells.
fn append_left(bytes: &mut Vec<u8>, cells: &[u16]) -> Result<(), AllocError> {
    bytes.push(0)?;
    bytes.push((cells.len() % 256) as u8)?;
    append_cells(bytes, cells)
}

// What the code of a phrase prints.
fn printed_of(alloc: Global, phrase: &Phrase, left: &[u16]) -> Result<Vec<u8>, Fail> {
    let mut printed = bytes_in(alloc, phrase.printed)?;
    if phrase.answer.is_empty() {
        append_left(&mut printed, left)?;
    }
    Ok(printed)
}

// Drives the code of a phrase.
fn drives_phrase(alloc: Global, phrase: &Phrase) -> Result<bool, Fail> {
    let left = cells_in(alloc, phrase.left, 10)?;
    let printed = printed_of(alloc, phrase, left.as_slice())?;
    let code = code_of(alloc, phrase.text, left.len())?;
    let (_number, finish) = phrase.answer.split_once(' ').unwrap_or(("", "halted 0"));
    let way = Drive {
        steps: 999,
        input: phrase.input,
        finish,
        questions: [0],
        writes: [0],
    };
    drives(alloc, code.as_slice(), &way, printed.as_slice())
}

#[test]
fn does_words(rt: HostRuntime) -> Result<(), Fail> {
    for line in PHRASES.trim_matches('\n').lines() {
        if !drives_phrase(rt.alloc(), &phrase_in(line))? {
            Err(line)?;
        }
    }
    Ok(())
}
