// What a line of a table says: fields between bars, bytes, lists of numbers, and repeated texts.
use forth_reader::{NumberRead, number_of};
use std::alloc::{AllocError, Global};
use std::test::Fail;

/// Cuts the front field off a line. A line that has ended has empty fields.
pub fn field<'a>(line: &mut &'a str) -> &'a str {
    let (front, rest) = line.split_once('|').unwrap_or((*line, ""));
    *line = rest;
    front.trim_ascii()
}

/// The cell of a number.
pub fn number(text: &str, base: u16) -> Option<u16> {
    match number_of(text, base) {
        NumberRead::Value(cell) => Some(cell),
        _ => None,
    }
}

/// The numbers of a list, split by blanks.
pub fn cells_in(alloc: Global, list: &str, base: u16) -> Result<Vec<u16>, Fail> {
    let mut cells = Vec::new(alloc);
    for text in list.split_whitespace() {
        cells.push(number(text, base).ok_or("no number")?)?;
    }
    Ok(cells)
}

// Appends a text, in which `_` is a blank and `~` a line feed.
fn append_text(bytes: &mut Vec<u8>, text: &str) -> Result<(), AllocError> {
    for byte in text.bytes() {
        bytes.push(match byte {
            b'_' => b' ',
            b'~' => b'\n',
            byte => byte,
        })?;
    }
    Ok(())
}

// Appends the byte of two hexadecimal digits, and the text behind them.
fn append_code(bytes: &mut Vec<u8>, piece: &str) -> Result<(), Fail> {
    let (digits, text) = piece.split_at_checked(2).ok_or("no byte")?;
    bytes.push((number(digits, 16).ok_or("no byte")? % 256) as u8)?;
    append_text(bytes, text)?;
    Ok(())
}

/// The bytes of a field: `_` is a blank, `~` a line feed, and `^` begins the two hexadecimal digits of any byte.
pub fn bytes_in(alloc: Global, text: &str) -> Result<Vec<u8>, Fail> {
    let mut bytes = Vec::new(alloc);
    let mut pieces = text.split('^');
    append_text(&mut bytes, pieces.next().unwrap_or(""))?;
    for piece in pieces {
        append_code(&mut bytes, piece)?;
    }
    Ok(bytes)
}

/// Appends a text so many times.
pub fn append_times(text: &mut String, piece: &str, count: u32) -> Result<(), AllocError> {
    for _ in 0..count {
        text.push_str(piece)?;
    }
    Ok(())
}

/// The text of pieces between commas, each with how often it stands.
pub fn repeated(alloc: Global, pieces: &str) -> Result<String, Fail> {
    let mut text = String::new(alloc);
    for piece in pieces.split(',') {
        if let Some((piece, count)) = piece.trim_ascii().rsplit_once(' ') {
            append_times(
                &mut text,
                piece,
                count.parse::<u32>().ok().ok_or("no count")?,
            )?;
        }
    }
    Ok(text)
}

/// Appends the bytes of cells, the last cell first, and of each the high byte.
pub fn append_cells(bytes: &mut Vec<u8>, cells: &[u16]) -> Result<(), AllocError> {
    for cell in cells.iter().rev() {
        bytes.push((*cell / 256) as u8)?;
        bytes.push((*cell % 256) as u8)?;
    }
    Ok(())
}
