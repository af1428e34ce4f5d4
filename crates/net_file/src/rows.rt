// The rows of a net file.
ghost use Rattle.std.specs.Prelude.{◌≡◌, ◌&&◌, true, nat_le, if◌then◌else◌, option_map, Some, None};
ghost use Rattle.std.specs.List.{list_all};
ghost use Rattle.j1_assembler.specs.Text.{fields_of, is_line_byte};
ghost use Rattle.net_file.specs.Net.{is_file_name, is_core_file, short_row, long_row, row_of};
ghost use Rattle.net_file.specs.Reading.{net_row};

use crate::numbers::number_in;
use core_array::Link;
use j1_assembler::next_field;

/// A line with fields.
#[derive(Clone, Copy, Debug)]
pub enum Row<'a> {
    Header,
    /// The source file of a core.
    Core(&'a str),
    Link(Link),
    /// The number of rounds, and of entries of each core in a round.
    Turns(u32, u16),
}

/// Whether each byte may stand in a line.
pub fn are_line_bytes(line: &[u8]) -> bool
    ensures { result ≡ list_all is_line_byte line.now }
{
    line.iter().all(|byte| (*byte >= 32 && *byte <= 126) || *byte == b'\t' || *byte == b'\r')
}

fn is_file_name(field: &[u8]) -> bool
    ensures { result ≡ is_file_name field.now }
{
    match field {
        [] => false,
        [first, rest @ ..] => *first != b'-' && rest.len() < 255,
    }
}

fn is_graphic(field: &[u8]) -> bool
    ensures { result ≡ list_all (λ byte. nat_le 33 byte && nat_le byte 126) field.now }
{
    field.iter().all(|byte| *byte >= 33 && *byte <= 126)
}

// The text of bytes from 33 to 126.
fn graphic_text(field: &[u8]) -> &str
    requires { list_all (λ byte. nat_le 33 byte && nat_le byte 126) field.now ≡ true }
    ensures { result.now ≡ field.now }
{
    match str::from_utf8(field) {
        Ok(text) => text,
        Err(_) => unreachable!(),
    }
}

// The source file of a core.
fn core_file(field: &[u8]) -> Option<&str>
    ensures { option_map (λ file. file.now) result ≡ (if is_core_file field.now then Some field.now else None) }
{
    if is_file_name(field) && is_graphic(field) {
        Some(graphic_text(field))
    } else {
        None
    }
}

// A row of two fields.
fn short_row<'a>(head: &[u8], field: &'a [u8]) -> Option<Row<'a>>
    ensures { option_map net_row result ≡ short_row head.now field.now }
{
    if head == b"NET".as_slice() {
        if field == b"1".as_slice() {
            Some(Row::Header)
        } else {
            None
        }
    } else if head == b"core".as_slice() {
        match core_file(field) {
            Some(file) => Some(Row::Core(file)),
            None => None,
        }
    } else {
        None
    }
}

// A row of three fields.
fn long_row<'a>(head: &[u8], first: &[u8], second: &[u8]) -> Option<Row<'a>>
    ensures { option_map net_row result ≡ long_row head.now first.now second.now }
{
    if head == b"link".as_slice() {
        match (number_in(first, 10, 15), number_in(second, 10, 15)) {
            (Some(from), Some(to)) => Some(Row::Link(Link {
                from: from as u8,
                to: to as u8,
            })),
            _ => None,
        }
    } else if head == b"turns".as_slice() {
        match (number_in(first, 10, 1_000_000), number_in(second, 10, 1000)) {
            (Some(rounds), Some(entries)) => Some(Row::Turns(rounds, entries as u16)),
            _ => None,
        }
    } else {
        None
    }
}

/// The row of a line, where its fields are one.
pub fn row_of(line: &[u8]) -> Option<Row<'_>>
    ensures { option_map net_row result ≡ row_of (fields_of line.now) }
{
    let (head, rest) = next_field(line)?;
    let (first, rest) = next_field(rest)?;
    match next_field(rest) {
        None => short_row(head, first),
        Some((second, rest)) => {
            if next_field(rest).is_some() {
                None
            } else {
                long_row(head, first, second)
            }
        }
    }
}
