// What a line says.
ghost use Rattle.std.specs.Prelude.{◌≡◌, ◌≤◌, ◌+◌, ◌%◌, ◌≢◌, ℕ, ◌++◌, length, MatchOption, Some, None, option_map, IsTrue, ◌↔◌, MatchResult, IfSome};
ghost use Rattle.console_ports.specs.DataSpace.{IsDataStart};
ghost use Rattle.j1_assembler.specs.Text.{fields_of};
ghost use Rattle.j1_assembler.specs.Instruction.{seen};
ghost use Rattle.j1_assembler.specs.Lines.{stated_start, start_behind, header_of, heading_named, heading_of, front_place, behind_place, front_label, behind_label, optional_instruction, data_of};

use crate::fields::next_field;
use crate::instruction::{Operation, alone, instruction_of};
use crate::names::label_name;
use crate::numbers::{hex2, hex4, place};
use arrayvec::ArrayVec;

/// A line that begins or ends a section.
#[derive(Clone, Copy, Debug, PartialEq, Eq)]
pub enum Heading {
    Code,
    Data,
    End,
}

fn stated_start(start: u16) -> Option<u16>
    ensures value { result ≡ stated_start start }
    ensures room { IfSome result (λ start. IsDataStart start) }
{
    if start % 2 == 0 && start >= 4096 && start <= 16000 && start != 8192 {
        Some(start)
    } else {
        None
    }
}

// The data start that a header of version 1 or 2 states behind its letters.
fn start_behind(line: &[u8]) -> Option<u16>
    ensures value { result ≡ start_behind (fields_of line.now) }
    ensures room { IfSome result (λ start. IsDataStart start) }
{
    let (version, rest) = next_field(line)?;
    match next_field(rest) {
        None => if version == b"1".as_slice() {
            Some(8192)
        } else {
            None
        },
        Some((start, behind)) => {
            if next_field(behind).is_some() {
                return None;
            }
            if version == b"2".as_slice() {
                stated_start(hex4(start)?)
            } else {
                None
            }
        }
    }
}

/// The data start of a header.
pub fn header_of(line: &[u8]) -> Option<u16>
    ensures value { result ≡ header_of (fields_of line.now) }
    ensures room { IfSome result (λ start. IsDataStart start) }
{
    let (letters, rest) = next_field(line)?;
    if letters == b"J1".as_slice() {
        start_behind(rest)
    } else {
        None
    }
}

fn heading_named(field: &[u8]) -> Option<Heading>
    ensures { result ≡ heading_named field.now }
{
    if field == b"CODE".as_slice() {
        Some(Heading::Code)
    } else if field == b"DATA".as_slice() {
        Some(Heading::Data)
    } else if field == b"END".as_slice() {
        Some(Heading::End)
    } else {
        None
    }
}

/// The heading that a line is.
pub fn heading_of(line: &[u8]) -> Option<Heading>
    ensures { result ≡ heading_of (fields_of line.now) }
{
    let field = alone(line)?;
    heading_named(field)
}

/// The place in front of a line, and the line behind it.
pub fn split_place(line: &[u8]) -> (Option<u16>, &[u8])
    ensures place { result.0 ≡ front_place (fields_of line.now) }
    ensures rest { fields_of result.1.now ≡ behind_place (fields_of line.now) }
{
    match next_field(line) {
        Some((field, rest)) => match place(field) {
            Some(number) => (Some(number), rest),
            None => (None, line),
        },
        None => (None, line),
    }
}

/// The label in front of a line, and the line behind it.
pub fn split_label(line: &[u8]) -> (Option<&[u8]>, &[u8])
    ensures label { option_map (λ name. name.now) result.0 ≡ front_label (fields_of line.now) }
    ensures rest { fields_of result.1.now ≡ behind_label (fields_of line.now) }
{
    match next_field(line) {
        Some((field, rest)) => match label_name(field) {
            Some(name) => (Some(name), rest),
            None => (None, line),
        },
        None => (None, line),
    }
}

/// The optional instruction of a line.
pub fn optional_instruction(line: &[u8]) -> Option<Option<Operation<'_>>>
    ensures { option_map (option_map seen) result ≡ optional_instruction (fields_of line.now) }
{
    if next_field(line).is_none() {
        return Some(None);
    }
    let operation = instruction_of(line)?;
    Some(Some(operation))
}

/// The 1 to 16 data bytes of a line.
pub fn data_of(line: &[u8]) -> Option<ArrayVec<u8, 16>>
    ensures { option_map (λ bytes. bytes.items) result ≡ data_of (fields_of line.now) }
{
    let mut bytes: ArrayVec<u8, 16> = ArrayVec::new();
    let mut rest = line;
    while let Some((field, behind)) = next_field(rest) {
        let Some(byte) = hex2(field) else {
            return None;
        };
        if bytes.is_full() {
            return None;
        }
        bytes.push(byte);
        rest = behind;
    }
    if bytes.is_empty() { None } else { Some(bytes) }
}
