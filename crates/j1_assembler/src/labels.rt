// The labels of a text.
ghost use Rattle.std.specs.Prelude.{◌≡◌, ℕ, List, [], ◌∷◌, ◌+◌, ◌<◌, ◌≤◌, length, min, option_map, if◌then◌else◌, OnOk, IfOk};
ghost use Rattle.j1_assembler.specs.Text.{lines_of};
ghost use Rattle.j1_assembler.specs.Labels.{labels_in, labels_from, with_label, defined, found_in, or_else, is_data, is_code, next_cell};
ghost use Rattle.j1_assembler.specs.Lines.{line_rest, line_label};
ghost use Rattle.j1_assembler.specs.Text.{fields_of};

use crate::fields::next_field;
use crate::lines::next_line;
use crate::rows::{Heading, heading_of, split_label, split_place};
use j1_table::Bits13;
use std::alloc::{AllocError, Global};
use std::collections::BTreeMap;

/// Where a label is defined: its line, and the cell that it stands for.
#[derive(Clone, Copy, Debug, PartialEq, Eq)]
pub struct Definition {
    pub line: u32,
    pub cell: Bits13,
}

/// The labels of a text, by their names.
pub type Labels<'a> = BTreeMap<&'a [u8], Definition>;

// Adds a label, unless there is one of the name.
fn define<'a>(
    labels: &mut Labels<'a>,
    name: &'a [u8],
    definition: Definition,
) -> Result<(), AllocError>
    ensures { OnOk result ((query : List ℕ) → found_in labels.new query ≡ or_else (found_in labels.old query) (defined ((name.now, definition) ∷ []) query)) }
{
    if labels.contains_key(name) {
        return Ok(());
    }
    match labels.insert(name, definition) {
        Ok(_) => Ok(()),
        Err(_) => Err(AllocError),
    }
}

// The label in front of a line, and whether an instruction follows.
fn label_line(line: &[u8]) -> (Option<&[u8]>, bool)
    ensures label { option_map (λ name. name.now) result.0 ≡ line_label (fields_of line.now) }
    ensures cell { (cell : ℕ) → next_cell cell (line_rest (fields_of line.now)) ≡ (if result.1 then min (cell + 1) 8191 else cell) }
{
    let (_, rest) = split_place(line);
    let (label, rest) = split_label(rest);
    (label, next_field(rest).is_some())
}

// The number and the text of the lines behind the first line `CODE`.
fn behind_code(text: &[u8]) -> (u32, &[u8])
    requires { length text.now < 4294967295 }
    ensures labels { labels_from 1 (lines_of text.now) ≡ labels_in result.0 0 (lines_of result.1.now) }
    ensures bound { result.0 + length result.1.now < 4294967296 }
{
    let mut number: u32 = 1;
    let mut rest = text;
    while let Some((line, behind)) = next_line(rest) {
        number += 1;
        rest = behind;
        if heading_of(line) == Some(Heading::Code) {
            return (number, rest);
        }
    }
    (number, rest)
}

// Adds the label of a line with this number, and gives the cell behind it.
fn add_line<'a>(
    labels: &mut Labels<'a>,
    number: u32,
    cell: u16,
    line: &'a [u8],
) -> Result<u16, AllocError>
    requires { cell < 8192 }
    ensures labels { OnOk result ((query : List ℕ) → found_in labels.new query ≡ or_else (found_in labels.old query) (defined (with_label (line_label (fields_of line.now)) (record { line = number; cell = cell }) []) query)) }
    ensures cell { IfOk result (λ next. next ≡ next_cell cell (line_rest (fields_of line.now))) }
    ensures small { IfOk result (λ next. next < 8192) }
{
    let (label, is_cell) = label_line(line);
    if let (Some(name), Some(place)) = (label, Bits13::new(cell)) {
        match define(
            labels,
            name,
            Definition {
                line: number,
                cell: place,
            },
        ) {
            Ok(()) => {}
            Err(error) => return Err(error),
        }
    }
    if is_cell {
        Ok((cell + 1).min(8191))
    } else {
        Ok(cell)
    }
}

// The labels up to the next line `DATA`, each with its first definition.
fn labels_in(alloc: Global, first: u32, text: &[u8]) -> Result<Labels<'_>, AllocError>
    requires { first + length text.now < 4294967296 }
    ensures { IfOk result (λ labels. (name : List ℕ) → found_in labels name ≡ defined (labels_in first 0 (lines_of text.now)) name) }
{
    let mut labels = BTreeMap::new(alloc);
    let mut number = first;
    let mut cell: u16 = 0;
    let mut rest = text;
    while let Some((line, behind)) = next_line(rest) {
        if heading_of(line) == Some(Heading::Data) {
            return Ok(labels);
        }
        match add_line(&mut labels, number, cell, line) {
            Ok(next) => cell = next,
            Err(error) => return Err(error),
        }
        number += 1;
        rest = behind;
    }
    Ok(labels)
}

/// The labels of a text, each with its first definition. An error is want of memory.
pub fn labels_of(alloc: Global, text: &[u8]) -> Result<Labels<'_>, AllocError>
    requires { length text.now < 4294967295 }
    ensures { IfOk result (λ labels. (name : List ℕ) → found_in labels name ≡ defined (labels_from 1 (lines_of text.now)) name) }
{
    let (first, rest) = behind_code(text);
    labels_in(alloc, first, rest)
}
