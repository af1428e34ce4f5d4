// From lines to an image.
ghost use Rattle.std.specs.Prelude.{◌≡◌, option_map};
ghost use Rattle.j1_assembler.specs.Text.{fields_of};
ghost use Rattle.j1_assembler.specs.Instruction.{seen};
ghost use Rattle.j1_assembler.specs.Lines.{heading_of};
ghost use Rattle.j1_assembler.specs.Labels.{found_in};
ghost use Rattle.j1_assembler.specs.Assembly.{formed, is_present, is_first, cell_of, with_cell, with_operation, code_line, with_bytes, data_line, opening_line, line_of_code, line_of_data, line_outcome};
ghost use Rattle.j1_assembler.specs.Answers.{LineGives};

use crate::fields::next_field;
use crate::instruction::{Operation, cell_going};
use crate::labels::Labels;
use crate::lines::is_formed;
use crate::refusal::{AsmCause, LineError};
use crate::rows::{Heading, data_of, heading_of, optional_instruction, split_label, split_place};
use j1_table::Image;
use std::alloc::{AllocError, Global};
use std::marker::Model;

/// Where a text is: behind the header, in a section, or behind its end.
#[derive(Clone, Copy, Debug, PartialEq, Eq)]
pub enum Section {
    Opening,
    Code,
    Data,
    End,
}

// What the lines so far have given: the section, the data start, the cells and the data bytes.
#[derive(Drop)]
pub(crate) struct Assembler {
    section: Section,
    data_start: u16,
    cells: Vec<u16>,
    bytes: Vec<u8>,
}

impl Model for Assembler {
    ghost use Rattle.j1_table.specs.Image.{HasRoom};
    ghost use Rattle.j1_assembler.specs.Assembly.{Part};

    ghost Value = { Part };

    ghost view = { λ a. record { section = a.section; data_start = a.data_start; cells = a.cells.items; bytes = a.bytes.items } };

    ghost invariant = { λ a. HasRoom (record { cells = a.cells.items; bytes = a.bytes.items; data_start = a.data_start }) };
}

// Whether there is no number, or it is the present one.
fn is_present(place: Option<u16>, now: usize) -> bool
    ensures { result ≡ is_present place now }
{
    match place {
        None => true,
        Some(place) => usize::from(place) == now,
    }
}

// The cell of an instruction.
fn cell_of(labels: &Labels<'_>, operation: Operation<'_>) -> Result<u16, LineError>
    ensures { LineGives (λ cell. cell) result (cell_of (found_in labels.now) (seen operation.entry)) }
{
    match operation {
        Operation::Cell(cell) => Ok(cell),
        Operation::Reference(way, name) => match labels.get(name) {
            Some(definition) => Ok(cell_going(way, definition.cell)),
            None => Err(LineError::Fault(AsmCause::Label)),
        },
    }
}

// Whether a label is first defined on this line.
fn is_first(labels: &Labels<'_>, label: Option<&[u8]>, number: u32) -> bool
    ensures { result ≡ is_first (found_in labels.now) (option_map (λ name. name.now) label.entry) number }
{
    match label {
        None => true,
        Some(name) => match labels.get(name) {
            Some(definition) => definition.line == number,
            None => false,
        },
    }
}

impl Assembler {
    ghost use Rattle.std.specs.Prelude.{◌+◌, ◌≤◌, length, IfOk};
    ghost use Rattle.console_ports.specs.DataSpace.{IsDataStart};
    ghost use Rattle.j1_assembler.specs.Assembly.{opened};

    /// An assembler behind a header.
    pub(crate) fn new(alloc: Global, data_start: u16) -> Assembler
        requires { IsDataStart data_start }
        ensures { result ≡ opened data_start }
    {
        Assembler {
            section: Section::Opening,
            data_start,
            cells: Vec::new(alloc),
            bytes: Vec::new(alloc),
        }
    }

    /// The section.
    pub(crate) fn section(&self) -> Section
        ensures { result ≡ self.now.section }
    {
        self.section
    }

    /// The image of the cells and bytes.
    pub(crate) fn image(&self, alloc: Global) -> Result<Image, AllocError>
        ensures { IfOk result (λ image. image ≡ record { cells = self.now.cells; bytes = self.now.bytes; data_start = self.now.data_start }) }
    {
        Image::split(
            alloc,
            self.cells.as_slice(),
            self.bytes.as_slice(),
            self.data_start,
        )
    }

    // Adds a cell.
    fn add_cell(&mut self, cell: u16) -> Result<(), LineError>
        ensures { LineGives (λ _. self.new) result (with_cell self.old cell) }
    {
        if self.cells.len() >= usize::from(self.data_start) / 2 {
            return Err(LineError::Fault(AsmCause::Full));
        }
        match self.cells.push(cell) {
            Ok(()) => Ok(()),
            Err(_) => Err(LineError::OutOfMemory),
        }
    }

    // Adds the instruction of a line, if there is one.
    fn add_operation(
        &mut self,
        labels: &Labels<'_>,
        operation: Option<Operation<'_>>,
    ) -> Result<(), LineError>
        ensures { LineGives (λ _. self.new) result (with_operation (found_in labels.now) self.old (option_map seen operation.entry)) }
    {
        match operation {
            None => Ok(()),
            Some(operation) => match cell_of(labels, operation) {
                Ok(cell) => self.add_cell(cell),
                Err(error) => Err(error),
            },
        }
    }

    // A code line, with its number.
    fn code_line(&mut self, labels: &Labels<'_>, number: u32, line: &[u8]) -> Result<(), LineError>
        ensures { LineGives (λ _. self.new) result (code_line (found_in labels.now) number self.old (fields_of line.now)) }
    {
        let (place, rest) = split_place(line);
        let (label, rest) = split_label(rest);
        let Some(operation) = optional_instruction(rest) else {
            return Err(LineError::Fault(AsmCause::Form));
        };
        if !is_present(place, self.cells.len()) {
            return Err(LineError::Fault(AsmCause::Address));
        }
        if !is_first(labels, label, number) {
            return Err(LineError::Fault(AsmCause::Label));
        }
        self.add_operation(labels, operation)
    }

    // Adds data bytes.
    fn add_bytes(&mut self, bytes: &[u8]) -> Result<(), LineError>
        ensures { LineGives (λ _. self.new) result (with_bytes self.old bytes.now) }
    {
        if self.bytes.len() + bytes.len() > 16384 - usize::from(self.data_start) {
            return Err(LineError::Fault(AsmCause::Full));
        }
        match self.bytes.extend_from_slice(bytes) {
            Ok(()) => Ok(()),
            Err(_) => Err(LineError::OutOfMemory),
        }
    }

    // A data line.
    fn data_line(&mut self, line: &[u8]) -> Result<(), LineError>
        ensures { LineGives (λ _. self.new) result (data_line self.old (fields_of line.now)) }
    {
        let (place, rest) = split_place(line);
        let Some(bytes) = data_of(rest) else {
            return Err(LineError::Fault(AsmCause::Form));
        };
        if !is_present(place, usize::from(self.data_start) + self.bytes.len()) {
            return Err(LineError::Fault(AsmCause::Address));
        }
        self.add_bytes(bytes.as_slice())
    }

    // Goes on to a section, where the line is formed.
    fn begin(&mut self, section: Section, line: &[u8]) -> Result<(), LineError>
        ensures { LineGives (λ _. self.new) result (formed line.now (record self.old { section = section })) }
    {
        if !is_formed(line) {
            return Err(LineError::Fault(AsmCause::Form));
        }
        self.section = section;
        Ok(())
    }

    // A line with fields that stands directly behind the header.
    fn opening_line(&mut self, line: &[u8]) -> Result<(), LineError>
        ensures { LineGives (λ _. self.new) result (opening_line self.old line.now (heading_of (fields_of line.now))) }
    {
        match heading_of(line) {
            Some(Heading::Code) => self.begin(Section::Code, line),
            _ => Err(LineError::Fault(AsmCause::Section)),
        }
    }

    // A line with fields of the section `CODE`.
    fn line_of_code(
        &mut self,
        labels: &Labels<'_>,
        number: u32,
        line: &[u8],
    ) -> Result<(), LineError>
        ensures { LineGives (λ _. self.new) result (line_of_code (found_in labels.now) number self.old line.now (heading_of (fields_of line.now))) }
    {
        match heading_of(line) {
            Some(Heading::Data) => self.begin(Section::Data, line),
            Some(_) => Err(LineError::Fault(AsmCause::Section)),
            None => {
                if !is_formed(line) {
                    return Err(LineError::Fault(AsmCause::Form));
                }
                self.code_line(labels, number, line)
            }
        }
    }

    // A line with fields of the section `DATA`.
    fn line_of_data(&mut self, line: &[u8]) -> Result<(), LineError>
        ensures { LineGives (λ _. self.new) result (line_of_data self.old line.now (heading_of (fields_of line.now))) }
    {
        match heading_of(line) {
            Some(Heading::End) => self.begin(Section::End, line),
            Some(_) => Err(LineError::Fault(AsmCause::Section)),
            None => {
                if !is_formed(line) {
                    return Err(LineError::Fault(AsmCause::Form));
                }
                self.data_line(line)
            }
        }
    }

    /// A line behind the header, with its number.
    pub(crate) fn line(
        &mut self,
        labels: &Labels<'_>,
        number: u32,
        line: &[u8],
    ) -> Result<(), LineError>
        ensures { LineGives (λ _. self.new) result (line_outcome (found_in labels.now) number self.old line.now) }
    {
        if next_field(line).is_none() {
            return if is_formed(line) {
                Ok(())
            } else {
                Err(LineError::Fault(AsmCause::Form))
            };
        }
        match self.section {
            Section::Opening => self.opening_line(line),
            Section::Code => self.line_of_code(labels, number, line),
            Section::Data => self.line_of_data(line),
            Section::End => Err(LineError::Fault(AsmCause::AfterEnd)),
        }
    }
}
