// The instructions of code lines.
ghost use Rattle.std.specs.Prelude.{◌≡◌, ℕ, map, MatchOption, Some, None, IfSome, option_map};
ghost use Rattle.j1_assembler.specs.Text.{fields_of};
ghost use Rattle.j1_assembler.specs.Instruction.{seen, going, alone, target_of, chosen, alu_of, named_of, mnemonic_of, instruction_of};
ghost use Rattle.j1_table.specs.Instruction.{encoded};

use crate::fields::next_field;
use crate::names::{cell_in, is_name, named_cell, operation_of};
use crate::numbers::hex4;
use j1_table::{Bits13, Bits15, Instr, encode};

/// How an instruction goes to its target.
#[derive(Clone, Copy, Debug, PartialEq, Eq)]
pub enum Way {
    Jump,
    Branch,
    Call,
}

/// A cell, or an instruction that goes to a label.
#[derive(Clone, Copy)]
pub enum Operation<'a> {
    Cell(u16),
    Reference(Way, &'a [u8]),
}

/// The cell that goes to a target.
pub fn cell_going(way: Way, target: Bits13) -> u16
    ensures { result ≡ encoded (going way target) }
{
    match way {
        Way::Jump => encode(Instr::Jump(target)),
        Way::Branch => encode(Instr::Branch(target)),
        Way::Call => encode(Instr::Call(target)),
    }
}

/// The one field of a line.
pub fn alone(line: &[u8]) -> Option<&[u8]>
    ensures { MatchOption result (alone (fields_of line.now) ≡ None) (λ field. alone (fields_of line.now) ≡ Some field.now) }
{
    let (field, rest) = next_field(line)?;
    match next_field(rest) {
        Some(_) => None,
        None => Some(field),
    }
}

// A number of four digits, or `:` and a name.
fn target_of(way: Way, field: &[u8]) -> Option<Operation<'_>>
    ensures { option_map seen result ≡ target_of way field.now }
{
    let (first, name) = field.split_first()?;
    if *first == b':' {
        return if is_name(name) {
            Some(Operation::Reference(way, name))
        } else {
            None
        };
    }
    let target = Bits13::new(hex4(field)?)?;
    Some(Operation::Cell(cell_going(way, target)))
}

// One of these fields, if it comes next, adds its bits.
fn option<'a>(bits: u16, line: &'a [u8], entries: &[(&str, u16)]) -> (u16, &'a [u8])
    ensures { record { bits = result.0; fields = fields_of result.1.now } ≡ chosen (map (λ entry. (entry.0.now, entry.1)) entries.now) bits (fields_of line.now) }
{
    match next_field(line) {
        Some((field, rest)) => match cell_in(field, entries) {
            Some(more) => (bits | more, rest),
            None => (bits, line),
        },
        None => (bits, line),
    }
}

// An ALU cell: an operation and its optional fields.
fn alu_of(line: &[u8]) -> Option<u16>
    ensures { result ≡ alu_of (fields_of line.now) }
{
    let (field, rest) = next_field(line)?;
    let operation = operation_of(field)?;
    let (bits, rest) = option(0x6000 + 256 * u16::from(operation), rest, &[("T->N", 0x80)]);
    let (bits, rest) = option(bits, rest, &[("T->R", 0x40)]);
    let (bits, rest) = option(bits, rest, &[("N->[T]", 0x20)]);
    let (bits, rest) = option(bits, rest, &[("R->PC", 0x1000)]);
    let (bits, rest) = option(bits, rest, &[("r+1", 4), ("r-1", 12), ("r-2", 8)]);
    let (bits, rest) = option(bits, rest, &[("d+1", 1), ("d-1", 3), ("d-2", 2)]);
    match next_field(rest) {
        Some(_) => None,
        None => Some(bits),
    }
}

// What the first field of an instruction says.
enum Mnemonic {
    Lit,
    Raw,
    Alu,
    Goes(Way),
    Other,
}

fn mnemonic_of(word: &[u8]) -> Mnemonic
    ensures { result ≡ mnemonic_of word.now }
{
    if word == b"lit".as_slice() {
        Mnemonic::Lit
    } else if word == b"jump".as_slice() {
        Mnemonic::Goes(Way::Jump)
    } else if word == b"branch".as_slice() {
        Mnemonic::Goes(Way::Branch)
    } else if word == b"call".as_slice() {
        Mnemonic::Goes(Way::Call)
    } else if word == b"raw".as_slice() {
        Mnemonic::Raw
    } else if word == b"alu".as_slice() {
        Mnemonic::Alu
    } else {
        Mnemonic::Other
    }
}

// The cell of a name that stands alone.
fn named_of(word: &[u8], operands: &[u8]) -> Option<u16>
    ensures { result ≡ named_of word.now (fields_of operands.now) }
{
    match next_field(operands) {
        Some(_) => None,
        None => named_cell(word),
    }
}

/// The instruction that a line consists of.
pub fn instruction_of(line: &[u8]) -> Option<Operation<'_>>
    ensures { option_map seen result ≡ instruction_of (fields_of line.now) }
{
    let (word, operands) = next_field(line)?;
    match mnemonic_of(word) {
        Mnemonic::Lit => {
            let value = Bits15::new(hex4(alone(operands)?)?)?;
            Some(Operation::Cell(encode(Instr::Literal(value))))
        }
        Mnemonic::Raw => {
            let cell = hex4(alone(operands)?)?;
            Some(Operation::Cell(cell))
        }
        Mnemonic::Alu => {
            let cell = alu_of(operands)?;
            Some(Operation::Cell(cell))
        }
        Mnemonic::Goes(way) => target_of(way, alone(operands)?),
        Mnemonic::Other => {
            let cell = named_of(word, operands)?;
            Some(Operation::Cell(cell))
        }
    }
}
