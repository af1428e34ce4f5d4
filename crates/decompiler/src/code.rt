// Code lines.
ghost use Rattle.std.specs.Prelude.{◌≡◌, ◌<◌, ◌≤◌, ◌+◌, ◌++◌, ◌∷◌, [], length, OnOk};
ghost use Rattle.std.specs.List.{flat_map};
ghost use Rattle.j1_table.specs.Fields.{has_bit, return_move_of, data_move_of};
ghost use Rattle.j1_table.specs.Instruction.{decoded, encoded};
ghost use Rattle.j1_assembler.specs.Names.{named_cells, name_in};
ghost use Rattle.decompiler.specs.Listing.{hex4, spaced, flag, move_field, flag_fields, move_fields, alu_options, alu_by, instruction_fields, comment_of, text_fields, code_fields, code_rows, line_text};

use crate::digits::{add_field, add_hex4, add_place};
use j1_assembler::{name_of_cell, operation_name};
use j1_table::{AluWord, Instr, decode};
use std::alloc::AllocError;

// Appends a word and a number.
fn add_number(text: &mut Vec<u8>, word: &[u8], n: u16) -> Result<(), AllocError>
    ensures { OnOk result (text.new.items ≡ text.old.items ++ flat_map spaced (word.now ∷ hex4 n ∷ [])) }
{
    add_field(text, word)?;
    text.extend_from_slice(b" ")?;
    add_hex4(text, n)
}

// Appends a field where the test holds.
fn add_flag(text: &mut Vec<u8>, is_set: bool, name: &[u8]) -> Result<(), AllocError>
    ensures { OnOk result (text.new.items ≡ text.old.items ++ flat_map spaced (flag is_set name.now)) }
{
    if is_set {
        add_field(text, name)
    } else {
        Ok(())
    }
}

// Appends the move of a stack, if it moves.
fn add_move(text: &mut Vec<u8>, letter: u8, places: i8) -> Result<(), AllocError>
    ensures { OnOk result (text.new.items ≡ text.old.items ++ flat_map spaced (move_field letter places)) }
{
    match places {
        1 => add_field(text, &[letter, b'+', b'1']),
        -1 => add_field(text, &[letter, b'-', b'1']),
        -2 => add_field(text, &[letter, b'-', b'2']),
        _ => Ok(()),
    }
}

#[tactic(auto, using(crate::proofs::Spaced::spaced_append))]
fn add_two_flags(
    text: &mut Vec<u8>,
    first: bool,
    first_name: &[u8],
    second: bool,
    second_name: &[u8],
) -> Result<(), AllocError>
    ensures { OnOk result (text.new.items ≡ text.old.items ++ flat_map spaced (flag first first_name.now ++ flag second second_name.now)) }
{
    add_flag(text, first, first_name)?;
    add_flag(text, second, second_name)
}

// Appends the moves of both stacks.
#[tactic(auto, using(crate::proofs::Spaced::spaced_append))]
fn add_moves(text: &mut Vec<u8>, word: AluWord) -> Result<(), AllocError>
    ensures { OnOk result (text.new.items ≡ text.old.items ++ flat_map spaced (move_fields word)) }
{
    add_move(text, b'r', word.r_move())?;
    add_move(text, b'd', word.d_move())
}

// Appends what an ALU cell does besides its operation.
#[tactic(auto, using(crate::proofs::Spaced::spaced_append))]
fn add_flags(text: &mut Vec<u8>, word: AluWord) -> Result<(), AllocError>
    ensures { OnOk result (text.new.items ≡ text.old.items ++ flat_map spaced (flag_fields word)) }
{
    add_two_flags(text, word.t_to_n(), b"T->N", word.t_to_r(), b"T->R")?;
    add_two_flags(text, word.stores(), b"N->[T]", word.returns(), b"R->PC")
}

// Appends the optional fields of an ALU cell.
#[tactic(auto, using(crate::proofs::Spaced::spaced_append))]
fn add_options(text: &mut Vec<u8>, word: AluWord) -> Result<(), AllocError>
    ensures { OnOk result (text.new.items ≡ text.old.items ++ flat_map spaced (alu_options word)) }
{
    add_flags(text, word)?;
    add_moves(text, word)
}

// Appends an ALU cell.
fn add_alu(text: &mut Vec<u8>, word: AluWord, cell: u16) -> Result<(), AllocError>
    requires { cell ≡ 0x6000 + word }
    ensures { OnOk result (text.new.items ≡ text.old.items ++ flat_map spaced (alu_by (has_bit word 4) word)) }
{
    if word.bit4() {
        return add_number(text, b"raw", cell);
    }
    add_field(text, b"alu")?;
    add_field(text, operation_name(word.op()).as_bytes())?;
    add_options(text, word)
}

// Appends the instruction that a cell stands for.
fn add_instr(text: &mut Vec<u8>, instr: Instr, cell: u16) -> Result<(), AllocError>
    requires { cell ≡ encoded instr }
    ensures { OnOk result (text.new.items ≡ text.old.items ++ flat_map spaced (instruction_fields instr)) }
{
    match instr {
        Instr::Literal(value) => add_number(text, b"lit", value.get()),
        Instr::Jump(target) => add_number(text, b"jump", target.get()),
        Instr::Branch(target) => add_number(text, b"branch", target.get()),
        Instr::Call(target) => add_number(text, b"call", target.get()),
        Instr::Alu(word) => add_alu(text, word, cell),
    }
}

// Appends the name of a cell as a comment, if it has one.
fn add_comment(text: &mut Vec<u8>, cell: u16) -> Result<(), AllocError>
    ensures { OnOk result (text.new.items ≡ text.old.items ++ flat_map spaced (comment_of (name_in cell named_cells))) }
{
    match name_of_cell(cell) {
        Some(name) => {
            add_field(text, b"\\")?;
            add_field(text, name.as_bytes())
        }
        None => Ok(()),
    }
}

/// Appends the instruction that a cell stands for, and its name as a comment, if it has one; each field behind a space.
#[tactic(auto, using(crate::proofs::Spaced::spaced_append))]
pub fn add_instruction(text: &mut Vec<u8>, cell: u16) -> Result<(), AllocError>
    ensures { OnOk result (text.new.items ≡ text.old.items ++ flat_map spaced (text_fields cell)) }
{
    add_instr(text, decode(cell), cell)?;
    add_comment(text, cell)
}

// Appends a code line.
#[tactic(auto, using(crate::proofs::Spaced::spaced_append))]
fn add_code_line(text: &mut Vec<u8>, number: u16, cell: u16) -> Result<(), AllocError>
    ensures { OnOk result (text.new.items ≡ text.old.items ++ line_text (code_fields number cell)) }
{
    add_place(text, number)?;
    add_instruction(text, cell)?;
    text.extend_from_slice(b"\n")
}

/// Appends the code lines of cells.
pub fn add_code(text: &mut Vec<u8>, cells: &[u16]) -> Result<(), AllocError>
    requires { length cells.now ≤ 8192 }
    ensures { OnOk result (text.new.items ≡ text.old.items ++ flat_map line_text (code_rows 0 cells.now)) }
{
    for (number, cell) in cells.iter().enumerate() {
        add_code_line(text, number as u16, *cell)?;
    }
    Ok(())
}
