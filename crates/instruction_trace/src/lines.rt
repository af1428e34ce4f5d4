// The line of an instruction.
ghost use Rattle.std.specs.Prelude.{◌≡◌, ◌++◌, ◌∷◌, [], None, codes, decimal, IfOk, OnOk};
ghost use Rattle.std.specs.List.{flat_map};
ghost use Rattle.decompiler.specs.Listing.{hex2, hex4, place, spaced};
ghost use Rattle.instruction_trace.specs.TraceText.{register_fields, cell_field, fetch_fields, store_fields, access_fields};
ghost use Rattle.instruction_trace.specs.Trace.{line_at};

use decompiler::{add_field, add_hex2, add_hex4, add_instruction, add_place};
use itoa::Buffer;
use j1_simulator::{Accesses, Machine, Registers};
use std::alloc::{AllocError, Global};

// Appends a cell.
fn add_cell(text: &mut Vec<u8>, cell: u16) -> Result<(), AllocError>
    ensures { OnOk result (text.new.items ≡ text.old.items ++ flat_map spaced (hex4 cell ∷ [])) }
{
    text.extend_from_slice(b" ")?;
    add_hex4(text, cell)
}

// Appends the number of an instruction, its place and its cell.
fn add_head(text: &mut Vec<u8>, number: u32, at: u16, cell: u16) -> Result<(), AllocError>
    ensures { OnOk result (text.new.items ≡ text.old.items ++ (decimal number ++ flat_map spaced (place at ∷ hex4 cell ∷ []))) }
{
    let mut digits = Buffer::new();
    text.extend_from_slice(digits.format(number).as_bytes())?;
    text.extend_from_slice(b" ")?;
    add_place(text, at)?;
    add_cell(text, cell)
}

// Appends a name and a cell.
fn add_register(text: &mut Vec<u8>, name: &[u8], cell: u16) -> Result<(), AllocError>
    ensures { OnOk result (text.new.items ≡ text.old.items ++ flat_map spaced ((name.now ++ hex4 cell) ∷ [])) }
{
    add_field(text, name)?;
    add_hex4(text, cell)
}

// Appends a name and a pointer.
fn add_pointer(text: &mut Vec<u8>, name: &[u8], pointer: u8) -> Result<(), AllocError>
    ensures { OnOk result (text.new.items ≡ text.old.items ++ flat_map spaced ((name.now ++ hex2 pointer) ∷ [])) }
{
    add_field(text, name)?;
    add_hex2(text, pointer)
}

// Appends T, N, R and both pointers.
fn add_registers(text: &mut Vec<u8>, registers: Registers) -> Result<(), AllocError>
    ensures { OnOk result (text.new.items ≡ text.old.items ++ flat_map spaced (register_fields registers)) }
{
    add_register(text, b"T=", registers.t)?;
    add_register(text, b"N=", registers.n)?;
    add_register(text, b"R=", registers.r)?;
    add_pointer(text, b"DSP=", registers.data_pointer)?;
    add_pointer(text, b"RSP=", registers.return_pointer)
}

// Appends a fetch, where there is one, with the cell that it gives, where that is known.
fn add_fetch(text: &mut Vec<u8>, address: Option<u16>, cell: Option<u16>) -> Result<(), AllocError>
    ensures { OnOk result (text.new.items ≡ text.old.items ++ flat_map spaced (fetch_fields address cell)) }
{
    let Some(address) = address else {
        return Ok(());
    };
    add_field(text, b"fetch")?;
    add_cell(text, address)?;
    match cell {
        Some(cell) => add_cell(text, cell),
        None => Ok(()),
    }
}

// Appends a store, where there is one.
fn add_store(text: &mut Vec<u8>, store: Option<(u16, u16)>) -> Result<(), AllocError>
    ensures { OnOk result (text.new.items ≡ text.old.items ++ flat_map spaced (store_fields store)) }
{
    let Some((address, cell)) = store else {
        return Ok(());
    };
    add_field(text, b"store")?;
    add_cell(text, address)?;
    add_cell(text, cell)
}

// Appends the accesses of an instruction.
#[tactic(auto, using(crate::proofs::Fields::two_parts))]
fn add_accesses(text: &mut Vec<u8>, accesses: Accesses, cell: Option<u16>) -> Result<(), AllocError>
    ensures { OnOk result (text.new.items ≡ text.old.items ++ flat_map spaced (access_fields accesses cell)) }
{
    add_fetch(text, accesses.fetch, cell)?;
    add_store(text, accesses.store)
}

/// The line of the next instruction of a machine that has not ended, with this number. An error is want of memory.
pub fn instruction_line(
    alloc: Global,
    number: u32,
    machine: &Machine,
) -> Result<Vec<u8>, AllocError>
    requires { machine.now.ended ≡ None }
    ensures { IfOk result (λ line. line.items ≡ line_at number machine.now.data_start machine.now.core) }
{
    let registers = machine.registers();
    let mut text = Vec::new(alloc);
    add_head(&mut text, number, registers.place, registers.cell)?;
    add_registers(&mut text, registers)?;
    add_accesses(&mut text, machine.accesses(), machine.data_cell())?;
    add_instruction(&mut text, registers.cell)?;
    text.extend_from_slice(b"\n")?;
    Ok(text)
}
