// Cells as instructions, and instructions as cells.
ghost use Rattle.std.specs.Prelude.{◌≡◌, ◌%◌};
ghost use Rattle.j1_table.specs.Instruction.{decoded, encoded, moves_of, IsInstr, EncodesBack, DecodesBack, DecodesToInstr, EncodesToCell};

use crate::{AluWord, Bits13, Bits15, Instr};

// The low 13 bits of a cell.
#[inline(always)]
fn low_bits(cell: u16) -> Bits13
    ensures { result ≡ cell % 0x2000 }
{
    match Bits13::new(cell & 0x1fff) {
        Some(bits) => bits,
        None => unreachable!(),
    }
}

/// The instruction that a cell stands for. Each of the 65536 cells stands for one.
#[inline(always)]
pub fn decode(cell: u16) -> Instr
    ensures instr { result ≡ decoded cell }
    ensures back { encoded result ≡ cell }
    ensures fits { IsInstr result }
{
    if cell >= 0x8000 {
        return match Bits15::new(cell & 0x7fff) {
            Some(value) => Instr::Literal(value),
            None => unreachable!(),
        };
    }
    let bits = low_bits(cell);
    match cell >> 13 {
        0 => Instr::Jump(bits),
        1 => Instr::Branch(bits),
        2 => Instr::Call(bits),
        _ => Instr::Alu(AluWord::new(bits)),
    }
}

/// The cell that stands for an instruction.
pub fn encode(instr: Instr) -> u16
    ensures cell { result ≡ encoded instr }
    ensures back { decoded result ≡ instr }
{
    match instr {
        Instr::Literal(value) => 0x8000 + value.get(),
        Instr::Jump(target) => target.get(),
        Instr::Branch(target) => 0x2000 + target.get(),
        Instr::Call(target) => 0x4000 + target.get(),
        Instr::Alu(word) => 0x6000 + word.bits().get(),
    }
}

/// The move of the data stack and then that of the return stack, in cells, when the machine makes this cell.
///
/// A literal moves the data stack by 1, a branch by -1, a call the return stack by 1, and an ALU cell both by its fields.
pub fn effect_of(cell: u16) -> (i8, i8)
    ensures data { result.0 ≡ (moves_of (decoded cell)).0 }
    ensures returns { result.1 ≡ (moves_of (decoded cell)).1 }
{
    match decode(cell) {
        Instr::Literal(_) => (1, 0),
        Instr::Jump(_) => (0, 0),
        Instr::Branch(_) => (-1, 0),
        Instr::Call(_) => (0, 1),
        Instr::Alu(word) => (word.d_move(), word.r_move()),
    }
}

/// Cells and instructions stand for each other, one for one.
pub fn cells_are_instructions()
    ensures encodes { EncodesBack }
    ensures decodes { DecodesBack }
    ensures instructions { DecodesToInstr }
    ensures cells { EncodesToCell }
{}
