// Single cells, and the cells of loops.
ghost use Rattle.std.specs.Prelude.{◌≡◌, ℕ, ◌+◌, ◌<◌, ◌≤◌, ◌++◌, ◌∷◌, [], OnOk, not, true, false};
ghost use Rattle.j1_table.specs.declared.instr.Instr.TheVariants.{Jump, Call};
ghost use Rattle.j1_table.specs.Instruction.{decoded};
ghost use Rattle.word_table.specs.Table.{cells_from};
ghost use Rattle.word_laws.specs.Numbers.{number_cells};
ghost use Rattle.code_layout.specs.Layout.{jump_to, branch_to, call_to, call_cell as cell_of_call, return_cell, cell_if, do_cells as cells_of_do, q_do_cells, of_cells, end_case_cells, plus_loop_cells, turn_cells, out_cells, execute_cells, abort_cells, leaving_cells};

use crate::words::add_phrase;
use std::alloc::AllocError;
use word_table::{Word, plain_cells};

const BRANCH: u16 = 0x2000;

const CALL: u16 = 0x4000;

const RETURN: u16 = 0x700C;

fn add_cell(code: &mut Vec<u16>, cell: u16) -> Result<(), AllocError>
    ensures { OnOk result (code.new.items ≡ code.old.items ++ cell ∷ []) }
{
    code.push(cell)?;
    Ok(())
}

pub(crate) fn add_jump(code: &mut Vec<u16>, target: u16) -> Result<(), AllocError>
    ensures { OnOk result (code.new.items ≡ code.old.items ++ jump_to target ∷ []) }
{
    add_cell(code, target)
}

/// A jump where the top cell is 0.
pub(crate) fn add_branch(code: &mut Vec<u16>, target: u16) -> Result<(), AllocError>
    requires { target < 8192 }
    ensures { OnOk result (code.new.items ≡ code.old.items ++ branch_to target ∷ []) }
{
    add_cell(code, BRANCH + target)
}

/// The jump to the target of a call: in tail position it does what the call does with a return after it.
pub fn tail_jump(call: u16) -> u16
    requires { (0x4000 ≤ call) × (call < 0x6000) }
    ensures { (target : ℕ) → decoded call ≡ Call target → decoded result ≡ Jump target }
{
    call - CALL
}

pub(crate) fn call_cell(target: u16) -> u16
    requires { target < 8192 }
    ensures { result ≡ call_to target }
{
    CALL + target
}

/// A call in tail position is a jump.
pub(crate) fn add_call(code: &mut Vec<u16>, target: u16, tail: bool) -> Result<(), AllocError>
    requires { target < 8192 }
    ensures { OnOk result (code.new.items ≡ code.old.items ++ cell_of_call tail target ∷ []) }
{
    if tail {
        add_cell(code, target)
    } else {
        add_cell(code, call_cell(target))
    }
}

/// A return, where code leads to it.
pub(crate) fn add_return(code: &mut Vec<u16>, reached: bool) -> Result<(), AllocError>
    ensures { OnOk result (code.new.items ≡ code.old.items ++ cell_if reached return_cell) }
{
    if reached {
        add_cell(code, RETURN)
    } else {
        Ok(())
    }
}

/// A number below 0x8000 is a literal; a greater one is its complement, which is then inverted.
pub(crate) fn add_number(code: &mut Vec<u16>, value: u16) -> Result<(), AllocError>
    ensures { OnOk result (code.new.items ≡ code.old.items ++ number_cells value) }
{
    if value < 0x8000 {
        code.extend_from_slice(&[0x8000 + value])
    } else {
        code.extend_from_slice(&[0x8000 + (0xffff - value), 0x6600])
    }
}

/// The words that name data space have the byte address at which it begins, and all others their cells of the table.
pub(crate) fn add_word(code: &mut Vec<u16>, word: Word, data_start: u16) -> Result<(), AllocError>
    requires { data_start ≤ 16000 }
    ensures { OnOk result (code.new.items ≡ code.old.items ++ cells_from data_start word) }
{
    match word {
        Word::Base => code.extend_from_slice(&[0x8000 + data_start]),
        Word::Here => code.extend_from_slice(&[0x8000 + (data_start + 4), 0x6C00]),
        Word::Decimal => code.extend_from_slice(&[0x800A, 0x8000 + data_start, 0x6023, 0x6103]),
        Word::Hex => code.extend_from_slice(&[0x8010, 0x8000 + data_start, 0x6023, 0x6103]),
        _ => code.extend_from_slice(plain_cells(word)),
    }
}

/// `DO` keeps the limit, and above it index minus limit.
pub(crate) fn add_do(code: &mut Vec<u16>) -> Result<(), AllocError>
    ensures { OnOk result (code.new.items ≡ code.old.items ++ cells_of_do) }
{
    add_phrase(
        code,
        &[
            Word::Swap,
            Word::Dup,
            Word::ToR,
            Word::Invert,
            Word::Plus,
            Word::OnePlus,
            Word::ToR,
        ],
    )
}

/// `?DO`: where limit and start differ the loop is begun, else it is jumped over.
pub(crate) fn add_skip(code: &mut Vec<u16>, loop_at: u16, end_at: u16) -> Result<(), AllocError>
    requires { loop_at < 8192 }
    ensures { OnOk result (code.new.items ≡ code.old.items ++ q_do_cells loop_at end_at) }
{
    add_phrase(code, &[Word::Over, Word::Over, Word::Equal])?;
    add_branch(code, loop_at)?;
    add_phrase(code, &[Word::DropTop, Word::DropTop])?;
    add_jump(code, end_at)
}

/// `OF`: where its cell is not that of the case the other arms follow, else that is dropped.
pub(crate) fn add_of(code: &mut Vec<u16>, other_at: u16) -> Result<(), AllocError>
    requires { other_at < 8192 }
    ensures { OnOk result (code.new.items ≡ code.old.items ++ of_cells other_at) }
{
    add_phrase(code, &[Word::Over, Word::Equal])?;
    add_branch(code, other_at)?;
    add_drop(code)
}

/// Drops the cell of a case: `ENDCASE`, and the end of `OF`.
pub(crate) fn add_drop(code: &mut Vec<u16>) -> Result<(), AllocError>
    ensures { OnOk result (code.new.items ≡ code.old.items ++ end_case_cells) }
{
    add_phrase(code, &[Word::DropTop])
}

/// A jump, where code leads to it.
pub(crate) fn add_jump_if(code: &mut Vec<u16>, reached: bool, target: u16) -> Result<(), AllocError>
    ensures { OnOk result (code.new.items ≡ code.old.items ++ cell_if reached (jump_to target)) }
{
    if reached {
        add_jump(code, target)
    } else {
        Ok(())
    }
}

// `LOOP` adds 1, and the loop is over where 0 is left.
fn add_loop(code: &mut Vec<u16>, body_at: u16, out_at: u16) -> Result<(), AllocError>
    requires { out_at < 8192 }
    ensures { OnOk result (code.new.items ≡ code.old.items ++ turn_cells false body_at out_at) }
{
    add_phrase(code, &[Word::RFrom, Word::OnePlus, Word::Dup, Word::ToR])?;
    add_branch(code, out_at)?;
    add_jump(code, body_at)
}

// `+LOOP` adds the step, and goes on where the boundary at the limit is not crossed.
fn add_plus_loop(code: &mut Vec<u16>, body_at: u16) -> Result<(), AllocError>
    requires { body_at < 8192 }
    ensures { OnOk result (code.new.items ≡ code.old.items ++ plus_loop_cells ++ branch_to body_at ∷ []) }
{
    add_phrase(
        code,
        &[
            Word::RFrom,
            Word::Over,
            Word::Over,
            Word::Xor,
            Word::ToR,
            Word::Swap,
            Word::Over,
            Word::Plus,
            Word::Swap,
            Word::Over,
            Word::Xor,
            Word::RFrom,
            Word::And,
            Word::ZeroLess,
            Word::Swap,
            Word::ToR,
        ],
    )?;
    add_branch(code, body_at)
}

/// The end of a turn, by `LOOP` or with true by `+LOOP`.
pub(crate) fn add_turn(
    code: &mut Vec<u16>,
    plus: bool,
    body_at: u16,
    out_at: u16,
) -> Result<(), AllocError>
    requires body { body_at < 8192 }
    requires out { out_at < 8192 }
    ensures { OnOk result (code.new.items ≡ code.old.items ++ turn_cells plus body_at out_at) }
{
    if plus {
        add_plus_loop(code, body_at)
    } else {
        add_loop(code, body_at, out_at)
    }
}

/// Where a loop is over its two return cells are dropped.
pub(crate) fn add_out(code: &mut Vec<u16>) -> Result<(), AllocError>
    ensures { OnOk result (code.new.items ≡ code.old.items ++ out_cells) }
{
    add_phrase(
        code,
        &[Word::RFrom, Word::DropTop, Word::RFrom, Word::DropTop],
    )
}

/// `EXECUTE`: DUP 1- count U< branch 7 + 2* >R return, and 13 to the halt port where there is no such token.
pub(crate) fn add_execute(code: &mut Vec<u16>, at: u16, count: u16) -> Result<(), AllocError>
    requires at { at + 11 < 8192 }
    requires count { count < 32768 }
    ensures { OnOk result (code.new.items ≡ code.old.items ++ execute_cells at count) }
{
    code.extend_from_slice(&[
        0x6081,
        0x6A00,
        0x8000 + count,
        0x6F03,
        BRANCH + (at + 11),
        0x8007,
        0x6203,
        0x8001,
        0x6D03,
        0x6147,
        RETURN,
        0x800D,
        0xC004,
        0x6023,
        0x6103,
    ])
}

/// `ABORT"`: >R >R branch R> R> TYPE, 2 to the halt port, and R> DROP R> DROP return where the flag is 0.
pub(crate) fn add_abort(code: &mut Vec<u16>, at: u16, type_at: u16) -> Result<(), AllocError>
    requires at { at + 10 < 8192 }
    requires type_at { type_at < 8192 }
    ensures { OnOk result (code.new.items ≡ code.old.items ++ abort_cells at type_at) }
{
    code.extend_from_slice(&[
        0x6147,
        0x6147,
        BRANCH + (at + 10),
        0x6B8D,
        0x6B8D,
        CALL + type_at,
        0x8002,
        0xC004,
        0x6023,
        0x6103,
        0x6B8D,
        0x6103,
        0x6B8D,
        0x6103,
        RETURN,
    ])
}

/// `GO`, where it is used: >R return.
pub(crate) fn add_leaving(code: &mut Vec<u16>, used: bool) -> Result<(), AllocError>
    ensures { OnOk result (code.new.items ≡ code.old.items ++ leaving_cells (not used)) }
{
    if used {
        code.extend_from_slice(&[0x6147, RETURN])
    } else {
        Ok(())
    }
}
