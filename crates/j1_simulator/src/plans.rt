// The effect of each instruction.
ghost use Rattle.std.specs.Prelude.{◌≡◌, ◌<◌, ◌≤ℤ◌, pos, negsuc};
ghost use Rattle.j1_simulator.specs.Effect.{effect, following};

use crate::effects::{Effect, NewTop, Next, ReturnWrite};
use j1_table::Instr;

/// The cell of memory after a cell.
#[inline(always)]
pub fn next_place(pc: u16) -> u16
    requires { pc < 0x2000 }
    ensures { result ≡ following pc }
{
    (pc + 1) % 0x2000
}

/// The effect of the instruction at a cell of memory.
#[inline(always)]
pub fn plan(pc: u16, instr: Instr) -> Effect
    requires { pc < 0x2000 }
    ensures { result ≡ effect pc instr }
{
    match instr {
        Instr::Literal(value) => Effect {
            new_top: NewTop::Number(value.get()),
            data_move: 1,
            return_move: 0,
            t_to_n: true,
            return_write: ReturnWrite::Nothing,
            next: Next::Following,
            fetches: false,
            stores: false,
        },
        Instr::Jump(target) => Effect {
            new_top: NewTop::Operation(0),
            data_move: 0,
            return_move: 0,
            t_to_n: false,
            return_write: ReturnWrite::Nothing,
            next: Next::Target(target.get()),
            fetches: false,
            stores: false,
        },
        Instr::Branch(target) => Effect {
            new_top: NewTop::Operation(1),
            data_move: -1,
            return_move: 0,
            t_to_n: false,
            return_write: ReturnWrite::Nothing,
            next: Next::IfZero(target.get()),
            fetches: false,
            stores: false,
        },
        Instr::Call(target) => Effect {
            new_top: NewTop::Operation(0),
            data_move: 0,
            return_move: 1,
            t_to_n: false,
            return_write: ReturnWrite::ReturnTo(2 * next_place(pc)),
            next: Next::Target(target.get()),
            fetches: false,
            stores: false,
        },
        Instr::Alu(word) => Effect {
            new_top: NewTop::Operation(word.op()),
            data_move: word.d_move(),
            return_move: word.r_move(),
            t_to_n: word.t_to_n(),
            return_write: if word.t_to_r() {
                ReturnWrite::OldTop
            } else {
                ReturnWrite::Nothing
            },
            next: if word.returns() {
                Next::Returning
            } else {
                Next::Following
            },
            fetches: word.op() == 12,
            stores: word.stores(),
        },
    }
}
