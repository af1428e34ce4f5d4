// The new T and the next place.
ghost use Rattle.std.specs.Prelude.{◌≡◌, ◌<◌, Some, IfSome};
ghost use Rattle.cell_math.specs.Cell.{flag};
ghost use Rattle.j1_simulator.specs.Operations.{on_t, on_t_and_n};
ghost use Rattle.j1_simulator.specs.Step.{operated, new_top_of, next_pc};
ghost use Rattle.j1_simulator.specs.RoundMachine.{round_storage};

use crate::effects::{NewTop, Next};
use crate::plans::next_place;
use cell_math::{add, signed};

#[inline(always)]
fn flag_of(holds: bool) -> u16
    ensures { result ≡ flag holds }
{
    if holds { 0xffff } else { 0 }
}

#[inline(always)]
fn binary(op: u8, t: u16, n: u16) -> u16
    ensures { result ≡ on_t_and_n op t n }
{
    match op {
        2 => add(t, n),
        3 => t & n,
        4 => t | n,
        5 => t ^ n,
        7 => flag_of(n == t),
        8 => flag_of(signed(n) < signed(t)),
        9 => n >> (t % 16),
        13 => n << (t % 16),
        _ => flag_of(n < t),
    }
}

#[inline(always)]
fn operate(op: u8, t: u16, n: u16, r: u16, cell: u16, depth: u16) -> u16
    ensures { result ≡ operated round_storage op t n r cell depth }
{
    match op {
        0 => t,
        1 => n,
        6 => !t,
        10 => add(t, 0xffff),
        11 => r,
        12 => cell,
        14 => depth,
        _ => binary(op, t, n),
    }
}

/// The new T.
#[inline(always)]
pub fn new_top(from: NewTop, t: u16, n: u16, r: u16, cell: u16, depth: u16) -> u16
    ensures { result ≡ new_top_of round_storage from t n r cell depth }
{
    match from {
        NewTop::Number(value) => value,
        NewTop::Operation(op) => operate(op, t, n, r, cell, depth),
    }
}

/// The next place.
#[inline(always)]
pub fn next_pc_of(next: Next, pc: u16, t: u16, r: u16) -> u16
    requires { pc < 0x2000 }
    ensures { next_pc round_storage next pc t r ≡ Some result }
{
    match next {
        Next::Following => next_place(pc),
        Next::Target(target) => target,
        Next::IfZero(target) => { if t == 0 { target } else { next_place(pc) } }
        Next::Returning => r / 2 % 0x2000,
    }
}
