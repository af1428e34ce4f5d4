// What an instruction does to the machine, in fields.
use crate::ends::End;

/// Where the new T comes from.
#[derive(Clone, Copy, Debug, PartialEq, Eq)]
pub enum NewTop {
    Number(u16),
    Operation(u8),
}

/// What is written into the return stack, at its new pointer.
#[derive(Clone, Copy, Debug, PartialEq, Eq)]
pub enum ReturnWrite {
    Nothing,
    OldTop,
    ReturnTo(u16),
}

/// Where the machine goes on.
#[derive(Clone, Copy, Debug, PartialEq, Eq)]
pub enum Next {
    Following,
    Target(u16),
    IfZero(u16),
    Returning,
}

/// What an instruction does.
#[derive(Clone, Copy, Debug, PartialEq, Eq)]
pub struct Effect {
    pub new_top: NewTop,
    pub data_move: i8,
    pub return_move: i8,
    pub t_to_n: bool,
    pub return_write: ReturnWrite,
    pub next: Next,
    pub fetches: bool,
    pub stores: bool,
}

/// Why an instruction was not made: it wants a byte, or it ends the run.
#[derive(Clone, Copy, Debug, PartialEq, Eq)]
pub enum Pause {
    Wants,
    Stops(End),
}

/// What goes out by an instruction that was made.
#[derive(Clone, Copy, Debug, PartialEq, Eq)]
pub enum Output {
    Silent,
    Prints(u8),
    Halts(u8),
}
