// The state of the evaluator.
use crate::stack::Stack;
use crate::work::Task;
use std::alloc::Global;

/// A return entry: a cell, or a loop with its limit and its index.
#[derive(Clone, Copy)]
pub(crate) enum Entry {
    Cell(u16),
    Loop(u16, u16),
}

/// A frame below the newest: its work and its return entries.
#[derive(Drop)]
pub(crate) struct Frame<'a> {
    pub(crate) tasks: Stack<Task<'a>>,
    pub(crate) entries: Stack<Entry>,
}

/// The newest frame's work and return entries, the frames below it and the data cells.
#[derive(Drop)]
pub(crate) struct Machine<'a> {
    pub(crate) tasks: Stack<Task<'a>>,
    pub(crate) entries: Stack<Entry>,
    pub(crate) callers: Stack<Frame<'a>>,
    pub(crate) cells: Stack<u16>,
    pub(crate) alloc: Global,
}
