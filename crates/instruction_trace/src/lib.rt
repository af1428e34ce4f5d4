//! Traces: a line for each instruction of a run, before it is made, with what the machine has then; and the bytes that are printed and taken.
//!
//! | line | stands |
//! |---|---|
//! | `NUMBER @PPPP CCCC T=XXXX N=XXXX R=XXXX DSP=XX RSP=XX`, its accesses, and its text | before the instruction is made: its number, from 1 on, its place and its cell, T, N, R and both pointers |
//! | `print XX` | behind an instruction that printed this byte |
//! | `take XX` | behind an instruction that took this byte |
//!
//! Numbers but the first are hexadecimal. The accesses are `fetch AAAA XXXX` with the cell that is fetched, which does not stand where the address
//! is not in data space, and `store AAAA XXXX`. The text is that of a code line of a listing, behind its place.
#![tactic(auto)]

mod lines;
mod outcomes;
mod traces;

pub use traces::{TraceError, trace};
