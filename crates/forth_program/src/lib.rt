//! The items of Forth source, and what they mean.
//!
//! `specs` has the meaning: items as trees, the state of a run, the meaning of each word, one word step, runs with their
//! ends, and prices. A word step does one item: a literal, a word, a call, one decision or one turn of a structure, or the
//! end of a body.
#![tactic(auto)]

mod depth;
mod go;
mod item;
mod laws;
mod name;
mod program;

pub use item::{Arms, DefId, Item, Items, TextKind};
pub use laws::{
    only_go_leaves, prices_add, runs_compose, sources_stay, trees_have_parts, worlds_grow,
};
pub use name::Name;
pub use program::{Program, ProgramParts, Token};
