//! The state on which host words act while a source is read, and what each plain host word does to it.
//!
//! In `specs/`, `HostWords` says what each word does, one line for each.
#![tactic(auto)]

mod entry;
mod image;
mod laws;
mod naming;
mod refusal;
mod space;
mod stack;
mod state;
mod within;
mod word;
mod words;

pub use entry::{Entry, Known, Ticked};
pub use laws::host_words_keep;
pub use refusal::{HostError, HostRefusal};
pub use space::DataSpace;
pub use state::HostState;
pub use word::{HostItem, HostWord};
