//! Several J1 cores that send each other cells by links.
#![tactic(auto)]

mod arrays;
mod events;
mod kept;
mod laws;
mod links;
mod mailboxes;
mod turns;

pub use arrays::{Array, ArrayError};
pub use events::CoreEvent;
pub use laws::{mailboxes_hold, runs_compose, schedules_agree};
pub use links::Link;
