//! Step bounds: a number of machine instructions within which every run of a program ends.
#![tactic(auto)]

mod bound;
mod bounding;
mod calls;
mod capped;
mod costs;
mod last;
mod laws;
mod parts;
mod reached;
mod refusals;
mod turns;

pub use bound::{BoundCause, BoundError, StepBound};
pub use bounding::step_bound;
pub use laws::{bounded_images_end, bounded_programs_end, turns_are_counted};
