//! Names and what they stand for, the newest first found.
//!
//! A dictionary is a list of pairs of a name and a value, oldest first. A name may stand in it more than once, and the last
//! pair is found. The pairs stand in one vector; each is linked to the next older one of its bucket.
#![tactic(auto)]

mod bucket;
mod chain;
mod dictionary;

pub use bucket::bucket_of;
pub use dictionary::{AddRefusal, Dictionary, Mark};
