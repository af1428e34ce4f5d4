//! Stack certificates: how many data cells and return cells the definitions of a program take at most.
#![tactic(auto)]

mod certificate;
mod changes;
mod closing;
mod comparing;
mod counting;
mod demands;
mod effect;
mod entering;
mod entries;
mod facts;
mod follow;
mod following;
mod joining;
mod laws;
mod making;
mod noting;
mod parts;
mod place;
mod refused;
mod rounds;
mod settling;
mod shape;
mod sharing;
mod single;
mod taking;
mod text;
mod validity;
mod walker;
mod walking;

pub use certificate::Certificate;
pub use effect::{CertCause, Effect};
pub use laws::{certified_runs_fit, certified_runs_fit_behind_go, checks_are_exact, rounds_judge};
pub use refused::CertError;
pub use settling::certify;
pub use shape::Slot;
pub use text::certificate_text;
pub use validity::check;
