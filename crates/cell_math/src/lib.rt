//! Cells of 16 bits: sums, negation, the signed view, and products and quotients of whole numbers.
#![tactic(auto)]

mod laws;
mod products;
mod quotients;
mod sums;

pub use laws::quotients_are_exact;
pub use products::{m_star, um_star};
pub use quotients::{fm_div, sm_div, um_div};
pub use sums::{Cell, add, negate, signed};
