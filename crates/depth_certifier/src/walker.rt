// A walk over a body, as far as it has come.
use crate::place::{Change, Reach};

/// The place, the join of the LEAVEs of the loop around it, the effect so far, and the number of loops so far.
#[derive(Clone, Copy)]
pub struct Walker {
    pub place: Reach,
    pub leaves: Reach,
    pub need: u32,
    pub peak: u32,
    pub back: u32,
    pub exit: Option<Change>,
    pub count: usize,
}
