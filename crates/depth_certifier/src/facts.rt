// What a walk over a body goes by.
use crate::effect::Effect;
use crate::place::Bounds;

/// Whether the heads of loops are to be found, the limits of the definition, and the shared effect of the execution tokens.
#[derive(Clone, Copy)]
pub struct Facts {
    pub finding: bool,
    pub bounds: Bounds,
    pub shared: Effect,
}
