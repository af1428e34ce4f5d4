// Certificates.
ghost use Rattle.std.specs.Prelude.{◌≡◌, IfOk};

use crate::effect::Effect;
use std::alloc::{AllocError, Global};
use std::marker::Model;

/// What each definition of a program does to both stacks, what the word of each execution token does at most, and the change of the
/// data cells at the head of each loop, in the order of the source. Contracts see it as a plain record.
#[derive(Drop)]
pub struct Certificate {
    effects: Vec<Effect>,
    shared: Effect,
    heads: Vec<(i8, i8)>,
}

impl Model for Certificate {
    ghost use Rattle.depth_certifier.specs.Certificate.{Cert};

    ghost Value = { Cert };

    ghost view = { λ z. record { effects = z.effects.items; shared = z.shared; heads = z.heads.items } };
}

impl Certificate {
    /// The certificate of these parts. An error is want of memory.
    pub fn new(
        alloc: Global,
        effects: &[Effect],
        shared: Effect,
        heads: &[(i8, i8)],
    ) -> Result<Certificate, AllocError>
        ensures { IfOk result (λ z. z ≡ record { effects = effects.now; shared = shared; heads = heads.now }) }
    {
        let effects = Vec::from_slice(alloc, effects)?;
        let heads = Vec::from_slice(alloc, heads)?;
        Ok(Certificate {
            effects,
            shared,
            heads,
        })
    }

    /// The effects of the definitions.
    pub fn effects(&self) -> &[Effect]
        ensures { result.now ≡ self.now.effects }
    {
        self.effects.as_slice()
    }

    /// The effect that contains those of all execution tokens.
    pub fn shared(&self) -> Effect
        ensures { result ≡ self.now.shared }
    {
        self.shared
    }

    /// The least and the greatest change of the data cells at the head of each loop.
    pub fn heads(&self) -> &[(i8, i8)]
        ensures { result.now ≡ self.now.heads }
    {
        self.heads.as_slice()
    }
}
