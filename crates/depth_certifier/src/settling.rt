// The certificate that the rounds come to.
ghost use Rattle.std.specs.Prelude.{◌≡◌, ◌↔◌, ℕ, ◌<◌, true, length, IfOk, IfErr};
ghost use Rattle.depth_certifier.specs.Certificate.{Cert, IsValid};
ghost use Rattle.depth_certifier.specs.Rounds.{bottoms, IsLeast, RoundsRefuse};
ghost use Rattle.depth_certifier.specs.Counting.{all_loops, CountIs};
ghost use Rattle.depth_certifier.specs.Settling.{Settles, IsRefusal};
ghost use Rattle.depth_certifier.specs.declared.refused.CertError.TheVariants.{OutOfMemory};

use crate::certificate::Certificate;
use crate::counting::count_loops;
use crate::effect::Effect;
use crate::laws::rounds_judge;
use crate::refused::{CertError, Refused};
use crate::rounds::round;
use crate::sharing::bottom;
use crate::validity::tokens_are_proper;
use forth_program::Program;
use std::alloc::{AllocError, Global};

fn is_same(one: Effect, other: Effect) -> bool
    ensures { (result ≡ true) ↔ (one ≡ other) }
{
    one == other
}

fn are_same(some: &[Effect], others: &[Effect]) -> bool
    requires { length some.now ≡ length others.now }
    ensures { (result ≡ true) ↔ (some.now ≡ others.now) }
{
    for i in 0..some.len() {
        if !is_same(some[i], others[i]) {
            return false;
        }
    }
    true
}

// Whether a round has changed neither an effect nor the shared one.
fn is_settled(effects: &[Effect], shared: Effect, next: &[Effect], joined: Effect) -> bool
    requires { length next.now ≡ length effects.now }
    ensures { (result ≡ true) ↔ ((next.now ≡ effects.now) × (joined ≡ shared)) }
{
    are_same(next, effects) && is_same(joined, shared)
}

/// Rounds from the least effects on, until neither an effect nor the shared one changes.
fn settle(
    program: &Program,
    effects: &mut [Effect],
    next: &mut [Effect],
    notes: &mut [(i8, i8)],
) -> Result<Effect, Refused>
    requires effects { effects.old ≡ bottoms program.now }
    requires next { length next.old ≡ length program.now.bodies }
    requires notes { length notes.old ≡ all_loops program.now.bodies }
    ensures { Settles program.now result effects.new notes.new }
{
    let mut shared = bottom();
    'rounds: loop {
        let joined = match round(program, effects, shared, next, notes) {
            Err(refused) => return Err(refused),
            Ok(joined) => joined,
        };
        if is_settled(effects, shared, next, joined) {
            return Ok(shared);
        }
        effects.copy_from_slice(next);
        shared = joined;
    }
}

// The effects from which the rounds begin.
fn least_effects(alloc: Global, program: &Program) -> Result<Vec<Effect>, AllocError>
    ensures { IfOk result (λ effects. effects.items ≡ bottoms program.now) }
{
    let effects = vec![in alloc; bottom(); program.def_count() as usize]?;
    Ok(effects)
}

// No head yet, for each of so many loops.
fn no_heads(alloc: Global, count: Option<usize>) -> Result<Vec<(i8, i8)>, AllocError>
    ensures { (total : ℕ) → CountIs count total → IfOk result (λ heads. length heads.items ≡ total) }
{
    match count {
        None => Err(AllocError),
        Some(count) => vec![in alloc; (0, 0); count],
    }
}

impl From<AllocError> for CertError {
    ghost from_gives = { λ _ e. e ≡ OutOfMemory };

    fn from(_: AllocError) -> CertError {
        CertError::OutOfMemory
    }
}

/// The least certificate of a program, by rounds. A definition is refused exactly where the rounds refuse it first, with the cause
/// of the first of its items that passes a limit or breaks a shape; then no certificate is valid. The memory is for the certificate
/// and as much again, and taken before the rounds.
pub fn certify(alloc: Global, program: &Program) -> Result<Certificate, CertError>
    ensures least { IfOk result (λ z. IsLeast program.now z) }
    ensures refused { IfErr result (λ e. IsRefusal e (λ r. RoundsRefuse program.now r)) }
    ensures named { IfErr result (λ e. IsRefusal e (λ r. r.definition < length program.now.bodies)) }
    ensures none { IfErr result (λ e. IsRefusal e (λ _. (z : Cert) → IsValid program.now z → ⊥)) }
{
    rounds_judge();
    tokens_are_proper(program);
    let mut effects = least_effects(alloc, program)?;
    let mut next = least_effects(alloc, program)?;
    let mut heads = no_heads(alloc, count_loops(program))?;
    match settle(
        program,
        effects.as_mut_slice(),
        next.as_mut_slice(),
        heads.as_mut_slice(),
    ) {
        Err(refused) => Err(CertError::NotCertified(refused.definition, refused.cause)),
        Ok(shared) => { Ok(Certificate::new(alloc, effects.as_slice(), shared, heads.as_slice())?) }
    }
}
