// The check of a certificate.
ghost use Rattle.std.specs.Prelude.{◌≡◌, ◌+◌, ◌↔◌, ℕ, IfOk, length, true, false, Some, None, [], replicate};
ghost use Rattle.std.specs.List.{All, list_all};
ghost use Rattle.forth_program.specs.ItemTrees.{tree_of};
ghost use Rattle.depth_certifier.specs.Certificate.{definition_limits as limits_for, loops, no_interval, known_of, SharedInterval, IsValid};
ghost use Rattle.depth_certifier.specs.Walk.{body_walk};
ghost use Rattle.depth_certifier.specs.Rounds.{token_effect, ProperToken};
ghost use Rattle.depth_certifier.specs.Checking.{effect_in, effect_keeps as kept_effect, bodies_check, is_valid};
ghost use Rattle.depth_certifier.specs.Views.{limits_of};
ghost use Rattle.depth_certifier.specs.Walks.{walk_of, known_by, given_by, EffectsKeep, HeadsKeep};
ghost use Rattle.depth_certifier.specs.Notes.{heads_of, RoomFor};
ghost use Rattle.depth_certifier.specs.Bodies.{walk_start, BodyOf, BodyHolds};

use crate::certificate::Certificate;
use crate::comparing::{are_ordered, demand_in, effect_keeps, heads_keep, is_ordered, made_in};
use crate::demands::{definition, token_demand};
use crate::effect::{CertCause, Effect};
use crate::facts::Facts;
use crate::follow::Next;
use crate::laws::checks_are_exact;
use crate::noting::end;
use crate::place::{Bounds, Reach, Spot};
use crate::shape::Entries;
use crate::walker::Walker;
use crate::walking::walk_items;
use forth_program::{DefId, Items, Program};

/// The limits of a definition.
pub(crate) fn bounds_of(program: &Program, id: DefId) -> Bounds
    ensures { limits_of result ≡ limits_for program.now id.0 }
{
    if id.0 != program.main().0 {
        return Bounds {
            need: 33,
            peak: 33,
            back: 31,
            top: 33,
        };
    }
    let peak = if program.uses_depth() { 32 } else { 33 };
    Bounds {
        need: 0,
        peak,
        back: 31,
        top: 31,
    }
}

// The walk before a body, after so many loops.
fn begin(count: usize) -> Walker
    ensures walk { walk_of result ≡ walk_start count }
    ensures count { result.count ≡ count }
{
    let entries = Entries::none();
    Walker {
        place: Reach::At(Spot {
            low: 0,
            high: 0,
            entries,
        }),
        leaves: Reach::Unreachable,
        need: 0,
        peak: 0,
        back: 0,
        exit: None,
        count,
    }
}

/// The walk over a whole body.
pub(crate) fn walk_body(
    notes: &mut [(i8, i8)],
    facts: Facts,
    effects: &[Effect],
    heads: &[(i8, i8)],
    body: &Items,
    count: usize,
) -> Result<Walker, CertCause>
    requires effects { EffectsKeep effects.now }
    requires heads { HeadsKeep heads.now }
    requires shared { SharedInterval facts.shared.exit }
    requires room { RoomFor facts.finding count (loops (tree_of body.now)) notes.old }
    ensures walk { BodyOf facts.finding notes.new result (body_walk (limits_of facts.bounds) (known_by facts effects.now) (given_by facts.finding heads.now) (tree_of body.now) (heads_of facts.finding notes.old count)) }
    ensures count { IfOk result (λ walker. walker.count ≡ count + loops (tree_of body.now)) }
    ensures length { length notes.new ≡ length notes.old }
{
    let mut walker = begin(count);
    walk_items(
        &mut walker,
        notes,
        facts,
        effects,
        heads,
        None,
        Next::Return,
        body,
    )?;
    end(&mut walker, notes, facts)?;
    Ok(walker)
}

// Whether a body fits its effect, which keeps the limits: then the number of loops so far.
fn body_holds(
    facts: Facts,
    effects: &[Effect],
    heads: &[(i8, i8)],
    body: &Items,
    effect: Effect,
    count: usize,
) -> Option<usize>
    requires effects { EffectsKeep effects.now }
    requires heads { HeadsKeep heads.now }
    requires shared { SharedInterval facts.shared.exit }
    ensures { BodyHolds result (kept_effect (limits_of facts.bounds) effect) (body_walk (limits_of facts.bounds) (known_by facts effects.now) (Some heads.now) (tree_of body.now) (replicate count no_interval)) effect }
{
    if !effect_keeps(facts.bounds, effect) {
        return None;
    }
    let given = Facts {
        finding: false,
        bounds: facts.bounds,
        shared: facts.shared,
    };
    match walk_body(&mut [], given, effects, heads, body, count) {
        Err(_) => None,
        Ok(walker) => {
            if made_in(walker, effect) {
                Some(walker.count)
            } else {
                None
            }
        }
    }
}

// Whether all bodies do, and there is a head for each loop.
fn bodies_hold(program: &Program, certificate: &Certificate) -> bool
    requires effects { EffectsKeep certificate.now.effects }
    requires heads { HeadsKeep certificate.now.heads }
    requires shared { SharedInterval certificate.now.shared.exit }
    ensures { result ≡ bodies_check program.now (known_of certificate.now) certificate.now.heads program.now.bodies certificate.now.effects 0 [] }
{
    let effects = certificate.effects();
    let heads = certificate.heads();
    let shared = certificate.shared();
    if effects.len() != program.def_count() as usize {
        return false;
    }
    let mut count = 0;
    for d in 0..program.def_count() {
        let id = DefId(d);
        let facts = Facts {
            finding: false,
            bounds: bounds_of(program, id),
            shared,
        };
        let effect = definition(effects, id);
        match body_holds(facts, effects, heads, program.body(id), effect, count) {
            None => return false,
            Some(more) => {
                count = more;
            }
        }
    }
    count == heads.len()
}

// Whether the effect of each execution token lies inside the shared one.
fn tokens_hold(program: &Program, certificate: &Certificate) -> bool
    requires { EffectsKeep certificate.now.effects }
    ensures { result ≡ list_all (λ node. effect_in (token_effect (known_of certificate.now) node) certificate.now.shared) program.now.tokens }
{
    let effects = certificate.effects();
    let shared = certificate.shared();
    let tokens = program.tokens();
    for token in tokens {
        if !demand_in(token_demand(effects, shared, *token), shared) {
            return false;
        }
    }
    true
}

// Whether a certificate is valid.
fn holds(program: &Program, certificate: &Certificate) -> bool
    ensures { result ≡ is_valid program.now certificate.now }
{
    if !heads_keep(certificate.heads()) {
        return false;
    }
    if !is_ordered(certificate.shared()) {
        return false;
    }
    if !are_ordered(certificate.effects()) {
        return false;
    }
    bodies_hold(program, certificate) && tokens_hold(program, certificate)
}

/// The execution tokens of a program are such that may be.
pub(crate) fn tokens_are_proper(program: &Program)
    ensures { All ProperToken program.now.tokens }
{
    let _count = program.def_count();
    let _tokens = program.tokens();
}

/// Whether a certificate is valid for a program: it has an effect for each definition and a head for each loop, these keep the
/// limits, and they bound what the items do.
pub fn check(program: &Program, certificate: &Certificate) -> bool
    ensures { (result ≡ true) ↔ IsValid program.now certificate.now }
{
    checks_are_exact();
    tokens_are_proper(program);
    holds(program, certificate)
}
