// A round over the definitions of a program.
ghost use Rattle.std.specs.Prelude.{◌≡◌, ◌+◌, ◌<◌, ◌≤◌, [], length, take, None, IfOk, slice_index_or};
ghost use Rattle.forth_program.specs.Program.{body_of};
ghost use Rattle.depth_certifier.specs.Certificate.{definition_limits, loops, SharedInterval};
ghost use Rattle.depth_certifier.specs.Walk.{body_walk};
ghost use Rattle.depth_certifier.specs.Rounds.{bodies_round, round as next_round};
ghost use Rattle.depth_certifier.specs.Walks.{EffectsKeep, HeadsKeep};
ghost use Rattle.depth_certifier.specs.Counting.{all_loops};
ghost use Rattle.depth_certifier.specs.Settling.{BodiesOf, MadeOf, RoundOf};

use crate::effect::{CertCause, Effect};
use crate::facts::Facts;
use crate::making::made_of;
use crate::refused::Refused;
use crate::sharing::shared_of;
use crate::validity::{bounds_of, walk_body};
use forth_program::{DefId, Program};

// The effect of a definition in this round, and the number of loops so far.
fn make_definition(
    program: &Program,
    effects: &[Effect],
    shared: Effect,
    notes: &mut [(i8, i8)],
    id: DefId,
    count: usize,
) -> Result<(Effect, usize), CertCause>
    requires id { id.0 < length program.now.bodies }
    requires effects { EffectsKeep effects.now }
    requires shared { SharedInterval shared.exit }
    requires room { count + loops (body_of program.now id.0) ≤ length notes.old }
    requires heads { HeadsKeep (take count notes.old) }
    ensures made { MadeOf result notes.new (body_walk (definition_limits program.now id.0) (record { definitions = effects.now; shared = shared }) None (body_of program.now id.0) (take count notes.old)) }
    ensures count { IfOk result (λ made. made.1 ≡ count + loops (body_of program.now id.0)) }
    ensures length { length notes.new ≡ length notes.old }
{
    let facts = Facts {
        finding: true,
        bounds: bounds_of(program, id),
        shared,
    };
    let walker = walk_body(notes, facts, effects, &[], program.body(id), count)?;
    Ok((made_of(walker), walker.count))
}

// The effects of all definitions in this round.
fn make_definitions(
    program: &Program,
    effects: &[Effect],
    shared: Effect,
    next: &mut [Effect],
    notes: &mut [(i8, i8)],
) -> Result<(), Refused>
    requires effects { EffectsKeep effects.now }
    requires shared { SharedInterval shared.exit }
    requires next { length next.old ≡ length program.now.bodies }
    requires notes { length notes.old ≡ all_loops program.now.bodies }
    ensures bodies { BodiesOf result next.new notes.new (bodies_round (definition_limits program.now) (record { definitions = effects.now; shared = shared }) program.now.bodies 0 []) }
    ensures next { length next.new ≡ length next.old }
    ensures notes { length notes.new ≡ length notes.old }
{
    let mut count = 0;
    for d in 0..program.def_count() {
        let id = DefId(d);
        match make_definition(program, effects, shared, notes, id, count) {
            Err(cause) => {
                return Err(Refused {
                    definition: id,
                    cause,
                });
            },
            Ok((effect, more)) => {
                next[d as usize] = effect;
                count = more;
            }
        }
    }
    Ok(())
}

/// A round from these effects. It writes the new ones and the heads of the loops, and joins the shared effect anew.
pub(crate) fn round(
    program: &Program,
    effects: &[Effect],
    shared: Effect,
    next: &mut [Effect],
    notes: &mut [(i8, i8)],
) -> Result<Effect, Refused>
    requires effects { EffectsKeep effects.now }
    requires shared { SharedInterval shared.exit }
    requires next { length next.old ≡ length program.now.bodies }
    requires notes { length notes.old ≡ all_loops program.now.bodies }
    ensures round { RoundOf result next.new notes.new (next_round program.now (record { definitions = effects.now; shared = shared })) }
    ensures next { length next.new ≡ length next.old }
    ensures notes { length notes.new ≡ length notes.old }
{
    make_definitions(program, effects, shared, next, notes)?;
    Ok(shared_of(next, program.tokens()))
}
