// What items demand.
ghost use Rattle.std.specs.Prelude.{◌≡◌, ℕ, ◌<◌, ◌≤ℤ◌, ◌+ℤ◌, ◌-ℤ◌, pos, negsuc, slice_index_or};
ghost use Rattle.depth_certifier.specs.Certificate.{SharedInterval};
ghost use Rattle.depth_certifier.specs.Effects.{table_effect, of_effect, execute_effect, word_effect, called_effect, child_effect, idle, moved_by};
ghost use Rattle.depth_certifier.specs.Rounds.{token_effect};
ghost use Rattle.forth_program.specs.Parts.{token_node};
ghost use Rattle.depth_certifier.specs.Views.{exit_of, effect_of_demand, SmallExit};

use crate::effect::Effect;
use crate::follow::Next;
use crate::place::{Change, Demand};
use forth_program::{DefId, Token};
use word_table::{Word, entry};

/// What the table says of a word.
pub(crate) fn table_demand(word: Word) -> Demand
    ensures { effect_of_demand result ≡ table_effect word }
{
    let row = entry(word);
    let exit = match row.exit {
        None => None,
        Some((low, high)) => Some(Change {
            low: i16::from(low),
            high: i16::from(high),
        }),
    };
    Demand {
        need: u16::from(row.need),
        peak: u16::from(row.peak),
        back: u16::from(row.back),
        exit,
    }
}

/// `OF`, which takes two cells where they are equal, and else one.
pub(crate) fn of_demand(change: i8) -> Demand
    ensures { effect_of_demand result ≡ of_effect change }
{
    let row = entry(Word::Of);
    Demand {
        need: u16::from(row.need),
        peak: u16::from(row.peak),
        back: u16::from(row.back),
        exit: Some(Change {
            low: i16::from(change),
            high: i16::from(change),
        }),
    }
}

// An effect that is known.
fn demand_of(effect: Effect) -> Demand
    requires { SharedInterval effect.exit }
    ensures value { effect_of_demand result ≡ effect }
    ensures small { SmallExit result.exit }
{
    let exit = match effect.exit {
        None => None,
        Some((low, high)) => Some(Change {
            low: i16::from(low),
            high: i16::from(high),
        }),
    };
    Demand {
        need: u16::from(effect.need),
        peak: u16::from(effect.peak),
        back: u16::from(effect.back),
        exit,
    }
}

/// The effect of a definition, or that of one without items.
pub(crate) fn definition(effects: &[Effect], id: DefId) -> Effect
    ensures { result ≡ slice_index_or effects.now id.0 idle }
{
    match effects.get(id.0 as usize) {
        Some(effect) => *effect,
        None => Effect {
            need: 0,
            peak: 0,
            back: 0,
            exit: Some((0, 0)),
        },
    }
}

// The return cell of a call.
fn with_return(x: Demand, next: Next) -> Demand
    requires { x.back < 1000 }
    ensures { effect_of_demand result ≡ called_effect next (effect_of_demand x) }
{
    let more = match next {
        Next::Return => 0,
        Next::Flag => 1,
        Next::More => 1,
    };
    Demand {
        need: x.need,
        peak: x.peak,
        back: x.back + more,
        exit: x.exit,
    }
}

/// The effect of a call.
pub(crate) fn call_demand(effects: &[Effect], id: DefId, next: Next) -> Demand
    requires { (d : ℕ) → SharedInterval (slice_index_or effects.now d idle).exit }
    ensures { effect_of_demand result ≡ called_effect next (slice_index_or effects.now id.0 idle) }
{
    let effect = definition(effects, id);
    with_return(demand_of(effect), next)
}

// One more.
fn one_more(exit: Option<Change>) -> Option<Change>
    requires { SmallExit exit }
    ensures { exit_of result ≡ moved_by (pos 1) (exit_of exit) }
{
    match exit {
        None => None,
        Some(change) => {
            let low = change.low + 1;
            let high = change.high + 1;
            Some(Change { low, high })
        }
    }
}

// A child is a literal and then a call.
fn child_demand(effect: Effect) -> Demand
    requires { SharedInterval effect.exit }
    ensures { effect_of_demand result ≡ child_effect effect }
{
    let x = demand_of(effect);
    Demand {
        need: x.need.saturating_sub(1),
        peak: x.peak + 1,
        back: x.back + 1,
        exit: one_more(x.exit),
    }
}

/// The effect of the item that an execution token stands for.
pub(crate) fn token_demand(effects: &[Effect], shared: Effect, token: Token) -> Demand
    requires { (d : ℕ) → SharedInterval (slice_index_or effects.now d idle).exit }
    ensures { effect_of_demand result ≡ token_effect (record { definitions = effects.now; shared = shared }) (token_node token) }
{
    match token {
        Token::Def(id) => demand_of(definition(effects, id)),
        Token::Table(word) => table_demand(word),
        Token::Value(_) => table_demand(Word::Literal),
        Token::Child(id, _) => child_demand(definition(effects, id)),
    }
}

// One less.
fn one_less(exit: Option<Change>) -> Option<Change>
    requires { SmallExit exit }
    ensures { exit_of result ≡ moved_by (pos 0 -ℤ pos 1) (exit_of exit) }
{
    match exit {
        None => None,
        Some(change) => {
            let low = change.low - 1;
            let high = change.high - 1;
            Some(Change { low, high })
        }
    }
}

fn execute_demand(shared: Effect) -> Demand
    requires { SharedInterval shared.exit }
    ensures { effect_of_demand result ≡ execute_effect shared }
{
    let x = demand_of(shared);
    let peak = x.peak.saturating_sub(1);
    let back = x.back + 1;
    Demand {
        need: x.need + 1,
        peak: peak.max(4),
        back: back.max(3),
        exit: one_less(x.exit),
    }
}

/// The effect of a word.
pub(crate) fn word_demand(shared: Effect, word: Word) -> Demand
    requires { SharedInterval shared.exit }
    ensures { effect_of_demand result ≡ word_effect shared word }
{
    match word {
        Word::Execute => execute_demand(shared),
        _ => table_demand(word),
    }
}
