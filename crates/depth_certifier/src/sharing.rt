// Effects that contain others.
ghost use Rattle.std.specs.Prelude.{◌≡◌, ◌+ℤ◌, pos, map, slice_index_or};
ghost use Rattle.std.specs.Int.{int_max, int_min};
ghost use Rattle.forth_program.specs.Parts.{token_node};
ghost use Rattle.depth_certifier.specs.Effects.{child_effect as effect_of_child, idle, moved_by, table_effect};
ghost use Rattle.depth_certifier.specs.Certificate.{ExitKeeps, Keeps};
ghost use Rattle.depth_certifier.specs.Rounds.{bottom as least_effect, joined_exit, joined_effect, shared_of as effect_of_all, token_effect as effect_of_token};
ghost use Rattle.depth_certifier.specs.Settling.{AllKeep, effects_alone, widest};

use crate::demands::definition;
use crate::effect::Effect;
use forth_program::Token;
use word_table::{Word, entry};

/// The effect of a definition that is not known to return.
pub(crate) fn bottom() -> Effect
    ensures { result ≡ least_effect }
{
    Effect {
        need: 0,
        peak: 0,
        back: 0,
        exit: None,
    }
}

fn lesser(x: i8, y: i8) -> i8
    ensures { result ≡ int_min x y }
{
    if x <= y { x } else { y }
}

fn greater(x: i8, y: i8) -> i8
    ensures { result ≡ int_max x y }
{
    if x <= y { y } else { x }
}

fn both(x: Option<(i8, i8)>, y: Option<(i8, i8)>) -> Option<(i8, i8)>
    ensures { result ≡ joined_exit x y }
{
    match (x, y) {
        (None, _) => y,
        (Some(_), None) => x,
        (Some((low, high)), Some((lower, higher))) => {
            Some((lesser(low, lower), greater(high, higher)))
        }
    }
}

/// The least effect that contains two others.
pub(crate) fn joined(x: Effect, y: Effect) -> Effect
    ensures { result ≡ joined_effect x y }
{
    Effect {
        need: x.need.max(y.need),
        peak: x.peak.max(y.peak),
        back: x.back.max(y.back),
        exit: both(x.exit, y.exit),
    }
}

// What the table says of a word.
fn word_effect(word: Word) -> Effect
    ensures { result ≡ table_effect word }
{
    let row = entry(word);
    Effect {
        need: row.need,
        peak: row.peak,
        back: row.back,
        exit: row.exit,
    }
}

// One more.
fn one_more(exit: Option<(i8, i8)>) -> Option<(i8, i8)>
    requires { ExitKeeps 33 exit }
    ensures { result ≡ moved_by (pos 1) exit }
{
    match exit {
        None => None,
        Some((low, high)) => Some((low + 1, high + 1)),
    }
}

// A child is a literal and then a call.
fn child_effect(effect: Effect) -> Effect
    requires { Keeps widest effect }
    ensures { result ≡ effect_of_child effect }
{
    Effect {
        need: effect.need.saturating_sub(1),
        peak: effect.peak + 1,
        back: effect.back + 1,
        exit: one_more(effect.exit),
    }
}

// The effect of the item that an execution token stands for.
fn token_effect(effects: &[Effect], token: Token) -> Effect
    requires { AllKeep effects.now }
    ensures { result ≡ effect_of_token (effects_alone effects.now) (token_node token) }
{
    match token {
        Token::Def(id) => definition(effects, id),
        Token::Table(word) => word_effect(word),
        Token::Value(_) => word_effect(Word::Literal),
        Token::Child(id, _) => child_effect(definition(effects, id)),
    }
}

/// The least effect that contains those of all execution tokens.
pub(crate) fn shared_of(effects: &[Effect], tokens: &[Token]) -> Effect
    requires { AllKeep effects.now }
    ensures { result ≡ effect_of_all (effects_alone effects.now) (map token_node tokens.now) }
{
    let mut shared = bottom();
    let count = tokens.len();
    for done in 0..count {
        let token = tokens[count - 1 - done];
        shared = joined(token_effect(effects, token), shared);
    }
    shared
}
