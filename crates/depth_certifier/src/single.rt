// Items that are no structures.
ghost use Rattle.std.specs.Prelude.{◌≡◌, OnOk};
ghost use Rattle.forth_program.specs.Tree.{Plain, Child, Leave};
ghost use Rattle.depth_certifier.specs.Certificate.{doubles, SharedInterval};
ghost use Rattle.depth_certifier.specs.Effects.{text_word as word_of_text};
ghost use Rattle.depth_certifier.specs.Notes.{walk_in};
ghost use Rattle.depth_certifier.specs.Walks.{StepOf, EffectsKeep, item_step};

use crate::demands::{call_demand, table_demand, word_demand};
use crate::effect::{CertCause, Effect};
use crate::facts::Facts;
use crate::follow::Next;
use crate::noting::{double, leave, take};
use crate::place::EntryChange;
use crate::shape::Entries;
use crate::walker::Walker;
use forth_program::{DefId, TextKind};
use word_table::Word;

/// The string word of a text.
pub(crate) fn text_word(kind: TextKind) -> Word
    ensures { result ≡ word_of_text kind }
{
    match kind {
        TextKind::Address => Word::SQuote,
        TextKind::Print => Word::DotQuote,
        TextKind::Abort => Word::AbortQuote,
    }
}

fn is_double(next: Next, word: Word) -> bool
    ensures { result ≡ doubles next word }
{
    match next {
        Next::Flag => match word {
            Word::QDup => true,
            _ => false,
        },
        Next::Return => false,
        Next::More => false,
    }
}

/// A word.
pub(crate) fn walk_word(
    walker: &mut Walker,
    notes: &[(i8, i8)],
    facts: Facts,
    effects: &[Effect],
    heads: &[(i8, i8)],
    top: Option<Entries>,
    next: Next,
    word: Word,
) -> Result<(), CertCause>
    requires { SharedInterval facts.shared.exit }
    ensures step { StepOf result (item_step facts effects.now heads.now top next (Plain word) (walk_in facts.finding notes.now walker.old)) (walk_in facts.finding notes.now walker.new) }
    ensures count { OnOk result (walker.new.count ≡ walker.old.count) }
{
    if is_double(next, word) {
        double(walker, notes, facts)
    } else {
        take(
            walker,
            notes,
            facts,
            word_demand(facts.shared, word),
            EntryChange::ByWord(word),
        )
    }
}

/// A child is a literal and then a call.
pub(crate) fn walk_child(
    walker: &mut Walker,
    notes: &[(i8, i8)],
    facts: Facts,
    effects: &[Effect],
    heads: &[(i8, i8)],
    top: Option<Entries>,
    next: Next,
    id: DefId,
    address: u16,
) -> Result<(), CertCause>
    requires effects { EffectsKeep effects.now }
    ensures step { StepOf result (item_step facts effects.now heads.now top next (Child id.0 address) (walk_in facts.finding notes.now walker.old)) (walk_in facts.finding notes.now walker.new) }
    ensures count { OnOk result (walker.new.count ≡ walker.old.count) }
{
    take(
        walker,
        notes,
        facts,
        table_demand(Word::Literal),
        EntryChange::Keep,
    )?;
    take(
        walker,
        notes,
        facts,
        call_demand(effects, id, next),
        EntryChange::Keep,
    )
}

/// `LEAVE`.
pub(crate) fn walk_leave(
    walker: &mut Walker,
    notes: &[(i8, i8)],
    facts: Facts,
    effects: &[Effect],
    heads: &[(i8, i8)],
    top: Option<Entries>,
    next: Next,
) -> Result<(), CertCause>
    ensures step { StepOf result (item_step facts effects.now heads.now top next Leave (walk_in facts.finding notes.now walker.old)) (walk_in facts.finding notes.now walker.new) }
    ensures count { OnOk result (walker.new.count ≡ walker.old.count) }
{
    take(
        walker,
        notes,
        facts,
        table_demand(Word::Leave),
        EntryChange::Keep,
    )?;
    leave(walker, notes, facts, top)
}
