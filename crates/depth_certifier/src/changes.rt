// What items do to return entries.
ghost use Rattle.std.specs.Prelude.{◌≡◌, ◌<◌, ◌≤◌, Some, None, true, IfSome};
ghost use Rattle.depth_certifier.specs.Place.{size};
ghost use Rattle.depth_certifier.specs.Entries.{entries_of};
ghost use Rattle.depth_certifier.specs.Effects.{shape_after, kept_by};
ghost use Rattle.depth_certifier.specs.Views.{change_of, EntriesAre};
ghost use Rattle.forth_program.specs.Form.{is_code_class};
ghost use Rattle.word_table.specs.Table.{entry_of};

use crate::place::EntryChange;
use crate::shape::{Entries, Slot};
use word_table::{Class, Word, entry};

// Whether a word is inline or of the library.
fn is_code(word: Word) -> bool
    ensures { result ≡ is_code_class (entry_of word).class }
{
    match entry(word).class {
        Class::Inline => true,
        Class::Library => true,
        _ => false,
    }
}

/// The entries after a word, if they are those that it asks for.
pub(crate) fn after_word(entries: Entries, word: Word) -> Option<Entries>
    requires { entries.count < 32 }
    ensures { EntriesAre result (shape_after word (entries_of entries)) }
{
    match word {
        Word::ToR => Some(entries.under(Slot::OfCell)),
        Word::RFrom => match entries.newest() {
            Some(Slot::OfCell) => Some(entries.below()),
            _ => None,
        },
        Word::RFetch => match entries.newest() {
            Some(Slot::OfCell) => Some(entries),
            _ => None,
        },
        Word::Index => match entries.newest() {
            Some(Slot::OfLoop) => Some(entries),
            _ => None,
        },
        Word::OuterIndex => match (entries.newest(), entries.below().newest()) {
            (Some(Slot::OfLoop), Some(Slot::OfLoop)) => Some(entries),
            _ => None,
        },
        Word::Unloop => match entries.newest() {
            Some(Slot::OfLoop) => Some(entries.below()),
            _ => None,
        },
        _ => { if is_code(word) { Some(entries) } else { None } }
    }
}

/// The entries after an item, if they are those that it asks for.
pub(crate) fn changed(entries: Entries, change: EntryChange) -> Option<Entries>
    requires { entries.count < 32 }
    ensures { EntriesAre result (change_of change (entries_of entries)) }
{
    match change {
        EntryChange::Keep => Some(entries),
        EntryChange::PushLoop => Some(entries.under(Slot::OfLoop)),
        EntryChange::ByWord(word) => after_word(entries, word),
    }
}
