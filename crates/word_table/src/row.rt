// A row of the table: a word's name, its numbers and its cells.
ghost use Rattle.std.specs.Prelude.{◌≡◌, ◌≤◌, length, [], None};
ghost use Rattle.word_table.specs.declared.word.Class.TheVariants as class;
ghost use Rattle.word_table.specs.Row.{entry_with, change as change_of};

use crate::word::{Class, WordEntry};

/// What the table has of one word.
#[derive(Clone, Copy)]
pub(crate) struct Row {
    /// The name, letters in upper case.
    pub name: &'static str,
    pub entry: WordEntry,
    /// The plain cells.
    pub cells: &'static [u16],
}

// The change of the data cells of a word that takes and leaves so many.
fn change(takes: u8, leaves: u8) -> Option<(i8, i8)>
    requires takes { takes ≤ 9 }
    requires leaves { leaves ≤ 9 }
    ensures { result ≡ change_of takes leaves }
{
    let change = leaves as i8 - takes as i8;
    Some((change, change))
}

// Cells that stand in an image as they are: each costs one instruction.
fn plain(
    class: Class,
    name: &'static str,
    need: u8,
    exit: Option<(i8, i8)>,
    peak: u8,
    back: u8,
    cells: &'static [u16],
) -> Row
    requires { length cells.now ≤ 99 }
    ensures name { result.name.now ≡ name.now }
    ensures entry { result.entry ≡ entry_with class need exit peak back (length cells.now) 0 (length cells.now) }
    ensures cells { result.cells.now ≡ cells.now }
{
    let entry = WordEntry {
        class,
        need,
        peak,
        back,
        exit,
        base: cells.len() as u32,
        per: 0,
        weight: cells.len() as u16,
    };
    Row { name, entry, cells }
}

/// An inline word: how many cells it takes and leaves, peak, back, and its cells of code.
pub(crate) fn inline(
    name: &'static str,
    takes: u8,
    leaves: u8,
    peak: u8,
    back: u8,
    cells: &'static [u16],
) -> Row
    requires takes { takes ≤ 9 }
    requires leaves { leaves ≤ 9 }
    requires cells { length cells.now ≤ 99 }
    ensures name { result.name.now ≡ name.now }
    ensures entry { result.entry ≡ entry_with class.Inline takes (change_of takes leaves) peak back (length cells.now) 0 (length cells.now) }
    ensures cells { result.cells.now ≡ cells.now }
{
    plain(
        Class::Inline,
        name,
        takes,
        change(takes, leaves),
        peak,
        back,
        cells,
    )
}

/// An inline word that never returns.
pub(crate) fn never(name: &'static str, takes: u8, peak: u8, back: u8, cells: &'static [u16]) -> Row
    requires { length cells.now ≤ 99 }
    ensures name { result.name.now ≡ name.now }
    ensures entry { result.entry ≡ entry_with class.Inline takes None peak back (length cells.now) 0 (length cells.now) }
    ensures cells { result.cells.now ≡ cells.now }
{
    plain(Class::Inline, name, takes, None, peak, back, cells)
}

/// A word on return entries, which stands in an image as an inline word does.
pub(crate) fn on_returns(
    name: &'static str,
    takes: u8,
    leaves: u8,
    peak: u8,
    back: u8,
    cells: &'static [u16],
) -> Row
    requires takes { takes ≤ 9 }
    requires leaves { leaves ≤ 9 }
    requires cells { length cells.now ≤ 99 }
    ensures name { result.name.now ≡ name.now }
    ensures entry { result.entry ≡ entry_with class.Structure takes (change_of takes leaves) peak back (length cells.now) 0 (length cells.now) }
    ensures cells { result.cells.now ≡ cells.now }
{
    plain(
        Class::Structure,
        name,
        takes,
        change(takes, leaves),
        peak,
        back,
        cells,
    )
}

/// A call of the library: its need, its exit, peak, back, base and per.
pub(crate) fn library(
    name: &'static str,
    need: u8,
    exit: Option<(i8, i8)>,
    peak: u8,
    back: u8,
    base: u32,
    per: u32,
) -> Row
    ensures name { result.name.now ≡ name.now }
    ensures entry { result.entry ≡ entry_with class.Library need exit peak back base per 1 }
    ensures cells { result.cells.now ≡ [] }
{
    let entry = WordEntry {
        class: Class::Library,
        need,
        peak,
        back,
        exit,
        base,
        per,
        weight: 1,
    };
    Row {
        name,
        entry,
        cells: &[],
    }
}

/// A structure word: taken, left, peak, back, base, per and weight.
pub(crate) fn structure(
    name: &'static str,
    takes: u8,
    leaves: u8,
    peak: u8,
    back: u8,
    base: u32,
    per: u32,
    weight: u16,
) -> Row
    requires takes { takes ≤ 9 }
    requires leaves { leaves ≤ 9 }
    ensures name { result.name.now ≡ name.now }
    ensures entry { result.entry ≡ entry_with class.Structure takes (change_of takes leaves) peak back base per weight }
    ensures cells { result.cells.now ≡ [] }
{
    let entry = WordEntry {
        class: Class::Structure,
        need: takes,
        peak,
        back,
        exit: change(takes, leaves),
        base,
        per,
        weight,
    };
    Row {
        name,
        entry,
        cells: &[],
    }
}

/// A word that acts while the source is read.
pub(crate) fn host(name: &'static str) -> Row
    ensures name { result.name.now ≡ name.now }
    ensures entry { result.entry ≡ entry_with class.Host 0 (change_of 0 0) 0 0 0 0 0 }
    ensures cells { result.cells.now ≡ [] }
{
    let entry = WordEntry {
        class: Class::Host,
        need: 0,
        peak: 0,
        back: 0,
        exit: Some((0, 0)),
        base: 0,
        per: 0,
        weight: 0,
    };
    Row {
        name,
        entry,
        cells: &[],
    }
}
