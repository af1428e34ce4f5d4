// Entries that are linked bucket by bucket, and the walk along a chain.
ghost use Rattle.std.specs.Prelude.{◌≡◌, ℕ, ◌+◌, ◌≤◌, length, slice_get, Some};
ghost use Rattle.dictionary_core.specs.declared.chain.Entry.{Entry as EntryOf};
ghost use Rattle.dictionary_core.specs.Buckets.{bucket, has_bucket, is_same_name, last_in, last_place, number_of_names};
ghost use Rattle.dictionary_core.specs.Chains.{IsEntry};

use forth_reader::Names;

/// The value of a name, the bucket of the name, and the place of the next older name of that bucket.
#[derive(Drop)]
pub(crate) struct Entry<V> {
    pub(crate) bucket: u8,
    pub(crate) older: Option<u32>,
    pub(crate) value: V,
}

/// The place of the last of the names that is this one, along the chain of its bucket.
pub(crate) fn place_in_chain<V>(
    names: &mut Names,
    entries: &[Entry<V>],
    head: Option<u32>,
    name: &str,
) -> Option<u32>
    requires as_many { length entries.now ≡ length names.old.names }
    requires few { length entries.now ≤ 512 }
    requires linked { (place : ℕ) (entry : EntryOf V) → slice_get entries.now place ≡ Some entry → IsEntry names.old.names place entry }
    requires head { head ≡ last_in (bucket name.now) names.old.names }
    ensures place { result ≡ last_place (is_same_name name.now) names.old.names }
    ensures names { names.new.names ≡ names.old.names }
    ensures risen { names.old.looks ≤ names.new.looks }
    ensures looks { names.new.looks ≤ names.old.looks + number_of_names (has_bucket (bucket name.now)) names.old.names }
{
    let mut at = head;
    while let Some(place) = at {
        if names.same(place, name) {
            return Some(place);
        }
        at = entries[place as usize].older;
    }
    None
}
