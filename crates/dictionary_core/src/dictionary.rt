// Dictionaries.
ghost use Rattle.std.specs.Prelude.{◌≡◌, ◌<◌, ◌≤◌, ◌↔◌, ◌++◌, [], ◌∷◌, length, take, slice_index_or, IfOk, IfErr, OnOk, OnErr, MatchOption, ◌+◌, Some, None};
ghost use Rattle.std.specs.Borrow.{sem};
ghost use Rattle.forth_reader.specs.Name.{IsName};
ghost use Rattle.dictionary_core.specs.Buckets.{bucket, has_bucket, is_same_name, last_in, last_place, number_of_names};

use crate::bucket::bucket_of;
use crate::chain::{Entry, place_in_chain};
use forth_reader::Names;
use std::alloc::{AllocError, Global};
use std::marker::Model;

/// What a dictionary can be cut back to: its length in pairs.
#[derive(Clone, Copy, Debug, PartialEq, Eq)]
pub struct Mark(u32);

/// Why a pair is not added.
#[derive(Clone, Copy, Debug, PartialEq, Eq)]
pub enum AddRefusal {
    /// There are 512 pairs.
    Full,
    /// There was no memory.
    OutOfMemory,
}

/// At most 512 pairs of a name and a value, oldest first. Contracts see the list of the pairs, and the looks: how often the
/// name of a pair was compared.
#[derive(Drop)]
pub struct Dictionary<V> {
    names: Names,
    entries: Vec<Entry<V>>,
    heads: [Option<u32>; 64],
}

impl<V> Model for Dictionary<V> {
    ghost use Rattle.dictionary_core.specs.Pairs.{DictionaryState};
    ghost use Rattle.dictionary_core.specs.Chains.{IsChained, pairs_in};

    ghost Value = { DictionaryState V };

    ghost view = { λ d. record { pairs = pairs_in d.names.names d.entries.items; looks = d.names.looks } };

    ghost invariant = { λ d. IsChained d.names.names d.entries.items d.heads };
}

impl<V: Drop> Dictionary<V> {
    ghost use Rattle.dictionary_core.specs.Pairs.{names_of, newest_value, pair};
    ghost use Rattle.dictionary_core.specs.Lends.{keeps_pairs};

    /// No pairs, and no looks. The dictionary keeps the allocator.
    pub fn new(alloc: Global) -> Result<Dictionary<V>, AllocError>
        ensures { IfOk result (λ d. d ≡ record { pairs = []; looks = 0 }) }
    {
        let names = Names::new(alloc)?;
        Ok(Dictionary {
            names,
            entries: Vec::new(alloc),
            heads: [None; 64],
        })
    }

    /// What the pairs can be cut back to.
    pub fn mark(&self) -> Mark
        ensures value { result.0 ≡ length self.now.pairs }
        ensures few { length self.now.pairs ≤ 512 }
    {
        Mark(self.entries.len() as u32)
    }

    /// The number of pairs.
    pub fn len(&self) -> usize
        ensures value { result ≡ length self.now.pairs }
        ensures few { length self.now.pairs ≤ 512 }
    {
        self.entries.len()
    }

    /// How often the name of a pair was compared.
    pub fn looks(&self) -> u64
        ensures { result ≡ self.now.looks }
    {
        self.names.looks()
    }

    /// The place of the last pair whose name has this bucket.
    pub fn head(&self, of: u8) -> Option<u32>
        requires { of < 64 }
        ensures { result ≡ last_in of (names_of self.now.pairs) }
    {
        self.heads[of as usize]
    }

    /// The place of the last pair before this one whose name has the same bucket.
    pub fn older(&self, place: u32) -> Option<u32>
        requires { place < length self.now.pairs }
        ensures { result ≡ last_in (bucket (slice_index_or (names_of self.now.pairs) place [])) (take place (names_of self.now.pairs)) }
    {
        self.entries[place as usize].older
    }

    /// Puts a pair at the end, and gives its place. Full comes exactly where there are 512 pairs. A refusal changes nothing and
    /// hands the value back.
    pub fn add(&mut self, name: &str, value: V) -> Result<u32, (AddRefusal, V)>
        requires { IsName name.now }
        ensures ok { IfOk result (λ place. (place ≡ length self.old.pairs) × (self.new ≡ record self.old { pairs = self.old.pairs ++ pair name.now value ∷ [] })) }
        ensures room { OnOk result (length self.old.pairs < 512) }
        ensures full { IfErr result (λ e. (e.0 ≡ AddRefusal.Full) ↔ (length self.old.pairs ≡ 512)) }
        ensures handed_back { IfErr result (λ e. e.1 ≡ value) }
        ensures err { OnErr result (self.new ≡ self.old) }
    {
        let place = self.entries.len() as u32;
        if place >= 512 {
            return Err((AddRefusal::Full, value));
        }
        match self.names.push(name) {
            Ok(()) => {}
            Err(_) => return Err((AddRefusal::OutOfMemory, value)),
        }
        let bucket = bucket_of(name);
        let older = self.heads[bucket as usize];
        match self.entries.push(Entry {
            bucket,
            older,
            value,
        }) {
            Ok(()) => {
                self.heads[bucket as usize] = Some(place);
                Ok(place)
            }
            Err(refused) => {
                self.names.cut(place);
                Err((AddRefusal::OutOfMemory, refused.value.value))
            }
        }
    }

    /// Cuts the pairs back to what they were at a mark.
    pub fn forget_to(&mut self, mark: Mark)
        requires { mark.0 ≤ length self.old.pairs }
        ensures { self.new ≡ record self.old { pairs = take mark.0 self.old.pairs } }
    {
        while self.entries.len() > mark.0 as usize {
            let Some(entry) = self.entries.pop() else {
                unreachable!()
            };
            self.heads[entry.bucket as usize] = entry.older;
        }
        self.names.cut(mark.0);
    }

    /// The place and the value of the last pair of a name, letters without case. None comes exactly where there is none. The
    /// pairs stay. The looks never fall, and rise by at most the number of names that have the bucket of the name.
    pub fn find(&mut self, name: &str) -> Option<(u32, &V)>
        ensures* keeps { sem 𝓛 (keeps_pairs V.row self.entry (number_of_names (has_bucket (bucket name.now)) (names_of self.old.pairs))) }
        ensures found { MatchOption result
            (last_place (is_same_name name.now) (names_of self.old.pairs) ≡ None)
            (λ found. (last_place (is_same_name name.now) (names_of self.old.pairs) ≡ Some found.0) × (newest_value self.old.pairs name.now ≡ Some found.1.now)) }
    {
        let head = self.heads[bucket_of(name) as usize];
        let place = place_in_chain(&mut self.names, self.entries.as_slice(), head, name)?;
        Some((place, &self.entries[place as usize].value))
    }
}

impl<V: Copy + Drop> Dictionary<V> {
    ghost use Rattle.dictionary_core.specs.Pairs.{names_of, newest_value};

    /// A copy of the value of the last pair of a name, as `find` finds it.
    pub fn look_up(&mut self, name: &str) -> Option<V>
        ensures value { result ≡ newest_value self.old.pairs name.now }
        ensures pairs { self.new.pairs ≡ self.old.pairs }
        ensures risen { self.old.looks ≤ self.new.looks }
        ensures looks { self.new.looks ≤ self.old.looks + number_of_names (has_bucket (bucket name.now)) (names_of self.old.pairs) }
    {
        let head = self.heads[bucket_of(name) as usize];
        let place = place_in_chain(&mut self.names, self.entries.as_slice(), head, name)?;
        Some(self.entries[place as usize].value)
    }
}
