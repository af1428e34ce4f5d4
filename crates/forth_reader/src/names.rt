// Names in a list, each asked and counted.
ghost use Rattle.std.specs.Prelude.{◌≡◌, ◌<◌, ◌≤◌, ◌↔◌, ◌++◌, [], ◌∷◌, length, take, slice_index_or, IfOk, OnOk, OnErr, IsSome, IfSome};
ghost use Rattle.std.specs.Str.{str_eq_ignore_ascii_case};
ghost use Rattle.forth_reader.specs.Name.{IsName};
ghost use Rattle.forth_reader.specs.NameList.{looks_after};

use arrayvec::ArrayString;
use std::alloc::{AllocError, Global};
use std::marker::Model;

/// A name as it is kept: 1 to 31 graphic bytes.
#[derive(Drop)]
struct KeptName {
    text: ArrayString<31>,
}

impl Model for KeptName {
    ghost use Rattle.std.specs.Prelude.{ℕ, List};

    ghost Value = { List ℕ };

    ghost view = { λ n. n.text.bytes };
}

impl KeptName {
    fn new(text: &str) -> KeptName
        requires { IsName text.now }
        ensures { result ≡ text.now }
    {
        let mut held = ArrayString::new();
        held.push_str(text);
        KeptName { text: held }
    }

    // Whether it is this name, letters without case.
    fn is(&self, name: &str) -> bool
        ensures { result ≡ str_eq_ignore_ascii_case self.now name.now }
    {
        self.text.as_str().eq_ignore_ascii_case(name)
    }
}

/// A list of names that counts how often a name of it was asked. Contracts see the list and that number, the looks.
#[derive(Drop)]
pub struct Names {
    names: Vec<KeptName>,
    looks: u64,
}

impl Model for Names {
    ghost use Rattle.forth_reader.specs.NameList.{NameList};

    ghost Value = { NameList };

    ghost view = { λ n. record { names = n.names.items; looks = n.looks } };
}

impl Names {
    /// No names, and none asked. The list keeps the allocator.
    pub fn new(alloc: Global) -> Result<Names, AllocError>
        ensures { IfOk result (λ list. list ≡ record { names = []; looks = 0 }) }
    {
        Ok(Names {
            names: Vec::new(alloc),
            looks: 0,
        })
    }

    /// Puts a name at the end. Where there is no memory for it, nothing changes.
    pub fn push(&mut self, name: &str) -> Result<(), AllocError>
        requires form { IsName name.now }
        requires room { length self.old.names < 4294967295 }
        ensures ok { OnOk result (self.new ≡ record self.old { names = self.old.names ++ name.now ∷ [] }) }
        ensures err { OnErr result (self.new ≡ self.old) }
    {
        match self.names.push(KeptName::new(name)) {
            Ok(()) => Ok(()),
            Err(_) => Err(AllocError),
        }
    }

    /// Whether the name at a place is this one, letters without case. It is one look more, up to the end of the count.
    pub fn same(&mut self, place: u32, name: &str) -> bool
        requires { place < length self.old.names }
        ensures value { result ≡ str_eq_ignore_ascii_case (slice_index_or self.old.names place []) name.now }
        ensures looked { self.new ≡ record self.old { looks = looks_after self.old.looks } }
        ensures risen { self.old.looks ≤ self.new.looks }
    {
        self.looks = self.looks.saturating_add(1);
        self.names[place as usize].is(name)
    }

    /// Keeps so many names from the first on.
    pub fn cut(&mut self, kept: u32)
        requires { kept ≤ length self.old.names }
        ensures { self.new ≡ record self.old { names = take kept self.old.names } }
    {
        self.names.truncate(kept as usize);
    }

    /// How often a name was asked.
    pub fn looks(&self) -> u64
        ensures { result ≡ self.now.looks }
    {
        self.looks
    }
}
