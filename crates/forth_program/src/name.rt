// Names of definitions.
ghost use Rattle.std.specs.Prelude.{◌≡◌, ◌↔◌, IsSome, IfSome};

use arrayvec::ArrayString;
use std::marker::Model;

/// The name of a definition: 1 to 31 bytes of 33 to 126. Contracts see the list of its bytes.
#[derive(Drop)]
pub struct Name {
    text: ArrayString<31>,
}

impl Model for Name {
    ghost use Rattle.std.specs.Prelude.{ℕ, List};
    ghost use Rattle.forth_reader.specs.Name.{IsName};

    ghost Value = { List ℕ };

    ghost view = { λ n. n.text.bytes };

    ghost invariant = { λ n. IsName n.text.bytes };
}

impl Name {
    ghost use Rattle.forth_reader.specs.Name.{IsName};

    /// The name of this text. It is None exactly where the text has no byte, more than 31 bytes or a byte outside 33 to 126.
    pub fn new(text: &str) -> Option<Name>
        ensures form { IsSome result ↔ IsName text.now }
        ensures value { IfSome result (λ name. name ≡ text.now) }
    {
        if text.is_empty() || text.len() > 31 {
            return None;
        }
        if !text
            .as_bytes()
            .iter()
            .all(|byte| *byte >= 33 && *byte <= 126)
        {
            return None;
        }
        let mut held = ArrayString::new();
        held.push_str(text);
        Some(Name { text: held })
    }

    /// The name as a text.
    pub fn as_str(&self) -> &str
        ensures value { result.now ≡ self.now }
        ensures form { IsName self.now }
    {
        self.text.as_str()
    }
}
