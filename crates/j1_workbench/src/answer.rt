// What a command answers.
ghost use Rattle.std.specs.Prelude.{◌≡◌, nat_le, if◌then◌else◌, [], length};
ghost use Rattle.j1_workbench.specs.Notes.{named};

use crate::status::Status;
use arrayvec::ArrayString;
use std::marker::Model;

/// What a note names: a definition or a file, of at most 255 bytes. Contracts see the list of its bytes.
#[derive(Drop)]
pub struct Subject {
    text: ArrayString<255>,
}

impl Model for Subject {
    ghost use Rattle.std.specs.Prelude.{ℕ, List};

    ghost Value = { List ℕ };

    ghost view = { λ s. s.text.bytes };
}

impl Subject {
    /// What has this name. None stands for a text that is too long.
    pub fn new(name: &str) -> Option<Subject>
        ensures { named result ≡ (if nat_le (length name.now) 255 then name.now else []) }
    {
        if name.len() > 255 {
            return None;
        }
        let mut text = ArrayString::new();
        text.push_str(name);
        Some(Subject { text })
    }

    /// The name as a text.
    pub fn as_str(&self) -> &str
        ensures { result.now ≡ self.now }
    {
        self.text.as_str()
    }
}

/// The answer of a command, and what its note names, where it names something that the words do not.
#[derive(Drop)]
pub struct Answer {
    pub status: Status,
    pub name: Option<Subject>,
}

/// An answer whose note names nothing else.
pub fn answered(status: Status) -> Answer
    ensures { result ≡ record { status = status; name = None } }
{
    Answer { status, name: None }
}

/// What an answer names, or an empty text.
pub fn named(name: &Option<Subject>) -> &str
    ensures { result.now ≡ named name.now }
{
    match name {
        None => "",
        Some(name) => name.as_str(),
    }
}
