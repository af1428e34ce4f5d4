// Mailboxes of links.
ghost use Rattle.std.specs.Prelude.{◌≡◌, ◌<◌, ◌≤◌, ◌++◌, ◌∷◌, [], List, length, IfOk, IfSome, MatchOption};

use std::alloc::{AllocError, Global};
use std::marker::Model;

/// Up to 64 cells that wait to be taken. Their room is made with the mailbox.
#[derive(Drop)]
pub struct Mailbox {
    cells: Vec<u16>,
}

impl Model for Mailbox {
    ghost use Rattle.std.specs.Prelude.{List, ℕ, ◌≤◌, vec_capacity};

    ghost Value = { List ℕ };

    ghost view = { λ m. m.cells.items };

    ghost invariant = { λ m. 64 ≤ vec_capacity m.cells };
}

impl Mailbox {
    pub fn new(alloc: Global) -> Result<Mailbox, AllocError>
        ensures { IfOk result (λ mailbox. mailbox ≡ []) }
    {
        Ok(Mailbox {
            cells: Vec::with_capacity(alloc, 64)?,
        })
    }

    pub fn len(&self) -> usize
        ensures { result ≡ length self.now }
    {
        self.cells.len()
    }

    /// Adds a cell as the newest.
    pub fn push(&mut self, cell: u16)
        requires { length self.old < 64 }
        ensures { self.new ≡ self.old ++ cell ∷ [] }
    {
        if self.cells.push(cell).is_err() {
            unreachable!()
        }
    }

    /// Takes the oldest cell.
    pub fn take(&mut self) -> Option<u16>
        ensures { MatchOption result ((self.old ≡ []) × (self.new ≡ [])) (λ cell. self.old ≡ cell ∷ self.new) }
    {
        if self.cells.is_empty() {
            None
        } else {
            Some(self.cells.remove(0))
        }
    }
}
