// The state on which host words act.
ghost use Rattle.std.specs.Prelude.{◌≡◌, ◌≤◌, ◌%◌, true, [], IfOk, OnOk};
ghost use Rattle.console_ports.specs.Ports.{even};
ghost use Rattle.forth_program.specs.Access.{byte_of, with_byte};
ghost use Rattle.host_state.specs.HostCells.{pop, push};
ghost use Rattle.host_state.specs.HostMemory.{fetch, store, fetch_byte, store_byte, here, set_here, grow_here, align, comma, comma_byte, is_here_within, check_here, base_of, first_space};
ghost use Rattle.host_state.specs.Tokens.{body_of};
ghost use Rattle.host_state.specs.Naming.{tick, code_cells};
ghost use Rattle.host_state.specs.FirstImage.{image_of};
ghost use Rattle.host_state.specs.Answers.{Answers};

use crate::entry::{Ticked, data_address, token_of};
use crate::image::{bytes_of_cells, greater, used_length};
use crate::refusal::{HostError, HostRefusal, refused};
use crate::space::DataSpace;
use crate::stack::HostStack;
use cell_math::add;
use std::alloc::{AllocError, Global};
use std::marker::Model;

/// The state on which host words act: a stack of at most 32 cells, data space, and execution tokens.
#[derive(Drop)]
pub struct HostState {
    stack: HostStack,
    space: DataSpace,
    tokens: Vec<Ticked>,
}

impl Model for HostState {
    ghost use Rattle.std.specs.Prelude.{◌≤◌, length};
    ghost use Rattle.host_state.specs.HostCells.{Host};

    ghost Value = { Host };

    ghost view = { λ h. record { stack = h.stack; space = h.space; tokens = h.tokens.items } };

    ghost invariant = { λ h. length h.tokens.items ≤ 65534 };
}

/// An address without bit 0.
pub(crate) fn even(address: u16) -> u16
    ensures { result ≡ even address }
{
    address / 2 * 2
}

/// The byte at an address, of its cell.
fn byte_of(address: u16, cell: u16) -> u16
    ensures { result ≡ byte_of address cell }
{
    if address % 2 == 0 {
        cell % 256
    } else {
        cell / 256
    }
}

/// The cell with the low byte of c at that address.
fn with_byte(address: u16, cell: u16, c: u16) -> u16
    ensures { result ≡ with_byte address cell c }
{
    if address % 2 == 0 {
        cell - cell % 256 + c % 256
    } else {
        cell % 256 + 256 * (c % 256)
    }
}

impl HostState {
    /// No cells, and data space at first.
    pub fn new(alloc: Global, data_start: u16) -> Result<HostState, AllocError>
        requires { (4096 ≤ data_start) × (data_start ≤ 16000) × (data_start % 2 ≡ 0) }
        ensures { IfOk result (λ host. host ≡ record { stack = []; space = first_space data_start; tokens = [] }) }
    {
        let space = DataSpace::new(alloc, data_start)?;
        Ok(HostState {
            stack: HostStack::new(),
            space,
            tokens: Vec::new(alloc),
        })
    }

    /// The same cells, data space and tokens.
    pub fn copy(&self, alloc: Global) -> Result<HostState, AllocError>
        ensures { IfOk result (λ copy. copy ≡ self.now) }
    {
        let stack = self.stack.copy()?;
        let space = self.space.copy(alloc)?;
        let tokens = Vec::from_slice(alloc, self.tokens.as_slice())?;
        Ok(HostState {
            stack,
            space,
            tokens,
        })
    }

    /// Takes the top of the stack.
    pub fn pop(&mut self) -> Result<u16, HostError>
        ensures value { Answers (λ x. x) self.new result (pop self.old) }
        ensures space { self.new.space ≡ self.old.space }
    {
        match self.stack.pop() {
            Some(x) => Ok(x),
            None => refused(HostRefusal::HostUnderflow),
        }
    }

    /// Puts a cell on the stack.
    pub fn push(&mut self, x: u16) -> Result<(), HostError>
        ensures value { Answers (λ _. tt) self.new result (push x self.old) }
        ensures space { self.new.space ≡ self.old.space }
    {
        if self.stack.push(x) {
            Ok(())
        } else {
            refused(HostRefusal::HostOverflow)
        }
    }

    /// The cell at an address.
    pub(crate) fn fetch(&self, address: u16) -> Result<u16, HostError>
        ensures { Answers (λ x. x) self.now result (fetch address self.now) }
    {
        if self.space.has(address) {
            Ok(self.space.cell(address))
        } else {
            refused(HostRefusal::DataFull)
        }
    }

    /// Puts a cell at an address.
    pub(crate) fn store(&mut self, address: u16, x: u16) -> Result<(), HostError>
        ensures { Answers (λ _. tt) self.new result (store address x self.old) }
    {
        if !self.space.has(address) {
            return refused(HostRefusal::DataFull);
        }
        match self.space.set_cell(address, x) {
            Ok(()) => Ok(()),
            Err(AllocError) => Err(HostError::OutOfMemory),
        }
    }

    /// The byte at an address.
    pub(crate) fn fetch_byte(&self, address: u16) -> Result<u16, HostError>
        ensures { Answers (λ x. x) self.now result (fetch_byte address self.now) }
    {
        let cell = self.fetch(address)?;
        Ok(byte_of(address, cell))
    }

    /// Puts the low byte of c at an address.
    pub(crate) fn store_byte(&mut self, address: u16, c: u16) -> Result<(), HostError>
        ensures { Answers (λ _. tt) self.new result (store_byte address c self.old) }
    {
        let cell = self.fetch(address)?;
        self.store(address, with_byte(address, cell, c))
    }

    /// Where data space begins.
    pub fn data_start(&self) -> u16
        ensures value { result ≡ self.now.space.data_start }
        ensures range { (4096 ≤ result) × (result ≤ 16000) × (result % 2 ≡ 0) }
    {
        self.space.data_start()
    }

    /// The present base of numbers.
    pub fn base(&self) -> u16
        ensures { result ≡ base_of self.now.space }
    {
        self.space.cell(self.space.data_start())
    }

    /// HERE.
    pub(crate) fn here(&self) -> Result<u16, HostError>
        ensures { Answers (λ x. x) self.now result (here self.now) }
    {
        self.fetch(self.data_start() + 4)
    }

    fn set_here(&mut self, address: u16) -> Result<(), HostError>
        ensures { Answers (λ _. tt) self.new result (set_here address self.old) }
    {
        self.store(self.data_start() + 4, address)
    }

    pub(crate) fn grow_here(&mut self, n: u16) -> Result<(), HostError>
        ensures { Answers (λ _. tt) self.new result (grow_here n self.old) }
    {
        let here = self.here()?;
        self.set_here(add(here, n))
    }

    /// HERE goes to the next even address.
    pub fn align(&mut self) -> Result<(), HostError>
        ensures { Answers (λ _. tt) self.new result (align self.old) }
    {
        let here = self.here()?;
        self.set_here(even(add(here, 1)))
    }

    /// A cell at HERE, and HERE past it.
    pub fn comma(&mut self, x: u16) -> Result<(), HostError>
        ensures { Answers (λ _. tt) self.new result (comma x self.old) }
    {
        let here = self.here()?;
        self.store(here, x)?;
        self.grow_here(2)
    }

    /// A byte at HERE, and HERE past it.
    pub fn comma_byte(&mut self, c: u16) -> Result<(), HostError>
        ensures { Answers (λ _. tt) self.new result (comma_byte c self.old) }
    {
        let here = self.here()?;
        self.store_byte(here, c)?;
        self.grow_here(1)
    }

    /// DataFull where HERE has left data space, as it is looked at after each token.
    pub fn check_here(&self) -> Result<(), HostError>
        ensures value { Answers (λ _. tt) self.now result (check_here self.now) }
        ensures settled { OnOk result (is_here_within self.now.space ≡ true) }
    {
        let here = self.space.cell(self.data_start() + 4);
        if self.data_start() + 128 <= here && here <= 16384 {
            Ok(())
        } else {
            refused(HostRefusal::DataFull)
        }
    }

    /// The data address of the token of a created address or of a child.
    pub(crate) fn body_of(&self, token: u16) -> Option<u16>
        ensures { result ≡ body_of self.now.tokens token }
    {
        if token == 0 {
            return None;
        }
        match self.tokens.get(usize::from(token - 1)) {
            Some(ticked) => data_address(*ticked),
            None => None,
        }
    }

    /// The token of a word, and whether it is ticked first.
    pub fn tick(&mut self, ticked: Ticked) -> Result<(u16, bool), HostError>
        ensures value { Answers (λ t. t) self.new result (tick ticked self.old) }
        ensures space { self.new.space ≡ self.old.space }
    {
        match token_of(ticked, self.tokens.as_slice()) {
            Some(token) => Ok((token, false)),
            None => {
                let before = self.tokens.len();
                if before >= 65534 {
                    return Err(HostError::OutOfMemory);
                }
                match self.tokens.push(ticked) {
                    Ok(()) => Ok((before as u16 + 1, true)),
                    Err(_) => Err(HostError::OutOfMemory),
                }
            }
        }
    }

    /// What the execution tokens stand for, token 1 first.
    pub fn tokens(&self) -> &[Ticked]
        ensures { result.now ≡ self.now.tokens }
    {
        self.tokens.as_slice()
    }

    /// The bytes with which data space begins, up to the greater of HERE and the place behind the last byte that is not 0.
    pub fn image(&self, alloc: Global) -> Result<Vec<u8>, AllocError>
        ensures { IfOk result (λ bytes. bytes.items ≡ image_of self.now.space) }
    {
        let here = self.space.cell(self.data_start() + 4);
        let reserved = usize::from(here.saturating_sub(self.data_start()));
        let mut bytes = bytes_of_cells(alloc, self.space.cells())?;
        let used = used_length(bytes.as_slice());
        bytes.resize(greater(reserved, used), 0)?;
        Ok(bytes)
    }

    /// CODE-CELLS: data space begins behind so many cells of code, where it stands behind a first number.
    pub fn code_cells(&mut self, alloc: Global, is_due: bool) -> Result<(), HostError>
        ensures { Answers (λ _. tt) self.new result (code_cells is_due self.old) }
    {
        let n = self.pop()?;
        if is_due && n >= 2048 && n <= 8000 {
            match DataSpace::new(alloc, 2 * n) {
                Ok(space) => {
                    self.space = space;
                    Ok(())
                }
                Err(AllocError) => Err(HostError::OutOfMemory),
            }
        } else {
            refused(HostRefusal::BadSplit)
        }
    }
}
