// Arrays of cores.
ghost use Rattle.std.specs.Prelude.{◌≡◌, ◌<◌, ◌≤◌, ◌↔◌, ℕ, [], length, map, replicate, slice_index, get_or, set, ◌++◌, IfOk, OnOk, OnErr, Some};
ghost use Rattle.std.specs.List.{position};
ghost use Rattle.j1_simulator.specs.MachineState.{machine_start};
ghost use Rattle.core_array.specs.Cores.{no_core, is_bad_link, cores_start, cores_run, core_stepped, core_event};
ghost use Rattle.core_array.specs.ArrayState.{network_of, kept_items, none_kept, HaveRoom, OneLess, sent_on, SentFits};
ghost use Rattle.core_array.specs.Network.{event_bytes, list_at};

use crate::events::CoreEvent;
use crate::kept::{Bytes, Cells};
use crate::links::Link;
use crate::mailboxes::Mailbox;
use crate::turns::make;
use j1_simulator::{End, Machine};
use j1_table::Image;
use std::alloc::{AllocError, Global};
use std::marker::Model;

/// Why there is no array.
#[derive(Clone, Copy, Debug, PartialEq, Eq)]
pub enum ArrayError {
    /// The first link with an end that is no core, or with the same core at both ends.
    BadLink(u16),
    OutOfMemory,
}

/// Cores with the mailboxes of their links. What each core printed and what each link carried is kept by `run` alone.
#[derive(Drop)]
pub struct Array {
    links: Vec<Link>,
    machines: Vec<Machine>,
    mailboxes: Vec<Mailbox>,
    printed: Vec<Bytes>,
    histories: Vec<Cells>,
}

impl Model for Array {
    ghost use Rattle.core_array.specs.ArrayState.{ArrayState, IsWhole};

    ghost Value = { ArrayState };

    ghost view = { λ a. record { links = a.links.items; cores = a.machines.items; mailboxes = a.mailboxes.items; printed = a.printed.items; histories = a.histories.items } };

    ghost invariant = { λ a. IsWhole (record { links = a.links.items; cores = a.machines.items; mailboxes = a.mailboxes.items; printed = a.printed.items; histories = a.histories.items }) };
}

fn machines_of(alloc: Global, images: &[Image]) -> Result<Vec<Machine>, AllocError>
    ensures { IfOk result (λ machines. machines.items ≡ map machine_start images.now) }
{
    let mut machines = Vec::new(alloc);
    for image in images {
        machines.push(Machine::new(alloc, image)?)?;
    }
    Ok(machines)
}

fn mailboxes_of(alloc: Global, n: usize) -> Result<Vec<Mailbox>, AllocError>
    ensures { IfOk result (λ mailboxes. mailboxes.items ≡ replicate n []) }
{
    let mut mailboxes = Vec::new(alloc);
    for _ in 0..n {
        mailboxes.push(Mailbox::new(alloc)?)?;
    }
    Ok(mailboxes)
}

fn empty_prints(alloc: Global, n: usize) -> Result<Vec<Bytes>, AllocError>
    ensures { IfOk result (λ lists. map kept_items lists.items ≡ replicate n []) }
{
    let mut lists = Vec::new(alloc);
    for _ in 0..n {
        lists.push(Bytes::new(alloc))?;
    }
    Ok(lists)
}

fn empty_histories(alloc: Global, n: usize) -> Result<Vec<Cells>, AllocError>
    ensures { IfOk result (λ lists. map kept_items lists.items ≡ replicate n []) }
{
    let mut lists = Vec::new(alloc);
    for _ in 0..n {
        lists.push(Cells::new(alloc))?;
    }
    Ok(lists)
}

fn array_of(alloc: Global, images: &[Image], links: &[Link]) -> Result<Array, AllocError>
    requires cores { length images.now < 17 }
    requires few { length links.now < 17 }
    ensures links { IfOk result (λ array. array.links ≡ links.now) }
    ensures count { IfOk result (λ array. length array.cores ≡ length images.now) }
    ensures start { IfOk result (λ array. network_of array ≡ cores_start images.now links.now) }
{
    let machines = machines_of(alloc, images)?;
    let mailboxes = mailboxes_of(alloc, links.len())?;
    let printed = empty_prints(alloc, images.len())?;
    let histories = empty_histories(alloc, links.len())?;
    let links = links.to_vec(alloc)?;
    Ok(Array {
        links,
        machines,
        mailboxes,
        printed,
        histories,
    })
}

// Makes room for n more in each list.
fn reserve_bytes(lists: &mut Vec<Bytes>, n: usize) -> Result<(), AllocError>
    ensures items { map kept_items lists.new.items ≡ map kept_items lists.old.items }
    ensures len { length lists.new.items ≡ length lists.old.items }
    ensures room { OnOk result (HaveRoom n lists.new.items) }
{
    for i in 0..lists.len() {
        lists[i].reserve(n)?;
    }
    Ok(())
}

fn reserve_cells(lists: &mut Vec<Cells>, n: usize) -> Result<(), AllocError>
    ensures items { map kept_items lists.new.items ≡ map kept_items lists.old.items }
    ensures len { length lists.new.items ≡ length lists.old.items }
    ensures room { OnOk result (HaveRoom n lists.new.items) }
{
    for i in 0..lists.len() {
        lists[i].reserve(n)?;
    }
    Ok(())
}

// Keeps what an event of a core tells.
fn keep_bytes(printed: &mut Vec<Bytes>, core: usize, event: CoreEvent)
    requires core { core < length printed.old.items }
    requires room { 0 < (get_or printed.old.items core none_kept).room }
    ensures printed { map kept_items printed.new.items ≡ set (map kept_items printed.old.items) core (list_at (map kept_items printed.old.items) core ++ event_bytes event) }
    ensures room { OneLess printed.old.items printed.new.items }
    ensures len { length printed.new.items ≡ length printed.old.items }
{
    if let CoreEvent::Printed(byte) = event {
        printed[core].push(byte);
    }
}

// Keeps a cell that was sent.
fn keep_sent(histories: &mut Vec<Cells>, sent: Option<(usize, u16)>)
    requires { SentFits sent histories.old.items }
    ensures histories { map kept_items histories.new.items ≡ sent_on sent (map kept_items histories.old.items) }
    ensures room { OneLess histories.old.items histories.new.items }
    ensures len { length histories.new.items ≡ length histories.old.items }
{
    if let Some((link, cell)) = sent {
        histories[link].push(cell);
    }
}

fn first_bad(cores: usize, links: &[Link]) -> Option<usize>
    ensures { result ≡ position (is_bad_link cores) links.now }
{
    links.iter().position(|link| {
        !(usize::from(link.from) < cores && usize::from(link.to) < cores && !(link.from == link.to))
    })
}

impl Array {
    /// The cores at their start on these images, with empty mailboxes. All that steps need is allocated here.
    ///
    /// `BadLink(i)` comes exactly where link i is the first with an end that is no core, or with equal ends.
    pub fn new(alloc: Global, images: &[Image], links: &[Link]) -> Result<Array, ArrayError>
        requires several { 1 < length images.now }
        requires cores { length images.now < 17 }
        requires few { length links.now < 17 }
        ensures bad { (i : ℕ) → (result ≡ Err (ArrayError.BadLink i)) ↔ (position (is_bad_link (length images.now)) links.now ≡ Some i) }
        ensures links { IfOk result (λ array. array.links ≡ links.now) }
        ensures count { IfOk result (λ array. length array.cores ≡ length images.now) }
        ensures start { IfOk result (λ array. network_of array ≡ cores_start images.now links.now) }
    {
        if let Some(i) = first_bad(images.len(), links) {
            return Err(ArrayError::BadLink(i as u16));
        }
        match array_of(alloc, images, links) {
            Ok(array) => Ok(array),
            Err(_) => Err(ArrayError::OutOfMemory),
        }
    }

    /// Makes one step of a core. `Blocked` comes exactly where its next instruction takes from an empty mailbox or sends to a
    /// full one, and nothing changes then. What is printed and sent is not kept.
    pub fn step(&mut self, core: u8) -> CoreEvent
        requires { core < length self.old.cores }
        ensures event { result ≡ core_event self.old.links core (network_of self.old) }
        ensures cores { self.new.cores ≡ (core_stepped self.old.links core (network_of self.old)).cores }
        ensures mailboxes { self.new.mailboxes ≡ (core_stepped self.old.links core (network_of self.old)).mailboxes }
        ensures links { self.new.links ≡ self.old.links }
        ensures count { length self.new.cores ≡ length self.old.cores }
        ensures printed { self.new.printed ≡ self.old.printed }
        ensures histories { self.new.histories ≡ self.old.histories }
    {
        let machine = &mut self.machines[usize::from(core)];
        make(&self.links, machine, &mut self.mailboxes, core).event
    }

    /// Makes the steps of a schedule, and keeps what each core printed and what was sent by each link.
    ///
    /// An error is want of memory, and comes before the first step: all room is made first.
    pub fn run(&mut self, schedule: &[u8]) -> Result<(), AllocError>
        requires { (i : ℕ) → i < length schedule.now → slice_index schedule.now i < length self.old.cores }
        ensures links { self.new.links ≡ self.old.links }
        ensures count { length self.new.cores ≡ length self.old.cores }
        ensures ok { OnOk result (network_of self.new ≡ cores_run self.old.links schedule.now (network_of self.old)) }
        ensures err { OnErr result (network_of self.new ≡ network_of self.old) }
    {
        reserve_bytes(&mut self.printed, schedule.len())?;
        reserve_cells(&mut self.histories, schedule.len())?;
        for core in schedule {
            let machine = &mut self.machines[usize::from(*core)];
            let turn = make(&self.links, machine, &mut self.mailboxes, *core);
            keep_bytes(&mut self.printed, usize::from(*core), turn.event);
            keep_sent(&mut self.histories, turn.sent);
        }
        Ok(())
    }

    /// The end of a core, once it has one.
    pub fn end(&self, core: u8) -> Option<End>
        requires { core < length self.now.cores }
        ensures { result ≡ (get_or self.now.cores core no_core).ended }
    {
        self.machines[usize::from(core)].ended()
    }

    /// What a core printed in all calls of `run`.
    #[tactic(auto, using(crate::proofs::KeptLists::listed))]
    pub fn printed(&self, core: u8) -> &[u8]
        requires { core < length self.now.cores }
        ensures { result.now ≡ list_at (network_of self.now).printed core }
    {
        self.printed[usize::from(core)].as_slice()
    }

    /// What was sent by a link in all calls of `run`.
    #[tactic(auto, using(crate::proofs::KeptLists::listed))]
    pub fn history(&self, link: u16) -> &[u16]
        requires { link < length self.now.links }
        ensures { result.now ≡ list_at (network_of self.now).histories link }
    {
        self.histories[usize::from(link)].as_slice()
    }
}
