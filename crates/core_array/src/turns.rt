// One step of one core.
ghost use Rattle.std.specs.Prelude.{◌≡◌, ◌<◌, length, IsTrue, Some, None};
ghost use Rattle.j1_simulator.specs.PortAccess.{next_accesses, OneAtPort};
ghost use Rattle.core_array.specs.Network.{Alone, has_room, list_at};
ghost use Rattle.core_array.specs.Cores.{own_step, is_port, link_of, may_send, may_receive, core_action, given_cell};
ghost use Rattle.core_array.specs.ArrayState.{DoesAction, SentWithin, SendsWhere, ReceivesWhere};

use crate::events::CoreEvent;
use crate::links::Link;
use crate::mailboxes::Mailbox;
use j1_simulator::{End, Event, Machine, steps_are_the_run};

/// What a core did in a step: what it answers, and the link and the cell where it sent one.
#[derive(Clone, Copy, Debug, PartialEq, Eq)]
pub struct Turn {
    pub event: CoreEvent,
    pub sent: Option<(usize, u16)>,
}

// A step of a machine on its own, whose input is empty.
fn step_alone(machine: &mut Machine) -> CoreEvent
    ensures { Alone machine.new result ≡ own_step machine.old.ended machine.old }
{
    steps_are_the_run();
    match machine.step_apart() {
        Event::Went => CoreEvent::Went,
        Event::Printed(byte) => CoreEvent::Printed(byte),
        Event::Ended(end) => CoreEvent::Ended(end),
        Event::WantsByte => {
            machine.give_byte(None);
            machine.step_apart();
            CoreEvent::Ended(End::InputEnded)
        }
    }
}

// The link of a port.
fn port(address: u16) -> usize
    requires { 16415 < address }
    ensures { result ≡ link_of address }
{
    usize::from((address / 2 * 2 - 16416) / 2)
}

fn sends_at(links: &[Link], core: u8, address: u16) -> bool
    ensures { result ≡ may_send links.now core address }
{
    if address < 16416 {
        return false;
    }
    let i = port(address);
    i < links.len() && links[i].from == core
}

fn receives_at(links: &[Link], core: u8, address: u16) -> bool
    ensures { result ≡ may_receive links.now core address }
{
    if address < 16416 {
        return false;
    }
    let i = port(address);
    i < links.len() && links[i].to == core
}

// Sends a cell by a link, where there is room.
fn send(machine: &mut Machine, mailboxes: &mut [Mailbox], link: usize, cell: u16) -> Turn
    requires link { link < length mailboxes.old }
    requires running { machine.old.ended ≡ None }
    requires access { OneAtPort (next_accesses machine.old).fetch (next_accesses machine.old).store }
    ensures link { SentWithin result.sent (length mailboxes.old) }
    ensures sends { SendsWhere (has_room (list_at mailboxes.old link)) link cell (given_cell 0 machine.old) result machine.old machine.new mailboxes.old mailboxes.new }
{
    let mailbox = &mut mailboxes[link];
    if mailbox.len() < 64 {
        mailbox.push(cell);
        machine.step_with(0);
        Turn {
            event: CoreEvent::Went,
            sent: Some((link, cell)),
        }
    } else {
        Turn {
            event: CoreEvent::Blocked,
            sent: None,
        }
    }
}

// Takes the oldest cell of a link, where there is one.
fn receive(machine: &mut Machine, mailboxes: &mut [Mailbox], link: usize) -> Turn
    requires link { link < length mailboxes.old }
    requires running { machine.old.ended ≡ None }
    requires access { OneAtPort (next_accesses machine.old).fetch (next_accesses machine.old).store }
    ensures none { result.sent ≡ None }
    ensures receives { ReceivesWhere (list_at mailboxes.old link) link (λ cell. given_cell cell machine.old) result machine.old machine.new mailboxes.old mailboxes.new }
{
    let mailbox = &mut mailboxes[link];
    match mailbox.take() {
        None => Turn {
            event: CoreEvent::Blocked,
            sent: None,
        },
        Some(cell) => {
            machine.step_with(cell);
            Turn {
                event: CoreEvent::Went,
                sent: None,
            }
        }
    }
}

/// One step of a core, on its machine and the mailboxes of all links.
pub fn make(links: &[Link], machine: &mut Machine, mailboxes: &mut [Mailbox], core: u8) -> Turn
    requires mailboxes { length mailboxes.old ≡ length links.now }
    requires few { length links.now < 17 }
    ensures link { SentWithin result.sent (length links.now) }
    ensures does { DoesAction (core_action links.now core machine.old) result machine.old machine.new mailboxes.old mailboxes.new }
{
    let accesses = machine.accesses();
    match (accesses.fetch, accesses.store) {
        (None, Some((address, cell))) => {
            if sends_at(links, core, address) {
                return send(machine, mailboxes, port(address), cell);
            }
        }
        (Some(address), None) => {
            if receives_at(links, core, address) {
                return receive(machine, mailboxes, port(address));
            }
        }
        _ => {}
    }
    Turn {
        event: step_alone(machine),
        sent: None,
    }
}
