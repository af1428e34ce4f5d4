// Arrays of two cores, step by step and under several schedules.
use control_flow::{programs_are_sources, read_program};
use core_array::{Array, ArrayError, CoreEvent, Link};
use forth_library::{linked_image, sources_are_built};
use j1_simulator::End;
use j1_table::Image;
use std::alloc::Global;
use std::marker::Model;
use std::test::Fail;

// Sends 0 to 999 by link 0, and adds up what comes by it.
const COUNTS: &str = ": MAIN 1000 0 DO I 16416 ! LOOP ;";

const SUMS: &str = ": MAIN 0 1000 0 DO 16416 @ + LOOP U. ;";

// An array of two cores. Contracts see that it has two, and how many links.
#[derive(Drop)]
struct Pair {
    array: Array,
    links: u16,
}

impl Model for Pair {
    ghost use Rattle.std.specs.Prelude.{◌≡◌, length};
    ghost use Rattle.core_array.specs.ArrayState.{ArrayState};

    ghost Value = { ArrayState };

    ghost view = { λ p. p.array };

    ghost invariant = { λ p. (length p.array.cores ≡ 2) × (length p.array.links ≡ p.links) };
}

fn compiled(alloc: Global, source: &str) -> Result<Image, Fail> {
    if source.len() > 1000 {
        return Err(Fail::from("too long"));
    }
    programs_are_sources();
    sources_are_built();
    match read_program(alloc, source.as_bytes()) {
        Ok(program) => Ok(linked_image(alloc, &program)?),
        Err(_) => Err(Fail::from("not read")),
    }
}

fn image_of_cells(alloc: Global, cells: &[u16]) -> Result<Image, Fail> {
    if cells.len() > 4096 {
        return Err(Fail::from("too long"));
    }
    Ok(Image::new(alloc, cells, b"")?)
}

impl Pair {
    fn new(alloc: Global, one: Image, other: Image, links: &[Link]) -> Result<Pair, Fail> {
        if links.len() > 16 {
            return Err(Fail::from("too many"));
        }
        let images = [one, other];
        match Array::new(alloc, &images, links) {
            Ok(array) => Ok(Pair {
                array,
                links: links.len() as u16,
            }),
            Err(_) => Err(Fail::from("no array")),
        }
    }

    // Makes n steps of a core.
    fn run(&mut self, alloc: Global, core: u8, n: usize) -> Result<(), Fail> {
        if core > 1 {
            return Err(Fail::from("no core"));
        }
        let schedule = vec![in alloc; core; n]?;
        self.array.run(&schedule)?;
        Ok(())
    }

    fn step(&mut self, core: u8) -> Option<CoreEvent> {
        if core > 1 {
            None
        } else {
            Some(self.array.step(core))
        }
    }

    fn end(&self, core: u8) -> Option<End> {
        if core > 1 { None } else { self.array.end(core) }
    }

    fn printed(&self, core: u8) -> &[u8] {
        if core > 1 {
            b""
        } else {
            self.array.printed(core)
        }
    }

    fn history(&self, link: u16) -> &[u16] {
        if link < self.links {
            self.array.history(link)
        } else {
            &[]
        }
    }
}

// Two cores, of which the first sends to the second.
fn linked_pair(alloc: Global, one: Image, other: Image) -> Result<Pair, Fail> {
    Pair::new(alloc, one, other, &[Link { from: 0, to: 1 }])
}

// Whether cells are 0, 1, 2 and so on.
fn counts_up(cells: &[u16]) -> bool {
    let mut next = 0u16;
    for cell in cells {
        if *cell != next {
            return false;
        }
        next = next.wrapping_add(1);
    }
    true
}

// Turns of two cores: which is first, how many steps each makes in a turn, and how many turns they have.
#[derive(Clone, Copy)]
struct Turns {
    first: u8,
    second: u8,
    steps: usize,
    rounds: u32,
}

const TURNS: [Turns; 3] = [
    Turns {
        first: 0,
        second: 1,
        steps: 1000,
        rounds: 60,
    },
    Turns {
        first: 1,
        second: 0,
        steps: 640,
        rounds: 90,
    },
    Turns {
        first: 0,
        second: 1,
        steps: 7,
        rounds: 8_000,
    },
];

fn run_turns(alloc: Global, pair: &mut Pair, turns: &Turns) -> Result<(), Fail> {
    for _ in 0..turns.rounds {
        pair.run(alloc, turns.first, turns.steps)?;
        pair.run(alloc, turns.second, turns.steps)?;
    }
    Ok(())
}

// Whether a core has halted well, and printed this.
fn has_printed(pair: &Pair, core: u8, printed: &[u8]) -> bool {
    pair.end(core) == Some(End::Halted(0)) && *pair.printed(core) == *printed
}

fn has_summed(pair: &Pair) -> bool {
    let cells = pair.history(0);
    has_printed(pair, 0, b"")
        && has_printed(pair, 1, b"40748 ")
        && cells.len() == 1000
        && counts_up(cells)
}

fn sums_by(alloc: Global, turns: &Turns) -> Result<bool, Fail> {
    let counts = compiled(alloc, COUNTS)?;
    let mut pair = linked_pair(alloc, counts, compiled(alloc, SUMS)?)?;
    run_turns(alloc, &mut pair, turns)?;
    Ok(has_summed(&pair))
}

#[test]
fn sums_under_each_schedule(rt: HostRuntime) -> Result<(), Fail> {
    for turns in &TURNS {
        assert!(rt; sums_by(rt.alloc(), turns)?, "{}", turns.steps);
    }
    Ok(())
}

// Whether a core goes once, and is blocked from then on.
fn waits(pair: &mut Pair, core: u8) -> bool {
    pair.step(core) == Some(CoreEvent::Went)
        && pair.step(core) == Some(CoreEvent::Blocked)
        && pair.step(core) == Some(CoreEvent::Blocked)
        && pair.end(core).is_none()
}

// Two cores of which each takes before it sends.
#[test]
fn blocks_on_empty_mailboxes(rt: HostRuntime) -> Result<(), Fail> {
    let alloc = rt.alloc();
    let links = [Link { from: 0, to: 1 }, Link { from: 1, to: 0 }];
    let one = image_of_cells(alloc, &[0xC022, 0x6C00])?;
    let other = image_of_cells(alloc, &[0xC020, 0x6C00])?;
    let mut pair = Pair::new(alloc, one, other, &links)?;
    let both_wait = waits(&mut pair, 0) && waits(&mut pair, 1);
    assert!(rt; both_wait);
    Ok(())
}

// Whether a sender is blocked at 64 cells, and goes on when one is taken.
fn fills(alloc: Global, pair: &mut Pair) -> Result<bool, Fail> {
    pair.run(alloc, 0, 10_000)?;
    let is_full = pair.history(0).len() == 64 && pair.step(0) == Some(CoreEvent::Blocked);
    pair.run(alloc, 1, 2)?;
    pair.run(alloc, 0, 10_000)?;
    Ok(is_full && pair.history(0).len() == 65)
}

#[test]
fn blocks_on_full_mailboxes(rt: HostRuntime) -> Result<(), Fail> {
    let alloc = rt.alloc();
    let taker = image_of_cells(alloc, &[0xC020, 0x6C00])?;
    let mut pair = linked_pair(alloc, compiled(alloc, COUNTS)?, taker)?;
    assert!(rt; fills(alloc, &mut pair)?);
    Ok(())
}

// Whether an array of two cores is refused for the second of three links.
fn is_refused(alloc: Global, images: &[Image; 2], bad: Link) -> bool {
    let good = Link { from: 1, to: 0 };
    match Array::new(alloc, images, &[good, bad, bad]) {
        Ok(_) => false,
        Err(error) => error == ArrayError::BadLink(1),
    }
}

#[test]
fn refuses_links(rt: HostRuntime) -> Result<(), Fail> {
    let alloc = rt.alloc();
    let one = image_of_cells(alloc, &[0x6000])?;
    let images = [one, image_of_cells(alloc, &[0x6000])?];
    for (from, to) in [(0, 0), (2, 0), (0, 16)] {
        assert!(rt;
            is_refused(alloc, &images, Link { from, to }),
            "{from} {to}"
        );
    }
    Ok(())
}
