// A net, and how its rows fill it.
ghost use Rattle.std.specs.Prelude.{◌≡◌, IfOk, OnOk, MatchOption, not, map, string_bytes, length};
ghost use Rattle.core_array.specs.Cores.{is_bad_link};
ghost use Rattle.net_file.specs.declared.nets.Stage.TheVariants.{Listing, Closed};
ghost use Rattle.net_file.specs.Reading.{net_row, reading_start, turns_fit, row_fits, stage_after, net_with, after_row, after_line, RowGives, IsOpen};

use crate::rows::{Row, are_line_bytes, row_of};
use core_array::Link;
use j1_assembler::next_field;
use std::alloc::{AllocError, Global};
use std::marker::Model;

/// The array that a net file tells, and its schedule. Contracts see a `NetPlan`.
#[derive(Drop)]
pub struct Net {
    cores: Vec<String>,
    links: Vec<Link>,
    rounds: u32,
    entries: u16,
}

impl Model for Net {
    ghost use Rattle.std.specs.Prelude.{map, string_bytes};
    ghost use Rattle.net_file.specs.Net.{NetPlan};

    ghost Value = { NetPlan };

    ghost view = { λ n. record { cores = map string_bytes n.cores.items; links = n.links.items; rounds = n.rounds; entries = n.entries } };
}

/// How far a net file was read.
#[derive(Clone, Copy, Debug, PartialEq, Eq)]
pub enum Stage {
    /// The header comes next.
    Opening,
    /// Cores, links and the turns come next.
    Listing,
    /// All rows were read.
    Closed,
}

/// A net that is read row by row.
#[derive(Drop)]
pub struct NetReader {
    stage: Stage,
    net: Net,
}

impl Model for NetReader {
    ghost use Rattle.net_file.specs.Reading.{NetReading};

    ghost Value = { NetReading };

    ghost view = { λ r. record { stage = r.stage; net = r.net } };
}

impl Net {
    /// The source file of each core.
    pub fn cores(&self) -> &[String]
        ensures { map string_bytes result.now ≡ self.now.cores }
    {
        self.cores.as_slice()
    }

    pub fn links(&self) -> &[Link]
        ensures { result.now ≡ self.now.links }
    {
        self.links.as_slice()
    }

    pub fn rounds(&self) -> u32
        ensures { result ≡ self.now.rounds }
    {
        self.rounds
    }

    /// How many entries each core has in a round.
    pub fn entries(&self) -> u16
        ensures { result ≡ self.now.entries }
    {
        self.entries
    }
}

impl NetReader {
    pub fn new(alloc: Global) -> NetReader
        ensures { result ≡ reading_start }
    {
        NetReader {
            stage: Stage::Opening,
            net: Net {
                cores: Vec::new(alloc),
                links: Vec::new(alloc),
                rounds: 0,
                entries: 0,
            },
        }
    }

    // Whether so many entries may be made in all.
    fn turns_fit(&self, rounds: u32, entries: u16) -> bool
        ensures { result ≡ turns_fit (length self.now.net.cores) rounds entries }
    {
        let all = u128::from(rounds) * u128::from(entries) * (self.net.cores.len() as u128);
        rounds > 0 && entries > 0 && all <= 4_000_000
    }

    // Whether a link has two different cores as its ends.
    fn link_fits(&self, link: Link) -> bool
        ensures { result ≡ not (is_bad_link (length self.now.net.cores) link) }
    {
        let cores = self.net.cores.len();
        usize::from(link.from) < cores && usize::from(link.to) < cores && link.from != link.to
    }

    // Whether a row may come next behind the header.
    fn fits_listing(&self, row: Row<'_>) -> bool
        ensures { result ≡ row_fits Listing self.now.net (net_row row.entry) }
    {
        let cores = self.net.cores.len();
        let links = self.net.links.len();
        match row {
            Row::Header => false,
            Row::Core(_) => links == 0 && cores < 16,
            Row::Link(link) => cores >= 2 && links < 16 && self.link_fits(link),
            Row::Turns(rounds, entries) => cores >= 2 && self.turns_fit(rounds, entries),
        }
    }

    fn fits(&self, row: Row<'_>) -> bool
        ensures { result ≡ row_fits self.now.stage self.now.net (net_row row.entry) }
    {
        match self.stage {
            Stage::Opening => match row {
                Row::Header => true,
                Row::Core(_) => false,
                Row::Link(_) => false,
                Row::Turns(_, _) => false,
            },
            Stage::Listing => self.fits_listing(row),
            Stage::Closed => false,
        }
    }

    // Adds a row.
    fn add(&mut self, alloc: Global, row: Row<'_>) -> Result<(), AllocError>
        ensures { OnOk result (self.new ≡ record { stage = stage_after (net_row row.entry); net = net_with (net_row row.entry) self.old.net }) }
    {
        match row {
            Row::Header => self.stage = Stage::Listing,
            Row::Core(file) => {
                self.net.cores.push(String::from_str(alloc, file)?)?;
                self.stage = Stage::Listing;
            }
            Row::Link(link) => {
                self.net.links.push(link)?;
                self.stage = Stage::Listing;
            }
            Row::Turns(rounds, entries) => {
                self.net.rounds = rounds;
                self.net.entries = entries;
                self.stage = Stage::Closed;
            }
        }
        Ok(())
    }

    // Goes over a row; false where it may not come next.
    fn row(&mut self, alloc: Global, row: Row<'_>) -> Result<bool, AllocError>
        ensures { IfOk result (λ fits. RowGives fits self.new (after_row self.old (net_row row.entry))) }
    {
        if !self.fits(row) {
            return Ok(false);
        }
        self.add(alloc, row)?;
        Ok(true)
    }

    /// Goes over a line; false where it may not come next.
    pub fn line(&mut self, alloc: Global, line: &[u8]) -> Result<bool, AllocError>
        ensures { IfOk result (λ fits. RowGives fits self.new (after_line self.old line.now)) }
    {
        if !are_line_bytes(line) {
            return Ok(false);
        }
        if next_field(line).is_none() {
            return Ok(true);
        }
        match row_of(line) {
            None => Ok(false),
            Some(row) => self.row(alloc, row),
        }
    }

    /// The net, where all rows were read.
    pub fn net(self) -> Option<Net>
        ensures { MatchOption result (IsOpen self.stage) (λ net. (self.stage ≡ Closed) × (net ≡ self.net)) }
    {
        match self.stage {
            Stage::Opening => None,
            Stage::Listing => None,
            Stage::Closed => Some(self.net),
        }
    }
}
