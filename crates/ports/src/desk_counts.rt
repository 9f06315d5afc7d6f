//! The counts that a desk keeps for each name.

ghost use Rattle.std.specs.Prelude.{◌≡◌, ◌+◌, ◌≤◌, ◌<◌, [], None, List, ℕ, length, IfSome, IfOk, OnErr};
ghost use Rattle.ports.specs.DeskState.{IsCounted, read_count, write_count, given_count};
ghost use Rattle.ports.specs.DeskSteps.{Enters, Raises};
ghost use Rattle.ports.specs.Named.{IsPlaceOf, first_named};
ghost use Rattle.ports.specs.Plans.{count_plus};

use crate::named::{Named, position_of};
use std::alloc::{AllocError, Global};
use std::marker::Model;

/// How many reads and writes of one file have failed, and how many of its bytes were given.
#[derive(Debug, Drop)]
struct NameCounts {
    name: String,
    reads: u64,
    writes: u64,
    given: u64,
}

impl Model for NameCounts {
    ghost use Rattle.std.specs.String.{string_bytes};
    ghost use Rattle.ports.specs.DeskState.{NamedCounts};

    ghost Value = { NamedCounts };

    ghost view = { λ c. record { name = string_bytes c.name; reads = c.reads; writes = c.writes; given = c.given } };
}

impl Named for NameCounts {
    ghost key = { λ c. c.name };

    fn name(&self) -> &str {
        self.name.as_str()
    }
}

impl NameCounts {
    fn raise_reads(&mut self)
        ensures risen { self.new ≡ record self.old { reads = count_plus 1 self.old.reads } }
        ensures later { self.old.reads ≤ self.new.reads }
    {
        self.reads = self.reads.saturating_add(1);
    }

    fn raise_writes(&mut self)
        ensures risen { self.new ≡ record self.old { writes = count_plus 1 self.old.writes } }
        ensures later { self.old.writes ≤ self.new.writes }
    {
        self.writes = self.writes.saturating_add(1);
    }

    fn raise_given(&mut self, more: u64)
        ensures risen { self.new ≡ record self.old { given = count_plus more self.old.given } }
        ensures later { self.old.given ≤ self.new.given }
    {
        self.given = self.given.saturating_add(more);
    }
}

/// The counts of each name.
#[derive(Debug, Drop)]
pub(crate) struct DeskCounts {
    alloc: Global,
    entries: Vec<NameCounts>,
}

impl Model for DeskCounts {
    ghost use Rattle.std.specs.Prelude.{List};
    ghost use Rattle.ports.specs.DeskState.{NamedCounts};

    ghost Value = { List NamedCounts };

    ghost view = { λ c. c.entries.items };
}

impl DeskCounts {
    pub(crate) fn new(alloc: Global) -> DeskCounts
        ensures { result ≡ [] }
    {
        DeskCounts {
            alloc,
            entries: Vec::new(alloc),
        }
    }

    /// The place of a name's counts, where it has any.
    pub(crate) fn place_of(&self, name: &str) -> Option<usize>
        ensures place { IsPlaceOf (λ c. c.name) self.now name.now result }
        ensures within { IfSome result (λ place. place < length self.now) }
    {
        position_of(self.entries.as_slice(), name)
    }

    /// Takes the memory for the counts of a name that hasn't any yet, and answers their place.
    pub(crate) fn add(&mut self, name: &str) -> Result<usize, AllocError>
        requires { first_named (λ c. c.name) self.old name.now ≡ None }
        ensures entered { Enters self.old self.new name.now result }
        ensures place { IfOk result (λ place. (place ≡ length self.old) × (length self.new ≡ length self.old + 1)) }
        ensures err { OnErr result (self.new ≡ self.old) }
    {
        let place = self.entries.len();
        let name = String::from_str(self.alloc, name)?;
        self.entries.push(NameCounts {
            name,
            reads: 0,
            writes: 0,
            given: 0,
        })?;
        Ok(place)
    }

    /// Takes the memory for a name's counts, where it hasn't any yet.
    pub(crate) fn enter(&mut self, name: &str) -> Result<(), AllocError>
        ensures { Enters self.old self.new name.now result }
    {
        match self.place_of(name) {
            Some(_) => Ok(()),
            None => {
                self.add(name)?;
                Ok(())
            }
        }
    }

    /// Counts a failed read.
    pub(crate) fn raise_reads(&mut self, name: &str)
        requires { IsCounted self.old name.now }
        ensures { Raises read_count write_count given_count 1 self.old self.new name.now }
    {
        match position_of(self.entries.as_slice(), name) {
            Some(place) => self.entries[place].raise_reads(),
            None => unreachable!(),
        }
    }

    /// Counts a failed write.
    pub(crate) fn raise_writes(&mut self, name: &str)
        requires { IsCounted self.old name.now }
        ensures { Raises write_count read_count given_count 1 self.old self.new name.now }
    {
        match position_of(self.entries.as_slice(), name) {
            Some(place) => self.entries[place].raise_writes(),
            None => unreachable!(),
        }
    }

    /// Counts bytes that were given.
    pub(crate) fn raise_given(&mut self, name: &str, more: usize)
        requires { IsCounted self.old name.now }
        ensures { Raises given_count read_count write_count more self.old self.new name.now }
    {
        match position_of(self.entries.as_slice(), name) {
            Some(place) => self.entries[place].raise_given(more as u64),
            None => unreachable!(),
        }
    }
}
