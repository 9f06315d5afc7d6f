ghost use Rattle.std.specs.Prelude.{◌≡◌, ◌≤◌, ◌↔◌, ◌⊎◌, [], length, map, min, drop, Some, None, Contains, IfOk, OnOk, OnErr, IsTrue, IsSome, IsErr, IsErrOf, Err};
ghost use Rattle.std.specs.Option.{option_copied};
ghost use Rattle.ports.specs.Causes.{HasCause, SameCounts, SameOtherCounts};
ghost use Rattle.ports.specs.Contents.{Tells, TakesSome, Reads, Gives, Puts, Begins, SameFiles, SameOtherFiles, content_of};
ghost use Rattle.ports.specs.DeskState.{file_of, named, NamesDiffer, read_count, write_count, given_count, IsCounted};
ghost use Rattle.ports.specs.Plans.{next_count, count_after, FailsAsPlanned, KeepsRoom};
ghost use Rattle.ports.specs.declared.fault.PortFault.TheVariants as fault;

use crate::copying::copy_from;
use crate::desk::Desk;
use crate::desk_counts::DeskCounts;
use crate::fault::PortFault;
use crate::file_text::FileText;
use crate::sure_desk::SureDesk;
use std::alloc::{AllocError, Global};
use std::marker::Model;

/// Files in memory, whose reads and writes fail where they were told to.
#[derive(Debug, Drop)]
pub struct MemoryDesk {
    desk: SureDesk,
    counts: DeskCounts,
    calls: u64,
    fails: Vec<u64>,
}

impl Model for MemoryDesk {
    ghost use Rattle.std.specs.Prelude.{IfSome};
    ghost use Rattle.ports.specs.DeskState.{PlannedFiles, IsCounted};

    ghost Value = { PlannedFiles };

    ghost view = { λ d. record {
      files = d.desk.files;
      counts = d.counts;
      calls = d.calls;
      fails = d.fails.items;
      begun = d.desk.begun;
      spare = d.desk.spare;
    } };

    ghost invariant = { λ d. IfSome d.desk.begun (λ name. IsCounted d.counts name) };
}

impl MemoryDesk {
    /// A desk of these files, whose calls with the numbers `fails` fail. The first has the number 1.
    pub fn new(alloc: Global, files: Vec<FileText>, fails: Vec<u64>) -> MemoryDesk
        requires { NamesDiffer files.items }
        ensures files { result.files ≡ map named files.items }
        ensures counts { result.counts ≡ [] }
        ensures calls { result.calls ≡ 0 }
        ensures plan { result.fails ≡ fails.items }
        ensures begun { result.begun ≡ None }
        ensures spare { result.spare ≡ 0 }
    {
        MemoryDesk {
            desk: SureDesk::new(alloc, files),
            counts: DeskCounts::new(alloc),
            calls: 0,
            fails,
        }
    }

    /// The bytes of a file, where it is there.
    pub fn file(&self, name: &str) -> Option<&[u8]>
        ensures { option_copied result ≡ file_of self.now.files name.now }
    {
        self.desk.file(name)
    }

    /// Makes room for `more` bytes in the file that was begun last, which puts then take without memory.
    pub fn reserve(&mut self, more: usize) -> Result<(), AllocError>
        requires { IsSome self.old.begun }
        ensures room { OnOk result (more ≤ self.new.spare) }
        ensures kept { self.old.spare ≤ self.new.spare }
        ensures same { self.new ≡ record self.old { spare = self.new.spare } }
    {
        self.desk.reserve(more)
    }

    /// Counts a call, and answers whether it is to fail.
    fn next_call(&mut self) -> bool
        ensures planned { IsTrue result ↔ Contains self.old.fails (next_count self.old.calls) }
        ensures counted { self.new ≡ record self.old { calls = next_count self.old.calls } }
    {
        self.calls = self.calls.saturating_add(1);
        self.fails.contains(&self.calls)
    }

    /// Counts a failed write, where there is memory for its name.
    fn failed_write(&mut self, name: &str) -> PortFault
        ensures cause { HasCause {T = Unit} fault.Failed (write_count self.old.counts name.now) (write_count self.new.counts name.now) (Err result) }
        ensures faults { write_count self.new.counts name.now
            ≡ count_after {T = Unit} (Err result) (write_count self.old.counts name.now) }
        ensures other_writes { SameOtherCounts name.now (write_count self.old.counts) (write_count self.new.counts) }
        ensures reads { SameCounts (read_count self.old.counts) (read_count self.new.counts) }
        ensures given { SameCounts (given_count self.old.counts) (given_count self.new.counts) }
        ensures room { IsCounted self.old.counts name.now → result ≡ fault.Failed }
        ensures begun { self.old.begun ≡ Some name.now → result ≡ fault.Failed }
        ensures same { self.new ≡ record self.old { counts = self.new.counts } }
    {
        if self.counts.enter(name).is_err() {
            return PortFault::Memory;
        }
        self.counts.raise_writes(name);
        PortFault::Failed
    }
}

impl Desk for MemoryDesk {
    ghost told = { λ d. Some (file_of d.files) };

    ghost read_faults = { λ d. read_count d.counts };

    ghost write_faults = { λ d. write_count d.counts };

    ghost given = { λ d. given_count d.counts };

    /// Gives as many bytes as the file and the buffer have, unless the call is to fail. It takes the memory
    /// for the name's counts before.
    fn get(&mut self, name: &str, at: u64, into: &mut [u8]) -> Result<usize, PortFault>
        ensures within { IfOk result (λ n. n ≤ length into.new) }
        ensures bytes { Tells (Some (file_of self.old.files)) (Some (file_of self.new.files)) (λ before now.
            SameFiles before now × IfOk result (Reads (before name.now) at into.new)) }
        ensures given { Gives result (given_count self.old.counts name.now) (given_count self.new.counts name.now) }
        ensures other_given { SameOtherCounts name.now (given_count self.old.counts) (given_count self.new.counts) }
        ensures cause { HasCause fault.Failed (read_count self.old.counts name.now) (read_count self.new.counts name.now) result }
        ensures other_reads { SameOtherCounts name.now (read_count self.old.counts) (read_count self.new.counts) }
        ensures writes { SameCounts (write_count self.old.counts) (write_count self.new.counts) }
        ensures most { IfOk result (λ n. n ≡ min (length (drop at (content_of (file_of self.old.files name.now)))) (length into.old)) }

        // When it fails, and when it needs memory.
        ensures planned { FailsAsPlanned (Contains self.old.fails (next_count self.old.calls) ⊎ (file_of self.old.files name.now ≡ None)) result }
        ensures faults { read_count self.new.counts name.now ≡ count_after result (read_count self.old.counts name.now) }
        ensures counted { OnOk result (IsCounted self.new.counts name.now) }
        ensures room { IsCounted self.old.counts name.now → ¬ (IsErrOf result fault.Memory) }
        ensures same { self.new ≡ record self.old { calls = next_count self.old.calls; counts = self.new.counts } }
    {
        let fails = self.next_call();
        self.counts.enter(name)?;
        match self.desk.file(name) {
            Some(bytes) if !fails => {
                let count = copy_from(bytes, at, into);
                self.counts.raise_given(name, count);
                Ok(count)
            }
            _ => {
                self.counts.raise_reads(name);
                Err(PortFault::Failed)
            }
        }
    }

    /// Makes the named file empty, and it is then the one that was begun last.
    fn begin(&mut self, name: &str) -> Result<(), PortFault>
        ensures bytes { Tells (Some (file_of self.old.files)) (Some (file_of self.new.files)) (λ before now.
            SameOtherFiles name.now before now × Begins result (before name.now) (now name.now)) }
        ensures cause { HasCause fault.Failed (write_count self.old.counts name.now) (write_count self.new.counts name.now) result }
        ensures other_writes { SameOtherCounts name.now (write_count self.old.counts) (write_count self.new.counts) }
        ensures reads { SameCounts (read_count self.old.counts) (read_count self.new.counts) }
        ensures given { SameCounts (given_count self.old.counts) (given_count self.new.counts) }

        // When it fails.
        ensures planned { FailsAsPlanned (Contains self.old.fails (next_count self.old.calls)) result }
        ensures calls { self.new.calls ≡ next_count self.old.calls }
        ensures plan { self.new.fails ≡ self.old.fails }
        ensures faults { write_count self.new.counts name.now ≡ count_after result (write_count self.old.counts name.now) }

        // The file that was begun last.
        ensures begun { OnOk result (self.new.begun ≡ Some name.now) }
        ensures counted { OnOk result (IsCounted self.new.counts name.now) }
        ensures err { OnErr result ((self.new.begun ≡ self.old.begun) × (self.new.spare ≡ self.old.spare)) }
    {
        let fails = self.next_call();
        self.counts.enter(name)?;
        if fails {
            self.counts.raise_writes(name);
            return Err(PortFault::Failed);
        }
        self.desk.begin(name)
    }

    /// Takes the whole piece, unless the call is to fail or there is no memory for it.
    fn put(&mut self, name: &str, piece: &[u8]) -> Result<usize, PortFault>
        ensures taken { IfOk result (TakesSome piece.now) }
        ensures bytes { Tells (Some (file_of self.old.files)) (Some (file_of self.new.files)) (λ before now.
            SameOtherFiles name.now before now × Puts piece.now result (before name.now) (now name.now)) }
        ensures cause { HasCause fault.Failed (write_count self.old.counts name.now) (write_count self.new.counts name.now) result }
        ensures other_writes { SameOtherCounts name.now (write_count self.old.counts) (write_count self.new.counts) }
        ensures reads { SameCounts (read_count self.old.counts) (read_count self.new.counts) }
        ensures given { SameCounts (given_count self.old.counts) (given_count self.new.counts) }
        ensures whole { IfOk result (λ n. n ≡ length piece.now) }

        // When it fails.
        ensures planned { FailsAsPlanned (Contains self.old.fails (next_count self.old.calls)) result }
        ensures calls { self.new.calls ≡ next_count self.old.calls }
        ensures plan { self.new.fails ≡ self.old.fails }
        ensures faults { write_count self.new.counts name.now ≡ count_after result (write_count self.old.counts name.now) }

        // The file that was begun last, and its room.
        ensures begun { self.new.begun ≡ self.old.begun }
        ensures room { self.old.begun ≡ Some name.now → length piece.now ≤ self.old.spare
            → ¬ (IsErrOf result fault.Memory) }
        ensures spare { KeepsRoom result self.old.spare self.new.spare }
    {
        if self.next_call() {
            return Err(self.failed_write(name));
        }
        self.desk.put(name, piece)
    }
}
