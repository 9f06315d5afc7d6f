ghost use Rattle.std.specs.Prelude.{◌≡◌, ◌≤◌, [], length, map, min, drop, Some, None, IfOk, OnOk, OnErr, IsSome, IsOk, IsErrOf};
ghost use Rattle.std.specs.Option.{option_copied};
ghost use Rattle.ports.specs.Causes.{HasCause, SameCounts, SameOtherCounts};
ghost use Rattle.ports.specs.Contents.{Tells, TakesSome, Reads, Gives, Puts, Begins, SameFiles, SameOtherFiles, content_of};
ghost use Rattle.ports.specs.DeskState.{file_of, file_or_empty, named, NamesDiffer, given_count, IsCounted};
ghost use Rattle.ports.specs.Plans.{KeepsRoom};
ghost use Rattle.ports.specs.declared.fault.PortFault.TheVariants as fault;

use crate::copying::copy_from;
use crate::desk::Desk;
use crate::desk_counts::DeskCounts;
use crate::fault::PortFault;
use crate::file_list::{bytes_of, empty_file, extend_file, reserve_in};
use crate::file_text::FileText;
use std::alloc::{AllocError, Global};
use std::marker::Model;

/// Files in memory, which only want of memory stops. A file that isn't there reads as empty.
#[derive(Debug, Drop)]
pub struct SureDesk {
    alloc: Global,
    files: Vec<FileText>,
    counts: DeskCounts,
    begun: Option<String>,
}

impl Model for SureDesk {
    ghost use Rattle.std.specs.Prelude.{map, IfSome, IsSome};
    ghost use Rattle.std.specs.String.{string_bytes};
    ghost use Rattle.std.specs.Option.{option_map};
    ghost use Rattle.ports.specs.DeskState.{SureFiles, named, files_in, begun_room};

    ghost Value = { SureFiles };

    ghost view = { λ d. record {
      files = map named d.files.items;
      counts = d.counts;
      begun = option_map string_bytes d.begun;
      spare = begun_room d.files.items (option_map string_bytes d.begun);
    } };

    ghost invariant = { λ d. IfSome d.begun (λ name. IsSome (files_in d.files.items (string_bytes name))) };
}

impl SureDesk {
    pub fn new(alloc: Global, files: Vec<FileText>) -> SureDesk
        requires { NamesDiffer files.items }
        ensures files { result.files ≡ map named files.items }
        ensures counts { result.counts ≡ [] }
        ensures begun { result.begun ≡ None }
        ensures spare { result.spare ≡ 0 }
    {
        SureDesk {
            alloc,
            files,
            counts: DeskCounts::new(alloc),
            begun: None,
        }
    }

    /// The bytes of a file, where it is there.
    pub fn file(&self, name: &str) -> Option<&[u8]>
        ensures { option_copied result ≡ file_of self.now.files name.now }
    {
        bytes_of(self.files.as_slice(), name)
    }

    /// Makes room for `more` bytes in the file that was begun last, which puts then take without memory.
    pub fn reserve(&mut self, more: usize) -> Result<(), AllocError>
        requires { IsSome self.old.begun }
        ensures room { OnOk result (more ≤ self.new.spare) }
        ensures kept { self.old.spare ≤ self.new.spare }
        ensures same { self.new ≡ record self.old { spare = self.new.spare } }
    {
        match &self.begun {
            Some(begun) => reserve_in(&mut self.files, begun.as_str(), more),
            None => unreachable!(),
        }
    }
}

impl Desk for SureDesk {
    ghost told = { λ d. Some (file_or_empty d.files) };

    ghost read_faults = { λ _ _. 0 };

    ghost write_faults = { λ _ _. 0 };

    ghost given = { λ d. given_count d.counts };

    /// Gives as many bytes as the file and the buffer have. It takes the memory for the name's count before.
    fn get(&mut self, name: &str, at: u64, into: &mut [u8]) -> Result<usize, PortFault>
        ensures within { IfOk result (λ n. n ≤ length into.new) }
        ensures bytes { Tells (Some (file_or_empty self.old.files)) (Some (file_or_empty self.new.files)) (λ before now.
            SameFiles before now × IfOk result (Reads (before name.now) at into.new)) }
        ensures given { Gives result (given_count self.old.counts name.now) (given_count self.new.counts name.now) }
        ensures other_given { SameOtherCounts name.now (given_count self.old.counts) (given_count self.new.counts) }
        ensures cause { HasCause fault.Failed 0 0 result }
        ensures other_reads { SameOtherCounts name.now (λ _. 0) (λ _. 0) }
        ensures writes { SameCounts (λ _. 0) (λ _. 0) }
        ensures sure { ¬ (IsErrOf result fault.Failed) }
        ensures most { IfOk result (λ n. n ≡ min (length (drop at (content_of (file_of self.old.files name.now)))) (length into.old)) }
        ensures counted { OnOk result (IsCounted self.new.counts name.now) }
        ensures room { IsCounted self.old.counts name.now → IsOk result }
        ensures same { self.new ≡ record self.old { counts = self.new.counts } }
    {
        self.counts.enter(name)?;
        let bytes = self.file(name).unwrap_or(&[]);
        let count = copy_from(bytes, at, into);
        self.counts.raise_given(name, count);
        Ok(count)
    }

    /// Makes the named file empty, and it is then the one that was begun last.
    fn begin(&mut self, name: &str) -> Result<(), PortFault>
        ensures bytes { Tells (Some (file_or_empty self.old.files)) (Some (file_or_empty self.new.files)) (λ before now.
            SameOtherFiles name.now before now × Begins result (before name.now) (now name.now)) }
        ensures cause { HasCause fault.Failed 0 0 result }
        ensures other_writes { SameOtherCounts name.now (λ _. 0) (λ _. 0) }
        ensures reads { SameCounts (λ _. 0) (λ _. 0) }
        ensures given { SameCounts (given_count self.old.counts) (given_count self.new.counts) }
        ensures sure { ¬ (IsErrOf result fault.Failed) }

        // The files that are there.
        ensures others { SameOtherFiles name.now (file_of self.old.files) (file_of self.new.files) }
        ensures emptied { OnOk result (file_of self.new.files name.now ≡ Some []) }
        ensures begun { OnOk result (self.new.begun ≡ Some name.now) }
        ensures err { OnErr result (self.new ≡ self.old) }
    {
        let begun = String::from_str(self.alloc, name)?;
        empty_file(&mut self.files, self.alloc, name)?;
        self.begun = Some(begun);
        Ok(())
    }

    /// Takes the whole piece, where there is memory for it.
    fn put(&mut self, name: &str, piece: &[u8]) -> Result<usize, PortFault>
        ensures taken { IfOk result (TakesSome piece.now) }
        ensures bytes { Tells (Some (file_or_empty self.old.files)) (Some (file_or_empty self.new.files)) (λ before now.
            SameOtherFiles name.now before now × Puts piece.now result (before name.now) (now name.now)) }
        ensures cause { HasCause fault.Failed 0 0 result }
        ensures other_writes { SameOtherCounts name.now (λ _. 0) (λ _. 0) }
        ensures reads { SameCounts (λ _. 0) (λ _. 0) }
        ensures given { SameCounts (given_count self.old.counts) (given_count self.new.counts) }
        ensures sure { ¬ (IsErrOf result fault.Failed) }
        ensures whole { IfOk result (λ n. n ≡ length piece.now) }

        // The files that are there.
        ensures others { SameOtherFiles name.now (file_of self.old.files) (file_of self.new.files) }
        ensures stored { Puts piece.now result (file_of self.old.files name.now) (file_of self.new.files name.now) }

        // The file that was begun last, and its room.
        ensures counts { self.new.counts ≡ self.old.counts }
        ensures begun { self.new.begun ≡ self.old.begun }
        ensures room { self.old.begun ≡ Some name.now → length piece.now ≤ self.old.spare
            → ¬ (IsErrOf result fault.Memory) }
        ensures spare { KeepsRoom result self.old.spare self.new.spare }
    {
        extend_file(&mut self.files, self.alloc, name, piece)?;
        Ok(piece.len())
    }
}
