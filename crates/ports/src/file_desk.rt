ghost use Rattle.std.specs.Prelude.{◌≡◌, ◌≤◌, ◌<◌, [], length, None, IfOk, IsErrOf};
ghost use Rattle.ports.specs.Causes.{HasCause, SameCounts, SameOtherCounts};
ghost use Rattle.ports.specs.Contents.{TakesSome, Gives};
ghost use Rattle.ports.specs.DeskState.{read_count, write_count, given_count, IsCounted};
ghost use Rattle.ports.specs.DeskSteps.{Enters};
ghost use Rattle.ports.specs.Plans.{count_after};
ghost use Rattle.ports.specs.declared.fault.PortFault.TheVariants as fault;

use crate::desk::Desk;
use crate::desk_counts::DeskCounts;
use crate::fault::PortFault;
use crate::open_files::OpenFiles;
use std::alloc::{AllocError, Global};
use std::marker::Model;
use std::rt::Files;

/// Files of the system, whose names are their paths. It tells nothing of what they hold. A file stays open from
/// one call on its name to the next, so that one file is read even where another takes its name meanwhile.
#[derive(Drop)]
pub struct FileDesk<R: Files> {
    rt: R,
    counts: DeskCounts,
    held: Vec<OpenFiles<R::File>>,
}

impl<R: Files> Model for FileDesk<R> {
    ghost use Rattle.std.specs.Prelude.{◌≡◌, length, vec_len};
    ghost use Rattle.std.specs.Prelude.{List};
    ghost use Rattle.ports.specs.DeskState.{NamedCounts};

    ghost Value = { List NamedCounts };

    ghost view = { λ d. d.counts };

    ghost invariant = { λ d. length d.held.items ≡ length d.counts };
}

impl<R: Files> FileDesk<R> {
    pub fn new(alloc: Global, rt: R) -> FileDesk<R>
        ensures { result ≡ [] }
    {
        FileDesk {
            rt,
            counts: DeskCounts::new(alloc),
            held: Vec::new(alloc),
        }
    }

    /// Takes the memory for a name's counts and open files, where it hasn't any yet, and answers their place.
    fn enter(&mut self, name: &str) -> Result<usize, AllocError>
        ensures entered { Enters self.old self.new name.now result }
        ensures within { IfOk result (λ place. place < length self.new) }
    {
        if let Some(place) = self.counts.place_of(name) {
            return Ok(place);
        }
        self.held.reserve(1)?;
        let place = self.counts.add(name)?;
        self.held.push(OpenFiles::new())?;
        Ok(place)
    }
}

impl<R: Files> Desk for FileDesk<R> {
    ghost told = { λ _. None };

    ghost read_faults = { λ counts. read_count counts };

    ghost write_faults = { λ counts. write_count counts };

    ghost given = { λ counts. given_count counts };

    /// Reads the file once. It opens it where `at` is 0 or the file isn't open yet, and takes the memory for the
    /// name's counts before.
    fn get(&mut self, name: &str, at: u64, into: &mut [u8]) -> Result<usize, PortFault>
        ensures within { IfOk result (λ n. n ≤ length into.new) }
        ensures cause { HasCause fault.Failed (read_count self.old name.now) (read_count self.new name.now) result }
        ensures other_reads { SameOtherCounts name.now (read_count self.old) (read_count self.new) }
        ensures given { Gives result (given_count self.old name.now) (given_count self.new name.now) }
        ensures other_given { SameOtherCounts name.now (given_count self.old) (given_count self.new) }
        ensures writes { SameCounts (write_count self.old) (write_count self.new) }
        ensures faults { read_count self.new name.now ≡ count_after result (read_count self.old name.now) }
        ensures room { IsCounted self.old name.now → ¬ (IsErrOf result fault.Memory) }
    {
        let place = self.enter(name)?;
        match self.held[place].read_once(&self.rt, name, at, into) {
            Ok(count) => {
                self.counts.raise_given(name, count);
                Ok(count)
            }
            Err(_) => {
                self.counts.raise_reads(name);
                Err(PortFault::Failed)
            }
        }
    }

    /// Creates the file, or empties it. It takes the memory for the name's counts before.
    fn begin(&mut self, name: &str) -> Result<(), PortFault>
        ensures cause { HasCause fault.Failed (write_count self.old name.now) (write_count self.new name.now) result }
        ensures other_writes { SameOtherCounts name.now (write_count self.old) (write_count self.new) }
        ensures reads { SameCounts (read_count self.old) (read_count self.new) }
        ensures given { SameCounts (given_count self.old) (given_count self.new) }
        ensures faults { write_count self.new name.now ≡ count_after result (write_count self.old name.now) }
        ensures room { IsCounted self.old name.now → ¬ (IsErrOf result fault.Memory) }
    {
        let place = self.enter(name)?;
        match self.held[place].create(&self.rt, name) {
            Ok(()) => Ok(()),
            Err(_) => {
                self.counts.raise_writes(name);
                Err(PortFault::Failed)
            }
        }
    }

    /// Writes once. It opens the file where it isn't open yet, and takes the memory for the name's counts before.
    /// A write that takes nothing of a piece that has something is a fault.
    fn put(&mut self, name: &str, piece: &[u8]) -> Result<usize, PortFault>
        ensures taken { IfOk result (TakesSome piece.now) }
        ensures cause { HasCause fault.Failed (write_count self.old name.now) (write_count self.new name.now) result }
        ensures other_writes { SameOtherCounts name.now (write_count self.old) (write_count self.new) }
        ensures reads { SameCounts (read_count self.old) (read_count self.new) }
        ensures given { SameCounts (given_count self.old) (given_count self.new) }
        ensures faults { write_count self.new name.now ≡ count_after result (write_count self.old name.now) }
        ensures room { IsCounted self.old name.now → ¬ (IsErrOf result fault.Memory) }
    {
        let place = self.enter(name)?;
        match self.held[place].append_once(&self.rt, name, piece) {
            Ok(count) if count > 0 || piece.is_empty() => Ok(count),
            _ => {
                self.counts.raise_writes(name);
                Err(PortFault::Failed)
            }
        }
    }
}
