ghost use Rattle.std.specs.Prelude.{◌≡◌, ◌≤◌, ◌↔◌, [], length, Some, Contains, IfOk, OnOk, IsErrOf};
ghost use Rattle.ports.specs.Causes.{HasCause};
ghost use Rattle.ports.specs.Contents.{Tells, TakesSome, Appends};
ghost use Rattle.ports.specs.Plans.{next_count, count_after, KeepsRoom};
ghost use Rattle.ports.specs.declared.fault.PortFault.TheVariants as fault;

use crate::fault::PortFault;
use crate::sink::Sink;
use std::alloc::{AllocError, Global};
use std::marker::Model;

/// A sink in memory, whose writes fail where they were told to.
#[derive(Debug, Drop)]
pub struct MemorySink {
    bytes: Vec<u8>,
    calls: u64,
    fails: Vec<u64>,
    faults: u64,
}

impl Model for MemorySink {
    ghost use Rattle.std.specs.Prelude.{◌-◌, vec_len, vec_capacity};
    ghost use Rattle.ports.specs.SinkState.{PlannedOutput};

    ghost Value = { PlannedOutput };

    ghost view = { λ s. record {
      bytes = s.bytes.items;
      calls = s.calls;
      fails = s.fails.items;
      faults = s.faults;
      spare = vec_capacity s.bytes - vec_len s.bytes;
    } };
}

impl MemorySink {
    /// A sink whose writes with the numbers `fails` fail. The first has the number 1.
    pub fn new(alloc: Global, fails: Vec<u64>) -> MemorySink
        ensures bytes { result.bytes ≡ [] }
        ensures calls { result.calls ≡ 0 }
        ensures plan { result.fails ≡ fails.items }
        ensures faults { result.faults ≡ 0 }
        ensures spare { result.spare ≡ 0 }
    {
        MemorySink {
            bytes: Vec::new(alloc),
            calls: 0,
            fails,
            faults: 0,
        }
    }

    /// The bytes that it was given so far.
    pub fn bytes(&self) -> &[u8]
        ensures { result.now ≡ self.now.bytes }
    {
        self.bytes.as_slice()
    }

    /// Makes room for `more` bytes, which writes then take without memory.
    pub fn reserve(&mut self, more: usize) -> Result<(), AllocError>
        ensures room { OnOk result (more ≤ self.new.spare) }
        ensures kept { self.old.spare ≤ self.new.spare }
        ensures same { self.new ≡ record self.old { spare = self.new.spare } }
    {
        self.bytes.reserve(more)
    }
}

impl Sink for MemorySink {
    ghost told = { λ s. Some s.bytes };

    ghost faults = { λ s. s.faults };

    /// Takes the whole piece, unless the call is to fail or there is no memory for it.
    fn write(&mut self, piece: &[u8]) -> Result<usize, PortFault>
        ensures taken { IfOk result (TakesSome piece.now) }
        ensures bytes { Tells (Some self.old.bytes) (Some self.new.bytes) (Appends piece.now result) }
        ensures cause { HasCause fault.Failed self.old.faults self.new.faults result }
        ensures whole { IfOk result (λ n. n ≡ length piece.now) }

        // When it fails.
        ensures planned { IsErrOf result fault.Failed ↔ Contains self.old.fails (next_count self.old.calls) }
        ensures calls { self.new.calls ≡ next_count self.old.calls }
        ensures plan { self.new.fails ≡ self.old.fails }
        ensures faults { self.new.faults ≡ count_after result self.old.faults }

        // When it needs memory.
        ensures room { length piece.now ≤ self.old.spare → ¬ (IsErrOf result fault.Memory) }
        ensures spare { KeepsRoom result self.old.spare self.new.spare }
    {
        self.calls = self.calls.saturating_add(1);
        if self.fails.contains(&self.calls) {
            self.faults = self.faults.saturating_add(1);
            return Err(PortFault::Failed);
        }
        self.bytes.extend_from_slice(piece)?;
        Ok(piece.len())
    }
}
