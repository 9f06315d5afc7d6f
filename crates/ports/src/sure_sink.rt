ghost use Rattle.std.specs.Prelude.{◌≡◌, ◌≤◌, [], length, Some, IfOk, OnOk, IsErrOf};
ghost use Rattle.ports.specs.Causes.{HasCause};
ghost use Rattle.ports.specs.Contents.{Tells, TakesSome, Appends};
ghost use Rattle.ports.specs.Plans.{KeepsRoom};
ghost use Rattle.ports.specs.declared.fault.PortFault.TheVariants as fault;

use crate::fault::PortFault;
use crate::sink::Sink;
use std::alloc::{AllocError, Global};
use std::marker::Model;

/// A sink in memory, which only want of memory stops.
#[derive(Debug, Drop)]
pub struct SureSink {
    bytes: Vec<u8>,
}

impl Model for SureSink {
    ghost use Rattle.std.specs.Prelude.{◌-◌, vec_len, vec_capacity};
    ghost use Rattle.ports.specs.SinkState.{SureOutput};

    ghost Value = { SureOutput };

    ghost view = { λ s. record { bytes = s.bytes.items; spare = vec_capacity s.bytes - vec_len s.bytes } };
}

impl SureSink {
    pub fn new(alloc: Global) -> SureSink
        ensures bytes { result.bytes ≡ [] }
        ensures spare { result.spare ≡ 0 }
    {
        SureSink {
            bytes: Vec::new(alloc),
        }
    }

    /// The bytes that it was given so far.
    pub fn bytes(&self) -> &[u8]
        ensures { result.now ≡ self.now.bytes }
    {
        self.bytes.as_slice()
    }

    /// Makes room for `more` bytes, which writes then take without memory.
    pub fn reserve(&mut self, more: usize) -> Result<(), AllocError>
        ensures room { OnOk result (more ≤ self.new.spare) }
        ensures kept { self.old.spare ≤ self.new.spare }
        ensures same { self.new ≡ record self.old { spare = self.new.spare } }
    {
        self.bytes.reserve(more)
    }
}

impl Sink for SureSink {
    ghost told = { λ s. Some s.bytes };

    ghost faults = { λ _. 0 };

    /// Takes the whole piece, where there is memory for it.
    fn write(&mut self, piece: &[u8]) -> Result<usize, PortFault>
        ensures taken { IfOk result (TakesSome piece.now) }
        ensures bytes { Tells (Some self.old.bytes) (Some self.new.bytes) (Appends piece.now result) }
        ensures cause { HasCause fault.Failed 0 0 result }
        ensures whole { IfOk result (λ n. n ≡ length piece.now) }
        ensures sure { ¬ (IsErrOf result fault.Failed) }
        ensures room { length piece.now ≤ self.old.spare → ¬ (IsErrOf result fault.Memory) }
        ensures spare { KeepsRoom result self.old.spare self.new.spare }
    {
        self.bytes.extend_from_slice(piece)?;
        Ok(piece.len())
    }
}
