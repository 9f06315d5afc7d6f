ghost use Rattle.std.specs.Prelude.{◌≡◌, None, IfOk, IsErrOf};
ghost use Rattle.ports.specs.Causes.{HasCause};
ghost use Rattle.ports.specs.Contents.{TakesSome};
ghost use Rattle.ports.specs.Plans.{count_after};
ghost use Rattle.ports.specs.declared.fault.PortFault.TheVariants as fault;

use crate::fault::PortFault;
use crate::sink::Sink;
use std::io::{self, Write};
use std::marker::Model;

/// The standard output. It tells nothing of what it was given.
#[derive(Drop)]
pub struct OutSink<R> {
    rt: R,
    faults: u64,
}

impl<R> Model for OutSink<R> {
    ghost use Rattle.std.specs.Prelude.{ℕ};

    ghost Value = { ℕ };

    ghost view = { λ s. s.faults };
}

impl<R> OutSink<R> {
    pub fn new(rt: R) -> OutSink<R>
        ensures { result ≡ 0 }
    {
        OutSink { rt, faults: 0 }
    }
}

impl<R: Print> Sink for OutSink<R> {
    ghost told = { λ _. None };

    ghost faults = { λ faults. faults };

    /// Writes once. A write that takes nothing of a piece that has something is a fault.
    fn write(&mut self, piece: &[u8]) -> Result<usize, PortFault>
        ensures taken { IfOk result (TakesSome piece.now) }
        ensures cause { HasCause fault.Failed self.old self.new result }
        ensures faults { self.new ≡ count_after result self.old }
        ensures room { ¬ (IsErrOf result fault.Memory) }
    {
        match io::writer(&self.rt).write(piece) {
            Ok(count) if count > 0 || piece.is_empty() => Ok(count),
            _ => {
                self.faults = self.faults.saturating_add(1);
                Err(PortFault::Failed)
            }
        }
    }
}
