//! The first number of each gate.

ghost use Rattle.std.specs.Prelude.{◌≡◌, ◌<◌, ◌^◌, [], Some, length, unwrap_or, IfOk, IfSome, IfNone};
ghost use Rattle.miter.specs.declared.gates.Gate.{Gate as GateOf};
ghost use Rattle.miter.specs.Joining.{Puts, gate_signal, gate_number, AreGates};

use indexmap::IndexMap;
use lll_core::Signal;
use std::alloc::{AllocError, Global};
use std::marker::Model;

/// A gate by its form and its operands.
#[derive(Clone, Copy, Debug, PartialEq, Eq, Hash)]
pub enum Gate {
    Imp(u32, u32),
    Eqv(u32, u32),
}

/// The signal of a gate.
pub(crate) fn signal_of(gate: Gate) -> Signal
    ensures { result ≡ gate_signal gate }
{
    match gate {
        Gate::Imp(a, b) => Signal::Imp(a, b),
        Gate::Eqv(a, b) => Signal::Eqv(a, b),
    }
}

/// The first number of each gate. Contracts see the list of gates with their numbers.
#[derive(Drop)]
pub(crate) struct Gates {
    first: IndexMap<Gate, u32>,
}

impl Model for Gates {
    ghost use Rattle.std.specs.Prelude.{ℕ, List};
    ghost use Rattle.miter.specs.declared.gates.Gate.{Gate};

    ghost Value = { List (Gate × ℕ) };

    ghost view = { λ g. g.first.entries };
}

impl Gates {
    pub(crate) fn new(alloc: Global) -> Gates
        ensures { result ≡ [] }
    {
        Gates {
            first: IndexMap::new(alloc),
        }
    }

    /// The number of a gate, which is the next where the gate is new.
    pub(crate) fn number(&mut self, gate: Gate, next: u32) -> Result<u32, AllocError>
        ensures number { IfOk result (λ n. n ≡ unwrap_or (gate_number self.old gate) next) }
        ensures put { IfOk result (λ n. Puts (gate_number self.old) (gate_number self.new) gate (Some n)) }
    {
        let number = *self.first.entry(gate)?.or_insert(next);
        Ok(number)
    }
}

/// The gate that a signal is.
fn gate_of(signal: &Signal) -> Option<Gate>
    ensures gate { IfSome result (λ gate. signal.now ≡ gate_signal gate) }
    ensures none { IfNone result ((gate : GateOf) → signal.now ≡ gate_signal gate → ⊥) }
{
    match signal {
        Signal::Imp(a, b) => Some(Gate::Imp(*a, *b)),
        Signal::Eqv(a, b) => Some(Gate::Eqv(*a, *b)),
        Signal::One | Signal::Input(_) | Signal::Latch { .. } => None,
    }
}

/// The first number of each gate among these signals.
pub(crate) fn gates_of(alloc: Global, signals: &[Signal]) -> Result<Gates, AllocError>
    requires { length signals.now < 2 ^ 31 }
    ensures { IfOk result (AreGates signals.now) }
{
    let mut gates = Gates::new(alloc);
    for (number, signal) in signals.iter().enumerate() {
        if let Some(gate) = gate_of(signal) {
            gates.number(gate, number as u32)?;
        }
    }
    Ok(gates)
}
