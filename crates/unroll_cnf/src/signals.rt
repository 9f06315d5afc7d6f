//! The clauses of signals at an instant, and of what is demanded there.

ghost use Rattle.std.specs.Prelude.{◌≡◌, ◌+◌, ◌*◌, ◌<◌, ◌≤◌, ◌++◌, ◌∷◌, [], OnOk, length, map, All, pos};
ghost use Rattle.lll_core.specs.Signals.{signal_of, NamesSignal, AreSignals, operands, nexts};
ghost use Rattle.rup_checker.specs.Formulas.{IsLiteral};
ghost use Rattle.unroll_cnf.specs.Clauses.{latch_clauses, signal_clauses, clauses_from};
ghost use Rattle.unroll_cnf.specs.Unrollings.{demand_clauses};

use crate::clauses::{push_equality, push_equivalence, push_implication, push_unit};
use crate::literal::{literal_in, variable};
use lll_core::Signal;
use rup_checker::Formula;
use std::alloc::AllocError;

/// The clauses of a latch `x` at an instant.
fn push_latch(
    formula: &mut Formula,
    size: u32,
    window: bool,
    instant: u32,
    x: i32,
    init: u32,
    next: u32,
) -> Result<(), AllocError>
    requires few { formula.old.variables ≤ 16000000 }
    requires room { instant * size + size ≤ formula.old.variables }
    requires latch { IsLiteral formula.old.variables x }
    requires init { signal_of init < size }
    requires next { signal_of next < size }
    ensures variables { formula.new.variables ≡ formula.old.variables }
    ensures clauses { OnOk result (formula.new.clauses ≡ formula.old.clauses ++ latch_clauses size window instant x init next) }
{
    if instant > 0 {
        push_equality(formula, x, literal_in(size, instant - 1, next))
    } else if window {
        Ok(())
    } else {
        push_equality(formula, x, literal_in(size, instant, init))
    }
}

/// The clauses of a signal with this number at an instant.
fn push_signal(
    formula: &mut Formula,
    size: u32,
    window: bool,
    instant: u32,
    number: u32,
    signal: &Signal,
) -> Result<(), AllocError>
    requires few { formula.old.variables ≤ 16000000 }
    requires room { instant * size + size ≤ formula.old.variables }
    requires there { number < size }
    requires operands { All (λ a. signal_of a < size) (operands signal.now) }
    requires next { All (λ a. signal_of a < size) (nexts signal.now) }
    ensures variables { formula.new.variables ≡ formula.old.variables }
    ensures clauses { OnOk result (formula.new.clauses ≡ formula.old.clauses ++ signal_clauses size window instant number signal.now) }
{
    let x = variable(size, instant, number);
    match signal {
        Signal::One => push_unit(formula, x),
        Signal::Input(_) => Ok(()),
        Signal::Latch { init, next, .. } => push_latch(
            formula, size, window, instant, x, *init, *next,
        ),
        Signal::Imp(a, b) => push_implication(
            formula,
            x,
            literal_in(size, instant, *a),
            literal_in(size, instant, *b),
        ),
        Signal::Eqv(a, b) => push_equivalence(
            formula,
            x,
            literal_in(size, instant, *a),
            literal_in(size, instant, *b),
        ),
    }
}

/// The clauses of all signals at an instant, in their order.
pub fn push_signals(
    formula: &mut Formula,
    window: bool,
    instant: u32,
    signals: &[Signal],
) -> Result<(), AllocError>
    requires few { formula.old.variables ≤ 16000000 }
    requires signals { AreSignals signals.now }
    requires room { instant * length signals.now + length signals.now ≤ formula.old.variables }
    ensures variables { formula.new.variables ≡ formula.old.variables }
    ensures clauses { OnOk result (formula.new.clauses ≡ formula.old.clauses ++ clauses_from (length signals.now) window instant 0 signals.now) }
{
    let size = signals.len() as u32;
    for (number, signal) in signals.iter().enumerate() {
        push_signal(formula, size, window, instant, number as u32, signal)?;
    }
    Ok(())
}

/// A clause for a literal that is to be true at an instant.
pub fn push_demand(
    formula: &mut Formula,
    size: u32,
    instant: u32,
    literal: u32,
) -> Result<(), AllocError>
    requires few { formula.old.variables ≤ 16000000 }
    requires room { instant * size + size ≤ formula.old.variables }
    requires there { signal_of literal < size }
    ensures variables { formula.new.variables ≡ formula.old.variables }
    ensures clauses { OnOk result (formula.new.clauses ≡ formula.old.clauses ++ demand_clauses size instant (literal ∷ [])) }
{
    push_unit(formula, literal_in(size, instant, literal))
}

/// A clause for each literal that is to be true at an instant, in their order.
pub fn push_demands(
    formula: &mut Formula,
    size: u32,
    instant: u32,
    literals: &[u32],
) -> Result<(), AllocError>
    requires few { formula.old.variables ≤ 16000000 }
    requires room { instant * size + size ≤ formula.old.variables }
    requires there { All (λ d. signal_of d < size) literals.now }
    ensures variables { formula.new.variables ≡ formula.old.variables }
    ensures clauses { OnOk result (formula.new.clauses ≡ formula.old.clauses ++ demand_clauses size instant literals.now) }
{
    for literal in literals {
        push_demand(formula, size, instant, *literal)?;
    }
    Ok(())
}
