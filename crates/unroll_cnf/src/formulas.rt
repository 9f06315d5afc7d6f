//! The formulas.

ghost use Rattle.std.specs.Prelude.{◌≡◌, ◌+◌, ◌*◌, ◌<◌, ◌≤◌, ◌++◌, ◌∷◌, [], ◌↔◌, false, true, IsTrue, IfOk, OnOk, length, slice_index};
ghost use Rattle.lll_core.specs.Signals.{NamesSignal};
ghost use Rattle.unroll_cnf.specs.Unrollings.{demand_clauses, instant_clauses, base_demands, step_demands, base_formula, step_formula, part_base_formula, part_step_formula};

use crate::literal::opposite;
use crate::signals::{push_demand, push_demands, push_signals};
use lll_core::Lll;
use miter::MiterLll;
use rup_checker::{Formula, MAX_VARIABLES};
use std::alloc::{AllocError, Global};

/// Whether so many instants of a text have few enough variables for a formula.
pub fn fits(l: &Lll, instants: u32) -> bool
    ensures { IsTrue result ↔ (instants * length l.now.signals ≤ 16000000) }
{
    match (l.signals.len() as u32).checked_mul(instants) {
        Some(variables) => variables <= MAX_VARIABLES,
        None => false,
    }
}

/// A formula without clauses.
fn empty(alloc: Global, variables: u32) -> Formula
    requires { variables ≤ 16000000 }
    ensures variables { result.variables ≡ variables }
    ensures clauses { result.clauses ≡ [] }
{
    Formula::new(alloc, variables).unwrap()
}

/// Assume and the constraints of an instant.
fn push_admitted(formula: &mut Formula, l: &Lll, instant: u32) -> Result<(), AllocError>
    requires few { formula.old.variables ≤ 16000000 }
    requires room { instant * length l.now.signals + length l.now.signals ≤ formula.old.variables }
    ensures variables { formula.new.variables ≡ formula.old.variables }
    ensures clauses { OnOk result (formula.new.clauses ≡ formula.old.clauses
        ++ demand_clauses (length l.now.signals) instant (l.now.assume ∷ l.now.constraints)) }
{
    let size = l.signals.len() as u32;
    push_demand(formula, size, instant, l.assume)?;
    push_demands(formula, size, instant, l.constraints.as_slice())?;
    Ok(())
}

/// One instant of a base formula.
fn push_base_instant(
    formula: &mut Formula,
    l: &Lll,
    obligation: u32,
    last: u32,
    instant: u32,
) -> Result<(), AllocError>
    requires few { formula.old.variables ≤ 16000000 }
    requires room { instant * length l.now.signals + length l.now.signals ≤ formula.old.variables }
    requires there { NamesSignal l.now.signals obligation }
    ensures variables { formula.new.variables ≡ formula.old.variables }
    ensures clauses { OnOk result (formula.new.clauses ≡ formula.old.clauses
        ++ instant_clauses l.now.signals false (base_demands l.now obligation last) instant) }
{
    push_signals(formula, false, instant, l.signals.as_slice())?;
    push_admitted(formula, l, instant)?;
    if instant == last {
        push_demand(
            formula,
            l.signals.len() as u32,
            instant,
            opposite(obligation),
        )?;
    }
    Ok(())
}

/// One instant of a step formula.
fn push_step_instant(
    formula: &mut Formula,
    l: &Lll,
    obligation: u32,
    last: u32,
    instant: u32,
) -> Result<(), AllocError>
    requires few { formula.old.variables ≤ 16000000 }
    requires room { instant * length l.now.signals + length l.now.signals ≤ formula.old.variables }
    requires there { NamesSignal l.now.signals obligation }
    ensures variables { formula.new.variables ≡ formula.old.variables }
    ensures clauses { OnOk result (formula.new.clauses ≡ formula.old.clauses
        ++ instant_clauses l.now.signals true (step_demands l.now obligation last) instant) }
{
    let size = l.signals.len() as u32;
    push_signals(formula, true, instant, l.signals.as_slice())?;
    if instant == 0 {
        push_demand(formula, size, instant, l.keep)?;
    }
    push_admitted(formula, l, instant)?;
    let demanded = if instant == last {
        opposite(obligation)
    } else {
        obligation
    };
    push_demand(formula, size, instant, demanded)?;
    Ok(())
}

/// The formula of the runs of `j + 1` instants that break the obligation with number `p` at the last.
pub fn base(alloc: Global, l: &Lll, p: usize, j: u32) -> Result<Formula, AllocError>
    requires obligation { p < length l.now.obligations }
    requires size { (j + 1) * length l.now.signals ≤ 16000000 }
    ensures { IfOk result (λ f. f ≡ base_formula l.now p j) }
{
    let obligation = l.obligations.as_slice()[p];
    let mut formula = empty(alloc, (j + 1) * l.signals.len() as u32);
    for instant in 0..j + 1 {
        push_base_instant(&mut formula, l, obligation, j, instant)?;
    }
    Ok(formula)
}

/// The formula of the windows of `k + 1` instants that break the obligation with number `p` at the last and not
/// before.
pub fn step(alloc: Global, l: &Lll, p: usize, k: u32) -> Result<Formula, AllocError>
    requires obligation { p < length l.now.obligations }
    requires size { (k + 1) * length l.now.signals ≤ 16000000 }
    ensures { IfOk result (λ f. f ≡ step_formula l.now p k) }
{
    let obligation = l.obligations.as_slice()[p];
    let mut formula = empty(alloc, (k + 1) * l.signals.len() as u32);
    for instant in 0..k + 1 {
        push_step_instant(&mut formula, l, obligation, k, instant)?;
    }
    Ok(formula)
}

/// The formula of the runs of one instant that meet assume and break the part with number `i`.
pub fn part_base(alloc: Global, m: &MiterLll, i: usize) -> Result<Formula, AllocError>
    requires part { i < length m.now.parts }
    requires size { length m.now.lll.signals ≤ 16000000 }
    ensures { IfOk result (λ f. f ≡ part_base_formula m.now i) }
{
    let size = m.lll.signals.len() as u32;
    let broken = opposite(m.parts.as_slice()[i]);
    let mut formula = empty(alloc, size);
    push_signals(&mut formula, false, 0, m.lll.signals.as_slice())?;
    push_demand(&mut formula, size, 0, m.lll.assume)?;
    push_demand(&mut formula, size, 0, broken)?;
    Ok(formula)
}

/// The formula of the windows of two instants that meet assume at both and all parts at the first, and break the
/// part with number `i` at the second.
pub fn part_step(alloc: Global, m: &MiterLll, i: usize) -> Result<Formula, AllocError>
    requires part { i < length m.now.parts }
    requires size { 2 * length m.now.lll.signals ≤ 16000000 }
    ensures { IfOk result (λ f. f ≡ part_step_formula m.now i) }
{
    let size = m.lll.signals.len() as u32;
    let broken = opposite(m.parts.as_slice()[i]);
    let mut formula = empty(alloc, 2 * size);
    push_signals(&mut formula, true, 0, m.lll.signals.as_slice())?;
    push_demand(&mut formula, size, 0, m.lll.assume)?;
    push_demands(&mut formula, size, 0, m.parts.as_slice())?;
    push_signals(&mut formula, true, 1, m.lll.signals.as_slice())?;
    push_demand(&mut formula, size, 1, m.lll.assume)?;
    push_demand(&mut formula, size, 1, broken)?;
    Ok(formula)
}
