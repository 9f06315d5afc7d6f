//! Whether a log is busy.

ghost use Rattle.std.specs.Prelude.{◌≡◌, ◌↔◌, ◌≤◌, IsTrue, IfOk, length};
ghost use Rattle.rup_checker.specs.Logs.{AreNewFrom, IsBusyFrom, IsBusy};
ghost use Rattle.rup_checker.specs.Containment.{AreAnchored};

use crate::closing::reaches_conflict;
use crate::containment::{Anchors, is_new};
use crate::derivation::Derivation;
use crate::fault::StepFault;
use crate::formula::Formula;
use crate::known::KnownClauses;
use crate::log::Log;
use crate::marks::LiteralSet;
use std::alloc::{AllocError, Global};

/// The first clauses, so many, each under one of its literals.
fn anchors(alloc: Global, known: &KnownClauses, count: usize) -> Result<Anchors, AllocError>
    requires { count ≤ length known.now.clauses }
    ensures variables { IfOk result (λ a. a.occurrences.variables ≡ known.now.variables) }
    ensures anchored { IfOk result (AreAnchored known.now.clauses count) }
{
    let mut anchors = Anchors::new(alloc, known.variables())?;
    for number in 0..count {
        anchors.add(known.clause(number), number)?;
    }
    Ok(anchors)
}

/// Whether each clause from this number on is new among those before it.
fn are_new(alloc: Global, known: &KnownClauses, from: usize) -> Result<bool, AllocError>
    requires { from ≤ length known.now.clauses }
    ensures { IfOk result (λ yes. IsTrue yes ↔ AreNewFrom known.now.clauses from) }
{
    let mut anchors = anchors(alloc, known, from)?;
    let mut marks = LiteralSet::new(alloc, known.variables())?;
    for number in from..known.len() {
        let clause = known.clause(number);
        if !is_new(&known.first(number), &anchors, &mut marks, clause) {
            return Ok(false);
        }
        anchors.add(clause, number)?;
    }
    Ok(true)
}

/// Whether the clauses from this number on are busy.
pub(crate) fn is_busy(alloc: Global, known: KnownClauses, from: usize) -> Result<bool, AllocError>
    requires { from ≤ length known.clauses }
    ensures { IfOk result (λ yes. IsTrue yes ↔ IsBusyFrom known.entry.clauses from) }
{
    // The lists of the test are let go before the closing propagation makes its own.
    if !are_new(alloc, &known, from)? {
        return Ok(false);
    }
    Ok(!reaches_conflict(alloc, known)?)
}

/// Whether the log is busy. The test for contained clauses looks at the clauses that are listed under the literals of
/// the step, where each clause is listed under one of its literals. The propagation looks at each clause once, and once
/// more at most for each of its literals.
pub fn busy(alloc: Global, formula: &Formula, log: &Log) -> Result<bool, AllocError>
    ensures { IfOk result (λ yes. IsTrue yes ↔ IsBusy formula.now log.now.steps) }
{
    let mut derivation = Derivation::new(alloc, formula.variables())?;
    let steps = log.steps.as_slice();
    for step in steps {
        match derivation.step(formula, step.clause.as_slice(), step.hints.as_slice()) {
            Ok(()) => {}
            Err(StepFault::Memory) => return Err(AllocError),
            Err(
                StepFault::Unknown(_)
                | StepFault::NotUnit(_)
                | StepFault::NoConflict
                | StepFault::Literal(_),
            ) => return Ok(false),
        }
    }
    is_busy(alloc, derivation.known(formula), formula.len())
}
