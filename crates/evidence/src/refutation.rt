//! A log that is to refute a formula, step by step.

ghost use Rattle.std.specs.Prelude.{◌↔◌, List, [], IsTrue, IfOk};
ghost use Rattle.rup_checker.specs.declared.log.Step.{Step as StepValue};
ghost use Rattle.rup_checker.specs.Formulas.{Cnf};
ghost use Rattle.rup_checker.specs.Logs.{IsEnded};
ghost use Rattle.evidence.specs.Claims.{IsStopped, HasTaken, HasRefuted, TakesStep};

use crate::Cause;
use crate::claim::ClaimFault;
use crate::read_step::ReadStep;
use rup_checker::{Checker, Formula, StepFault};
use std::alloc::{AllocError, Global};

/// What is known of a log so far.
#[derive(Debug, Drop)]
pub struct Refutation {
    checker: Checker,
    /// Whether the last step was the empty clause.
    is_ended: bool,
}

/// Gives a checker the next step.
pub(crate) fn take_step(checker: &mut Checker, step: &ReadStep) -> Result<(), StepFault>
    ensures { (f : Cnf) (steps : List StepValue) → HasTaken f steps checker.old →
        TakesStep (HasTaken f) f steps step.now checker.new result }
{
    checker.step(step.literals(), step.hints())
}

impl Refutation {
    /// No step so far.
    pub(crate) fn new(alloc: Global, formula: Formula) -> Result<Refutation, AllocError>
        ensures { IfOk result (HasRefuted formula []) }
    {
        Ok(Refutation {
            checker: Checker::owning(alloc, formula)?,
            is_ended: false,
        })
    }

    /// Takes the next step.
    pub(crate) fn step(&mut self, step: &ReadStep) -> Result<(), StepFault>
        ensures { (f : Cnf) (steps : List StepValue) → HasRefuted f steps self.old →
            TakesStep (HasRefuted f) f steps step.now self.new result }
    {
        take_step(&mut self.checker, step)?;
        self.is_ended = step.literals().is_empty();
        Ok(())
    }

    /// Whether the log is one that refutes the formula.
    pub(crate) fn is_ended(&self) -> bool
        ensures { (f : Cnf) (steps : List StepValue) → HasRefuted f steps self.now → IsTrue result ↔ IsEnded steps }
    {
        self.is_ended
    }
}

/// What is answered where a step in this line is refused.
pub(crate) fn stopped(fault: StepFault, line: u64) -> ClaimFault
    ensures { IsStopped fault line result }
{
    let cause = match fault {
        StepFault::Unknown(hint) => Cause::Unknown(hint),
        StepFault::NotUnit(hint) => Cause::NotUnit(hint),
        StepFault::NoConflict => Cause::NoConflict,
        StepFault::Literal(literal) => Cause::Literal(literal),
        StepFault::Memory => return ClaimFault::Memory,
    };
    ClaimFault::Refused { line, cause }
}
