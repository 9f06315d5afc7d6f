ghost use Rattle.std.specs.Prelude.{◌↔◌, IsTrue, OnOk, IfErr};
ghost use Rattle.rup_checker.specs.Formulas.{IsUnsatisfiable};
ghost use Rattle.rup_checker.specs.Logs.{Accepts, IsEnded, IsLogFault};

use crate::derivation::Derivation;
use crate::fault::{LogFault, StepFault};
use crate::formula::Formula;
use crate::log::{Log, Step};
use std::alloc::Global;

fn ends_empty(steps: &[Step]) -> bool
    ensures { IsTrue result ↔ IsEnded steps.now }
{
    match steps.last() {
        Some(last) => last.clause.is_empty(),
        None => false,
    }
}

/// Whether the log refutes the formula: every step is accepted, and the last is the empty clause.
pub fn check(alloc: Global, formula: &Formula, log: &Log) -> Result<(), LogFault>
    ensures accepted { OnOk result (Accepts formula.now log.now.steps) }
    ensures sound { OnOk result (IsUnsatisfiable formula.now) }
    ensures refused { IfErr result (IsLogFault formula.now log.now.steps) }
{
    let mut derivation = match Derivation::new(alloc, formula.variables()) {
        Ok(derivation) => derivation,
        Err(_) => return Err(LogFault::Memory),
    };
    let steps = log.steps.as_slice();
    for (place, step) in steps.iter().enumerate() {
        match derivation.step(formula, step.clause.as_slice(), step.hints.as_slice()) {
            Ok(()) => {}
            Err(StepFault::Memory) => return Err(LogFault::Memory),
            Err(fault) => {
                return Err(LogFault::At {
                    step: place as u64,
                    fault,
                });
            }
        }
    }
    if ends_empty(steps) {
        Ok(())
    } else {
        Err(LogFault::Unended)
    }
}
