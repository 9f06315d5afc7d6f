//! A log that is judged as its steps come, so that they needn't be kept.

ghost use Rattle.std.specs.Prelude.{◌≡◌, ◌+◌, ◌++◌, ◌∷◌, [], ℕ, List, length, IfOk, OnOk};
ghost use Rattle.rup_checker.specs.declared.log.Step.{Step};
ghost use Rattle.evidence.specs.declared.claimed_logs.Claim.{Claim as ClaimValue};
ghost use Rattle.evidence.specs.declared.claimed_logs.Claim.TheVariants as claim;
ghost use Rattle.evidence.specs.Tracking.{Tracks, IsTracked, TakesNext, Concludes};

use crate::Cause;
use crate::claim::ClaimFault;
use crate::claimed_logs::Claim;
use crate::read_step::ReadStep;
use crate::refutation::{Refutation, stopped, take_step};
use rup_checker::{Checker, Formula, StepFault};
use std::alloc::{AllocError, Global};

/// What is known of the log whose steps come.
#[derive(Debug, Drop)]
pub enum OpenLog {
    /// No log is open.
    Closed,
    /// It is to refute a formula, and each step so far is accepted.
    Refuting(Refutation),
    /// It is to show that the budget is spent on a formula, and each step so far is accepted. Their clauses begin with
    /// this number.
    Spending { from: usize, checker: Checker },
    /// The first cause why it doesn't show what it claims, and its line.
    Refused { line: u64, cause: Cause },
}

/// A log of so many steps that is to show that the budget is spent on the formula.
fn spending(
    alloc: Global,
    formula: Formula,
    budget: u32,
    at: u64,
    count: u32,
) -> Result<OpenLog, AllocError>
    ensures { IfOk result (Tracks budget (claim.Spends formula) at count []) }
{
    if count != budget {
        return Ok(OpenLog::Refused {
            line: at,
            cause: Cause::Count,
        });
    }
    let from = formula.len();
    let checker = Checker::owning(alloc, formula)?;
    Ok(OpenLog::Spending { from, checker })
}

impl OpenLog {
    /// A log of so many steps, in the line of this number.
    pub(crate) fn new(
        alloc: Global,
        claim: Claim,
        budget: u32,
        at: u64,
        count: u32,
    ) -> Result<OpenLog, AllocError>
        ensures { IfOk result (Tracks budget claim at count []) }
    {
        match claim {
            Claim::Refutes(formula) => {
                let refutation = Refutation::new(alloc, formula)?;
                Ok(OpenLog::Refuting(refutation))
            }
            Claim::Spends(formula) => spending(alloc, formula, budget, at, count),
        }
    }

    /// Looks at the next step, where none was refused.
    fn take(&mut self, step: &ReadStep) -> Result<(), StepFault>
        ensures { (budget : ℕ) (claim : ClaimValue) (at count : ℕ) (steps : List Step) → Tracks budget claim at count steps self.old →
            TakesNext budget claim at count steps step.now self.new result }
    {
        match self {
            OpenLog::Closed => Ok(()),
            OpenLog::Refuting(refutation) => refutation.step(step),
            OpenLog::Spending { checker, .. } => take_step(checker, step),
            OpenLog::Refused { .. } => Ok(()),
        }
    }

    /// The next step, which stands in the line of this number. Once one was refused no more is judged.
    pub(crate) fn step(&mut self, step: &ReadStep, line: u64) -> Result<(), AllocError>
        ensures { (budget : ℕ) (claim : ClaimValue) (at count : ℕ) (steps : List Step) → Tracks budget claim at count steps self.old →
            line ≡ at + length steps + 1 → OnOk result (Tracks budget claim at count (steps ++ step.now ∷ []) self.new) }
    {
        match self.take(step) {
            Ok(()) => Ok(()),
            Err(fault) => match stopped(fault, line) {
                ClaimFault::Refused { line, cause } => {
                    *self = OpenLog::Refused { line, cause };
                    Ok(())
                }
                ClaimFault::Memory => Err(AllocError),
            },
        }
    }

    /// Whether the log shows what it claims, where all its steps came.
    pub(crate) fn outcome(self, alloc: Global, at: u64) -> Result<(), ClaimFault>
        requires { IsTracked at self }
        ensures { Concludes self at result }
    {
        match self {
            OpenLog::Closed => unreachable!(),
            OpenLog::Refuting(refutation) => {
                if refutation.is_ended() {
                    return Ok(());
                }
                Err(ClaimFault::Refused {
                    line: at,
                    cause: Cause::Unended,
                })
            }
            OpenLog::Spending { from, checker } => {
                if checker.is_busy(alloc, from)? {
                    return Ok(());
                }
                Err(ClaimFault::Refused {
                    line: at,
                    cause: Cause::Idle,
                })
            }
            OpenLog::Refused { line, cause } => Err(ClaimFault::Refused { line, cause }),
        }
    }
}
