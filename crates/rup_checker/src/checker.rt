ghost use Rattle.std.specs.Prelude.{◌≡◌, ◌↔◌, ◌+◌, ◌<◌, ◌≤◌, ◌++◌, ◌∷◌, [], IsTrue, IfOk, OnOk, OnErr, All, length};
ghost use Rattle.rup_checker.specs.Formulas.{IsLiteral};
ghost use Rattle.rup_checker.specs.Steps.{IsAnswered};
ghost use Rattle.rup_checker.specs.Logs.{IsBusyFrom};

use crate::derivation::Derivation;
use crate::fault::StepFault;
use crate::formula::Formula;
use crate::replay::is_busy;
use std::alloc::{AllocError, Global};
use std::marker::Model;

/// A checker of steps over a formula, which it owns. Contracts see it as its variables, its clauses (those of the
/// formula followed by those of the accepted steps) and the steps and literals that it has memory for.
#[derive(Debug, Drop)]
pub struct Checker {
    formula: Formula,
    derivation: Derivation,
}

impl Model for Checker {
    ghost use Rattle.std.specs.Prelude.{◌≡◌};
    ghost use Rattle.rup_checker.specs.Stores.{Known, known_with};

    ghost Value = { Known };

    ghost view = { λ c. known_with c.formula c.derivation.added };

    ghost invariant = { λ c. c.derivation.variables ≡ c.formula.variables };
}

impl Checker {
    /// A checker of a copy of the formula.
    pub fn new(alloc: Global, formula: &Formula) -> Result<Checker, AllocError>
        ensures variables { IfOk result (λ c. c.variables ≡ formula.now.variables) }
        ensures clauses { IfOk result (λ c. c.clauses ≡ formula.now.clauses) }
        ensures in_range { All (All (IsLiteral formula.now.variables)) formula.now.clauses }
    {
        let _ = formula.variables();
        Checker::owning(alloc, formula.copy(alloc)?)
    }

    /// A checker of this formula. It takes memory for a mark for each literal of the formula's variables.
    pub fn owning(alloc: Global, formula: Formula) -> Result<Checker, AllocError>
        ensures variables { IfOk result (λ c. c.variables ≡ formula.variables) }
        ensures clauses { IfOk result (λ c. c.clauses ≡ formula.clauses) }
    {
        let derivation = Derivation::new(alloc, formula.variables())?;
        Ok(Checker {
            formula,
            derivation,
        })
    }

    /// Takes memory for so many more steps, and so many more literals of them.
    pub fn reserve(&mut self, steps: u64, literals: u64) -> Result<(), AllocError>
        ensures steps_room { OnOk result (steps ≤ self.new.spare_steps) }
        ensures literals_room { OnOk result (literals ≤ self.new.spare_literals) }
        ensures steps_kept { self.old.spare_steps ≤ self.new.spare_steps }
        ensures literals_kept { self.old.spare_literals ≤ self.new.spare_literals }
        ensures variables { self.new.variables ≡ self.old.variables }
        ensures same { self.new.clauses ≡ self.old.clauses }
    {
        self.derivation.reserve(steps as usize, literals as usize)
    }

    /// Adds a clause that follows by its hints, which are numbers of clauses that it knows. A step costs the literals of
    /// the clause and of its hinted clauses, whatever the number of variables.
    pub fn step(&mut self, clause: &[i32], hints: &[u32]) -> Result<(), StepFault>
        ensures answer { IsAnswered self.old clause.now hints.now result }
        ensures variables { self.new.variables ≡ self.old.variables }
        ensures added { OnOk result (self.new.clauses ≡ self.old.clauses ++ clause.now ∷ []) }
        ensures kept { OnErr result (self.new.clauses ≡ self.old.clauses) }

        // What it had memory for.
        ensures steps_room { OnOk result (self.old.spare_steps ≤ self.new.spare_steps + 1) }
        ensures literals_room { OnOk result (self.old.spare_literals ≤ self.new.spare_literals + length clause.now) }
        ensures steps_kept { OnErr result (self.old.spare_steps ≤ self.new.spare_steps) }
        ensures literals_kept { OnErr result (self.old.spare_literals ≤ self.new.spare_literals) }
    {
        self.derivation.step(&self.formula, clause, hints)
    }

    /// Whether the clauses from this number on are busy. It costs what `busy` costs for a log of these clauses.
    pub fn is_busy(&self, alloc: Global, from: usize) -> Result<bool, AllocError>
        requires { from ≤ length self.now.clauses }
        ensures { IfOk result (λ yes. IsTrue yes ↔ IsBusyFrom self.now.clauses from) }
    {
        is_busy(alloc, self.derivation.known(&self.formula), from)
    }
}
