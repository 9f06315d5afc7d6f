ghost use Rattle.std.specs.Prelude.{◌≡◌, ◌+◌, ◌<◌, ◌≤◌, ◌++◌, ◌∷◌, [], IfOk, OnOk, OnErr, length};
ghost use Rattle.rup_checker.specs.Formulas.{extended};
ghost use Rattle.rup_checker.specs.Steps.{IsAnswered};
ghost use Rattle.rup_checker.specs.Stores.{known_with};

use crate::fault::StepFault;
use crate::formula::{Formula, MAX_VARIABLES};
use crate::hints::{first_outside, follow, release, take_false};
use crate::known::KnownClauses;
use crate::marks::LiteralSet;
use crate::store::Store;
use std::alloc::{AllocError, Global};
use std::marker::Model;

/// The accepted steps of a formula that is held elsewhere. Contracts see it as the formula's number of variables, and
/// the store of the steps' clauses.
#[derive(Debug, Drop)]
pub struct Derivation {
    added: Store,
    /// The literals that are taken false while a step is looked at: none between two steps.
    taken: LiteralSet,
}

impl Model for Derivation {
    ghost use Rattle.std.specs.Prelude.{◌≡◌, All};
    ghost use Rattle.rup_checker.specs.Formulas.{IsLiteral};
    ghost use Rattle.rup_checker.specs.Stores.{Derived};
    ghost use Rattle.rup_checker.specs.Marks.{IsClear};

    ghost Value = { Derived };

    ghost view = { λ d. record { variables = d.taken.variables; added = d.added } };

    ghost invariant = { λ d. IsClear d.taken × All (All (IsLiteral d.taken.variables)) d.added.clauses };
}

impl Derivation {
    /// No steps. It takes memory for a mark for each literal of the variables.
    pub fn new(alloc: Global, variables: u32) -> Result<Derivation, AllocError>
        requires { variables ≤ MAX_VARIABLES }
        ensures variables { IfOk result (λ d. d.variables ≡ variables) }
        ensures none { IfOk result (λ d. d.added.clauses ≡ []) }
    {
        Ok(Derivation {
            added: Store::new(alloc),
            taken: LiteralSet::new(alloc, variables)?,
        })
    }

    /// Takes memory for so many more steps, and so many more literals of them.
    pub fn reserve(&mut self, steps: usize, literals: usize) -> Result<(), AllocError>
        ensures steps_room { OnOk result (steps ≤ self.new.added.spare_clauses) }
        ensures literals_room { OnOk result (literals ≤ self.new.added.spare_literals) }
        ensures steps_kept { self.old.added.spare_clauses ≤ self.new.added.spare_clauses }
        ensures literals_kept { self.old.added.spare_literals ≤ self.new.added.spare_literals }
        ensures variables { self.new.variables ≡ self.old.variables }
        ensures same { self.new.added.clauses ≡ self.old.added.clauses }
    {
        self.added.reserve(steps, literals)
    }

    /// The clauses of the formula, followed by those of the steps.
    pub fn known<'a>(&'a self, formula: &'a Formula) -> KnownClauses<'a>
        requires { self.now.variables ≡ formula.now.variables }
        ensures { result ≡ extended formula.now self.now.added.clauses }
    {
        KnownClauses::new(formula, &self.added)
    }

    /// Adds a clause that follows by its hints, which are numbers of known clauses.
    pub fn step(
        &mut self,
        formula: &Formula,
        clause: &[i32],
        hints: &[u32],
    ) -> Result<(), StepFault>
        requires { self.old.variables ≡ formula.now.variables }
        ensures answer { IsAnswered (known_with formula.now self.old.added) clause.now hints.now result }
        ensures variables { self.new.variables ≡ self.old.variables }
        ensures added { OnOk result (self.new.added.clauses ≡ self.old.added.clauses ++ clause.now ∷ []) }
        ensures kept { OnErr result (self.new.added.clauses ≡ self.old.added.clauses) }

        // What it had memory for.
        ensures steps_room { OnOk result (self.old.added.spare_clauses ≤ self.new.added.spare_clauses + 1) }
        ensures literals_room { OnOk result (self.old.added.spare_literals ≤ self.new.added.spare_literals + length clause.now) }
        ensures steps_kept { OnErr result (self.old.added.spare_clauses ≤ self.new.added.spare_clauses) }
        ensures literals_kept { OnErr result (self.old.added.spare_literals ≤ self.new.added.spare_literals) }
    {
        if let Some(literal) = first_outside(formula.variables(), clause) {
            return Err(StepFault::Literal(literal));
        }
        take_false(&mut self.taken, clause);
        let known = KnownClauses::new(formula, &self.added);
        let followed = follow(&known, &mut self.taken, hints);
        release(&known, &mut self.taken, clause, hints);
        followed?;
        match self.added.append(clause) {
            Ok(()) => Ok(()),
            Err(_) => Err(StepFault::Memory),
        }
    }
}
