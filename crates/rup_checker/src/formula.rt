ghost use Rattle.std.specs.Prelude.{◌≡◌, ◌^◌, ◌<◌, ◌≤◌, ◌++◌, ◌∷◌, [], Some, IsTrue, IsNone, IfSome, IfOk, OnOk, OnErr, ◌↔◌, length, slice_get, All};
ghost use Rattle.rup_checker.specs.Formulas.{IsLiteral};

use crate::hints::first_outside;
use crate::store::Store;
use std::alloc::{AllocError, Global};
use std::marker::Model;

/// The most variables that a formula may have.
pub const MAX_VARIABLES: u32 = 16_000_000;

/// A formula in conjunctive normal form. The literal `v` stands for the variable `v` and `-v` for its negation; the
/// variables are numbered from 1, and the clauses from 0.
#[derive(Debug, Drop)]
pub struct Formula {
    variables: u32,
    store: Store,
}

impl Model for Formula {
    ghost use Rattle.rup_checker.specs.Formulas.{Cnf};

    ghost Value = { Cnf };

    ghost view = { λ f. record { variables = f.variables; clauses = f.store.clauses } };

    ghost use Rattle.rup_checker.specs.Formulas.{IsFormula};

    ghost invariant = { λ f. IsFormula f.variables f.store.clauses };
}

impl Formula {
    /// A formula without clauses. There is none with more than `MAX_VARIABLES` variables.
    pub fn new(alloc: Global, variables: u32) -> Option<Formula>
        ensures none { IsNone result ↔ (MAX_VARIABLES < variables) }
        ensures variables { IfSome result (λ f. f.variables ≡ variables) }
        ensures clauses { IfSome result (λ f. f.clauses ≡ []) }
    {
        if variables > MAX_VARIABLES {
            return None;
        }
        Some(Formula {
            variables,
            store: Store::new(alloc),
        })
    }

    /// The same formula, in memory of its own.
    pub fn copy(&self, alloc: Global) -> Result<Formula, AllocError>
        ensures { IfOk result (λ f. f ≡ self.now) }
    {
        Ok(Formula {
            variables: self.variables,
            store: self.store.copy(alloc)?,
        })
    }

    /// The number of variables.
    pub fn variables(&self) -> u32
        ensures value { result ≡ self.now.variables }
        ensures bound { result ≤ MAX_VARIABLES }
        ensures in_range { All (All (IsLiteral self.now.variables)) self.now.clauses }
    {
        self.variables
    }

    /// The number of clauses.
    pub fn len(&self) -> usize
        ensures value { result ≡ length self.now.clauses }
        ensures bound { result < 2 ^ 63 }
        ensures few_variables { self.now.variables ≤ MAX_VARIABLES }
    {
        self.store.len()
    }

    /// The literals of the clause with this number.
    pub fn clause(&self, number: usize) -> &[i32]
        requires { number < length self.now.clauses }
        ensures value { slice_get self.now.clauses number ≡ Some result.now }
        ensures in_range { All (IsLiteral self.now.variables) result.now }
        ensures bound { self.now.variables ≤ MAX_VARIABLES }
    {
        self.store.at(number)
    }

    /// Takes memory for so many more clauses, and so many more literals of them.
    pub fn reserve(&mut self, clauses: usize, literals: usize) -> Result<(), AllocError>
        ensures same { self.new ≡ self.old }
    {
        self.store.reserve(clauses, literals)
    }

    /// Whether every literal of a clause is one of the formula's variables, as `push` asks.
    pub fn allows(&self, clause: &[i32]) -> bool
        ensures { IsTrue result ↔ All (IsLiteral self.now.variables) clause.now }
    {
        first_outside(self.variables, clause).is_none()
    }

    /// Appends a clause.
    pub fn push(&mut self, clause: &[i32]) -> Result<(), AllocError>
        requires { All (IsLiteral self.old.variables) clause.now }
        ensures variables { self.new.variables ≡ self.old.variables }
        ensures ok { OnOk result (self.new.clauses ≡ self.old.clauses ++ clause.now ∷ []) }
        ensures err { OnErr result (self.new.clauses ≡ self.old.clauses) }
    {
        self.store.append(clause)
    }
}
