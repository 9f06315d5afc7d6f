ghost use Rattle.std.specs.Prelude.{◌≡◌, ◌<◌, ◌≤◌, Some, length, take, slice_get, All};
ghost use Rattle.rup_checker.specs.Formulas.{IsLiteral, extended};

use crate::formula::{Formula, MAX_VARIABLES};
use crate::store::Store;
use std::marker::Model;

/// The first clauses of a formula and of the steps that were accepted after it, so many. Both are lent.
#[derive(Debug, Drop)]
pub struct KnownClauses<'a> {
    formula: &'a Formula,
    added: &'a Store,
    count: usize,
}

impl<'a> Model for KnownClauses<'a> {
    ghost use Rattle.std.specs.Prelude.{◌++◌, ◌≤◌, length, take, All};
    ghost use Rattle.rup_checker.specs.Formulas.{Cnf, IsLiteral};

    ghost Value = { Cnf };

    ghost view = { λ k. record { variables = k.formula.now.variables; clauses = take k.count (k.formula.now.clauses ++ k.added.now.clauses) } };

    ghost invariant = { λ k. All (All (IsLiteral k.formula.now.variables)) k.added.now.clauses × (k.count ≤ length (k.formula.now.clauses ++ k.added.now.clauses)) };
}

impl<'a> KnownClauses<'a> {
    pub fn new(formula: &'a Formula, added: &'a Store) -> KnownClauses<'a>
        requires { All (All (IsLiteral formula.now.variables)) added.now.clauses }
        ensures { result ≡ extended formula.now added.now.clauses }
    {
        let count = formula.len() + added.len();
        KnownClauses {
            formula,
            added,
            count,
        }
    }

    /// The first of these clauses, so many.
    pub fn first(&self, count: usize) -> KnownClauses<'a>
        requires { count ≤ length self.now.clauses }
        ensures { result ≡ record self.now { clauses = take count self.now.clauses } }
    {
        KnownClauses {
            formula: self.formula,
            added: self.added,
            count,
        }
    }

    pub fn variables(&self) -> u32
        ensures value { result ≡ self.now.variables }
        ensures bound { result ≤ MAX_VARIABLES }
    {
        self.formula.variables()
    }

    /// The number of clauses.
    pub fn len(&self) -> usize
        ensures { result ≡ length self.now.clauses }
    {
        self.count
    }

    /// The literals of the clause with this number.
    pub fn clause(&self, number: usize) -> &'a [i32]
        requires { number < length self.now.clauses }
        ensures value { slice_get self.now.clauses number ≡ Some result.now }
        ensures in_range { All (IsLiteral self.now.variables) result.now }
        ensures bound { self.now.variables ≤ MAX_VARIABLES }
    {
        let given = self.formula.len();
        if number < given {
            self.formula.clause(number)
        } else {
            self.added.at(number - given)
        }
    }
}
