ghost use Rattle.std.specs.Prelude.{◌≡◌, ◌≢◌, ◌↔◌, ◌+◌, ◌*◌, ◌<◌, ◌≤◌, ℤ, pos, neg_ℤ, nat_abs, IsTrue, IfOk};
ghost use Rattle.rup_checker.specs.Formulas.{IsLiteral};
ghost use Rattle.cdcl_solver.specs.Literals.{IsMarked, IsClear, place_of};

use rup_checker::MAX_VARIABLES;
use std::alloc::{AllocError, Global};
use std::marker::Model;

/// A set of literals, with a mark for each.
#[derive(Debug, Drop)]
pub struct LiteralSet {
    variables: u32,
    flags: Vec<bool>,
}

impl Model for LiteralSet {
    ghost use Rattle.std.specs.Prelude.{◌≡◌, ◌≤◌, ◌+◌, ◌*◌, length};
    ghost use Rattle.cdcl_solver.specs.Literals.{Marking};

    ghost Value = { Marking };

    ghost view = { λ s. record { variables = s.variables; flags = s.flags.items } };

    ghost invariant = { λ s. (s.variables ≤ 16000000) × (length s.flags.items ≡ 2 * s.variables + 2) };
}

/// The opposite literal.
pub fn negation(literal: i32) -> i32
    requires { nat_abs literal ≤ 16000000 }
    ensures { result ≡ neg_ℤ literal }
{
    -literal
}

/// The literal that a variable is.
pub fn positive(variable: u32) -> i32
    requires { variable ≤ 16000000 }
    ensures { result ≡ pos variable }
{
    variable as i32
}

/// The place of a literal in a list by literals.
pub fn place(literal: i32) -> usize
    ensures { result ≡ place_of literal }
{
    2 * literal.unsigned_abs() as usize + if literal < 0 { 1 } else { 0 }
}

impl LiteralSet {
    /// The empty set of literals of the variables 1 to `variables`.
    pub fn new(alloc: Global, variables: u32) -> Result<LiteralSet, AllocError>
        requires { variables ≤ MAX_VARIABLES }
        ensures variables { IfOk result (λ s. s.variables ≡ variables) }
        ensures clear { IfOk result IsClear }
    {
        let count = 2 * variables as usize + 2;
        Ok(LiteralSet {
            variables,
            flags: vec![in alloc; false; count]?,
        })
    }

    /// The number of variables.
    pub fn variables(&self) -> u32
        ensures value { result ≡ self.now.variables }
        ensures bound { result ≤ MAX_VARIABLES }
    {
        self.variables
    }

    pub fn contains(&self, literal: i32) -> bool
        requires { IsLiteral self.now.variables literal }
        ensures { IsTrue result ↔ IsMarked self.now literal }
    {
        self.flags[place(literal)]
    }

    pub fn insert(&mut self, literal: i32)
        requires { IsLiteral self.old.variables literal }
        ensures variables { self.new.variables ≡ self.old.variables }
        ensures itself { IsMarked self.new literal }
        ensures others { (l : ℤ) → l ≢ literal → IsMarked self.new l ↔ IsMarked self.old l }
    {
        self.flags[place(literal)] = true;
    }

    pub fn remove(&mut self, literal: i32)
        requires { IsLiteral self.old.variables literal }
        ensures variables { self.new.variables ≡ self.old.variables }
        ensures itself { ¬ (IsMarked self.new literal) }
        ensures others { (l : ℤ) → l ≢ literal → IsMarked self.new l ↔ IsMarked self.old l }
    {
        self.flags[place(literal)] = false;
    }
}
