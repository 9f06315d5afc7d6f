ghost use Rattle.std.specs.Prelude.{◌≡◌, ◌≢◌, ◌↔◌, ◌+◌, ◌*◌, ◌<◌, ◌≤◌, ℤ, neg_ℤ, IsTrue, IfOk};
ghost use Rattle.rup_checker.specs.Formulas.{IsLiteral};
ghost use Rattle.rup_checker.specs.Marks.{IsMarked, IsClear, place_of};

use crate::formula::MAX_VARIABLES;
use std::alloc::{AllocError, Global};
use std::marker::Model;

/// A set of literals, with a mark for each: whether a literal is in it, and its coming and going, cost the same
/// however many there are.
#[derive(Debug, Drop)]
pub struct LiteralSet {
    variables: u32,
    flags: Vec<bool>,
}

impl Model for LiteralSet {
    ghost use Rattle.std.specs.Prelude.{◌≡◌, ◌≤◌, ◌+◌, ◌*◌, length};
    ghost use Rattle.rup_checker.specs.Marks.{LiteralMarks};

    ghost Value = { LiteralMarks };

    ghost view = { λ s. record { variables = s.variables; flags = s.flags.items } };

    ghost invariant = { λ s. (s.variables ≤ 16000000) × (length s.flags.items ≡ 2 * s.variables + 1) };
}

/// The place of a literal's mark.
pub(crate) fn place(variables: u32, literal: i32) -> usize
    requires bound { variables ≤ MAX_VARIABLES }
    requires known { IsLiteral variables literal }
    ensures value { result ≡ place_of variables literal }
    ensures within { result < 2 * variables + 1 }
{
    (i64::from(literal) + i64::from(variables)) as usize
}

impl LiteralSet {
    /// The empty set of literals of the variables 1 to `variables`.
    pub fn new(alloc: Global, variables: u32) -> Result<LiteralSet, AllocError>
        requires { variables ≤ MAX_VARIABLES }
        ensures variables { IfOk result (λ s. s.variables ≡ variables) }
        ensures clear { IfOk result IsClear }
    {
        let count = 2 * variables as usize + 1;
        Ok(LiteralSet {
            variables,
            flags: vec![in alloc; false; count]?,
        })
    }

    pub fn contains(&self, literal: i32) -> bool
        requires { IsLiteral self.now.variables literal }
        ensures { IsTrue result ↔ IsMarked self.now literal }
    {
        self.flags[place(self.variables, literal)]
    }

    pub fn contains_negation(&self, literal: i32) -> bool
        requires { IsLiteral self.now.variables literal }
        ensures { IsTrue result ↔ IsMarked self.now (neg_ℤ literal) }
    {
        self.flags[place(self.variables, -literal)]
    }

    pub fn insert(&mut self, literal: i32)
        requires { IsLiteral self.old.variables literal }
        ensures variables { self.new.variables ≡ self.old.variables }
        ensures itself { IsMarked self.new literal }
        ensures others { (l : ℤ) → IsLiteral self.old.variables l → l ≢ literal → IsMarked self.new l ↔ IsMarked self.old l }
    {
        let place = place(self.variables, literal);
        self.flags[place] = true;
    }

    pub fn remove(&mut self, literal: i32)
        requires { IsLiteral self.old.variables literal }
        ensures variables { self.new.variables ≡ self.old.variables }
        ensures itself { ¬ (IsMarked self.new literal) }
        ensures others { (l : ℤ) → IsLiteral self.old.variables l → l ≢ literal → IsMarked self.new l ↔ IsMarked self.old l }
    {
        let place = place(self.variables, literal);
        self.flags[place] = false;
    }
}
