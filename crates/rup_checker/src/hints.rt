ghost use Rattle.std.specs.Prelude.{◌≡◌, ◌+◌, ◌<◌, ◌≤◌, ◌↔◌, ◌⊎◌, ℤ, neg_ℤ, List, length, IsTrue, MatchOption, MatchResult, IsSomeAnd, All, Contains, slice_get};
ghost use Rattle.rup_checker.specs.Formulas.{IsLiteral};
ghost use Rattle.rup_checker.specs.Steps.{IsFirstOutside, Refutes, IsPrevented};
ghost use Rattle.rup_checker.specs.Marks.{IsMarked, Marks, IsClear, IsHinted};

use crate::fault::StepFault;
use crate::formula::MAX_VARIABLES;
use crate::known::KnownClauses;
use crate::marks::LiteralSet;
use crate::status::{Status, status_of};

fn is_literal(variables: u32, literal: i32) -> bool
    ensures { IsTrue result ↔ IsLiteral variables literal }
{
    literal != 0 && literal.unsigned_abs() <= variables
}

/// The first literal that is 0 or out of range.
pub fn first_outside(variables: u32, clause: &[i32]) -> Option<i32>
    ensures { MatchOption result (All (IsLiteral variables) clause.now) (IsFirstOutside variables clause.now) }
{
    for &literal in clause {
        if !is_literal(variables, literal) {
            return Some(literal);
        }
    }
    None
}

/// Takes the literals of a clause false.
pub fn take_false(taken: &mut LiteralSet, clause: &[i32])
    requires in_range { All (IsLiteral taken.old.variables) clause.now }
    requires clear { IsClear taken.old }
    ensures variables { taken.new.variables ≡ taken.old.variables }
    ensures marks { Marks taken.new clause.now }
{
    for &literal in clause {
        taken.insert(literal);
    }
}

/// Goes along the hints: each but the last takes the negation of its one literal false, and the last is to be false.
pub fn follow(known: &KnownClauses, taken: &mut LiteralSet, hints: &[u32]) -> Result<(), StepFault>
    requires { taken.old.variables ≡ known.now.variables }
    ensures variables { taken.new.variables ≡ taken.old.variables }
    ensures answer { (list : List ℤ) → Marks taken.old list →
        MatchResult result (λ _. Refutes known.now.clauses list hints.now)
        (IsPrevented known.now.clauses list hints.now) }
    ensures marked { (l : ℤ) → IsLiteral known.now.variables l → IsMarked taken.new l →
        IsMarked taken.old l ⊎ IsHinted known.now.clauses hints.now (neg_ℤ l) }
{
    for (place, &hint) in hints.iter().enumerate() {
        if hint as usize >= known.len() {
            return Err(StepFault::Unknown(hint));
        }
        match status_of(taken, known.clause(hint as usize)) {
            Status::Unit(literal) => taken.insert(-literal),
            Status::False if place + 1 == hints.len() => return Ok(()),
            Status::False | Status::Open => return Err(StepFault::NotUnit(hint)),
        }
    }
    Err(StepFault::NoConflict)
}

pub fn remove_all(taken: &mut LiteralSet, literals: &[i32])
    requires { All (IsLiteral taken.old.variables) literals.now }
    ensures variables { taken.new.variables ≡ taken.old.variables }
    ensures left { (l : ℤ) → IsLiteral taken.old.variables l → IsMarked taken.new l →
        IsMarked taken.old l × ¬ (Contains literals.now l) }
{
    for &literal in literals {
        taken.remove(literal);
    }
}

fn remove_negations(taken: &mut LiteralSet, literals: &[i32])
    requires bound { taken.old.variables ≤ MAX_VARIABLES }
    requires in_range { All (IsLiteral taken.old.variables) literals.now }
    ensures variables { taken.new.variables ≡ taken.old.variables }
    ensures left { (l : ℤ) → IsLiteral taken.old.variables l → IsMarked taken.new l →
        IsMarked taken.old l × ¬ (Contains literals.now (neg_ℤ l)) }
{
    for &literal in literals {
        taken.remove(-literal);
    }
}

fn remove_hinted(known: &KnownClauses, taken: &mut LiteralSet, hints: &[u32])
    requires { taken.old.variables ≡ known.now.variables }
    ensures variables { taken.new.variables ≡ taken.old.variables }
    ensures left { (l : ℤ) → IsLiteral known.now.variables l → IsMarked taken.new l →
        IsMarked taken.old l × ¬ (IsHinted known.now.clauses hints.now (neg_ℤ l)) }
{
    for &hint in hints {
        if (hint as usize) < known.len() {
            remove_negations(taken, known.clause(hint as usize));
        }
    }
}

/// Takes back what a step took false: the literals of its clause, and negations of those of its hinted clauses.
pub fn release(known: &KnownClauses, taken: &mut LiteralSet, clause: &[i32], hints: &[u32])
    requires variables { taken.old.variables ≡ known.now.variables }
    requires in_range { All (IsLiteral known.now.variables) clause.now }
    requires taken { (l : ℤ) → IsLiteral known.now.variables l → IsMarked taken.old l →
        Contains clause.now l ⊎ IsHinted known.now.clauses hints.now (neg_ℤ l) }
    ensures variables { taken.new.variables ≡ taken.old.variables }
    ensures clear { IsClear taken.new }
{
    remove_all(taken, clause);
    remove_hinted(known, taken, hints);
}
