//! Clauses appended to a formula.

ghost use Rattle.std.specs.Prelude.{◌≡◌, ◌≤◌, ◌++◌, ◌∷◌, [], OnOk, nat_abs, neg_ℤ};
ghost use Rattle.rup_checker.specs.Formulas.{IsLiteral};
ghost use Rattle.unroll_cnf.specs.Clauses.{implication_clauses, equivalence_clauses, equality_clauses};

use rup_checker::Formula;
use std::alloc::AllocError;

/// The clause of one literal.
pub fn push_unit(formula: &mut Formula, x: i32) -> Result<(), AllocError>
    requires { IsLiteral formula.old.variables x }
    ensures variables { formula.new.variables ≡ formula.old.variables }
    ensures clauses { OnOk result (formula.new.clauses ≡ formula.old.clauses ++ (x ∷ []) ∷ []) }
{
    formula.push(&[x])
}

/// The negation of a literal.
fn negated(x: i32) -> i32
    requires { nat_abs x ≤ 16000000 }
    ensures value { result ≡ neg_ℤ x }
    ensures same { nat_abs result ≡ nat_abs x }
{
    -x
}

/// The clause of two literals.
fn push_pair(formula: &mut Formula, a: i32, b: i32) -> Result<(), AllocError>
    requires first { IsLiteral formula.old.variables a }
    requires second { IsLiteral formula.old.variables b }
    ensures variables { formula.new.variables ≡ formula.old.variables }
    ensures clauses { OnOk result (formula.new.clauses ≡ formula.old.clauses ++ (a ∷ b ∷ []) ∷ []) }
{
    formula.push(&[a, b])
}

/// The clause of three literals.
fn push_triple(formula: &mut Formula, a: i32, b: i32, c: i32) -> Result<(), AllocError>
    requires first { IsLiteral formula.old.variables a }
    requires second { IsLiteral formula.old.variables b }
    requires third { IsLiteral formula.old.variables c }
    ensures variables { formula.new.variables ≡ formula.old.variables }
    ensures clauses { OnOk result (formula.new.clauses ≡ formula.old.clauses ++ (a ∷ b ∷ c ∷ []) ∷ []) }
{
    formula.push(&[a, b, c])
}

/// `x` is the implication of `a` and `b`.
pub fn push_implication(formula: &mut Formula, x: i32, a: i32, b: i32) -> Result<(), AllocError>
    requires few { formula.old.variables ≤ 16000000 }
    requires signal { IsLiteral formula.old.variables x }
    requires first { IsLiteral formula.old.variables a }
    requires second { IsLiteral formula.old.variables b }
    ensures variables { formula.new.variables ≡ formula.old.variables }
    ensures clauses { OnOk result (formula.new.clauses ≡ formula.old.clauses ++ implication_clauses x a b) }
{
    push_pair(formula, x, a)?;
    push_pair(formula, x, negated(b))?;
    push_triple(formula, negated(x), negated(a), b)?;
    Ok(())
}

/// `x` is the equivalence of `a` and `b`.
pub fn push_equivalence(formula: &mut Formula, x: i32, a: i32, b: i32) -> Result<(), AllocError>
    requires few { formula.old.variables ≤ 16000000 }
    requires signal { IsLiteral formula.old.variables x }
    requires first { IsLiteral formula.old.variables a }
    requires second { IsLiteral formula.old.variables b }
    ensures variables { formula.new.variables ≡ formula.old.variables }
    ensures clauses { OnOk result (formula.new.clauses ≡ formula.old.clauses ++ equivalence_clauses x a b) }
{
    push_triple(formula, negated(x), negated(a), b)?;
    push_triple(formula, negated(x), a, negated(b))?;
    push_triple(formula, x, a, b)?;
    push_triple(formula, x, negated(a), negated(b))?;
    Ok(())
}

/// `x` is equal to `a`.
pub fn push_equality(formula: &mut Formula, x: i32, a: i32) -> Result<(), AllocError>
    requires few { formula.old.variables ≤ 16000000 }
    requires signal { IsLiteral formula.old.variables x }
    requires other { IsLiteral formula.old.variables a }
    ensures variables { formula.new.variables ≡ formula.old.variables }
    ensures clauses { OnOk result (formula.new.clauses ≡ formula.old.clauses ++ equality_clauses x a) }
{
    push_pair(formula, x, negated(a))?;
    push_pair(formula, negated(x), a)?;
    Ok(())
}
