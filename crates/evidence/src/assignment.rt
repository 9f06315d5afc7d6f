//! Whether an assignment satisfies a formula.

ghost use Rattle.std.specs.Prelude.{◌≡◌, ◌↔◌, true, IsTrue, Any};
ghost use Rattle.rup_checker.specs.Formulas.{truth as truth_of, Satisfies, listed};

use rup_checker::Formula;

/// What a literal is worth where variable 1 has the first value.
fn truth(values: &[bool], literal: i32) -> bool
    ensures { result ≡ truth_of (listed values.now) literal }
{
    let number = literal.unsigned_abs() as usize;
    let value = values
        .get(number.saturating_sub(1))
        .copied()
        .unwrap_or(false);
    value != (literal < 0)
}

/// Whether a literal of a clause is true.
fn is_true(values: &[bool], clause: &[i32]) -> bool
    ensures { IsTrue result ↔ Any (λ l. truth_of (listed values.now) l ≡ true) clause.now }
{
    clause.iter().any(|literal| truth(values, *literal))
}

/// Whether a list of values, that of variable 1 first, satisfies a formula.
pub(crate) fn satisfies(formula: &Formula, values: &[bool]) -> bool
    ensures { IsTrue result ↔ Satisfies (listed values.now) formula.now.clauses }
{
    for number in 0..formula.len() {
        if !is_true(values, formula.clause(number)) {
            return false;
        }
    }
    true
}
