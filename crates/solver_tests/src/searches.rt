//! Formulas with their answers, and each log given to the checker. A formula is written with a 0 after each clause.

use cdcl_solver::{Answer, MAX_BUDGET, Search, solve};
use rup_checker::{Formula, Log, busy, check};
use std::alloc::Global;
use std::test::Fail;

/// Every pair of literals of two variables.
const PAIRS: &str = "1 2 0  1 -2 0  -1 2 0  -1 -2 0";

/// Four pigeons in three holes: the variable 3 * (i - 1) + h says that pigeon i sits in hole h.
const PIGEONS: &str = "1 2 3 0  4 5 6 0  7 8 9 0  10 11 12 0  \
    -1 -4 0  -1 -7 0  -1 -10 0  -4 -7 0  -4 -10 0  -7 -10 0  \
    -2 -5 0  -2 -8 0  -2 -11 0  -5 -8 0  -5 -11 0  -8 -11 0  \
    -3 -6 0  -3 -9 0  -3 -12 0  -6 -9 0  -6 -12 0  -9 -12 0";

/// Formulas with their variables, and whether some assignment satisfies them.
const FORMULAS: &[(u32, &str, bool)] = &[
    (0, "", true),
    (2, "", true),
    (4, "1 0  4 2 0  4 -3 0  -4 -2 3 0  1 0  -4 0", true),
    (4, "-1 2 0  -2 3 0  1 0  -3 4 0", true),
    (2, "1 1 0  -1 2 -1 0  2 -2 0", true),
    (3, "1 -1 0  2 2 3 0  -3 -3 0  -2 3 -2 1 0", true),
    (0, "0", false),
    (1, "1 0  -1 0", false),
    (2, "1 1 0  -1 -1 -1 0", false),
    (4, "-1 2 0  -2 3 0  1 0  -3 4 0  -4 -1 0", false),
    (2, PAIRS, false),
    (12, PIGEONS, false),
];

/// Clauses over three variables, whose subsets are searched.
const CLAUSES: &[&str] = &[
    "1 2 3 0",
    "-1 2 0",
    "1 -2 0",
    "-2 -3 0",
    "2 -3 0",
    "3 -1 0",
    "-1 -2 -3 0",
    "3 0",
];

/// Appends the clauses of a text, where they are in range.
fn add(alloc: Global, formula: &mut Formula, text: &str) -> Result<(), Fail> {
    let mut clause = Vec::new(alloc);
    for word in text.split_whitespace() {
        let literal: i32 = word.parse()?;
        if literal != 0 {
            clause.push(literal)?;
            continue;
        }
        if !formula.allows(&clause) {
            return Err(Fail::new("a literal out of range"));
        }
        formula.push(&clause)?;
        clause.clear();
    }
    Ok(())
}

fn formula(alloc: Global, variables: u32, text: &str) -> Result<Formula, Fail> {
    let Some(mut formula) = Formula::new(alloc, variables) else {
        return Err(Fail::new("too many variables"));
    };
    add(alloc, &mut formula, text)?;
    Ok(formula)
}

/// What a search answers, in short: models and logs are looked at.
#[derive(Clone, Copy, Debug, PartialEq, Eq)]
enum Found {
    Satisfied,
    Refuted,
    Spent(usize),
}

fn search(alloc: Global, formula: &Formula, budget: u32) -> Result<Found, Fail> {
    if budget == 0 || budget > 1_000_000 || formula.len() >= 1 << 31 {
        return Err(Fail::new("no such search"));
    }
    match solve(alloc, formula, budget)? {
        Answer::Sat(values) => satisfied(formula, &values),
        Answer::Unsat(log) => refuted(alloc, formula, &log),
        Answer::Spent(log) => spent(alloc, formula, &log),
    }
}

/// Whether an assignment, the value of variable 1 first, satisfies a clause.
fn satisfies(row: &[bool], clause: &[i32]) -> bool {
    clause.iter().any(|literal| {
        let place = (literal.unsigned_abs() as usize).wrapping_sub(1);
        row.get(place) == Some(&(*literal > 0))
    })
}

/// Whether there is a value for each variable, and they satisfy each clause.
fn is_model(formula: &Formula, values: &[bool]) -> bool {
    for number in 0..formula.len() {
        if !satisfies(values, formula.clause(number)) {
            return false;
        }
    }
    values.len() == formula.variables() as usize
}

fn satisfied(formula: &Formula, values: &[bool]) -> Result<Found, Fail> {
    if is_model(formula, values) {
        Ok(Found::Satisfied)
    } else {
        Err(Fail::new("no model"))
    }
}

fn refuted(alloc: Global, formula: &Formula, log: &Log) -> Result<Found, Fail> {
    match check(alloc, formula, log) {
        Ok(()) => Ok(Found::Refuted),
        Err(_) => Err(Fail::new("the log is refused")),
    }
}

fn spent(alloc: Global, formula: &Formula, log: &Log) -> Result<Found, Fail> {
    if busy(alloc, formula, log)? {
        Ok(Found::Spent(log.steps.len()))
    } else {
        Err(Fail::new("the log is not busy"))
    }
}

#[test]
fn answers_a_model_or_a_refutation(rt: HostRuntime) -> Result<(), Fail> {
    let alloc = rt.alloc();
    for &(variables, text, satisfiable) in FORMULAS {
        let formula = formula(alloc, variables, text)?;
        let expected = if satisfiable {
            Found::Satisfied
        } else {
            Found::Refuted
        };
        assert_eq!(rt; search(alloc, &formula, MAX_BUDGET)?, expected);
    }
    Ok(())
}

#[test]
fn spends_its_budget_on_pigeons(rt: HostRuntime) -> Result<(), Fail> {
    let alloc = rt.alloc();
    let formula = formula(alloc, 12, PIGEONS)?;
    assert_eq!(rt; search(alloc, &formula, 1)?, Found::Spent(1));
    assert_eq!(rt; search(alloc, &formula, 2)?, Found::Spent(2));
    Ok(())
}

#[test]
fn agrees_with_a_truth_table(rt: HostRuntime) -> Result<(), Fail> {
    let alloc = rt.alloc();
    for subset in 0u32..256 {
        let mut formula = formula(alloc, 3, "")?;
        let mut left = subset;
        for text in CLAUSES {
            if left % 2 == 1 {
                add(alloc, &mut formula, text)?;
            }
            left /= 2;
        }
        let mut satisfiable = false;
        for row in 0u32..8 {
            let values = [row % 2 == 1, row / 2 % 2 == 1, row / 4 == 1];
            satisfiable |= is_model(&formula, &values);
        }
        let expected = if satisfiable {
            Found::Satisfied
        } else {
            Found::Refuted
        };
        assert_eq!(rt; search(alloc, &formula, 28)?, expected);
    }
    Ok(())
}

/// Formulas with the sign of a decision on variable 1, the conflicts before it and after it, and the literals that are
/// true in the end.
const PROPAGATIONS: &[(u32, &str, bool, Option<u32>, Option<u32>, &[i32])] = &[
    (3, "1 2 0  -2 3 0", false, None, None, &[1]),
    (3, "1 2 0  -2 3 0", true, None, None, &[-1, 2, 3]),
    (2, PAIRS, false, None, Some(2), &[1, -2]),
    (2, PAIRS, true, None, Some(0), &[-1, -2]),
    (
        3,
        "-1 2 0  -1 3 0  2 3 0  -2 -3 0",
        false,
        None,
        Some(3),
        &[1, 3, 2],
    ),
    (1, "1 0  -1 0", false, Some(1), None, &[1]),
    (
        3,
        "1 0  2 0  -1 -2 -3 0  3 0",
        false,
        Some(2),
        None,
        &[1, 2, 3],
    ),
    (3, "1 0  2 0  3 0  -2 0", false, Some(3), None, &[1, 2, 3]),
];

/// The conflicts of a search before variable 1 is decided, and after it, and the literals that are true in the end.
#[derive(Debug, Drop)]
struct Propagated {
    before: Option<u32>,
    after: Option<u32>,
    literals: Vec<i32>,
}

fn literals(alloc: Global, search: &Search) -> Result<Vec<i32>, Fail> {
    let mut literals = Vec::new(alloc);
    for assigned in search.trail() {
        literals.push(assigned.literal)?;
    }
    Ok(literals)
}

fn propagation(
    alloc: Global,
    variables: u32,
    text: &str,
    negated: bool,
) -> Result<Propagated, Fail> {
    let formula = formula(alloc, variables, text)?;
    if formula.len() >= 1 << 31 {
        return Err(Fail::new("too many clauses"));
    }
    let mut search = Search::new(alloc, &formula)?;
    if let Some(conflict) = search.propagate()? {
        return Ok(Propagated {
            before: Some(conflict),
            after: None,
            literals: literals(alloc, &search)?,
        });
    }
    let Some(literal) = search.open_literal(1, negated) else {
        return Err(Fail::new("variable 1 has a value"));
    };
    search.assume(literal)?;
    let after = search.propagate()?;
    Ok(Propagated {
        before: None,
        after,
        literals: literals(alloc, &search)?,
    })
}

#[test]
fn propagates_what_follows(rt: HostRuntime) -> Result<(), Fail> {
    let alloc = rt.alloc();
    for &(variables, text, negated, before, after, expected) in PROPAGATIONS {
        let found = propagation(alloc, variables, text, negated)?;
        assert_eq!(rt; found.before, before, "{text}");
        assert_eq!(rt; found.after, after, "{text}");
        assert!(rt; found.literals.as_slice() == expected, "{text}");
    }
    Ok(())
}
