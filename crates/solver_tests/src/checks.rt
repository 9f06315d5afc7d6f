//! Steps and logs with their answers. A formula is written with a 0 after each clause, a step as its clause, ":" and its
//! hints, and a log with ";" after each step.

use rup_checker::{
    Checker, Formula, Log, LogFault, MAX_VARIABLES, Step, StepFault, Store, busy, check,
};
use sqlite_items::Items;
use std::alloc::Global;
use std::test::Fail;

/// Every pair of literals of two variables.
const PAIRS: &str = "1 2 0  1 -2 0  -1 2 0  -1 -2 0";

/// Three pigeons in two holes: the variable 2 * (i - 1) + h says that pigeon i sits in hole h.
const PIGEONS: &str = "1 2 0  3 4 0  5 6 0  -1 -3 0  -1 -5 0  -3 -5 0  -2 -4 0  -2 -6 0  -4 -6 0";

/// Steps that one checker of the pairs is given in this order.
const STEPS: &[(&str, Result<(), StepFault>)] = &[
    ("1 : 0 2", Err(StepFault::NotUnit(2))),
    ("1 : 0", Err(StepFault::NoConflict)),
    ("1 : 9", Err(StepFault::Unknown(9))),
    ("1 :", Err(StepFault::NoConflict)),
    ("1 : 0 4", Err(StepFault::Unknown(4))),
    (": 0 1", Err(StepFault::NotUnit(0))),
    ("1 2 : 0 0", Err(StepFault::NotUnit(0))),
    ("1 -2 : 0 0", Err(StepFault::NoConflict)),
    ("0 : 0 1", Err(StepFault::Literal(0))),
    ("1 3 -4 : 0 1", Err(StepFault::Literal(3))),
    ("1 -2147483648 : 0 1", Err(StepFault::Literal(i32::MIN))),
    ("3 : 9", Err(StepFault::Literal(3))),
    ("1 : 0 1", Ok(())),
    ("2 1 1 : 0", Ok(())),
    ("2 2 : 5 4", Err(StepFault::NoConflict)),
    ("1 -1 : 2 3", Ok(())),
    ("1 -1 2 -2 : 3", Ok(())),
    (": 4 2 3", Ok(())),
    ("2 : 8", Ok(())),
];

/// Formulas of six variables, logs, and whether they refute.
const LOGS: &[(&str, &str, Result<(), LogFault>)] = &[
    (PAIRS, "1 : 0 1 ; : 4 2 3 ;", Ok(())),
    (PAIRS, "1 : 0 1 ;", Err(LogFault::Unended)),
    (PAIRS, "", Err(LogFault::Unended)),
    (PAIRS, "1 : 0 1 ; : 4 2 3 ; : 5 ;", Ok(())),
    (PAIRS, "1 : 0 1 ; : 4 2 3 ; 2 : 5 ;", Err(LogFault::Unended)),
    (
        PAIRS,
        "1 : 0 1 ; : 4 0 3 ;",
        Err(LogFault::At {
            step: 1,
            fault: StepFault::NotUnit(0),
        }),
    ),
    (
        PAIRS,
        "1 7 : 0 1 ; : ;",
        Err(LogFault::At {
            step: 0,
            fault: StepFault::Literal(7),
        }),
    ),
    (PIGEONS, "-1 : 3 1 4 2 8 ; : 9 0 6 1 5 2 7 ;", Ok(())),
    ("0", ": 0 ;", Ok(())),
    ("", "", Err(LogFault::Unended)),
    (
        "1 -1 0",
        ": 0 ;",
        Err(LogFault::At {
            step: 0,
            fault: StepFault::NotUnit(0),
        }),
    ),
    ("1 1 0  -1 2 -1 2 0  -2 -2 0", ": 0 1 2 ;", Ok(())),
];

/// The clauses `(1 2)` and `(1 -2)`, from which `(1)` follows.
const HALF: &str = "1 2 0  1 -2 0";

/// The clauses `(1 2)` and `(-1 -2)`: one of the two variables is true.
const EITHER: &str = "1 2 0  -1 -2 0";

/// A chain of clauses each of which makes the next one unit.
const CHAIN: &str = "-3 4 0  -2 3 0  -1 2 2 0  1 1 0";

/// The same chain with a clause that is false at its end.
const BROKEN_CHAIN: &str = "-4 -4 0  -3 4 0  -2 3 0  -1 2 2 0  1 1 0";

/// Formulas of six variables, logs, and whether they are busy.
const BUSY: &[(&str, &str, bool)] = &[
    (PAIRS, "1 : 0 1 ;", false),
    (PAIRS, "1 2 : 0 ;", false),
    (HALF, "1 : 0 1 ;", true),
    (HALF, "1 1 : 0 1 ;", true),
    (HALF, "1 3 : 0 1 ;", true),
    (HALF, "1 : 0 1 ; 3 1 : 2 ;", false),
    (HALF, "1 3 : 0 1 ; 3 1 : 2 ;", false),
    (HALF, "1 3 : 0 1 ; 1 : 0 1 ;", true),
    (HALF, "1 : 0 ;", false),
    (HALF, "1 7 : 0 1 ;", false),
    (HALF, "0 : 0 1 ;", false),
    (EITHER, "1 -1 : 0 1 ;", false),
    (PAIRS, "1 : 0 1 ; : 4 2 3 ;", false),
    ("0", "", false),
    ("0", "1 : 0 ;", false),
    ("", "", true),
    ("1 -1 0  2 -2 2 0", "", true),
    ("1 -1 0", "1 -1 2 : 0 ;", false),
    ("1 0  2 3 0", "2 1 : 0 ;", false),
    (CHAIN, "", true),
    (BROKEN_CHAIN, "", false),
    (PIGEONS, "-1 : 3 1 4 2 8 ;", false),
    (PIGEONS, "-1 -4 : 4 2 8 ; -2 -3 : 7 2 5 ;", true),
    (
        PIGEONS,
        "-1 -4 : 4 2 8 ; -2 -3 : 7 2 5 ; -4 6 -1 : 9 ;",
        false,
    ),
];

/// The formula of these clauses, where they are in range.
fn formula(alloc: Global, variables: u32, text: &str) -> Result<Formula, Fail> {
    let Some(mut formula) = Formula::new(alloc, variables) else {
        return Err(Fail::new("too many variables"));
    };
    formula.reserve(text.len(), text.len())?;
    let mut clause = Vec::new(alloc);
    for word in text.split_whitespace() {
        let literal: i32 = word.parse()?;
        if literal != 0 {
            clause.push(literal)?;
            continue;
        }
        if !formula.allows(&clause) {
            return Err(Fail::new("a literal out of range"));
        }
        formula.push(&clause)?;
        clause.clear();
    }
    Ok(formula)
}

/// The step of a text, which is one clause, ":" and hints.
fn step(alloc: Global, text: &str) -> Result<Step, Fail> {
    let Some((literals, numbers)) = text.split_once(':') else {
        return Err(Fail::new("no hints"));
    };
    let mut clause = Items::new(alloc);
    for word in literals.split_whitespace() {
        clause.push(word.parse()?)?;
    }
    let mut hints = Items::new(alloc);
    for word in numbers.split_whitespace() {
        hints.push(word.parse()?)?;
    }
    Ok(Step { clause, hints })
}

fn log(alloc: Global, text: &str) -> Result<Log, Fail> {
    let mut steps = Items::new(alloc);
    for part in text.split_terminator(';') {
        steps.push(step(alloc, part)?)?;
    }
    Ok(Log { steps })
}

#[test]
fn bounds_the_variables(rt: HostRuntime) -> Result<(), Fail> {
    let alloc = rt.alloc();
    assert!(rt; Formula::new(alloc, MAX_VARIABLES).is_some());
    assert!(rt; Formula::new(alloc, MAX_VARIABLES + 1).is_none());
    let formula = formula(alloc, 6, PIGEONS)?;
    assert!(rt; formula.variables() == 6 && formula.len() == 9);
    assert!(rt; formula.allows(&[6, -6]) && !formula.allows(&[1, 7]) && !formula.allows(&[0]));
    Ok(())
}

#[test]
fn stores_clauses_in_order(rt: HostRuntime) -> Result<(), Fail> {
    let alloc = rt.alloc();
    let mut store = Store::with_room(alloc, 1, 1)?;
    assert_eq!(rt; store.push(&[1, -2, 3])?, 0);
    assert_eq!(rt; store.push(&[])?, 1);
    assert_eq!(rt; store.push(&[4, 5])?, 2);
    store.swap(0, 0, 2);
    store.swap(2, 1, 1);
    assert_eq!(rt; store.len(), 3);
    assert_eq!(rt; store.clause(0), [3, -2, 1].as_slice());
    assert!(rt; store.clause(1).is_empty());
    assert_eq!(rt; store.clause(2), [4, 5].as_slice());
    Ok(())
}

#[test]
fn answers_steps_in_order(rt: HostRuntime) -> Result<(), Fail> {
    let alloc = rt.alloc();
    let formula = formula(alloc, 2, PAIRS)?;
    let mut checker = Checker::new(alloc, &formula)?;
    checker.reserve(2, 3)?;
    for &(text, expected) in STEPS {
        let step = step(alloc, text)?;
        assert_eq!(rt;
            checker.step(step.clause.as_slice(), step.hints.as_slice()),
            expected
        );
    }
    Ok(())
}

#[test]
fn answers_logs(rt: HostRuntime) -> Result<(), Fail> {
    let alloc = rt.alloc();
    for &(clauses, steps, expected) in LOGS {
        let formula = formula(alloc, 6, clauses)?;
        assert_eq!(rt; check(alloc, &formula, &log(alloc, steps)?), expected);
    }
    Ok(())
}

#[test]
fn tells_busy_logs(rt: HostRuntime) -> Result<(), Fail> {
    let alloc = rt.alloc();
    for &(clauses, steps, expected) in BUSY {
        let formula = formula(alloc, 6, clauses)?;
        assert_eq!(rt; busy(alloc, &formula, &log(alloc, steps)?)?, expected);
    }
    Ok(())
}

#[test]
fn a_checker_tells_busy_clauses(rt: HostRuntime) -> Result<(), Fail> {
    let alloc = rt.alloc();
    for &(clauses, expected) in &[(HALF, true), (BROKEN_CHAIN, false)] {
        let formula = formula(alloc, 6, clauses)?;
        let from = formula.len();
        let checker = Checker::owning(alloc, formula)?;
        assert_eq!(rt; checker.is_busy(alloc, from)?, expected);
    }
    Ok(())
}

/// Compiles and is proved where values of the type may go from thread to thread and be shared by threads.
fn crosses_threads<T: Send + Sync>() {}

#[test]
fn logs_cross_threads() {
    crosses_threads::<Log>();
    crosses_threads::<Formula>();
}
