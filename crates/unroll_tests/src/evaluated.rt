//! Whether a formula is satisfiable, against a plain evaluation of all tables of one instant or of two.

use crate::formulas::{part_runs, part_windows, runs, windows};
use cdcl_solver::{Answer, solve};
use lll_core::{Lll, Signal};
use lll_text::read_lll;
use miter::{MiterLll, miter, size};
use rup_checker::Formula;
use sqlite_items::Items;
use std::alloc::{AllocError, Global};
use std::test::Fail;
use unroll_cnf::{first_latches, input_rows};

/// Whether a literal of a model is true at an instant.
fn holds(now: &[bool], literal: u32) -> bool {
    now.get((literal / 2) as usize)
        .is_some_and(|value| *value != (literal % 2 == 1))
}

/// The first instant, with these inputs; in a window with these latches, of which there are two at most.
fn first_instant(
    alloc: Global,
    l: &Lll,
    inputs: &[bool],
    latches: Option<[bool; 2]>,
) -> Result<Vec<bool>, AllocError> {
    let mut chosen: &[bool] = match &latches {
        Some(latches) => latches,
        None => &[],
    };
    let mut inputs = inputs.iter();
    let mut now = Vec::new(alloc);
    for signal in l.signals.as_slice() {
        let value = match signal {
            Signal::One => true,
            Signal::Input(_) => inputs.next() == Some(&true),
            Signal::Latch { init, .. } => match chosen {
                [value, rest @ ..] => {
                    chosen = rest;
                    *value
                }
                [] => holds(&now, *init),
            },
            Signal::Imp(a, b) => !holds(&now, *a) || holds(&now, *b),
            Signal::Eqv(a, b) => holds(&now, *a) == holds(&now, *b),
        };
        now.push(value)?;
    }
    Ok(now)
}

/// The instant that follows another, with these inputs.
fn next_instant(
    alloc: Global,
    l: &Lll,
    inputs: &[bool],
    before: &[bool],
) -> Result<Vec<bool>, AllocError> {
    let mut inputs = inputs.iter();
    let mut now = Vec::new(alloc);
    for signal in l.signals.as_slice() {
        let value = match signal {
            Signal::One => true,
            Signal::Input(_) => inputs.next() == Some(&true),
            Signal::Latch { next, .. } => holds(before, *next),
            Signal::Imp(a, b) => !holds(&now, *a) || holds(&now, *b),
            Signal::Eqv(a, b) => holds(&now, *a) == holds(&now, *b),
        };
        now.push(value)?;
    }
    Ok(now)
}

/// Whether assume and the constraints are true at an instant.
fn admits(l: &Lll, now: &[bool]) -> bool {
    holds(now, l.assume) && l.constraints.as_slice().iter().all(|c| holds(now, *c))
}

/// Whether some obligation is false at an instant.
fn is_broken(l: &Lll, now: &[bool]) -> bool {
    l.obligations.as_slice().iter().any(|p| !holds(now, *p))
}

/// Whether the instant with these inputs is a counterexample: a run, or the window that begins with these latches.
fn breaks_at_once(
    alloc: Global,
    l: &Lll,
    row: &[bool],
    latches: Option<[bool; 2]>,
) -> Result<bool, AllocError> {
    let now = first_instant(alloc, l, row, latches)?;
    let begins = latches.is_none() || holds(&now, l.keep);
    Ok(begins && admits(l, &now) && is_broken(l, &now))
}

/// Whether some table of one instant is a counterexample.
fn is_breakable_at_once(alloc: Global, l: &Lll, window: bool) -> Result<bool, AllocError> {
    for number in 0u32..8 {
        let row = [number % 2 == 1, number / 2 % 2 == 1];
        let latches = window.then_some([number / 4 == 1, false]);
        if breaks_at_once(alloc, l, &row, latches)? {
            return Ok(true);
        }
    }
    Ok(false)
}

/// Whether the two instants with these inputs are a counterexample: a run, or the window that begins with these latches.
fn breaks(
    alloc: Global,
    l: &Lll,
    rows: (&[bool], &[bool]),
    latches: Option<[bool; 2]>,
) -> Result<bool, AllocError> {
    let before = first_instant(alloc, l, rows.0, latches)?;
    let now = next_instant(alloc, l, rows.1, &before)?;
    let obligations = l.obligations.as_slice();
    let begins = latches.is_none()
        || holds(&before, l.keep) && obligations.iter().all(|p| holds(&before, *p));
    Ok(begins && admits(l, &before) && admits(l, &now) && is_broken(l, &now))
}

/// Whether some table of two instants is a counterexample.
fn is_breakable(alloc: Global, l: &Lll, window: bool) -> Result<bool, AllocError> {
    for number in 0u32..32 {
        let first = [number % 2 == 1, number / 2 % 2 == 1];
        let second = [number / 4 % 2 == 1, number / 8 % 2 == 1];
        let latches = window.then_some([number / 16 == 1, false]);
        if breaks(alloc, l, (&first, &second), latches)? {
            return Ok(true);
        }
    }
    Ok(false)
}

/// What is read off an assignment of so many instants: the rows of inputs, and the first latches.
fn read_off(
    alloc: Global,
    l: &Lll,
    instants: u32,
    values: &[bool],
) -> Result<(Items<Items<bool>>, Items<bool>), Fail> {
    if instants == 0 || instants > 1000 || values.len() < instants as usize * l.signals.len() {
        return Err(Fail::new("too few values"));
    }
    Ok((
        input_rows(alloc, l, instants, values)?,
        first_latches(alloc, l, values)?,
    ))
}

/// Whether what is read off an assignment of two instants is a counterexample.
fn shows_one(alloc: Global, l: &Lll, values: &[bool], window: bool) -> Result<bool, Fail> {
    let (rows, latches) = read_off(alloc, l, 2, values)?;
    match (rows.as_slice(), latches.as_slice()) {
        ([first, second], [latch]) => {
            let latches = window.then_some([*latch, false]);
            Ok(breaks(alloc, l, (first.as_slice(), second.as_slice()), latches)?)
        }
        _ => Err(Fail::new("not two rows and one latch")),
    }
}

/// An assignment that satisfies a formula, if there is one.
fn model(alloc: Global, formula: &Formula) -> Result<Option<Vec<bool>>, Fail> {
    if formula.len() >= 1 << 31 {
        return Err(Fail::new("too many clauses"));
    }
    match solve(alloc, formula, 100_000)? {
        Answer::Sat(values) => Ok(Some(values)),
        Answer::Unsat(_) => Ok(None),
        Answer::Spent(_) => Err(Fail::new("the budget is spent")),
    }
}

/// Whether a formula is satisfiable, where the assignment that is found shows a counterexample.
fn is_satisfiable(alloc: Global, l: &Lll, formula: &Formula, window: bool) -> Result<bool, Fail> {
    let Some(values) = model(alloc, formula)? else {
        return Ok(false);
    };
    if shows_one(alloc, l, &values, window)? {
        Ok(true)
    } else {
        Err(Fail::new("no counterexample"))
    }
}

/// A text over two inputs and a latch, whose gate is the obligation: one for each number below 768. They have each
/// gate over literals of these signals and of the constants, each init and each next.
fn text(alloc: Global, number: u32) -> Result<String, AllocError> {
    let init = number % 6;
    let next = (number % 8 + number / 48 % 8) % 8;
    let gate = if number / 6 % 2 == 1 { "eqv" } else { "imp" };
    let a = number / 12 % 8;
    let b = number / 96 % 8;
    let assume = (a + next) % 8;
    let keep = (b + init) % 8;
    let constraint = (init + a + b) % 8;
    format!(in alloc;
        "lll 1\n0 one\n1 input a\n2 input b\n3 latch {init} {next} x\n4 {gate} {a} {b}\nassume {assume}\nkeep {keep}\nconstraint {constraint}\nobligation 8\nend\n"
    )
}

#[test]
fn formulas_are_satisfiable_where_a_table_is_a_counterexample(rt: HostRuntime) -> Result<(), Fail> {
    let alloc = rt.alloc();
    for number in 0u32..768 {
        let text = text(alloc, number)?;
        let l = read_lll(alloc, text.as_bytes())?;
        let two = runs(alloc, &l, 0, 1)?;
        let found = is_satisfiable(alloc, &l, &two, false)?;
        assert_eq!(rt; found, is_breakable(alloc, &l, false)?, "runs of {number}");
        let two = windows(alloc, &l, 0, 1)?;
        let found = is_satisfiable(alloc, &l, &two, true)?;
        assert_eq!(rt;
            found,
            is_breakable(alloc, &l, true)?,
            "windows of {number}"
        );
    }
    Ok(())
}

#[test]
fn formulas_of_one_instant_are_satisfiable_where_it_is_a_counterexample(
    rt: HostRuntime,
) -> Result<(), Fail> {
    let alloc = rt.alloc();
    for number in 0u32..768 {
        let text = text(alloc, number)?;
        let l = read_lll(alloc, text.as_bytes())?;
        let found = model(alloc, &runs(alloc, &l, 0, 0)?)?.is_some();
        assert_eq!(rt;
            found,
            is_breakable_at_once(alloc, &l, false)?,
            "runs of {number}"
        );
        let found = model(alloc, &windows(alloc, &l, 0, 0)?)?.is_some();
        assert_eq!(rt;
            found,
            is_breakable_at_once(alloc, &l, true)?,
            "windows of {number}"
        );
    }
    Ok(())
}

/// The miter of two of these texts.
fn pair(alloc: Global, a: u32, b: u32) -> Result<MiterLll, Fail> {
    let a = text(alloc, a)?;
    let a = read_lll(alloc, a.as_bytes())?;
    let b = text(alloc, b)?;
    let b = read_lll(alloc, b.as_bytes())?;
    if size(&a) >= 1 << 30 || size(&b) >= 1 << 30 {
        return Err(Fail::new("too large a model"));
    }
    Ok(miter(alloc, &a, &b)?)
}

/// Whether some run of one instant meets assume and breaks a part.
fn is_part_breakable(alloc: Global, m: &MiterLll, part: u32) -> Result<bool, AllocError> {
    for number in 0u32..4 {
        let row = [number % 2 == 1, number / 2 == 1];
        let now = first_instant(alloc, &m.lll, &row, None)?;
        if holds(&now, m.lll.assume) && !holds(&now, part) {
            return Ok(true);
        }
    }
    Ok(false)
}

/// Whether some window of two instants meets assume at both and all parts at the first, and breaks a part at the second.
fn is_part_breakable_next(alloc: Global, m: &MiterLll, part: u32) -> Result<bool, AllocError> {
    for number in 0u32..64 {
        let first = [number % 2 == 1, number / 2 % 2 == 1];
        let second = [number / 4 % 2 == 1, number / 8 % 2 == 1];
        let latches = [number / 16 % 2 == 1, number / 32 == 1];
        let before = first_instant(alloc, &m.lll, &first, Some(latches))?;
        let now = next_instant(alloc, &m.lll, &second, &before)?;
        let assumed = holds(&before, m.lll.assume) && holds(&now, m.lll.assume);
        let begins = m.parts.as_slice().iter().all(|p| holds(&before, *p));
        if assumed && begins && !holds(&now, part) {
            return Ok(true);
        }
    }
    Ok(false)
}

#[test]
fn formulas_of_parts_are_satisfiable_where_a_table_breaks_one(rt: HostRuntime) -> Result<(), Fail> {
    let alloc = rt.alloc();
    for number in 0u32..32 {
        let m = pair(alloc, 24 * number, 23 * number)?;
        for (i, &part) in m.parts.as_slice().iter().enumerate() {
            let found = model(alloc, &part_runs(alloc, &m, i)?)?.is_some();
            assert_eq!(rt;
                found,
                is_part_breakable(alloc, &m, part)?,
                "runs of {number}, {i}"
            );
            let found = model(alloc, &part_windows(alloc, &m, i)?)?.is_some();
            assert_eq!(rt;
                found,
                is_part_breakable_next(alloc, &m, part)?,
                "windows of {number}, {i}"
            );
        }
    }
    Ok(())
}
