//! Formulas that were worked out by hand. They stand as in DIMACS: each clause ends with 0.

use crate::formulas::{part_runs, part_windows, runs, windows};
use lll_core::Lll;
use lll_text::read_lll;
use miter::{MiterLll, miter, size};
use rup_checker::Formula;
use std::alloc::Global;
use std::test::Fail;
use unroll_cnf::fits;

/// Two inputs, and the implication of the first and the second.
const IMPLICATION: &[u8] =
    b"lll 1\n0 one\n1 input a#0\n2 input b#0\n3 imp 2 4\nassume 0\nkeep 0\nobligation 6\nend\n";

/// The run of one instant that breaks the implication.
const IMPLICATION_BROKEN: &str = "1 0  4 2 0  4 -3 0  -4 -2 3 0  1 0  -4 0";

/// An input, a latch that begins false and takes over the input, one that begins and goes on as the opposite of the
/// first, and two gates.
const TWO_LATCHES: &[u8] =
    b"lll 1\n0 one\n1 input a\n2 latch 1 2 x\n3 latch 5 5 y\n4 imp 4 6\n5 eqv 2 6\nassume 5\nkeep 7\nconstraint 3\nobligation 9\nobligation 10\nend\n";

/// Runs of two instants that break the second obligation: the clauses of `One`, of the latches and of the gates, what
/// is demanded at the first instant, and the same of the second.
const RUNS: &str = "1 0  3 1 0  -3 -1 0  4 3 0  -4 -3 0  \
    5 3 0  5 -4 0  -5 -3 4 0  -6 -2 4 0  -6 2 -4 0  6 2 4 0  6 -2 -4 0  -3 0  -2 0  \
    7 0  9 -2 0  -9 2 0  10 3 0  -10 -3 0  \
    11 9 0  11 -10 0  -11 -9 10 0  -12 -8 10 0  -12 8 -10 0  12 8 10 0  12 -8 -10 0  -9 0  -8 0  -12 0";

/// Windows of two instants that have the first obligation true and then false. No latch has a clause at the first.
const WINDOWS: &str = "1 0  5 3 0  5 -4 0  -5 -3 4 0  \
    -6 -2 4 0  -6 2 -4 0  6 2 4 0  6 -2 -4 0  -4 0  -3 0  -2 0  -5 0  \
    7 0  9 -2 0  -9 2 0  10 3 0  -10 -3 0  \
    11 9 0  11 -10 0  -11 -9 10 0  -12 -8 10 0  -12 8 -10 0  12 8 10 0  12 -8 -10 0  -9 0  -8 0  11 0";

/// An input, a latch that takes it over, and one that becomes the opposite of the first. In the miter with itself the
/// latches of the second stand at 4 and 5, and the equivalences at 6, 7 and 8.
const TO_COMPARE: &[u8] =
    b"lll 1\n0 one\n1 input a\n2 latch 1 2 x\n3 latch 0 5 y\nassume 0\nkeep 0\nobligation 6\nend\n";

/// Runs of one instant that break the second part: the second latches differ.
const PART_RUNS: &str = "1 0  3 1 0  -3 -1 0  4 -1 0  -4 1 0  5 1 0  -5 -1 0  6 -1 0  -6 1 0  \
    -7 -3 5 0  -7 3 -5 0  7 3 5 0  7 -3 -5 0  -8 -4 6 0  -8 4 -6 0  8 4 6 0  8 -4 -6 0  \
    -9 -4 6 0  -9 4 -6 0  9 4 6 0  9 -4 -6 0  1 0  -8 0";

/// Windows of two instants that have all six parts true and then the last false: the obligations differ.
const PART_WINDOWS: &str = "1 0  -7 -3 5 0  -7 3 -5 0  7 3 5 0  7 -3 -5 0  \
    -8 -4 6 0  -8 4 -6 0  8 4 6 0  8 -4 -6 0  -9 -4 6 0  -9 4 -6 0  9 4 6 0  9 -4 -6 0  \
    1 0  7 0  8 0  1 0  1 0  1 0  9 0  \
    10 0  12 -2 0  -12 2 0  13 3 0  -13 -3 0  14 -2 0  -14 2 0  15 5 0  -15 -5 0  \
    -16 -12 14 0  -16 12 -14 0  16 12 14 0  16 -12 -14 0  -17 -13 15 0  -17 13 -15 0  17 13 15 0  17 -13 -15 0  \
    -18 -13 15 0  -18 13 -15 0  18 13 15 0  18 -13 -15 0  10 0  -18 0";

/// Whether a formula has so many variables, and just the clauses of a text, in its order.
fn is_worked(alloc: Global, formula: &Formula, variables: u32, text: &str) -> Result<bool, Fail> {
    let mut expected = Vec::new(alloc);
    for word in text.split_whitespace() {
        let literal: i32 = word.parse()?;
        expected.push(literal)?;
    }
    let mut found = Vec::new(alloc);
    for number in 0..formula.len() {
        found.extend_from_slice(formula.clause(number))?;
        found.push(0)?;
    }
    Ok(formula.variables() == variables && found.as_slice() == expected.as_slice())
}

#[test]
fn formulas_of_runs_and_windows(rt: HostRuntime) -> Result<(), Fail> {
    let alloc = rt.alloc();
    let l = read_lll(alloc, IMPLICATION)?;
    let broken = runs(alloc, &l, 0, 0)?;
    assert!(rt; is_worked(alloc, &broken, 4, IMPLICATION_BROKEN)?);
    assert!(rt; fits(&l, 4_000_000) && !fits(&l, 4_000_001) && !fits(&l, u32::MAX));
    let l = read_lll(alloc, TWO_LATCHES)?;
    let two = runs(alloc, &l, 1, 1)?;
    assert!(rt; is_worked(alloc, &two, 12, RUNS)?);
    let two = windows(alloc, &l, 0, 1)?;
    assert!(rt; is_worked(alloc, &two, 12, WINDOWS)?);
    Ok(())
}

/// The miter of a model with itself.
fn own_miter(alloc: Global, l: &Lll) -> Result<MiterLll, Fail> {
    if size(l) >= 1 << 30 {
        return Err(Fail::new("too large a model"));
    }
    Ok(miter(alloc, l, l)?)
}

#[test]
fn formulas_of_the_parts_of_a_miter(rt: HostRuntime) -> Result<(), Fail> {
    let alloc = rt.alloc();
    let l = read_lll(alloc, TO_COMPARE)?;
    let m = own_miter(alloc, &l)?;
    assert_eq!(rt; m.parts.len(), 6);
    let second = part_runs(alloc, &m, 1)?;
    assert!(rt; is_worked(alloc, &second, 9, PART_RUNS)?);
    let last = part_windows(alloc, &m, 5)?;
    assert!(rt; is_worked(alloc, &last, 18, PART_WINDOWS)?);
    Ok(())
}
