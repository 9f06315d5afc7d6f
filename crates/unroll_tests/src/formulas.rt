//! The formulas, where what they ask for is there.

use lll_core::Lll;
use miter::MiterLll;
use rup_checker::Formula;
use std::alloc::Global;
use std::test::Fail;
use unroll_cnf::{base, fits, part_base, part_step, step};

/// The formula of the runs of `j + 1` instants.
pub fn runs(alloc: Global, l: &Lll, p: usize, j: u32) -> Result<Formula, Fail> {
    if p >= l.obligations.len() || j >= 1000 || !fits(l, j + 1) {
        return Err(Fail::new("no such formula of runs"));
    }
    Ok(base(alloc, l, p, j)?)
}

/// The formula of the windows of `k + 1` instants.
pub fn windows(alloc: Global, l: &Lll, p: usize, k: u32) -> Result<Formula, Fail> {
    if p >= l.obligations.len() || k >= 1000 || !fits(l, k + 1) {
        return Err(Fail::new("no such formula of windows"));
    }
    Ok(step(alloc, l, p, k)?)
}

/// The formula of the runs that break a part.
pub fn part_runs(alloc: Global, m: &MiterLll, i: usize) -> Result<Formula, Fail> {
    if i >= m.parts.len() || m.lll.signals.len() > 8_000_000 {
        return Err(Fail::new("no such formula of runs"));
    }
    Ok(part_base(alloc, m, i)?)
}

/// The formula of the windows that break a part.
pub fn part_windows(alloc: Global, m: &MiterLll, i: usize) -> Result<Formula, Fail> {
    if i >= m.parts.len() || m.lll.signals.len() > 8_000_000 {
        return Err(Fail::new("no such formula of windows"));
    }
    Ok(part_step(alloc, m, i)?)
}
