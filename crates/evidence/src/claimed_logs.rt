//! What a log claims where it stands: among the logs of the parts, or among those of an entry.

ghost use Rattle.std.specs.Prelude.{◌≡◌, ◌+◌, ◌*◌, ◌<◌, ◌≤◌, false, length, IfOk, if◌then◌else◌};
ghost use Rattle.kinduction.specs.Parts.{part_formula as part_formula_of};
ghost use Rattle.evidence.specs.Accepted.{IsSmallFormula};
ghost use Rattle.evidence.specs.LogClaims.{part_claim as part_claim_of, line_instants, IsPartLog, is_base as is_base_of, last_claim as last_claim_of, entry_claim as entry_claim_of, IsLastSmall, IsLogSmall};

use crate::reader_lines::{EqualLine, Verdict};
use kinduction::Spot;
use lll_core::Lll;
use miter::MiterLll;
use rup_checker::Formula;
use std::alloc::{AllocError, Global};
use unroll_cnf::{base, part_base, part_step, step};

/// What a log claims of a formula.
#[derive(Debug, Drop)]
pub enum Claim {
    /// The log refutes it.
    Refutes(Formula),
    /// The log shows that the budget is spent on it.
    Spends(Formula),
}

/// The formula of a part.
fn part_formula(
    alloc: Global,
    m: &MiterLll,
    part: usize,
    stepping: bool,
) -> Result<Formula, AllocError>
    requires part { part < length m.now.parts }
    requires size { IsSmallFormula (if stepping then 2 else 1) (length m.now.lll.signals) }
    ensures { IfOk result (λ f. f ≡ part_formula_of m.now part stepping) }
{
    if stepping {
        part_step(alloc, m, part)
    } else {
        part_base(alloc, m, part)
    }
}

/// What the log of the parts with this number claims.
pub(crate) fn part_claim(
    alloc: Global,
    m: &MiterLll,
    said: EqualLine,
    number: usize,
) -> Result<Claim, AllocError>
    requires part { IsPartLog m.now said number }
    requires size { IsSmallFormula (line_instants said) (length m.now.lll.signals) }
    ensures { IfOk result (λ claim. claim ≡ part_claim_of m.now said number) }
{
    match said {
        EqualLine::Shown => {
            let formula = part_formula(alloc, m, number / 2, number % 2 == 1)?;
            Ok(Claim::Refutes(formula))
        }
        EqualLine::Conflicts { part, stepping } => {
            let formula = part_formula(alloc, m, part as usize, stepping)?;
            Ok(Claim::Spends(formula))
        }
    }
}

/// Whether the log of an entry with this number is that of a base formula that was refuted.
fn is_base(verdict: Verdict, number: u32) -> bool
    ensures { result ≡ is_base_of verdict number }
{
    match verdict {
        Verdict::Proved(k) => number < k,
        Verdict::Falsified(_) => true,
        Verdict::Depth => true,
        Verdict::Conflicts(Spot::Base(instant)) => number < instant,
        Verdict::Conflicts(Spot::Step(round)) => number < round,
    }
}

/// What the last log of an entry claims, after those of base formulas.
fn last_claim(alloc: Global, l: &Lll, p: usize, verdict: Verdict) -> Result<Claim, AllocError>
    requires obligation { p < length l.now.obligations }
    requires size { IsLastSmall verdict (length l.now.signals) }
    ensures { IfOk result (λ claim. claim ≡ last_claim_of l.now p verdict) }
{
    match verdict {
        Verdict::Proved(k) => {
            let formula = step(alloc, l, p, k)?;
            Ok(Claim::Refutes(formula))
        }
        Verdict::Falsified(_) => unreachable!(),
        Verdict::Depth => unreachable!(),
        Verdict::Conflicts(Spot::Base(instant)) => {
            let formula = base(alloc, l, p, instant)?;
            Ok(Claim::Spends(formula))
        }
        Verdict::Conflicts(Spot::Step(round)) => {
            let formula = step(alloc, l, p, round)?;
            Ok(Claim::Spends(formula))
        }
    }
}

/// What the log of an entry with this number claims.
pub(crate) fn entry_claim(
    alloc: Global,
    l: &Lll,
    p: usize,
    verdict: Verdict,
    number: u32,
) -> Result<Claim, AllocError>
    requires obligation { p < length l.now.obligations }
    requires size { IsLogSmall verdict number (length l.now.signals) }
    ensures { IfOk result (λ claim. claim ≡ entry_claim_of l.now p verdict number) }
{
    if is_base(verdict, number) {
        let formula = base(alloc, l, p, number)?;
        Ok(Claim::Refutes(formula))
    } else {
        last_claim(alloc, l, p, verdict)
    }
}
