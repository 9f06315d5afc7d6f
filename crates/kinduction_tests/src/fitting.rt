//! Whether models are what the searches ask for, as tests have to find out of texts.

ghost use Rattle.std.specs.Prelude.{◌≡◌, ◌+◌, ◌<◌, ◌≤◌, ◌^◌, ℕ, true, IfOk, length};
ghost use Rattle.rup_checker.specs.Formulas.{IsUnsatisfiable};
ghost use Rattle.miter.specs.Pairs.{size_of};
ghost use Rattle.kinduction.specs.Parts.{part_formula, AreNeverDifferent};
ghost use Rattle.kinduction.specs.Sizes.{RoundsFit, PartsFit};

use cdcl_solver::{Answer, MAX_BUDGET, solve};
use kinduction::{has_few_parts, is_small};
use lll_core::Lll;
use miter::{MiterLll, size};
use std::alloc::{AllocError, Global};
use unroll_cnf::{part_base, part_step};

/// Whether a depth is in range, and a model small enough for so many rounds.
pub fn has_fit_rounds(l: &Lll, depth: u32) -> bool
    ensures some { result ≡ true → 1 ≤ depth }
    ensures bound { result ≡ true → depth ≤ 64 }
    ensures size { result ≡ true → (p : ℕ) → RoundsFit l.now p depth }
{
    1 <= depth && depth <= 64 && is_small(l, depth)
}

/// Whether two texts are small enough for a miter.
pub fn are_small(a: &Lll, b: &Lll) -> bool
    ensures { result ≡ true → size_of a.now + size_of b.now < 2 ^ 31 }
{
    size(a) + size(b) < 1 << 31
}

/// Whether a miter is small enough.
pub fn has_fit_parts(m: &MiterLll) -> bool
    ensures { result ≡ true → PartsFit m.now }
{
    has_few_parts(m)
}

/// Whether a formula of a part is refuted.
fn is_refuted(alloc: Global, m: &MiterLll, part: usize, stepping: bool) -> Result<bool, AllocError>
    requires part { part < length m.now.parts }
    requires size { PartsFit m.now }
    ensures { IfOk result (λ b. b ≡ true → IsUnsatisfiable (part_formula m.now part stepping)) }
{
    let formula = if stepping {
        part_step(alloc, m, part)?
    } else {
        part_base(alloc, m, part)?
    };
    match solve(alloc, &formula, MAX_BUDGET)? {
        Answer::Sat(_) => Ok(false),
        Answer::Unsat(_) => Ok(true),
        Answer::Spent(_) => Ok(false),
    }
}

/// Whether all formulas of the parts are refuted.
pub fn is_never_different(alloc: Global, m: &MiterLll) -> Result<bool, AllocError>
    requires { PartsFit m.now }
    ensures { IfOk result (λ b. b ≡ true → AreNeverDifferent m.now) }
{
    for part in 0..m.parts.len() {
        if !is_refuted(alloc, m, part, false)? {
            return Ok(false);
        }
        if !is_refuted(alloc, m, part, true)? {
            return Ok(false);
        }
    }
    Ok(true)
}
