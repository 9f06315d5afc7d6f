//! Whether a model is small enough.

ghost use Rattle.std.specs.Prelude.{◌≤◌, ◌↔◌, IsTrue};
ghost use Rattle.kinduction.specs.Sizes.{IsSmall, HasFewParts};

use lll_core::Lll;
use miter::MiterLll;

/// Whether a model is small enough for so many rounds, as `decide` asks: see `small_models_fit`.
pub fn is_small(l: &Lll, depth: u32) -> bool
    requires { depth ≤ 64 }
    ensures { IsTrue result ↔ IsSmall l.now depth }
{
    let signals = l.signals.len() as u64;
    let instants = u64::from(depth) + 1;
    let constraints = l.constraints.len() as u64;
    instants * signals <= 16_000_000
        && constraints < 1 << 31
        && instants * (4 * signals + constraints + 3) < 1 << 31
}

/// Whether a model with parts is small enough, as `equivalence` asks.
pub fn has_few_parts(m: &MiterLll) -> bool
    ensures { IsTrue result ↔ HasFewParts m.now }
{
    let signals = m.lll.signals.len() as u64;
    2 * signals <= 16_000_000 && 8 * signals + m.parts.len() as u64 + 3 < 1 << 31
}
