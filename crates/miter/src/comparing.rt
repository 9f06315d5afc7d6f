//! The comparisons of a's literals with b's.

ghost use Rattle.std.specs.Prelude.{◌≡◌, ◌≢◌, ℕ, ◌+◌, ◌<◌, ◌^◌, ◌++◌, List, length, All, IfErr, OnOk, codes, ◌⊎◌};
ghost use Rattle.lll_core.specs.Signals.{NamesSignal};
ghost use Rattle.miter.specs.declared.fault.MiterFault.TheVariants as fault;
ghost use Rattle.miter.specs.Miters.{comparisons, literals_from};

use crate::MiterFault;
use crate::joining::{image, unpaired};
use lll_core::{Lll, Signal};
use std::alloc::{AllocError, Global};

/// Nothing where there are as many constraints, and as many obligations.
pub(crate) fn compare_counts(alloc: Global, a: &Lll, b: &Lll) -> Result<(), MiterFault>
    ensures constraints { OnOk result (length a.now.constraints ≡ length b.now.constraints) }
    ensures obligations { OnOk result (length a.now.obligations ≡ length b.now.obligations) }
    ensures fault { IfErr result (λ e. (name : List ℕ) → e ≡ fault.Unpaired name →
        ((length a.now.constraints ≢ length b.now.constraints) × (name ≡ codes "constraints"))
        ⊎ ((length a.now.constraints ≡ length b.now.constraints)
        × (length a.now.obligations ≢ length b.now.obligations) × (name ≡ codes "obligations"))) }
{
    if a.constraints.len() != b.constraints.len() {
        return Err(unpaired(alloc, b"constraints"));
    }
    if a.obligations.len() != b.obligations.len() {
        return Err(unpaired(alloc, b"obligations"));
    }
    Ok(())
}

/// Appends the comparisons of literals, one by one.
pub(crate) fn push_comparisons(
    signals: &mut Vec<Signal>,
    places: &[u32],
    a: &[u32],
    b: &[u32],
) -> Result<(), AllocError>
    requires long { length a.now ≡ length b.now }
    requires there { All (NamesSignal places.now) b.now }
    requires small { All (λ place. place < 2 ^ 31) places.now }
    ensures { OnOk result (signals.new.items ≡ signals.old.items ++ comparisons places.now a.now b.now) }
{
    for (number, of_a) in a.iter().enumerate() {
        signals.push(Signal::Eqv(*of_a, image(places, b[number])))?;
    }
    Ok(())
}

/// Appends the literals of so many signals, which are numbered from `first` on.
pub(crate) fn push_literals(
    literals: &mut Vec<u32>,
    first: u32,
    count: u32,
) -> Result<(), AllocError>
    requires { first + count < 2 ^ 31 }
    ensures { OnOk result (literals.new.items ≡ literals.old.items ++ literals_from first count) }
{
    for number in first..first + count {
        literals.push(2 * number)?;
    }
    Ok(())
}
