//! How much a miter may have.

ghost use Rattle.std.specs.Prelude.{◌≡◌, ◌<◌, ◌≤◌, ◌^◌, length};
ghost use Rattle.lll_core.specs.Tables.{latch_count as latch_count_of};
ghost use Rattle.miter.specs.Pairs.{size_of};

use crate::joining::is_latch;
use lll_core::{Lll, Signal};

fn latch_count(signals: &[Signal]) -> u64
    ensures { result ≡ latch_count_of signals.now }
{
    let mut count = 0;
    for signal in signals {
        if is_latch(signal) {
            count += 1;
        }
    }
    count
}

/// How many signals, latches, constraints and obligations there are.
pub fn size(lll: &Lll) -> u64
    ensures size { result ≡ size_of lll.now }
    ensures small { result < 2 ^ 63 }
{
    let signals = lll.signals.as_slice();
    let roots = lll.constraints.as_slice().len() as u64 + lll.obligations.as_slice().len() as u64;
    signals.len() as u64 + latch_count(signals) + roots
}
