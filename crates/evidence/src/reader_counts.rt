//! What the lines of a file are counted by.

ghost use Rattle.std.specs.Prelude.{◌≡◌, ◌^◌, ◌<◌};
ghost use Rattle.lll_core.specs.Signals.{is_input, is_latch};
ghost use Rattle.lll_core.specs.Tables.{input_count, latch_count};
ghost use Rattle.evidence.specs.Spelling.{part_count};

use lll_core::{Lll, Signal};

fn is_input(signal: &Signal) -> bool
    ensures { result ≡ is_input signal.now }
{
    matches!(signal, Signal::Input(_))
}

fn is_latch(signal: &Signal) -> bool
    ensures { result ≡ is_latch signal.now }
{
    matches!(signal, Signal::Latch { .. })
}

/// How many inputs there are.
pub(crate) fn input_count(signals: &[Signal]) -> usize
    ensures { result ≡ input_count signals.now }
{
    signals.iter().filter(|signal| is_input(signal)).count()
}

fn latch_count(signals: &[Signal]) -> usize
    ensures { result ≡ latch_count signals.now }
{
    signals.iter().filter(|signal| is_latch(signal)).count()
}

/// How many parts the miter with a model has.
pub(crate) fn part_count(model: &Lll) -> u64
    ensures count { result ≡ part_count model.now }
    ensures few { result < 2 ^ 63 }
{
    let roots = model.constraints.as_slice().len() as u64
        + model.obligations.as_slice().len() as u64;
    latch_count(model.signals.as_slice()) as u64 + roots + 3
}
