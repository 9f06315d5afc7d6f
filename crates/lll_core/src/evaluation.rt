//! The values of all signals at one instant.

ghost use Rattle.std.specs.Prelude.{◌≡◌, ◌<◌, true, false, length, All, is_none, IfSome};
ghost use Rattle.lll_core.specs.Signals.{signal_of, is_input, operands, nexts};
ghost use Rattle.lll_core.specs.Tables.{Instant, value as literal_value_of, input_count, HoldsNow, HoldsAtStart, HoldsAfter, IsRow};

use crate::{Lll, Signal};

/// The value of a literal at an instant.
fn value(now: &[bool], literal: u32) -> bool
    requires { signal_of literal < length now.now }
    ensures { result ≡ literal_value_of now.now literal }
{
    now[(literal / 2) as usize] != (literal % 2 == 1)
}

/// The value of a signal that is no input, by those of lower signals and of the instant before.
fn signal_value(signal: &Signal, first: bool, before: &[bool], now: &[bool]) -> Option<bool>
    requires lower { All (λ a. signal_of a < length now.now) (operands signal.now) }
    requires next { first ≡ false → All (λ a. signal_of a < length before.now) (nexts signal.now) }
    ensures input { is_none result ≡ is_input signal.now }
    ensures now { IfSome result (HoldsNow now.now signal.now) }
    ensures start { first ≡ true → IfSome result (HoldsAtStart now.now signal.now) }
    ensures after { first ≡ false → IfSome result (HoldsAfter before.now signal.now) }
{
    match signal {
        Signal::One => Some(true),
        Signal::Input(_) => None,
        Signal::Latch { init, .. } if first => Some(value(now, *init)),
        Signal::Latch { next, .. } => Some(value(before, *next)),
        Signal::Imp(a, b) => Some(!value(now, *a) || value(now, *b)),
        Signal::Eqv(a, b) => Some(value(now, *a) == value(now, *b)),
    }
}

/// Writes the values of all signals at an instant: the first of a run, or the one after `before`, which isn't
/// looked at where `first` is true. The inputs are in the order of the signals.
pub fn eval_into(lll: &Lll, first: bool, inputs: &[bool], before: &[bool], now: &mut [bool])
    requires inputs { length inputs.now ≡ input_count lll.now.signals }
    requires before { first ≡ false → length before.now ≡ length lll.now.signals }
    requires now { length now.old ≡ length lll.now.signals }
    ensures row { IsRow lll.now.signals first inputs.now before.now now.new }
    ensures only { (other : Instant) →
        IsRow lll.now.signals first inputs.now before.now other → other ≡ now.new }
{
    let mut taken = 0;
    for (number, signal) in lll.signals.as_slice().iter().enumerate() {
        now[number] = match signal_value(signal, first, before, now) {
            Some(value) => value,
            None => {
                let value = inputs[taken];
                taken += 1;
                value
            }
        };
    }
}
