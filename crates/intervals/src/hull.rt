ghost use Rattle.std.specs.Prelude.{◌≡◌, ◌≤ℤ◌, ◌∷◌, [], pos};
ghost use Rattle.std.specs.Int.{w128};
ghost use Rattle.intervals.specs.Answers.{IsInterval, ends};
ghost use Rattle.intervals.specs.Hulls.{extended, reached};
ghost use Rattle.intervals.specs.Rules.{end_quotients, ends_above_zero, ends_below_zero, ratio, zero_of};
ghost use Rattle.intervals.specs.Numbers.{quotient};

use crate::interval::Interval;

/// The ends of the numbers that were taken so far.
#[derive(Clone, Copy)]
pub(crate) struct Hull {
    lo: i128,
    hi: i128,
}

/// The quotient of the lower ends.
fn first_quotient(dividend: &Interval, divisor: &Interval) -> i128
    ensures { result ≡ quotient dividend.now.lo divisor.now.lo }
{
    if divisor.lo == 0 {
        0
    } else {
        dividend.lo / divisor.lo
    }
}

impl Hull {
    /// The quotients of both ends by the parts of the divisor below and above 0, and 0 where it holds that.
    pub(crate) fn of_quotients(dividend: &Interval, divisor: &Interval) -> Hull
        ensures { reached result ≡ ratio (ends dividend.now) (ends divisor.now) }
    {
        Hull::of(first_quotient(dividend, divisor))
            .with_below_zero(dividend, divisor)
            .with_above_zero(dividend, divisor)
            .with_zero(divisor)
    }

    pub(crate) fn of(value: i128) -> Hull
        ensures { reached result ≡ record { lo = value; hi = value } }
    {
        Hull {
            lo: value,
            hi: value,
        }
    }

    pub(crate) fn with(self, value: i128) -> Hull
        ensures { reached result ≡ extended (reached self) (value ∷ []) }
    {
        Hull {
            lo: self.lo.min(value),
            hi: self.hi.max(value),
        }
    }

    /// With the quotients of both ends.
    fn with_quotients(self, dividend: &Interval, divisor: i128) -> Hull
        requires { ¬ (divisor ≡ pos 0) }
        ensures { reached result ≡ extended (reached self) (end_quotients (ends dividend.now) (divisor ∷ [])) }
    {
        self.with(dividend.lo / divisor).with(dividend.hi / divisor)
    }

    /// With the quotients by the part of the divisor below 0.
    fn with_below_zero(self, dividend: &Interval, divisor: &Interval) -> Hull
        ensures { reached result ≡ extended (reached self) (end_quotients (ends dividend.now) (ends_below_zero (ends divisor.now))) }
    {
        if divisor.lo < 0 {
            self.with_quotients(dividend, divisor.lo)
                .with_quotients(dividend, divisor.hi.min(-1))
        } else {
            self
        }
    }

    /// With the quotients by the part of the divisor above 0.
    fn with_above_zero(self, dividend: &Interval, divisor: &Interval) -> Hull
        ensures { reached result ≡ extended (reached self) (end_quotients (ends dividend.now) (ends_above_zero (ends divisor.now))) }
    {
        if divisor.hi > 0 {
            self.with_quotients(dividend, divisor.lo.max(1))
                .with_quotients(dividend, divisor.hi)
        } else {
            self
        }
    }

    /// With 0, where the divisor holds it.
    fn with_zero(self, divisor: &Interval) -> Hull
        ensures { reached result ≡ extended (reached self) (zero_of (ends divisor.now)) }
    {
        if divisor.lo <= 0 && divisor.hi >= 0 {
            self.with(0)
        } else {
            self
        }
    }

    pub(crate) fn interval(self) -> Option<Interval>
        requires { self.lo ≤ℤ self.hi }
        ensures { IsInterval result (reached self) }
    {
        Interval::new(self.lo, self.hi)
    }
}
