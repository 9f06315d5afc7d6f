//! The operations of intervals.

ghost use Rattle.std.specs.Prelude.{◌≡◌, ◌≤ℤ◌, ◌*ℤ◌, ◌<ℤ◌, ◌⊎◌, pos, negsuc, ◌^◌, ◌-◌, MatchOption, ℤ};
ghost use Rattle.intervals.specs.Answers.{IsInterval, ends};
ghost use Rattle.intervals.specs.Rules.{absolute, difference, greater, hull, modulus, multiple, negation, product, ratio, smaller, sum};
ghost use Rattle.intervals.specs.Products.{IsProduct};

use crate::hull::Hull;
use crate::interval::Interval;

/// The product, or none where it is beyond every interval.
fn product(a: i128, b: i128) -> Option<i128>
    ensures { IsProduct result (a *ℤ b) }
{
    a.checked_mul(b)
}

/// The product, or none where it is beyond every interval.
fn scaled(end: i128, times: u128) -> Option<i128>
    ensures { IsProduct result (pos times *ℤ end) }
{
    if end == 0 {
        return Some(0);
    }
    match i128::try_from(times) {
        Ok(factor) => factor.checked_mul(end),
        Err(_) => None,
    }
}

impl Interval {
    pub fn add(&self, other: &Interval) -> Option<Interval>
        ensures { IsInterval result (sum (ends self.now) (ends other.now)) }
    {
        Interval::new(self.lo + other.lo, self.hi + other.hi)
    }

    pub fn sub(&self, other: &Interval) -> Option<Interval>
        ensures { IsInterval result (difference (ends self.now) (ends other.now)) }
    {
        Interval::new(self.lo - other.hi, self.hi - other.lo)
    }

    pub fn mul(&self, other: &Interval) -> Option<Interval>
        ensures { IsInterval result (product (ends self.now) (ends other.now)) }
    {
        let corner = product(self.lo, other.lo)?;
        let second = product(self.lo, other.hi)?;
        let third = product(self.hi, other.lo)?;
        let last = product(self.hi, other.hi)?;
        Hull::of(corner)
            .with(second)
            .with(third)
            .with(last)
            .interval()
    }

    /// The quotients are truncated toward zero, and those by zero are 0.
    pub fn div(&self, other: &Interval) -> Option<Interval>
        ensures { IsInterval result (ratio (ends self.now) (ends other.now)) }
    {
        Hull::of_quotients(self, other).interval()
    }

    /// The remainders have the sign of the dividend, and those by zero are the dividend.
    pub fn rem(&self, other: &Interval) -> Option<Interval>
        ensures { IsInterval result (modulus (ends self.now) (ends other.now)) }
    {
        let lo = self.lo.min(0);
        let hi = self.hi.max(0);
        if other.lo <= 0 && other.hi >= 0 {
            return Interval::new(lo, hi);
        }
        let size = other.lo.abs().max(other.hi.abs());
        Interval::new(lo.max(1 - size), hi.min(size - 1))
    }

    pub fn hull(&self, other: &Interval) -> Option<Interval>
        ensures { IsInterval result (hull (ends self.now) (ends other.now)) }
    {
        Interval::new(self.lo.min(other.lo), self.hi.max(other.hi))
    }

    pub fn min(&self, other: &Interval) -> Option<Interval>
        ensures { IsInterval result (smaller (ends self.now) (ends other.now)) }
    {
        Interval::new(self.lo.min(other.lo), self.hi.min(other.hi))
    }

    pub fn max(&self, other: &Interval) -> Option<Interval>
        ensures { IsInterval result (greater (ends self.now) (ends other.now)) }
    {
        Interval::new(self.lo.max(other.lo), self.hi.max(other.hi))
    }

    pub fn neg(&self) -> Option<Interval>
        ensures { IsInterval result (negation (ends self.now)) }
    {
        Interval::new(-self.hi, -self.lo)
    }

    pub fn abs(&self) -> Option<Interval>
        ensures { IsInterval result (absolute (ends self.now)) }
    {
        if self.lo >= 0 {
            return Some(*self);
        }
        if self.hi <= 0 {
            return self.neg();
        }
        let lower = -self.lo;
        Interval::new(0, lower.max(self.hi))
    }

    /// The sums of `n` numbers of the interval.
    pub fn times(&self, n: u128) -> Option<Interval>
        ensures { IsInterval result (multiple n (ends self.now)) }
    {
        let lo = scaled(self.lo, n)?;
        let hi = scaled(self.hi, n)?;
        Interval::new(lo, hi)
    }
}
