//! How many binary digits the numbers of an interval take.

ghost use Rattle.std.specs.Prelude.{ℕ, ◌≡◌, ◌≤◌};
ghost use Rattle.std.specs.Int.Signed.{mag};
ghost use Rattle.intervals.specs.Answers.{ends};
ghost use Rattle.intervals.specs.Numbers.{DistanceHasDigits, HasDigits, HasSignedDigits, IsLeast};

use crate::interval::Interval;

/// How many binary digits a number has; 0 has none.
fn digits(number: u128) -> u32
    ensures { IsLeast (HasDigits number) result }
{
    128 - number.leading_zeros()
}

/// The number, or what is below -1 of it where it is negative.
fn magnitude(number: i128) -> u128
    ensures { result ≡ mag number }
{
    if number < 0 {
        (-1 - number) as u128
    } else {
        number as u128
    }
}

impl Interval {
    /// The number of binary digits of `hi - lo`, where 0 has none.
    pub fn width(&self) -> u32
        ensures least { IsLeast (DistanceHasDigits (ends self.now)) result }
        ensures bound { result ≤ 64 }
    {
        digits((self.hi - self.lo) as u128)
    }

    /// How many binary digits with a sign the numbers take.
    pub fn span(&self) -> u32
        ensures least { IsLeast (HasSignedDigits (ends self.now)) result }
        ensures bound { result ≤ 65 }
    {
        let lower = magnitude(self.lo);
        let upper = magnitude(self.hi);
        1 + digits(lower.max(upper))
    }
}
