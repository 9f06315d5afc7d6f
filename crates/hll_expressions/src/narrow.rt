//! Whole numbers that ranges hold.

ghost use Rattle.std.specs.Prelude.{◌≡◌, IfSome};
ghost use Rattle.intervals.specs.Ends.{IsWide};

use intervals::Interval;

/// A whole number that a range can hold.
#[derive(Clone, Copy, Debug, PartialEq, Eq)]
pub struct Narrow {
    pub value: i128,
    pub ghost narrow: { ¬ (IsWide (record { lo = value; hi = value })) },
}

impl Narrow {
    ghost use Rattle.intervals.specs.declared.interval.Interval.{Interval};

    pub fn new(value: i128) -> Option<Narrow>
        ensures { IfSome result (λ n. n.value ≡ value) }
    {
        match Interval::new(value, value) {
            Some(_) => Some(Narrow { value }),
            None => None,
        }
    }

    /// The range that holds the number alone.
    pub fn range(&self) -> Interval
        ensures lo { result.lo ≡ self.now.value }
        ensures hi { result.hi ≡ self.now.value }
    {
        Interval {
            lo: self.value,
            hi: self.value,
        }
    }
}
