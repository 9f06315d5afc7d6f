ghost use Rattle.std.specs.Prelude.{◌≤ℤ◌};
ghost use Rattle.intervals.specs.Ends.{IsWide};

/// The whole numbers from `lo` to `hi`: at least one, and all of them in one of the ranges of `u64` and `i64`.
#[derive(Clone, Copy, Debug, PartialEq, Eq)]
pub struct Interval {
    pub lo: i128,
    pub hi: i128,
    pub ghost ordered: { lo ≤ℤ hi },
    pub ghost narrow: { ¬ (IsWide (record { lo = lo; hi = hi })) },
}

const UNSIGNED_MAX: i128 = 0xFFFF_FFFF_FFFF_FFFF;

const SIGNED_MAX: i128 = 0x7FFF_FFFF_FFFF_FFFF;

impl Interval {
    ghost use Rattle.intervals.specs.Answers.{IsNew};

    pub fn new(lo: i128, hi: i128) -> Option<Interval>
        ensures { IsNew result (record { lo = lo; hi = hi }) }
    {
        let unsigned = 0 <= lo && hi <= UNSIGNED_MAX;
        let signed = -1 - SIGNED_MAX <= lo && hi <= SIGNED_MAX;
        if lo <= hi && (unsigned || signed) {
            Some(Interval { lo, hi })
        } else {
            None
        }
    }
}
