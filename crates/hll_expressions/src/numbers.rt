//! Numbers of constants, where they are known.

ghost use Rattle.std.specs.Prelude.{◌≡◌, ℤ, neg_ℤ, pos, unsigned_abs, Some};
ghost use Rattle.std.specs.Ordering.{int_eq};
ghost use Rattle.hll_expressions.specs.Figures.{extreme_known, extreme_of as said_extreme, extreme_range as said_range, truth_number, Compares, IsOther, Makes};
ghost use Rattle.intervals.specs.Answers.{ends};
ghost use Rattle.intervals.specs.Rules.{greater, smaller};
ghost use Rattle.hll_meaning.specs.Judging.{count_of};

use crate::operators::compared;
use hll_tree::Cmp;
use intervals::Interval;

/// The mirror image of a number.
pub fn mirrored(number: Option<i128>) -> Option<i128>
    ensures { Makes neg_ℤ number result }
{
    match number {
        Some(number) => number.checked_neg(),
        None => None,
    }
}

/// The absolute value of a number.
pub fn sized(number: Option<i128>) -> Option<i128>
    ensures { Makes (λ x. pos (unsigned_abs x)) number result }
{
    match number {
        Some(number) => number.checked_abs(),
        None => None,
    }
}

/// The number of a truth value.
pub fn of_truth(value: bool) -> i128
    ensures { result ≡ truth_number value }
{
    if value { 1 } else { 0 }
}

/// Whether a number is known to be zero.
pub fn is_zero(number: Option<i128>) -> bool
    ensures { (x : ℤ) → number ≡ Some x → result ≡ int_eq x (pos 0) }
{
    match number {
        Some(number) => number == 0,
        None => false,
    }
}

/// The number of the other truth value.
pub fn opposite(number: Option<i128>) -> Option<i128>
    ensures { IsOther number result }
{
    match number {
        Some(number) => Some(of_truth(number == 0)),
        None => None,
    }
}

/// The number of a comparison.
pub fn comparing(cmp: Cmp, left: Option<i128>, right: Option<i128>) -> Option<i128>
    ensures { Compares cmp left right result }
{
    let left = left?;
    let right = right?;
    Some(of_truth(compared(cmp, left, right)))
}

/// The least or the greatest of two numbers.
fn number_of_two(greatest: bool, left: i128, right: i128) -> i128
    ensures { result ≡ said_extreme greatest left right }
{
    if greatest {
        left.max(right)
    } else {
        left.min(right)
    }
}

/// The least or the greatest of two numbers, where both are known.
pub fn extreme_number(greatest: bool, left: Option<i128>, right: Option<i128>) -> Option<i128>
    ensures { result ≡ extreme_known greatest left right }
{
    let left = left?;
    let right = right?;
    Some(number_of_two(greatest, left, right))
}

/// The range of the lesser of two numbers, which is never wide.
fn lesser_range(left: &Interval, right: &Interval) -> Interval
    ensures { ends result ≡ smaller (ends left.now) (ends right.now) }
{
    Interval {
        lo: left.lo.min(right.lo),
        hi: left.hi.min(right.hi),
    }
}

/// The range of the greater of two numbers, which is never wide.
fn greater_range(left: &Interval, right: &Interval) -> Interval
    ensures { ends result ≡ greater (ends left.now) (ends right.now) }
{
    Interval {
        lo: left.lo.max(right.lo),
        hi: left.hi.max(right.hi),
    }
}

/// The range of the least or the greatest of two numbers.
pub fn extreme_range(greatest: bool, left: &Interval, right: &Interval) -> Interval
    ensures { ends result ≡ said_range greatest (ends left.now) (ends right.now) }
{
    if greatest {
        greater_range(left, right)
    } else {
        lesser_range(left, right)
    }
}

/// How many numbers a range holds.
pub fn count(range: &Interval) -> u128
    ensures { result ≡ count_of (ends range.now) }
{
    (range.hi - range.lo + 1) as u128
}
