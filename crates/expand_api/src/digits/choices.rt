//! The laws of choices, of maximum and minimum and of intervals.

ghost use Rattle.std.specs.Prelude.{◌≡◌, Bool, List, length};
ghost use Rattle.expand_api.specs.Digits.Bounds.{FitsInterval, TakesExtremes, TestsInterval};
ghost use Rattle.expand_api.specs.Digits.Choices.{Chooses};

/// The choice between two lists.
pub fn multiplexer()
    ensures { (c : Bool) (xs ys : List Bool) → Chooses c xs ys }
{}

/// Maximum and minimum, the test of an interval, and what fits into one.
pub fn bounds()
    ensures extremes { (xs ys : List Bool) → length xs ≡ length ys → TakesExtremes xs ys }
    ensures within { (lo hi xs : List Bool) → length lo ≡ length xs → length hi ≡ length xs →
        TestsInterval lo hi xs }
    ensures fitted { (lo hi xs : List Bool) → length lo ≡ length xs → length hi ≡ length xs →
        FitsInterval lo hi xs }
{}
