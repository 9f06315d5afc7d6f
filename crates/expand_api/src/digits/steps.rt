//! The laws of the functions one digit at a time.

ghost use Rattle.std.specs.Prelude.{◌≡◌, ◌<◌, ℕ, Bool, List, length};
ghost use Rattle.expand_api.specs.Digits.Steps.{GoesThroughDividend, GoesThroughReading, GoesThroughRows, GoesUp, GrowsComparisons, HasPlaces, PlacesOfChoice};

/// Each digit of a list by its place.
pub fn places()
    ensures choices { (c : Bool) (xs ys : List Bool) (i : ℕ) → length xs ≡ length ys →
        PlacesOfChoice c xs ys i }
    ensures lists { (c : Bool) (k : ℕ) (xs : List Bool) (i : ℕ) → HasPlaces c k xs i }
{}

/// One digit more at the high end, and from the highest digit down: the steps of a loop.
pub fn digit_by_digit()
    ensures comparisons { (xs ys : List Bool) (t x y : Bool) → length xs ≡ length ys →
        GrowsComparisons xs ys t x y }
    ensures fronts { (xs ys : List Bool) (t : Bool) (i : ℕ) → length xs ≡ length ys → i < length xs →
        GoesUp xs ys t i }
    ensures products { (xs ys : List Bool) (i : ℕ) → GoesThroughRows xs ys i }
    ensures quotients { (xs ys : List Bool) (i : ℕ) → GoesThroughDividend xs ys i }
    ensures readings { (index : List Bool) (rows : List (List Bool)) (other : List Bool) (k : ℕ) →
        GoesThroughReading index rows other k }
{}
