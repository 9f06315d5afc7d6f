//! The laws of sums, differences, negation and absolute values.

ghost use Rattle.std.specs.Prelude.{◌≡◌, ℕ, Bool, List, length};
ghost use Rattle.expand_api.specs.Digits.Sums.{AddsDigits, AddsNaturals, AddsSigned, GrowsSum, IsSum, IsSumOf, Negates, Subtracts, SubtractsNaturals, TakesAbsolute, carry_into, sum};

/// Three digits, as the two digits of their sum.
pub fn full_adder()
    ensures { (x y z : Bool) → AddsDigits x y z }
{}

/// Sums by ripple carry.
pub fn ripple_carry()
    ensures grown { (xs ys : List Bool) (carry x y : Bool) → length xs ≡ length ys →
        GrowsSum xs ys carry x y }
    ensures places { (xs ys : List Bool) (carry : Bool) → length xs ≡ length ys →
        IsSum xs ys carry (sum xs ys carry) (carry_into xs ys carry) }
    ensures by_places { (xs ys : List Bool) (carry : Bool) (s : List Bool) (carries : ℕ → Bool) →
        IsSum xs ys carry s carries → IsSumOf xs ys carry s carries }
    ensures naturals { (xs ys : List Bool) (carry : Bool) → length xs ≡ length ys →
        AddsNaturals xs ys carry }
    ensures signed_ones { (xs ys : List Bool) (carry : Bool) → length xs ≡ length ys →
        AddsSigned xs ys carry }
{}

/// Differences by the complement and a carry of 1.
pub fn difference()
    ensures naturals { (xs ys : List Bool) → length xs ≡ length ys → SubtractsNaturals xs ys }
    ensures signed_ones { (xs ys : List Bool) → length xs ≡ length ys → Subtracts xs ys }
{}

/// Negation by the complement and a carry of 1.
pub fn negation()
    ensures { (xs : List Bool) → Negates xs }
{}

/// The absolute value.
pub fn absolute_value()
    ensures { (xs : List Bool) → TakesAbsolute xs }
{}
