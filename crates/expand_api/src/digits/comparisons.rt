//! The laws of comparisons.

ghost use Rattle.std.specs.Prelude.{◌≡◌, Bool, List, length};
ghost use Rattle.expand_api.specs.Digits.Comparisons.{ComparesNaturals, ComparesSigned, TestsEquality};

/// Equality digit by digit.
pub fn equality()
    ensures { (xs ys : List Bool) → length xs ≡ length ys → TestsEquality xs ys }
{}

/// Comparison by the highest digit that differs, and by the difference.
pub fn comparison()
    ensures naturals { (xs ys : List Bool) → length xs ≡ length ys → ComparesNaturals xs ys }
    ensures signed_ones { (xs ys : List Bool) → length xs ≡ length ys → ComparesSigned xs ys }
{}
