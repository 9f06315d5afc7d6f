//! The laws of lists and the numbers that they spell.

ghost use Rattle.std.specs.Prelude.{◌≡◌, ℕ, Bool, ℤ, List, length};
ghost use Rattle.expand_api.specs.Digits.Values.{CutsCode, CutsValue, HasEnds, HasRange, HasSign, IsExact, IsSpelled, IsUnique, KeepsCode, KeepsNumber, KeepsValue, SpellsNatural, SpellsSigned};

/// Lists and numbers: a list of each length for each number in range, and no second one.
pub fn unique_spelling()
    ensures range { (xs : List Bool) → HasRange xs }
    ensures unique { (xs ys : List Bool) → length xs ≡ length ys → IsUnique xs ys }
    ensures naturals { (n v : ℕ) → SpellsNatural n v }
    ensures signed_ones { (n : ℕ) (v : ℤ) → SpellsSigned n v }
    ensures lists { (xs : List Bool) → IsSpelled xs }
{}

/// Two's complement beside the value without a sign.
pub fn two_complement()
    ensures sign { (xs : List Bool) → HasSign xs }
    ensures ends { (n : ℕ) (v : ℤ) → HasEnds n v }
    ensures exact { (n : ℕ) (u v : ℤ) → IsExact n u v }
{}

/// Codes: the digits of `v - lo`, where `lo` is the lowest number of a cell, and `v` back.
pub fn codes()
    ensures numbers { (n : ℕ) (lo v : ℤ) → KeepsNumber n lo v }
    ensures back { (lo : ℤ) (xs : List Bool) → KeepsCode lo xs }
    ensures cut { (n : ℕ) (lo v : ℤ) (xs : List Bool) → CutsCode n lo v xs }
{}

/// Sign extension, extension without a sign, and cutting digits off.
pub fn extension()
    ensures longer { (k : ℕ) (xs : List Bool) → KeepsValue k xs }
    ensures shorter { (k : ℕ) (xs : List Bool) → CutsValue k xs }
{}
