//! The laws of quotients and remainders.

ghost use Rattle.std.specs.Prelude.{◌≡◌, Bool, List, length};
ghost use Rattle.expand_api.specs.Digits.Quotients.{DividesNaturals, DividesSigned};

/// Quotient and remainder without a sign.
pub fn restoring_division()
    ensures { (xs ys : List Bool) → DividesNaturals xs ys }
{}

/// Quotient and remainder in two's complement, truncated toward zero.
pub fn signed_division()
    ensures { (xs ys : List Bool) → length xs ≡ length ys → DividesSigned xs ys }
{}
