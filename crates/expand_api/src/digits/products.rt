//! The laws of products.

ghost use Rattle.std.specs.Prelude.{ℕ, Bool, ℤ, List};
ghost use Rattle.expand_api.specs.Digits.Products.{HasProductRange, Multiplies, MultipliesNaturals};

/// How many digits a product has.
pub fn product_range()
    ensures { (n m : ℕ) (u v : ℤ) → HasProductRange n m u v }
{}

/// Products row by row. In two's complement the row of the sign digit is subtracted, which is Booth's correction.
pub fn multiplication()
    ensures naturals { (xs ys : List Bool) → MultipliesNaturals xs ys }
    ensures signed_ones { (xs ys : List Bool) → Multiplies xs ys }
{}
