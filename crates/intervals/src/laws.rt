//! The laws of the rules. Each is a function with an empty body, whose contract is the law.

ghost use Rattle.std.specs.Prelude.{ℕ, ℤ, neg_ℤ, pos, ◌*ℤ◌, ◌+ℤ◌, ◌-ℤ◌};
ghost use Rattle.std.specs.Int.{int_max, int_min};
ghost use Rattle.intervals.specs.Ends.{Ends};
ghost use Rattle.intervals.specs.Numbers.{quotient, remainder, size};
ghost use Rattle.intervals.specs.Rules.{absolute, difference, greater, modulus, multiple, negation, product, ratio, smaller, sum};
ghost use Rattle.intervals.specs.Sound.{AreSound, Divides, DividesByZero, HoldsBoth, IsSound, TotalIsSound};

/// Whatever numbers the operands hold, the operation's value for them is in the range of its rule.
pub fn rules_are_sound()
    ensures sums { AreSound sum ◌+ℤ◌ }
    ensures differences { AreSound difference ◌-ℤ◌ }
    ensures products { AreSound product ◌*ℤ◌ }
    ensures quotients { AreSound ratio quotient }
    ensures remainders { AreSound modulus remainder }
    ensures smaller_ones { AreSound smaller int_min }
    ensures greater_ones { AreSound greater int_max }
    ensures either { (a b : Ends) → HoldsBoth a b }
    ensures negations { IsSound negation neg_ℤ }
    ensures sizes { IsSound absolute size }
    ensures multiples { (n : ℕ) → IsSound (multiple n) (λ x. pos n *ℤ x) }
    ensures totals { TotalIsSound }
{}

/// Quotients are truncated toward zero: what is left has the sign of the dividend and is smaller than the divisor.
pub fn division_truncates()
    ensures divided { (a b : ℤ) → Divides a b }
    ensures by_zero { (a : ℤ) → DividesByZero a }
{}
