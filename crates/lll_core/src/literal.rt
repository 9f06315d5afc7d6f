//! Literals, and gates that are no new signal.

ghost use Rattle.std.specs.Prelude.{◌≡◌, ◌≢◌, ℕ, ◌<◌, ◌^◌, ◌*◌, ◌+◌, true, not, ◌||◌, IfSome, IfNone, OnSome};
ghost use Rattle.lll_core.specs.Signals.{signal_of};
ghost use Rattle.lll_core.specs.Tables.{Instant, signal_value, value, are_equal};
ghost use Rattle.lll_core.specs.Drafts.{AreProper};

pub const TRUE: u32 = 0;

pub const FALSE: u32 = 1;

/// The literal of the opposite value.
pub fn opposite(literal: u32) -> u32
    ensures signal { signal_of result ≡ signal_of literal }
    ensures both { result + literal ≡ 4 * signal_of literal + 1 }
    ensures value { (now : Instant) → value now result ≡ not (value now literal) }
    ensures other { (b : ℕ) → b ≢ literal → b ≢ result → signal_of b ≢ signal_of literal }
{
    if literal % 2 == 0 {
        literal + 1
    } else {
        literal - 1
    }
}

/// The literal that stands for a signal itself.
pub fn positive(signal: u32) -> u32
    requires { signal < 2 ^ 31 }
    ensures { result ≡ 2 * signal }
{
    2 * signal
}

/// The literal of `a -> b`, where it takes no gate of its own.
pub fn folded_imp(a: u32, b: u32) -> Option<u32>
    ensures value { IfSome result (λ literal. (now : Instant) → signal_value now 0 ≡ true →
        value now literal ≡ (not (value now a) || value now b)) }
    ensures there { IfSome result (λ literal. (n : ℕ) →
        signal_of a < n → signal_of b < n → signal_of literal < n) }
    ensures proper { IfNone result (AreProper a b) }
    ensures trivial { OnSome result (AreProper a b → ⊥) }
{
    if a == FALSE || b == TRUE || a == b {
        Some(TRUE)
    } else if a == TRUE {
        Some(b)
    } else if b == FALSE || b == opposite(a) {
        Some(opposite(a))
    } else {
        None
    }
}

/// The literal of `a <-> b`, where it takes no gate of its own.
pub fn folded_eqv(a: u32, b: u32) -> Option<u32>
    ensures value { IfSome result (λ literal. (now : Instant) → signal_value now 0 ≡ true →
        value now literal ≡ are_equal (value now a) (value now b)) }
    ensures there { IfSome result (λ literal. (n : ℕ) →
        signal_of a < n → signal_of b < n → signal_of literal < n) }
    ensures proper { IfNone result (AreProper a b) }
    ensures trivial { OnSome result (AreProper a b → ⊥) }
{
    if a == b {
        Some(TRUE)
    } else if b == opposite(a) {
        Some(FALSE)
    } else if a == TRUE {
        Some(b)
    } else if b == TRUE {
        Some(a)
    } else if a == FALSE {
        Some(opposite(b))
    } else if b == FALSE {
        Some(opposite(a))
    } else {
        None
    }
}
