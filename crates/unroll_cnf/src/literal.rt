//! Literals of signals, and those that stand for them in a formula.

ghost use Rattle.std.specs.Prelude.{◌≡◌, ◌+◌, ◌*◌, ◌<◌, ◌≤◌, ◌^◌, pos, neg_ℤ};
ghost use Rattle.lll_core.specs.Signals.{signal_of};
ghost use Rattle.rup_checker.specs.Formulas.{IsLiteral};
ghost use Rattle.unroll_cnf.specs.Clauses.{variable_at, literal_at};
ghost use Rattle.unroll_cnf.specs.Unrollings.{opposite as opposite_of};

/// The literal of the opposite value.
pub fn opposite(literal: u32) -> u32
    ensures value { result ≡ opposite_of literal }
    ensures signal { signal_of result ≡ signal_of literal }
{
    if literal % 2 == 1 {
        literal - 1
    } else {
        literal + 1
    }
}

/// The variable of a signal at an instant, as a literal.
pub fn variable(size: u32, instant: u32, signal: u32) -> i32
    requires few { instant * size + size ≤ 16000000 }
    requires there { signal < size }
    ensures value { result ≡ pos (variable_at size instant signal) }
    ensures in_range { IsLiteral (instant * size + size) result }
{
    (1 + instant * size + signal) as i32
}

/// The literal that stands for a literal at an instant.
pub fn literal_in(size: u32, instant: u32, literal: u32) -> i32
    requires few { instant * size + size ≤ 16000000 }
    requires there { signal_of literal < size }
    ensures value { result ≡ literal_at size instant literal }
    ensures in_range { IsLiteral (instant * size + size) result }
{
    let variable = variable(size, instant, literal / 2);
    if literal % 2 == 1 {
        -variable
    } else {
        variable
    }
}
