//! When the formulas are satisfied. Each law is a function with an empty body.

ghost use Rattle.std.specs.Prelude.{ℕ, ◌+◌, ◌<◌, length};
ghost use Rattle.lll_core.specs.declared.lll.Lll.{Lll};
ghost use Rattle.miter.specs.declared.parts.MiterLll.{MiterLll};
ghost use Rattle.unroll_cnf.specs.Unrollings.{base_formula, step_formula, part_base_formula, part_step_formula};
ghost use Rattle.unroll_cnf.specs.Counterexamples.{IsCounterexample, IsInductionCounterexample, IsPartCounterexample, IsPartInductionCounterexample, Describes};

/// A base formula is satisfiable where a run of `j + 1` instants meets assume and constraints throughout and has
/// the obligation false at the last, and nowhere else.
pub fn base_is_exact()
    ensures { (l : Lll) (p j : ℕ) → p < length l.obligations →
        Describes (base_formula l p j).clauses l.signals (j + 1) (IsCounterexample l p j) }
{}

/// A step formula is satisfiable where a window of `k + 1` instants has keep at the first, meets assume and
/// constraints throughout, and has the obligation true at the first `k` and false at the last, and nowhere else.
pub fn step_is_exact()
    ensures { (l : Lll) (p k : ℕ) → p < length l.obligations →
        Describes (step_formula l p k).clauses l.signals (k + 1) (IsInductionCounterexample l p k) }
{}

/// The base formula of a part is satisfiable where a run of one instant meets assume and has the part false, and
/// nowhere else.
pub fn part_base_is_exact()
    ensures { (m : MiterLll) (i : ℕ) → i < length m.parts →
        Describes (part_base_formula m i).clauses m.lll.signals 1 (IsPartCounterexample m i) }
{}

/// The step formula of a part is satisfiable where a window of two instants meets assume at both, all parts at the
/// first, and has the part false at the second, and nowhere else.
pub fn part_step_is_exact()
    ensures { (m : MiterLll) (i : ℕ) → i < length m.parts →
        Describes (part_step_formula m i).clauses m.lll.signals 2 (IsPartInductionCounterexample m i) }
{}
