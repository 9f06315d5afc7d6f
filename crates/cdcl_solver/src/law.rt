//! The laws of the search: of its answers, and of its state.

ghost use Rattle.std.specs.Prelude.{◌≤◌, ◌^◌, ℕ, List, length, Contains};
ghost use Rattle.rup_checker.specs.Formulas.{Cnf};
ghost use Rattle.rup_checker.specs.Logs.{IsBusy, IsComplete};
ghost use Rattle.rup_checker.specs.declared.log.Step.{Step};
ghost use Rattle.cdcl_solver.specs.Searches.{Searched, IsSearch, IsSettled, taken};

/// A busy log has no more steps than there are consistent sets of literals, since no two of its steps are the same
/// set. This is a law: its body is empty.
pub fn busy_logs_are_short()
    ensures { (f : Cnf) (steps : List Step) → IsBusy f steps → length steps ≤ 3 ^ f.variables }
{}

/// A settled search has no false clause, and no unit clause: where all literals of a clause but one are false, that one
/// is true. This is a law: its body is empty.
pub fn settled_searches_are_complete()
    ensures { (s : Searched) → IsSearch s → IsSettled s → IsComplete s.clauses (Contains (taken s)) }
{}
