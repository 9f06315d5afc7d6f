use rup_checker::Log;

/// What a search found.
#[derive(Debug, Drop)]
pub enum Answer {
    /// A satisfying assignment, the value of variable 1 first.
    Sat(Vec<bool>),
    /// A log that refutes the formula.
    Unsat(Log),
    /// The learnt clauses of a search whose budget is spent.
    Spent(Log),
}
