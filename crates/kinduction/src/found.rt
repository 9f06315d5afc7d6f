use rup_checker::Log;
use sqlite_items::Items;

/// A formula of an obligation: the base formula of an instant, counted from 0, or the step formula of a round.
#[derive(Debug, Clone, Copy, PartialEq, Eq)]
pub enum Spot {
    Base(u32),
    Step(u32),
}

/// What was found for an obligation. The logs of the base formulas that were refuted stand in the order of their
/// instants.
#[derive(Debug, Drop)]
pub enum Found {
    /// The obligation is proved by induction over windows of `k` instants.
    Proved {
        k: u32,
        bases: Items<Log>,
        step: Log,
    },
    /// A shortest run breaks the obligation at its last instant: the values of its inputs, in the order of the
    /// signals, instant by instant.
    Falsified {
        bits: Items<Items<bool>>,
        bases: Items<Log>,
    },
    /// In the last round the obligation was neither broken nor proved: an assignment that satisfies its step formula,
    /// the value of variable 1 first.
    Depth {
        step_model: Items<bool>,
        bases: Items<Log>,
    },
    /// The budget was spent at a formula: the learnt clauses.
    Conflicts {
        place: Spot,
        log: Log,
        bases: Items<Log>,
    },
}
