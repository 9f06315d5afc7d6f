use rup_checker::Log;
use sqlite_items::Items;

/// What was found for the parts of a miter.
#[derive(Debug, Drop)]
pub enum Equal {
    /// Two logs for each part: of its base formula, then of its step formula.
    Shown { logs: Items<Log> },
    /// The budget was spent at the step formula of a part, or at its base formula. Parts count from 0.
    Conflicts { part: u32, stepping: bool, log: Log },
}
