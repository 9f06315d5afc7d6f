//! A search for a satisfying assignment that learns a clause from each conflict: a satisfying assignment, a log that
//! refutes the formula, or a log of as many learnt clauses as the budget allows.
//!
//! `specs/Answers.antt` says what the answers promise, `specs/Watches.antt` where the watches of a clause stand,
//! `specs/Trails.antt` what justifies a literal, `specs/Searches.antt` what the state of a search keeps.
#![tactic(auto)]

mod analysis;
mod answer;
mod law;
mod literals;
mod order;
mod search;
mod solver;
mod trail;
mod watches;

pub use answer::Answer;
pub use law::{busy_logs_are_short, settled_searches_are_complete};
pub use rup_checker::Store;
pub use search::Search;
pub use solver::{MAX_BUDGET, solve};
pub use trail::{Assigned, Reason};
