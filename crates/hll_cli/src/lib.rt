//! The commands: they read texts and evidence, decide, check or print them, and say what was found.
#![tactic(auto)]

mod answer;
mod built;
mod check;
mod collect;
mod decision;
mod execution;
mod fault;
mod format;
mod line;
mod prove;
mod report;
mod rules;
mod summary;
mod syntax;
mod table;
mod verdict;

pub use execution::run;
pub use verdict::Verdict;
