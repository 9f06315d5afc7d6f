//! The kinds and ranges of expressions, and their first static fault, under what names stand for.

#![tactic(auto)]

mod choice;
mod faults;
mod given;
mod join;
mod judging;
mod narrow;
mod numbers;
mod operators;
mod paths;
mod ranges;
mod scope;
mod things;

pub use faults::{StaticFault, fault, push, refuse_if};
pub use given::{Given, fit, truth, whole};
pub use judging::{bounds, judge, judge_noting};
pub use narrow::Narrow;
pub use ranges::{Placed, Ranges};
pub use scope::{Bounds, Index, Scope};
pub use things::{Found, Thing, Things};
