//! Intervals of whole numbers: for each operation the ends between which its values lie.
#![tactic(auto)]

mod hull;
mod interval;
mod laws;
mod operations;
mod sizes;
#[cfg(test)]
mod tests;

pub use interval::Interval;
pub use laws::{division_truncates, rules_are_sound};
