//! Tests of induction over windows, on texts of the low-level language, and what they have to find out of a text first.
#![tactic(auto)]

mod fitting;
#[cfg(test)]
mod obligations;
#[cfg(test)]
mod parts;

pub use fitting::{are_small, has_fit_parts, has_fit_rounds, is_never_different};
