//! The static rules: whether a text is well formed, and the first fault where it isn't.

#![tactic(auto)]

mod checked;
mod declare;
mod define;
mod elements;
mod measure;
mod passes;
mod range_table;
mod ranges;
mod seen;
mod settle;
mod sorts;
mod tables;
mod variables;
mod written;

pub use checked::{Checked, check};
pub use hll_expressions::StaticFault;
pub use variables::{Role, Variable};
