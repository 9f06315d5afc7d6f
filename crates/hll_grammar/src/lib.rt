//! Parses the tokens of a text into its tree.
#![tactic(auto)]

mod cursor;
mod definitions;
mod expression;
mod fault;
mod law;
mod model;
mod nodes;
mod primary;
mod quantifier;
mod reading;
mod types;

pub use fault::SyntaxFault;
pub use law::{fault_spells_nothing, one_fault, one_model};
pub use model::parse;
