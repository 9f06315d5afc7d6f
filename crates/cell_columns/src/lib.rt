//! The cells of variables: their names as they are printed, and their values.

#![tactic(auto)]

mod columns;
mod spelling;

pub use columns::{Column, Values, push_columns};
