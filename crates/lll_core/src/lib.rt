//! The low-level language: a model as a list of signals, each a truth value at every instant.
//!
//! A literal is `2 * signal + sign`, with sign 1 for the opposite of the signal: literal 0 is true, 1 is false.
//! `specs/Tables.antt` says which tables of truth values a list of signals allows.
#![tactic(auto)]

mod builder;
mod draft;
mod evaluation;
mod laws;
mod literal;
mod lll;
mod node;
mod signal;
#[cfg(test)]
mod tests;

pub use builder::Builder;
pub use draft::Draft;
pub use evaluation::eval_into;
pub use laws::{earlier_gates_hold, one_run, one_window, rows_make_tables};
pub use lll::Lll;
pub use signal::{Named, Signal};
