//! The formulas of bounded runs and of induction steps: a low-level text written out instant by instant, as clauses.
//!
//! Where there are `size` signals, the variable of a signal at an instant is `1 + instant * size + signal`.
//! `specs/Unrollings.antt` says which clauses there are, and `specs/Counterexamples.antt` what their satisfying
//! assignments show.
#![tactic(auto)]

mod clauses;
mod formulas;
mod laws;
mod literal;
mod rows;
mod signals;

pub use formulas::{base, fits, part_base, part_step, step};
pub use laws::{base_is_exact, part_base_is_exact, part_step_is_exact, step_is_exact};
pub use rows::{first_latches, input_rows};
