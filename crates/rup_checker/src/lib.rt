//! Clausal proofs by reverse unit propagation: formulas, logs of steps with hints, and their checker.
//!
//! `specs/Formulas.antt` says what satisfies a formula, `specs/Steps.antt` when a step is accepted and why one is
//! refused, `specs/Logs.antt` what an accepted log and a busy one are.
#![tactic(auto)]

mod checker;
mod closing;
mod containment;
mod derivation;
mod fault;
mod formula;
mod hints;
mod known;
mod law;
mod log;
mod marks;
mod occurrences;
mod replay;
mod status;
mod store;
mod verdict;

pub use checker::Checker;
pub use closing::ended_propagation_is_open;
pub use fault::{LogFault, StepFault};
pub use formula::{Formula, MAX_VARIABLES};
pub use law::{
    accepted_is_not_refused, accepted_log_refutes, accepted_step_follows, busy_by_clauses,
    one_refusal,
};
pub use log::{Log, Step};
pub use replay::busy;
pub use store::Store;
pub use verdict::check;
