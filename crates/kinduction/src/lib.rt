//! Obligations are tried by induction over windows of growing length, and the parts of a miter by windows of two
//! instants.
//!
//! `specs/Rounds.antt` and `specs/Parts.antt` say what the answers promise of formulas and logs, `specs/Runs.antt`
//! what follows from them for the runs of the model alone.
#![tactic(auto)]

mod comparing;
mod deciding;
mod equal;
mod found;
mod laws;
mod sharing;
mod sizes;

pub use comparing::equivalence;
pub use deciding::decide;
pub use equal::Equal;
pub use found::{Found, Spot};
pub use laws::{breaks_are_shortest, proofs_hold, shown_parts_stay, small_models_fit};
pub use sharing::decide_all;
pub use sizes::{has_few_parts, is_small};
