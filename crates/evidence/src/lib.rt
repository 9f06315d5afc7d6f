//! Evidence: two low-level texts with what is shown of them, as a file that anyone can check.
//!
//! `specs/Spelling.antt` and `specs/Counts.antt` say which bytes are the text of a value, `specs/Accepted.antt` when a
//! value's claims hold, and `specs/Meaning.antt` what follows from that for the runs of the two texts.
#![tactic(auto)]

mod assignment;
mod checking;
mod claim;
mod claimed_logs;
mod claims;
mod claims_following;
mod claims_judged;
#[cfg(test)]
mod claims_tests;
mod counting;
mod evidence;
mod fault;
mod laws;
mod lines;
mod open_log;
mod read_step;
mod reader_counts;
mod reader_due;
mod reader_feed;
mod reader_fields;
mod reader_judging;
mod reader_laws;
mod reader_lines;
mod reader_progress;
mod reader_said;
#[cfg(test)]
mod reader_tests;
mod refutation;
mod sending;
mod summary;
#[cfg(test)]
mod tests;
mod trace;
mod unit;
mod unread;
mod writing;

pub use checking::read_and_check;
pub use evidence::Evidence;
pub use fault::{Cause, EvidenceFault};
pub use laws::{
    accepted_fails_nowhere, accepted_is_meant, breaks_are_shortest, one_first_failure, one_value,
    proofs_hold_in_both, undecided_ones_break_late,
};
pub use reader_feed::Feed;
pub use reader_laws::{form_spells_nothing, lines_before_form_go_on, one_form, value_or_form};
pub use summary::{Line, Summary};
pub use writing::write_evidence;
