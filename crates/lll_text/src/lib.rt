//! The text of a low-level model: its one spelling, and the first fault of a text that spells none.
#![tactic(auto)]

mod draft;
mod fault;
mod field;
mod law;
mod names;
mod reading;
mod signal;
mod writing;

pub use fault::{LllFault, LllKind};
pub use law::{
    fault_hangs_on_its_lines, fault_spells_nothing, lines_are_counted, lines_go_on, one_fault,
    one_spelling, value_or_fault,
};
pub use reading::read_lll;
pub use writing::write_lll;
