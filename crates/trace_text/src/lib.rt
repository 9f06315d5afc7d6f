//! The text of a trace: the values of a text's input cells, one line for each instant, and the first fault of a text that spells
//! no trace.

#![tactic(auto)]

mod columns;
mod fault;
mod law;
mod reading;
mod size;
mod spelling;
mod trace;
mod values;
mod words;
mod writing;

pub use fault::{TraceFault, TraceKind};
pub use law::{fault_spells_nothing, one_fault, one_trace, spelled_texts_are_readable};
pub use reading::read_trace;
pub use trace::Trace;
pub use writing::{write_rows, write_trace};
