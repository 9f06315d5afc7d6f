//! The outside as the program meets it: files by name, a sink for its output, and a gate between threads.
//!
//! A port counts its faults, so that an answer of a fault has a cause that a contract can name, and the bytes
//! of each file that it gave. A port may tell what it holds, and then contracts say what each call reads and
//! writes.
#![tactic(auto)]

mod copying;
mod desk;
mod desk_counts;
mod fault;
mod file_desk;
mod file_list;
mod file_text;
mod gate;
mod memory_desk;
mod memory_sink;
mod named;
mod open_files;
mod out_sink;
mod sink;
mod sure_desk;
mod sure_sink;

pub use desk::{Desk, put_all, read_text};
pub use fault::{PortFault, ReadFault};
pub use file_desk::FileDesk;
pub use file_text::FileText;
pub use gate::{Gate, OpenGate};
pub use memory_desk::MemoryDesk;
pub use memory_sink::MemorySink;
pub use out_sink::OutSink;
pub use sink::{Sink, write_all};
pub use sure_desk::SureDesk;
pub use sure_sink::SureSink;

#[cfg(test)]
mod tests;
