//! Why a text spells no trace.

ghost use Rattle.std.specs.Prelude.{◌≡◌};

use std::alloc::{AllocError, AllocFailed};
use thiserror::Error;

/// What is wrong with the first wrong line: the first of its faults from left to right.
#[derive(Clone, Copy, Debug, PartialEq, Eq)]
pub enum TraceKind {
    /// There would be more than 65,536 instants, or more than 4,000,000 values of all cells of the text.
    Long,
    /// The number of the instant and a colon don't stand there.
    Instant,
    /// A space, the name of the next cell and `=` don't stand there.
    Cell,
    /// The number or name that stands there is no value of the cell.
    Value,
    /// The line has bytes behind its last cell, or no line feed.
    Ending,
}

/// Why a text isn't read.
#[derive(Clone, Copy, Debug, PartialEq, Eq, Error)]
pub enum TraceFault {
    /// The text spells no trace: the first wrong line, from 1, and what is wrong there.
    #[error("line {line}: {kind:?}")]
    Fault { line: u64, kind: TraceKind },
    #[error("out of memory")]
    Memory,
}

/// Why a line isn't read.
#[derive(Clone, Copy, Debug, PartialEq, Eq)]
pub(crate) enum Unread {
    Wrong(TraceKind),
    Memory,
}

impl From<AllocError> for Unread {
    ghost use Rattle.trace_text.specs.declared.fault.Unread.TheVariants.{Memory};

    ghost from_gives = { λ _ e. e ≡ Memory };

    fn from(_: AllocError) -> Unread {
        Unread::Memory
    }
}

impl From<AllocError> for TraceFault {
    ghost use Rattle.trace_text.specs.declared.fault.TraceFault.TheVariants.{Memory};

    ghost from_gives = { λ _ e. e ≡ Memory };

    fn from(_: AllocError) -> TraceFault {
        TraceFault::Memory
    }
}

impl<T: Drop> From<AllocFailed<T>> for Unread {
    ghost use Rattle.trace_text.specs.declared.fault.Unread.TheVariants.{Memory};

    ghost from_gives = { λ _ e. e ≡ Memory };

    fn from(_: AllocFailed<T>) -> Unread {
        Unread::Memory
    }
}

impl<T: Drop> From<AllocFailed<T>> for TraceFault {
    ghost use Rattle.trace_text.specs.declared.fault.TraceFault.TheVariants.{Memory};

    ghost from_gives = { λ _ e. e ≡ Memory };

    fn from(_: AllocFailed<T>) -> TraceFault {
        TraceFault::Memory
    }
}
