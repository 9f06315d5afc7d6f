//! Why a text spells no model.

ghost use Rattle.std.specs.Prelude.{◌≡◌};

use std::alloc::{AllocError, AllocFailed};
use thiserror::Error;

/// What is wrong with the first wrong line: the first of its faults from left to right.
#[derive(Clone, Copy, Debug, PartialEq, Eq)]
pub enum LllKind {
    /// No line that may stand here begins so.
    Word,
    /// No number stands there, it isn't the number of the line's signal, or it names no signal.
    Number,
    /// An operand or an init doesn't name a lower signal.
    Order,
    /// A name is empty, has a byte that none may have, or is that of an earlier input or latch.
    Name,
    /// The line has bytes too many or no line feed, or there is no further line.
    Ending,
}

/// Why a text isn't read.
#[derive(Clone, Copy, Debug, PartialEq, Eq, Error)]
pub enum LllFault {
    /// The text spells no model: the first wrong line, from 1, and what is wrong there.
    #[error("line {line}: {kind:?}")]
    Fault { line: u64, kind: LllKind },
    #[error("out of memory")]
    Memory,
}

/// Why a line isn't read.
#[derive(Clone, Copy, Debug, PartialEq, Eq)]
pub(crate) enum Unread {
    Wrong(LllKind),
    Memory,
}

impl From<AllocError> for Unread {
    ghost use Rattle.lll_text.specs.declared.fault.Unread.TheVariants.{Memory};

    ghost from_gives = { λ _ e. e ≡ Memory };

    fn from(_: AllocError) -> Unread {
        Unread::Memory
    }
}

impl<T: Drop> From<AllocFailed<T>> for Unread {
    ghost use Rattle.lll_text.specs.declared.fault.Unread.TheVariants.{Memory};

    ghost from_gives = { λ _ e. e ≡ Memory };

    fn from(_: AllocFailed<T>) -> Unread {
        Unread::Memory
    }
}
