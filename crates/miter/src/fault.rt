//! Why there is no miter.

ghost use Rattle.std.specs.Prelude.{◌≡◌};

use hll_lexer::Word;
use std::alloc::{AllocError, AllocFailed};
use thiserror::Error;

/// Why there is no miter of two models.
#[derive(Debug, Drop, Error)]
pub enum MiterFault {
    /// The input or latch of this name has no partner; or the numbers of what has this name differ, `constraints`
    /// or `obligations`.
    #[error("unpaired: {name:?}")]
    Unpaired { name: Word },
    #[error("out of memory")]
    Memory,
}

impl From<AllocError> for MiterFault {
    ghost use Rattle.miter.specs.declared.fault.MiterFault.TheVariants.{Memory};

    ghost from_gives = { λ _ e. e ≡ Memory };

    fn from(_: AllocError) -> MiterFault {
        MiterFault::Memory
    }
}

impl<T: Drop> From<AllocFailed<T>> for MiterFault {
    ghost use Rattle.miter.specs.declared.fault.MiterFault.TheVariants.{Memory};

    ghost from_gives = { λ _ e. e ≡ Memory };

    fn from(_: AllocFailed<T>) -> MiterFault {
        MiterFault::Memory
    }
}
