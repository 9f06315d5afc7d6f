//! Why claims aren't taken to hold.

use crate::Cause;
use std::alloc::AllocError;

/// Why claims aren't taken to hold.
#[derive(Debug, Drop)]
pub(crate) enum ClaimFault {
    /// They don't hold, for this cause in this line.
    Refused { line: u64, cause: Cause },
    Memory,
}

impl From<AllocError> for ClaimFault {
    ghost use Rattle.std.specs.Prelude.{◌≡◌};
    ghost use Rattle.evidence.specs.declared.claim.ClaimFault.TheVariants.{Memory};

    ghost from_gives = { λ _ e. e ≡ Memory };

    fn from(_: AllocError) -> ClaimFault {
        ClaimFault::Memory
    }
}
