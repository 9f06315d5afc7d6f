ghost use Rattle.std.specs.Prelude.{◌≡◌, ◌∷◌, ◌++◌, [], IfErr, OnOk};
ghost use Rattle.hll_expressions.specs.declared.faults.StaticFault.TheVariants.{Fault, Memory};
ghost use Rattle.hll_expressions.specs.Answers.{RefusesIf};

use hll_meaning::StaticKind;
use std::alloc::AllocError;
use thiserror::Error;

/// Why a text isn't accepted.
#[derive(Clone, Copy, Debug, PartialEq, Eq, Error)]
pub enum StaticFault {
    /// The first fault, and the byte offset of its place.
    #[error("{kind:?} at byte {at}")]
    Fault { kind: StaticKind, at: u64 },
    #[error("out of memory")]
    Memory,
}

impl From<AllocError> for StaticFault {
    ghost use Rattle.hll_expressions.specs.declared.faults.StaticFault.TheVariants.{Memory};

    ghost from_gives = { λ _ fault. fault ≡ Memory };

    fn from(_error: AllocError) -> StaticFault {
        StaticFault::Memory
    }
}

/// A fault of a kind at a place.
pub fn fault(kind: StaticKind, at: u64) -> StaticFault
    ensures { result ≡ Fault kind at }
{
    StaticFault::Fault { kind, at }
}

/// Refuses what is wrong.
pub fn refuse_if(wrong: bool, kind: StaticKind, at: u64) -> Result<(), StaticFault>
    ensures { RefusesIf wrong kind at result }
{
    if wrong { Err(fault(kind, at)) } else { Ok(()) }
}

/// Appends to a list.
pub fn push<T: Drop>(list: &mut Vec<T>, item: T) -> Result<(), StaticFault>
    ensures pushed { OnOk result (list.new.items ≡ list.old.items ++ item ∷ []) }
    ensures memory { IfErr result (λ wrong. wrong ≡ Memory) }
{
    match list.push(item) {
        Ok(()) => Ok(()),
        Err(_) => Err(StaticFault::Memory),
    }
}
