ghost use Rattle.std.specs.Prelude.{◌≡◌};

use hll_lexer::Word;
use ports::PortFault;
use std::alloc::AllocError;
use thiserror::Error;

/// Why a file's claims are refused.
#[derive(Debug, Drop)]
pub enum Cause {
    /// The input or latch of this name has no partner, or the numbers of what has this name differ.
    Unpaired(Word),
    /// A formula that is used has too many variables.
    Size,
    /// A step's hint names no clause.
    Unknown(u32),
    /// A step's hint names a clause that is neither unit when its turn comes nor a false last one.
    NotUnit(u32),
    /// A step's hints end without a false clause.
    NoConflict,
    /// A step's literal that is 0 or out of range.
    Literal(i32),
    /// A refutation doesn't end with the empty clause.
    Unended,
    /// A log of a spent budget doesn't have as many steps as the budget.
    Count,
    /// A log of a spent budget isn't busy.
    Idle,
    /// The bits are no inputs of a run that breaks the obligation.
    Trace,
    /// The assignment doesn't satisfy the formula.
    Model,
}

/// Why a file isn't accepted.
#[derive(Debug, Drop, Error)]
pub enum EvidenceFault {
    /// A read of the file failed, and the desk counted it.
    #[error("the file can't be read")]
    Failed,
    /// The file has more than 2^30 bytes.
    #[error("the file is too long")]
    Long,
    /// The file is the text of no value: its first wrong line.
    #[error("line {line}: form")]
    Form { line: u64 },
    /// The claims of the file don't hold: the first cause, and its line.
    #[error("line {line}: refused")]
    Refused { line: u64, cause: Cause },
    #[error("out of memory")]
    Memory,
}

impl From<AllocError> for EvidenceFault {
    ghost use Rattle.evidence.specs.declared.fault.EvidenceFault.TheVariants.{Memory};

    ghost from_gives = { λ _ e. e ≡ Memory };

    fn from(_: AllocError) -> EvidenceFault {
        EvidenceFault::Memory
    }
}

impl From<PortFault> for EvidenceFault {
    ghost use Rattle.evidence.specs.Checking.{fault_of};

    ghost from_gives = { λ f e. e ≡ fault_of f };

    fn from(fault: PortFault) -> EvidenceFault {
        match fault {
            PortFault::Failed => EvidenceFault::Failed,
            PortFault::Memory => EvidenceFault::Memory,
        }
    }
}
