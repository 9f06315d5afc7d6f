//! Why a command has no answer of its own.

ghost use Rattle.std.specs.Prelude.{◌≡◌};
ghost use Rattle.hll_cli.specs.Faults.{fault_of_read};
ghost use Rattle.hll_cli.specs.declared.fault.Fault.TheVariants as fault;

use hll_lexer::LineColumn;
use hll_meaning::StaticKind;
use ports::ReadFault;
use std::alloc::AllocError;
use thiserror::Error;

/// The first mistake of a text. Its name is printed.
#[derive(Clone, Copy, Debug, PartialEq, Eq, Error)]
pub enum Mistake {
    #[error("no token, blank or comment begins here")]
    Stray,
    #[error("a comment or a name in quotes isn't closed")]
    Unclosed,
    #[error("the number is too great")]
    Number,
    #[error("no text goes on so")]
    Unexpected,
    #[error("too many levels are open")]
    Deep,
    /// A text of the language breaks a static rule.
    #[error("a static rule is broken: {0:?}")]
    Static(StaticKind),
}

/// What is wrong with a file that a command reads. It is printed.
#[derive(Clone, Copy, Debug, PartialEq, Eq, Error)]
pub enum Refusal {
    /// A read failed.
    #[error("the file could not be read")]
    Unread,
    /// The file has more bytes than a text may have.
    #[error("the file is too long")]
    Long,
    /// The text isn't one of the language, or breaks a static rule.
    #[error("{0} at {1:?}")]
    Misplaced(Mistake, LineColumn),
    /// The text has a form that isn't built, or passes a limit.
    #[error("the text has a form that isn't built")]
    Unbuilt,
}

/// Why a command has no answer of its own.
#[derive(Clone, Copy, Debug, PartialEq, Eq, Error)]
pub enum Fault {
    #[error("the file is refused")]
    Refused(Refusal),
    #[error("out of memory")]
    Memory,
}

impl From<ReadFault> for Fault {
    ghost from_gives = { λ read fault. fault ≡ fault_of_read read };

    fn from(read: ReadFault) -> Fault {
        match read {
            ReadFault::Failed => Fault::Refused(Refusal::Unread),
            ReadFault::Long => Fault::Refused(Refusal::Long),
            ReadFault::Memory => Fault::Memory,
        }
    }
}

impl From<AllocError> for Fault {
    ghost from_gives = { λ _ result. result ≡ fault.Memory };

    fn from(_error: AllocError) -> Fault {
        Fault::Memory
    }
}
