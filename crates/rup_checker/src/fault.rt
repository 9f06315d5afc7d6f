use thiserror::Error;

/// Why a step is refused.
#[derive(Clone, Copy, Debug, PartialEq, Eq, Error)]
pub enum StepFault {
    /// No clause has this number.
    #[error("no clause has the number {0}")]
    Unknown(u32),
    /// The clause with this number is neither unit when its turn comes nor a false last one.
    #[error("clause {0} is not unit")]
    NotUnit(u32),
    /// There is no hint, or the last one is unit.
    #[error("the hints end without a false clause")]
    NoConflict,
    /// The first literal of the step that is 0 or out of range.
    #[error("the literal {0} is out of range")]
    Literal(i32),
    #[error("out of memory")]
    Memory,
}

/// Why a log is refused.
#[derive(Clone, Copy, Debug, PartialEq, Eq, Error)]
pub enum LogFault {
    /// The first step that is refused, counted from 0.
    #[error("step {step} is refused: {fault}")]
    At { step: u64, fault: StepFault },
    /// Every step is accepted, and the last isn't the empty clause, or there is none.
    #[error("the log does not end with the empty clause")]
    Unended,
    #[error("out of memory")]
    Memory,
}
