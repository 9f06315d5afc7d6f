/// Why a literal is true.
#[derive(Clone, Copy, Debug)]
pub enum Reason {
    /// It was decided.
    Decision,
    /// Every other literal of the clause with this number was false.
    Clause(u32),
}

/// A literal that is true.
#[derive(Clone, Copy, Debug)]
pub struct Assigned {
    pub literal: i32,
    pub reason: Reason,
}
