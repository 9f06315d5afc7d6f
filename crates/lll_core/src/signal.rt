use hll_lexer::Word;

/// What a signal is. A gate's operands, and a latch's `init` and `next`, are literals.
#[derive(Debug, Drop)]
pub enum Signal {
    /// Always true.
    One,
    /// Free at every instant.
    Input(Word),
    /// At the first instant of a run its value is that of `init`, afterwards that of `next` at the instant
    /// before.
    Latch { name: Word, init: u32, next: u32 },
    /// The first operand implies the second.
    Imp(u32, u32),
    /// The operands are equal.
    Eqv(u32, u32),
}

/// A literal with a name for the reader.
#[derive(Debug, Drop)]
pub struct Named {
    pub name: Word,
    pub literal: u32,
}
