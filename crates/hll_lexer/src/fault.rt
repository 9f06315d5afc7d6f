ghost use Rattle.std.specs.Prelude.{◌≡◌};
ghost use Rattle.hll_lexer.specs.Tokens.{fault_at};

use thiserror::Error;

/// Why a text has no tokens, with the byte offset of the first place at which it has none.
#[derive(Clone, Copy, Debug, PartialEq, Eq, Error)]
pub enum LexFault {
    /// No token, blank or comment begins there.
    #[error("no token begins at byte {at}")]
    Stray { at: usize },
    /// A comment or a name in quotes that begins there isn't closed.
    #[error("a comment or a quote at byte {at} is not closed")]
    Unclosed { at: usize },
    /// The number there is above `i128::MAX`.
    #[error("the number at byte {at} is too great")]
    Number { at: usize },
    #[error("out of memory")]
    Memory,
}

/// What is wrong at a place.
#[derive(Clone, Copy)]
pub(crate) enum Fault {
    Stray,
    Unclosed,
    Number,
}

impl Fault {
    pub(crate) fn at(self, at: usize) -> LexFault
        ensures { result ≡ fault_at at self }
    {
        match self {
            Fault::Stray => LexFault::Stray { at },
            Fault::Unclosed => LexFault::Unclosed { at },
            Fault::Number => LexFault::Number { at },
        }
    }
}
