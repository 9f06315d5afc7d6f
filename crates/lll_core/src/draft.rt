ghost use Rattle.std.specs.Prelude.{◌≡◌};
ghost use Rattle.lll_core.specs.Drafts.{signal_in, with_next as with_next_of};

use crate::Signal;
use crate::literal::TRUE;
use hll_lexer::Word;

/// A signal of a value that is being built.
#[derive(Debug, Drop)]
pub enum Draft {
    /// As it will be.
    Whole(Signal),
    /// A latch that waits for its next.
    Waiting { name: Word, init: u32 },
}

/// A latch with this next. What is no latch stays.
pub fn with_next(draft: Draft, next: u32) -> Draft
    ensures { result ≡ with_next_of next draft }
{
    match draft {
        Draft::Waiting { name, init } => Draft::Whole(Signal::Latch { name, init, next }),
        Draft::Whole(Signal::Latch { name, init, .. }) => Draft::Whole(Signal::Latch {
            name,
            init,
            next,
        }),
        other => other,
    }
}

/// The signal of a draft; a latch that waits for its next gets the literal that is always true.
pub fn into_signal(draft: Draft) -> Signal
    ensures { result ≡ signal_in draft }
{
    match draft {
        Draft::Whole(signal) => signal,
        Draft::Waiting { name, init } => Signal::Latch {
            name,
            init,
            next: TRUE,
        },
    }
}
