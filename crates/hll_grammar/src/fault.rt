use thiserror::Error;

/// Why tokens spell no model.
#[derive(Clone, Copy, Debug, PartialEq, Eq, Error)]
pub enum SyntaxFault {
    /// No text goes on so: the place of the first token that may not stand there, or the text's end.
    #[error("unexpected at byte {at}")]
    Unexpected { at: usize },
    /// More than 200 levels are open: the place of the token that opens the next one.
    #[error("too deep at byte {at}")]
    Deep { at: usize },
    #[error("out of memory")]
    Memory,
}
