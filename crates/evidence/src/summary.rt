//! What a file's evidence shows, in short.

ghost use Rattle.std.specs.Prelude.{◌≡◌, IfOk, replicate};
ghost use Rattle.evidence.specs.declared.summary.Line.TheVariants as line;

use sqlite_items::Items;
use std::alloc::{AllocError, Global};

/// What is shown of an obligation.
#[derive(Clone, Copy, Debug, PartialEq, Eq)]
pub enum Line {
    /// It is proved by induction over windows of so many instants.
    Proved(u32),
    /// A shortest run of so many instants breaks it.
    Falsified(u32),
    /// It was neither proved nor broken in the last round.
    Depth,
    /// The budget was spent on it.
    Conflicts,
    /// The budget was spent on the parts, and no obligation was tried.
    Equivalence,
}

/// A line for each obligation, in order.
#[derive(Debug, Drop)]
pub struct Summary {
    pub lines: Items<Line>,
}

/// A line for each of so many obligations, where none was tried.
pub(crate) fn untried(alloc: Global, count: u64) -> Result<Items<Line>, AllocError>
    ensures { IfOk result (λ lines. lines ≡ replicate count line.Equivalence) }
{
    let mut lines = Items::new(alloc);
    for _ in 0..count {
        lines.push(Line::Equivalence)?;
    }
    Ok(lines)
}
