//! Judging that keeps step with a reader, after the models.

ghost use Rattle.std.specs.Prelude.{◌≢◌, IfOk, OnOk};
ghost use Rattle.evidence.specs.Following.{HasBothModels, FollowsBoth, FollowsParts, IsLineAfter, FollowsAll, HasFollowed, EndsSo};

use crate::claim::ClaimFault;
use crate::claims_judged::Judged;
use crate::read_step::ReadStep;
use crate::reader_due::Statement;
use crate::reader_lines::EqualLine;
use crate::reader_progress::Progress;
use lll_core::Lll;
use std::alloc::{AllocError, Global};

/// The two models, of which the second follows the line of this number.
pub(crate) fn judge_models(
    alloc: Global,
    progress: &Progress,
    heading: u64,
) -> Result<Judged, AllocError>
    requires { HasBothModels progress.now }
    ensures { IfOk result (FollowsBoth progress.now heading) }
{
    match &progress.first {
        Some(a) => match &progress.second {
            Some(b) => Judged::new(alloc, a, b, heading),
            None => unreachable!(),
        },
        None => unreachable!(),
    }
}

/// The line of the parts, which has this number.
pub(crate) fn judge_parts_line(
    alloc: Global,
    progress: &Progress,
    judged: Judged,
    number: u64,
    said: EqualLine,
) -> Result<Judged, AllocError>
    ensures { IfOk result (FollowsParts progress.now judged number said) }
{
    judged.parts(alloc, progress.depth, progress.conflicts, number, said)
}

/// The line of this number, which is due after the line of the parts. The first model is that of the progress, before
/// and after the line. A step leaves its memory as room for the next.
pub(crate) fn judge_line(
    alloc: Global,
    first: &Option<Lll>,
    judged: &mut Judged,
    number: u64,
    statement: Statement,
    room: &mut ReadStep,
) -> Result<(), AllocError>
    requires { IsLineAfter first.now judged.old number statement }
    ensures { OnOk result (FollowsAll first.now judged.old number statement judged.new) }
{
    match first {
        Some(a) => judged.take(alloc, a, number, statement, room),
        None => unreachable!(),
    }
}

/// Whether the claims hold, where the last line is due.
pub(crate) fn judge_end(judged: Judged) -> Result<(), ClaimFault>
    requires { HasFollowed judged }
    ensures judged { EndsSo judged result }
    ensures told { result ≢ Err ClaimFault.Memory }
{
    judged.outcome()
}
