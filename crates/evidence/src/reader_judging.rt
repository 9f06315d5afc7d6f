//! The claims of a text that is read, judged as its lines come.

ghost use Rattle.std.specs.Prelude.{IfOk, OnOk};
ghost use Rattle.evidence.specs.Telling.{IsToBeJudged, KeepsOn, HasAllRead, AnswersAll};
ghost use Rattle.evidence.specs.declared.reader_said.Said.TheVariants as said;

use crate::claim::ClaimFault;
use crate::claims_following::{judge_end, judge_line, judge_models, judge_parts_line};
use crate::claims_judged::Judged;
use crate::read_step::ReadStep;
use crate::reader_due::Statement;
use crate::reader_lines::EqualLine;
use crate::reader_progress::Progress;
use crate::reader_said::Said;
use crate::{EvidenceFault, Line, Summary};
use sqlite_items::Items;
use std::alloc::{AllocError, Global};

/// A line after that of the parts. A step leaves its memory as room for the next.
fn judge_statement(
    alloc: Global,
    progress: &Progress,
    judged: &mut Option<Judged>,
    number: u64,
    statement: Statement,
    room: &mut ReadStep,
) -> Result<(), AllocError>
    requires { IsToBeJudged judged.old number (said.Line statement) progress.now }
    ensures { OnOk result (KeepsOn judged.old number (said.Line statement) progress.now judged.new) }
{
    match statement {
        Statement::End => Ok(()),
        _ => match judged {
            Some(judged) => judge_line(alloc, &progress.first, judged, number, statement, room),
            None => unreachable!(),
        },
    }
}

/// The last line of the second model.
fn judge_pair(
    alloc: Global,
    progress: &Progress,
    judged: &mut Option<Judged>,
    number: u64,
) -> Result<(), AllocError>
    requires { IsToBeJudged judged.old number said.Models progress.now }
    ensures { OnOk result (KeepsOn judged.old number said.Models progress.now judged.new) }
{
    let now = judge_models(alloc, progress, progress.heading)?;
    *judged = Some(now);
    Ok(())
}

/// The line of the parts.
fn judge_parts(
    alloc: Global,
    progress: &Progress,
    judged: &mut Option<Judged>,
    number: u64,
    parts: EqualLine,
) -> Result<(), AllocError>
    requires { IsToBeJudged judged.old number (said.Parts parts) progress.now }
    ensures { OnOk result (KeepsOn judged.old number (said.Parts parts) progress.now judged.new) }
{
    match judged.take() {
        Some(before) => {
            let now = judge_parts_line(alloc, progress, before, number, parts)?;
            *judged = Some(now);
            Ok(())
        }
        None => unreachable!(),
    }
}

/// A line of this number that says this, after which the progress is so. A step leaves its memory as room for the next.
pub(crate) fn judge_on(
    alloc: Global,
    progress: &Progress,
    judged: &mut Option<Judged>,
    number: u64,
    said: Said,
    room: &mut ReadStep,
) -> Result<(), AllocError>
    requires { IsToBeJudged judged.old number said progress.now }
    ensures { OnOk result (KeepsOn judged.old number said progress.now judged.new) }
{
    match said {
        Said::Nothing => Ok(()),
        Said::Models => judge_pair(alloc, progress, judged, number),
        Said::Parts(parts) => judge_parts(alloc, progress, judged, number, parts),
        Said::Line(statement) => judge_statement(alloc, progress, judged, number, statement, room),
    }
}

/// What is answered of a text that is read to its end, where these lines sum it up.
pub(crate) fn answer(judged: Option<Judged>, lines: Items<Line>) -> Result<Summary, EvidenceFault>
    requires { HasAllRead judged }
    ensures { AnswersAll judged lines result }
{
    match judged {
        Some(judged) => match judge_end(judged) {
            Ok(()) => Ok(Summary { lines }),
            Err(ClaimFault::Refused { line, cause }) => Err(EvidenceFault::Refused { line, cause }),
            Err(ClaimFault::Memory) => Err(EvidenceFault::Memory),
        },
        None => unreachable!(),
    }
}
