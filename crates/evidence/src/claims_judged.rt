//! The claims of a text up to the first that fails.

ghost use Rattle.std.specs.Prelude.{◌≡◌, ◌≢◌, ◌+◌, ◌^◌, ◌<◌, [], IfOk, OnOk};
ghost use Rattle.miter.specs.Pairs.{size_of};
ghost use Rattle.evidence.specs.Accepted.{Accepted};
ghost use Rattle.evidence.specs.Claims.{Judges};
ghost use Rattle.evidence.specs.Counts.{HasText};
ghost use Rattle.evidence.specs.Refusals.{line_after, Fails};
ghost use Rattle.evidence.specs.declared.claims_judged.Judged.TheVariants as judged;
ghost use Rattle.evidence.specs.declared.evidence.Evidence.{Evidence};
ghost use Rattle.evidence.specs.declared.reader_due.Due.{Due as DueValue};
ghost use Rattle.evidence.specs.Shown.{Header, Shown, Parts, BeginsSo, header_text};
ghost use Rattle.evidence.specs.Outcomes.{IsPairing, HasFewParts, PairsAll, IsSoFar, ExpectsLine, JudgesLine, IsAllRead, IsRead};

use crate::Cause;
use crate::claim::ClaimFault;
use crate::claims::Claims;
use crate::read_step::ReadStep;
use crate::reader_due::Statement;
use crate::reader_lines::EqualLine;
use lll_core::Lll;
use miter::{MiterFault, MiterLll, miter};
use std::alloc::{AllocError, Global};

/// What is judged so far.
#[derive(Debug, Drop)]
pub(crate) enum Judged {
    /// The two models have this miter, and the line of the parts is still to come.
    Paired(MiterLll),
    /// No claim failed so far.
    Holding(Claims),
    /// The first cause why the claims don't hold, and its line.
    Refused { line: u64, cause: Cause },
}

/// A step that isn't judged leaves its memory too.
fn leave(statement: Statement, room: &mut ReadStep) {
    match statement {
        Statement::Step(step) => *room = step,
        Statement::Log(_)
        | Statement::Row(_)
        | Statement::Model(_)
        | Statement::Entry(_)
        | Statement::End => {}
    }
}

impl Judged {
    /// Both models are read; before the second stands the line with this number.
    pub(crate) fn new(alloc: Global, a: &Lll, b: &Lll, heading: u64) -> Result<Judged, AllocError>
        requires { size_of a.now + size_of b.now < 2 ^ 31 }
        ensures { IfOk result (PairsAll a.now b.now heading) }
    {
        match miter(alloc, a, b) {
            Ok(miter) => Ok(Judged::Paired(miter)),
            Err(MiterFault::Unpaired { name }) => Ok(Judged::Refused {
                line: heading,
                cause: Cause::Unpaired(name),
            }),
            Err(MiterFault::Memory) => Err(AllocError),
        }
    }

    /// The line of the parts, which has this number.
    pub(crate) fn parts(
        self,
        alloc: Global,
        depth: u32,
        conflicts: u32,
        number: u64,
        said: EqualLine,
    ) -> Result<Judged, AllocError>
        ensures { IfOk result (λ now. (h : Header) → depth ≡ h.depth → conflicts ≡ h.conflicts → HasFewParts h → number ≡ line_after (header_text h) →
            IsPairing h self → IsSoFar h (Parts said []) 0 [] now) }
    {
        match self {
            Judged::Paired(miter) => match Claims::new(
                alloc, miter, depth, conflicts, said, number,
            ) {
                Ok(claims) => Ok(Judged::Holding(claims)),
                Err(ClaimFault::Refused { line, cause }) => Ok(Judged::Refused { line, cause }),
                Err(ClaimFault::Memory) => Err(AllocError),
            },
            Judged::Holding(claims) => Ok(Judged::Holding(claims)),
            Judged::Refused { line, cause } => Ok(Judged::Refused { line, cause }),
        }
    }

    /// A claim fails, for this cause in this line.
    fn refuse(&mut self, line: u64, cause: Cause)
        ensures { self.new ≡ judged.Refused line cause }
    {
        *self = Judged::Refused { line, cause };
    }

    /// A line after that, which has this number. A step leaves its memory as room for the next.
    pub(crate) fn take(
        &mut self,
        alloc: Global,
        a: &Lll,
        number: u64,
        statement: Statement,
        room: &mut ReadStep,
    ) -> Result<(), AllocError>
        requires { ExpectsLine a.now self.old number statement }
        ensures { OnOk result (JudgesLine a.now self.old number statement self.new) }
    {
        match self {
            Judged::Paired(_) => Ok(()),
            Judged::Holding(claims) => match claims.take(alloc, a, number, statement, room) {
                Ok(()) => Ok(()),
                Err(ClaimFault::Refused { line, cause }) => {
                    self.refuse(line, cause);
                    Ok(())
                }
                Err(ClaimFault::Memory) => Err(AllocError),
            },
            Judged::Refused { .. } => {
                leave(statement, room);
                Ok(())
            }
        }
    }

    /// Whether all claims hold, after the last line.
    pub(crate) fn outcome(self) -> Result<(), ClaimFault>
        requires { IsRead self }
        ensures judged { (h : Header) (s : Shown) (due : DueValue) → IsSoFar h s 0 [] self → IsAllRead h s due →
            (e : Evidence) → HasText e → BeginsSo h s e → Judges (Accepted e) (Fails e) result }
        ensures told { result ≢ Err ClaimFault.Memory }
    {
        match self {
            Judged::Paired(_) => unreachable!(),
            Judged::Holding(_) => Ok(()),
            Judged::Refused { line, cause } => Err(ClaimFault::Refused { line, cause }),
        }
    }
}
