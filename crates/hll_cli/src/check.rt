//! The command `check EVIDENCE`: it says what evidence shows of each obligation, where its claims hold.

ghost use Rattle.std.specs.Prelude.{◌≡◌, IfOk};
ghost use Rattle.ports.specs.Causes.{SameCounts};
ghost use Rattle.ports.specs.Contents.{Tells, SameFiles};
ghost use Rattle.hll_cli.specs.Check.{IsCheckAnswer};
ghost use Rattle.hll_cli.specs.Reading.{view_of, ReadsOnly};
ghost use Rattle.hll_cli.specs.declared.answer.Status.TheVariants as status;

use crate::answer::{Answer, Status};
use crate::fault::Refusal;
use crate::summary::{form_line, long_line, refused_line, status_of, summary};
use evidence::{EvidenceFault, read_and_check};
use ports::Desk;
use std::alloc::{AllocError, Global};

/// Evidence that is refused, with this line.
fn unaccepted(output: Vec<u8>) -> Answer
    ensures status { result.status ≡ status.Unaccepted }
    ensures output { result.output.items ≡ output.items }
{
    Answer {
        status: Status::Unaccepted,
        output,
    }
}

/// Checks the evidence, and answers its summary or why it is refused.
pub fn check<D: Desk>(alloc: Global, desk: &mut D, name: &str) -> Result<Answer, AllocError>
    ensures answer { let view = view_of (D.told desk.old) (D.read_faults desk.old) (D.read_faults desk.new) (D.given desk.old) (D.given desk.new) in
        IfOk result (λ a. IsCheckAnswer view name.now a.status a.output.items) }
    ensures files { Tells (D.told desk.old) (D.told desk.new) SameFiles }
    ensures others { ReadsOnly name.now (view_of (D.told desk.old) (D.read_faults desk.old) (D.read_faults desk.new) (D.given desk.old) (D.given desk.new)) }
    ensures writes { SameCounts (D.write_faults desk.old) (D.write_faults desk.new) }
{
    match read_and_check(alloc, desk, name) {
        Ok(found) => Ok(Answer {
            status: status_of(found.lines.as_slice()),
            output: summary(alloc, found.lines.as_slice())?,
        }),
        Err(EvidenceFault::Failed) => Answer::refused(alloc, name, Refusal::Unread),
        Err(EvidenceFault::Long) => Ok(unaccepted(long_line(alloc)?)),
        Err(EvidenceFault::Form { line }) => Ok(unaccepted(form_line(alloc, line)?)),
        Err(EvidenceFault::Refused { line, cause }) => {
            Ok(unaccepted(refused_line(alloc, line, &cause)?))
        }
        Err(EvidenceFault::Memory) => Err(AllocError),
    }
}
