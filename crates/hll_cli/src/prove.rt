//! The command `prove MODEL`: it decides each obligation of the model.

ghost use Rattle.std.specs.Prelude.{◌≡◌, Err, IfOk};
ghost use Rattle.ports.specs.Causes.{SameCounts};
ghost use Rattle.ports.specs.Contents.{Tells, SameFiles};
ghost use Rattle.hll_cli.specs.Prove.{IsDecided, IsTextRefusal, IsProveAnswer};
ghost use Rattle.hll_cli.specs.Reading.{view_of, ReadsOnly};
ghost use Rattle.hll_cli.specs.Texts.{IsUnanswered};
ghost use Rattle.hll_cli.specs.declared.fault.Refusal.{Refusal as TheRefusal};
ghost use Rattle.hll_cli.specs.declared.fault.Fault.TheVariants as fault;

use crate::answer::{Answer, Status};
use crate::decision::{Decided, decide};
use crate::fault::Fault;
use crate::syntax::TEXT_LIMIT;
use ports::{Desk, read_text};
use std::alloc::{AllocError, Global};

/// Reads the model and decides it.
fn decide_file<D: Desk>(alloc: Global, desk: &mut D, name: &str) -> Result<Decided, Fault>
    ensures decided { let view = view_of (D.told desk.old) (D.read_faults desk.old) (D.read_faults desk.new) (D.given desk.old) (D.given desk.new) in
        IfOk result (λ d. IsDecided view name.now d.falsified d.output.items) }
    ensures refused { let view = view_of (D.told desk.old) (D.read_faults desk.old) (D.read_faults desk.new) (D.given desk.old) (D.given desk.new) in
        (refusal : TheRefusal) → result ≡ Err (fault.Refused refusal) → IsUnanswered IsTextRefusal view name.now refusal }
    ensures files { Tells (D.told desk.old) (D.told desk.new) SameFiles }
    ensures others { ReadsOnly name.now (view_of (D.told desk.old) (D.read_faults desk.old) (D.read_faults desk.new) (D.given desk.old) (D.given desk.new)) }
    ensures writes { SameCounts (D.write_faults desk.old) (D.write_faults desk.new) }
{
    let text = read_text(alloc, desk, name, TEXT_LIMIT)?;
    decide(alloc, &text)
}

/// Reads the model, and answers its report or why there is none.
pub fn prove<D: Desk>(alloc: Global, desk: &mut D, name: &str) -> Result<Answer, AllocError>
    ensures answer { let view = view_of (D.told desk.old) (D.read_faults desk.old) (D.read_faults desk.new) (D.given desk.old) (D.given desk.new) in
        IfOk result (λ a. IsProveAnswer view name.now a.status a.output.items) }
    ensures files { Tells (D.told desk.old) (D.told desk.new) SameFiles }
    ensures others { ReadsOnly name.now (view_of (D.told desk.old) (D.read_faults desk.old) (D.read_faults desk.new) (D.given desk.old) (D.given desk.new)) }
    ensures writes { SameCounts (D.write_faults desk.old) (D.write_faults desk.new) }
{
    match decide_file(alloc, desk, name) {
        Ok(decided) => Ok(Answer {
            status: if decided.falsified {
                Status::Falsified
            } else {
                Status::Done
            },
            output: decided.output,
        }),
        Err(Fault::Refused(refusal)) => Answer::refused(alloc, name, refusal),
        Err(Fault::Memory) => Err(AllocError),
    }
}
