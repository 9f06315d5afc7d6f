//! The command `format MODEL`: it prints the model in the one layout.

ghost use Rattle.std.specs.Prelude.{◌≡◌, Err, IfOk};
ghost use Rattle.ports.specs.Causes.{SameCounts};
ghost use Rattle.ports.specs.Contents.{Tells, SameFiles};
ghost use Rattle.hll_cli.specs.Format.{IsFormatted, IsFormatAnswer};
ghost use Rattle.hll_cli.specs.Reading.{view_of, ReadsOnly};
ghost use Rattle.hll_cli.specs.Texts.{IsMisspelled, IsUnanswered};
ghost use Rattle.hll_cli.specs.declared.fault.Fault.TheVariants as fault;
ghost use Rattle.hll_cli.specs.declared.fault.Refusal.{Refusal as TheRefusal};

use crate::answer::{Answer, Status};
use crate::fault::Fault;
use crate::syntax::{TEXT_LIMIT, model_of};
use hll_tree::print;
use ports::{Desk, read_text};
use std::alloc::{AllocError, Global};

/// Reads the model and prints it.
fn format_file<D: Desk>(alloc: Global, desk: &mut D, name: &str) -> Result<Vec<u8>, Fault>
    ensures formatted { let view = view_of (D.told desk.old) (D.read_faults desk.old) (D.read_faults desk.new) (D.given desk.old) (D.given desk.new) in
        IfOk result (λ output. IsFormatted view name.now output.items) }
    ensures refused { let view = view_of (D.told desk.old) (D.read_faults desk.old) (D.read_faults desk.new) (D.given desk.old) (D.given desk.new) in
        (refusal : TheRefusal) → result ≡ Err (fault.Refused refusal) → IsUnanswered IsMisspelled view name.now refusal }
    ensures files { Tells (D.told desk.old) (D.told desk.new) SameFiles }
    ensures others { ReadsOnly name.now (view_of (D.told desk.old) (D.read_faults desk.old) (D.read_faults desk.new) (D.given desk.old) (D.given desk.new)) }
    ensures writes { SameCounts (D.write_faults desk.old) (D.write_faults desk.new) }
{
    let text = read_text(alloc, desk, name, TEXT_LIMIT)?;
    let spelled = model_of(alloc, &text)?;
    let output = print(alloc, &spelled.model)?;
    Ok(output)
}

/// Reads the model, and answers it in its one layout or why there is none.
pub fn format<D: Desk>(alloc: Global, desk: &mut D, name: &str) -> Result<Answer, AllocError>
    ensures answer { let view = view_of (D.told desk.old) (D.read_faults desk.old) (D.read_faults desk.new) (D.given desk.old) (D.given desk.new) in
        IfOk result (λ a. IsFormatAnswer view name.now a.status a.output.items) }
    ensures files { Tells (D.told desk.old) (D.told desk.new) SameFiles }
    ensures others { ReadsOnly name.now (view_of (D.told desk.old) (D.read_faults desk.old) (D.read_faults desk.new) (D.given desk.old) (D.given desk.new)) }
    ensures writes { SameCounts (D.write_faults desk.old) (D.write_faults desk.new) }
{
    match format_file(alloc, desk, name) {
        Ok(output) => Ok(Answer {
            status: Status::Done,
            output,
        }),
        Err(Fault::Refused(refusal)) => Answer::refused(alloc, name, refusal),
        Err(Fault::Memory) => Err(AllocError),
    }
}
