//! The top call: it does all that the program does.

ghost use Rattle.std.specs.Prelude.{◌≡◌, ℕ, List, ◌⊎◌, map, string_bytes, Some, None, IfSome, IfOk, true, false};
ghost use Rattle.command_line.specs.Words.{Request, Prove, Check, Format, request_of, file_of};
ghost use Rattle.ports.specs.Causes.{Rose, SameCounts};
ghost use Rattle.ports.specs.Contents.{Tells, SameFiles};
ghost use Rattle.hll_cli.specs.Answers.{IsAnswer, HasAnswer, IsAnswered, Writes, WritesFront, Ends, IsStatus, IsReported, IsSummarized, IsDone};
ghost use Rattle.hll_cli.specs.Check.{IsChecked, IsDoubted, HasEvidence};
ghost use Rattle.hll_cli.specs.Format.{IsFormatted, HasModel};
ghost use Rattle.hll_cli.specs.Lines.{usage_line, refusal_line};
ghost use Rattle.hll_cli.specs.Prove.{IsDecided, IsTextRefusal, HasAcceptedModel};
ghost use Rattle.hll_cli.specs.Reading.{view_of, ReadsNothing, ReadsOnly};
ghost use Rattle.hll_cli.specs.Texts.{IsMisspelled, IsRefused, HasText};
ghost use Rattle.hll_cli.specs.declared.answer.Status.TheVariants as status;
ghost use Rattle.hll_cli.specs.declared.fault.Refusal.TheVariants as refusal;

use crate::answer::{Answer, Status};
use crate::check::check;
use crate::format::format;
use crate::prove::prove;
use command_line::Command;
use ports::{Desk, Gate, PortFault, Sink, write_all};
use std::alloc::{AllocError, Global};
use std::thread::Threads;

/// What is answered to the words.
fn answer_to<D: Desk>(alloc: Global, words: &[String], desk: &mut D) -> Result<Answer, AllocError>
    ensures answer { let view = view_of (D.told desk.old) (D.read_faults desk.old) (D.read_faults desk.new) (D.given desk.old) (D.given desk.new) in
        IfOk result (λ a. IsAnswer (request_of (map string_bytes words.now)) view a.status a.output.items) }
    ensures files { Tells (D.told desk.old) (D.told desk.new) SameFiles }
    ensures idle { let view = view_of (D.told desk.old) (D.read_faults desk.old) (D.read_faults desk.new) (D.given desk.old) (D.given desk.new) in
        request_of (map string_bytes words.now) ≡ None → ReadsNothing view }
    ensures others { let view = view_of (D.told desk.old) (D.read_faults desk.old) (D.read_faults desk.new) (D.given desk.old) (D.given desk.new) in
        (r : Request) → request_of (map string_bytes words.now) ≡ Some r → ReadsOnly (file_of r) view }
    ensures writes { SameCounts (D.write_faults desk.old) (D.write_faults desk.new) }
{
    match Command::read(alloc, words)? {
        None => Answer::usage(alloc),
        Some(Command::Prove { model }) => prove(alloc, desk, model),
        Some(Command::Check { evidence }) => check(alloc, desk, evidence),
        Some(Command::Format { model }) => format(alloc, desk, model),
    }
}

/// Answers the words, and writes the answer.
fn execute<D: Desk, O: Sink>(alloc: Global, words: &[String], desk: &mut D, out: &mut O) -> Status
    ensures ends { let view = view_of (D.told desk.old) (D.read_faults desk.old) (D.read_faults desk.new) (D.given desk.old) (D.given desk.new) in
        Tells (O.told out.old) (O.told out.new) (Ends (IsAnswer (request_of (map string_bytes words.now)) view) result) }
    ensures answered { let view = view_of (D.told desk.old) (D.read_faults desk.old) (D.read_faults desk.new) (D.given desk.old) (D.given desk.new) in
        HasAnswer (IsAnswer (request_of (map string_bytes words.now)) view) result }
    ensures unwritten { result ≡ status.WriteFault → Rose (O.faults out.old) (O.faults out.new) }
    ensures files { Tells (D.told desk.old) (D.told desk.new) SameFiles }
    ensures idle { let view = view_of (D.told desk.old) (D.read_faults desk.old) (D.read_faults desk.new) (D.given desk.old) (D.given desk.new) in
        request_of (map string_bytes words.now) ≡ None → ReadsNothing view }
    ensures others { let view = view_of (D.told desk.old) (D.read_faults desk.old) (D.read_faults desk.new) (D.given desk.old) (D.given desk.new) in
        (r : Request) → request_of (map string_bytes words.now) ≡ Some r → ReadsOnly (file_of r) view }
    ensures writes { SameCounts (D.write_faults desk.old) (D.write_faults desk.new) }
{
    match answer_to(alloc, words, desk) {
        Err(_) => Status::Memory,
        Ok(answer) => match write_all(out, &answer.output) {
            Ok(()) => answer.status,
            Err(PortFault::Failed) => Status::WriteFault,
            Err(PortFault::Memory) => Status::Memory,
        },
    }
}

/// Runs the command that the words ask for and answers the exit status. Nothing is written but to `out`: what the
/// command answers, or one line that says why there is none.
pub fn run<R: Threads + Sync, D: Desk, O: Sink, G: Gate + Sync>(
    _rt: &R,
    alloc: Global,
    words: &[String],
    desk: &mut D,
    out: &mut O,
    _gate: &G,
) -> u8
    // Each command has its statuses, and so have words that ask for nothing.
    ensures known { IsStatus (request_of (map string_bytes words.now)) result }
    // The status is that of an answer for the text that was read, also where the sink doesn't tell what was written.
    ensures answered { IsAnswered (request_of (map string_bytes words.now)) (view_of (D.told desk.old) (D.read_faults desk.old) (D.read_faults desk.new) (D.given desk.old) (D.given desk.new)) result }

    // Words that ask for nothing.
    ensures words { result ≡ 4 → request_of (map string_bytes words.now) ≡ None }
    ensures usage { result ≡ 4 → Tells (O.told out.old) (O.told out.new) (Writes (λ output. output ≡ usage_line)) }
    ensures idle { request_of (map string_bytes words.now) ≡ None → ReadsNothing (view_of (D.told desk.old) (D.read_faults desk.old) (D.read_faults desk.new) (D.given desk.old) (D.given desk.new)) }

    // `prove`: all printed obligations are proved, and so they hold; or a falsified one is printed, with a shortest trace
    // that breaks it; or the text is refused.
    ensures proved { (name : List ℕ) → request_of (map string_bytes words.now) ≡ Some (Prove name) → result ≡ 0
        → Tells (O.told out.old) (O.told out.new) (Writes (IsDecided (view_of (D.told desk.old) (D.read_faults desk.old) (D.read_faults desk.new) (D.given desk.old) (D.given desk.new)) name false)) }
    ensures falsified { (name : List ℕ) → request_of (map string_bytes words.now) ≡ Some (Prove name) → result ≡ 1
        → Tells (O.told out.old) (O.told out.new) (Writes (IsDecided (view_of (D.told desk.old) (D.read_faults desk.old) (D.read_faults desk.new) (D.given desk.old) (D.given desk.new)) name true)) }
    ensures refused { (name : List ℕ) → request_of (map string_bytes words.now) ≡ Some (Prove name) → result ≡ 3
        → Tells (O.told out.old) (O.told out.new) (Writes (IsRefused IsTextRefusal (view_of (D.told desk.old) (D.read_faults desk.old) (D.read_faults desk.new) (D.given desk.old) (D.given desk.new)) name status.Refused)) }
    // A text that is accepted gets its report, unless the model's file or the output fails, or memory runs out.
    ensures complete { (name : List ℕ) → request_of (map string_bytes words.now) ≡ Some (Prove name)
        → IfSome (D.told desk.old) (λ files. HasText files name HasAcceptedModel → IsReported result
        ⊎ Rose (D.read_faults desk.old name) (D.read_faults desk.new name)
        ⊎ Rose (O.faults out.old) (O.faults out.new)) }

    // `check`: the file holds evidence that is accepted, all printed obligations are proved, or one is falsified, or else one is
    // undecided; or the file is refused.
    ensures checked_proved { (name : List ℕ) → request_of (map string_bytes words.now) ≡ Some (Check name) → result ≡ 0
        → Tells (O.told out.old) (O.told out.new) (Writes (IsChecked (view_of (D.told desk.old) (D.read_faults desk.old) (D.read_faults desk.new) (D.given desk.old) (D.given desk.new)) name status.Done)) }
    ensures checked_falsified { (name : List ℕ) → request_of (map string_bytes words.now) ≡ Some (Check name) → result ≡ 1
        → Tells (O.told out.old) (O.told out.new) (Writes (IsChecked (view_of (D.told desk.old) (D.read_faults desk.old) (D.read_faults desk.new) (D.given desk.old) (D.given desk.new)) name status.Falsified)) }
    ensures checked_undecided { (name : List ℕ) → request_of (map string_bytes words.now) ≡ Some (Check name) → result ≡ 2
        → Tells (O.told out.old) (O.told out.new) (Writes (IsChecked (view_of (D.told desk.old) (D.read_faults desk.old) (D.read_faults desk.new) (D.given desk.old) (D.given desk.new)) name status.Undecided)) }
    ensures unaccepted { (name : List ℕ) → request_of (map string_bytes words.now) ≡ Some (Check name) → result ≡ 8
        → Tells (O.told out.old) (O.told out.new) (Writes (IsDoubted (view_of (D.told desk.old) (D.read_faults desk.old) (D.read_faults desk.new) (D.given desk.old) (D.given desk.new)) name)) }
    // Evidence that is accepted gets its summary, unless its file or the output fails, or memory runs out.
    ensures check_complete { (name : List ℕ) → request_of (map string_bytes words.now) ≡ Some (Check name)
        → IfSome (D.told desk.old) (λ files. HasEvidence files name → IsSummarized result
        ⊎ Rose (D.read_faults desk.old name) (D.read_faults desk.new name)
        ⊎ Rose (O.faults out.old) (O.faults out.new)) }

    // `format`: the one layout of the model is printed, or the text is refused.
    ensures formatted { (name : List ℕ) → request_of (map string_bytes words.now) ≡ Some (Format name) → result ≡ 0
        → Tells (O.told out.old) (O.told out.new) (Writes (IsFormatted (view_of (D.told desk.old) (D.read_faults desk.old) (D.read_faults desk.new) (D.given desk.old) (D.given desk.new)) name)) }
    ensures misspelled { (name : List ℕ) → request_of (map string_bytes words.now) ≡ Some (Format name) → result ≡ 3
        → Tells (O.told out.old) (O.told out.new) (Writes (IsRefused IsMisspelled (view_of (D.told desk.old) (D.read_faults desk.old) (D.read_faults desk.new) (D.given desk.old) (D.given desk.new)) name status.Refused)) }
    // A text that spells a model is printed, unless the model's file or the output fails, or memory runs out.
    ensures format_complete { (name : List ℕ) → request_of (map string_bytes words.now) ≡ Some (Format name)
        → IfSome (D.told desk.old) (λ files. HasText files name HasModel → IsDone result
        ⊎ Rose (D.read_faults desk.old name) (D.read_faults desk.new name)
        ⊎ Rose (O.faults out.old) (O.faults out.new)) }

    // A file that could not be read.
    ensures unread { (r : Request) → request_of (map string_bytes words.now) ≡ Some r → result ≡ 5
        → Tells (O.told out.old) (O.told out.new) (Writes (λ output. output ≡ refusal_line (file_of r) refusal.Unread)) }
    ensures unread_cause { (r : Request) → request_of (map string_bytes words.now) ≡ Some r → result ≡ 5
        → Rose (D.read_faults desk.old (file_of r)) (D.read_faults desk.new (file_of r)) }

    // An output that breaks off is a front of what this call would have answered, and not all of it.
    ensures unwritten_cause { result ≡ 6 → Rose (O.faults out.old) (O.faults out.new) }
    ensures unwritten { result ≡ 6 → Tells (O.told out.old) (O.told out.new)
        (WritesFront (IsAnswer (request_of (map string_bytes words.now)) (view_of (D.told desk.old) (D.read_faults desk.old) (D.read_faults desk.new) (D.given desk.old) (D.given desk.new)))) }
    ensures memory { result ≡ 7 → Tells (O.told out.old) (O.told out.new) (λ before now. (now ≡ before)
        ⊎ WritesFront (IsAnswer (request_of (map string_bytes words.now)) (view_of (D.told desk.old) (D.read_faults desk.old) (D.read_faults desk.new) (D.given desk.old) (D.given desk.new))) before now) }

    // No file is changed, and none is read but the one that is asked about.
    ensures files { Tells (D.told desk.old) (D.told desk.new) SameFiles }
    ensures other_reads { (r : Request) → request_of (map string_bytes words.now) ≡ Some r
        → ReadsOnly (file_of r) (view_of (D.told desk.old) (D.read_faults desk.old) (D.read_faults desk.new) (D.given desk.old) (D.given desk.new)) }
    ensures writes { SameCounts (D.write_faults desk.old) (D.write_faults desk.new) }
{
    execute(alloc, words, desk, out).code()
}
