//! The command on a text in memory.

ghost use Rattle.std.specs.Prelude.{◌≡◌, IfOk, List, ℕ, Some, length, map, string_bytes};
ghost use Rattle.ports.specs.DeskState.{file_or_empty};
ghost use Rattle.command_line.specs.Words.{request_of, Prove, Check, Format};
ghost use Rattle.hll_cli.specs.Answers.{IsReported, IsSummarized, IsDone};
ghost use Rattle.hll_cli.specs.Check.{HasEvidence};
ghost use Rattle.hll_cli.specs.Format.{HasModel};
ghost use Rattle.hll_cli.specs.Prove.{HasAcceptedModel};
ghost use Rattle.hll_cli.specs.Texts.{HasText};

use hll_cli::run;
use ports::{Desk, FileText, OpenGate, Sink, SureDesk, SureSink};
use std::alloc::{AllocError, Global};
use std::thread::Threads;

/// One file of this name.
pub fn file(alloc: Global, name: &str, bytes: &[u8]) -> Result<Vec<FileText>, AllocError>
    ensures { IfOk result (λ files. length files.items ≡ 1) }
{
    let file = FileText {
        name: String::from_str(alloc, name)?,
        bytes: Vec::from_slice(alloc, bytes)?,
    };
    Ok(vec![in alloc; file]?)
}

/// The words of a line, which stand with a space between each two of them; an empty line has none.
fn words(alloc: Global, line: &str) -> Result<Vec<String>, AllocError> {
    let mut words = Vec::new(alloc);
    if !line.is_empty() {
        for word in line.split(' ') {
            words.push(String::from_str(alloc, word)?)?;
        }
    }
    Ok(words)
}

/// Runs a line of words over any ports.
pub fn run_over<R: Threads + Sync, D: Desk, O: Sink>(
    rt: &R,
    alloc: Global,
    line: &str,
    desk: &mut D,
    out: &mut O,
) -> Result<u8, AllocError> {
    let words = words(alloc, line)?;
    Ok(run(rt, alloc, &words, desk, out, &OpenGate))
}

/// Runs words over ports that only want of memory stops. There a text that is accepted gets its report, evidence that is
/// accepted its summary, and a text that spells a model its layout, unless memory runs out.
fn run_surely<R: Threads + Sync>(
    rt: &R,
    alloc: Global,
    words: &[String],
    desk: &mut SureDesk,
    out: &mut SureSink,
) -> u8
    ensures prove { (name : List ℕ) → request_of (map string_bytes words.now) ≡ Some (Prove name)
        → HasText (file_or_empty desk.old.files) name HasAcceptedModel → IsReported result }
    ensures check { (name : List ℕ) → request_of (map string_bytes words.now) ≡ Some (Check name)
        → HasEvidence (file_or_empty desk.old.files) name → IsSummarized result }
    ensures format { (name : List ℕ) → request_of (map string_bytes words.now) ≡ Some (Format name)
        → HasText (file_or_empty desk.old.files) name HasModel → IsDone result }
{
    run(rt, alloc, words, desk, out, &OpenGate)
}

/// The status of a line of words over a desk with one file `m`, and what it writes.
pub fn answer<R: Threads + Sync>(
    rt: &R,
    alloc: Global,
    line: &str,
    text: &[u8],
) -> Result<(u8, SureSink), AllocError> {
    let mut desk = SureDesk::new(alloc, file(alloc, "m", text)?);
    let mut out = SureSink::new(alloc);
    let words = words(alloc, line)?;
    let status = run_surely(rt, alloc, &words, &mut desk, &mut out);
    Ok((status, out))
}

/// The status of `prove m` on a text, and what it writes.
pub fn prove<R: Threads + Sync>(
    rt: &R,
    alloc: Global,
    text: &[u8],
) -> Result<(u8, SureSink), AllocError> {
    answer(rt, alloc, "prove m", text)
}
