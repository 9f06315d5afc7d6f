//! Reads a text line by line.

ghost use Rattle.std.specs.Prelude.{◌≡◌, ◌+◌, ◌<◌, ◌≤◌, ◌∷◌, ◌++◌, [], ℕ, List, Ok, Err, length, IfOk, IfErr, OnOk, MatchResult, ◌⊎◌};
ghost use Rattle.lll_core.specs.declared.signal.Signal.{Signal};
ghost use Rattle.lll_core.specs.Signals.{signal_names};
ghost use Rattle.lll_core.specs.declared.lll.Lll.{Lll};
ghost use Rattle.lll_text.specs.declared.fault.LllKind.{LllKind};
ghost use Rattle.lll_text.specs.Spelling.{spelling};
ghost use Rattle.lll_text.specs.Lines.{IsFaultOf, GivesLine, fault_in, no_lines, is_open, first_open, closing, ends_signals, signals_line_at, some_line_at, line_at, after_lines, IsFaultIn, IsReadAs};

use crate::draft::{Draft, Stage};
use crate::fault::{LllFault, LllKind, Unread};
use crate::field::after;
use crate::names::Names;
use lll_core::{Lll, Signal};
use std::alloc::Global;

/// What is read in this line.
fn in_line<T>(line: u64, read: Result<T, Unread>) -> Result<T, LllFault>
    ensures { MatchResult read (λ x. result ≡ Ok x) (λ e. result ≡ Err (fault_in line e)) }
{
    match read {
        Ok(x) => Ok(x),
        Err(Unread::Wrong(kind)) => Err(LllFault::Fault { line, kind }),
        Err(Unread::Memory) => Err(LllFault::Memory),
    }
}

/// Whether the signal is a latch whose next names none of so many signals.
fn is_open(count: usize, signal: &Signal) -> bool
    ensures { result ≡ is_open count signal.now }
{
    match signal {
        Signal::Latch { next, .. } => (*next / 2) as usize >= count,
        _ => false,
    }
}

/// The first latch whose next names no signal.
fn first_open(signals: &[Signal]) -> Option<usize>
    ensures found { result ≡ first_open signals.now }
{
    let count = signals.len();
    signals.iter().position(|signal| is_open(count, signal))
}

/// The line after the last signal.
fn closing<'a>(line: u64, draft: &mut Draft, text: &'a [u8]) -> Result<&'a [u8], LllFault>
    ensures exact { GivesLine (λ r. (draft.new, r.now)) result (closing line (first_open draft.old.signals) draft.old text.now) }
    ensures signals { OnOk result (draft.new.signals ≡ draft.old.signals) }
    ensures shorter { IfOk result (λ r. length r.now < length text.now) }
{
    match first_open(draft.signals.as_slice()) {
        Some(index) => Err(LllFault::Fault {
            line: index as u64 + 2,
            kind: LllKind::Number,
        }),
        None => in_line(line, draft.assume_line(text)),
    }
}

/// A line of a signal, or the line after the last signal.
#[tactic(auto, unfolding(crate::specs::Lines::signals_line_at))]
fn signals_line<'a>(
    alloc: Global,
    line: u64,
    draft: &mut Draft,
    names: &mut Names<'a>,
    text: &'a [u8],
) -> Result<&'a [u8], LllFault>
    requires { names.old ≡ signal_names draft.old.signals }
    ensures exact { GivesLine (λ r. (draft.new, r.now)) result (signals_line_at line draft.old text.now) }
    ensures names { OnOk result (names.new ≡ signal_names draft.new.signals) }
    ensures shorter { IfOk result (λ r. length r.now < length text.now) }
{
    if !draft.signals.is_empty() && after(text, b"assume").is_some() {
        closing(line, draft, text)
    } else {
        in_line(line, draft.next_signal(alloc, names, text))
    }
}

/// A line that is there.
fn some_line<'a>(
    alloc: Global,
    line: u64,
    draft: &mut Draft,
    names: &mut Names<'a>,
    text: &'a [u8],
) -> Result<&'a [u8], LllFault>
    requires { names.old ≡ signal_names draft.old.signals }
    ensures exact { GivesLine (λ r. (draft.new, r.now)) result (some_line_at draft.old.stage line draft.old text.now) }
    ensures names { OnOk result (names.new ≡ signal_names draft.new.signals) }
    ensures shorter { IfOk result (λ r. length r.now < length text.now) }
{
    match draft.stage {
        Stage::Header => in_line(line, draft.header_line(text)),
        Stage::Signals => signals_line(alloc, line, draft, names, text),
        Stage::Keep => in_line(line, draft.keep_line(text)),
        Stage::Lists => in_line(line, draft.list_line(alloc, text)),
        Stage::End => Err(LllFault::Fault {
            line,
            kind: LllKind::Ending,
        }),
    }
}

/// What the lines of a text say.
fn read_draft(alloc: Global, text: &[u8]) -> Result<Draft, LllFault>
    ensures read { IfOk result (IsReadAs text.now) }
    ensures fault { IfErr result (IsFaultIn text.now) }
{
    let mut draft = Draft::new(alloc);
    let mut names = Names::new(alloc);
    let mut rest = text;
    let mut line: u64 = 1;
    while !rest.is_empty() {
        rest = some_line(alloc, line, &mut draft, &mut names, rest)?;
        line += 1;
    }
    match draft.stage {
        Stage::End => Ok(draft),
        _ => Err(LllFault::Fault {
            line,
            kind: LllKind::Ending,
        }),
    }
}

/// The value that a text spells.
pub fn read_lll(alloc: Global, text: &[u8]) -> Result<Lll, LllFault>
    // What is read is spelled so.
    ensures spelled { IfOk result (λ lll. text.now ≡ spelling lll) }
    // What is spelled so is read, unless memory runs out.
    ensures only { (lll : Lll) → text.now ≡ spelling lll → MatchResult result (λ x. x ≡ lll) (λ e. e ≡ LllFault.Memory) }
    // Which fault it is.
    ensures fault { IfErr result (IsFaultIn text.now) }
    // A text with a fault is refused with it, unless memory runs out.
    ensures refused { (line : ℕ) (kind : LllKind) → IsFaultOf text.now line kind →
        MatchResult result (λ x. ⊥) (λ e. (e ≡ LllFault.Fault line kind) ⊎ (e ≡ LllFault.Memory)) }
{
    let draft = read_draft(alloc, text)?;
    let Draft {
        stage: _,
        signals,
        assume,
        keep,
        constraints,
        obligations,
        names,
    } = draft;
    Ok(Lll {
        signals,
        assume,
        keep,
        constraints,
        obligations,
        names,
    })
}
