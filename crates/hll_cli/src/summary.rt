//! What is printed of evidence: its summary, or why it is refused.

ghost use Rattle.std.specs.Prelude.{◌≡◌, ◌++◌, count_by, codes, IfOk, OnOk};
ghost use Rattle.std.specs.Fmt.{decimal};
ghost use Rattle.std.specs.List.{list_any};
ghost use Rattle.hll_cli.specs.Check.{shown_text, entry_text, entries_text, is_proved as is_proved_line, is_falsified as is_falsified_line, is_undecided as is_undecided_line, summary_text, summary_status, cause_text, doubt_text};
ghost use Rattle.hll_cli.specs.Lines.{line_feed};
ghost use Rattle.evidence.specs.declared.fault.EvidenceFault.TheVariants as fault;

use crate::answer::Status;
use crate::line::{Printed, Totals};
use evidence::{Cause, Line};
use std::alloc::{AllocError, Global};

/// What is shown of an obligation.
impl Printed for Line {
    ghost text = { λ shown. shown_text shown };

    fn print(&self, out: &mut Vec<u8>) -> Result<(), AllocError> {
        match self {
            Line::Proved(round) => {
                out.extend_from_slice(b"proved ")?;
                u64::from(*round).print(out)
            }
            Line::Falsified(instants) => {
                out.extend_from_slice(b"falsified ")?;
                u64::from(*instants).print(out)
            }
            Line::Depth => out.extend_from_slice(b"undecided depth"),
            Line::Conflicts => out.extend_from_slice(b"undecided conflicts"),
            Line::Equivalence => out.extend_from_slice(b"undecided equivalence"),
        }
    }
}

/// An entry with its number.
#[derive(Clone, Copy, Debug)]
struct Entry {
    number: u64,
    shown: Line,
}

impl Printed for Entry {
    ghost text = { λ entry. entry_text entry.number entry.shown };

    #[tactic(auto, unfolding(crate::specs::Check::entry_text))]
    fn print(&self, out: &mut Vec<u8>) -> Result<(), AllocError> {
        out.extend_from_slice(b"entry ")?;
        self.number.print(out)?;
        out.extend_from_slice(b": ")?;
        self.shown.print(out)?;
        out.extend_from_slice(b"\n")
    }
}

fn is_proved(shown: &Line) -> bool
    ensures { result ≡ is_proved_line shown.now }
{
    matches!(shown, Line::Proved(_))
}

fn is_falsified(shown: &Line) -> bool
    ensures { result ≡ is_falsified_line shown.now }
{
    matches!(shown, Line::Falsified(_))
}

fn is_undecided(shown: &Line) -> bool
    ensures { result ≡ is_undecided_line shown.now }
{
    matches!(shown, Line::Depth | Line::Conflicts | Line::Equivalence)
}

/// Appends a line for each obligation.
fn push_entries(out: &mut Vec<u8>, shown: &[Line]) -> Result<(), AllocError>
    ensures { OnOk result (out.new.items ≡ out.old.items ++ entries_text 1 shown.now) }
{
    for (index, line) in shown.iter().enumerate() {
        Entry {
            number: index as u64 + 1,
            shown: *line,
        }
        .print(out)?;
    }
    Ok(())
}

/// How many obligations have each verdict.
fn totals(shown: &[Line]) -> Totals
    ensures proved { result.proved ≡ count_by is_proved_line shown.now }
    ensures falsified { result.falsified ≡ count_by is_falsified_line shown.now }
    ensures undecided { result.undecided ≡ count_by is_undecided_line shown.now }
{
    Totals {
        proved: shown.iter().filter(|line| is_proved(line)).count() as u64,
        falsified: shown.iter().filter(|line| is_falsified(line)).count() as u64,
        undecided: shown.iter().filter(|line| is_undecided(line)).count() as u64,
    }
}

/// A line for each obligation, and how many have each verdict.
pub fn summary(alloc: Global, shown: &[Line]) -> Result<Vec<u8>, AllocError>
    ensures { IfOk result (λ out. out.items ≡ summary_text shown.now) }
{
    let mut out = Vec::new(alloc);
    push_entries(&mut out, shown)?;
    totals(shown).print(&mut out)?;
    Ok(out)
}

fn any_falsified(shown: &[Line]) -> bool
    ensures { result ≡ list_any is_falsified_line shown.now }
{
    shown.iter().any(is_falsified)
}

fn any_undecided(shown: &[Line]) -> bool
    ensures { result ≡ list_any is_undecided_line shown.now }
{
    shown.iter().any(is_undecided)
}

/// With which status a summary is printed.
pub fn status_of(shown: &[Line]) -> Status
    ensures { result ≡ summary_status shown.now }
{
    match (any_falsified(shown), any_undecided(shown)) {
        (true, _) => Status::Falsified,
        (false, true) => Status::Undecided,
        (false, false) => Status::Done,
    }
}

/// Appends a word and a number.
fn push_number(out: &mut Vec<u8>, word: &[u8], number: u32) -> Result<(), AllocError>
    ensures { OnOk result (out.new.items ≡ out.old.items ++ word.now ++ decimal number) }
{
    out.extend_from_slice(word)?;
    u64::from(number).print(out)
}

/// The word for a cause, with what it names.
impl Printed for Cause {
    ghost text = { λ cause. cause_text cause };

    fn print(&self, out: &mut Vec<u8>) -> Result<(), AllocError> {
        match self {
            Cause::Unpaired(name) => {
                out.extend_from_slice(b"Unpaired ")?;
                out.extend_from_slice(name.bytes())
            }
            Cause::Size => out.extend_from_slice(b"Size"),
            Cause::Unknown(hint) => push_number(out, b"Unknown ", *hint),
            Cause::NotUnit(hint) => push_number(out, b"NotUnit ", *hint),
            Cause::NoConflict => out.extend_from_slice(b"NoConflict"),
            Cause::Literal(literal) => {
                out.extend_from_slice(b"Literal ")?;
                literal.print(out)
            }
            Cause::Unended => out.extend_from_slice(b"Unended"),
            Cause::Count => out.extend_from_slice(b"Count"),
            Cause::Idle => out.extend_from_slice(b"Idle"),
            Cause::Trace => out.extend_from_slice(b"Trace"),
            Cause::Model => out.extend_from_slice(b"Model"),
        }
    }
}

/// The line on a file that is too long.
pub fn long_line(alloc: Global) -> Result<Vec<u8>, AllocError>
    ensures { IfOk result (λ out. out.items ≡ doubt_text fault.Long) }
{
    Vec::from_slice(alloc, b"refused evidence Long\n")
}

/// The line on evidence in whose line of this number no file goes on so.
pub fn form_line(alloc: Global, at: u64) -> Result<Vec<u8>, AllocError>
    ensures { IfOk result (λ out. out.items ≡ doubt_text (fault.Form at)) }
{
    let mut out = Vec::from_slice(alloc, b"refused evidence line ")?;
    at.print(&mut out)?;
    out.extend_from_slice(b" Form\n")?;
    Ok(out)
}

/// The line on evidence of which a claim fails, with its line and cause.
pub fn refused_line(alloc: Global, at: u64, cause: &Cause) -> Result<Vec<u8>, AllocError>
    ensures { IfOk result (λ out. out.items ≡ doubt_text (fault.Refused at cause.now)) }
{
    let mut out = Vec::from_slice(alloc, b"refused evidence line ")?;
    at.print(&mut out)?;
    out.extend_from_slice(b" ")?;
    cause.print(&mut out)?;
    out.extend_from_slice(b"\n")?;
    Ok(out)
}
