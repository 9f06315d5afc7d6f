//! What is due after the models, line by line.

ghost use Rattle.std.specs.Prelude.{◌≡◌, ◌+◌, ◌-◌, ◌*◌, ◌^◌, ◌<◌, ◌≤◌, ◌++◌, codes, map, length, Some, IfOk};
ghost use Rattle.lll_text.specs.Spelling.{number_field};
ghost use Rattle.evidence.specs.Counts.{IsStep};
ghost use Rattle.evidence.specs.Spelling.{bit};
ghost use Rattle.evidence.specs.Readers.{Reads, VerdictFits, step_content, verdict_content};
ghost use Rattle.evidence.specs.Due.{due_kind, due_after, place_logs, after_verdict, IsDue, line_content};

use crate::read_step::ReadStep;
use crate::reader_fields::{after, bits, number_field, step};
use crate::reader_lines::{Verdict, number_line, read_verdict};
use kinduction::Spot;
use sqlite_items::Items;
use std::alloc::{AllocError, Global};
use std::mem::replace;

/// How many lines of each kind are due: steps come first, then logs, rows, an assignment, entries and the end.
#[derive(Clone, Copy, Debug, PartialEq, Eq)]
pub struct Due {
    pub steps: u64,
    pub logs: u64,
    pub rows: u64,
    pub model: bool,
    pub entries: u64,
    /// The number of the next entry.
    pub number: u64,
}

/// What a line is.
#[derive(Clone, Copy, Debug, PartialEq, Eq)]
pub enum Kind {
    Step,
    Log,
    Row,
    Model,
    Entry,
    End,
}

/// What a line says.
#[derive(Debug, Drop)]
pub enum Statement {
    Step(ReadStep),
    /// A log begins, of so many steps.
    Log(u32),
    Row(Items<bool>),
    Model(Items<bool>),
    Entry(Verdict),
    End,
}

/// The numbers that the lines of entries depend on.
#[derive(Clone, Copy, Debug, PartialEq, Eq)]
pub struct Bounds {
    pub depth: u32,
    /// How many inputs the first model has.
    pub inputs: usize,
    /// How many variables its last step formula has.
    pub variables: usize,
}

impl Due {
    /// What the next line is.
    pub(crate) fn next_kind(&self) -> Kind
        ensures { result ≡ due_kind self.now }
    {
        if self.steps > 0 {
            Kind::Step
        } else if self.logs > 0 {
            Kind::Log
        } else if self.rows > 0 {
            Kind::Row
        } else if self.model {
            Kind::Model
        } else if self.entries > 0 {
            Kind::Entry
        } else {
            Kind::End
        }
    }

    /// What is due after an entry's line.
    fn after_verdict(&self, depth: u32, verdict: Verdict) -> Due
        requires entries { 1 ≤ self.now.entries }
        requires number { self.now.number < 2 ^ 64 - 1 }
        requires fits { VerdictFits depth verdict }
        ensures { result ≡ after_verdict depth self.now verdict }
    {
        let mut due = *self;
        due.entries -= 1;
        due.number += 1;
        match verdict {
            Verdict::Proved(k) => due.logs = u64::from(k) + 1,
            Verdict::Falsified(n) => {
                due.logs = u64::from(n) - 1;
                due.rows = u64::from(n);
            }
            Verdict::Depth => {
                due.logs = u64::from(depth);
                due.model = true;
            }
            Verdict::Conflicts(Spot::Base(instant)) => due.logs = u64::from(instant) + 1,
            Verdict::Conflicts(Spot::Step(round)) => due.logs = u64::from(round) + 1,
        }
        due
    }

    /// What is due after a line.
    pub(crate) fn after_line(&self, bounds: &Bounds, statement: &Statement) -> Due
        requires due { IsDue bounds.now self.now statement.now }
        requires number { self.now.number < 2 ^ 64 - 1 }
        ensures { result ≡ due_after bounds.now.depth self.now statement.now }
    {
        let mut due = *self;
        match statement {
            Statement::Step(_) => due.steps -= 1,
            Statement::Log(count) => {
                due.logs -= 1;
                due.steps = u64::from(*count);
            }
            Statement::Row(_) => due.rows -= 1,
            Statement::Model(_) => due.model = false,
            Statement::Entry(verdict) => return self.after_verdict(bounds.depth, *verdict),
            Statement::End => {}
        }
        due
    }
}

/// The number of steps of a log.
fn log_line(text: &[u8]) -> Option<u32>
    ensures { Reads (λ n. n < 2 ^ 32) (λ n. codes "log" ++ number_field n) text.now result }
{
    let count = number_line(text, b"log", 0, 0xFFFF_FFFF)?;
    Some(count as u32)
}

/// Truth values after a word.
fn bits_line(
    alloc: Global,
    text: &[u8],
    word: &[u8],
    count: usize,
) -> Result<Option<Items<bool>>, AllocError>
    ensures { IfOk result (Reads (λ values. length values ≡ count) (λ values. word.now ++ map bit values) text.now) }
{
    match after(text, word) {
        Some(rest) => bits(alloc, rest, count),
        None => Ok(None),
    }
}

/// What the line of the entry with this number says.
fn entry_line(text: &[u8], number: u64, depth: u32) -> Option<Verdict>
    requires number { number < 2 ^ 64 - 1 }
    requires depth { 1 ≤ depth }
    ensures { Reads (VerdictFits depth) (λ v. codes "entry" ++ number_field number ++ verdict_content v) text.now result }
{
    let rest = after(text, b"entry")?;
    let (found, rest) = number_field(rest, number)?;
    if found != number {
        return None;
    }
    read_verdict(rest, depth)
}

/// What a line says that is due. A step is read into the room for one.
pub(crate) fn read_line(
    alloc: Global,
    due: &Due,
    bounds: &Bounds,
    text: &[u8],
    room: &mut ReadStep,
) -> Result<Option<Statement>, AllocError>
    requires number { due.now.number < 2 ^ 64 - 1 }
    requires depth { 1 ≤ bounds.now.depth }
    ensures { IfOk result (Reads (IsDue bounds.now due.now) (line_content due.now.number) text.now) }
{
    match due.next_kind() {
        Kind::Step => match step(text, replace(room, ReadStep::empty(alloc)))? {
            Some(step) => Ok(Some(Statement::Step(step))),
            None => Ok(None),
        },
        Kind::Log => match log_line(text) {
            Some(count) => Ok(Some(Statement::Log(count))),
            None => Ok(None),
        },
        Kind::Row => match bits_line(alloc, text, b"bits:", bounds.inputs)? {
            Some(values) => Ok(Some(Statement::Row(values))),
            None => Ok(None),
        },
        Kind::Model => match bits_line(alloc, text, b"model:", bounds.variables)? {
            Some(values) => Ok(Some(Statement::Model(values))),
            None => Ok(None),
        },
        Kind::Entry => match entry_line(text, due.number, bounds.depth) {
            Some(verdict) => Ok(Some(Statement::Entry(verdict))),
            None => Ok(None),
        },
        Kind::End => {
            if text == b"end".as_slice() {
                Ok(Some(Statement::End))
            } else {
                Ok(None)
            }
        }
    }
}
