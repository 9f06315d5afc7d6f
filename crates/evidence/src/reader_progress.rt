//! What the lines so far say, and what one more line adds to it.

ghost use Rattle.std.specs.Prelude.{◌≡◌, ◌-◌, ◌^◌, ◌<◌, ◌++◌, [], IfOk, IfErr, OnOk};
ghost use Rattle.lll_text.specs.Spelling.{spelling};
ghost use Rattle.evidence.specs.Due.{IsDue};
ghost use Rattle.evidence.specs.Begun.{AddsLine, AddsModelLine, EndsInModel, EndsEarly};
ghost use Rattle.evidence.specs.Standing.{TakesLine, IsWrongLine, IsWrong, ReadsModelLine, IsWrongText, IsWrongModel, IsWithinLine, IsFine, AdvancesTo};
ghost use Rattle.evidence.specs.Summaries.{verdict_line};
ghost use Rattle.evidence.specs.Telling.{Tells};
ghost use Rattle.evidence.specs.declared.reader_progress.Stage.TheVariants as stage;

use crate::Line;
use crate::read_step::ReadStep;
use crate::reader_counts::{input_count, part_count};
use crate::reader_due::{Bounds, Due, Statement, read_line};
use crate::reader_lines::{EqualLine, Verdict, equal_line, number_line};
use crate::reader_said::Said;
use crate::summary::untried;
use crate::unread::Unread;
use lll_core::Lll;
use lll_text::{LllFault, read_lll};
use sqlite_items::Items;
use std::alloc::Global;

/// What the next line is.
#[derive(Clone, Copy, Debug, PartialEq, Eq)]
pub enum Stage {
    Header,
    Depth,
    Conflicts,
    /// The line before the first model.
    FirstHeading,
    FirstModel,
    /// The line before the second model.
    SecondHeading,
    SecondModel,
    /// The line of the parts.
    Equal,
    /// A line of what is shown, by what is due.
    Body,
    /// No line.
    End,
}

/// What the lines so far say.
#[derive(Debug, Drop)]
pub(crate) struct Progress {
    pub stage: Stage,
    pub depth: u32,
    pub conflicts: u32,
    /// The number of the line before the model that is read, and the lines of that model so far.
    pub heading: u64,
    pub text: Vec<u8>,
    pub first: Option<Lll>,
    pub second: Option<Lll>,
    pub bounds: Bounds,
    /// How many obligations the first model has.
    pub obligations: u64,
    /// How many parts the miter of the models has.
    pub parts: u64,
    pub due: Due,
    /// What is shown of the obligations so far.
    pub lines: Items<Line>,
}

/// What an entry's verdict says of its obligation.
fn summary_line(verdict: Verdict) -> Line
    ensures { result ≡ verdict_line verdict }
{
    match verdict {
        Verdict::Proved(k) => Line::Proved(k),
        Verdict::Falsified(n) => Line::Falsified(n),
        Verdict::Depth => Line::Depth,
        Verdict::Conflicts(_) => Line::Conflicts,
    }
}

/// A model whose text follows the line of this number.
fn read_model(alloc: Global, heading: u64, text: &[u8]) -> Result<Lll, Unread>
    ensures read { IfOk result (λ model. text.now ≡ spelling model) }
    ensures wrong { IfErr result (IsWrongText heading text.now) }
{
    match read_lll(alloc, text) {
        Ok(model) => Ok(model),
        Err(LllFault::Fault { line, .. }) => Err(Unread::Form(heading.saturating_add(line))),
        Err(LllFault::Memory) => Err(Unread::Memory),
    }
}

/// A line of a model, and the model where it is the last one.
fn model_line(
    alloc: Global,
    heading: u64,
    text: &mut Vec<u8>,
    line: &[u8],
) -> Result<Option<Lll>, Unread>
    ensures read { IfOk result (ReadsModelLine text.old.items line.now text.new.items) }
    ensures wrong { IfErr result (IsWrongModel heading text.old.items line.now) }
{
    text.extend_from_slice(line)?;
    text.push(b'\n')?;
    if line != b"end".as_slice() {
        return Ok(None);
    }
    match read_model(alloc, heading, text) {
        Ok(model) => Ok(Some(model)),
        Err(why) => Err(why),
    }
}

impl Progress {
    pub(crate) fn new(alloc: Global) -> Progress
        ensures stage { result.stage ≡ stage.Header }
        ensures fine { IsFine result.stage result }
    {
        Progress {
            stage: Stage::Header,
            depth: 0,
            conflicts: 0,
            heading: 0,
            text: Vec::new(alloc),
            first: None,
            second: None,
            bounds: Bounds {
                depth: 0,
                inputs: 0,
                variables: 0,
            },
            obligations: 0,
            parts: 0,
            due: Due {
                steps: 0,
                logs: 0,
                rows: 0,
                model: false,
                entries: 0,
                number: 1,
            },
            lines: Items::new(alloc),
        }
    }

    /// The first line.
    fn header(&mut self, number: u64, line: &[u8]) -> Result<Said, Unread>
        requires stage { self.old.stage ≡ stage.Header }
        requires fine { IsFine self.old.stage self.old }
        requires within { IsWithinLine line.now }
        ensures fine { OnOk result (IsFine self.new.stage self.new) }
        ensures taken { OnOk result (TakesLine self.old line.now self.new) }
        ensures tells { IfOk result (Tells self.old line.now self.new) }
        ensures adds { OnOk result (AddsLine stage.Header self.old number line.now self.new) }
        ensures wrong { IfErr result (IsWrongLine self.old number line.now) }
    {
        if line != b"hll-evidence 1".as_slice() {
            return Err(Unread::Form(number));
        }
        self.stage = Stage::Depth;
        Ok(Said::Nothing)
    }

    fn depth(&mut self, number: u64, line: &[u8]) -> Result<Said, Unread>
        requires stage { self.old.stage ≡ stage.Depth }
        requires fine { IsFine self.old.stage self.old }
        requires within { IsWithinLine line.now }
        ensures fine { OnOk result (IsFine self.new.stage self.new) }
        ensures taken { OnOk result (TakesLine self.old line.now self.new) }
        ensures tells { IfOk result (Tells self.old line.now self.new) }
        ensures adds { OnOk result (AddsLine stage.Depth self.old number line.now self.new) }
        ensures wrong { IfErr result (IsWrongLine self.old number line.now) }
    {
        match number_line(line, b"depth", 1, 64) {
            Some(depth) => {
                self.depth = depth as u32;
                self.stage = Stage::Conflicts;
                Ok(Said::Nothing)
            }
            None => Err(Unread::Form(number)),
        }
    }

    fn conflicts(&mut self, number: u64, line: &[u8]) -> Result<Said, Unread>
        requires stage { self.old.stage ≡ stage.Conflicts }
        requires fine { IsFine self.old.stage self.old }
        requires within { IsWithinLine line.now }
        ensures fine { OnOk result (IsFine self.new.stage self.new) }
        ensures taken { OnOk result (TakesLine self.old line.now self.new) }
        ensures tells { IfOk result (Tells self.old line.now self.new) }
        ensures adds { OnOk result (AddsLine stage.Conflicts self.old number line.now self.new) }
        ensures wrong { IfErr result (IsWrongLine self.old number line.now) }
    {
        match number_line(line, b"conflicts", 1, 1_000_000) {
            Some(conflicts) => {
                self.conflicts = conflicts as u32;
                self.stage = Stage::FirstHeading;
                Ok(Said::Nothing)
            }
            None => Err(Unread::Form(number)),
        }
    }

    /// The line before the first model.
    fn first_heading(&mut self, number: u64, line: &[u8]) -> Result<Said, Unread>
        requires stage { self.old.stage ≡ stage.FirstHeading }
        requires fine { IsFine self.old.stage self.old }
        requires within { IsWithinLine line.now }
        ensures fine { OnOk result (IsFine self.new.stage self.new) }
        ensures taken { OnOk result (TakesLine self.old line.now self.new) }
        ensures tells { IfOk result (Tells self.old line.now self.new) }
        ensures adds { OnOk result (AddsLine stage.FirstHeading self.old number line.now self.new) }
        ensures wrong { IfErr result (IsWrongLine self.old number line.now) }
    {
        if line != b"text a".as_slice() {
            return Err(Unread::Form(number));
        }
        self.heading = number;
        self.text.clear();
        self.stage = Stage::FirstModel;
        Ok(Said::Nothing)
    }

    fn first_model(&mut self, alloc: Global, line: &[u8]) -> Result<Said, Unread>
        requires stage { self.old.stage ≡ stage.FirstModel }
        requires fine { IsFine self.old.stage self.old }
        requires within { IsWithinLine line.now }
        ensures fine { OnOk result (IsFine self.new.stage self.new) }
        ensures taken { OnOk result (TakesLine self.old line.now self.new) }
        ensures tells { IfOk result (Tells self.old line.now self.new) }
        ensures adds { OnOk result (AddsModelLine stage.FirstModel stage.SecondHeading self.new.first self.old line.now self.new) }
        ensures wrong { IfErr result (IsWrongModel self.old.heading self.old.text.items line.now) }
    {
        match model_line(alloc, self.heading, &mut self.text, line)? {
            Some(model) => {
                self.bounds = Bounds {
                    depth: self.depth,
                    inputs: input_count(model.signals.as_slice()),
                    variables: (self.depth as usize + 1) * model.signals.as_slice().len(),
                };
                self.obligations = model.obligations.as_slice().len() as u64;
                self.first = Some(model);
                self.stage = Stage::SecondHeading;
                Ok(Said::Nothing)
            }
            None => Ok(Said::Nothing),
        }
    }

    /// The line before the second model.
    fn second_heading(&mut self, number: u64, line: &[u8]) -> Result<Said, Unread>
        requires stage { self.old.stage ≡ stage.SecondHeading }
        requires fine { IsFine self.old.stage self.old }
        requires within { IsWithinLine line.now }
        ensures fine { OnOk result (IsFine self.new.stage self.new) }
        ensures taken { OnOk result (TakesLine self.old line.now self.new) }
        ensures tells { IfOk result (Tells self.old line.now self.new) }
        ensures adds { OnOk result (AddsLine stage.SecondHeading self.old number line.now self.new) }
        ensures wrong { IfErr result (IsWrongLine self.old number line.now) }
    {
        if line != b"text b".as_slice() {
            return Err(Unread::Form(number));
        }
        self.heading = number;
        self.text.clear();
        self.stage = Stage::SecondModel;
        Ok(Said::Nothing)
    }

    fn second_model(&mut self, alloc: Global, line: &[u8]) -> Result<Said, Unread>
        requires stage { self.old.stage ≡ stage.SecondModel }
        requires fine { IsFine self.old.stage self.old }
        requires within { IsWithinLine line.now }
        ensures fine { OnOk result (IsFine self.new.stage self.new) }
        ensures taken { OnOk result (TakesLine self.old line.now self.new) }
        ensures tells { IfOk result (Tells self.old line.now self.new) }
        ensures first { OnOk result (self.new.first ≡ self.old.first) }
        ensures adds { OnOk result (AddsModelLine stage.SecondModel stage.Equal self.new.second self.old line.now self.new) }
        ensures wrong { IfErr result (IsWrongModel self.old.heading self.old.text.items line.now) }
    {
        match model_line(alloc, self.heading, &mut self.text, line)? {
            Some(model) => {
                self.parts = part_count(&model);
                self.second = Some(model);
                self.stage = Stage::Equal;
                Ok(Said::Models)
            }
            None => Ok(Said::Nothing),
        }
    }

    /// The line of the parts.
    fn equal(&mut self, alloc: Global, number: u64, line: &[u8]) -> Result<Said, Unread>
        requires stage { self.old.stage ≡ stage.Equal }
        requires fine { IsFine self.old.stage self.old }
        requires within { IsWithinLine line.now }
        ensures fine { OnOk result (IsFine self.new.stage self.new) }
        ensures taken { OnOk result (TakesLine self.old line.now self.new) }
        ensures tells { IfOk result (Tells self.old line.now self.new) }
        ensures adds { OnOk result (AddsLine stage.Equal self.old number line.now self.new) }
        ensures wrong { IfErr result (IsWrongLine self.old number line.now) }
    {
        match equal_line(line, self.parts) {
            Some(EqualLine::Shown) => {
                self.due.logs = 2 * self.parts;
                self.due.entries = self.obligations;
                self.lines = Items::new(alloc);
                self.stage = Stage::Body;
                Ok(Said::Parts(EqualLine::Shown))
            }
            Some(EqualLine::Conflicts { part, stepping }) => {
                self.due.logs = 1;
                self.lines = untried(alloc, self.obligations)?;
                self.stage = Stage::Body;
                Ok(Said::Parts(EqualLine::Conflicts { part, stepping }))
            }
            None => Err(Unread::Form(number)),
        }
    }

    /// What one more statement adds.
    fn advance(&mut self, statement: &Statement) -> Result<(), Unread>
        requires stage { self.old.stage ≡ stage.Body }
        requires due { IsDue self.old.bounds self.old.due statement.now }
        requires number { self.old.due.number < 2 ^ 64 - 1 }
        ensures to { OnOk result (AdvancesTo self.old statement.now self.new) }
        ensures memory { IfErr result (λ e. e ≡ Unread.Memory) }
    {
        self.due = self.due.after_line(&self.bounds, statement);
        match statement {
            Statement::Entry(verdict) => {
                self.lines.push(summary_line(*verdict))?;
                Ok(())
            }
            Statement::End => {
                self.stage = Stage::End;
                Ok(())
            }
            Statement::Step(_) => Ok(()),
            Statement::Log(_) => Ok(()),
            Statement::Row(_) => Ok(()),
            Statement::Model(_) => Ok(()),
        }
    }

    /// A line of what is shown.
    fn body(
        &mut self,
        alloc: Global,
        number: u64,
        line: &[u8],
        room: &mut ReadStep,
    ) -> Result<Said, Unread>
        requires stage { self.old.stage ≡ stage.Body }
        requires fine { IsFine self.old.stage self.old }
        requires within { IsWithinLine line.now }
        ensures fine { OnOk result (IsFine self.new.stage self.new) }
        ensures taken { OnOk result (TakesLine self.old line.now self.new) }
        ensures tells { IfOk result (Tells self.old line.now self.new) }
        ensures adds { OnOk result (AddsLine stage.Body self.old number line.now self.new) }
        ensures wrong { IfErr result (IsWrongLine self.old number line.now) }
    {
        match read_line(alloc, &self.due, &self.bounds, line, room)? {
            Some(statement) => {
                self.advance(&statement)?;
                Ok(Said::Line(statement))
            }
            None => Err(Unread::Form(number)),
        }
    }

    /// The line of this number, without its line feed. There is room for a step.
    pub(crate) fn read(
        &mut self,
        alloc: Global,
        number: u64,
        line: &[u8],
        room: &mut ReadStep,
    ) -> Result<Said, Unread>
        requires fine { IsFine self.old.stage self.old }
        requires within { IsWithinLine line.now }
        ensures fine { OnOk result (IsFine self.new.stage self.new) }
        ensures taken { OnOk result (TakesLine self.old line.now self.new) }
        ensures tells { IfOk result (Tells self.old line.now self.new) }
        ensures adds { OnOk result (AddsLine self.old.stage self.old number line.now self.new) }
        ensures wrong { IfErr result (IsWrong self.old number line.now) }
    {
        match self.stage {
            Stage::Header => self.header(number, line),
            Stage::Depth => self.depth(number, line),
            Stage::Conflicts => self.conflicts(number, line),
            Stage::FirstHeading => self.first_heading(number, line),
            Stage::FirstModel => self.first_model(alloc, line),
            Stage::SecondHeading => self.second_heading(number, line),
            Stage::SecondModel => self.second_model(alloc, line),
            Stage::Equal => self.equal(alloc, number, line),
            Stage::Body => self.body(alloc, number, line, room),
            Stage::End => Err(Unread::Form(number)),
        }
    }

    /// The end of the text in a model.
    fn unended(&mut self, alloc: Global, number: u64, rest: &[u8]) -> Result<(), Unread>
        ensures never { OnOk result ⊥ }
        ensures early { IfErr result (EndsInModel self.old.heading (self.old.text.items ++ rest.now)) }
    {
        self.text.extend_from_slice(rest)?;
        match read_model(alloc, self.heading, &self.text) {
            Ok(_) => Err(Unread::Form(number)),
            Err(why) => Err(why),
        }
    }

    /// The end of the text, with these bytes after the last line feed.
    pub(crate) fn finish(&mut self, alloc: Global, number: u64, rest: &[u8]) -> Result<(), Unread>
        ensures ended { OnOk result (self.old.stage ≡ stage.End) }
        ensures nothing { OnOk result (rest.now ≡ []) }
        ensures lines { OnOk result (self.new.lines ≡ self.old.lines) }
        ensures early { IfErr result (EndsEarly self.old.stage self.old number rest.now) }
    {
        match self.stage {
            Stage::FirstModel | Stage::SecondModel => self.unended(alloc, number, rest),
            Stage::End => match rest {
                [] => Ok(()),
                _ => Err(Unread::Form(number)),
            },
            Stage::Header
            | Stage::Depth
            | Stage::Conflicts
            | Stage::FirstHeading
            | Stage::SecondHeading
            | Stage::Equal
            | Stage::Body => Err(Unread::Form(number)),
        }
    }
}
