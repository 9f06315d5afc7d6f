//! A text that comes in pieces.

ghost use Rattle.std.specs.Prelude.{◌≡◌, ◌+◌, ◌-◌, ◌^◌, ◌<◌, ◌++◌, ◌==◌, [], ℕ, List, Err, length, position, IfErr, OnOk};
ghost use Rattle.lll_text.specs.Spelling.{line};
ghost use Rattle.evidence.specs.Standing.{IsFine, IsWithinLine, IsWrong};
ghost use Rattle.evidence.specs.Stands.{IsReading, IsReadingShort, FailsIn, Keeps, HasFailed, IsAlive, Stands, RefusesBytes, IsWhole};
ghost use Rattle.evidence.specs.Checking.{Answers};

use crate::claims_judged::Judged;
use crate::read_step::ReadStep;
use crate::reader_fields::around;
use crate::reader_judging::{answer, judge_on};
use crate::reader_progress::Progress;
use crate::unread::Unread;
use crate::{EvidenceFault, Summary};
use std::alloc::{AllocError, Global};

/// How many bytes a file has at most.
pub const LIMIT: u64 = 0x4000_0000;

/// What is read of a text so far.
#[derive(Debug, Drop)]
pub struct Feed {
    /// How many bytes came.
    bytes: u64,
    /// The number of the line that is not whole yet.
    line: u64,
    /// What came of it.
    pending: Vec<u8>,
    progress: Progress,
    /// Room for the next step.
    room: ReadStep,
    /// What is judged of its claims, once both models are read.
    judged: Option<Judged>,
    /// The first wrong line.
    form: Option<u64>,
    /// Memory ran out.
    failed: bool,
}

/// Where the first line feed stands.
fn line_feed(bytes: &[u8]) -> Option<usize>
    ensures { result ≡ position (λ b. b == 10) bytes.now }
{
    bytes.iter().position(|byte| *byte == b'\n')
}

impl Feed {
    /// No bytes came yet.
    pub fn new(alloc: Global) -> Feed
        ensures alive { IsAlive result }
        ensures stands { Stands result [] }
    {
        Feed {
            bytes: 0,
            line: 1,
            pending: Vec::new(alloc),
            progress: Progress::new(alloc),
            room: ReadStep::empty(alloc),
            judged: None,
            form: None,
            failed: false,
        }
    }

    /// The rest of a line, without its line feed.
    fn line(&mut self, alloc: Global, rest: &[u8]) -> Result<(), Unread>
        requires fine { IsFine self.old.progress.stage self.old.progress }
        requires pending { IsWithinLine self.old.pending.items }
        requires rest { IsWithinLine rest.now }
        requires number { self.old.line < 2 ^ 64 - 1 }
        requires short { IsReadingShort self.old (line rest.now) }
        ensures fine { OnOk result (IsFine self.new.progress.stage self.new.progress) }
        ensures pending { OnOk result (self.new.pending.items ≡ []) }
        ensures number { OnOk result (self.new.line ≡ self.old.line + 1) }
        ensures reading { OnOk result ((bytes : List ℕ) → IsReading self.old bytes → IsReading self.new (bytes ++ line rest.now)) }
        ensures wrong { IfErr result (IsWrong self.old.progress self.old.line (self.old.pending.items ++ rest.now)) }
        ensures keeps { Keeps self.old self.new }
    {
        if self.pending.is_empty() {
            let said = self.progress.read(alloc, self.line, rest, &mut self.room)?;
            judge_on(
                alloc,
                &self.progress,
                &mut self.judged,
                self.line,
                said,
                &mut self.room,
            )?;
            self.line += 1;
            return Ok(());
        }
        self.pending.extend_from_slice(rest)?;
        let said = self
            .progress
            .read(alloc, self.line, &self.pending, &mut self.room)?;
        judge_on(
            alloc,
            &self.progress,
            &mut self.judged,
            self.line,
            said,
            &mut self.room,
        )?;
        self.pending.clear();
        self.line += 1;
        Ok(())
    }

    /// The lines of a piece, and the front of one that isn't whole.
    fn lines(&mut self, alloc: Global, piece: &[u8]) -> Result<(), Unread>
        requires fine { IsFine self.old.progress.stage self.old.progress }
        requires pending { IsWithinLine self.old.pending.items }
        requires number { self.old.line + length piece.now < 2 ^ 64 - 1 }
        requires short { IsReadingShort self.old piece.now }
        ensures reading { OnOk result ((bytes : List ℕ) → IsReading self.old bytes → IsReading self.new (bytes ++ piece.now)) }
        ensures wrong { IfErr result (FailsIn self.old piece.now) }
        ensures keeps { Keeps self.old self.new }
    {
        let mut rest = piece;
        while let Some(end) = line_feed(rest) {
            let (front, back) = around(rest, end);
            self.line(alloc, front)?;
            rest = back;
        }
        self.pending.extend_from_slice(rest)?;
        Ok(())
    }

    /// More bytes of the text. A wrong line is kept while the rest is counted.
    pub fn feed(&mut self, alloc: Global, piece: &[u8]) -> Result<(), AllocError>
        requires stands { (bytes : List ℕ) × Stands self.old bytes }
        // Whatever is answered, the bytes so far are those before and the piece.
        ensures stands { (bytes : List ℕ) → Stands self.old bytes → Stands self.new (bytes ++ piece.now) }
        ensures failing { IfErr result (λ e. HasFailed self.new) }
        // Once memory ran out, it stays so.
        ensures failed { HasFailed self.old → OnOk result ⊥ }
        ensures alive { OnOk result (IsAlive self.new) }
    {
        if self.failed {
            return Err(AllocError);
        }
        self.bytes = self.bytes.saturating_add(piece.len() as u64);
        if self.form.is_some() || self.bytes > LIMIT {
            return Ok(());
        }
        match self.lines(alloc, piece) {
            Ok(()) => Ok(()),
            Err(Unread::Form(line)) => {
                self.form = Some(line);
                Ok(())
            }
            Err(Unread::Memory) => {
                self.failed = true;
                Err(AllocError)
            }
        }
    }

    /// Whether the bytes are a text, at their end.
    fn finish(&mut self, alloc: Global) -> Result<(), EvidenceFault>
        ensures wrong { IfErr result (RefusesBytes self.old) }
        ensures ended { OnOk result (IsWhole self.old self.new) }
        ensures failed { HasFailed self.old → result ≡ Err EvidenceFault.Memory }
    {
        if self.failed {
            return Err(EvidenceFault::Memory);
        }
        if self.bytes > LIMIT {
            return Err(EvidenceFault::Long);
        }
        if let Some(line) = self.form {
            return Err(EvidenceFault::Form { line });
        }
        match self.progress.finish(alloc, self.line, &self.pending) {
            Ok(()) => Ok(()),
            Err(Unread::Form(line)) => Err(EvidenceFault::Form { line }),
            Err(Unread::Memory) => Err(EvidenceFault::Memory),
        }
    }

    /// The end of the text.
    pub fn end(self, alloc: Global) -> Result<Summary, EvidenceFault>
        requires stands { (bytes : List ℕ) × Stands self bytes }
        ensures answers { (bytes : List ℕ) → Stands self bytes → Answers bytes result }
        ensures failed { HasFailed self → result ≡ Err EvidenceFault.Memory }
    {
        let mut feed = self;
        match feed.finish(alloc) {
            Ok(()) => {
                let Feed {
                    progress,
                    judged,
                    ..
                } = feed;
                answer(judged, progress.lines)
            }
            Err(why) => Err(why),
        }
    }
}
