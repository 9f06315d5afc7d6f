//! The claims of a text, judged as its lines come, so that no log is kept that was judged.

ghost use Rattle.std.specs.Prelude.{◌≡◌, ◌+◌, ◌-◌, ◌^◌, ◌<◌, ◌≤◌, [], length, IfOk};
ghost use Rattle.rup_checker.specs.Formulas.{Satisfies, listed};
ghost use Rattle.unroll_cnf.specs.Unrollings.{step_formula};
ghost use Rattle.lll_core.specs.Tables.{AreInputs};
ghost use Rattle.lll_core.specs.declared.lll.Lll.{Lll as LllValue};
ghost use Rattle.miter.specs.Miters.{IsMiter};
ghost use Rattle.evidence.specs.declared.fault.Cause.TheVariants as cause;
ghost use Rattle.evidence.specs.declared.reader_due.Statement.TheVariants as line;
ghost use Rattle.evidence.specs.Accepted.{IsSmallFormula};
ghost use Rattle.evidence.specs.Claims.{IsAlone};
ghost use Rattle.evidence.specs.Tracking.{IsTracked};
ghost use Rattle.evidence.specs.LogClaims.{line_instants, verdict_instants};
ghost use Rattle.evidence.specs.Readers.{VerdictFits};
ghost use Rattle.evidence.specs.Judging.{RowsHold, RowsFit, claim_at, CanJudge, HasRoom, HasNext, place_after, place_in_entry, BeginsRows, Expects, TakesLineOf, ClosesLog, BeginsClaims};

use crate::Cause;
use crate::assignment::satisfies;
use crate::claim::ClaimFault;
use crate::claimed_logs::{Claim, entry_claim, part_claim};
use crate::counting::instants_of_place;
use crate::open_log::OpenLog;
use crate::read_step::ReadStep;
use crate::reader_due::Statement;
use crate::reader_lines::{EqualLine, Verdict};
use crate::trace::breaks;
use lll_core::Lll;
use miter::MiterLll;
use sqlite_items::Items;
use std::alloc::{AllocError, Global};
use std::mem::replace;
use unroll_cnf::{fits, step};

/// Where the next log, row or assignment stands.
#[derive(Clone, Copy, Debug, PartialEq, Eq)]
pub enum Place {
    /// Among the logs of the parts, after so many.
    Parts {
        said: EqualLine,
        closed: usize,
    },
    /// In the entry of the obligation with this number from 0, after so many logs.
    Entry {
        p: usize,
        verdict: Verdict,
        closed: u32,
    },
}

/// What is known of the claims so far, where none failed.
#[derive(Debug, Drop)]
pub(crate) struct Claims {
    pub depth: u32,
    pub conflicts: u32,
    pub miter: MiterLll,
    pub place: Place,
    /// The line of the last log.
    pub log_at: u64,
    /// How many of its steps are still to come, and what is known of those that came.
    pub left: u32,
    pub open_log: OpenLog,
    /// The line of the first row of the entry, and its rows so far.
    pub rows_at: u64,
    pub rows: Items<Items<bool>>,
}

/// The instants of the largest formula that the logs of the parts use.
fn instants_of_line(said: EqualLine) -> u32
    ensures { result ≡ line_instants said }
{
    match said {
        EqualLine::Shown => 2,
        EqualLine::Conflicts { stepping, .. } => if stepping { 2 } else { 1 },
    }
}

/// The instants of the largest formula that an entry uses.
fn instants_of_verdict(depth: u32, verdict: Verdict) -> u32
    requires depth { depth ≤ 64 }
    requires fits { VerdictFits depth verdict }
    ensures { result ≡ verdict_instants depth verdict }
{
    match verdict {
        Verdict::Proved(k) => k + 1,
        Verdict::Falsified(n) => n - 1,
        Verdict::Depth => depth + 1,
        Verdict::Conflicts(place) => instants_of_place(place),
    }
}

/// The rows so far, of which the first stands in the line with this number.
fn judge_rows(
    alloc: Global,
    l: &Lll,
    p: usize,
    verdict: Verdict,
    rows: &[Items<bool>],
    at: u64,
) -> Result<(), ClaimFault>
    requires obligation { p < length l.now.obligations }
    requires inputs { AreInputs l.now.signals rows.now }
    requires fits { RowsFit verdict rows.now }
    ensures { IsAlone (RowsHold l.now p verdict rows.now) at cause.Trace result }
{
    match verdict {
        Verdict::Falsified(n) => {
            if rows.len() < n as usize {
                return Ok(());
            }
            if breaks(alloc, l, p, rows)? {
                return Ok(());
            }
            Err(ClaimFault::Refused {
                line: at,
                cause: Cause::Trace,
            })
        }
        Verdict::Proved(_) => Ok(()),
        Verdict::Depth => Ok(()),
        Verdict::Conflicts(_) => Ok(()),
    }
}

/// The assignment of the last round.
fn judge_values(
    alloc: Global,
    l: &Lll,
    p: usize,
    depth: u32,
    values: &[bool],
    at: u64,
) -> Result<(), ClaimFault>
    requires obligation { p < length l.now.obligations }
    requires size { IsSmallFormula (depth + 1) (length l.now.signals) }
    ensures { IsAlone (Satisfies (listed values.now) (step_formula l.now p depth).clauses) at cause.Model result }
{
    let formula = step(alloc, l, p, depth)?;
    if satisfies(&formula, values) {
        return Ok(());
    }
    Err(ClaimFault::Refused {
        line: at,
        cause: Cause::Model,
    })
}

impl Place {
    /// After one log more.
    fn after_log(self) -> Place
        requires { HasRoom self }
        ensures { result ≡ place_after self }
    {
        match self {
            Place::Parts { said, closed } => Place::Parts {
                said,
                closed: closed + 1,
            },
            Place::Entry { p, verdict, closed } => Place::Entry {
                p,
                verdict,
                closed: closed + 1,
            },
        }
    }

    /// At the next entry.
    fn next_entry(self, verdict: Verdict) -> Place
        requires { HasNext self }
        ensures { result ≡ place_in_entry self verdict }
    {
        match self {
            Place::Parts { .. } => Place::Entry {
                p: 0,
                verdict,
                closed: 0,
            },
            Place::Entry { p, .. } => Place::Entry {
                p: p + 1,
                verdict,
                closed: 0,
            },
        }
    }
}

impl Claims {
    /// The line of the parts.
    pub(crate) fn new(
        alloc: Global,
        miter: MiterLll,
        depth: u32,
        conflicts: u32,
        said: EqualLine,
        at: u64,
    ) -> Result<Claims, ClaimFault>
        ensures { BeginsClaims miter depth conflicts said at result }
    {
        if !fits(&miter.lll, instants_of_line(said)) {
            return Err(ClaimFault::Refused {
                line: at,
                cause: Cause::Size,
            });
        }
        Ok(Claims {
            depth,
            conflicts,
            miter,
            place: Place::Parts { said, closed: 0 },
            log_at: 0,
            left: 0,
            open_log: OpenLog::Closed,
            rows_at: 0,
            rows: Items::new(alloc),
        })
    }

    /// What the next log claims.
    fn claim(&self, alloc: Global, a: &Lll) -> Result<Claim, AllocError>
        requires { CanJudge a.now self.now.miter self.now.place }
        ensures { IfOk result (λ claim. claim ≡ claim_at a.now self.now.miter self.now.place) }
    {
        match self.place {
            Place::Parts { said, closed } => part_claim(alloc, &self.miter, said, closed),
            Place::Entry { p, verdict, closed } => entry_claim(alloc, a, p, verdict, closed),
        }
    }

    /// The log has all its steps.
    fn close(&mut self, alloc: Global) -> Result<(), ClaimFault>
        requires room { HasRoom self.old.place }
        requires tracked { IsTracked self.old.log_at self.old.open_log }
        ensures judged { ClosesLog self.old self.new result }
        ensures left { self.new.left ≡ self.old.left }
    {
        let open_log = replace(&mut self.open_log, OpenLog::Closed);
        open_log.outcome(alloc, self.log_at)?;
        self.place = self.place.after_log();
        Ok(())
    }

    /// A log begins, of so many steps.
    fn log(&mut self, alloc: Global, a: &Lll, number: u64, count: u32) -> Result<(), ClaimFault>
        requires { Expects a.now self.old number (line.Log count) }
        ensures { TakesLineOf a.now self.old number (line.Log count) self.new result }
    {
        let claim = self.claim(alloc, a)?;
        self.open_log = OpenLog::new(alloc, claim, self.conflicts, number, count)?;
        self.log_at = number;
        self.left = count;
        if count > 0 {
            return Ok(());
        }
        self.close(alloc)
    }

    /// The next step of the log that is open.
    fn step(&mut self, alloc: Global, number: u64, step: &ReadStep) -> Result<(), ClaimFault>
        requires { (a : LllValue) × Expects a self.old number (line.Step step.now) }
        ensures { (a : LllValue) → TakesLineOf a self.old number (line.Step step.now) self.new result }
    {
        self.open_log.step(step, number)?;
        self.left -= 1;
        if self.left > 0 {
            return Ok(());
        }
        self.close(alloc)
    }

    /// The line of the first row, where the next is in the line with this number.
    fn first_row(&self, number: u64) -> u64
        ensures { BeginsRows self.now number result }
    {
        if self.rows.is_empty() {
            number
        } else {
            self.rows_at
        }
    }

    fn row(
        &mut self,
        alloc: Global,
        a: &Lll,
        number: u64,
        row: Items<bool>,
    ) -> Result<(), ClaimFault>
        requires { Expects a.now self.old number (line.Row row) }
        ensures { TakesLineOf a.now self.old number (line.Row row) self.new result }
    {
        self.rows_at = self.first_row(number);
        self.rows.push(row)?;
        match self.place {
            Place::Entry { p, verdict, .. } => {
                judge_rows(alloc, a, p, verdict, self.rows.as_slice(), self.rows_at)
            }
            Place::Parts { .. } => Ok(()),
        }
    }

    fn model(
        &mut self,
        alloc: Global,
        a: &Lll,
        number: u64,
        values: &[bool],
    ) -> Result<(), ClaimFault>
        requires { Expects a.now self.old number (line.Model values.now) }
        ensures { TakesLineOf a.now self.old number (line.Model values.now) self.new result }
    {
        match self.place {
            Place::Entry { p, .. } => judge_values(alloc, a, p, self.depth, values, number),
            Place::Parts { .. } => Ok(()),
        }
    }

    fn entry(
        &mut self,
        alloc: Global,
        a: &Lll,
        number: u64,
        verdict: Verdict,
    ) -> Result<(), ClaimFault>
        requires { Expects a.now self.old number (line.Entry verdict) }
        ensures { TakesLineOf a.now self.old number (line.Entry verdict) self.new result }
    {
        if !fits(a, instants_of_verdict(self.depth, verdict)) {
            return Err(ClaimFault::Refused {
                line: number,
                cause: Cause::Size,
            });
        }
        self.rows = Items::new(alloc);
        self.place = self.place.next_entry(verdict);
        Ok(())
    }

    /// The line with this number, after the line of the parts. A step leaves its memory as room for the next.
    pub(crate) fn take(
        &mut self,
        alloc: Global,
        a: &Lll,
        number: u64,
        statement: Statement,
        room: &mut ReadStep,
    ) -> Result<(), ClaimFault>
        requires { Expects a.now self.old number statement }
        ensures { TakesLineOf a.now self.old number statement self.new result }
    {
        match statement {
            Statement::Step(step) => {
                *room = step;
                self.step(alloc, number, room)
            }
            Statement::Log(count) => self.log(alloc, a, number, count),
            Statement::Row(row) => self.row(alloc, a, number, row),
            Statement::Model(values) => self.model(alloc, a, number, values.as_slice()),
            Statement::Entry(verdict) => self.entry(alloc, a, number, verdict),
            Statement::End => Ok(()),
        }
    }
}
