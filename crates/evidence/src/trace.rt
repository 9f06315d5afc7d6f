//! The run of a trace, row by row.

ghost use Rattle.std.specs.Prelude.{◌≡◌, ◌↔◌, ◌+◌, ◌<◌, ◌∷◌, ◌++◌, [], ℕ, Bool, List, length, IsTrue, IfOk};
ghost use Rattle.lll_core.specs.Signals.{signal_of};
ghost use Rattle.lll_core.specs.Tables.{value as value_of, input_count, AreInputs};
ghost use Rattle.unroll_cnf.specs.Counterexamples.{IsAdmitted};
ghost use Rattle.evidence.specs.Refusals.{IsTrace};
ghost use Rattle.evidence.specs.Claims.{IsSized, HasRun};

use lll_core::{Lll, eval_into};
use sqlite_items::Items;
use std::alloc::{AllocError, Global};
use std::mem::swap;

/// The last instant of the run so far, and room for the next.
#[derive(Debug, Drop)]
pub(crate) struct Trace {
    before: Vec<bool>,
    next: Vec<bool>,
    /// Whether there is no instant so far.
    is_first: bool,
    /// Whether assume and the constraints were true at each instant so far.
    is_admitted: bool,
}

/// The value of a literal at an instant.
fn value(now: &[bool], literal: u32) -> bool
    requires { signal_of literal < length now.now }
    ensures { result ≡ value_of now.now literal }
{
    now[(literal / 2) as usize] != (literal % 2 == 1)
}

/// Whether assume and the constraints are true at an instant.
fn is_admitted(l: &Lll, now: &[bool]) -> bool
    requires { length now.now ≡ length l.now.signals }
    ensures { IsTrue result ↔ IsAdmitted l.now now.now }
{
    if !value(now, l.assume) {
        return false;
    }
    let constraints = l.constraints.as_slice();
    for constraint in constraints {
        if !value(now, *constraint) {
            return false;
        }
    }
    true
}

impl Trace {
    /// No instant so far.
    pub(crate) fn new(alloc: Global, l: &Lll) -> Result<Trace, AllocError>
        ensures sized { IfOk result (IsSized l.now) }
        ensures none { IfOk result (HasRun l.now []) }
    {
        let size = l.signals.len();
        Ok(Trace {
            before: vec![in alloc; false; size]?,
            next: vec![in alloc; false; size]?,
            is_first: true,
            is_admitted: true,
        })
    }

    /// Takes the inputs of the next instant.
    pub(crate) fn row(&mut self, l: &Lll, inputs: &[bool])
        requires sized { IsSized l.now self.old }
        requires inputs { length inputs.now ≡ input_count l.now.signals }
        ensures sized { IsSized l.now self.new }
        ensures run { (rows : List (List Bool)) → HasRun l.now rows self.old → HasRun l.now (rows ++ inputs.now ∷ []) self.new }
    {
        eval_into(l, self.is_first, inputs, &self.before, &mut self.next);
        swap(&mut self.before, &mut self.next);
        self.is_first = false;
        self.is_admitted = self.is_admitted && is_admitted(l, &self.before);
    }

    /// Whether the run breaks the obligation with this number at its last instant.
    pub(crate) fn is_break(&self, l: &Lll, p: usize) -> bool
        requires sized { IsSized l.now self.now }
        requires obligation { p < length l.now.obligations }
        ensures { (rows : List (List Bool)) (j : ℕ) → HasRun l.now rows self.now → length rows ≡ j + 1 →
            IsTrue result ↔ IsTrace l.now p j rows }
    {
        self.is_admitted && !value(&self.before, l.obligations.as_slice()[p])
    }
}

/// Whether the rows are the inputs of a run that breaks the obligation with this number at its last instant.
pub(crate) fn breaks(
    alloc: Global,
    l: &Lll,
    p: usize,
    rows: &[Items<bool>],
) -> Result<bool, AllocError>
    requires obligation { p < length l.now.obligations }
    requires inputs { AreInputs l.now.signals rows.now }
    ensures { IfOk result (λ yes. (j : ℕ) → length rows.now ≡ j + 1 → IsTrue yes ↔ IsTrace l.now p j rows.now) }
{
    let mut trace = Trace::new(alloc, l)?;
    for row in rows {
        trace.row(l, row.as_slice());
    }
    Ok(trace.is_break(l, p))
}
