//! Whether a clause is new: not empty, without a literal and its negation, and containing no clause that is known.

ghost use Rattle.std.specs.Prelude.{◌≡◌, ◌+◌, ◌<◌, ◌≤◌, ◌⊎◌, ◌∷◌, [], ℕ, ℤ, neg_ℤ, Bool, List, Some, IsTrue, IfOk, OnOk, MatchOption, MatchBool, All, Any, Contains, length, slice_get};
ghost use Rattle.rup_checker.specs.Formulas.{IsLiteral};
ghost use Rattle.rup_checker.specs.Marks.{IsMarked, Marks, IsClear};
ghost use Rattle.rup_checker.specs.Logs.{IsNew};
ghost use Rattle.rup_checker.specs.Occurrences.{listed};
ghost use Rattle.rup_checker.specs.Containment.{AreAnchored, IsCovered, IsSubsumption};

use crate::formula::MAX_VARIABLES;
use crate::hints::{remove_all, take_false};
use crate::known::KnownClauses;
use crate::marks::LiteralSet;
use crate::occurrences::Occurrences;
use std::alloc::{AllocError, Global};
use std::marker::Model;

/// Each clause under one of its literals. A clause that contains it has that literal.
#[derive(Debug, Drop)]
pub struct Anchors {
    occurrences: Occurrences,
    has_empty: bool,
}

/// The literal of a clause under which no clause was listed for the longest time: so no list grows much longer than the
/// others.
fn least_recent(occurrences: &Occurrences, clause: &[i32]) -> Option<i32>
    requires { All (IsLiteral occurrences.now.variables) clause.now }
    ensures { MatchOption result (clause.now ≡ []) (Contains clause.now) }
{
    let mut least = *clause.first()?;
    for &literal in clause {
        if occurrences.head(literal) < occurrences.head(least) {
            least = literal;
        }
    }
    Some(least)
}

impl Anchors {
    /// No clauses, for literals of the variables 1 to `variables`.
    pub fn new(alloc: Global, variables: u32) -> Result<Anchors, AllocError>
        requires { variables ≤ MAX_VARIABLES }
        ensures variables { IfOk result (λ a. a.occurrences.variables ≡ variables) }
        ensures none { (clauses : List (List ℤ)) → IfOk result (AreAnchored clauses 0) }
    {
        Ok(Anchors {
            occurrences: Occurrences::new(alloc, variables)?,
            has_empty: false,
        })
    }

    /// Adds the clause with the next number.
    pub fn add(&mut self, clause: &[i32], number: usize) -> Result<(), AllocError>
        requires { All (IsLiteral self.old.occurrences.variables) clause.now }
        ensures variables { OnOk result (self.new.occurrences.variables ≡ self.old.occurrences.variables) }
        ensures one_more { (clauses : List (List ℤ)) → slice_get clauses number ≡ Some clause.now →
            AreAnchored clauses number self.old → OnOk result (AreAnchored clauses (number + 1) self.new) }
    {
        match least_recent(&self.occurrences, clause) {
            Some(literal) => self.occurrences.add(literal, number)?,
            None => self.has_empty = true,
        }
        Ok(())
    }
}

/// Whether every literal of a clause is marked.
fn is_covered(marks: &LiteralSet, clause: &[i32]) -> bool
    requires { All (IsLiteral marks.now.variables) clause.now }
    ensures { MatchBool result (All (IsMarked marks.now) clause.now) (¬ (All (IsMarked marks.now) clause.now)) }
{
    for &literal in clause {
        if !marks.contains(literal) {
            return false;
        }
    }
    true
}

/// Whether no literal of a clause has its negation marked.
fn is_consistent(marks: &LiteralSet, clause: &[i32]) -> bool
    requires { All (IsLiteral marks.now.variables) clause.now }
    ensures { MatchBool result (All (λ l. ¬ (IsMarked marks.now (neg_ℤ l))) clause.now)
        (Any (λ l. IsMarked marks.now (neg_ℤ l)) clause.now) }
{
    for &literal in clause {
        if marks.contains_negation(literal) {
            return false;
        }
    }
    true
}

/// Known clauses that are listed each under one of its literals, and literals that are marked.
#[derive(Debug, Drop)]
struct Subsumption<'a> {
    known: &'a KnownClauses<'a>,
    anchors: &'a Anchors,
    marks: &'a LiteralSet,
}

impl<'a> Model for Subsumption<'a> {
    ghost use Rattle.rup_checker.specs.Containment.{Subsuming, IsSubsumption};

    ghost Value = { Subsuming };

    ghost view = { λ s. record { known = s.known.now; anchors = s.anchors.now; marks = s.marks.now } };

    ghost invariant = { λ s. IsSubsumption s.known.now s.anchors.now s.marks.now };
}

impl<'a> Subsumption<'a> {
    /// Whether one of the clauses that are listed under a literal has only literals that are marked.
    fn covers_one(&self, literal: i32) -> bool
        requires { IsLiteral self.now.known.variables literal }
        ensures { MatchBool result
            (Any (IsCovered self.now.known.clauses self.now.marks) (listed self.now.anchors.occurrences literal))
            (All (λ n. ¬ (IsCovered self.now.known.clauses self.now.marks n)) (listed self.now.anchors.occurrences literal)) }
    {
        let mut link = self.anchors.occurrences.head(literal);
        while let Some(cell) = self.anchors.occurrences.follow(link) {
            if is_covered(self.marks, self.known.clause(cell.number as usize)) {
                return true;
            }
            link = cell.rest;
        }
        false
    }

    /// Whether one of the clauses that are listed under these literals has only literals that are marked.
    fn covers_any(&self, clause: &[i32]) -> bool
        requires { All (IsLiteral self.now.known.variables) clause.now }
        ensures { MatchBool result
            (Any (λ l. Any (IsCovered self.now.known.clauses self.now.marks) (listed self.now.anchors.occurrences l)) clause.now)
            (All (λ l. All (λ n. ¬ (IsCovered self.now.known.clauses self.now.marks n)) (listed self.now.anchors.occurrences l)) clause.now) }
    {
        for &literal in clause {
            if self.covers_one(literal) {
                return true;
            }
        }
        false
    }

    /// Whether a clause, whose literals are those that are marked, is new among the known ones.
    fn admits(&self, clause: &[i32]) -> bool
        requires in_range { All (IsLiteral self.now.known.variables) clause.now }
        requires marked { Marks self.now.marks clause.now }
        ensures { MatchBool result (IsNew self.now.known.clauses clause.now) (¬ (IsNew self.now.known.clauses clause.now)) }
    {
        if clause.is_empty() {
            return false;
        }
        if self.anchors.has_empty {
            return false;
        }
        if !is_consistent(self.marks, clause) {
            return false;
        }
        !self.covers_any(clause)
    }
}

/// Whether a clause is new among the known ones. No literal is marked before, and none after.
pub fn is_new(
    known: &KnownClauses,
    anchors: &Anchors,
    marks: &mut LiteralSet,
    clause: &[i32],
) -> bool
    requires listed { IsSubsumption known.now anchors.now marks.old }
    requires in_range { All (IsLiteral known.now.variables) clause.now }
    requires clear { IsClear marks.old }
    ensures variables { marks.new.variables ≡ marks.old.variables }
    ensures clear { IsClear marks.new }
    ensures new { MatchBool result (IsNew known.now.clauses clause.now) (¬ (IsNew known.now.clauses clause.now)) }
{
    take_false(marks, clause);
    let subsumption = Subsumption {
        known,
        anchors,
        marks,
    };
    let new = subsumption.admits(clause);
    remove_all(marks, clause);
    new
}
