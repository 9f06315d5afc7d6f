//! Unit propagation from nothing, to its end.

ghost use Rattle.std.specs.Prelude.{◌≡◌, ◌+◌, ◌*◌, ◌<◌, ◌≤◌, ◌⊎◌, ◌∷◌, ◌++◌, [], ℕ, ℤ, List, IfOk, MatchOption, MatchBool, All, Contains, length};
ghost use Rattle.rup_checker.specs.Formulas.{IsLiteral};
ghost use Rattle.rup_checker.specs.Steps.{IsAllFalse};
ghost use Rattle.rup_checker.specs.Logs.{IsComplete, IsOpen};
ghost use Rattle.rup_checker.specs.Closing.{IsRefuted, IsQuietBut, IsVisited, GoesOn, waiting};
ghost use Rattle.rup_checker.specs.Occurrences.{ListsAll};
ghost use Rattle.rup_checker.specs.Stores.{clause_at};

use crate::formula::MAX_VARIABLES;
use crate::known::KnownClauses;
use crate::marks::LiteralSet;
use crate::occurrences::Occurrences;
use crate::status::{Status, status_of};
use std::alloc::{AllocError, Global};
use std::marker::Model;

/// The literals that are taken false, in order, with a mark for each, and how many of them were followed up.
#[derive(Debug, Drop)]
struct Trail {
    marks: LiteralSet,
    literals: Vec<i32>,
    followed: usize,
}

impl Model for Trail {
    ghost use Rattle.std.specs.Prelude.{◌≤◌, length};
    ghost use Rattle.rup_checker.specs.Closing.{TrailState};

    ghost Value = { TrailState };

    ghost view = { λ t. record { variables = t.marks.variables; taken = t.literals.items; followed = t.followed } };

    ghost use Rattle.rup_checker.specs.Closing.{IsTrail};

    ghost invariant = { λ t. (IsTrail t.marks t.literals.items) × (t.followed ≤ length t.literals.items) };
}

impl Trail {
    /// No literal is taken false.
    fn new(alloc: Global, variables: u32) -> Result<Trail, AllocError>
        requires { variables ≤ MAX_VARIABLES }
        ensures variables { IfOk result (λ t. t.variables ≡ variables) }
        ensures taken { IfOk result (λ t. t.taken ≡ []) }
        ensures followed { IfOk result (λ t. t.followed ≡ 0) }
    {
        Ok(Trail {
            marks: LiteralSet::new(alloc, variables)?,
            literals: Vec::new(alloc),
            followed: 0,
        })
    }

    /// Takes a literal false, if it isn't yet.
    fn take(&mut self, literal: i32) -> Result<(), AllocError>
        requires { IsLiteral self.old.variables literal }
        ensures variables { self.new.variables ≡ self.old.variables }
        ensures followed { self.new.followed ≡ self.old.followed }
        ensures taken { IfOk result (λ _. ((self.new ≡ self.old) × Contains self.old.taken literal) ⊎ (self.new ≡ record self.old { taken = self.old.taken ++ literal ∷ [] })) }
    {
        if !self.marks.contains(literal) {
            self.literals.push(literal)?;
            self.marks.insert(literal);
        }
        Ok(())
    }

    /// The next literal to be followed up.
    fn next(&mut self) -> Option<i32>
        ensures variables { self.new.variables ≡ self.old.variables }
        ensures taken { self.new.taken ≡ self.old.taken }
        ensures next { MatchOption result (waiting self.old ≡ []) (λ l. waiting self.old ≡ l ∷ waiting self.new) }
        ensures in_range { MatchOption result (self.new ≡ self.old) (λ l. IsLiteral self.old.variables l) }
        ensures further { MatchOption result (self.new ≡ self.old) (λ _. self.new.followed ≡ self.old.followed + 1) }
        ensures bound { self.new.followed ≤ 2 * self.old.variables + 1 }
    {
        let literal = self.literals.get(self.followed).copied()?;
        self.followed += 1;
        Some(literal)
    }

    /// Looks at a clause, and answers whether it is false. Where just one literal of it isn't false, its negation is
    /// taken false.
    fn visit(&mut self, clause: &[i32]) -> Result<bool, AllocError>
        requires { All (IsLiteral self.old.variables) clause.now }
        ensures variables { self.new.variables ≡ self.old.variables }
        ensures followed { self.new.followed ≡ self.old.followed }
        ensures visited { IfOk result (λ conflict. MatchBool conflict (IsAllFalse (Contains self.old.taken) clause.now) (IsVisited self.old self.new clause.now)) }
    {
        match status_of(&self.marks, clause) {
            Status::False => return Ok(true),
            Status::Unit(literal) => self.take(-literal)?,
            Status::Open => {}
        }
        Ok(false)
    }
}

/// Each clause under each of its literals.
fn occurrences(alloc: Global, known: &KnownClauses) -> Result<Occurrences, AllocError>
    ensures variables { IfOk result (λ o. o.variables ≡ known.now.variables) }
    ensures all { IfOk result (λ o. ListsAll known.now.clauses (length known.now.clauses) o) }
{
    let mut occurrences = Occurrences::new(alloc, known.variables())?;
    for number in 0..known.len() {
        occurrences.add_each(known.clause(number), number)?;
    }
    Ok(occurrences)
}

/// Unit propagation over known clauses, which are listed under their literals.
#[derive(Debug, Drop)]
struct Propagation<'a> {
    known: KnownClauses<'a>,
    occurrences: Occurrences,
    trail: Trail,
}

impl<'a> Model for Propagation<'a> {
    ghost use Rattle.rup_checker.specs.Closing.{Propagating, IsPropagation};

    ghost Value = { Propagating };

    ghost view = { λ p. record { known = p.known; trail = p.trail } };

    ghost invariant = { λ p. IsPropagation p.known p.occurrences p.trail };
}

impl<'a> Propagation<'a> {
    /// Nothing is taken false, and no clause was looked at.
    fn new(alloc: Global, known: KnownClauses<'a>) -> Result<Propagation<'a>, AllocError>
        ensures known { IfOk result (λ p. p.known ≡ known.entry) }
        ensures unseen { IfOk result (λ p. IsQuietBut known.entry.clauses (λ n. 0 ≤ n) p.trail) }
    {
        let occurrences = occurrences(alloc, &known)?;
        let trail = Trail::new(alloc, known.variables())?;
        Ok(Propagation {
            known,
            occurrences,
            trail,
        })
    }

    /// Looks at every clause, and answers whether one is false.
    fn visit_all(&mut self) -> Result<bool, AllocError>
        requires { IsQuietBut self.old.known.clauses (λ n. 0 ≤ n) self.old.trail }
        ensures known { self.new.known ≡ self.old.known }
        ensures visited { IfOk result (GoesOn self.old.known.clauses (λ _. ⊥) self.new.trail) }
    {
        for number in 0..self.known.len() {
            if self.trail.visit(self.known.clause(number))? {
                return Ok(true);
            }
        }
        Ok(false)
    }

    /// Looks at the clauses with this literal, and answers whether one is false.
    fn visit_listed(&mut self, literal: i32) -> Result<bool, AllocError>
        requires literal { IsLiteral self.old.known.variables literal }
        requires unseen { IsQuietBut self.old.known.clauses (λ n. Contains (clause_at self.old.known.clauses n) literal) self.old.trail }
        ensures known { self.new.known ≡ self.old.known }
        ensures followed { self.new.trail.followed ≡ self.old.trail.followed }
        ensures visited { IfOk result (GoesOn self.old.known.clauses (λ _. ⊥) self.new.trail) }
    {
        let mut link = self.occurrences.head(literal);
        while let Some(cell) = self.occurrences.follow(link) {
            if self.trail.visit(self.known.clause(cell.number as usize))? {
                return Ok(true);
            }
            link = cell.rest;
        }
        Ok(false)
    }

    /// Follows up the literals that are taken false until none waits, and answers whether a clause became false.
    fn follow_up(&mut self) -> Result<bool, AllocError>
        requires { IsQuietBut self.old.known.clauses (λ _. ⊥) self.old.trail }
        ensures { IfOk result (λ conflict. MatchBool conflict (IsRefuted self.old.known.clauses) (IsOpen self.old.known.clauses)) }
    {
        while let Some(literal) = self.trail.next() {
            if self.visit_listed(literal)? {
                return Ok(true);
            }
        }
        Ok(false)
    }
}

/// Whether unit propagation reaches a false clause.
pub(crate) fn reaches_conflict(alloc: Global, known: KnownClauses) -> Result<bool, AllocError>
    ensures { IfOk result (λ conflict. MatchBool conflict (IsRefuted known.entry.clauses) (IsOpen known.entry.clauses)) }
{
    let mut propagation = Propagation::new(alloc, known)?;
    if propagation.visit_all()? {
        return Ok(true);
    }
    propagation.follow_up()
}

/// Where unit propagation has ended without a false clause, no hints reach one.
pub fn ended_propagation_is_open()
    ensures { (clauses : List (List ℤ)) (taken : List ℤ) → IsComplete clauses (Contains taken) → IsOpen clauses }
{}
