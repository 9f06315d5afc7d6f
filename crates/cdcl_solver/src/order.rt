//! The order of decisions: the variables that took part in the last conflicts come first, each with the value that it
//! had last. What is decided is tested in the search, so nothing is promised of the order itself.

ghost use Rattle.std.specs.Prelude.{◌≡◌, ◌+◌, ◌*◌, ◌^◌, ◌<◌, ◌≤◌, ◌⊎◌, ℕ, pos, neg_ℤ, Contains, length, IfSome, IfNone};
ghost use Rattle.rup_checker.specs.Formulas.{IsLiteral};
ghost use Rattle.cdcl_solver.specs.Searches.{taken};

use crate::search::Search;
use crate::trail::Assigned;
use rup_checker::MAX_VARIABLES;
use sqlite_items::Items;
use std::alloc::{AllocError, Global};

/// All activities are scaled down once one exceeds this.
const MAX_ACTIVITY: u64 = 1 << 60;

/// By how much they are scaled down.
const SCALE: u64 = 1 << 40;

/// What the first conflict adds to an activity.
const FIRST_STEP: u64 = 1 << 20;

/// A conflict adds to an activity a 16th more than the one before it.
const DECAY: u64 = 16;

/// A binary heap of variables, the most active one first. Each variable without a value is in it.
#[derive(Debug, Drop)]
pub struct Order {
    heap: Items<u32>,
    places: Items<usize>,
    activities: Items<u64>,
    step: u64,
    negated: Items<bool>,
    fixed: usize,
}

impl Order {
    /// All variables from 1 to `variables`, none more active than another.
    pub fn new(alloc: Global, variables: u32) -> Result<Order, AllocError>
        requires { variables ≤ MAX_VARIABLES }
    {
        let count = variables as usize + 1;
        let mut heap = Items::new(alloc);
        let mut places = Items::new(alloc);
        places.push(usize::MAX)?;
        for variable in 1..variables + 1 {
            places.push(heap.len())?;
            heap.push(variable)?;
        }
        Ok(Order {
            heap,
            places,
            activities: Items::from_vec(vec![in alloc; 0; count]?),
            step: FIRST_STEP,
            negated: Items::from_vec(vec![in alloc; true; count]?),
            fixed: usize::MAX,
        })
    }

    /// How many literals the trail had before its first decision.
    pub fn fixed(&self) -> usize {
        self.fixed
    }

    fn activity(&self, variable: u32) -> u64 {
        match self.activities.get(variable as usize) {
            Some(&activity) => activity,
            None => 0,
        }
    }

    /// Where a variable stands in the heap, if it does.
    fn place(&self, variable: u32) -> Option<usize> {
        let &place = self.places.get(variable as usize)?;
        if place < self.heap.len() {
            Some(place)
        } else {
            None
        }
    }

    fn note(&mut self, variable: u32, place: usize) {
        if (variable as usize) < self.places.len() {
            self.places.set(variable as usize, place);
        }
    }

    /// Puts a variable at a place of the heap.
    fn put(&mut self, place: usize, variable: u32) {
        if place < self.heap.len() {
            self.heap.set(place, variable);
        }
        self.note(variable, place);
    }

    /// Puts a variable at a place of the heap, or nearer to its front as long as it is more active than the one above.
    fn rise(&mut self, place: usize, variable: u32) {
        let activity = self.activity(variable);
        let mut at = place;
        while at > 0 {
            let parent = (at - 1) / 2;
            match self.heap.get(parent) {
                Some(&above) if self.activity(above) < activity => {
                    self.put(at, above);
                    at = parent;
                }
                Some(_) | None => {
                    self.put(at, variable);
                    return;
                }
            }
        }
        self.put(at, variable);
    }

    /// The more active one of the two variables below a place of the heap, with its place.
    fn child(&self, place: usize) -> Option<(usize, u32)>
        requires { 2 * place + 2 < 2 ^ 64 }
        ensures { IfSome result (λ below. place < below.0) }
    {
        let left = 2 * place + 1;
        let &one = self.heap.get(left)?;
        match self.heap.get(left + 1) {
            Some(&other) if self.activity(one) < self.activity(other) => Some((left + 1, other)),
            Some(_) | None => Some((left, one)),
        }
    }

    /// Puts a variable at the front of the heap, or further back as long as it is less active than one below.
    fn sink(&mut self, variable: u32) {
        let activity = self.activity(variable);
        let count = self.heap.len();
        let mut at = 0;
        while at < count / 2 {
            match self.child(at) {
                Some((place, below)) if activity < self.activity(below) => {
                    self.put(at, below);
                    at = place;
                }
                Some(_) | None => {
                    self.put(at, variable);
                    return;
                }
            }
        }
        self.put(at, variable);
    }

    /// Takes the most active variable out of the heap.
    fn pop(&mut self) -> Option<u32> {
        let &first = self.heap.get(0)?;
        let last = self.heap.pop()?;
        if !self.heap.is_empty() {
            self.sink(last);
        }
        self.note(first, usize::MAX);
        Some(first)
    }

    /// A literal of a variable without a value, if there is one.
    pub fn next(&mut self, search: &Search) -> Option<i32>
        ensures some { IfSome result (λ l. IsLiteral search.now.variables l ×
            (¬ (Contains (taken search.now) l)) × (¬ (Contains (taken search.now) (neg_ℤ l)))) }
        ensures none { IfNone result ((v : ℕ) → 1 ≤ v → v ≤ search.now.variables →
            Contains (taken search.now) (pos v) ⊎ Contains (taken search.now) (neg_ℤ (pos v))) }
    {
        let known = search.trail().len();
        if known < self.fixed {
            self.fixed = known;
        }
        for _ in 0..self.heap.len() {
            let Some(variable) = self.pop() else {
                break;
            };
            if let Some(literal) = search.open_literal(variable, self.is_negated(variable)) {
                return Some(literal);
            }
        }
        search.unassigned()
    }

    /// Whether a variable is to be decided to be false.
    fn is_negated(&self, variable: u32) -> bool {
        match self.negated.get(variable as usize) {
            Some(&negated) => negated,
            None => true,
        }
    }

    /// Makes a variable of a conflict more active.
    pub fn bump(&mut self, variable: u32) {
        let raised = self.activity(variable).saturating_add(self.step);
        if (variable as usize) < self.activities.len() {
            self.activities.set(variable as usize, raised);
        }
        if let Some(place) = self.place(variable) {
            self.rise(place, variable);
        }
        if raised > MAX_ACTIVITY {
            self.scale();
        }
    }

    fn scale(&mut self) {
        for at in 0..self.activities.len() {
            if let Some(&activity) = self.activities.get(at) {
                self.activities.set(at, activity / SCALE);
            }
        }
        self.step = self.step / SCALE + 1;
    }

    /// The conflict is done: the next one counts for more.
    pub fn decay(&mut self) {
        self.step = self.step.saturating_add(self.step / DECAY);
    }

    /// Takes in the variables of the literals from a place of the trail on, which are to lose their values.
    pub fn undo(&mut self, trail: &[Assigned], back: usize) -> Result<(), AllocError>
        requires { back ≤ length trail.now }
    {
        for assigned in &trail[back..] {
            self.release(assigned.literal)?;
        }
        if back <= self.fixed {
            self.fixed = usize::MAX;
        }
        Ok(())
    }

    /// Takes in the variable of a literal, and remembers its value.
    fn release(&mut self, literal: i32) -> Result<(), AllocError> {
        let variable = literal.unsigned_abs();
        if (variable as usize) < self.negated.len() {
            self.negated.set(variable as usize, literal < 0);
        }
        if self.place(variable).is_none() {
            let place = self.heap.len();
            self.heap.push(variable)?;
            self.rise(place, variable);
        }
        Ok(())
    }
}
