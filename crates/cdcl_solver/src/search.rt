//! The state of a search: propagation by watched literals, and decisions.

ghost use Rattle.std.specs.Prelude.{◌≡◌, ◌≢◌, ◌+◌, ◌-◌, ◌<◌, ◌≤◌, ◌^◌, ◌++◌, ◌∷◌, [], ◌⊎◌, ◌↔◌, ℕ, ℤ, List, Some, None, true, false, pos, neg_ℤ, length, take, slice_index_or, All, Contains, IsTrue, IfOk, IfSome, IfNone, OnOk, OnErr, OnSome, Any};
ghost use Rattle.rup_checker.specs.Formulas.{IsLiteral};
ghost use Rattle.rup_checker.specs.Logs.{IsComplete};
ghost use Rattle.rup_checker.specs.Stores.{clause_at};
ghost use Rattle.cdcl_solver.specs.declared.trail.Reason.TheVariants as reasons;
ghost use Rattle.cdcl_solver.specs.Literals.{IsClear, Marks};
ghost use Rattle.cdcl_solver.specs.Trails.{falses, IsJustified};
ghost use Rattle.cdcl_solver.specs.Watches.{listed, IsSafe, IsWatched, AreApart, AreWatched};
ghost use Rattle.cdcl_solver.specs.Searches.{IsSearch, IsSettled, GoesOn, IsConflict, IsLast, IsTakenUp, IsVisited, IsFound, IsRewatch, IsRewatched, AreSafeAfter, IsWaiting, AreShortTrue, IsLookedAt, IsAsserting, IsLearnt, IsFresh, assigned, taken, followed_up, number_at};

use crate::literals::{LiteralSet, negation, positive};
use crate::trail::{Assigned, Reason};
use crate::watches::{Watch, Watches};
use rup_checker::{Formula, Store};
use sqlite_items::Items;
use std::alloc::{AllocError, Global};
use std::marker::Model;

/// Clauses, and the literals that are true over them, in the order in which they came to be.
#[derive(Debug, Drop)]
pub struct Search {
    clauses: Store,
    watches: Watches,
    falsified: LiteralSet,
    trail: Items<Assigned>,
    followed: usize,
    started: bool,
}

impl Model for Search {
    ghost use Rattle.cdcl_solver.specs.Searches.{Searched, IsMarkedSearch};

    ghost Value = { Searched };

    ghost view = { λ s. record {
      variables = s.falsified.variables;
      clauses = s.clauses.clauses;
      lists = s.watches;
      trail = s.trail;
      followed = s.followed;
      started = s.started;
    } };

    ghost invariant = { λ s. IsMarkedSearch (record {
      variables = s.falsified.variables;
      clauses = s.clauses.clauses;
      lists = s.watches;
      trail = s.trail;
      followed = s.followed;
      started = s.started;
    }) s.falsified };
}

/// A clause, the place of the literal that is to give up watching it, the other one that watches it, and the place of
/// the literal that takes over.
#[derive(Clone, Copy)]
struct Rewatch {
    number: u32,
    mine: usize,
    other: i32,
    place: usize,
}

impl Search {
    /// A search over a formula, with each repeated literal of a clause once.
    pub fn new(alloc: Global, formula: &Formula) -> Result<Search, AllocError>
        requires { length formula.now.clauses < 2 ^ 31 }
        ensures fresh { IfOk result (IsFresh formula.now) }
        ensures search { IfOk result IsSearch }
    {
        let variables = formula.variables();
        let mut falsified = LiteralSet::new(alloc, variables)?;
        let mut clauses = Store::new(alloc);
        let mut watches = Watches::new(alloc, variables)?;
        for number in 0..formula.len() {
            let clause = distinct(alloc, &mut falsified, formula.clause(number))?;
            attach(&mut clauses, &mut watches, clause.as_slice())?;
        }
        Ok(Search {
            clauses,
            watches,
            falsified,
            trail: Items::new(alloc),
            followed: 0,
            started: false,
        })
    }

    /// The literals that are true, in the order in which they came to be.
    pub fn trail(&self) -> &[Assigned]
        ensures value { result.now ≡ self.now.trail }
        ensures search { IsSearch self.now }
    {
        self.trail.as_slice()
    }

    /// The literals of the clause with this number.
    pub fn clause(&self, number: u32) -> &[i32]
        requires { number < length self.now.clauses }
        ensures value { clause_at self.now.clauses number ≡ result.now }
        ensures in_range { All (IsLiteral self.now.variables) result.now }
    {
        self.clauses.clause(number)
    }

    /// Whether a variable has a value.
    fn has_value(&self, variable: u32) -> bool
        requires some { 1 ≤ variable }
        requires known { variable ≤ self.now.variables }
        requires few { self.now.variables ≤ 16000000 }
        ensures yes { result ≡ true →
            Contains (taken self.now) (pos variable) ⊎ Contains (taken self.now) (neg_ℤ (pos variable)) }
        ensures no { result ≡ false →
            (¬ (Contains (taken self.now) (pos variable))) × (¬ (Contains (taken self.now) (neg_ℤ (pos variable)))) }
    {
        let literal = positive(variable);
        if self.is_false(literal) {
            return true;
        }
        self.is_true(literal)
    }

    /// The negation of the first variable without a value.
    pub fn unassigned(&self) -> Option<i32>
        ensures some { IfSome result (λ l. IsLiteral self.now.variables l ×
            (¬ (Contains (taken self.now) l)) × (¬ (Contains (taken self.now) (neg_ℤ l)))) }
        ensures none { IfNone result ((v : ℕ) → 1 ≤ v → v ≤ self.now.variables →
            Contains (taken self.now) (pos v) ⊎ Contains (taken self.now) (neg_ℤ (pos v))) }
        ensures search { IsSearch self.now }
    {
        let variables = self.falsified.variables();
        for variable in 1..variables + 1 {
            if !self.has_value(variable) {
                return Some(negation(positive(variable)));
            }
        }
        None
    }

    /// A literal of a variable in range without a value.
    pub fn open_literal(&self, variable: u32, negated: bool) -> Option<i32>
        ensures { IfSome result (λ l. IsLiteral self.now.variables l ×
            (¬ (Contains (taken self.now) l)) × (¬ (Contains (taken self.now) (neg_ℤ l)))) }
    {
        if variable == 0 || variable > self.falsified.variables() {
            return None;
        }
        if self.has_value(variable) {
            return None;
        }
        if negated {
            return Some(negation(positive(variable)));
        }
        Some(positive(variable))
    }

    /// Whether each variable is true, that of variable 1 first.
    pub fn assignment(&self, alloc: Global) -> Result<Vec<bool>, AllocError>
        ensures count { IfOk result (λ list. length list.items ≡ self.now.variables) }
        ensures values { IfOk result (λ list. (k : ℕ) → k < self.now.variables →
            IsTrue (slice_index_or list.items k false) ↔ Contains (taken self.now) (neg_ℤ (pos (k + 1)))) }
    {
        let variables = self.falsified.variables();
        let mut list = Vec::new(alloc);
        for variable in 1..variables + 1 {
            list.push(self.is_true(positive(variable)))?;
        }
        Ok(list)
    }

    /// Whether a literal is false.
    pub fn is_false(&self, literal: i32) -> bool
        requires { IsLiteral self.now.variables literal }
        ensures value { IsTrue result ↔ Contains (taken self.now) literal }
        ensures search { IsSearch self.now }
    {
        self.falsified.contains(literal)
    }

    /// Whether a literal is true.
    pub fn is_true(&self, literal: i32) -> bool
        requires { IsLiteral self.now.variables literal }
        ensures { IsTrue result ↔ Contains (taken self.now) (neg_ℤ literal) }
    {
        self.falsified.contains(negation(literal))
    }

    /// Makes a literal true.
    fn assign(&mut self, literal: i32, reason: Reason) -> Result<(), AllocError>
        requires { IsJustified self.old.variables self.old.clauses (taken self.old)
            (record { literal = literal; reason = reason }) }
        ensures ok { OnOk result (self.new ≡ assigned self.old (record { literal = literal; reason = reason })) }
        ensures err { OnErr result (self.new ≡ self.old) }
        ensures search { IsSearch self.new }
    {
        self.trail.push(Assigned { literal, reason })?;
        let opposite = negation(literal);
        self.falsified.insert(opposite);
        Ok(())
    }

    /// Takes up the one literal of a clause that isn't false, or answers the clause's number where that one is false too.
    fn take_up(&mut self, literal: i32, number: u32) -> Result<Option<u32>, AllocError>
        requires in_range { IsLiteral self.old.variables literal }
        requires last { IsLast self.old number literal }
        requires open { ¬ (Contains (taken self.old) (neg_ℤ literal)) }
        ensures found { IfOk result (IsTakenUp self.old self.new number literal) }
        ensures err { OnErr result (self.new ≡ self.old) }
        ensures search { IsSearch self.new }
    {
        if self.is_false(literal) {
            return Ok(Some(number));
        }
        self.assign(literal, Reason::Clause(number))?;
        Ok(None)
    }

    /// The place of a literal after the first two of a clause that isn't false.
    fn find_open(&self, number: u32) -> Option<usize>
        requires { number < length self.now.clauses }
        ensures found { IfSome result (λ place. (2 ≤ place) × (place < length (clause_at self.now.clauses number))
            × ((d : ℤ) → ¬ (Contains (taken self.now) (slice_index_or (clause_at self.now.clauses number) place d)))) }
        ensures none { IfNone result ((k : ℕ) (d : ℤ) → 2 ≤ k → k < length (clause_at self.now.clauses number) →
            Contains (taken self.now) (slice_index_or (clause_at self.now.clauses number) k d)) }
    {
        let clause = self.clauses.clause(number);
        for place in 2..clause.len() {
            if !self.falsified.contains(clause[place]) {
                return Some(place);
            }
        }
        None
    }

    /// Lets another literal of a clause, which isn't false, watch it in the place of one of its first two.
    fn rewatch(&mut self, literal: i32, at: usize, clause: Rewatch) -> Result<(), AllocError>
        requires in_range { IsLiteral self.old.variables literal }
        requires within { at < length (listed self.old.lists literal) }
        requires number { number_at self.old literal at ≡ clause.number }
        requires rewatch { IsRewatch self.old literal clause }
        ensures ok { OnOk result (IsRewatched self.old self.new literal at clause) }
        ensures err { OnErr result (self.new ≡ self.old) }
        ensures search { IsSearch self.new }
    {
        let literals = self.clauses.clause(clause.number);
        let fresh = literals[clause.place];
        let watch = Watch {
            number: clause.number,
            other: clause.other,
            binary: false,
        };
        self.watches.push(fresh, watch)?;
        self.clauses.swap(clause.number, clause.mine, clause.place);
        self.watches.remove(literal, at);
        Ok(())
    }

    /// Looks at a clause one of whose first two literals became false: another literal watches it from now on, or its one
    /// literal that is left is taken up.
    fn visit_clause(
        &mut self,
        literal: i32,
        at: usize,
        number: u32,
    ) -> Result<Option<u32>, AllocError>
        requires in_range { IsLiteral self.old.variables literal }
        requires within { at < length (listed self.old.lists literal) }
        requires number { number_at self.old literal at ≡ number }
        requires falsified { Contains (taken self.old) literal }
        ensures visited { OnOk result (IsVisited self.old self.new literal at number) }
        ensures found { IfOk result (IsFound self.new literal number) }
        ensures err { OnErr result (self.new ≡ self.old) }
        ensures search { IsSearch self.new }
    {
        let (mine, other) = watching(self.clauses.clause(number), literal);
        if self.is_true(other) {
            return Ok(None);
        }
        match self.find_open(number) {
            Some(place) => {
                let clause = Rewatch {
                    number,
                    mine,
                    other,
                    place,
                };
                self.rewatch(literal, at, clause)?;
                Ok(None)
            }
            None => self.take_up(other, number),
        }
    }

    /// Looks at the clause that a watch of a false literal names. A binary clause isn't looked up.
    fn visit(&mut self, literal: i32, at: usize) -> Result<Option<u32>, AllocError>
        requires in_range { IsLiteral self.old.variables literal }
        requires within { at < length (listed self.old.lists literal) }
        requires falsified { Contains (taken self.old) literal }
        ensures visited { OnOk result (IsVisited self.old self.new literal at (number_at self.old literal at)) }
        ensures found { IfOk result (IsFound self.new literal (number_at self.old literal at)) }
        ensures err { OnErr result (self.new ≡ self.old) }
        ensures search { IsSearch self.new }
    {
        let watch = self.watches.of(literal)[at];
        if self.is_true(watch.other) {
            return Ok(None);
        }
        if watch.binary {
            return self.take_up(watch.other, watch.number);
        }
        self.visit_clause(literal, at, watch.number)
    }

    /// Looks at each clause that a false literal watches.
    fn follow(&mut self, literal: i32) -> Result<Option<u32>, AllocError>
        requires in_range { IsLiteral self.old.variables literal }
        requires falsified { Contains (taken self.old) literal }
        ensures goes_on { GoesOn self.old self.new }
        ensures followed { self.new.followed ≡ self.old.followed }
        ensures started { self.new.started ≡ self.old.started }
        ensures conflict { IfOk result (λ found. IfSome found (IsConflict self.new)) }
        ensures safe { IfOk result (λ found. IfNone found (AreSafeAfter self.new literal)) }
        ensures search { IsSearch self.new }
    {
        let mut at = self.watches.of(literal).len();
        while at > 0 {
            at -= 1;
            if let Some(conflict) = self.visit(literal, at)? {
                return Ok(Some(conflict));
            }
        }
        Ok(None)
    }

    /// The false literal that is to be followed up next.
    fn waiting(&self) -> Option<i32>
        ensures some { IfSome result (IsWaiting self.now) }
        ensures none { IfNone result (self.now.followed ≡ length self.now.trail) }
        ensures search { IsSearch self.now }
    {
        let assigned = self.trail.get(self.followed)?;
        Some(negation(assigned.literal))
    }

    /// Notes that the literal was followed up.
    fn advance(&mut self, literal: i32)
        requires waiting { IsWaiting self.old literal }
        requires safe { AreSafeAfter self.old literal }
        requires started { self.old.started ≡ true }
        ensures state { self.new ≡ record self.old { followed = self.old.followed + 1 } }
        ensures search { IsSearch self.new }
    {
        self.followed += 1;
    }

    /// Looks at one clause by itself: a clause without a literal is false, and one of one literal makes that one true.
    fn look(&mut self, number: u32) -> Result<Option<u32>, AllocError>
        requires { number < length self.old.clauses }
        ensures found { IfOk result (IsLookedAt self.old self.new number) }
        ensures err { OnErr result (self.new ≡ self.old) }
        ensures search { IsSearch self.new }
    {
        let clause = self.clauses.clause(number);
        if clause.len() >= 2 {
            return Ok(None);
        }
        if clause.is_empty() {
            return Ok(Some(number));
        }
        let literal = clause[0];
        if self.is_true(literal) {
            return Ok(None);
        }
        self.take_up(literal, number)
    }

    /// Looks at each clause once by itself.
    fn start(&mut self) -> Result<Option<u32>, AllocError>
        requires { self.old.started ≡ false }
        ensures goes_on { GoesOn self.old self.new }
        ensures followed { self.new.followed ≡ self.old.followed }
        ensures conflict { IfOk result (λ found. IfSome found (IsConflict self.new)) }
        ensures started { IfOk result (λ found. IfNone found (self.new.started ≡ true)) }
        ensures search { IsSearch self.new }
    {
        for number in 0..self.clauses.len() as u32 {
            if let Some(conflict) = self.look(number)? {
                return Ok(Some(conflict));
            }
        }
        self.set_started();
        Ok(None)
    }

    /// Notes that each clause was looked at.
    fn set_started(&mut self)
        requires { AreShortTrue self.old (length self.old.clauses) }
        ensures state { self.new ≡ record self.old { started = true } }
        ensures search { IsSearch self.new }
    {
        self.started = true;
    }

    /// Takes up what follows, until nothing does or a clause is false: its number is the answer.
    pub fn propagate(&mut self) -> Result<Option<u32>, AllocError>
        ensures goes_on { GoesOn self.old self.new }
        ensures started { self.old.started ≡ true → self.new.started ≡ true }
        ensures conflict { IfOk result (λ found. IfSome found (IsConflict self.new)) }
        ensures settled { IfOk result (λ found. IfNone found (IsSettled self.new)) }
        ensures quiet { IfOk result (λ found. IfNone found (IsComplete self.new.clauses (Contains (taken self.new)))) }
        ensures search { IsSearch self.new }
    {
        if self.started {
            return self.propagate_started();
        }
        if let Some(conflict) = self.start()? {
            return Ok(Some(conflict));
        }
        self.propagate_started()
    }

    /// The same, where each clause was looked at by itself.
    fn propagate_started(&mut self) -> Result<Option<u32>, AllocError>
        requires { self.old.started ≡ true }
        ensures goes_on { GoesOn self.old self.new }
        ensures started { self.new.started ≡ true }
        ensures conflict { IfOk result (λ found. IfSome found (IsConflict self.new)) }
        ensures settled { IfOk result (λ found. IfNone found (IsSettled self.new)) }
        ensures quiet { IfOk result (λ found. IfNone found (IsComplete self.new.clauses (Contains (taken self.new)))) }
        ensures search { IsSearch self.new }
    {
        while let Some(literal) = self.waiting() {
            if let Some(conflict) = self.follow(literal)? {
                return Ok(Some(conflict));
            }
            self.advance(literal);
        }
        Ok(None)
    }

    /// Decides that a literal is true.
    pub fn assume(&mut self, literal: i32) -> Result<(), AllocError>
        requires in_range { IsLiteral self.old.variables literal }
        requires free { (¬ (Contains (taken self.old) literal)) × (¬ (Contains (taken self.old) (neg_ℤ literal))) }
        requires settled { IsSettled self.old }
        ensures ok { OnOk result (self.new ≡
            assigned self.old (record { literal = literal; reason = reasons.Decision })) }
        ensures unsettled { OnOk result (¬ (IsSettled self.new)) }
        ensures search { IsSearch self.new }
    {
        let _ = &self.trail;
        self.assign(literal, Reason::Decision)
    }

    /// Takes back what became true from a decision on.
    pub fn backtrack(&mut self, place: usize)
        requires low { place < length self.old.trail }
        requires decided { (slice_index_or self.old.trail place (record { literal = pos 0; reason = reasons.Decision })).reason ≡ reasons.Decision }
        requires started { self.old.started ≡ true }
        ensures state { self.new ≡ record self.old { trail = take place self.old.trail; followed = place } }
        ensures search { IsSearch self.new }
    {
        while self.trail.len() > place {
            if let Some(assigned) = self.trail.pop() {
                self.falsified.remove(negation(assigned.literal));
            }
        }
        self.followed = place;
    }

    /// Adds a clause whose first literal has no value while the others are false, and makes that one true.
    pub fn learn(self, clause: &[i32]) -> Result<Search, AllocError>
        requires room { length self.clauses + 1 < 4294967295 }
        requires settled { IsSettled self }
        requires asserting { IsAsserting self clause.now }
        ensures search { IfOk result IsSearch }
        ensures learnt { IfOk result (λ s. IsLearnt self s clause.now) }
    {
        let Search {
            mut clauses,
            mut watches,
            mut falsified,
            mut trail,
            followed,
            started,
        } = self;
        let number = attach(&mut clauses, &mut watches, clause)?;
        let asserted = clause[0];
        trail.push(Assigned {
            literal: asserted,
            reason: Reason::Clause(number),
        })?;
        falsified.insert(negation(asserted));
        Ok(Search {
            clauses,
            watches,
            falsified,
            trail,
            followed,
            started,
        })
    }
}

/// The literals of a clause, each once.
fn distinct(alloc: Global, seen: &mut LiteralSet, clause: &[i32]) -> Result<Items<i32>, AllocError>
    requires in_range { All (IsLiteral seen.old.variables) clause.now }
    requires clear { IsClear seen.old }
    ensures same { IfOk result (λ list. (l : ℤ) → Contains list l ↔ Contains clause.now l) }
    ensures apart { IfOk result (AreApart (λ (l : ℤ). l)) }
    ensures variables { seen.new.variables ≡ seen.old.variables }
    ensures clear { OnOk result (IsClear seen.new) }
{
    let mut list = Items::new(alloc);
    for &literal in clause {
        put(seen, &mut list, literal)?;
    }
    unmark(seen, list.as_slice());
    Ok(list)
}

/// Adds a literal to a list whose literals are marked, unless it is there.
fn put(seen: &mut LiteralSet, list: &mut Items<i32>, literal: i32) -> Result<(), AllocError>
    requires in_range { IsLiteral seen.old.variables literal }
    requires marks { Marks seen.old list.old }
    requires apart { AreApart (λ (l : ℤ). l) list.old }
    ensures variables { seen.new.variables ≡ seen.old.variables }
    ensures marks { OnOk result (Marks seen.new list.new) }
    ensures apart { OnOk result (AreApart (λ (l : ℤ). l) list.new) }
    ensures same { OnOk result ((l : ℤ) → Contains list.new l ↔ (Contains list.old l ⊎ (literal ≡ l))) }
{
    if seen.contains(literal) {
        return Ok(());
    }
    list.push(literal)?;
    seen.insert(literal);
    Ok(())
}

/// Takes the marks of these literals away.
fn unmark(seen: &mut LiteralSet, list: &[i32])
    requires in_range { All (IsLiteral seen.old.variables) list.now }
    requires marks { Marks seen.old list.now }
    ensures variables { seen.new.variables ≡ seen.old.variables }
    ensures clear { IsClear seen.new }
{
    for &literal in list {
        seen.remove(literal);
    }
}

/// Appends a clause, which its first two literals watch.
fn attach(clauses: &mut Store, watches: &mut Watches, clause: &[i32]) -> Result<u32, AllocError>
    requires room { length clauses.old.clauses + 1 < 4294967295 }
    requires in_range { All (IsLiteral watches.old.variables) clause.now }
    requires apart { AreApart (λ (l : ℤ). l) clause.now }
    requires watched { AreWatched watches.old.variables clauses.old.clauses (listed watches.old) }
    ensures number { IfOk result (λ n. n ≡ length clauses.old.clauses) }
    ensures variables { watches.new.variables ≡ watches.old.variables }
    ensures clauses { OnOk result (clauses.new.clauses ≡ clauses.old.clauses ++ clause.now ∷ []) }
    ensures watched { OnOk result (AreWatched watches.old.variables clauses.new.clauses (listed watches.new)) }
{
    let number = clauses.push(clause)?;
    if clause.len() >= 2 {
        let binary = clause.len() == 2;
        let (one, other) = (clause[0], clause[1]);
        watches.push(
            one,
            Watch {
                number,
                other,
                binary,
            },
        )?;
        let watch = Watch {
            number,
            other: one,
            binary,
        };
        watches.push(other, watch)?;
    }
    Ok(number)
}

/// The place of a literal among the first two of a clause, and the other one of these.
fn watching(clause: &[i32], literal: i32) -> (usize, i32)
    requires { IsWatched clause.now literal }
    ensures mine { result.0 ≤ 1 }
    ensures literal { slice_index_or clause.now result.0 literal ≡ literal }
    ensures other { slice_index_or clause.now (1 - result.0) result.1 ≡ result.1 }
{
    if clause[0] == literal {
        (0, clause[1])
    } else {
        (1, clause[0])
    }
}
