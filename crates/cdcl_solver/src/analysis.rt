//! What a false clause shows: a clause that is cut at the first literal of the last level through which all of that
//! level leads to the conflict.

ghost use Rattle.std.specs.Prelude.{◌≡◌, ◌≢◌, ◌+◌, ◌-◌, ◌<◌, ◌≤◌, ◌++◌, ◌∷◌, [], ◌⊎◌, ◌↔◌, ℤ, true, false, pos, neg_ℤ, All, Contains, length, reverse, slice_index_or, IfOk, OnOk};
ghost use Rattle.cdcl_solver.specs.declared.trail.Reason.TheVariants as reasons;
ghost use Rattle.rup_checker.specs.Formulas.{IsLiteral};
ghost use Rattle.rup_checker.specs.Stores.{clause_at};
ghost use Rattle.cdcl_solver.specs.Literals.{IsMarked, IsClear};
ghost use Rattle.cdcl_solver.specs.Searches.{IsConflict, IsSearch, taken};
ghost use Rattle.cdcl_solver.specs.Explanations.{AreLocated, IsSince, IsExplained, IsLastLevel, IsOpened, IsPicked, IsShown, IsWalked, IsWhole};

use crate::literals::{LiteralSet, negation};
use crate::order::Order;
use crate::search::Search;
use crate::trail::Reason;
use rup_checker::{MAX_VARIABLES, Step};
use sqlite_items::Items;
use std::alloc::{AllocError, Global};
use std::mem;

/// What is kept from one conflict to the next: marks of literals, of which none is set between conflicts, places of
/// literals by their variables, and the order of decisions.
#[derive(Debug, Drop)]
pub struct Workspace {
    pub seen: LiteralSet,
    pub places: Items<usize>,
    pub order: Order,
}

/// The step that a conflict shows, and the place of the decision before which the search goes on.
#[derive(Debug, Drop)]
pub struct Learnt {
    pub step: Step,
    pub back: usize,
}

/// The clause that a conflict shows, its hints from the false clause back to the first reason, the place of the
/// decision before which the search goes on, the first place of the last level at which a marked literal stands, and
/// the marked literals, which are still to be looked at.
#[derive(Debug, Drop)]
pub struct Explained {
    pub clause: Items<i32>,
    pub hints: Items<u32>,
    pub back: usize,
    pub lowest: usize,
    pub seen: LiteralSet,
}

/// How many literals the trail has up to its last decision.
fn last_level(search: &Search) -> usize
    ensures { IsLastLevel search.now result }
{
    let trail = search.trail();
    let mut at = trail.len();
    while at > 0 {
        match trail[at - 1].reason {
            Reason::Decision => return at,
            Reason::Clause(_) => at -= 1,
        }
    }
    0
}

/// Notes the places of the last level's literals by their variables.
fn locate(places: &mut Items<usize>, search: &Search, start: usize)
    requires some { 1 ≤ start }
    requires size { length places.old ≡ search.now.variables + 1 }
    ensures size { length places.new ≡ search.now.variables + 1 }
    ensures located { AreLocated search.now start places.new }
{
    let trail = search.trail();
    for at in start - 1..trail.len() {
        places.set(trail[at].literal.unsigned_abs() as usize, at);
    }
}

/// The place of a false literal of the last level. For an earlier one it is the end of the trail.
fn place_in_level(places: &[usize], search: &Search, start: usize, literal: i32) -> usize
    requires in_range { IsLiteral search.now.variables literal }
    requires size { length places.now ≡ search.now.variables + 1 }
    requires located { AreLocated search.now start places.now }
    requires within { start ≤ length search.now.trail }
    ensures { Contains (taken search.now) literal → IsSince search.now start result literal }
{
    let trail = search.trail();
    let at = places[literal.unsigned_abs() as usize];
    if at < trail.len() && start <= at + 1 && trail[at].literal == negation(literal) {
        return at;
    }
    trail.len()
}

/// The first place of the last level at which a false literal of a clause stands.
fn first_place(places: &[usize], search: &Search, start: usize, clause: &[i32]) -> usize
    requires in_range { All (IsLiteral search.now.variables) clause.now }
    requires size { length places.now ≡ search.now.variables + 1 }
    requires located { AreLocated search.now start places.now }
    requires within { start ≤ length search.now.trail }
    ensures { (l : ℤ) → Contains clause.now l → Contains (taken search.now) l → IsSince search.now start result l }
{
    let mut first = search.trail().len();
    for &literal in clause {
        let at = place_in_level(places, search, start, literal);
        if at < first {
            first = at;
        }
    }
    first
}

/// Marks these literals.
fn mark(seen: &mut LiteralSet, clause: &[i32])
    requires { All (IsLiteral seen.old.variables) clause.now }
    ensures variables { seen.new.variables ≡ seen.old.variables }
    ensures marked { (l : ℤ) → IsMarked seen.new l ↔ (IsMarked seen.old l ⊎ Contains clause.now l) }
{
    for &literal in clause {
        seen.insert(literal);
    }
}

/// Takes the mark of a literal away and puts it into the clause.
fn keep(explained: &mut Explained, literal: i32) -> Result<(), AllocError>
    requires { IsLiteral explained.old.seen.variables literal }
    ensures clause { OnOk result (explained.new.clause ≡ explained.old.clause ++ literal ∷ []) }
    ensures hints { explained.new.hints ≡ explained.old.hints }
    ensures back { explained.new.back ≡ explained.old.back }
    ensures variables { explained.new.seen.variables ≡ explained.old.seen.variables }
    ensures itself { ¬ (IsMarked explained.new.seen literal) }
    ensures others { (l : ℤ) → l ≢ literal → IsMarked explained.new.seen l ↔ IsMarked explained.old.seen l }
{
    explained.seen.remove(literal);
    explained.clause.push(literal)
}

/// Replaces the false literal of a place by the others of the clause that made its negation true.
fn resolve(
    explained: &mut Explained,
    search: &Search,
    at: usize,
    number: u32,
) -> Result<(), AllocError>
    requires low { at < length search.now.trail }
    requires reason { (slice_index_or search.now.trail at (record { literal = pos 0; reason = reasons.Decision })).reason ≡
        reasons.Clause number }
    requires walked { IsWalked search.now (at + 1) explained.old.clause explained.old.hints explained.old.seen }
    ensures walked { OnOk result (IsWalked search.now at explained.new.clause explained.new.hints explained.new.seen) }
    ensures clause { explained.new.clause ≡ explained.old.clause }
    ensures back { explained.new.back ≡ explained.old.back }
    ensures lowest { explained.new.lowest ≡ explained.old.lowest }
    ensures picked { OnOk result ((l : ℤ) → IsPicked explained.new.seen l →
        IsPicked explained.old.seen l ⊎ Contains (clause_at search.now.clauses number) l) }
{
    let literal = search.trail()[at].literal;
    explained.hints.push(number)?;
    explained.seen.remove(negation(literal));
    mark(&mut explained.seen, search.clause(number));
    explained.seen.remove(literal);
    Ok(())
}

/// Looks at a literal of the last level: a marked one is replaced by the others of its reason, unless no other marked one
/// of the level is left. That one is kept, and the answer is true.
fn narrow(
    explained: &mut Explained,
    search: &Search,
    places: &[usize],
    order: &mut Order,
    at: usize,
    start: usize,
) -> Result<bool, AllocError>
    requires low { at < length search.now.trail }
    requires inside { start ≤ at + 1 }
    requires some { 1 ≤ start }
    requires level { IsLastLevel search.now start }
    requires size { length places.now ≡ search.now.variables + 1 }
    requires located { AreLocated search.now start places.now }
    requires opened { IsOpened search.now start (at + 1) explained.old }
    ensures kept { IfOk result (λ kept. kept ≡ true → IsExplained search.now start (start - 1) explained.new) }
    ensures opened { IfOk result (λ kept. kept ≡ false → IsOpened search.now start at explained.new) }
{
    let assigned = search.trail()[at];
    let literal = negation(assigned.literal);
    if !explained.seen.contains(literal) {
        return Ok(false);
    }
    order.bump(literal.unsigned_abs());
    match assigned.reason {
        Reason::Clause(number) if explained.lowest < at => {
            let first = first_place(places, search, start, search.clause(number));
            resolve(explained, search, at, number)?;
            if first < explained.lowest {
                explained.lowest = first;
            }
            Ok(false)
        }
        Reason::Clause(_) => {
            keep(explained, literal)?;
            explained.back = start - 1;
            Ok(true)
        }
        Reason::Decision => {
            keep(explained, literal)?;
            explained.back = start - 1;
            Ok(true)
        }
    }
}

/// Walks the last level down to the literal at which the clause is cut.
fn cut(
    explained: &mut Explained,
    search: &Search,
    places: &[usize],
    order: &mut Order,
    start: usize,
) -> Result<(), AllocError>
    requires some { 1 ≤ start }
    requires level { IsLastLevel search.now start }
    requires size { length places.now ≡ search.now.variables + 1 }
    requires located { AreLocated search.now start places.now }
    requires opened { IsOpened search.now start (length search.now.trail) explained.old }
    ensures { OnOk result (IsExplained search.now start (start - 1) explained.new) }
{
    let mut at = search.trail().len();
    while at >= start {
        at -= 1;
        if narrow(explained, search, places, order, at, start)? {
            return Ok(());
        }
    }
    explained.back = start - 1;
    Ok(())
}

/// Whether the other literals of a clause are marked, so that they can replace the one that the clause made true without
/// a further one.
fn is_covered(seen: &LiteralSet, clause: &[i32], literal: i32) -> bool
    requires { All (IsLiteral seen.now.variables) clause.now }
{
    for &other in clause {
        if other != literal && !seen.contains(other) {
            return false;
        }
    }
    true
}

/// Passes by a literal that isn't marked: the search goes back before the last decision that is passed with less than two
/// literals in the clause.
fn pass(explained: &mut Explained, reason: Reason, at: usize)
    ensures state { explained.new ≡ record explained.old { back = explained.new.back } }
    ensures first { reason ≡ reasons.Decision → length explained.old.clause < 2 → explained.new.back ≡ at }
    ensures more { 2 ≤ length explained.old.clause → explained.new.back ≡ explained.old.back }
    ensures implied { reason ≢ reasons.Decision → explained.new.back ≡ explained.old.back }
{
    match reason {
        Reason::Decision if explained.clause.len() < 2 => explained.back = at,
        Reason::Decision | Reason::Clause(_) => {}
    }
}

/// Looks at a literal below the last level: a marked one is kept, or replaced by the others of its reason where these are
/// marked or where it stands before the first decision.
fn take_in(
    explained: &mut Explained,
    search: &Search,
    order: &mut Order,
    at: usize,
    start: usize,
    fixed: usize,
) -> Result<(), AllocError>
    requires low { at < length search.now.trail }
    requires level { IsLastLevel search.now start }
    requires fixed { start ≡ 0 → at < fixed }
    requires explained { IsExplained search.now start (at + 1) explained.old }
    ensures { OnOk result (IsExplained search.now start at explained.new) }
{
    let assigned = search.trail()[at];
    let literal = negation(assigned.literal);
    if !explained.seen.contains(literal) {
        pass(explained, assigned.reason, at);
        return Ok(());
    }
    if fixed <= at {
        order.bump(literal.unsigned_abs());
    }
    match assigned.reason {
        Reason::Decision if explained.clause.is_empty() => {
            keep(explained, literal)?;
            explained.back = at;
            Ok(())
        }
        Reason::Decision => keep(explained, literal),
        Reason::Clause(number)
            if at < fixed || is_covered(&explained.seen, search.clause(number), assigned.literal) =>
            { resolve(explained, search, at, number) }
        Reason::Clause(_) => keep(explained, literal),
    }
}

/// Walks the trail down from a place below the last level.
fn walk(
    explained: &mut Explained,
    search: &Search,
    order: &mut Order,
    from: usize,
    start: usize,
    fixed: usize,
) -> Result<(), AllocError>
    requires within { from ≤ length search.now.trail }
    requires level { IsLastLevel search.now start }
    requires fixed { start ≡ 0 → from ≤ fixed }
    requires explained { IsExplained search.now start from explained.old }
    ensures { OnOk result (IsExplained search.now start 0 explained.new) }
{
    let mut at = from;
    while at > 0 {
        at -= 1;
        take_in(explained, search, order, at, start, fixed)?;
    }
    Ok(())
}

/// What a false clause shows. No literal is marked before, nor after. The variables that were looked at come earlier in
/// the order of decisions from now on.
fn explain(
    alloc: Global,
    search: &Search,
    seen: LiteralSet,
    places: &mut Items<usize>,
    order: &mut Order,
    conflict: u32,
) -> Result<Explained, AllocError>
    requires conflict { IsConflict search.now conflict }
    requires variables { seen.variables ≡ search.now.variables }
    requires size { length places.old ≡ search.now.variables + 1 }
    requires clear { IsClear seen }
    ensures whole { IfOk result (IsWhole search.now) }
    ensures search { IsSearch search.now }
    ensures size { length places.new ≡ search.now.variables + 1 }
{
    let start = last_level(search);
    let mut at = search.trail().len();
    let mut hints = Items::new(alloc);
    hints.push(conflict)?;
    let mut seen = seen;
    let clause = search.clause(conflict);
    mark(&mut seen, clause);
    let mut explained = Explained {
        clause: Items::new(alloc),
        hints,
        back: 0,
        lowest: 0,
        seen,
    };
    let mut fixed = order.fixed();
    if start == 0 {
        fixed = at;
    } else {
        locate(places, search, start);
        explained.lowest = first_place(places.as_slice(), search, start, clause);
        cut(&mut explained, search, places.as_slice(), order, start)?;
        at = start - 1;
    }
    walk(&mut explained, search, order, at, start, fixed)?;
    order.decay();
    Ok(explained)
}

/// These numbers, the last one first.
fn reversed(alloc: Global, numbers: &[u32]) -> Result<Items<u32>, AllocError>
    ensures { IfOk result (λ list. list ≡ reverse numbers.now) }
{
    let mut list = Vec::from_slice(alloc, numbers)?;
    list.reverse();
    Ok(Items::from_vec(list))
}

impl Workspace {
    /// Nothing is marked, and no variable is more active than another.
    pub fn new(alloc: Global, variables: u32) -> Result<Workspace, AllocError>
        requires { variables ≤ MAX_VARIABLES }
        ensures variables { IfOk result (λ work. work.seen.variables ≡ variables) }
        ensures size { IfOk result (λ work. length work.places ≡ variables + 1) }
        ensures clear { IfOk result (λ work. IsClear work.seen) }
    {
        let count = variables as usize + 1;
        Ok(Workspace {
            seen: LiteralSet::new(alloc, variables)?,
            places: Items::from_vec(vec![in alloc; 0; count]?),
            order: Order::new(alloc, variables)?,
        })
    }
}

/// The step that a false clause shows. After want of memory the workspace may only be dropped.
pub fn analyse(
    alloc: Global,
    search: &Search,
    work: &mut Workspace,
    conflict: u32,
) -> Result<Learnt, AllocError>
    requires conflict { IsConflict search.now conflict }
    requires variables { work.old.seen.variables ≡ search.now.variables }
    requires size { length work.old.places ≡ search.now.variables + 1 }
    requires clear { IsClear work.old.seen }
    ensures shown { IfOk result (λ learnt. IsShown search.now learnt) }
    ensures variables { OnOk result (work.new.seen.variables ≡ search.now.variables) }
    ensures size { OnOk result (length work.new.places ≡ search.now.variables + 1) }
    ensures clear { OnOk result (IsClear work.new.seen) }
{
    let empty = LiteralSet::new(alloc, 0)?;
    let seen = mem::replace(&mut work.seen, empty);
    let explained = explain(
        alloc,
        search,
        seen,
        &mut work.places,
        &mut work.order,
        conflict,
    )?;
    let hints = reversed(alloc, explained.hints.as_slice())?;
    work.seen = explained.seen;
    let step = Step {
        clause: explained.clause,
        hints,
    };
    Ok(Learnt {
        step,
        back: explained.back,
    })
}
