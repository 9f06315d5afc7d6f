//! `if`.

ghost use Rattle.std.specs.Prelude.{◌≡◌, ◌∷◌, ◌++◌, [], length, Bool, List, MatchResult, Some};
ghost use Rattle.hll_meaning.specs.Judging.{choice_of as said_choice, tests_of, Judged};
ghost use Rattle.hll_expressions.specs.declared.faults.StaticFault.TheVariants.{Memory};
ghost use Rattle.hll_expressions.specs.declared.given.Given.{Choice};
ghost use Rattle.hll_expressions.specs.Choices.{AreTested, IsBranchAdded, IsChosen, IsTested};
ghost use Rattle.hll_expressions.specs.Described.{IsAnswer};

use crate::faults::{StaticFault, refuse_if};
use crate::given::{Given, truth};
use crate::join::{is_scalar, join, or};
use hll_meaning::{StaticKind, Ty};
use sqlite_items::Items;
use std::alloc::Global;

/// Conditions of an `if` with what stands for each.
#[derive(Drop)]
pub struct Branches {
    pub conditions: Items<Given>,
    pub branches: Items<Given>,
}

/// The parts of an `if`: its conditions with what stands for each, and what stands behind `else`.
#[derive(Drop)]
pub struct Tested {
    pub conditions: Items<Given>,
    pub branches: Items<Given>,
    pub otherwise: Given,
}

/// The branches so far: what they make together, whether a range is wide, and whether lengths differ.
#[derive(Drop)]
struct Together {
    kind: Ty,
    wide: bool,
    uneven: bool,
}

/// A branch behind others.
fn joined(alloc: Global, before: Together, branch: &Given) -> Result<Together, StaticFault>
    ensures { IsBranchAdded (Some before) branch.now result }
{
    let Together { kind, wide, uneven } = before;
    let given = branch.kind(alloc)?;
    let joined = join(alloc, &kind, &given)?;
    refuse_if(joined.mismatched, StaticKind::Mismatch, branch.at())?;
    let wide = or(wide, joined.wide);
    let uneven = or(uneven, joined.uneven);
    let kind = joined.kind;
    Ok(Together { kind, wide, uneven })
}

/// One branch further.
fn with_branch(
    alloc: Global,
    before: Option<Together>,
    branch: &Given,
) -> Result<Together, StaticFault>
    ensures { IsBranchAdded before branch.now result }
{
    match before {
        None => {
            let kind = branch.kind(alloc)?;
            Ok(Together {
                kind,
                wide: false,
                uneven: false,
            })
        }
        Some(before) => joined(alloc, before, branch),
    }
}

/// What the branches make together, each behind its condition.
fn all_together(alloc: Global, tested: &Tested) -> Result<Together, StaticFault>
    requires { length tested.now.conditions ≡ length tested.now.branches }
    ensures { (needs : Bool) (bs : List (Judged × Judged)) (j : Judged) → AreTested needs tested.now bs j → IsTested (tests_of bs j) result }
{
    let mut all = None;
    let conditions = tested.conditions.as_slice();
    let branches = tested.branches.as_slice();
    for (place, condition) in conditions.iter().enumerate() {
        let branch = &branches[place];
        truth(condition)?;
        all = Some(with_branch(alloc, all, branch)?);
    }
    with_branch(alloc, all, &tested.otherwise)
}

/// The number of the first branch whose condition is true.
fn chosen(tested: &Tested) -> Option<i128>
    requires { length tested.now.conditions ≡ length tested.now.branches }
    ensures { IsChosen tested.now result }
{
    let conditions = tested.conditions.as_slice();
    let branches = tested.branches.as_slice();
    for (place, condition) in conditions.iter().enumerate() {
        let branch = &branches[place];
        if !condition.is_zero() {
            return branch.number();
        }
    }
    tested.otherwise.number()
}

/// An `if` of lists, whose parts are all without faults.
fn choice_of_lists(at: u64, kind: Ty, tested: Tested) -> Result<Given, StaticFault>
    ensures { MatchResult result (λ g. g ≡ Choice at kind (tested.branches ++ tested.otherwise ∷ [])) (λ wrong. wrong ≡ Memory) }
{
    let Tested {
        conditions: _,
        mut branches,
        otherwise,
    } = tested;
    branches.push(otherwise)?;
    Ok(Given::Choice { at, kind, branches })
}

/// An `if` whose parts are all without faults.
pub fn choice(alloc: Global, at: u64, tested: Tested) -> Result<Given, StaticFault>
    requires { length tested.conditions ≡ length tested.branches }
    ensures { (needs : Bool) (bs : List (Judged × Judged)) (j : Judged) → AreTested needs tested bs j → IsAnswer needs (said_choice at bs j) result }
{
    let all = all_together(alloc, &tested)?;
    refuse_if(all.wide, StaticKind::Wide, at)?;
    refuse_if(all.uneven, StaticKind::Shape, at)?;
    let kind = all.kind;
    if is_scalar(&kind) {
        let number = chosen(&tested);
        Ok(Given::Whole { at, kind, number })
    } else {
        choice_of_lists(at, kind, tested)
    }
}
