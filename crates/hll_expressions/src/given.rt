//! What is known of an expression that has no fault of its own, and what it may be given to.

ghost use Rattle.std.specs.Prelude.{◌≡◌, map, pos, true, IfOk};
ghost use Rattle.std.specs.Option.{option_copied};
ghost use Rattle.std.specs.Ordering.{int_eq};
ghost use Rattle.hll_meaning.specs.Fitting.{accepts as accepts_kind, group_of, parts as parts_of};
ghost use Rattle.hll_meaning.specs.Judging.{each_fits, unfit, wants_scalar, Judged};
ghost use Rattle.std.specs.List.{flat_map};
ghost use Rattle.hll_meaning.specs.Types.{kind_of};
ghost use Rattle.hll_meaning.specs.Values.{number as number_in};
ghost use Rattle.hll_expressions.specs.Answers.{IsJudged};
ghost use Rattle.hll_expressions.specs.Described.{known, number_of, Describes, IsOwnKind, WantsScalar, WantsTruth, WantsWhole};
ghost use Rattle.hll_expressions.specs.Ranges.{IsRangeOf};

use crate::faults::{StaticFault, fault, refuse_if};
use crate::join::{count, is_scalar, part};
use crate::numbers::is_zero;
use crate::ranges::scalar_range;
use hll_lexer::Word;
use hll_meaning::{FieldTy, StaticKind, Ty};
use intervals::Interval;
use sqlite_items::Items;
use std::alloc::{AllocError, Global};

/// An expression without faults, with its place.
#[cycle(given)]
#[derive(Drop)]
pub enum Given {
    /// It is given whole: its kind, and its number where it is a constant.
    Whole {
        at: u64,
        kind: Ty,
        number: Option<i128>,
    },
    /// Parts in braces.
    Group {
        at: u64,
        parts: Items<Given>,
    },
    /// An `if` of lists, with what its branches make together.
    Choice {
        at: u64,
        kind: Ty,
        branches: Items<Given>,
    },
}

impl Given {
    /// The place of the expression.
    #[tactic(auto, using(crate::proofs::KnownForms::known_whole, crate::proofs::KnownForms::known_group, crate::proofs::KnownForms::known_choice))]
    pub fn at(&self) -> u64
        ensures { result ≡ (known self.now).at }
    {
        match self {
            Given::Whole { at, .. } | Given::Group { at, .. } | Given::Choice { at, .. } => *at,
        }
    }

    /// The number of a constant.
    #[tactic(auto, using(crate::proofs::KnownForms::number_whole, crate::proofs::KnownForms::number_group, crate::proofs::KnownForms::number_choice))]
    pub fn number(&self) -> Option<i128>
        ensures { result ≡ number_of self.now }
    {
        match self {
            Given::Whole { number, .. } => *number,
            Given::Group { .. } | Given::Choice { .. } => None,
        }
    }

    /// Whether it is a constant that is zero.
    pub fn is_zero(&self) -> bool
        ensures { (j : Judged) → Describes true self.now j → result ≡ int_eq (number_in j.value) (pos 0) }
    {
        is_zero(self.number())
    }

    /// The kind of the expression, where it isn't that of parts in braces.
    #[tactic(auto, using(crate::proofs::KnownForms::known_whole, crate::proofs::KnownForms::known_group, crate::proofs::KnownForms::known_choice))]
    fn own_kind(&self) -> Option<&Ty>
        ensures { IsOwnKind (known self.now) (option_copied result) }
    {
        match self {
            Given::Whole { kind, .. } | Given::Choice { kind, .. } => Some(kind),
            Given::Group { .. } => None,
        }
    }

    /// The range of a scalar.
    pub fn range(&self) -> Option<Interval>
        ensures { IsRangeOf (known self.now).kind result }
    {
        match self.own_kind() {
            Some(kind) => scalar_range(kind),
            None => None,
        }
    }

    /// The kind of the expression. The parts of a group make a struct without names.
    #[cycle(kinds)]
    pub fn kind(&self, alloc: Global) -> Result<Ty, AllocError>
        ensures { IfOk result (λ k. kind_of k ≡ (known self.now).kind) }
    {
        match self {
            Given::Whole { kind, .. } => kind.copy(alloc),
            Given::Group { parts, .. } => kinds(alloc, parts.as_slice()),
            Given::Choice { kind, .. } => kind.copy(alloc),
        }
    }
}

/// The kind of parts in braces.
#[cycle(kinds)]
fn kinds(alloc: Global, parts: &[Given]) -> Result<Ty, AllocError>
    ensures { IfOk result (λ k. kind_of k ≡ group_of (map (λ j. j.kind) (map known parts.now))) }
{
    let mut fields = Items::new(alloc);
    for given in parts {
        let ty = given.kind(alloc)?;
        let name = Word::new(alloc, b"")?;
        fields.push(FieldTy { name, ty })?;
    }
    Ok(Ty::Struct(Word::new(alloc, b"")?, fields))
}

/// The range of a whole number, which is wanted.
#[tactic(auto, using(crate::proofs::KindForms::kind_of_bool, crate::proofs::KindForms::kind_of_int, crate::proofs::KindForms::kind_of_elem, crate::proofs::KindForms::kind_of_array, crate::proofs::KindForms::kind_of_struct, crate::proofs::Describing::no_cell_whole, crate::proofs::Describing::no_cell_truth))]
pub fn whole(given: &Given) -> Result<Interval, StaticFault>
    ensures { WantsWhole (known given.now) result }
{
    match given.own_kind() {
        Some(Ty::Int(range)) => Ok(*range),
        Some(Ty::Bool | Ty::Elem(_, _) | Ty::Array(_, _) | Ty::Struct(_, _)) | None => {
            Err(fault(StaticKind::Mismatch, given.at()))
        }
    }
}

/// A truth value is wanted.
#[tactic(auto, using(crate::proofs::KindForms::kind_of_bool, crate::proofs::KindForms::kind_of_int, crate::proofs::KindForms::kind_of_elem, crate::proofs::KindForms::kind_of_array, crate::proofs::KindForms::kind_of_struct, crate::proofs::Describing::no_cell_whole, crate::proofs::Describing::no_cell_truth))]
pub fn truth(given: &Given) -> Result<(), StaticFault>
    ensures { WantsTruth (known given.now) result }
{
    match given.own_kind() {
        Some(Ty::Bool) => Ok(()),
        Some(Ty::Int(_) | Ty::Elem(_, _) | Ty::Array(_, _) | Ty::Struct(_, _)) | None => {
            Err(fault(StaticKind::Mismatch, given.at()))
        }
    }
}

/// The kind of one cell, which is wanted.
pub fn scalar_kind(given: &Given) -> Result<&Ty, StaticFault>
    ensures { WantsScalar (known given.now) result }
{
    match given.own_kind() {
        Some(kind) => {
            refuse_if(!is_scalar(kind), StaticKind::Mismatch, given.at())?;
            Ok(kind)
        }
        None => Err(fault(StaticKind::Mismatch, given.at())),
    }
}

/// Whether something goes where a kind is wanted.
#[tactic(auto, using(crate::proofs::KindForms::kind_of_bool, crate::proofs::KindForms::kind_of_int, crate::proofs::KindForms::kind_of_elem, crate::proofs::KindForms::kind_of_array, crate::proofs::KindForms::kind_of_struct))]
fn accepts(wanted: &Ty, given: &Ty) -> bool
    ensures { result ≡ accepts_kind (kind_of wanted.now) (kind_of given.now) }
{
    match wanted {
        Ty::Bool => match given {
            Ty::Bool => true,
            Ty::Int(_) | Ty::Elem(_, _) | Ty::Array(_, _) | Ty::Struct(_, _) => false,
        },
        Ty::Int(_) => match given {
            Ty::Int(_) => true,
            Ty::Bool | Ty::Elem(_, _) | Ty::Array(_, _) | Ty::Struct(_, _) => false,
        },
        Ty::Elem(root, _) => match given {
            Ty::Elem(other, _) => root.bytes() == other.bytes(),
            Ty::Bool | Ty::Int(_) | Ty::Array(_, _) | Ty::Struct(_, _) => false,
        },
        Ty::Array(count, each) => match given {
            Ty::Array(others, other) => count == others && accepts(each.get(), other.get()),
            Ty::Bool | Ty::Int(_) | Ty::Elem(_, _) | Ty::Struct(_, _) => false,
        },
        Ty::Struct(name, _) => match given {
            Ty::Struct(other, _) => name.bytes() == other.bytes(),
            Ty::Bool | Ty::Int(_) | Ty::Elem(_, _) | Ty::Array(_, _) => false,
        },
    }
}

/// A kind is wanted.
pub fn wants(at: u64, given: &Ty, wanted: &Ty) -> Result<(), StaticFault>
    ensures { IsJudged (unfit at (kind_of given.now) (kind_of wanted.now)) result }
{
    refuse_if(!accepts(wanted, given), StaticKind::Mismatch, at)
}

/// Gives each part to a part of the kind that is wanted.
#[cycle(fitting)]
fn fit_parts(parts: &[Given], wanted: &Ty) -> Result<(), StaticFault>
    ensures { IsJudged (each_fits (map known parts.now) (parts_of (kind_of wanted.now))) result }
{
    for (place, given) in parts.iter().enumerate() {
        match part(wanted, place) {
            Some(wanted) => fit(given, wanted)?,
            None => return Ok(()),
        }
    }
    Ok(())
}

/// Gives each branch to the kind that is wanted.
#[cycle(fitting)]
fn fit_branches(branches: &[Given], wanted: &Ty) -> Result<(), StaticFault>
    ensures { IsJudged (flat_map (λ j. j.fits (kind_of wanted.now)) (map known branches.now)) result }
{
    for given in branches {
        fit(given, wanted)?;
    }
    Ok(())
}

/// Whether an expression may be given to a variable of a kind: a group part by part, an `if` of lists branch by branch.
#[cycle(fitting)]
pub fn fit(given: &Given, wanted: &Ty) -> Result<(), StaticFault>
    ensures { IsJudged ((known given.now).fits (kind_of wanted.now)) result }
{
    match given {
        Given::Whole { at, kind, .. } => wants(*at, kind, wanted),
        Given::Group { at, parts } => {
            refuse_if(is_scalar(wanted), StaticKind::Mismatch, *at)?;
            refuse_if(count(wanted) != parts.len() as u64, StaticKind::Shape, *at)?;
            fit_parts(parts.as_slice(), wanted)
        }
        Given::Choice { branches, .. } => fit_branches(branches.as_slice(), wanted),
    }
}
