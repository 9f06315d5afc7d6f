//! What the branches of an `if` make together.

ghost use Rattle.std.specs.Prelude.{◌≡◌, ◌∷◌, ◌++◌, ◌||◌, [], false, length, slice_get, option_map, List, IfOk, OnOk};
ghost use Rattle.std.specs.Option.{option_copied};
ghost use Rattle.hll_meaning.specs.Fitting.{Joined as Said, gathered, is_scalar as is_scalar_kind, join as said_join, parts, together as said_together, apart as said_apart, of_lengths as said_of_lengths, with_element as said_with_element, with_truth as said_with_truth, with_whole as said_with_whole};
ghost use Rattle.hll_meaning.specs.Types.{ends, kind_of};
ghost use Rattle.hll_expressions.specs.Joining.{said, join_each, HasGathered};

use crate::faults::StaticFault;
use hll_lexer::Word;
use hll_meaning::{FieldTy, Ty};
use intervals::Interval;
use sqlite_items::{Boxed, Items};
use std::alloc::{AllocError, Global};

/// What two branches make together, and whether they are of different kinds, numbers of both are wide, and lists have
/// different lengths.
#[derive(Drop)]
pub struct Joined {
    pub kind: Ty,
    pub mismatched: bool,
    pub wide: bool,
    pub uneven: bool,
}

fn together(kind: Ty) -> Joined
    ensures { said result ≡ said_together (kind_of kind) }
{
    Joined {
        kind,
        mismatched: false,
        wide: false,
        uneven: false,
    }
}

fn apart(kind: Ty) -> Joined
    ensures { said result ≡ said_apart (kind_of kind) }
{
    Joined {
        kind,
        mismatched: true,
        wide: false,
        uneven: false,
    }
}

fn of_lengths(kind: Ty) -> Joined
    ensures { said result ≡ said_of_lengths (kind_of kind) }
{
    Joined {
        kind,
        mismatched: false,
        wide: false,
        uneven: true,
    }
}

/// A whole number with another kind.
#[tactic(auto, using(crate::proofs::KindForms::kind_of_bool, crate::proofs::KindForms::kind_of_int, crate::proofs::KindForms::kind_of_elem, crate::proofs::KindForms::kind_of_array, crate::proofs::KindForms::kind_of_struct, crate::proofs::KindForms::wide_so, crate::proofs::KindForms::narrow_so))]
fn with_whole(range: Interval, given: &Ty) -> Joined
    ensures { said result ≡ said_with_whole (ends range) (kind_of given.now) }
{
    match given {
        Ty::Int(other) => match range.hull(other) {
            Some(hull) => together(Ty::Int(hull)),
            None => Joined {
                kind: Ty::Int(range),
                mismatched: false,
                wide: true,
                uneven: false,
            },
        },
        Ty::Bool | Ty::Elem(_, _) | Ty::Array(_, _) | Ty::Struct(_, _) => apart(Ty::Int(range)),
    }
}

/// An element with another kind. Codes are never so far apart that their range is wide.
#[tactic(auto, using(crate::proofs::KindForms::kind_of_bool, crate::proofs::KindForms::kind_of_int, crate::proofs::KindForms::kind_of_elem, crate::proofs::KindForms::kind_of_array, crate::proofs::KindForms::kind_of_struct))]
fn with_element(
    alloc: Global,
    root: &Word,
    codes: Interval,
    given: &Ty,
) -> Result<Joined, AllocError>
    ensures { IfOk result (λ j. said j ≡ said_with_element root.now (ends codes) (kind_of given.now)) }
{
    let own = Word::new(alloc, root.bytes())?;
    match given {
        Ty::Elem(other_root, other) => {
            if root.bytes() != other_root.bytes() {
                return Ok(apart(Ty::Elem(own, codes)));
            }
            match codes.hull(other) {
                Some(hull) => Ok(together(Ty::Elem(own, hull))),
                None => Err(AllocError),
            }
        }
        Ty::Bool | Ty::Int(_) | Ty::Array(_, _) | Ty::Struct(_, _) => {
            Ok(apart(Ty::Elem(own, codes)))
        }
    }
}

/// Whether a kind is one cell.
#[tactic(auto, using(crate::proofs::KindForms::kind_of_bool, crate::proofs::KindForms::kind_of_int, crate::proofs::KindForms::kind_of_elem, crate::proofs::KindForms::kind_of_array, crate::proofs::KindForms::kind_of_struct))]
pub fn is_scalar(kind: &Ty) -> bool
    ensures { result ≡ is_scalar_kind (kind_of kind.now) }
{
    match kind {
        Ty::Bool | Ty::Int(_) | Ty::Elem(_, _) => true,
        Ty::Array(_, _) | Ty::Struct(_, _) => false,
    }
}

/// How many parts a list has.
#[tactic(auto, using(crate::proofs::KindForms::kind_of_bool, crate::proofs::KindForms::kind_of_int, crate::proofs::KindForms::kind_of_elem, crate::proofs::KindForms::count_of_array, crate::proofs::KindForms::count_of_struct))]
pub fn count(kind: &Ty) -> u64
    ensures { result ≡ length (parts (kind_of kind.now)) }
{
    match kind {
        Ty::Bool | Ty::Int(_) | Ty::Elem(_, _) => 0,
        Ty::Array(count, _) => *count,
        Ty::Struct(_, fields) => fields.len() as u64,
    }
}

/// The part of a list at a place.
#[tactic(auto, using(crate::proofs::KindForms::kind_of_bool, crate::proofs::KindForms::kind_of_int, crate::proofs::KindForms::kind_of_elem, crate::proofs::KindForms::part_of_array, crate::proofs::KindForms::no_part_of_array, crate::proofs::KindForms::part_of_struct))]
pub fn part(kind: &Ty, place: usize) -> Option<&Ty>
    ensures { option_map kind_of (option_copied result) ≡ slice_get (parts (kind_of kind.now)) place }
{
    match kind {
        Ty::Bool | Ty::Int(_) | Ty::Elem(_, _) => None,
        Ty::Array(count, of) => {
            if (place as u64) < *count {
                Some(of.get())
            } else {
                None
            }
        }
        Ty::Struct(_, fields) => match fields.get(place) {
            Some(field) => Some(&field.ty),
            None => None,
        },
    }
}

/// Parts that were joined: their kinds in fields without names, and whether any are of different kinds, too wide, or of different
/// lengths.
#[derive(Drop)]
struct Gathered {
    fields: Items<FieldTy>,
    mismatched: bool,
    wide: bool,
    uneven: bool,
}

/// Adds the next part to what was joined before.
fn gather(alloc: Global, all: &mut Gathered, next: Joined) -> Result<(), AllocError>
    ensures { (js : List Said) → HasGathered all.old js → OnOk result (HasGathered all.new (js ++ said next ∷ [])) }
{
    let name = Word::new(alloc, b"")?;
    let mismatched = or(all.mismatched, next.mismatched);
    let wide = or(all.wide, next.wide);
    let uneven = or(all.uneven, next.uneven);
    let ty = next.kind;
    all.fields.push(FieldTy { name, ty })?;
    all.mismatched = mismatched;
    all.wide = wide;
    all.uneven = uneven;
    Ok(())
}

pub fn or(left: bool, right: bool) -> bool
    ensures { result ≡ (left || right) }
{
    left || right
}

/// What parts make together.
fn whole_of(alloc: Global, all: Gathered) -> Result<Joined, AllocError>
    ensures { (js : List Said) → HasGathered all js → IfOk result (λ j. said j ≡ gathered js) }
{
    let Gathered {
        fields,
        mismatched,
        wide,
        uneven,
    } = all;
    Ok(Joined {
        kind: Ty::Struct(Word::new(alloc, b"")?, fields),
        mismatched,
        wide,
        uneven,
    })
}

/// Joins two lists part by part.
#[cycle(joining)]
fn join_parts(alloc: Global, own: &Ty, given: &Ty) -> Result<Joined, AllocError>
    ensures { IfOk result (λ j. said j ≡ gathered (join_each (parts (kind_of own.now)) (parts (kind_of given.now)))) }
{
    let mut all = Gathered {
        fields: Items::new(alloc),
        mismatched: false,
        wide: false,
        uneven: false,
    };
    for place in 0..count(own) as usize {
        let (Some(a), Some(b)) = (part(own, place), part(given, place)) else {
            return Err(AllocError);
        };
        let next = join(alloc, a, b)?;
        gather(alloc, &mut all, next)?;
    }
    whole_of(alloc, all)
}

/// Joins a list with another kind.
#[cycle(joining)]
fn with_parts(alloc: Global, own: &Ty, given: &Ty) -> Result<Joined, AllocError>
    requires { is_scalar_kind (kind_of own.now) ≡ false }
    ensures { IfOk result (λ j. said j ≡ said_join (kind_of own.now) (kind_of given.now)) }
{
    if is_scalar(given) {
        Ok(apart(own.copy(alloc)?))
    } else if count(own) == count(given) {
        join_parts(alloc, own, given)
    } else {
        Ok(of_lengths(own.copy(alloc)?))
    }
}

/// A truth value with another kind.
#[tactic(auto, using(crate::proofs::KindForms::kind_of_bool, crate::proofs::KindForms::kind_of_int, crate::proofs::KindForms::kind_of_elem, crate::proofs::KindForms::kind_of_array, crate::proofs::KindForms::kind_of_struct))]
fn with_truth(given: &Ty) -> Joined
    ensures { said result ≡ said_with_truth (kind_of given.now) }
{
    match given {
        Ty::Bool => together(Ty::Bool),
        Ty::Int(_) | Ty::Elem(_, _) | Ty::Array(_, _) | Ty::Struct(_, _) => apart(Ty::Bool),
    }
}

/// Joins two kinds.
#[cycle(joining)]
#[tactic(auto, using(crate::proofs::KindForms::kind_of_bool, crate::proofs::KindForms::kind_of_int, crate::proofs::KindForms::kind_of_elem, crate::proofs::KindForms::kind_of_array, crate::proofs::KindForms::kind_of_struct))]
pub fn join(alloc: Global, own: &Ty, given: &Ty) -> Result<Joined, AllocError>
    ensures { IfOk result (λ j. said j ≡ said_join (kind_of own.now) (kind_of given.now)) }
{
    match own {
        Ty::Bool => Ok(with_truth(given)),
        Ty::Int(range) => Ok(with_whole(*range, given)),
        Ty::Elem(root, codes) => with_element(alloc, root, *codes, given),
        Ty::Array(_, _) | Ty::Struct(_, _) => with_parts(alloc, own, given),
    }
}
