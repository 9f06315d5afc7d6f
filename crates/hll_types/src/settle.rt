//! Sorts that are joined to others: after the first pass each sort has its root, and each element its code there.

ghost use Rattle.std.specs.Prelude.{◌≡◌, ◌-◌, ◌<◌, IfOk, IfErr, MatchResult, reverse, slice_get};
ghost use Rattle.hll_meaning.specs.Kinds.{element};
ghost use Rattle.hll_meaning.specs.Names.{code_in};
ghost use Rattle.hll_meaning.specs.Types.{ends, kind_of};
ghost use Rattle.hll_expressions.specs.declared.faults.StaticFault.TheVariants.{Memory};
ghost use Rattle.hll_types.specs.Declaring.{IsSettled};
ghost use Rattle.hll_types.specs.Measures.{field_kinds_of};
ghost use Rattle.hll_types.specs.Settling.{AreRooted, IsRootedBy, fields_in, kind_in, root_in, thing_in};
ghost use Rattle.hll_expressions.specs.Things.{said_of};

use crate::sorts::{Sort, Sorts};
use hll_expressions::{StaticFault, Thing, Things, push};
use hll_lexer::Word;
use hll_meaning::{FieldTy, Ty};
use intervals::Interval;
use sqlite_items::{Boxed, Items};
use std::alloc::{AllocError, Global};

/// The root of a sort, by its number, and how many of the root's elements stand before its own, where it has some.
#[derive(Clone, Copy, Debug, PartialEq, Eq)]
pub struct Rooted {
    pub root: usize,
    pub before: u64,
}

/// The fields of a struct with the roots of their elements.
#[cycle(rooting)]
fn rooted_fields(
    alloc: Global,
    sorts: &Sorts<'_>,
    roots: &[Rooted],
    fields: &[FieldTy],
) -> Result<Items<FieldTy>, AllocError>
    ensures { IfOk result (λ all. field_kinds_of all ≡ fields_in (root_in sorts.now roots.now) (field_kinds_of fields.now)) }
{
    let mut all = Items::new(alloc);
    for field in fields {
        let name = Word::new(alloc, field.name.bytes())?;
        let ty = with_root(alloc, sorts, roots, &field.ty)?;
        all.push(FieldTy { name, ty })?;
    }
    Ok(all)
}

/// A type with the roots of its elements.
#[cycle(rooting)]
fn with_root(alloc: Global, sorts: &Sorts<'_>, roots: &[Rooted], ty: &Ty) -> Result<Ty, AllocError>
    ensures { IfOk result (λ t. kind_of t ≡ kind_in (root_in sorts.now roots.now) (kind_of ty.now)) }
{
    match ty {
        Ty::Bool => Ok(Ty::Bool),
        Ty::Int(ends) => Ok(Ty::Int(*ends)),
        Ty::Elem(sort, codes) => rooted_element(alloc, sorts, roots, sort, codes),
        Ty::Array(count, each) => {
            let each = with_root(alloc, sorts, roots, each.get())?;
            Ok(Ty::Array(*count, Boxed::new(alloc, each)?))
        }
        Ty::Struct(name, fields) => {
            let name = Word::new(alloc, name.bytes())?;
            let fields = rooted_fields(alloc, sorts, roots, fields.as_slice())?;
            Ok(Ty::Struct(name, fields))
        }
    }
}

/// The name of a sort's root, and how many of the root's elements stand before its own.
fn root_of(
    alloc: Global,
    sorts: &Sorts<'_>,
    roots: &[Rooted],
    sort: &Word,
) -> Result<(Word, u64), AllocError>
    ensures { IfOk result (λ r. r ≡ root_in sorts.now roots.now sort.now) }
{
    let Some(number) = sorts.number(sort.bytes()) else {
        return Err(AllocError);
    };
    let Some(place) = roots.get(number) else {
        return Err(AllocError);
    };
    match sorts.at(place.root) {
        Some((name, _)) => Ok((Word::new(alloc, name)?, place.before)),
        None => Err(AllocError),
    }
}

/// Elements of a sort as elements of its root.
fn rooted_element(
    alloc: Global,
    sorts: &Sorts<'_>,
    roots: &[Rooted],
    sort: &Word,
    codes: &Interval,
) -> Result<Ty, AllocError>
    ensures { IfOk result (λ t. kind_of t ≡ kind_in (root_in sorts.now roots.now) (element sort.now (ends codes.now))) }
{
    let (root, before) = root_of(alloc, sorts, roots, sort)?;
    let shift = before as i128;
    match Interval::new(codes.lo + shift, codes.hi + shift) {
        Some(codes) => Ok(Ty::Elem(root, codes)),
        None => Err(AllocError),
    }
}

/// The code of a sort's element, with the root of the sort.
fn rooted_code(
    alloc: Global,
    sorts: &Sorts<'_>,
    roots: &[Rooted],
    sort: &Word,
    code: u64,
) -> Result<Thing, AllocError>
    ensures { IfOk result (λ t. said_of t ≡ thing_in (root_in sorts.now roots.now) (code_in sort.now code)) }
{
    let (root, before) = root_of(alloc, sorts, roots, sort)?;
    match code.checked_add(before) {
        Some(code) => Ok(Thing::Element { root, code }),
        None => Err(AllocError),
    }
}

/// A thing with the roots of its elements.
fn rooted_thing(
    alloc: Global,
    sorts: &Sorts<'_>,
    roots: &[Rooted],
    thing: &Thing,
) -> Result<Thing, AllocError>
    ensures { IfOk result (λ t. said_of t ≡ thing_in (root_in sorts.now roots.now) (said_of thing.now)) }
{
    match thing {
        Thing::Truth(value) => Ok(Thing::Truth(*value)),
        Thing::Number(number) => Ok(Thing::Number(*number)),
        Thing::Type(ty) => Ok(Thing::Type(with_root(alloc, sorts, roots, ty)?)),
        Thing::Element { root, code } => rooted_code(alloc, sorts, roots, root, *code),
        Thing::Variable { input, ty } => {
            let ty = with_root(alloc, sorts, roots, ty)?;
            Ok(Thing::Variable { input: *input, ty })
        }
    }
}

/// The one that stands so many places further on, behind these: the next one is the last of them.
fn further_on(backward: &[Rooted], distance: usize) -> Option<Rooted>
    ensures { 0 < distance → result ≡ slice_get (reverse backward.now) (distance - 1) }
{
    match backward.len().checked_sub(distance) {
        Some(at) => backward.get(at).copied(),
        None => None,
    }
}

/// The root of one sort, by those of the sorts behind it, the last first.
fn place_of(sort: Sort, number: usize, backward: &[Rooted]) -> Result<Rooted, StaticFault>
    ensures { MatchResult result (λ r. IsRootedBy (reverse backward.now) number sort.count sort.parent r) (λ wrong. wrong ≡ Memory) }
{
    let own = Rooted {
        root: number,
        before: 0,
    };
    let Some((parent, before)) = sort.parent else {
        return Ok(own);
    };
    let Some(above) = further_on(backward, parent.saturating_sub(number)) else {
        return Ok(own);
    };
    let root = above.root;
    if sort.count == 0 {
        return Ok(Rooted { root, before: 0 });
    }
    match above.before.checked_add(before) {
        Some(before) => Ok(Rooted { root, before }),
        None => Err(StaticFault::Memory),
    }
}

/// The roots of all sorts, by their numbers. A parent has a greater number than its children.
fn roots_of(alloc: Global, sorts: &Sorts<'_>) -> Result<Vec<Rooted>, StaticFault>
    ensures { MatchResult result (λ roots. AreRooted 0 sorts.now roots.items) (λ wrong. wrong ≡ Memory) }
{
    let mut backward: Vec<Rooted> = Vec::new(alloc);
    for number in (0..sorts.len()).rev() {
        let Some((_, sort)) = sorts.at(number) else {
            return Err(StaticFault::Memory);
        };
        let place = place_of(sort, number, backward.as_slice())?;
        push(&mut backward, place)?;
    }
    backward.reverse();
    Ok(backward)
}

/// All names with the roots of their elements.
pub fn settled(alloc: Global, names: &Things, sorts: &Sorts<'_>) -> Result<Things, StaticFault>
    ensures { IsSettled names.now sorts.now result }
{
    let roots = roots_of(alloc, sorts)?;
    let mut all = Things::new(alloc);
    for (name, thing) in names.iter() {
        let thing = rooted_thing(alloc, sorts, roots.as_slice(), thing)?;
        all.declare(name.as_slice(), thing)?;
    }
    Ok(all)
}
