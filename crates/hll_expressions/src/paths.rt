//! Paths.

ghost use Rattle.std.specs.Prelude.{◌≡◌, Some, map, pos, IfOk, OnOk};
ghost use Rattle.std.specs.List.{flat_map};
ghost use Rattle.hll_meaning.proofs.JudgedForms.{reach_said};
ghost use Rattle.hll_meaning.proofs.RangeForms.{reach_ranges, reaches_ranges};
ghost use Rattle.hll_meaning.specs.Judging.{bound_path, index_faults, one_step, reached_from, thing_path};
ghost use Rattle.hll_meaning.specs.Kinds.{element as element_of};
ghost use Rattle.hll_meaning.specs.Names.{later, under};
ghost use Rattle.hll_meaning.specs.Types.{kind_of};
ghost use Rattle.hll_expressions.specs.Answers.{IsJudged};
ghost use Rattle.hll_expressions.specs.Described.{IsAnswer};
ghost use Rattle.hll_expressions.specs.Ranges.{HasNoted};
ghost use Rattle.hll_expressions.specs.Scopes.{context};
ghost use Rattle.hll_expressions.specs.Things.{said_of};
ghost use Rattle.hll_expressions.specs.Ways.{nowhere, IsElement, IsFieldFound, IsMember, IsPathFrom, IsWay};

use crate::faults::{StaticFault, fault, refuse_if};
use crate::given::{Given, whole};
use crate::judging::judge_noting;
use crate::numbers::of_truth;
use crate::ranges::Ranges;
use crate::scope::Scope;
use crate::things::{Found, Thing};
use hll_lexer::Word;
use hll_meaning::{FieldTy, StaticKind, Ty};
use hll_tree::{Name, Reach};
use intervals::Interval;
use std::alloc::{AllocError, Global};

/// The field of a struct.
fn field<'t>(fields: &'t [FieldTy], name: &Name) -> Result<&'t Ty, StaticFault>
    ensures { IsFieldFound fields.now name.now result }
{
    for field in fields {
        if field.name.bytes() == name.text.bytes() {
            return Ok(&field.ty);
        }
    }
    Err(fault(StaticKind::Unknown, name.at))
}

/// The element of an array by an index, which is a whole number.
fn element<'t>(at: u64, from: &'t Ty, index: &Given) -> Result<&'t Ty, StaticFault>
    ensures { IsElement at from.now index.now result }
{
    match from {
        Ty::Array(_, of) => {
            whole(index)?;
            Ok(of.get())
        }
        Ty::Bool => Err(fault(StaticKind::Mismatch, at)),
        Ty::Int(_) => Err(fault(StaticKind::Mismatch, at)),
        Ty::Elem(_, _) => Err(fault(StaticKind::Mismatch, at)),
        Ty::Struct(_, _) => Err(fault(StaticKind::Mismatch, at)),
    }
}

/// The field of a kind, which is a struct.
fn member<'t>(at: u64, from: &'t Ty, name: &Name) -> Result<&'t Ty, StaticFault>
    ensures { IsMember at from.now name.now result }
{
    match from {
        Ty::Struct(_, fields) => field(fields.as_slice(), name),
        Ty::Bool => Err(fault(StaticKind::Mismatch, at)),
        Ty::Int(_) => Err(fault(StaticKind::Mismatch, at)),
        Ty::Elem(_, _) => Err(fault(StaticKind::Mismatch, at)),
        Ty::Array(_, _) => Err(fault(StaticKind::Mismatch, at)),
    }
}

/// One step into a kind.
#[cycle(judge)]
fn step<'t>(
    scope: &Scope<'_>,
    ranges: &mut Ranges,
    reach: &Reach,
    at: u64,
    from: &'t Ty,
) -> Result<&'t Ty, StaticFault>
    ensures answer { IsWay (one_step (context scope.now) at (nowhere (kind_of from.now)) (reach_said reach.now)) result }
    ensures noted { OnOk result (HasNoted ranges.old ranges.new (reach_ranges reach.now (context scope.now))) }
{
    match reach {
        Reach::At(index) => {
            let index = judge_noting(scope, ranges, index)?;
            element(at, from, &index)
        }
        Reach::Field(name) => member(at, from, name),
    }
}

/// The steps of a path from a kind.
#[cycle(judge)]
fn walk<'t>(
    scope: &Scope<'_>,
    ranges: &mut Ranges,
    reaches: &[Reach],
    at: u64,
    from: &'t Ty,
) -> Result<&'t Ty, StaticFault>
    ensures answer { IsWay (reached_from (context scope.now) at (kind_of from.now) (map reach_said reaches.now)) result }
    ensures noted { OnOk result (HasNoted ranges.old ranges.new (reaches_ranges reaches.now (context scope.now))) }
{
    let mut kind = from;
    for reach in reaches {
        kind = step(scope, ranges, reach, at, kind)?;
    }
    Ok(kind)
}

/// A path from something of a kind, with its number where it is a constant.
#[cycle(judge)]
fn path_from(
    scope: &Scope<'_>,
    ranges: &mut Ranges,
    reaches: &[Reach],
    at: u64,
    from: &Ty,
    number: Option<i128>,
) -> Result<Given, StaticFault>
    ensures answer { IsPathFrom (context scope.now) at (kind_of from.now) number (map reach_said reaches.now) result }
    ensures noted { OnOk result (HasNoted ranges.old ranges.new (reaches_ranges reaches.now (context scope.now))) }
{
    let kind = walk(scope, ranges, reaches, at, from)?;
    refuse_if(
        number.is_none() && scope.needs_constant,
        StaticKind::Constant,
        at,
    )?;
    let kind = kind.copy(scope.alloc)?;
    Ok(Given::Whole { at, kind, number })
}

/// The indices of a path, where what is reached isn't known yet.
#[cycle(judge)]
fn indices(scope: &Scope<'_>, ranges: &mut Ranges, reaches: &[Reach]) -> Result<(), StaticFault>
    ensures answer { IsJudged (flat_map (index_faults (context scope.now)) (map reach_said reaches.now)) result }
    ensures noted { OnOk result (HasNoted ranges.old ranges.new (reaches_ranges reaches.now (context scope.now))) }
{
    for reach in reaches {
        match reach {
            Reach::At(index) => {
                judge_noting(scope, ranges, index)?;
            }
            Reach::Field(_) => {}
        }
    }
    Ok(())
}

/// A path from what stands further on: its indices are looked at, and it is no constant.
#[cycle(judge)]
fn from_later(
    scope: &Scope<'_>,
    ranges: &mut Ranges,
    reaches: &[Reach],
    at: u64,
) -> Result<Given, StaticFault>
    ensures answer { IsAnswer scope.now.needs_constant (thing_path (context scope.now) at (map reach_said reaches.now) (Some later)) result }
    ensures noted { OnOk result (HasNoted ranges.old ranges.new (reaches_ranges reaches.now (context scope.now))) }
{
    indices(scope, ranges, reaches)?;
    refuse_if(scope.needs_constant, StaticKind::Constant, at)?;
    Ok(Given::Whole {
        at,
        kind: Ty::Bool,
        number: None,
    })
}

/// A path from what its name stands for.
#[cycle(judge)]
fn from_thing(
    scope: &Scope<'_>,
    ranges: &mut Ranges,
    reaches: &[Reach],
    at: u64,
    thing: &Thing,
) -> Result<Given, StaticFault>
    ensures answer { IsAnswer scope.now.needs_constant (thing_path (context scope.now) at (map reach_said reaches.now) (Some (said_of thing.now))) result }
    ensures noted { OnOk result (HasNoted ranges.old ranges.new (reaches_ranges reaches.now (context scope.now))) }
{
    match thing {
        Thing::Truth(value) => path_from(
            scope,
            ranges,
            reaches,
            at,
            &Ty::Bool,
            Some(of_truth(*value)),
        ),
        Thing::Number(number) => {
            let kind = Ty::Int(number.range());
            path_from(scope, ranges, reaches, at, &kind, Some(number.value))
        }
        Thing::Type(_) => Err(fault(StaticKind::Kind, at)),
        Thing::Element { root, code } => {
            let kind = element_kind(scope.alloc, root, *code)?;
            path_from(scope, ranges, reaches, at, &kind, None)
        }
        Thing::Variable { input: _, ty } => path_from(scope, ranges, reaches, at, ty, None),
    }
}

/// The kind of an element alone.
fn element_kind(alloc: Global, root: &Word, code: u64) -> Result<Ty, AllocError>
    ensures { IfOk result (λ k. kind_of k ≡ element_of root.now (record { lo = pos code; hi = pos code })) }
{
    let root = Word::new(alloc, root.bytes())?;
    let code = i128::from(code);
    Ok(Ty::Elem(root, Interval { lo: code, hi: code }))
}

/// A path. A bound or index name hides what else has its name.
#[cycle(judge)]
pub fn path(
    scope: &Scope<'_>,
    ranges: &mut Ranges,
    reaches: &[Reach],
    at: u64,
    name: &Name,
) -> Result<Given, StaticFault>
    ensures answer { IsAnswer scope.now.needs_constant (bound_path (context scope.now) at name.now.text (map reach_said reaches.now) (under name.now.text (context scope.now).bound)) result }
    ensures noted { OnOk result (HasNoted ranges.old ranges.new (reaches_ranges reaches.now (context scope.now))) }
{
    if let Some(kind) = scope.bound.kind(name.text.bytes()) {
        return path_from(scope, ranges, reaches, at, kind, None);
    }
    match scope.names.get(name.text.bytes()) {
        Found::Nothing => Err(fault(StaticKind::Unknown, at)),
        Found::Later => from_later(scope, ranges, reaches, at),
        Found::Thing(thing) => from_thing(scope, ranges, reaches, at, thing),
    }
}
