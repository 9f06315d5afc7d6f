//! Types as they are written.

ghost use Rattle.std.specs.Prelude.{◌≡◌, ◌≤◌, ◌-◌, ◌^◌, ◌-ℤ◌, pos, neg_ℤ, true, IsSome};
ghost use Rattle.hll_meaning.specs.Judging.{from_to, judged};
ghost use Rattle.hll_meaning.specs.Names.{under};
ghost use Rattle.hll_meaning.specs.Types.{ends, kind_of};
ghost use Rattle.hll_expressions.specs.Described.{number_of};
ghost use Rattle.hll_expressions.specs.Scopes.{context};
ghost use Rattle.hll_expressions.specs.Things.{thing_found};
ghost use Rattle.hll_types.specs.Written.{AreSizes, HasDims, IsDimension, IsNamed, IsNumber, IsSize, IsWritten};

use hll_expressions::{
    Found, Given, Scope, StaticFault, Thing, bounds, fault, judge, push, refuse_if, whole,
};
use hll_meaning::{StaticKind, Ty};
use hll_tree::{Expr, TypeText};
use intervals::Interval;
use sqlite_items::Boxed;
use std::alloc::Global;

/// The number of a constant, which is whole.
fn number(given: &Given) -> Result<i128, StaticFault>
    requires { IsSome (number_of given.now) }
    ensures { IsNumber given.now result }
{
    whole(given)?;
    match given.number() {
        Some(number) => Ok(number),
        None => unreachable!(),
    }
}

/// A size: the number of binary digits.
fn size(scope: &Scope<'_>, expr: &Expr) -> Result<u32, StaticFault>
    requires { scope.now.needs_constant ≡ true }
    ensures { IsSize (context scope.now) expr.now result }
{
    let given = judge(scope, expr)?;
    let number = number(&given)?;
    refuse_if(number < 1 || number > 64, StaticKind::Range, given.at())?;
    Ok(number as u32)
}

/// A dimension.
fn dimension(scope: &Scope<'_>, expr: &Expr) -> Result<u64, StaticFault>
    requires { scope.now.needs_constant ≡ true }
    ensures { IsDimension (context scope.now) expr.now result }
{
    let given = judge(scope, expr)?;
    let number = number(&given)?;
    refuse_if(number < 1, StaticKind::Range, given.at())?;
    Ok(number as u64)
}

/// The type that is found under a name.
fn named(alloc: Global, at: u64, found: Found<'_>) -> Result<Ty, StaticFault>
    ensures { IsNamed at (thing_found found.entry) result }
{
    match found {
        Found::Nothing => Err(fault(StaticKind::Unknown, at)),
        Found::Thing(Thing::Type(ty)) => Ok(ty.copy(alloc)?),
        Found::Later
        | Found::Thing(
            Thing::Truth(_) | Thing::Number(_) | Thing::Element { .. } | Thing::Variable { .. },
        ) => Err(fault(StaticKind::Kind, at)),
    }
}

/// The whole numbers of so many binary digits, the first of which is a sign.
fn signed(digits: u32) -> Interval
    requires some { 1 ≤ digits }
    requires few { digits ≤ 64 }
    ensures { ends result ≡ from_to (neg_ℤ (pos (2 ^ (digits - 1)))) (pos (2 ^ (digits - 1)) -ℤ pos 1) }
{
    let half = (1u128 << (digits - 1)) as i128;
    Interval {
        lo: -half,
        hi: half - 1,
    }
}

/// The whole numbers of so many binary digits.
fn unsigned(digits: u32) -> Interval
    requires some { 1 ≤ digits }
    requires few { digits ≤ 64 }
    ensures { ends result ≡ from_to (pos 0) (pos (2 ^ digits) -ℤ pos 1) }
{
    let all = (1u128 << digits) as i128;
    Interval { lo: 0, hi: all - 1 }
}

/// A type as it is written, without dimensions.
#[tactic(auto, using(hll_expressions::proofs::KindForms::kind_of_bool, hll_expressions::proofs::KindForms::kind_of_int))]
pub fn written(scope: &Scope<'_>, text: &TypeText) -> Result<Ty, StaticFault>
    requires { scope.now.needs_constant ≡ true }
    ensures { IsWritten (context scope.now) text.now result }
{
    match text {
        TypeText::Bool => Ok(Ty::Bool),
        TypeText::Bounds(lowest, greatest) => {
            let lowest = judge(scope, lowest)?;
            let greatest = judge(scope, greatest)?;
            Ok(Ty::Int(bounds(&lowest, &greatest)?))
        }
        TypeText::Signed(digits) => Ok(Ty::Int(signed(size(scope, digits)?))),
        TypeText::Unsigned(digits) => Ok(Ty::Int(unsigned(size(scope, digits)?))),
        TypeText::Named(name) => named(scope.alloc, name.at, scope.names.get(name.text.bytes())),
    }
}

/// Dimensions, one by one.
fn sizes(scope: &Scope<'_>, dims: &[Expr]) -> Result<Vec<u64>, StaticFault>
    requires { scope.now.needs_constant ≡ true }
    ensures { AreSizes (context scope.now) dims.now result }
{
    let mut sizes = Vec::new(scope.alloc);
    for dim in dims {
        let size = dimension(scope, dim)?;
        push(&mut sizes, size)?;
    }
    Ok(sizes)
}

/// An array for each dimension, the first outermost.
#[tactic(auto, using(hll_expressions::proofs::KindForms::kind_of_array, crate::proofs::DimsWalk::arrays_last))]
pub fn with_dims(scope: &Scope<'_>, each: Ty, dims: &[Expr]) -> Result<Ty, StaticFault>
    requires { scope.now.needs_constant ≡ true }
    ensures { HasDims (context scope.now) dims.now (kind_of each) result }
{
    let mut sizes = sizes(scope, dims)?;
    let mut ty = each;
    while let Some(size) = sizes.pop() {
        ty = Ty::Array(size, Boxed::new(scope.alloc, ty)?);
    }
    Ok(ty)
}
