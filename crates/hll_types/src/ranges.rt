//! The ranges of all scalar expressions that stand in a text without faults.

ghost use Rattle.std.specs.Prelude.{◌≡◌, ◌++◌, List};
ghost use Rattle.std.specs.List.{AllByRecursion, flat_map};
ghost use Rattle.hll_meaning.specs.Declarations.{a_constant, a_type, items_in, names as names_in, variables_of};
ghost use Rattle.hll_meaning.specs.Nodes.{all_nodes, asked_nodes, declarators_nodes, fields_nodes, item_nodes, nodes, ranges_of as ranges_in, type_item_nodes, type_nodes, where_declared};
ghost use Rattle.hll_meaning.specs.StaticRules.{asked_in, defines, demands, part_expressions, Well};
ghost use Rattle.hll_expressions.specs.Scopes.{context};
ghost use Rattle.hll_expressions.specs.Things.{names_of};
ghost use Rattle.hll_types.specs.Walking.{AreNoted, AreRangesOf, AreWalked, IsAskedWalked, IsFineAsked};

use crate::define::{asking, defined_kind, left};
use hll_expressions::{Bounds, Ranges, Scope, StaticFault, Things, judge_noting};
use hll_tree::{
    ConstItem, Decl, Declarator, Def, Expr, Field, HllModel, Part, Section, TypeItem, TypeText,
};
use std::alloc::Global;

/// One expression.
fn expression(scope: &Scope<'_>, ranges: &mut Ranges, expr: &Expr) -> Result<(), StaticFault>
    ensures { AreWalked ranges.old ranges.new (nodes expr.now (context scope.now)) result }
{
    let _given = judge_noting(scope, ranges, expr)?;
    Ok(())
}

/// Expressions one after the other.
fn expressions(scope: &Scope<'_>, ranges: &mut Ranges, exprs: &[Expr]) -> Result<(), StaticFault>
    ensures { AreWalked ranges.old ranges.new (all_nodes exprs.now (context scope.now)) result }
{
    for expr in exprs {
        expression(scope, ranges, expr)?;
    }
    Ok(())
}

/// A type as it is written.
fn written(scope: &Scope<'_>, ranges: &mut Ranges, text: &TypeText) -> Result<(), StaticFault>
    ensures { AreWalked ranges.old ranges.new (type_nodes text.now (context scope.now)) result }
{
    match text {
        TypeText::Bool => Ok(()),
        TypeText::Named(_) => Ok(()),
        TypeText::Bounds(lowest, greatest) => {
            expression(scope, ranges, lowest)?;
            expression(scope, ranges, greatest)
        }
        TypeText::Signed(digits) | TypeText::Unsigned(digits) => expression(scope, ranges, digits),
    }
}

/// A type, and the dimensions behind it.
fn with_dims(
    scope: &Scope<'_>,
    ranges: &mut Ranges,
    text: &TypeText,
    dims: &[Expr],
) -> Result<(), StaticFault>
    ensures { AreWalked ranges.old ranges.new (type_nodes text.now (context scope.now) ++ all_nodes dims.now (context scope.now)) result }
{
    written(scope, ranges, text)?;
    expressions(scope, ranges, dims)
}

/// The fields of a struct.
fn fields(scope: &Scope<'_>, ranges: &mut Ranges, items: &[Field]) -> Result<(), StaticFault>
    ensures { AreWalked ranges.old ranges.new (fields_nodes items.now (context scope.now)) result }
{
    for field in items {
        with_dims(scope, ranges, &field.ty, field.of.dims.as_slice())?;
    }
    Ok(())
}

/// A declared type.
fn type_item(scope: &Scope<'_>, ranges: &mut Ranges, item: &TypeItem) -> Result<(), StaticFault>
    ensures { AreWalked ranges.old ranges.new (type_item_nodes item.now (context scope.now)) result }
{
    match item {
        TypeItem::Alias(text, declarator) => {
            with_dims(scope, ranges, text, declarator.dims.as_slice())
        }
        TypeItem::Structure(items, _) => fields(scope, ranges, items.as_slice()),
        TypeItem::Enumeration(_, _) => Ok(()),
        TypeItem::Leaves(_, _) => Ok(()),
        TypeItem::Children(_, _) => Ok(()),
    }
}

/// The dimensions of declared names.
fn declarators(
    scope: &Scope<'_>,
    ranges: &mut Ranges,
    names: &[Declarator],
) -> Result<(), StaticFault>
    ensures { AreWalked ranges.old ranges.new (declarators_nodes names.now (context scope.now)) result }
{
    for declarator in names {
        expressions(scope, ranges, declarator.dims.as_slice())?;
    }
    Ok(())
}

/// A declaration of variables.
fn variables(scope: &Scope<'_>, ranges: &mut Ranges, decl: &Decl) -> Result<(), StaticFault>
    ensures { AreWalked ranges.old ranges.new (type_nodes decl.now.ty (context scope.now) ++ declarators_nodes decl.now.names (context scope.now)) result }
{
    written(scope, ranges, &decl.ty)?;
    declarators(scope, ranges, decl.names.as_slice())
}

/// Constants.
fn constants(scope: &Scope<'_>, ranges: &mut Ranges, items: &[ConstItem]) -> Result<(), StaticFault>
    ensures { AreWalked ranges.old ranges.new (flat_map (λ k. nodes k.value (context scope.now)) items.now) result }
{
    for item in items {
        expression(scope, ranges, &item.value)?;
    }
    Ok(())
}

/// Declared types.
fn types(scope: &Scope<'_>, ranges: &mut Ranges, items: &[TypeItem]) -> Result<(), StaticFault>
    ensures { AreWalked ranges.old ranges.new (flat_map (λ t. type_item_nodes t (context scope.now)) items.now) result }
{
    for item in items {
        type_item(scope, ranges, item)?;
    }
    Ok(())
}

/// Declarations of variables.
fn all_variables(scope: &Scope<'_>, ranges: &mut Ranges, decls: &[Decl]) -> Result<(), StaticFault>
    ensures { AreWalked ranges.old ranges.new (flat_map (λ decl. type_nodes decl.ty (context scope.now) ++ declarators_nodes decl.names (context scope.now)) decls.now) result }
{
    for decl in decls {
        variables(scope, ranges, decl)?;
    }
    Ok(())
}

/// What a section declares.
fn declared(scope: &Scope<'_>, ranges: &mut Ranges, section: &Section) -> Result<(), StaticFault>
    ensures { AreWalked ranges.old ranges.new (flat_map (λ it. item_nodes it (context scope.now)) (items_in section.now)) result }
{
    match section {
        Section::Constants(items) => constants(scope, ranges, items.as_slice()),
        Section::Types(items) => types(scope, ranges, items.as_slice()),
        Section::Inputs(decls) => all_variables(scope, ranges, decls.as_slice()),
        Section::Declarations(decls) => all_variables(scope, ranges, decls.as_slice()),
        Section::Definitions(_) => Ok(()),
        Section::Constraints(_) => Ok(()),
        Section::Obligations(_) => Ok(()),
    }
}

/// What sections declare.
fn all_declared(
    scope: &Scope<'_>,
    ranges: &mut Ranges,
    sections: &[Section],
) -> Result<(), StaticFault>
    ensures { AreWalked ranges.old ranges.new (flat_map (λ s. flat_map (λ it. item_nodes it (context scope.now)) (items_in s)) sections.now) result }
{
    for section in sections {
        declared(scope, ranges, section)?;
    }
    Ok(())
}

/// What is given to a left side.
fn part(scope: &Scope<'_>, ranges: &mut Ranges, part: &Part) -> Result<(), StaticFault>
    ensures { AreWalked ranges.old ranges.new (all_nodes (part_expressions part.now) (context scope.now)) result }
{
    match part {
        Part::Value(expr) | Part::First(expr) | Part::Next(expr) => expression(scope, ranges, expr),
        Part::Both(first, next) => {
            expression(scope, ranges, first)?;
            expression(scope, ranges, next)
        }
    }
}

/// A definition: what it gives stands under the index names of its left side.
fn definition(
    alloc: Global,
    names: &Things,
    ranges: &mut Ranges,
    def: &Def,
) -> Result<(), StaticFault>
    ensures { IsAskedWalked (names_of names.now) ranges.old ranges.new (defines def.now) result }
{
    let kind = defined_kind(names, def)?;
    let indices = def.indices.as_slice();
    let mut bound = Vec::new(alloc);
    let _rest = left(alloc, &mut bound, kind, indices)?;
    let scope = asking(alloc, names, bound.as_slice());
    part(&scope, ranges, &def.part)
}

/// Definitions one after the other.
fn definitions(
    alloc: Global,
    names: &Things,
    ranges: &mut Ranges,
    defs: &[Def],
) -> Result<(), StaticFault>
    ensures { AreNoted ranges.old ranges.new (ranges_in (flat_map (λ d. asked_nodes (names_of names.now) (defines d)) defs.now)) (AllByRecursion (λ d. IsFineAsked (names_of names.now) (defines d)) defs.now) result }
{
    for def in defs {
        definition(alloc, names, ranges, def)?;
    }
    Ok(())
}

/// A constraint or an obligation.
fn demand(
    alloc: Global,
    names: &Things,
    ranges: &mut Ranges,
    expr: &Expr,
) -> Result<(), StaticFault>
    ensures { IsAskedWalked (names_of names.now) ranges.old ranges.new (demands expr.now) result }
{
    let scope = asking(alloc, names, &[]);
    expression(&scope, ranges, expr)
}

/// Constraints or obligations one after the other.
fn all_demands(
    alloc: Global,
    names: &Things,
    ranges: &mut Ranges,
    exprs: &[Expr],
) -> Result<(), StaticFault>
    ensures { AreNoted ranges.old ranges.new (ranges_in (flat_map (λ e. asked_nodes (names_of names.now) (demands e)) exprs.now)) (AllByRecursion (λ e. IsFineAsked (names_of names.now) (demands e)) exprs.now) result }
{
    for expr in exprs {
        demand(alloc, names, ranges, expr)?;
    }
    Ok(())
}

/// What a section defines or demands.
fn asked(
    alloc: Global,
    names: &Things,
    ranges: &mut Ranges,
    section: &Section,
) -> Result<(), StaticFault>
    ensures { AreNoted ranges.old ranges.new (ranges_in (flat_map (asked_nodes (names_of names.now)) (asked_in section.now))) (AllByRecursion (IsFineAsked (names_of names.now)) (asked_in section.now)) result }
{
    match section {
        Section::Definitions(defs) => definitions(alloc, names, ranges, defs.as_slice()),
        Section::Constraints(exprs) | Section::Obligations(exprs) => {
            all_demands(alloc, names, ranges, exprs.as_slice())
        }
        Section::Constants(_) => Ok(()),
        Section::Types(_) => Ok(()),
        Section::Inputs(_) => Ok(()),
        Section::Declarations(_) => Ok(()),
    }
}

/// What sections define or demand.
fn all_asked(
    alloc: Global,
    names: &Things,
    ranges: &mut Ranges,
    sections: &[Section],
) -> Result<(), StaticFault>
    ensures { AreNoted ranges.old ranges.new (ranges_in (flat_map (λ s. flat_map (asked_nodes (names_of names.now)) (asked_in s)) sections.now)) (AllByRecursion (λ s. AllByRecursion (IsFineAsked (names_of names.now)) (asked_in s)) sections.now) result }
{
    for section in sections {
        asked(alloc, names, ranges, section)?;
    }
    Ok(())
}

/// Where an expression of a declaration stands, under all names of a text.
fn declaring(alloc: Global, names: &Things) -> Scope<'_>
    ensures { context result ≡ where_declared (names_of names.now) }
{
    Scope {
        alloc,
        names,
        bound: Bounds::Indices(&[]),
        needs_constant: true,
    }
}

/// The ranges of all scalar expressions of a text without faults, in the order of the walk: those of its declarations, and then those
/// of its definitions and demands.
pub fn ranges_of(alloc: Global, names: &Things, model: &HllModel) -> Result<Ranges, StaticFault>
    ensures { Well model.now → names_of names.now ≡ names_in model.now → AreRangesOf model.now result }
{
    let mut ranges = Ranges::new(alloc);
    let sections = model.sections.as_slice();
    all_declared(&declaring(alloc, names), &mut ranges, sections)?;
    all_asked(alloc, names, &mut ranges, sections)?;
    Ok(ranges)
}
