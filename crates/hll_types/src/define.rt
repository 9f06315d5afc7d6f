//! The second pass, over definitions, constraints and obligations in the order of the text, and the third, in which each variable
//! must be defined.

ghost use Rattle.std.specs.Prelude.{◌≡◌, ◌++◌, ◌∷◌, [], ◌-ℤ◌, List, false, fold, pos, IfOk, IfErr};
ghost use Rattle.std.specs.List.{flat_map};
ghost use Rattle.hll_tree.specs.declared.tree.Slot.TheVariants.{Index as IndexSlot};
ghost use Rattle.hll_meaning.specs.Judging.{from_to, judged};
ghost use Rattle.hll_meaning.specs.Kinds.{whole};
ghost use Rattle.hll_meaning.specs.StaticRules.{asked_in, asking as asking_context, declared_in, variable_faults, with_slot};
ghost use Rattle.hll_meaning.specs.Types.{kind_of};
ghost use Rattle.hll_expressions.specs.declared.faults.StaticFault.TheVariants.{Memory};
ghost use Rattle.hll_expressions.specs.Answers.{IsJudged};
ghost use Rattle.hll_types.specs.Defining.{clashes_with, declarator_faults, demand_faults, left_of, no_parts, part_faults, parts_under, AreAsked, AreDefinitions, HasParts, IsAsked, IsDefined, IsDefinition, IsKept, IsLeft, Keeps};
ghost use Rattle.hll_expressions.specs.Scopes.{context, index_names};
ghost use Rattle.hll_expressions.specs.Things.{names_of};
ghost use Rattle.hll_tree.specs.declared.tree.Def.{Def};

use hll_expressions::{
    Bounds, Found, Index, Scope, StaticFault, Thing, Things, fault, fit, judge, push, refuse_if,
    truth,
};
use hll_lexer::Word;
use hll_meaning::{StaticKind, Ty};
use hll_tree::{Decl, Declarator, Def, Expr, HllModel, Name, Part, Section, Slot};
use indexmap::IndexMap;
use intervals::Interval;
use std::alloc::Global;

/// Which parts a variable has.
#[derive(Clone, Copy, Debug, PartialEq, Eq)]
pub struct Parts {
    /// A value, or both other parts together.
    pub whole: bool,
    pub first: bool,
    /// The place of the part for the next instant.
    pub next: Option<u64>,
    /// Whether some part is that of the first or of the next instant.
    pub memory: bool,
}

/// The variables that are defined so far, with their parts.
#[derive(Drop)]
pub struct Defined<'a> {
    by_name: IndexMap<&'a [u8], Parts>,
}

impl Parts {
    fn none() -> Parts
        ensures { result ≡ no_parts }
    {
        Parts {
            whole: false,
            first: false,
            next: None,
            memory: false,
        }
    }

    /// Whether a further part is one too many.
    fn clashes(self, part: &Part) -> bool
        ensures { (own : List Def) → HasParts own self → result ≡ clashes_with own part.now }
    {
        match part {
            Part::Value(_) | Part::Both(_, _) => self.whole || self.first || self.next.is_some(),
            Part::First(_) => self.whole || self.first,
            Part::Next(_) => self.whole || self.next.is_some(),
        }
    }

    /// The parts with that of a definition.
    fn with(self, def: &Def) -> Parts
        ensures { (own : List Def) → HasParts own self → clashes_with own def.now.part ≡ false → HasParts (own ++ def.now ∷ []) result }
    {
        match def.part {
            Part::Value(_) => Parts {
                whole: true,
                ..self
            },
            Part::Both(_, _) => Parts {
                whole: true,
                memory: true,
                ..self
            },
            Part::First(_) => Parts {
                first: true,
                memory: true,
                ..self
            },
            Part::Next(_) => Parts {
                next: Some(def.at),
                memory: true,
                ..self
            },
        }
    }
}

impl<'a> Defined<'a> {
    pub fn new(alloc: Global) -> Defined<'a>
        ensures { Keeps result [] }
    {
        Defined {
            by_name: IndexMap::new(alloc),
        }
    }

    /// The parts of a variable.
    pub fn parts(&self, name: &[u8]) -> Parts
        ensures { result ≡ parts_under self.now name.now }
    {
        match self.by_name.get(name) {
            Some(parts) => *parts,
            None => Parts::none(),
        }
    }

    /// Keeps the part of a definition, which the variable mustn't have already.
    fn add(&mut self, def: &'a Def) -> Result<(), StaticFault>
        ensures { IsKept self.old self.new def.now result }
    {
        let name = def.name.text.bytes();
        let before = self.parts(name);
        refuse_if(before.clashes(&def.part), StaticKind::Twice, def.name.at)?;
        match self.by_name.insert(name, before.with(def)) {
            Ok(_) => Ok(()),
            Err(_) => Err(StaticFault::Memory),
        }
    }
}

/// The kind of what is defined: a variable that is no input.
pub fn defined_kind<'a>(names: &'a Things, def: &Def) -> Result<&'a Ty, StaticFault>
    ensures { IsDefined (names_of names.now) def.now result }
{
    match names.get(def.name.text.bytes()) {
        Found::Nothing => Err(fault(StaticKind::Unknown, def.name.at)),
        Found::Thing(Thing::Variable { input: false, ty }) => Ok(ty),
        Found::Later
        | Found::Thing(
            Thing::Variable { input: true, .. }
            | Thing::Truth(_)
            | Thing::Number(_)
            | Thing::Type(_)
            | Thing::Element { .. },
        ) => Err(fault(StaticKind::Kind, def.name.at)),
    }
}

/// The index name of a level of so many places.
#[tactic(auto, using(hll_expressions::proofs::KindForms::kind_of_int))]
fn index_of(alloc: Global, name: &Name, size: u64) -> Result<Index, StaticFault>
    ensures name { IfOk result (λ i. i.name ≡ name.now.text) }
    ensures kind { IfOk result (λ i. kind_of i.kind ≡ whole (from_to (pos 0) (pos size -ℤ pos 1))) }
    ensures memory { IfErr result (λ wrong. wrong ≡ Memory) }
{
    let Some(places) = Interval::new(0, i128::from(size) - 1) else {
        return Err(StaticFault::Memory);
    };
    let text = Word::new(alloc, name.text.bytes())?;
    Ok(Index {
        name: text,
        kind: Ty::Int(places),
    })
}

/// The index name of one level of a left side; answers what is left of the kind.
fn index_name<'a>(
    alloc: Global,
    bound: &mut Vec<Index>,
    kind: &'a Ty,
    name: &Name,
) -> Result<&'a Ty, StaticFault>
    ensures { IsLeft (with_slot (left_of kind.now bound.old.items) (IndexSlot name.now)) bound.new.items result }
{
    let is_bound = Bounds::Indices(bound.as_slice())
        .kind(name.text.bytes())
        .is_some();
    refuse_if(is_bound, StaticKind::Twice, name.at)?;
    match kind {
        Ty::Array(size, each) => {
            let index = index_of(alloc, name, *size)?;
            push(bound, index)?;
            Ok(each.get())
        }
        Ty::Bool | Ty::Int(_) | Ty::Elem(_, _) | Ty::Struct(_, _) => {
            Err(fault(StaticKind::Shape, name.at))
        }
    }
}

/// One slot of a left side; answers what is left of the kind.
fn level<'a>(
    alloc: Global,
    bound: &mut Vec<Index>,
    kind: &'a Ty,
    slot: &Slot,
) -> Result<&'a Ty, StaticFault>
    ensures { IsLeft (with_slot (left_of kind.now bound.old.items) slot.now) bound.new.items result }
{
    match slot {
        Slot::Index(name) => index_name(alloc, bound, kind, name),
        Slot::Fixed { at, .. } => Err(fault(StaticKind::Kind, *at)),
    }
}

/// The left side of a definition; answers the kind of what it defines.
pub fn left<'a>(
    alloc: Global,
    bound: &mut Vec<Index>,
    kind: &'a Ty,
    slots: &[Slot],
) -> Result<&'a Ty, StaticFault>
    ensures { IsLeft (fold with_slot (left_of kind.now bound.old.items) slots.now) bound.new.items result }
{
    let mut rest = kind;
    for slot in slots {
        rest = level(alloc, bound, rest, slot)?;
    }
    Ok(rest)
}

/// One expression that is given to a kind.
fn given_alone(scope: &Scope<'_>, kind: &Ty, expr: &Expr) -> Result<(), StaticFault>
    ensures { let j = judged expr.now (context scope.now) in IsJudged (j.faults ++ j.fits (kind_of kind.now)) result }
{
    let given = judge(scope, expr)?;
    fit(&given, kind)
}

/// Two expressions that are given to a kind.
fn given_both(scope: &Scope<'_>, kind: &Ty, first: &Expr, next: &Expr) -> Result<(), StaticFault>
    ensures { let j = judged first.now (context scope.now) in let k = judged next.now (context scope.now) in IsJudged ((j.faults ++ k.faults) ++ (j.fits (kind_of kind.now) ++ k.fits (kind_of kind.now))) result }
{
    let first = judge(scope, first)?;
    let next = judge(scope, next)?;
    fit(&first, kind)?;
    fit(&next, kind)
}

/// What is given to the left side: each expression, and then whether it fits.
fn given(scope: &Scope<'_>, kind: &Ty, part: &Part) -> Result<(), StaticFault>
    ensures { IsJudged (part_faults (context scope.now) (kind_of kind.now) part.now) result }
{
    match part {
        Part::Value(expr) | Part::First(expr) | Part::Next(expr) => given_alone(scope, kind, expr),
        Part::Both(first, next) => given_both(scope, kind, first, next),
    }
}

/// Where an expression of a definition, a constraint or an obligation stands.
pub fn asking<'a>(alloc: Global, names: &'a Things, bound: &'a [Index]) -> Scope<'a>
    ensures { context result ≡ asking_context (names_of names.now) (index_names bound.now) }
{
    Scope {
        alloc,
        names,
        bound: Bounds::Indices(bound),
        needs_constant: false,
    }
}

/// A definition. One that comes twice is refused whatever its name stands for.
fn definition<'a>(
    alloc: Global,
    names: &'a Things,
    defined: &mut Defined<'a>,
    def: &'a Def,
) -> Result<(), StaticFault>
    ensures { IsDefinition (names_of names.now) defined.old defined.new def.now result }
{
    defined.add(def)?;
    let kind = defined_kind(names, def)?;
    let indices = def.indices.as_slice();
    let mut bound = Vec::new(alloc);
    let rest = left(alloc, &mut bound, kind, indices)?;
    let scope = asking(alloc, names, bound.as_slice());
    given(&scope, rest, &def.part)
}

/// Definitions one after the other.
fn define_each<'a>(
    alloc: Global,
    names: &'a Things,
    defined: &mut Defined<'a>,
    defs: &'a [Def],
) -> Result<(), StaticFault>
    ensures { AreDefinitions (names_of names.now) defined.old defined.new defs.now result }
{
    for def in defs {
        definition(alloc, names, defined, def)?;
    }
    Ok(())
}

/// A constraint or an obligation.
fn demand(alloc: Global, names: &Things, expr: &Expr) -> Result<(), StaticFault>
    ensures { IsJudged (demand_faults (names_of names.now) expr.now) result }
{
    let given = judge(&asking(alloc, names, &[]), expr)?;
    truth(&given)
}

/// Constraints or obligations one after the other.
fn demand_each(alloc: Global, names: &Things, exprs: &[Expr]) -> Result<(), StaticFault>
    ensures { IsJudged (flat_map (demand_faults (names_of names.now)) exprs.now) result }
{
    for expr in exprs {
        demand(alloc, names, expr)?;
    }
    Ok(())
}

/// A section in the second pass.
fn ask<'a>(
    alloc: Global,
    names: &'a Things,
    defined: &mut Defined<'a>,
    section: &'a Section,
) -> Result<(), StaticFault>
    ensures { AreAsked (names_of names.now) defined.old defined.new (asked_in section.now) result }
{
    match section {
        Section::Definitions(defs) => define_each(alloc, names, defined, defs.as_slice()),
        Section::Constraints(exprs) | Section::Obligations(exprs) => {
            demand_each(alloc, names, exprs.as_slice())
        }
        Section::Constants(_) | Section::Types(_) | Section::Inputs(_) | Section::Declarations(_) =>
            Ok(()),
    }
}

/// The second pass over a text.
pub fn define<'a>(
    alloc: Global,
    names: &'a Things,
    model: &'a HllModel,
) -> Result<Defined<'a>, StaticFault>
    ensures { IsAsked (names_of names.now) model.now result }
{
    let mut defined = Defined::new(alloc);
    for section in model.sections.as_slice() {
        ask(alloc, names, &mut defined, section)?;
    }
    Ok(defined)
}

/// One variable of the third pass: it has a value, or a first one and one for the next instant.
fn complete(defined: &Defined<'_>, name: &Name) -> Result<(), StaticFault>
    ensures { (defs : List Def) → Keeps defined.now defs → IsJudged (variable_faults defs name.now) result }
{
    let parts = defined.parts(name.text.bytes());
    if parts.whole {
        return Ok(());
    }
    match parts.next {
        None => Err(fault(StaticKind::Undefined, name.at)),
        Some(at) => refuse_if(!parts.first, StaticKind::FirstMissing, at),
    }
}

/// Variables of one declaration.
fn complete_each(defined: &Defined<'_>, declarators: &[Declarator]) -> Result<(), StaticFault>
    ensures { (defs : List Def) → Keeps defined.now defs → IsJudged (declarator_faults defs declarators.now) result }
{
    for declarator in declarators {
        complete(defined, &declarator.name)?;
    }
    Ok(())
}

/// Variables of declarations.
fn complete_declared(defined: &Defined<'_>, decls: &[Decl]) -> Result<(), StaticFault>
    ensures { (defs : List Def) → Keeps defined.now defs → IsJudged (flat_map (λ decl. declarator_faults defs decl.names) decls.now) result }
{
    for decl in decls {
        complete_each(defined, decl.names.as_slice())?;
    }
    Ok(())
}

/// A section in the third pass.
fn complete_section(defined: &Defined<'_>, section: &Section) -> Result<(), StaticFault>
    ensures { (defs : List Def) → Keeps defined.now defs → IsJudged (flat_map (variable_faults defs) (declared_in section.now)) result }
{
    match section {
        Section::Declarations(decls) => complete_declared(defined, decls.as_slice()),
        Section::Constants(_)
        | Section::Types(_)
        | Section::Inputs(_)
        | Section::Definitions(_)
        | Section::Constraints(_)
        | Section::Obligations(_) => Ok(()),
    }
}

/// The third pass over a text.
pub fn complete_all(defined: &Defined<'_>, model: &HllModel) -> Result<(), StaticFault>
    ensures { (defs : List Def) → Keeps defined.now defs → IsJudged (flat_map (variable_faults defs) (flat_map declared_in model.now.sections)) result }
{
    for section in model.sections.as_slice() {
        complete_section(defined, section)?;
    }
    Ok(())
}
