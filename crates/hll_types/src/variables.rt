//! The variables of a text in text order, with their places, types and roles.

ghost use Rattle.std.specs.Prelude.{◌≡◌, ◌+◌, ◌≤◌, ◌++◌, ◌∷◌, [], List, false, length, map, IfOk, OnOk};
ghost use Rattle.std.specs.List.{IsDistinct, flat_map};
ghost use Rattle.std.specs.Str.{bytes_eq};
ghost use Rattle.hll_tree.specs.declared.tree.Def.{Def};
ghost use Rattle.hll_meaning.specs.Declarations.{is_among};
ghost use Rattle.hll_meaning.specs.Runs.{variable_kind, variables_among};
ghost use Rattle.hll_meaning.specs.StaticRules.{definitions_of};
ghost use Rattle.hll_expressions.specs.Things.{declared_names, said_of};
ghost use Rattle.hll_types.specs.Checked.{role_by, variable_names, variables_in};
ghost use Rattle.hll_types.specs.Defining.{Keeps};
ghost use Rattle.hll_types.specs.Tables.{AreAmong, IsTaken};

use crate::define::Defined;
use hll_expressions::{Thing, Things};
use hll_lexer::Word;
use hll_meaning::Ty;
use hll_tree::{Decl, Declarator, HllModel, Section};
use indexmap::IndexSet;
use std::alloc::{AllocError, Global};

/// What a variable is to its text.
#[derive(Clone, Copy, Debug, PartialEq, Eq)]
pub enum Role {
    Input,
    /// Some definition gives its value at every instant.
    Value,
    /// Some definition gives its first value or the next one.
    Memory,
}

/// A variable of a text.
#[derive(Drop)]
pub struct Variable {
    pub name: Word,
    /// The byte offset of its name where it is declared.
    pub at: u64,
    pub ty: Ty,
    pub role: Role,
}

/// Appends the places of the names of one declaration.
fn push_places(places: &mut Vec<u64>, declarators: &[Declarator]) -> Result<(), AllocError>
    ensures { OnOk result (places.new.items ≡ places.old.items ++ map (λ d. d.name.at) declarators.now) }
{
    for declarator in declarators {
        places.push(declarator.name.at)?;
    }
    Ok(())
}

/// Appends the places of the names of declarations.
fn push_declared(places: &mut Vec<u64>, decls: &[Decl]) -> Result<(), AllocError>
    ensures { OnOk result (places.new.items ≡ places.old.items ++ flat_map (λ decl. map (λ d. d.name.at) decl.names) decls.now) }
{
    for decl in decls {
        push_places(places, decl.names.as_slice())?;
    }
    Ok(())
}

/// Appends the places of the variables of a section.
fn push_section(places: &mut Vec<u64>, section: &Section) -> Result<(), AllocError>
    ensures { OnOk result (places.new.items ≡ places.old.items ++ map (λ n. n.at) (variables_in section.now)) }
{
    match section {
        Section::Inputs(decls) | Section::Declarations(decls) => {
            push_declared(places, decls.as_slice())
        }
        Section::Constants(_)
        | Section::Types(_)
        | Section::Definitions(_)
        | Section::Constraints(_)
        | Section::Obligations(_) => Ok(()),
    }
}

/// The places of all variables, in text order.
pub fn places(alloc: Global, model: &HllModel) -> Result<Vec<u64>, AllocError>
    ensures { IfOk result (λ places. places.items ≡ map (λ n. n.at) (variable_names model.now)) }
{
    let mut places = Vec::new(alloc);
    for section in model.sections.as_slice() {
        push_section(&mut places, section)?;
    }
    Ok(places)
}

/// The role of a variable, which is an input or not.
fn role_of(defined: &Defined<'_>, input: bool, name: &[u8]) -> Role
    ensures { (defs : List Def) → Keeps defined.now defs → result ≡ role_by (definitions_of defs name.now) input }
{
    if input {
        Role::Input
    } else if defined.parts(name).memory {
        Role::Memory
    } else {
        Role::Value
    }
}

/// Takes in a name behind other variables, if it is that of a variable. Its place is the next one.
fn take_in(
    alloc: Global,
    defined: &Defined<'_>,
    places: &[u64],
    all: &mut Vec<Variable>,
    name: &[u8],
    thing: &Thing,
) -> Result<(), AllocError>
    requires { length all.old.items + length (variable_kind (said_of thing.now)) ≤ length places.now }
    ensures { OnOk result (IsTaken places.now defined.now all.old.items all.new.items name.now (said_of thing.now)) }
{
    match thing {
        Thing::Variable { input, ty } => {
            let variable = Variable {
                name: Word::new(alloc, name)?,
                at: places[all.len()],
                ty: ty.copy(alloc)?,
                role: role_of(defined, *input, name),
            };
            all.push(variable)?;
            Ok(())
        }
        Thing::Truth(_) | Thing::Number(_) | Thing::Type(_) | Thing::Element { .. } => Ok(()),
    }
}

/// The variables among names, which have these places.
pub fn variables(
    alloc: Global,
    names: &Things,
    defined: &Defined<'_>,
    places: &[u64],
) -> Result<Vec<Variable>, AllocError>
    requires { length places.now ≡ length (variables_among (declared_names names.now)) }
    ensures { IfOk result (λ vs. AreAmong (declared_names names.now) places.now defined.now vs.items) }
{
    let mut all = Vec::new(alloc);
    for (name, thing) in names.iter() {
        take_in(alloc, defined, places, &mut all, name.as_slice(), thing)?;
    }
    Ok(all)
}

/// Notes a name: one that is new goes last.
fn note(alloc: Global, names: &mut IndexSet<Vec<u8>>, name: &[u8]) -> Result<(), AllocError>
    ensures { OnOk result (is_among (map (λ k. k.items) names.old.keys) name.now ≡ false → map (λ k. k.items) names.new.keys ≡ map (λ k. k.items) names.old.keys ++ name.now ∷ []) }
{
    let name = Vec::from_slice(alloc, name)?;
    match names.insert(name) {
        Ok(_) => Ok(()),
        Err(_) => Err(AllocError),
    }
}

/// The names of variables by hash, in their order.
pub fn positions(alloc: Global, variables: &[Variable]) -> Result<IndexSet<Vec<u8>>, AllocError>
    requires { IsDistinct bytes_eq (map (λ v. v.name) variables.now) }
    ensures { IfOk result (λ names. map (λ k. k.items) names.keys ≡ map (λ v. v.name) variables.now) }
{
    let mut names = IndexSet::new(alloc);
    for variable in variables {
        note(alloc, &mut names, variable.name.bytes())?;
    }
    Ok(names)
}
