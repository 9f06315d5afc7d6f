//! The definitions of each variable of a text.

ghost use Rattle.std.specs.Prelude.{◌≡◌, ◌++◌, ◌∷◌, [], List, length, map, IfOk, replicate};
ghost use Rattle.hll_tree.specs.declared.tree.Def.{Def};
ghost use Rattle.hll_meaning.specs.Runs.{definitions, definitions_in, variables};
ghost use Rattle.hll_meaning.specs.StaticRules.{Well};
ghost use Rattle.cell_definitions.specs.Parts.{Gathers, kept};

use crate::definitions::Kept;
use hll_tree::{Def, Section};
use hll_types::Checked;
use std::alloc::{AllocError, Global};

/// No definitions of so many variables.
fn nothing<'a>(alloc: Global, count: usize) -> Result<Vec<Kept<'a>>, AllocError>
    ensures { IfOk result (λ own. map kept own.items ≡ replicate count []) }
{
    let mut own = Vec::new(alloc);
    for _variable in 0..count {
        own.push(Kept::none())?;
    }
    Ok(own)
}

/// Adds a definition to those of its variable.
fn add<'a>(checked: &Checked, own: &mut [Kept<'a>], def: &'a Def)
    requires well { Well checked.now }
    requires each { length own.old ≡ length (variables checked.now) }
    ensures { (defs : List Def) → Gathers checked.now defs own.old → Gathers checked.now (defs ++ def.now ∷ []) own.new }
{
    if let Some(index) = checked.variable_of(def.name.text.bytes()) {
        own[index] = own[index].with(def);
    }
}

/// Adds definitions one after the other.
fn add_all<'a>(checked: &Checked, own: &mut [Kept<'a>], defs: &'a [Def])
    requires well { Well checked.now }
    requires each { length own.old ≡ length (variables checked.now) }
    ensures { (before : List Def) → Gathers checked.now before own.old → Gathers checked.now (before ++ defs.now) own.new }
{
    for def in defs {
        add(checked, own, def);
    }
}

/// Adds the definitions of a section.
fn add_section<'a>(checked: &Checked, own: &mut [Kept<'a>], section: &'a Section)
    requires well { Well checked.now }
    requires each { length own.old ≡ length (variables checked.now) }
    ensures { (before : List Def) → Gathers checked.now before own.old → Gathers checked.now (before ++ definitions_in section.now) own.new }
{
    match section {
        Section::Definitions(defs) => add_all(checked, own, defs.as_slice()),
        Section::Constants(_)
        | Section::Types(_)
        | Section::Inputs(_)
        | Section::Declarations(_)
        | Section::Constraints(_)
        | Section::Obligations(_) => {}
    }
}

/// The first two definitions of each variable, in the order of the variables.
pub(crate) fn gather<'a>(alloc: Global, checked: &'a Checked) -> Result<Vec<Kept<'a>>, AllocError>
    ensures gathers { IfOk result (λ own. Gathers checked.now (definitions checked.now) own.items) }
    ensures well { Well checked.now }
{
    let model = checked.model();
    let mut own = nothing(alloc, checked.variables().len())?;
    for section in model.sections.as_slice() {
        add_section(checked, own.as_mut_slice(), section);
    }
    Ok(own)
}
