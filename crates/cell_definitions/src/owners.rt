//! The variable of each cell.

ghost use Rattle.std.specs.Prelude.{◌≡◌, ◌++◌, List, length, map, replicate, OnOk};
ghost use Rattle.hll_tree.specs.declared.tree.Def.{Def};
ghost use Rattle.hll_meaning.specs.Types.{kind_of};
ghost use Rattle.cell_columns.specs.Columns.{all_columns, cell_of};
ghost use Rattle.hll_meaning.specs.Kinds.{cells};
ghost use Rattle.cell_definitions.specs.Parts.{first_two, kept as kept_list, owned_at, owned_of};

use crate::definitions::{Definitions, Kept};
use cell_columns::{Column, push_columns};
use hll_meaning::Ty;
use hll_types::Variable;
use std::alloc::{AllocError, Global};

/// The variable of a cell.
#[derive(Clone, Copy)]
pub(crate) struct Owner<'a> {
    /// Its first cell, and how many it has.
    pub start: usize,
    pub count: usize,
    pub ty: &'a Ty,
    pub definitions: Definitions<'a>,
}

/// Appends a variable once for each of its cells.
fn push_copies<'a>(owners: &mut Vec<Owner<'a>>, owner: &Owner<'a>) -> Result<(), AllocError>
    ensures { OnOk result (owners.new.items ≡ owners.old.items ++ replicate owner.now.count owner.now) }
{
    for _copy in 0..owner.count {
        owners.push(*owner)?;
    }
    Ok(())
}

/// Appends the cells of a variable.
pub(crate) fn push_variable<'a>(
    alloc: Global,
    columns: &mut Vec<Column>,
    owners: &mut Vec<Owner<'a>>,
    variable: &'a Variable,
    kept: Kept<'a>,
) -> Result<(), AllocError>
    ensures columns { OnOk result (map cell_of columns.new.items ≡ map cell_of columns.old.items ++ all_columns variable.now) }
    ensures owners { (defs : List Def) → kept_list kept.entry ≡ first_two defs variable.now.name
        → OnOk result (map owned_of owners.new.items ≡ map owned_of owners.old.items
        ++ replicate (cells (kind_of variable.now.ty)) (owned_at defs (length columns.old.items) (variable.now.name, kind_of variable.now.ty))) }
{
    let start = columns.len();
    push_columns(alloc, columns, variable)?;
    let owner = Owner {
        start,
        count: columns.len() - start,
        ty: &variable.ty,
        definitions: kept.definitions(),
    };
    push_copies(owners, &owner)
}
