//! The cells of a text, in their order: what they are called, and which values they have.

ghost use Rattle.std.specs.Prelude.{◌≡◌, ◌++◌, map, IfOk, OnOk};
ghost use Rattle.hll_meaning.specs.Cells.{input_cells, text_cells};
ghost use Rattle.cell_columns.specs.Columns.{cell_of};
ghost use Rattle.trace_text.specs.Parts.{own_cells};

use cell_columns::{Column, push_columns};
use hll_types::{Checked, Role, Variable};
use std::alloc::{AllocError, Global};

/// Appends the cells of a variable, if it is an input.
fn push_variable(
    alloc: Global,
    columns: &mut Vec<Column>,
    variable: &Variable,
) -> Result<(), AllocError>
    ensures { OnOk result (map cell_of columns.new.items ≡ map cell_of columns.old.items ++ own_cells variable.now) }
{
    match variable.role {
        Role::Input => push_columns(alloc, columns, variable),
        Role::Value | Role::Memory => Ok(()),
    }
}

/// The cells of all inputs of a text.
pub(crate) fn columns(alloc: Global, checked: &Checked) -> Result<Vec<Column>, AllocError>
    ensures { IfOk result (λ columns. map cell_of columns.items ≡ input_cells checked.now) }
{
    let variables = checked.variables();
    let mut columns = Vec::new(alloc);
    for variable in variables {
        push_variable(alloc, &mut columns, variable)?;
    }
    Ok(columns)
}

/// The cells of all variables of a text.
pub(crate) fn text_columns(alloc: Global, checked: &Checked) -> Result<Vec<Column>, AllocError>
    ensures { IfOk result (λ columns. map cell_of columns.items ≡ text_cells checked.now) }
{
    let variables = checked.variables();
    let mut columns = Vec::new(alloc);
    for variable in variables {
        push_columns(alloc, &mut columns, variable)?;
    }
    Ok(columns)
}
