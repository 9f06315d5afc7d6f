//! The text of a trace is written.

ghost use Rattle.std.specs.Prelude.{◌≡◌, ◌++◌, codes, map, IfOk, OnOk};
ghost use Rattle.std.specs.List.{AllByRecursion};
ghost use Rattle.hll_meaning.specs.Cells.{text_cells};
ghost use Rattle.hll_meaning.specs.Declarations.{names};
ghost use Rattle.hll_meaning.specs.StaticRules.{Well};
ghost use Rattle.cell_columns.specs.Columns.{cell_of};
ghost use Rattle.trace_text.specs.Traces.{cells_text, line_text, lines_text, numbers_of, rows_of, trace_text, AreValues, IsTrace};

use crate::columns::{columns, text_columns};
use crate::spelling::push_number;
use crate::trace::Trace;
use crate::values::push_value;
use cell_columns::Column;
use hll_types::Checked;
use std::alloc::{AllocError, Global};

/// Appends cells with their values.
fn push_cells(
    out: &mut Vec<u8>,
    checked: &Checked,
    columns: &[Column],
    values: &[i128],
) -> Result<(), AllocError>
    requires well { Well checked.now }
    requires values { AreValues (map cell_of columns.now) values.now }
    ensures { OnOk result (out.new.items ≡ out.old.items ++ cells_text (names checked.now) (map cell_of columns.now) values.now) }
{
    for (column, value) in columns.iter().zip(values) {
        out.extend_from_slice(b" ")?;
        out.extend_from_slice(column.name.bytes())?;
        out.extend_from_slice(b"=")?;
        push_value(out, checked, &column.values, *value)?;
    }
    Ok(())
}

/// Appends the line of an instant.
fn push_line(
    out: &mut Vec<u8>,
    checked: &Checked,
    columns: &[Column],
    instant: u64,
    values: &[i128],
) -> Result<(), AllocError>
    requires well { Well checked.now }
    requires values { AreValues (map cell_of columns.now) values.now }
    ensures { OnOk result (out.new.items ≡ out.old.items ++ line_text (names checked.now) (map cell_of columns.now) instant values.now) }
{
    push_number(out, instant)?;
    out.extend_from_slice(b":")?;
    push_cells(out, checked, columns, values)?;
    out.extend_from_slice(b"\n")
}

/// The lines of instants, from the first one on.
fn lines(
    alloc: Global,
    checked: &Checked,
    columns: &[Column],
    rows: &[Vec<i128>],
) -> Result<Vec<u8>, AllocError>
    requires well { Well checked.now }
    requires values { AllByRecursion (AreValues (map cell_of columns.now)) (numbers_of rows.now) }
    ensures { IfOk result (λ bytes. bytes.items ≡ lines_text (names checked.now) (map cell_of columns.now) 0 (numbers_of rows.now)) }
{
    let mut out = Vec::new(alloc);
    for (instant, row) in rows.iter().enumerate() {
        push_line(&mut out, checked, columns, instant as u64, row.as_slice())?;
    }
    Ok(out)
}

/// The text of a trace.
pub fn write_trace(alloc: Global, checked: &Checked, trace: &Trace) -> Result<Vec<u8>, AllocError>
    requires { IsTrace checked.now (rows_of trace.now) }
    ensures { IfOk result (λ bytes. bytes.items ≡ trace_text checked.now (rows_of trace.now)) }
{
    // A text that is checked is without faults.
    let _ = checked.model();
    let columns = columns(alloc, checked)?;
    lines(alloc, checked, columns.as_slice(), trace.rows.as_slice())
}

/// A line for each instant with the values of all cells of the text, from rows with one value for each cell.
pub fn write_rows(
    alloc: Global,
    checked: &Checked,
    rows: &[Vec<i128>],
) -> Result<Vec<u8>, AllocError>
    requires { AllByRecursion (AreValues (text_cells checked.now)) (numbers_of rows.now) }
    ensures { IfOk result (λ bytes. bytes.items ≡ lines_text (names checked.now) (text_cells checked.now) 0 (numbers_of rows.now)) }
{
    // A text that is checked is without faults.
    let _ = checked.model();
    let columns = text_columns(alloc, checked)?;
    lines(alloc, checked, columns.as_slice(), rows)
}
