//! The text of a trace is read, line by line.

ghost use Rattle.std.specs.Prelude.{◌≡◌, ◌+◌, ◌≤◌, ◌<◌, ◌++◌, codes, decimal, length, map, MatchOption, MatchResult};
ghost use Rattle.hll_meaning.specs.Cells.{input_cells, text_cells};
ghost use Rattle.hll_meaning.specs.Declarations.{names};
ghost use Rattle.hll_meaning.specs.StaticRules.{Well};
ghost use Rattle.trace_text.specs.Faults.{IsFaultOf, Never};
ghost use Rattle.hll_types.specs.Measures.{capped};
ghost use Rattle.cell_columns.specs.Columns.{cell_of};
ghost use Rattle.trace_text.specs.Parts.{fault_in, AreRead, AreUnread, IsLine, IsRead, IsUnreadCell, IsUnreadLine};
ghost use Rattle.trace_text.specs.Traces.{rows_of, Spells};

use crate::columns::columns;
use crate::fault::{TraceFault, TraceKind, Unread};
use crate::size::{all_cells, has_room};
use crate::trace::Trace;
use crate::values::value_at;
use crate::words::{after, after_between};
use cell_columns::Column;
use hll_types::Checked;
use itoa::Buffer;
use std::alloc::Global;

/// What follows the number of an instant and a colon.
fn after_instant(text: &[u8], instant: u64) -> Option<&[u8]>
    ensures { MatchOption result (Never (λ more. text.now ≡ decimal instant ++ codes ":" ++ more))
        (λ rest. text.now ≡ decimal instant ++ codes ":" ++ rest.now) }
{
    let mut buffer = Buffer::new();
    let rest = after(text, buffer.format(instant).as_bytes())?;
    after(rest, b":")
}

/// A cell with its value.
fn cell_at<'a>(
    checked: &Checked,
    column: &Column,
    text: &'a [u8],
) -> Result<(i128, &'a [u8]), Unread>
    requires { Well checked.now }
    ensures { MatchResult result (λ r. IsRead (names checked.now) (cell_of column.now) text.now r.0 r.1.now)
        (IsUnreadCell (names checked.now) (cell_of column.now) text.now) }
{
    let Some(rest) = after_between(text, b" ", column.name.bytes(), b"=") else {
        return Err(Unread::Wrong(TraceKind::Cell));
    };
    match value_at(checked, &column.values, rest) {
        Some(read) => Ok(read),
        None => Err(Unread::Wrong(TraceKind::Value)),
    }
}

/// All cells with their values.
fn cells_at<'a>(
    alloc: Global,
    checked: &Checked,
    columns: &[Column],
    text: &'a [u8],
) -> Result<(Vec<i128>, &'a [u8]), Unread>
    requires { Well checked.now }
    ensures { MatchResult result (λ r. AreRead (names checked.now) (map cell_of columns.now) text.now r.0.items r.1.now)
        (AreUnread (names checked.now) (map cell_of columns.now) text.now) }
{
    let mut values = Vec::new(alloc);
    let mut rest = text;
    for column in columns {
        let (value, further) = cell_at(checked, column, rest)?;
        values.push(value)?;
        rest = further;
    }
    Ok((values, rest))
}

/// The line of an instant, in a text whose variables have so many cells.
fn line_at<'a>(
    alloc: Global,
    checked: &Checked,
    columns: &[Column],
    cells: u64,
    instant: u64,
    text: &'a [u8],
) -> Result<(Vec<i128>, &'a [u8]), Unread>
    requires well { Well checked.now }
    requires columns { map cell_of columns.now ≡ input_cells checked.now }
    requires cells { cells ≡ capped (length (text_cells checked.now)) }
    ensures { MatchResult result (λ r. IsLine checked.now instant text.now r.0.items r.1.now) (IsUnreadLine checked.now instant text.now) }
{
    if !has_room(cells, instant) {
        return Err(Unread::Wrong(TraceKind::Long));
    }
    let Some(rest) = after_instant(text, instant) else {
        return Err(Unread::Wrong(TraceKind::Instant));
    };
    let (values, rest) = cells_at(alloc, checked, columns, rest)?;
    match after(rest, b"\n") {
        Some(rest) => Ok((values, rest)),
        None => Err(Unread::Wrong(TraceKind::Ending)),
    }
}

/// The fault of the line of an instant.
fn fault_in(instant: usize, unread: Unread) -> TraceFault
    requires { instant < 65537 }
    ensures { result ≡ fault_in instant unread }
{
    match unread {
        Unread::Wrong(kind) => TraceFault::Fault {
            line: instant as u64 + 1,
            kind,
        },
        Unread::Memory => TraceFault::Memory,
    }
}

/// The trace that a text spells.
pub fn read_trace(alloc: Global, checked: &Checked, text: &[u8]) -> Result<Trace, TraceFault>
    ensures { MatchResult result (λ trace. Spells checked.now text.now (rows_of trace)) (IsFaultOf checked.now text.now) }
{
    // A text that is checked is without faults.
    let _ = checked.model();
    let columns = columns(alloc, checked)?;
    let cells = all_cells(checked);
    let mut rows = Vec::new(alloc);
    let mut rest = text;
    while !rest.is_empty() {
        let line = line_at(
            alloc,
            checked,
            columns.as_slice(),
            cells,
            rows.len() as u64,
            rest,
        );
        match line {
            Ok((row, further)) => {
                rows.push(row)?;
                rest = further;
            }
            Err(unread) => return Err(fault_in(rows.len(), unread)),
        }
    }
    Ok(Trace { rows })
}
