//! How long traces may be.

use crate::texts::{first_fault, trace_of, written_again};
use std::alloc::Global;
use std::test::Fail;
use trace_text::TraceKind;

/// A text without cells.
const NO_CELLS: &[u8] = b"Constants: int N := 1;";

/// A text without inputs, whose variable has 100,000 cells.
const MANY_CELLS: &[u8] = b"Declarations: bool x[100000]; Definitions: x[i] := true;";

/// The lines of so many instants without input cells, and these bytes behind them.
fn bare_lines(alloc: Global, instants: u64, behind: &[u8]) -> Result<Vec<u8>, Fail> {
    let mut lines = Vec::new(alloc);
    for instant in 0..instants {
        lines.extend_from_slice(format!(in alloc; "{instant}:\n")?.as_bytes())?;
    }
    lines.extend_from_slice(behind)?;
    Ok(lines)
}

#[test]
fn a_trace_has_at_most_65536_instants(rt: HostRuntime) -> Result<(), Fail> {
    let lines = bare_lines(rt.alloc(), 65_536, b"")?;
    let trace = trace_of(rt.alloc(), NO_CELLS, lines.as_slice())?;
    assert_eq!(rt; trace.rows.len(), 65_536);
    Ok(())
}

#[test]
fn a_trace_of_65536_instants_is_written(rt: HostRuntime) -> Result<(), Fail> {
    let lines = bare_lines(rt.alloc(), 65_536, b"")?;
    let written = written_again(rt.alloc(), NO_CELLS, lines.as_slice())?;
    assert!(rt; written.as_slice() == lines.as_slice());
    Ok(())
}

/// What stands in the line that is one too many.
const BEHIND: &[&[u8]] = &[b"65536:\n", b"x", b"\n"];

#[test]
fn a_further_line_is_too_long_whatever_stands_there(rt: HostRuntime) -> Result<(), Fail> {
    for behind in BEHIND {
        let lines = bare_lines(rt.alloc(), 65_536, behind)?;
        assert_eq!(rt;
            first_fault(rt.alloc(), NO_CELLS, lines.as_slice())?,
            Some((65_537, TraceKind::Long))
        );
    }
    Ok(())
}

#[test]
fn its_instants_have_at_most_four_million_values(rt: HostRuntime) -> Result<(), Fail> {
    let lines = bare_lines(rt.alloc(), 40, b"")?;
    assert_eq!(rt;
        first_fault(rt.alloc(), MANY_CELLS, lines.as_slice())?,
        None
    );
    let lines = bare_lines(rt.alloc(), 41, b"")?;
    assert_eq!(rt;
        first_fault(rt.alloc(), MANY_CELLS, lines.as_slice())?,
        Some((41, TraceKind::Long))
    );
    Ok(())
}
