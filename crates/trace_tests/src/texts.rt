//! What is read of the texts of traces.

ghost use Rattle.std.specs.Prelude.{IfOk};
ghost use Rattle.hll_meaning.specs.Texts.{HasText};

use hll_grammar::parse;
use hll_lexer::tokens;
use hll_tree::HllModel;
use hll_types::{Checked, check};
use std::alloc::Global;
use std::test::Fail;
use trace_text::{Trace, TraceFault, TraceKind, read_trace, write_trace};

/// The tree of a text.
fn model_of(alloc: Global, text: &[u8]) -> Result<HllModel, Fail>
    ensures { IfOk result HasText }
{
    let tokens = tokens(alloc, text)?;
    Ok(parse(alloc, text, &tokens)?)
}

/// A text without static faults.
pub fn checked(alloc: Global, text: &[u8]) -> Result<Checked, Fail> {
    Ok(check(alloc, model_of(alloc, text)?)?)
}

/// The trace of a text.
pub fn trace_of(alloc: Global, model: &[u8], text: &[u8]) -> Result<Trace, Fail> {
    let checked = checked(alloc, model)?;
    Ok(read_trace(alloc, &checked, text)?)
}

/// What is written of the trace of a text.
pub fn written_again(alloc: Global, model: &[u8], text: &[u8]) -> Result<Vec<u8>, Fail> {
    let checked = checked(alloc, model)?;
    let trace = read_trace(alloc, &checked, text)?;
    Ok(write_trace(alloc, &checked, &trace)?)
}

/// The first fault of the text of a trace, if it has one: the line and the kind.
pub fn first_fault(
    alloc: Global,
    model: &[u8],
    text: &[u8],
) -> Result<Option<(u64, TraceKind)>, Fail> {
    let checked = checked(alloc, model)?;
    match read_trace(alloc, &checked, text) {
        Ok(_) => Ok(None),
        Err(TraceFault::Fault { line, kind }) => Ok(Some((line, kind))),
        Err(TraceFault::Memory) => Err(Fail::new("out of memory")),
    }
}
