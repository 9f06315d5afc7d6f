//! The text in order, as lines that are made and logs whose lines aren't yet.

ghost use Rattle.std.specs.Prelude.{◌≡◌, ◌++◌, length, codes, IfOk, OnOk};
ghost use Rattle.std.specs.List.{flat_map};
ghost use Rattle.lll_text.specs.Spelling.{line};
ghost use Rattle.evidence.specs.Spelling.{bits_line, logs_text, part_count, equal_text, proof_text, entry_text, entries_text, first_model_text, models_text, text};
ghost use Rattle.evidence.specs.Units.{unit_text};

use crate::Evidence;
use crate::lines::{put_bits_line, put_entry_line, put_equal_line, put_model, put_numbers};
use kinduction::{Equal, Found};
use lll_core::Lll;
use miter::size;
use rup_checker::Log;
use sqlite_items::Items;
use std::alloc::{AllocError, Global};

/// Some lines of the text.
#[derive(Drop)]
pub(crate) enum Unit<'a> {
    Text(Vec<u8>),
    /// A log, from its first line to its last step.
    Log(&'a Log),
}

fn push_logs<'a>(units: &mut Vec<Unit<'a>>, logs: &'a [Log]) -> Result<(), AllocError>
    ensures { OnOk result (flat_map unit_text units.new.items ≡ flat_map unit_text units.old.items ++ logs_text logs.now) }
{
    for log in logs {
        units.push(Unit::Log(log))?;
    }
    Ok(())
}

/// The rows of a trace.
fn push_rows<'a>(
    alloc: Global,
    units: &mut Vec<Unit<'a>>,
    rows: &[Items<bool>],
) -> Result<(), AllocError>
    ensures { OnOk result (flat_map unit_text units.new.items ≡ flat_map unit_text units.old.items ++ flat_map (bits_line (codes "bits:")) rows.now) }
{
    let mut text = Vec::new(alloc);
    for row in rows {
        put_bits_line(&mut text, b"bits:", row.as_slice())?;
    }
    units.push(Unit::Text(text))?;
    Ok(())
}

/// An assignment.
fn push_model<'a>(
    alloc: Global,
    units: &mut Vec<Unit<'a>>,
    values: &[bool],
) -> Result<(), AllocError>
    ensures { OnOk result (flat_map unit_text units.new.items ≡ flat_map unit_text units.old.items ++ bits_line (codes "model:") values.now) }
{
    let mut text = Vec::new(alloc);
    put_bits_line(&mut text, b"model:", values)?;
    units.push(Unit::Text(text))?;
    Ok(())
}

/// What shows an entry.
fn push_proof<'a>(
    alloc: Global,
    units: &mut Vec<Unit<'a>>,
    entry: &'a Found,
) -> Result<(), AllocError>
    ensures { OnOk result (flat_map unit_text units.new.items ≡ flat_map unit_text units.old.items ++ proof_text entry.now) }
{
    match entry {
        Found::Proved { bases, step, .. } => {
            push_logs(units, bases.as_slice())?;
            units.push(Unit::Log(step))?;
        }
        Found::Falsified { bits, bases } => {
            push_logs(units, bases.as_slice())?;
            push_rows(alloc, units, bits.as_slice())?;
        }
        Found::Depth { step_model, bases } => {
            push_logs(units, bases.as_slice())?;
            push_model(alloc, units, step_model.as_slice())?;
        }
        Found::Conflicts { log, bases, .. } => {
            push_logs(units, bases.as_slice())?;
            units.push(Unit::Log(log))?;
        }
    }
    Ok(())
}

/// What is shown of an obligation.
fn push_entry<'a>(
    alloc: Global,
    units: &mut Vec<Unit<'a>>,
    number: usize,
    entry: &'a Found,
) -> Result<(), AllocError>
    ensures { OnOk result (flat_map unit_text units.new.items ≡ flat_map unit_text units.old.items ++ entry_text number entry.now) }
{
    let mut text = Vec::new(alloc);
    put_entry_line(&mut text, number, entry)?;
    units.push(Unit::Text(text))?;
    push_proof(alloc, units, entry)
}

/// What is shown of the parts.
fn push_equal<'a>(
    alloc: Global,
    units: &mut Vec<Unit<'a>>,
    parts: usize,
    equal: &'a Equal,
) -> Result<(), AllocError>
    ensures { OnOk result (flat_map unit_text units.new.items ≡ flat_map unit_text units.old.items ++ equal_text parts equal.now) }
{
    let mut text = Vec::new(alloc);
    put_equal_line(&mut text, parts, equal)?;
    units.push(Unit::Text(text))?;
    match equal {
        Equal::Shown { logs } => push_logs(units, logs.as_slice())?,
        Equal::Conflicts { log, .. } => units.push(Unit::Log(log))?,
    }
    Ok(())
}

/// What is shown of obligations, which are numbered from 1 on.
fn push_entries<'a>(
    alloc: Global,
    units: &mut Vec<Unit<'a>>,
    entries: &'a [Found],
) -> Result<(), AllocError>
    ensures { OnOk result (flat_map unit_text units.new.items ≡ flat_map unit_text units.old.items ++ entries_text 1 entries.now) }
{
    for (index, entry) in entries.iter().enumerate() {
        push_entry(alloc, units, index + 1, entry)?;
    }
    Ok(())
}

/// How many parts the miter with a model has.
fn part_count_of(b: &Lll) -> usize
    ensures { result ≡ part_count b.now }
{
    (size(b) - b.signals.len() as u64) as usize + 3
}

/// The lines up to the last of the first model.
pub(crate) fn first_model(alloc: Global, e: &Evidence) -> Result<Vec<u8>, AllocError>
    ensures { IfOk result (λ text. text.items ≡ first_model_text e.now) }
{
    let mut text = Vec::new(alloc);
    put_numbers(&mut text, e)?;
    put_model(alloc, &mut text, b"text a", &e.a)?;
    Ok(text)
}

/// Appends the lines of the second model.
pub(crate) fn put_second_model(
    alloc: Global,
    text: &mut Vec<u8>,
    e: &Evidence,
) -> Result<(), AllocError>
    requires { text.old.items ≡ first_model_text e.now }
    ensures { OnOk result (text.new.items ≡ models_text e.now) }
{
    put_model(alloc, text, b"text b", &e.b)
}

/// The lines up to the last of the second model.
fn models(alloc: Global, e: &Evidence) -> Result<Vec<u8>, AllocError>
    ensures { IfOk result (λ text. text.items ≡ models_text e.now) }
{
    let mut text = first_model(alloc, e)?;
    put_second_model(alloc, &mut text, e)?;
    Ok(text)
}

/// The text of a value.
pub(crate) fn units_of<'a>(alloc: Global, e: &'a Evidence) -> Result<Vec<Unit<'a>>, AllocError>
    ensures { IfOk result (λ units. flat_map unit_text units.items ≡ text e.now) }
{
    let mut units = Vec::new(alloc);
    units.push(Unit::Text(models(alloc, e)?))?;
    push_equal(alloc, &mut units, part_count_of(&e.b), &e.equal)?;
    push_entries(alloc, &mut units, e.entries.as_slice())?;
    units.push(Unit::Text(Vec::from_slice(alloc, b"end\n")?))?;
    Ok(units)
}
