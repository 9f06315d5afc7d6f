//! The lines of the text.

ghost use Rattle.std.specs.Prelude.{◌≡◌, ◌++◌, ◌*◌, ◌+◌, ◌<◌, map, length, codes, decimal, OnOk};
ghost use Rattle.std.specs.Fmt.{signed_decimal};
ghost use Rattle.std.specs.List.{flat_map};
ghost use Rattle.lll_text.specs.Spelling.{line, number_field, spelling};
ghost use Rattle.evidence.specs.Spelling.{number_line, literal_field, literals, step_line, bit, bits_line, equal_line, formula_field, place_field, verdict_field, entry_line, numbers_text};

use crate::Evidence;
use itoa::Buffer;
use kinduction::{Equal, Found, Spot};
use lll_core::Lll;
use lll_text::write_lll;
use rup_checker::Step;
use std::alloc::{AllocError, Global};

fn put_number_field(out: &mut Vec<u8>, n: usize) -> Result<(), AllocError>
    ensures { OnOk result (out.new.items ≡ out.old.items ++ number_field n) }
{
    let mut buffer = Buffer::new();
    out.extend_from_slice(b" ")?;
    out.extend_from_slice(buffer.format(n).as_bytes())
}

/// A line of a word and a number.
pub(crate) fn put_number_line(out: &mut Vec<u8>, word: &[u8], n: usize) -> Result<(), AllocError>
    ensures { OnOk result (out.new.items ≡ out.old.items ++ number_line word.now n) }
{
    out.extend_from_slice(word)?;
    put_number_field(out, n)?;
    out.extend_from_slice(b"\n")
}

fn put_literal(out: &mut Vec<u8>, literal: i32) -> Result<(), AllocError>
    ensures { OnOk result (out.new.items ≡ out.old.items ++ signed_decimal literal) }
{
    let mut buffer = Buffer::new();
    out.extend_from_slice(buffer.format(literal).as_bytes())
}

fn put_literal_fields(out: &mut Vec<u8>, literals: &[i32]) -> Result<(), AllocError>
    ensures { OnOk result (out.new.items ≡ out.old.items ++ flat_map literal_field literals.now) }
{
    for literal in literals {
        out.extend_from_slice(b" ")?;
        put_literal(out, *literal)?;
    }
    Ok(())
}

/// Literals, parted by spaces.
fn put_literals(out: &mut Vec<u8>, clause: &[i32]) -> Result<(), AllocError>
    ensures { OnOk result (out.new.items ≡ out.old.items ++ literals clause.now) }
{
    if clause.is_empty() {
        return Ok(());
    }
    put_literal(out, clause[0])?;
    put_literal_fields(out, &clause[1..])
}

fn put_hints(out: &mut Vec<u8>, hints: &[u32]) -> Result<(), AllocError>
    ensures { OnOk result (out.new.items ≡ out.old.items ++ flat_map number_field hints.now) }
{
    for hint in hints {
        put_number_field(out, *hint as usize)?;
    }
    Ok(())
}

/// The line of a step.
pub(crate) fn put_step(out: &mut Vec<u8>, step: &Step) -> Result<(), AllocError>
    ensures { OnOk result (out.new.items ≡ out.old.items ++ step_line step.now) }
{
    put_literals(out, step.clause.as_slice())?;
    out.extend_from_slice(b":")?;
    put_hints(out, step.hints.as_slice())?;
    out.extend_from_slice(b"\n")
}

fn put_bits(out: &mut Vec<u8>, values: &[bool]) -> Result<(), AllocError>
    ensures { OnOk result (out.new.items ≡ out.old.items ++ map bit values.now) }
{
    for value in values {
        out.push(if *value { b'1' } else { b'0' })?;
    }
    Ok(())
}

/// A line of truth values.
pub(crate) fn put_bits_line(
    out: &mut Vec<u8>,
    word: &[u8],
    values: &[bool],
) -> Result<(), AllocError>
    ensures { OnOk result (out.new.items ≡ out.old.items ++ bits_line word.now values.now) }
{
    out.extend_from_slice(word)?;
    put_bits(out, values)?;
    out.extend_from_slice(b"\n")
}

fn put_formula_field(out: &mut Vec<u8>, stepping: bool) -> Result<(), AllocError>
    ensures { OnOk result (out.new.items ≡ out.old.items ++ formula_field stepping) }
{
    out.extend_from_slice(if stepping { b" step" } else { b" base" })
}

/// The line of the parts.
pub(crate) fn put_equal_line(
    out: &mut Vec<u8>,
    parts: usize,
    equal: &Equal,
) -> Result<(), AllocError>
    ensures { OnOk result (out.new.items ≡ out.old.items ++ equal_line parts equal.now) }
{
    match equal {
        Equal::Shown { .. } => put_number_line(out, b"equal shown", parts),
        Equal::Conflicts { part, stepping, .. } => {
            out.extend_from_slice(b"equal conflicts")?;
            put_number_field(out, *part as usize + 1)?;
            put_formula_field(out, *stepping)?;
            out.extend_from_slice(b"\n")
        }
    }
}

fn put_place_field(out: &mut Vec<u8>, place: Spot) -> Result<(), AllocError>
    ensures { OnOk result (out.new.items ≡ out.old.items ++ place_field place) }
{
    match place {
        Spot::Base(instant) => {
            out.extend_from_slice(b" base")?;
            put_number_field(out, instant as usize)
        }
        Spot::Step(round) => {
            out.extend_from_slice(b" step")?;
            put_number_field(out, round as usize)
        }
    }
}

fn put_verdict_field(out: &mut Vec<u8>, entry: &Found) -> Result<(), AllocError>
    ensures { OnOk result (out.new.items ≡ out.old.items ++ verdict_field entry.now) }
{
    match entry {
        Found::Proved { k, .. } => {
            out.extend_from_slice(b" proved")?;
            put_number_field(out, *k as usize)
        }
        Found::Falsified { bits, .. } => {
            out.extend_from_slice(b" falsified")?;
            put_number_field(out, bits.len())
        }
        Found::Depth { .. } => out.extend_from_slice(b" depth"),
        Found::Conflicts { place, .. } => {
            out.extend_from_slice(b" conflicts")?;
            put_place_field(out, *place)
        }
    }
}

/// The line of an entry.
pub(crate) fn put_entry_line(
    out: &mut Vec<u8>,
    number: usize,
    entry: &Found,
) -> Result<(), AllocError>
    ensures { OnOk result (out.new.items ≡ out.old.items ++ entry_line number entry.now) }
{
    out.extend_from_slice(b"entry")?;
    put_number_field(out, number)?;
    put_verdict_field(out, entry)?;
    out.extend_from_slice(b"\n")
}

/// The first lines, up to the first model.
pub(crate) fn put_numbers(out: &mut Vec<u8>, e: &Evidence) -> Result<(), AllocError>
    ensures { OnOk result (out.new.items ≡ out.old.items ++ numbers_text e.now) }
{
    out.extend_from_slice(b"hll-evidence 1\n")?;
    put_number_line(out, b"depth", e.depth as usize)?;
    put_number_line(out, b"conflicts", e.conflicts as usize)
}

/// A model, after a line of its own.
pub(crate) fn put_model(
    alloc: Global,
    out: &mut Vec<u8>,
    heading: &[u8],
    lll: &Lll,
) -> Result<(), AllocError>
    ensures { OnOk result (out.new.items ≡ out.old.items ++ (line heading.now ++ spelling lll.now)) }
{
    out.extend_from_slice(heading)?;
    out.extend_from_slice(b"\n")?;
    out.extend_from_slice(&write_lll(alloc, lll)?)
}
