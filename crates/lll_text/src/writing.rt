//! The one spelling of a value.

ghost use Rattle.std.specs.Prelude.{◌≡◌, ◌++◌, ◌∷◌, [], codes, decimal, OnOk, IfOk};
ghost use Rattle.std.specs.List.{flat_map};
ghost use Rattle.lll_text.specs.Spelling.{line, number_field, name_field, form, signal_lines, literal_line, name_line, list_lines, spelling};

use hll_lexer::Word;
use itoa::Buffer;
use lll_core::{Lll, Named, Signal};
use std::alloc::{AllocError, Global};

fn put_number(out: &mut Vec<u8>, n: usize) -> Result<(), AllocError>
    ensures { OnOk result (out.new.items ≡ out.old.items ++ decimal n) }
{
    let mut buffer = Buffer::new();
    out.extend_from_slice(buffer.format(n).as_bytes())
}

fn put_number_field(out: &mut Vec<u8>, n: u32) -> Result<(), AllocError>
    ensures { OnOk result (out.new.items ≡ out.old.items ++ number_field n) }
{
    out.extend_from_slice(b" ")?;
    put_number(out, n as usize)
}

fn put_name_field(out: &mut Vec<u8>, name: &Word) -> Result<(), AllocError>
    ensures { OnOk result (out.new.items ≡ out.old.items ++ name_field name.now) }
{
    out.extend_from_slice(b" ")?;
    out.extend_from_slice(name.bytes())
}

/// A word with two literals.
fn put_gate(out: &mut Vec<u8>, word: &[u8], a: u32, b: u32) -> Result<(), AllocError>
    ensures { OnOk result (out.new.items ≡ out.old.items ++ (word.now ++ number_field a ++ number_field b)) }
{
    out.extend_from_slice(word)?;
    put_number_field(out, a)?;
    put_number_field(out, b)
}

fn put_latch(out: &mut Vec<u8>, name: &Word, init: u32, next: u32) -> Result<(), AllocError>
    ensures { OnOk result (out.new.items ≡ out.old.items ++ (codes " latch" ++ number_field init ++ number_field next ++ name_field name.now)) }
{
    out.extend_from_slice(b" latch")?;
    put_number_field(out, init)?;
    put_number_field(out, next)?;
    put_name_field(out, name)
}

fn put_input(out: &mut Vec<u8>, name: &Word) -> Result<(), AllocError>
    ensures { OnOk result (out.new.items ≡ out.old.items ++ (codes " input" ++ name_field name.now)) }
{
    out.extend_from_slice(b" input")?;
    put_name_field(out, name)
}

#[tactic(auto, unfolding(crate::specs::Spelling::form))]
fn put_form(out: &mut Vec<u8>, signal: &Signal) -> Result<(), AllocError>
    ensures { OnOk result (out.new.items ≡ out.old.items ++ form signal.now) }
{
    match signal {
        Signal::One => out.extend_from_slice(b" one"),
        Signal::Input(name) => put_input(out, name),
        Signal::Latch { name, init, next } => put_latch(out, name, *init, *next),
        Signal::Imp(a, b) => put_gate(out, b" imp", *a, *b),
        Signal::Eqv(a, b) => put_gate(out, b" eqv", *a, *b),
    }
}

fn put_signal_line(out: &mut Vec<u8>, number: usize, signal: &Signal) -> Result<(), AllocError>
    ensures { OnOk result (out.new.items ≡ out.old.items ++ line (decimal number ++ form signal.now)) }
{
    put_number(out, number)?;
    put_form(out, signal)?;
    out.extend_from_slice(b"\n")
}

fn put_signal_lines(out: &mut Vec<u8>, signals: &[Signal]) -> Result<(), AllocError>
    ensures { OnOk result (out.new.items ≡ out.old.items ++ signal_lines 0 signals.now) }
{
    for (number, signal) in signals.iter().enumerate() {
        put_signal_line(out, number, signal)?;
    }
    Ok(())
}

fn put_literal_line(out: &mut Vec<u8>, word: &[u8], literal: u32) -> Result<(), AllocError>
    ensures { OnOk result (out.new.items ≡ out.old.items ++ literal_line word.now literal) }
{
    out.extend_from_slice(word)?;
    put_number_field(out, literal)?;
    out.extend_from_slice(b"\n")
}

fn put_literal_lines(out: &mut Vec<u8>, word: &[u8], literals: &[u32]) -> Result<(), AllocError>
    ensures { OnOk result (out.new.items ≡ out.old.items ++ flat_map (literal_line word.now) literals.now) }
{
    for literal in literals {
        put_literal_line(out, word, *literal)?;
    }
    Ok(())
}

fn put_name_line(out: &mut Vec<u8>, named: &Named) -> Result<(), AllocError>
    ensures { OnOk result (out.new.items ≡ out.old.items ++ name_line named.now) }
{
    out.extend_from_slice(b"name")?;
    put_number_field(out, named.literal)?;
    put_name_field(out, &named.name)?;
    out.extend_from_slice(b"\n")
}

fn put_name_lines(out: &mut Vec<u8>, names: &[Named]) -> Result<(), AllocError>
    ensures { OnOk result (out.new.items ≡ out.old.items ++ flat_map name_line names.now) }
{
    for named in names {
        put_name_line(out, named)?;
    }
    Ok(())
}

/// The one spelling of a value.
#[tactic(auto, unfolding(crate::specs::Spelling::spelling, crate::specs::Spelling::list_lines))]
pub fn write_lll(alloc: Global, lll: &Lll) -> Result<Vec<u8>, AllocError>
    ensures { IfOk result (λ text. text.items ≡ spelling lll.now) }
{
    let mut out = Vec::new(alloc);
    out.extend_from_slice(b"lll 1\n")?;
    put_signal_lines(&mut out, lll.signals.as_slice())?;
    put_literal_line(&mut out, b"assume", lll.assume)?;
    put_literal_line(&mut out, b"keep", lll.keep)?;
    put_literal_lines(&mut out, b"constraint", lll.constraints.as_slice())?;
    put_literal_lines(&mut out, b"obligation", lll.obligations.as_slice())?;
    put_name_lines(&mut out, lll.names.as_slice())?;
    out.extend_from_slice(b"end\n")?;
    Ok(out)
}
