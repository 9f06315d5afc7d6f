//! The lines of the text that have words. Each reader is given a line without its line feed.

ghost use Rattle.std.specs.Prelude.{◌≡◌, ◌+◌, ◌-◌, ◌^◌, ◌<◌, ◌≤◌, ◌++◌, codes, option_map};
ghost use Rattle.lll_text.specs.Spelling.{number_field};
ghost use Rattle.evidence.specs.Spelling.{formula_field, place_field};
ghost use Rattle.evidence.specs.Readers.{Reads, EqualLineFits, PlaceWithin, VerdictFits, equal_content, verdict_content};

use crate::reader_fields::{after, number_field};
use kinduction::Spot;

/// What the line of the parts says.
#[derive(Clone, Copy, Debug, PartialEq, Eq)]
pub enum EqualLine {
    Shown,
    /// The budget was spent at a part, which counts from 0.
    Conflicts { part: u32, stepping: bool },
}

/// What the line of an entry says.
#[derive(Clone, Copy, Debug, PartialEq, Eq)]
pub enum Verdict {
    Proved(u32),
    Falsified(u32),
    Depth,
    Conflicts(Spot),
}

/// A space and a number in a range.
fn number_in(text: &[u8], least: u64, most: u64) -> Option<u64>
    requires { most < 2 ^ 64 - 1 }
    ensures { Reads (λ n. (least ≤ n) × (n ≤ most)) number_field text.now result }
{
    let (n, rest) = number_field(text, most)?;
    if !rest.is_empty() {
        return None;
    }
    if n < least {
        return None;
    }
    Some(n)
}

/// A word and a number in a range.
pub(crate) fn number_line(text: &[u8], word: &[u8], least: u64, most: u64) -> Option<u64>
    requires { most < 2 ^ 64 - 1 }
    ensures { Reads (λ n. (least ≤ n) × (n ≤ most)) (λ n. word.now ++ number_field n) text.now result }
{
    let rest = after(text, word)?;
    number_in(rest, least, most)
}

/// Whether it is the step formula of a part, or its base formula.
fn formula(text: &[u8]) -> Option<bool>
    ensures { Reads (λ stepping. Prim.Unit {0}) formula_field text.now result }
{
    if text == b" step".as_slice() {
        return Some(true);
    }
    if text == b" base".as_slice() {
        return Some(false);
    }
    None
}

/// A part of so many, and which of its formulas.
fn read_part(text: &[u8], parts: u64) -> Option<(u32, bool)>
    requires { 1 ≤ parts }
    ensures { Reads (λ x. (x.0 < parts) × (x.0 < 2 ^ 32)) (λ x. number_field (x.0 + 1) ++ formula_field x.1) text.now result }
{
    let (number, rest) = number_field(text, parts.min(0x1_0000_0000))?;
    if number == 0 {
        return None;
    }
    let stepping = formula(rest)?;
    Some(((number - 1) as u32, stepping))
}

/// What the line of so many parts says.
pub(crate) fn equal_line(text: &[u8], parts: u64) -> Option<EqualLine>
    requires some { 1 ≤ parts }
    requires bound { parts < 2 ^ 64 - 1 }
    ensures { Reads (EqualLineFits parts) (equal_content parts) text.now result }
{
    if let Some(rest) = after(text, b"equal conflicts") {
        let (part, stepping) = read_part(rest, parts)?;
        return Some(EqualLine::Conflicts { part, stepping });
    }
    let rest = after(text, b"equal shown")?;
    number_in(rest, parts, parts)?;
    Some(EqualLine::Shown)
}

/// A place that is tried up to a depth.
fn read_place(text: &[u8], depth: u32) -> Option<Spot>
    requires { 1 ≤ depth }
    ensures { Reads (PlaceWithin depth) place_field text.now result }
{
    if let Some(rest) = after(text, b" base") {
        let instant = number_in(rest, 0, u64::from(depth - 1))?;
        return Some(Spot::Base(instant as u32));
    }
    let rest = after(text, b" step")?;
    let round = number_in(rest, 1, u64::from(depth))?;
    Some(Spot::Step(round as u32))
}

/// What the line of an entry says after its number.
pub(crate) fn read_verdict(text: &[u8], depth: u32) -> Option<Verdict>
    requires { 1 ≤ depth }
    ensures { Reads (VerdictFits depth) verdict_content text.now result }
{
    if let Some(rest) = after(text, b" proved") {
        let k = number_in(rest, 1, u64::from(depth))?;
        return Some(Verdict::Proved(k as u32));
    }
    if let Some(rest) = after(text, b" falsified") {
        let n = number_in(rest, 1, u64::from(depth))?;
        return Some(Verdict::Falsified(n as u32));
    }
    if let Some(rest) = after(text, b" conflicts") {
        let place = read_place(rest, depth)?;
        return Some(Verdict::Conflicts(place));
    }
    if text == b" depth".as_slice() {
        return Some(Verdict::Depth);
    }
    None
}
