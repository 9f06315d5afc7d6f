//! The fields of a line. Each reader answers the value that the bytes spell, where they spell one that fits.

ghost use Rattle.std.specs.Prelude.{◌≡◌, ◌+◌, ◌-◌, ◌*◌, ◌^◌, ◌<◌, ◌≤◌, ◌++◌, ◌∷◌, [], min, map, length, take, drop, option_map, decimal, position, ◌==◌, codes, negsuc, All, IfOk, OnOk, Some};
ghost use Rattle.std.specs.Fmt.{signed_decimal};
ghost use Rattle.std.specs.List.{flat_map};
ghost use Rattle.lll_text.specs.Fields.{is_digit, is_numeral, digits, value_on};
ghost use Rattle.lll_text.specs.Spelling.{number_field};
ghost use Rattle.evidence.specs.Counts.{IsLiteralNumber, IsStep};
ghost use Rattle.evidence.specs.Spelling.{bit, literal_field, literals};
ghost use Rattle.evidence.specs.Readers.{Reads, ReadsFront, step_content};

use crate::read_step::ReadStep;
use sqlite_items::Items;
use std::alloc::{AllocError, Global};

/// What follows these bytes, where the text begins with them.
pub(crate) fn after<'a>(text: &'a [u8], bytes: &[u8]) -> Option<&'a [u8]>
    ensures { Reads (λ rest. Prim.Unit {0}) (λ rest. bytes.now ++ rest) text.now (option_map (λ r. r.now) result) }
{
    text.strip_prefix(bytes)
}

fn is_digit(byte: u8) -> bool
    ensures { result ≡ is_digit byte }
{
    b'0' <= byte && byte <= b'9'
}

/// The number that the digits stand for, held at `u64::MAX`, and how many they are.
fn digits_at(text: &[u8]) -> (u64, usize)
    ensures value { result.0 ≡ min (value_on 0 (digits text.now)) (2 ^ 64 - 1) }
    ensures front { digits text.now ≡ take result.1 text.now }
    ensures count { result.1 ≡ length (digits text.now) }
    ensures within { result.1 ≤ length text.now }
{
    let mut value: u64 = 0;
    for (count, byte) in text.iter().enumerate() {
        if !is_digit(*byte) {
            return (value, count);
        }
        value = value
            .saturating_mul(10)
            .saturating_add(u64::from(*byte - b'0'));
    }
    (value, text.len())
}

/// Whether digits are a number without leading zeros.
fn is_numeral(digits: &[u8]) -> bool
    ensures { result ≡ is_numeral digits.now }
{
    match digits {
        [] => false,
        [_] => true,
        [first, ..] => *first != b'0',
    }
}

/// A number up to a limit.
pub(crate) fn number(text: &[u8], limit: u64) -> Option<(u64, &[u8])>
    requires { limit < 2 ^ 64 - 1 }
    ensures { ReadsFront (λ n. n ≤ limit) decimal text.now (option_map (λ x. (x.0, x.1.now)) result) }
{
    let (value, count) = digits_at(text);
    let (digits, rest) = text.split_at(count);
    if !is_numeral(digits) {
        return None;
    }
    if value > limit {
        return None;
    }
    Some((value, rest))
}

/// A space and a number up to a limit.
pub(crate) fn number_field(text: &[u8], limit: u64) -> Option<(u64, &[u8])>
    requires { limit < 2 ^ 64 - 1 }
    ensures { ReadsFront (λ n. n ≤ limit) number_field text.now (option_map (λ x. (x.0, x.1.now)) result) }
{
    let rest = after(text, b" ")?;
    number(rest, limit)
}

/// The opposite of a number.
fn negative(n: u64) -> i32
    requires some { 1 ≤ n }
    requires bound { n ≤ 2 ^ 31 }
    ensures { result ≡ negsuc (n - 1) }
{
    (-(n as i64)) as i32
}

/// What follows a minus sign in a literal.
fn magnitude(text: &[u8]) -> Option<(u64, &[u8])>
    ensures { ReadsFront (λ n. (1 ≤ n) × (n ≤ 2 ^ 31)) decimal text.now (option_map (λ x. (x.0, x.1.now)) result) }
{
    let (n, rest) = number(text, 0x8000_0000)?;
    if n == 0 {
        return None;
    }
    Some((n, rest))
}

/// A literal.
pub(crate) fn literal(text: &[u8]) -> Option<(i32, &[u8])>
    ensures { ReadsFront IsLiteralNumber signed_decimal text.now (option_map (λ x. (x.0, x.1.now)) result) }
{
    if let Some(rest) = after(text, b"-") {
        let (n, rest) = magnitude(rest)?;
        return Some((negative(n), rest));
    }
    let (n, rest) = number(text, 0x7FFF_FFFF)?;
    Some((n as i32, rest))
}

/// A space and a literal.
fn literal_field(text: &[u8]) -> Option<(i32, &[u8])>
    ensures { ReadsFront IsLiteralNumber literal_field text.now (option_map (λ x. (x.0, x.1.now)) result) }
{
    let rest = after(text, b" ")?;
    literal(rest)
}

/// Hints, each after a space, in the memory of others.
pub(crate) fn hints(text: &[u8], room: Vec<u32>) -> Result<Option<Vec<u32>>, AllocError>
    ensures { IfOk result (λ read. Reads (All (λ h. h < 2 ^ 32)) (flat_map number_field) text.now (option_map (λ hints. hints.items) read)) }
{
    let mut hints = room;
    hints.clear();
    let mut rest = text;
    while !rest.is_empty() {
        match number_field(rest, 0xFFFF_FFFF) {
            Some((hint, next)) => {
                hints.push(hint as u32)?;
                rest = next;
            }
            None => return Ok(None),
        }
    }
    Ok(Some(hints))
}

/// Literals, parted by spaces, in the memory of others.
fn literals(text: &[u8], room: Vec<i32>) -> Result<Option<Vec<i32>>, AllocError>
    ensures { IfOk result (λ read. Reads (All IsLiteralNumber) literals text.now (option_map (λ literals. literals.items) read)) }
{
    let mut literals = room;
    literals.clear();
    if text.is_empty() {
        return Ok(Some(literals));
    }
    let mut rest = match literal(text) {
        Some((first, next)) => {
            literals.push(first)?;
            next
        }
        None => return Ok(None),
    };
    while !rest.is_empty() {
        match literal_field(rest) {
            Some((literal, next)) => {
                literals.push(literal)?;
                rest = next;
            }
            None => return Ok(None),
        }
    }
    Ok(Some(literals))
}

/// Where the first colon stands.
fn colon(text: &[u8]) -> Option<usize>
    ensures { result ≡ position (λ b. b == 58) text.now }
{
    text.iter().position(|byte| *byte == b':')
}

/// What stands before a place, and what stands after it.
pub(crate) fn around(text: &[u8], at: usize) -> (&[u8], &[u8])
    requires { at < length text.now }
    ensures front { result.0.now ≡ take at text.now }
    ensures back { result.1.now ≡ drop (at + 1) text.now }
{
    (&text[..at], &text[at + 1..])
}

/// A step whose colon stands there.
fn step_at(text: &[u8], colon: usize, room: ReadStep) -> Result<Option<ReadStep>, AllocError>
    requires { position (λ b. b == 58) text.now ≡ Some colon }
    ensures { IfOk result (Reads IsStep step_content text.now) }
{
    let (front, back) = around(text, colon);
    let (literal_room, hint_room) = room.into_room();
    let clause = match literals(front, literal_room)? {
        Some(clause) => clause,
        None => return Ok(None),
    };
    match hints(back, hint_room)? {
        Some(hints) => Ok(Some(ReadStep::new(clause, hints))),
        None => Ok(None),
    }
}

/// A step: its literals, a colon and its hints. It is read into the memory of another.
pub(crate) fn step(text: &[u8], room: ReadStep) -> Result<Option<ReadStep>, AllocError>
    ensures { IfOk result (Reads IsStep step_content text.now) }
{
    match colon(text) {
        Some(colon) => step_at(text, colon, room),
        None => Ok(None),
    }
}

/// A truth value.
fn bit(byte: u8) -> Option<bool>
    ensures { Reads (λ value. Prim.Unit {0}) (λ value. bit value ∷ []) (byte ∷ []) result }
{
    match byte {
        b'0' => Some(false),
        b'1' => Some(true),
        _ => None,
    }
}

/// Truth values, as many as are due.
pub(crate) fn bits(
    alloc: Global,
    text: &[u8],
    count: usize,
) -> Result<Option<Items<bool>>, AllocError>
    ensures { IfOk result (Reads (λ values. length values ≡ count) (map bit) text.now) }
{
    if text.len() != count {
        return Ok(None);
    }
    let mut values = Items::new(alloc);
    for byte in text {
        match bit(*byte) {
            Some(value) => values.push(value)?,
            None => return Ok(None),
        }
    }
    Ok(Some(values))
}
