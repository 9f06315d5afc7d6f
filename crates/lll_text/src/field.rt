//! The fields of a line. Each reader answers what it read and the text after it.

ghost use Rattle.std.specs.Prelude.{◌≡◌, ◌+◌, ◌<◌, ◌≤◌, List, ℕ, ◌∷◌, [], length, take, drop, option_map, IfOk, IfSome};
ghost use Rattle.std.specs.List.{list_all};
ghost use Rattle.lll_text.specs.Fields.{is_printable, is_digit, is_numeral, Gives, after, due, digits, value_on, held, number_at, number_field_at, literal_at, to_line_end, is_name, name_at};

use crate::fault::{LllKind, Unread};

/// What follows these bytes, where the text begins with them.
pub(crate) fn after<'a>(text: &'a [u8], bytes: &[u8]) -> Option<&'a [u8]>
    ensures rest { option_map (λ r. r.now) result ≡ after bytes.now text.now }
    ensures shorter { IfSome result (λ r. length r.now + length bytes.now ≡ length text.now) }
{
    text.strip_prefix(bytes)
}

/// What follows bytes that are due here.
pub(crate) fn due<'a>(text: &'a [u8], bytes: &[u8], wrong: LllKind) -> Result<&'a [u8], Unread>
    ensures exact { Gives (λ r. r.now) result (due wrong bytes.now text.now) }
    ensures shorter { IfOk result (λ r. length r.now + length bytes.now ≡ length text.now) }
{
    match after(text, bytes) {
        Some(rest) => Ok(rest),
        None => Err(Unread::Wrong(wrong)),
    }
}

/// The end of a line.
pub(crate) fn line_end(text: &[u8]) -> Result<&[u8], Unread>
    ensures exact { Gives (λ r. r.now) result (due LllKind.Ending (10 ∷ []) text.now) }
    ensures shorter { IfOk result (λ r. length r.now + 1 ≡ length text.now) }
{
    due(text, b"\n", LllKind::Ending)
}

pub(crate) fn is_digit(byte: u8) -> bool
    ensures { result ≡ is_digit byte }
{
    b'0' <= byte && byte <= b'9'
}

/// The number that the digits stand for, held at `u32::MAX`, and how many they are.
fn digits_at(text: &[u8]) -> (u32, usize)
    ensures value { result.0 ≡ held (value_on 0 (digits text.now)) }
    ensures front { digits text.now ≡ take result.1 text.now }
    ensures count { result.1 ≡ length (digits text.now) }
    ensures within { result.1 ≤ length text.now }
{
    let mut value: u32 = 0;
    for (count, byte) in text.iter().enumerate() {
        if !is_digit(*byte) {
            return (value, count);
        }
        value = value
            .saturating_mul(10)
            .saturating_add(u32::from(*byte - b'0'));
    }
    (value, text.len())
}

/// Whether digits are a number without leading zeros.
fn is_numeral(digits: &[u8]) -> bool
    ensures { result ≡ is_numeral digits.now }
{
    match digits {
        [] => false,
        [_] => true,
        [first, ..] => *first != b'0',
    }
}

/// A number, held at `u32::MAX`.
#[tactic(auto, unfolding(crate::specs::Fields::number_at))]
pub(crate) fn number(text: &[u8]) -> Result<(u32, &[u8]), Unread>
    ensures exact { Gives (λ x. (x.0, x.1.now)) result (number_at text.now) }
    ensures shorter { IfOk result (λ x. length x.1.now ≤ length text.now) }
{
    let (value, count) = digits_at(text);
    let (digits, rest) = text.split_at(count);
    if is_numeral(digits) {
        Ok((value, rest))
    } else {
        Err(Unread::Wrong(LllKind::Number))
    }
}

/// A space and a number.
#[tactic(auto, unfolding(crate::specs::Fields::number_field_at))]
pub(crate) fn number_field(text: &[u8]) -> Result<(u32, &[u8]), Unread>
    ensures exact { Gives (λ x. (x.0, x.1.now)) result (number_field_at text.now) }
    ensures shorter { IfOk result (λ x. length x.1.now ≤ length text.now) }
{
    let rest = due(text, b" ", LllKind::Number)?;
    number(rest)
}

/// A space and a literal that names one of so many signals.
#[tactic(auto, unfolding(crate::specs::Fields::literal_at))]
pub(crate) fn literal(text: &[u8], count: usize, wrong: LllKind) -> Result<(u32, &[u8]), Unread>
    ensures exact { Gives (λ x. (x.0, x.1.now)) result (literal_at wrong count text.now) }
    ensures shorter { IfOk result (λ x. length x.1.now ≤ length text.now) }
{
    let (literal, rest) = number_field(text)?;
    if ((literal / 2) as usize) < count {
        Ok((literal, rest))
    } else {
        Err(Unread::Wrong(wrong))
    }
}

/// What stands before the line feed, or before the text's end where there is none.
fn to_line_end(text: &[u8]) -> usize
    ensures count { result ≡ length (to_line_end text.now) }
    ensures line { to_line_end text.now ≡ take result text.now }
    ensures within { result ≤ length text.now }
{
    for (count, byte) in text.iter().enumerate() {
        if *byte == b'\n' {
            return count;
        }
    }
    text.len()
}

/// Whether these are bytes that a name may have.
fn are_printable(bytes: &[u8]) -> bool
    ensures { result ≡ list_all is_printable bytes.now }
{
    bytes.iter().all(|byte| 0x20 <= *byte && *byte <= 0x7E)
}

/// Whether a name is not empty and has printable bytes alone.
fn is_name(name: &[u8]) -> bool
    ensures { result ≡ is_name name.now }
{
    match name {
        [] => false,
        _ => are_printable(name),
    }
}

/// A space and a name, which runs to the line's end.
#[tactic(auto, unfolding(crate::specs::Fields::name_at))]
pub(crate) fn name(text: &[u8]) -> Result<(&[u8], &[u8]), Unread>
    ensures exact { Gives (λ x. (x.0.now, x.1.now)) result (name_at text.now) }
    ensures shorter { IfOk result (λ x. length x.1.now ≤ length text.now) }
{
    let rest = due(text, b" ", LllKind::Name)?;
    let (name, rest) = rest.split_at(to_line_end(rest));
    if is_name(name) {
        Ok((name, rest))
    } else {
        Err(Unread::Wrong(LllKind::Name))
    }
}
