//! What stands at the front of some bytes: bytes that are due, numbers and names. Each reader answers what it read and the bytes
//! that follow.

ghost use Rattle.std.specs.Prelude.{◌≡◌, ◌^◌, ◌<◌, ◌≤◌, ◌-◌, ◌++◌, ◌==◌, ◌↔◌, ℕ, ℤ, List, codes, false, length, min, IsTrue, MatchOption};
ghost use Rattle.std.specs.List.{prefix_len};
ghost use Rattle.hll_lexer.specs.Numbers.{is_digit};
ghost use Rattle.hll_lexer.specs.Pieces.{is_quotable, Stops};
ghost use Rattle.hll_lexer.specs.Words.{continues_word, is_plain_name as is_plain};
ghost use Rattle.trace_text.specs.Faults.{Never};
ghost use Rattle.trace_text.specs.Parts.{digits_value, is_numeral, IsShort, StandsName, StandsNumber, StandsWhole};

use hll_lexer::is_plain_name;

/// What follows these bytes, where they stand at the front.
pub(crate) fn after<'a>(text: &'a [u8], bytes: &[u8]) -> Option<&'a [u8]>
    ensures { MatchOption result (Never (λ more. text.now ≡ bytes.now ++ more)) (λ rest. text.now ≡ bytes.now ++ rest.now) }
{
    text.strip_prefix(bytes)
}

/// What follows a byte, some bytes and another byte.
pub(crate) fn after_between<'a>(
    text: &'a [u8],
    first: &[u8],
    bytes: &[u8],
    last: &[u8],
) -> Option<&'a [u8]>
    ensures { MatchOption result (Never (λ more. text.now ≡ first.now ++ bytes.now ++ last.now ++ more))
        (λ rest. text.now ≡ first.now ++ bytes.now ++ last.now ++ rest.now) }
{
    let text = after(text, first)?;
    let text = after(text, bytes)?;
    after(text, last)
}

fn continues_word(byte: u8) -> bool
    ensures { result ≡ continues_word byte }
{
    byte.is_ascii_alphanumeric() || byte == b'_'
}

fn is_quotable(byte: u8) -> bool
    ensures { result ≡ is_quotable byte }
{
    matches!(byte, b' '..=b'~') && byte != b'\''
}

fn is_digit(byte: u8) -> bool
    ensures { result ≡ is_digit 10 byte }
{
    byte.is_ascii_digit()
}

/// Whether no word goes on there.
pub(crate) fn stops_word(text: &[u8]) -> bool
    ensures { IsTrue result ↔ Stops continues_word text.now }
{
    match text {
        [] => true,
        [first, ..] => !continues_word(*first),
    }
}

/// The number of bytes at the front that continue a word.
fn word_length(text: &[u8]) -> usize
    ensures count { result ≡ prefix_len continues_word text.now }
    ensures within { result ≤ length text.now }
{
    text.iter()
        .take_while(|byte| continues_word(**byte))
        .count()
}

/// The number of bytes at the front that may stand between quotes.
fn quoted_length(text: &[u8]) -> usize
    ensures count { result ≡ prefix_len is_quotable text.now }
    ensures within { result ≤ length text.now }
{
    text.iter().take_while(|byte| is_quotable(**byte)).count()
}

/// The number of digits at the front.
fn digits_length(text: &[u8]) -> usize
    ensures count { result ≡ prefix_len (is_digit 10) text.now }
    ensures within { result ≤ length text.now }
{
    text.iter().take_while(|byte| is_digit(**byte)).count()
}

/// Whether a name is printed in quotes and read again.
fn needs_quotes(name: &[u8]) -> bool
    ensures { IsTrue result ↔ ((0 < length name.now) × (is_plain name.now ≡ false)) }
{
    !name.is_empty() && !is_plain_name(name)
}

/// The name in quotes at the front, behind its first quote.
fn quoted_name(text: &[u8]) -> Option<(&[u8], &[u8])>
    ensures { MatchOption result ((name : List ℕ) → Never (StandsName (codes "'" ++ text.now) name)) (λ r. StandsName (codes "'" ++ text.now) r.0.now r.1.now) }
{
    let (name, rest) = text.split_at(quoted_length(text));
    let rest = after(rest, b"'")?;
    if needs_quotes(name) {
        Some((name, rest))
    } else {
        None
    }
}

/// The plain name at the front.
fn plain_name(text: &[u8]) -> Option<(&[u8], &[u8])>
    requires { Never (λ more. text.now ≡ codes "'" ++ more) }
    ensures { MatchOption result ((name : List ℕ) → Never (StandsName text.now name)) (λ r. StandsName text.now r.0.now r.1.now) }
{
    let (name, rest) = text.split_at(word_length(text));
    if is_plain_name(name) {
        Some((name, rest))
    } else {
        None
    }
}

/// The name at the front, as it is printed.
pub(crate) fn name_at(text: &[u8]) -> Option<(&[u8], &[u8])>
    ensures { MatchOption result ((name : List ℕ) → Never (StandsName text.now name)) (λ r. StandsName text.now r.0.now r.1.now) }
{
    match after(text, b"'") {
        Some(inner) => quoted_name(inner),
        None => plain_name(text),
    }
}

/// What digits are worth, held at the greatest number.
fn worth(digits: &[u8]) -> u128
    ensures { result ≡ min (digits_value digits.now) (2 ^ 128 - 1) }
{
    let mut value: u128 = 0;
    for digit in digits {
        value = value
            .saturating_mul(10)
            .saturating_add(u128::from(digit.saturating_sub(b'0')));
    }
    value
}

/// Whether digits are a number without leading zeros.
fn is_numeral(digits: &[u8]) -> bool
    ensures { result ≡ is_numeral digits.now }
{
    match digits {
        [] => false,
        [_] => true,
        [first, ..] => *first != b'0',
    }
}

/// The number at the front, without a sign, if it is one of 64 digits.
fn number_at(text: &[u8]) -> Option<(u64, &[u8])>
    ensures { MatchOption result ((n : ℕ) → n < 2 ^ 64 → Never (StandsNumber text.now n)) (λ r. (r.0 < 2 ^ 64) × StandsNumber text.now r.0 r.1.now) }
{
    let (digits, rest) = text.split_at(digits_length(text));
    if !is_numeral(digits) {
        return None;
    }
    match u64::try_from(worth(digits)) {
        Ok(value) => Some((value, rest)),
        Err(_) => None,
    }
}

/// The whole number at the front, if it is one of 64 digits and a sign.
pub(crate) fn whole_at(text: &[u8]) -> Option<(i128, &[u8])>
    ensures { MatchOption result ((x : ℤ) → IsShort x → Never (StandsWhole text.now x)) (λ r. IsShort r.0 × StandsWhole text.now r.0 r.1.now) }
{
    match after(text, b"-") {
        Some(digits) => {
            let (value, rest) = number_at(digits)?;
            if value == 0 {
                None
            } else {
                Some((-i128::from(value), rest))
            }
        }
        None => {
            let (value, rest) = number_at(text)?;
            Some((i128::from(value), rest))
        }
    }
}
