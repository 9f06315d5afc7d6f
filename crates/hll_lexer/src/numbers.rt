ghost use Rattle.std.specs.Prelude.{◌≡◌, ◌<◌, ◌≤◌, IsTrue, MatchOption, pos, slice_index};
ghost use Rattle.std.specs.List.{list_all, prefix_len};
ghost use Rattle.hll_lexer.specs.Numbers.{worth, is_digit, base_of, prefix_of, digits_worth, number_worth};
ghost use Rattle.hll_lexer.specs.Pieces.{greatest, IsFront, IsTooGreat};

use crate::front::Front;
use crate::token::TokenKind;

/// What a digit is worth; 16 for a byte that is no digit.
fn worth(byte: u8) -> u8
    ensures { result ≡ worth byte }
{
    match byte {
        b'0'..=b'9' => byte - b'0',
        b'A'..=b'F' => byte - b'A' + 10,
        b'a'..=b'f' => byte - b'a' + 10,
        _ => 16,
    }
}

fn is_digit(base: u8, byte: u8) -> bool
    ensures { result ≡ is_digit base byte }
{
    worth(byte) < base
}

/// The base of the number at the front.
fn base_of(text: &[u8]) -> u8
    ensures { result ≡ base_of text.now }
{
    match text {
        [b'0', b'x' | b'X', digit, ..] if is_digit(16, *digit) => 16,
        [b'0', b'b' | b'B', digit, ..] if is_digit(2, *digit) => 2,
        _ => 10,
    }
}

/// The number of bytes before the digits.
fn prefix_of(base: u8) -> usize
    ensures { result ≡ prefix_of base }
{
    if base == 10 { 0 } else { 2 }
}

/// The number of digits at the front.
fn digits_length(base: u8, text: &[u8]) -> usize
    ensures { result ≡ prefix_len (is_digit base) text.now }
{
    text.iter()
        .take_while(|byte| is_digit(base, **byte))
        .count()
}

/// What digits are worth, if that is at most `i128::MAX`.
fn digits_worth(base: u8, digits: &[u8]) -> Option<i128>
    requires { 0 < base }
    ensures { MatchOption result (greatest < digits_worth base digits.now)
        (λ n. (n ≡ pos (digits_worth base digits.now)) × (digits_worth base digits.now ≤ greatest)) }
{
    let mut total: u128 = 0;
    for digit in digits {
        total = total
            .checked_mul(u128::from(base))?
            .checked_add(u128::from(worth(*digit)))?;
    }
    i128::try_from(total).ok()
}

/// The number at the front, if it is at most `i128::MAX`.
pub(crate) fn number(text: &[u8]) -> Option<Front>
    requires { IsTrue (is_digit 10 (slice_index text.now 0)) }
    ensures { MatchOption result (IsTooGreat text.now) (λ front. IsFront text.now front.kind front.length) }
{
    let base = base_of(text);
    let prefix = prefix_of(base);
    let length = prefix + digits_length(base, &text[prefix..]);
    let value = digits_worth(base, &text[prefix..length])?;
    Some(Front {
        kind: Some(TokenKind::Number(value)),
        length,
    })
}
