ghost use Rattle.std.specs.Prelude.{◌≡◌, ◌==◌, ◌<◌, ℕ, List, length, slice_index, map, nat_eq, option_map, MatchOption};
ghost use Rattle.std.specs.List.{filter, find, starts_with};
ghost use Rattle.hll_lexer.specs.Marks.{marks};
ghost use Rattle.hll_lexer.specs.Pieces.{BeginsComment, IsFront, IsSign, IsStray};

use crate::front::Front;
use crate::token::{Mark, TokenKind};

type Row = (&'static [u8], Mark);

/// The marks that begin with this byte, the longer before the shorter.
#[tactic(auto, unfolding(crate::specs::Marks::marks))]
fn marks_from(byte: u8) -> &'static [Row]
    ensures { map (λ row. (row.0.now, row.1)) result.now ≡ filter (λ row. slice_index row.0 0 == byte) marks }
{
    match byte {
        b':' => &[(b":=", Mark::Assign), (b":", Mark::Colon)],
        b';' => &[(b";", Mark::Semicolon)],
        b',' => &[(b",", Mark::Comma)],
        b'(' => &[(b"(", Mark::Open)],
        b')' => &[(b")", Mark::Close)],
        b'[' => &[(b"[", Mark::OpenBracket)],
        b']' => &[(b"]", Mark::CloseBracket)],
        b'{' => &[(b"{", Mark::OpenBrace)],
        b'}' => &[(b"}", Mark::CloseBrace)],
        b'.' => &[(b".", Mark::Dot)],
        b'-' => &[(b"->", Mark::Implies), (b"-", Mark::Minus)],
        b'<' => &[
            (b"<->", Mark::Same),
            (b"<>", Mark::Unequal),
            (b"<=", Mark::LessEqual),
            (b"<", Mark::Less),
        ],
        b'#' => &[(b"#!", Mark::Differ), (b"#", Mark::Or)],
        b'&' => &[(b"&", Mark::And)],
        b'~' => &[(b"~", Mark::Not)],
        b'=' => &[(b"==", Mark::Equal), (b"=", Mark::Equal)],
        b'!' => &[(b"!=", Mark::Unequal)],
        b'>' => &[(b">=", Mark::GreaterEqual), (b">", Mark::Greater)],
        b'+' => &[(b"+", Mark::Plus)],
        b'*' => &[(b"*", Mark::Times)],
        b'/' => &[(b"/", Mark::Over)],
        b'%' => &[(b"%", Mark::Rest)],
        b'$' => &[
            (b"$min", Mark::Min),
            (b"$max", Mark::Max),
            (b"$abs", Mark::Abs),
        ],
        _ => &[],
    }
}

/// The first mark in a table whose spelling is the front of a text, and its length.
fn mark_in(rows: &[Row], text: &[u8]) -> Option<(Mark, usize)>
    ensures { result ≡ option_map (λ (row : List ℕ × Mark). (row.1, length row.0))
        (find (λ row. starts_with nat_eq text.now row.0) (map (λ row. (row.0.now, row.1)) rows.now)) }
{
    for (spelling, mark) in rows {
        if text.starts_with(spelling) {
            return Some((*mark, spelling.len()));
        }
    }
    None
}

/// The mark at the front of a text that begins with no blank, letter, digit, quote or comment, if there is one.
pub(crate) fn mark(text: &[u8]) -> Option<Front>
    requires some { 0 < length text.now }
    requires sign { IsSign (slice_index text.now 0) }
    requires apart { BeginsComment text.now → ⊥ }
    ensures { MatchOption result (IsStray text.now) (λ front. IsFront text.now front.kind front.length) }
{
    let (mark, length) = mark_in(marks_from(text[0]), text)?;
    Some(Front {
        kind: Some(TokenKind::Mark(mark)),
        length,
    })
}
