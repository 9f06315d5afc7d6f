ghost use Rattle.std.specs.Prelude.{◌≡◌, ◌==◌, List, length, map, nat_eq};
ghost use Rattle.std.specs.List.{filter, list_all, prefix_len};
ghost use Rattle.std.specs.Map.{lookup};
ghost use Rattle.std.specs.Str.{bytes_eq};
ghost use Rattle.hll_lexer.specs.Words.{begins_word, continues_word, reserved_words, reserved_of};

use crate::token::Reserved;

type Row = (&'static [u8], Reserved);

pub(crate) fn begins_word(byte: u8) -> bool
    ensures { result ≡ begins_word byte }
{
    byte.is_ascii_alphabetic() || byte == b'_'
}

fn continues_word(byte: u8) -> bool
    ensures { result ≡ continues_word byte }
{
    byte.is_ascii_alphanumeric() || byte == b'_'
}

pub(crate) fn all_continue_word(bytes: &[u8]) -> bool
    ensures { result ≡ list_all continues_word bytes.now }
{
    bytes.iter().all(|byte| continues_word(*byte))
}

/// The number of bytes at the front that continue a word.
pub(crate) fn word_length(text: &[u8]) -> usize
    ensures { result ≡ prefix_len continues_word text.now }
{
    text.iter()
        .take_while(|byte| continues_word(**byte))
        .count()
}

/// The reserved words of this length.
#[tactic(auto, unfolding(crate::specs::Words::reserved_words))]
fn reserved_of_length(count: usize) -> &'static [Row]
    ensures { map (λ row. (row.0.now, row.1)) result.now ≡ filter (λ row. length row.0 == count) reserved_words }
{
    match count {
        1 => &[(b"X", Reserved::Next), (b"I", Reserved::First)],
        2 => &[(b"if", Reserved::If)],
        3 => &[
            (b"int", Reserved::Int),
            (b"ALL", Reserved::All),
            (b"SUM", Reserved::Sum),
            (b"pre", Reserved::Pre),
        ],
        4 => &[
            (b"bool", Reserved::Bool),
            (b"enum", Reserved::Enum),
            (b"sort", Reserved::Sort),
            (b"true", Reserved::True),
            (b"TRUE", Reserved::True),
            (b"then", Reserved::Then),
            (b"elif", Reserved::Elif),
            (b"else", Reserved::Else),
            (b"SOME", Reserved::Some),
        ],
        5 => &[
            (b"Types", Reserved::Types),
            (b"Proof", Reserved::Proof),
            (b"false", Reserved::False),
            (b"FALSE", Reserved::False),
        ],
        6 => &[
            (b"Inputs", Reserved::Inputs),
            (b"signed", Reserved::Signed),
            (b"struct", Reserved::Struct),
        ],
        8 => &[(b"unsigned", Reserved::Unsigned)],
        9 => &[(b"Constants", Reserved::Constants)],
        11 => &[
            (b"Definitions", Reserved::Definitions),
            (b"Constraints", Reserved::Constraints),
            (b"Obligations", Reserved::Obligations),
        ],
        12 => &[(b"Declarations", Reserved::Declarations)],
        _ => &[],
    }
}

/// The reserved word with this spelling, in a table.
fn reserved_in(rows: &[Row], word: &[u8]) -> Option<Reserved>
    ensures { result ≡ lookup (bytes_eq word.now) (map (λ row. (row.0.now, row.1)) rows.now) }
{
    for (spelling, reserved) in rows {
        if word == *spelling {
            return Some(*reserved);
        }
    }
    None
}

/// The reserved word that is spelled so.
pub(crate) fn reserved(word: &[u8]) -> Option<Reserved>
    ensures { result ≡ reserved_of word.now }
{
    reserved_in(reserved_of_length(word.len()), word)
}
