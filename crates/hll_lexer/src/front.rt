ghost use Rattle.std.specs.Prelude.{◌≡◌, ◌<◌, length, MatchResult, MatchOption, slice_index, IsTrue};
ghost use Rattle.hll_lexer.specs.Words.{begins_word};
ghost use Rattle.hll_lexer.specs.Pieces.{is_blank, IsFront, IsFault, IsLongestToken};

use crate::comments::{block_comment, line_comment};
use crate::fault::Fault;
use crate::marks::mark;
use crate::names::quoted;
use crate::numbers::number;
use crate::token::TokenKind;
use crate::words::{begins_word, reserved, word_length};

/// What stands at the front of a text: so many bytes, which are a token of this kind, or a blank or a comment.
#[derive(Clone, Copy)]
pub(crate) struct Front {
    pub(crate) kind: Option<TokenKind>,
    pub(crate) length: usize,
}

/// The word at the front.
fn word(text: &[u8]) -> Front
    requires { IsTrue (begins_word (slice_index text.now 0)) }
    ensures { IsFront text.now result.kind result.length }
{
    let length = word_length(text);
    let kind = match reserved(&text[..length]) {
        Some(word) => TokenKind::Reserved(word),
        None => TokenKind::Name,
    };
    Front {
        kind: Some(kind),
        length,
    }
}

/// What stands at the front of a text that isn't empty.
pub(crate) fn front_of(text: &[u8]) -> Result<Front, Fault>
    requires { 0 < length text.now }
    ensures { MatchResult result (λ front. IsFront text.now front.kind front.length) (IsFault text.now) }
{
    match text {
        [b' ' | b'\t' | b'\n' | b'\r', ..] => Ok(Front {
            kind: None,
            length: 1,
        }),
        [b'/', b'/', ..] => Ok(line_comment(text)),
        [b'/', b'*', ..] => block_comment(text).ok_or(Fault::Unclosed),
        [b'\'', ..] => quoted(text),
        [b'0'..=b'9', ..] => number(text).ok_or(Fault::Number),
        [first, ..] if begins_word(*first) => Ok(word(text)),
        _ => mark(text).ok_or(Fault::Stray),
    }
}
