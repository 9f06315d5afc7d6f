ghost use Rattle.std.specs.Prelude.{◌≡◌, ◌<◌, ◌≤◌, length, slice_index, MatchResult};
ghost use Rattle.std.specs.List.{prefix_len};
ghost use Rattle.hll_lexer.specs.Pieces.{is_quotable, IsFront, IsFault};
ghost use Rattle.hll_lexer.specs.Names.{named_bytes};
ghost use Rattle.hll_lexer.specs.Words.{is_plain_name as is_plain};

use crate::fault::Fault;
use crate::front::Front;
use crate::token::{Token, TokenKind};
use crate::words::{all_continue_word, begins_word, reserved};

fn is_quotable(byte: u8) -> bool
    ensures { result ≡ is_quotable byte }
{
    matches!(byte, b' '..=b'~') && byte != b'\''
}

/// The number of bytes at the front that may stand between quotes.
fn run_length(text: &[u8]) -> usize
    ensures { result ≡ prefix_len is_quotable text.now }
{
    text.iter().take_while(|byte| is_quotable(**byte)).count()
}

/// The name in quotes at the front.
pub(crate) fn quoted(text: &[u8]) -> Result<Front, Fault>
    requires some { 0 < length text.now }
    requires quote { slice_index text.now 0 ≡ 39 }
    ensures { MatchResult result (λ front. IsFront text.now front.kind front.length) (IsFault text.now) }
{
    let inner = &text[1..];
    let length = run_length(inner);
    if length == inner.len() || inner[length] != b'\'' {
        Err(Fault::Unclosed)
    } else if length == 0 {
        Err(Fault::Stray)
    } else {
        Ok(Front {
            kind: Some(TokenKind::Name),
            length: length + 2,
        })
    }
}

/// What a name's token names: the bytes between its quotes, or all of its bytes where it has none.
pub fn name_bytes<'a>(text: &'a [u8], token: &Token) -> &'a [u8]
    requires order { token.now.from ≤ token.now.to }
    requires within { token.now.to ≤ length text.now }
    ensures { result.now ≡ named_bytes text.now token.now }
{
    match &text[token.from..token.to] {
        [b'\'', inner @ ..] => &inner[..inner.len().saturating_sub(1)],
        bytes => bytes,
    }
}

/// Whether a name of these bytes needs no quotes.
pub fn is_plain_name(bytes: &[u8]) -> bool
    ensures { result ≡ is_plain bytes.now }
{
    match bytes {
        [] => false,
        [first, rest @ ..] => {
            begins_word(*first) && all_continue_word(rest) && reserved(bytes).is_none()
        }
    }
}
