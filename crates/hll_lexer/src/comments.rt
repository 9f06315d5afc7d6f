ghost use Rattle.std.specs.Prelude.{◌≡◌, take, codes, MatchOption, not};
ghost use Rattle.std.specs.List.{prefix_len};
ghost use Rattle.hll_lexer.specs.Place.{is_line_feed};
ghost use Rattle.hll_lexer.specs.Pieces.{ClosesAt, IsFront, IsOpen, IsUnclosed};

use crate::front::Front;

/// The number of bytes before the first line feed, or of all where there is none.
fn line_length(text: &[u8]) -> usize
    ensures { result ≡ prefix_len (λ b. not (is_line_feed b)) text.now }
{
    text.iter().take_while(|byte| **byte != b'\n').count()
}

/// The number of bytes up to the first `*/` and with it.
fn closed_length(text: &[u8]) -> Option<usize>
    ensures { MatchOption result (IsUnclosed text.now) (ClosesAt text.now) }
{
    for i in 1..text.len() {
        if text[i - 1] == b'*' && text[i] == b'/' {
            return Some(i + 1);
        }
    }
    None
}

/// The comment at the front that ends with its line.
pub(crate) fn line_comment(text: &[u8]) -> Front
    requires { take 2 text.now ≡ codes "//" }
    ensures { IsFront text.now result.kind result.length }
{
    Front {
        kind: None,
        length: 2 + line_length(&text[2..]),
    }
}

/// The comment at the front that ends with `*/`, if it is closed.
pub(crate) fn block_comment(text: &[u8]) -> Option<Front>
    requires { take 2 text.now ≡ codes "/*" }
    ensures { MatchOption result (IsOpen text.now) (λ front. IsFront text.now front.kind front.length) }
{
    let length = 2 + closed_length(&text[2..])?;
    Some(Front { kind: None, length })
}
