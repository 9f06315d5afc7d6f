ghost use Rattle.std.specs.Prelude.{◌≡◌, List, IfOk, Err};
ghost use Rattle.hll_lexer.specs.Tokens.{Splits, HasFault};
ghost use Rattle.hll_lexer.specs.declared.token.Token.{Token};

use crate::fault::LexFault;
use crate::front::front_of;
use crate::token::Token;
use std::alloc::Global;

/// The tokens of a text, in order.
pub fn tokens(alloc: Global, text: &[u8]) -> Result<Vec<Token>, LexFault>
    ensures split { IfOk result (λ tokens. Splits text.now tokens.items) }
    // No other tokens are.
    ensures only { IfOk result (λ tokens. (others : List Token) → Splits text.now others → others ≡ tokens.items) }
    ensures fault { (why : LexFault) → result ≡ Err why → (why ≡ LexFault.Memory → ⊥) → HasFault text.now why }
{
    // No text has more tokens than bytes, and what isn't written takes no memory.
    let mut tokens = Vec::with_capacity(alloc, text.len()).map_err(|_| LexFault::Memory)?;
    let mut from = 0;
    while from < text.len() {
        let front = match front_of(&text[from..]) {
            Ok(front) => front,
            Err(fault) => return Err(fault.at(from)),
        };
        let to = from + front.length;
        if let Some(kind) = front.kind {
            tokens
                .push(Token { kind, from, to })
                .map_err(|_| LexFault::Memory)?;
        }
        from = to;
    }
    Ok(tokens)
}
