//! The trees of texts.

ghost use Rattle.std.specs.Prelude.{IfOk};
ghost use Rattle.hll_meaning.specs.Texts.{HasText};

use hll_grammar::parse;
use hll_lexer::tokens;
use hll_tree::HllModel;
use std::alloc::Global;
use std::test::Fail;

/// The tree of a text.
pub fn model_of(alloc: Global, text: &[u8]) -> Result<HllModel, Fail>
    ensures { IfOk result HasText }
{
    let tokens = tokens(alloc, text)?;
    Ok(parse(alloc, text, &tokens)?)
}
