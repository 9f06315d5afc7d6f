//! Nodes of the tree, for which there must be memory.

ghost use Rattle.std.specs.Prelude.{◌≡◌, ◌∷◌, Some, IfOk};
ghost use Rattle.std.specs.Result.{IsOkUnless};
ghost use Rattle.hll_tree.specs.Spells.{expression_at, chain_of, quantified};

use crate::fault::SyntaxFault;
use crate::reading::{append, boxed, push};
use hll_lexer::Token;
use hll_tree::{Branch, Cmp, Domain, Expr, Form, Link, Name, Quant};
use sqlite_items::{Boxed, Items};
use std::alloc::Global;

/// An expression at the place of a token.
pub fn at_token(token: Token, form: Form) -> Expr
    ensures { result ≡ expression_at token form }
{
    let at = token.from as u64;
    Expr { at, form }
}

pub fn choice_node(
    alloc: Global,
    token: Token,
    first: Branch,
    others: Items<Branch>,
    otherwise: Expr,
) -> Result<Expr, SyntaxFault>
    ensures value { IfOk result (λ e. e ≡ expression_at token (Form.Choice (first ∷ others) otherwise)) }
    ensures memory { IsOkUnless result SyntaxFault.Memory }
{
    let branches = put_first(alloc, first, others)?;
    let otherwise = boxed(alloc, otherwise)?;
    Ok(at_token(token, Form::Choice(branches, otherwise)))
}

/// An operand alone, or a chain at the place of its first operator.
pub fn chain_node(alloc: Global, first: Expr, links: Items<Link>) -> Result<Expr, SyntaxFault>
    ensures value { IfOk result (λ e. e ≡ chain_of (first, links)) }
    ensures memory { IsOkUnless result SyntaxFault.Memory }
{
    match links.get(0) {
        None => Ok(first),
        Some(link) => {
            let at = link.at;
            let form = Form::Chain(boxed(alloc, first)?, links);
            Ok(Expr { at, form })
        }
    }
}

pub fn comparison_node(
    alloc: Global,
    token: Token,
    comparison: Cmp,
    left: Expr,
    right: Expr,
) -> Result<Expr, SyntaxFault>
    ensures value { IfOk result (λ e. e ≡ expression_at token (Form.Compare comparison left right)) }
    ensures memory { IsOkUnless result SyntaxFault.Memory }
{
    let left = boxed(alloc, left)?;
    let right = boxed(alloc, right)?;
    Ok(at_token(token, Form::Compare(comparison, left, right)))
}

pub fn minus_node(alloc: Global, token: Token, inner: Expr) -> Result<Expr, SyntaxFault>
    ensures value { IfOk result (λ e. e ≡ expression_at token (Form.Minus inner)) }
    ensures memory { IsOkUnless result SyntaxFault.Memory }
{
    Ok(at_token(token, Form::Minus(boxed(alloc, inner)?)))
}

pub fn not_node(alloc: Global, token: Token, inner: Expr) -> Result<Expr, SyntaxFault>
    ensures value { IfOk result (λ e. e ≡ expression_at token (Form.Not inner)) }
    ensures memory { IsOkUnless result SyntaxFault.Memory }
{
    Ok(at_token(token, Form::Not(boxed(alloc, inner)?)))
}

pub fn size_node(alloc: Global, token: Token, inner: Expr) -> Result<Expr, SyntaxFault>
    ensures value { IfOk result (λ e. e ≡ expression_at token (Form.Size inner)) }
    ensures memory { IsOkUnless result SyntaxFault.Memory }
{
    Ok(at_token(token, Form::Size(boxed(alloc, inner)?)))
}

pub fn pre_node(
    alloc: Global,
    token: Token,
    before: Expr,
    first: Option<Boxed<Expr>>,
) -> Result<Expr, SyntaxFault>
    ensures value { IfOk result (λ e. e ≡ expression_at token (Form.Pre before first)) }
    ensures memory { IsOkUnless result SyntaxFault.Memory }
{
    Ok(at_token(token, Form::Pre(boxed(alloc, before)?, first)))
}

/// A quantifier at a place.
pub fn quantifier_node(
    alloc: Global,
    quant: Quant,
    at: u64,
    bound: (Name, (Domain, Expr)),
) -> Result<Expr, SyntaxFault>
    ensures value { IfOk result (λ e. e ≡ quantified quant at bound) }
    ensures memory { IsOkUnless result SyntaxFault.Memory }
{
    let (name, (domain, body)) = bound;
    let form = Form::Quant(quant, name, domain, boxed(alloc, body)?);
    Ok(Expr { at, form })
}

/// A range as a domain.
pub fn range_node(alloc: Global, least: Expr, greatest: Expr) -> Result<Domain, SyntaxFault>
    ensures value { IfOk result (λ d. d ≡ Domain.Bounds least greatest) }
    ensures memory { IsOkUnless result SyntaxFault.Memory }
{
    let least = boxed(alloc, least)?;
    let greatest = boxed(alloc, greatest)?;
    Ok(Domain::Bounds(least, greatest))
}

pub fn some_boxed(alloc: Global, inner: Expr) -> Result<Option<Boxed<Expr>>, SyntaxFault>
    ensures value { IfOk result (λ o. o ≡ Some inner) }
    ensures memory { IsOkUnless result SyntaxFault.Memory }
{
    Ok(Some(boxed(alloc, inner)?))
}

/// One thing before others.
pub fn put_first<T: Drop>(
    alloc: Global,
    first: T,
    others: Items<T>,
) -> Result<Items<T>, SyntaxFault>
    ensures value { IfOk result (λ all. all ≡ first ∷ others) }
    ensures memory { IsOkUnless result SyntaxFault.Memory }
{
    let mut all = Items::new(alloc);
    push(&mut all, first)?;
    append(&mut all, others)?;
    Ok(all)
}
