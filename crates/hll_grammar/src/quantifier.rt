//! Quantifiers, with their binds, and ranges.

ghost use Rattle.std.specs.Prelude.{◌≡◌, ◌≤◌, ℕ};
ghost use Rattle.hll_tree.specs.Spells.{IsQuantifierOf, IsBound, IsDomain, AreBounds, word_of as word_of_lem};
ghost use Rattle.hll_grammar.specs.Lookahead.{nothing};
ghost use Rattle.hll_grammar.specs.Pieces.{InParentheses, IsBody, IsFurther, IsRange, IsNamedDomain, IsBoolDomain};
ghost use Rattle.hll_grammar.specs.Reading.{Reads};

use crate::cursor::Cursor;
use crate::expression::inside;
use crate::fault::SyntaxFault;
use crate::nodes::{quantifier_node, range_node};
use hll_lexer::{Mark, Reserved};
use hll_tree::{Domain, Expr, Name, Quant};
use std::alloc::Global;

/// A bound name, and its domain with what the quantifier is over.
type Bound = (Name, (Domain, Expr));

fn word_of(quant: Quant) -> Reserved
    ensures { result ≡ word_of_lem quant }
{
    match quant {
        Quant::All => Reserved::All,
        Quant::Any => Reserved::Some,
        Quant::Sum => Reserved::Sum,
    }
}

/// A quantifier of this kind.
#[cycle(expression)]
pub fn quantifier(
    alloc: Global,
    cursor: &mut Cursor<'_>,
    room: u8,
    quant: Quant,
) -> Result<Expr, SyntaxFault>
    requires { room ≤ 200 }
    ensures text { cursor.new.text ≡ cursor.old.text }
    ensures reads { Reads (λ s. IsQuantifierOf s quant) nothing
        cursor.old.text room cursor.old.rest cursor.new.rest result }
{
    let token = cursor.expect_word(word_of(quant))?;
    let bound = bound(alloc, cursor, room, quant)?;
    quantifier_node(alloc, quant, token.from as u64, bound)
}

/// A bind, and behind it in parentheses what the quantifier is over, or a comma and a further bind.
#[cycle(expression)]
fn bound(
    alloc: Global,
    cursor: &mut Cursor<'_>,
    room: u8,
    quant: Quant,
) -> Result<Bound, SyntaxFault>
    requires { room ≤ 200 }
    ensures text { cursor.new.text ≡ cursor.old.text }
    ensures reads { Reads (λ s. IsBound s quant) nothing
        cursor.old.text room cursor.old.rest cursor.new.rest result }
{
    let name = cursor.bound_name(alloc, room)?;
    cursor.expect(Mark::Colon)?;
    let domain = domain(alloc, cursor, room - 1)?;
    let body = body(alloc, cursor, room, quant)?;
    Ok((name, (domain, body)))
}

#[cycle(expression)]
fn body(alloc: Global, cursor: &mut Cursor<'_>, room: u8, quant: Quant) -> Result<Expr, SyntaxFault>
    requires some { 1 ≤ room }
    requires few { room ≤ 200 }
    ensures text { cursor.new.text ≡ cursor.old.text }
    ensures reads { Reads (IsBody quant) nothing
        cursor.old.text room cursor.old.rest cursor.new.rest result }
{
    if cursor.sees(Mark::Comma) {
        further(alloc, cursor, room, quant)
    } else {
        in_parentheses(alloc, cursor, room)
    }
}

/// In parentheses what a quantifier is over.
#[cycle(expression)]
fn in_parentheses(alloc: Global, cursor: &mut Cursor<'_>, room: u8) -> Result<Expr, SyntaxFault>
    requires some { 1 ≤ room }
    requires few { room ≤ 200 }
    ensures text { cursor.new.text ≡ cursor.old.text }
    ensures reads { Reads InParentheses nothing
        cursor.old.text room cursor.old.rest cursor.new.rest result }
{
    cursor.expect(Mark::Open)?;
    let body = inside(alloc, cursor, room)?;
    cursor.expect(Mark::Close)?;
    Ok(body)
}

/// A comma and a further bind.
#[cycle(expression)]
fn further(
    alloc: Global,
    cursor: &mut Cursor<'_>,
    room: u8,
    quant: Quant,
) -> Result<Expr, SyntaxFault>
    requires some { 1 ≤ room }
    requires few { room ≤ 200 }
    ensures text { cursor.new.text ≡ cursor.old.text }
    ensures reads { Reads (IsFurther quant) nothing
        cursor.old.text room cursor.old.rest cursor.new.rest result }
{
    cursor.expect(Mark::Comma)?;
    let bound = bound(alloc, cursor, room - 1, quant)?;
    let at = bound.0.at;
    quantifier_node(alloc, quant, at, bound)
}

/// The domain of a bound name.
#[cycle(expression)]
fn domain(alloc: Global, cursor: &mut Cursor<'_>, room: u8) -> Result<Domain, SyntaxFault>
    requires { room ≤ 200 }
    ensures text { cursor.new.text ≡ cursor.old.text }
    ensures reads { Reads IsDomain nothing
        cursor.old.text room cursor.old.rest cursor.new.rest result }
{
    if cursor.sees(Mark::OpenBracket) {
        range(alloc, cursor, room)
    } else if cursor.sees_name() {
        named_domain(alloc, cursor)
    } else {
        bool_domain(cursor)
    }
}

/// A name as a domain.
fn named_domain(alloc: Global, cursor: &mut Cursor<'_>) -> Result<Domain, SyntaxFault>
    ensures text { cursor.new.text ≡ cursor.old.text }
    ensures reads { (room : ℕ) → Reads IsNamedDomain nothing
        cursor.old.text room cursor.old.rest cursor.new.rest result }
{
    let name = cursor.name(alloc)?;
    Ok(Domain::Named(name))
}

/// `bool` as a domain.
fn bool_domain(cursor: &mut Cursor<'_>) -> Result<Domain, SyntaxFault>
    ensures text { cursor.new.text ≡ cursor.old.text }
    ensures reads { (room : ℕ) → Reads IsBoolDomain nothing
        cursor.old.text room cursor.old.rest cursor.new.rest result }
{
    cursor.expect_word(Reserved::Bool)?;
    Ok(Domain::Bool)
}

/// A range as a domain.
#[cycle(expression)]
fn range(alloc: Global, cursor: &mut Cursor<'_>, room: u8) -> Result<Domain, SyntaxFault>
    requires { room ≤ 200 }
    ensures text { cursor.new.text ≡ cursor.old.text }
    ensures reads { Reads IsRange nothing
        cursor.old.text room cursor.old.rest cursor.new.rest result }
{
    let (least, greatest) = bounds(alloc, cursor, room)?;
    range_node(alloc, least, greatest)
}

/// Two bounds in brackets: the least and the greatest value.
#[cycle(expression)]
pub fn bounds(alloc: Global, cursor: &mut Cursor<'_>, room: u8) -> Result<(Expr, Expr), SyntaxFault>
    requires { room ≤ 200 }
    ensures text { cursor.new.text ≡ cursor.old.text }
    ensures reads { Reads AreBounds nothing
        cursor.old.text room cursor.old.rest cursor.new.rest result }
{
    cursor.opening(Mark::OpenBracket, room)?;
    let least = inside(alloc, cursor, room)?;
    cursor.expect(Mark::Comma)?;
    let greatest = inside(alloc, cursor, room)?;
    cursor.expect(Mark::CloseBracket)?;
    Ok((least, greatest))
}
