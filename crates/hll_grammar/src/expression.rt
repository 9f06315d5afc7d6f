//! Expressions, by how tightly their operators bind. Only what opens a level recurses; a chain is a loop.

ghost use Rattle.std.specs.Prelude.{◌≡◌, ◌≤◌};
ghost use Rattle.hll_tree.specs.Spells.{Many, Listed, IsExpression, IsChoice, IsBranch, IsLink};
ghost use Rattle.hll_grammar.specs.Lookahead.{after_expression, after_comparison, list_goes_on};
ghost use Rattle.hll_grammar.specs.Operations.{IsTighter, IsChainOf, IsCompared, after_tighter, after_chain};
ghost use Rattle.hll_grammar.specs.Pieces.{AreElifs, after_elifs};
ghost use Rattle.hll_grammar.specs.Reading.{Reads};

use crate::cursor::Cursor;
use crate::fault::SyntaxFault;
use crate::nodes::{chain_node, choice_node, comparison_node};
use crate::primary::operand;
use crate::reading::push;
use hll_lexer::{Mark, Reserved};
use hll_tree::{Branch, Expr, Link, Precedence};
use sqlite_items::Items;
use std::alloc::Global;

/// An expression, where so many more levels may be opened.
#[cycle(expression)]
pub fn expression(alloc: Global, cursor: &mut Cursor<'_>, room: u8) -> Result<Expr, SyntaxFault>
    requires { room ≤ 200 }
    ensures text { cursor.new.text ≡ cursor.old.text }
    ensures reads { Reads IsExpression after_expression
        cursor.old.text room cursor.old.rest cursor.new.rest result }
{
    if cursor.sees_word(Reserved::If) {
        choice(alloc, cursor, room)
    } else {
        chain(alloc, cursor, room, Precedence::Equivalence)
    }
}

/// An expression inside a level that was opened here.
#[cycle(expression)]
pub fn inside(alloc: Global, cursor: &mut Cursor<'_>, room: u8) -> Result<Expr, SyntaxFault>
    requires some { 1 ≤ room }
    requires few { room ≤ 200 }
    ensures text { cursor.new.text ≡ cursor.old.text }
    ensures reads { Reads (λ s. s.expression) after_expression
        cursor.old.text room cursor.old.rest cursor.new.rest result }
{
    expression(alloc, cursor, room - 1)
}

/// `if` with its branches and `else`.
#[cycle(expression)]
fn choice(alloc: Global, cursor: &mut Cursor<'_>, room: u8) -> Result<Expr, SyntaxFault>
    requires { room ≤ 200 }
    ensures text { cursor.new.text ≡ cursor.old.text }
    ensures reads { Reads IsChoice after_expression
        cursor.old.text room cursor.old.rest cursor.new.rest result }
{
    let token = cursor.expect_if(room)?;
    let first = branch(alloc, cursor, room)?;
    let others = elifs(alloc, cursor, room)?;
    cursor.expect_word(Reserved::Else)?;
    let otherwise = inside(alloc, cursor, room)?;
    choice_node(alloc, token, first, others, otherwise)
}

/// A branch for each `elif`.
#[cycle(expression)]
fn elifs(alloc: Global, cursor: &mut Cursor<'_>, room: u8) -> Result<Items<Branch>, SyntaxFault>
    requires some { 1 ≤ room }
    requires few { room ≤ 200 }
    ensures text { cursor.new.text ≡ cursor.old.text }
    ensures reads { Reads AreElifs after_elifs
        cursor.old.text room cursor.old.rest cursor.new.rest result }
{
    let mut branches = Items::new(alloc);
    'further: while let Some(_elif) = cursor.accept_word(Reserved::Elif) {
        let branch = branch(alloc, cursor, room)?;
        push(&mut branches, branch)?;
    }
    Ok(branches)
}

/// A condition, `then`, and what stands for it.
#[cycle(expression)]
fn branch(alloc: Global, cursor: &mut Cursor<'_>, room: u8) -> Result<Branch, SyntaxFault>
    requires some { 1 ≤ room }
    requires few { room ≤ 200 }
    ensures text { cursor.new.text ≡ cursor.old.text }
    ensures reads { Reads IsBranch after_expression
        cursor.old.text room cursor.old.rest cursor.new.rest result }
{
    let when = inside(alloc, cursor, room)?;
    cursor.expect_word(Reserved::Then)?;
    let gives = inside(alloc, cursor, room)?;
    Ok(Branch { when, gives })
}

/// One operand, or several with operators between them that bind so.
#[cycle(expression)]
fn chain(
    alloc: Global,
    cursor: &mut Cursor<'_>,
    room: u8,
    precedence: Precedence,
) -> Result<Expr, SyntaxFault>
    requires { room ≤ 200 }
    ensures text { cursor.new.text ≡ cursor.old.text }
    ensures reads { Reads (IsChainOf precedence) (after_chain precedence)
        cursor.old.text room cursor.old.rest cursor.new.rest result }
{
    let first = tighter(alloc, cursor, room, precedence)?;
    let links = links(alloc, cursor, room, precedence)?;
    chain_node(alloc, first, links)
}

/// The operators that bind so, each with its right operand.
#[cycle(expression)]
fn links(
    alloc: Global,
    cursor: &mut Cursor<'_>,
    room: u8,
    precedence: Precedence,
) -> Result<Items<Link>, SyntaxFault>
    requires { room ≤ 200 }
    ensures text { cursor.new.text ≡ cursor.old.text }
    ensures reads { Reads (λ s. Many (IsLink precedence (IsTighter precedence s))) (after_chain precedence)
        cursor.old.text room cursor.old.rest cursor.new.rest result }
{
    let mut links = Items::new(alloc);
    'further: while let Some((sign, op)) = cursor.accept_sign(precedence) {
        let with = tighter(alloc, cursor, room, precedence)?;
        let at = sign.from as u64;
        push(&mut links, Link { op, at, with })?;
    }
    Ok(links)
}

/// An operand of the operators that bind so.
#[cycle(expression)]
fn tighter(
    alloc: Global,
    cursor: &mut Cursor<'_>,
    room: u8,
    precedence: Precedence,
) -> Result<Expr, SyntaxFault>
    requires { room ≤ 200 }
    ensures text { cursor.new.text ≡ cursor.old.text }
    ensures reads { Reads (IsTighter precedence) (after_tighter precedence)
        cursor.old.text room cursor.old.rest cursor.new.rest result }
{
    match precedence {
        Precedence::Equivalence => chain(alloc, cursor, room, Precedence::Implication),
        Precedence::Implication => chain(alloc, cursor, room, Precedence::Disjunction),
        Precedence::Disjunction => chain(alloc, cursor, room, Precedence::Conjunction),
        Precedence::Conjunction => comparison(alloc, cursor, room),
        Precedence::Sum => chain(alloc, cursor, room, Precedence::Product),
        Precedence::Product => operand(alloc, cursor, room),
    }
}

/// One sum, or two that are compared.
#[cycle(expression)]
fn comparison(alloc: Global, cursor: &mut Cursor<'_>, room: u8) -> Result<Expr, SyntaxFault>
    requires { room ≤ 200 }
    ensures text { cursor.new.text ≡ cursor.old.text }
    ensures reads { Reads IsCompared after_comparison
        cursor.old.text room cursor.old.rest cursor.new.rest result }
{
    let left = chain(alloc, cursor, room, Precedence::Sum)?;
    let Some((sign, comparison)) = cursor.accept_comparison() else {
        return Ok(left);
    };
    let right = chain(alloc, cursor, room, Precedence::Sum)?;
    comparison_node(alloc, sign, comparison, left, right)
}

/// One or more expressions inside a level, parted by commas.
#[cycle(expression)]
pub fn expressions(
    alloc: Global,
    cursor: &mut Cursor<'_>,
    room: u8,
) -> Result<Items<Expr>, SyntaxFault>
    requires some { 1 ≤ room }
    requires few { room ≤ 200 }
    ensures text { cursor.new.text ≡ cursor.old.text }
    ensures reads { Reads (λ s. Listed s.expression) (list_goes_on after_expression)
        cursor.old.text room cursor.old.rest cursor.new.rest result }
{
    let mut items = Items::new(alloc);
    let first = inside(alloc, cursor, room)?;
    push(&mut items, first)?;
    'further: while let Some(_comma) = cursor.accept(Mark::Comma) {
        let item = inside(alloc, cursor, room)?;
        push(&mut items, item)?;
    }
    Ok(items)
}
