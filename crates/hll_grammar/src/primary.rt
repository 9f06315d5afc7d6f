//! Operands: what stands on either side of the operators that bind most tightly.

ghost use Rattle.std.specs.Prelude.{◌≡◌, ◌≤◌, ℕ};
ghost use Rattle.hll_tree.specs.Spells.{IsOperand, IsMinus, IsNot, IsNumber, IsTruth, IsPath, IsField, AreIndices, IsParenthesised, IsGroup, IsPre, AreOperands, IsLeast, IsGreatest, IsSize};
ghost use Rattle.hll_grammar.specs.Lookahead.{nothing, holds, begins_operand, after_operand, after_expression, list_goes_on};
ghost use Rattle.hll_grammar.specs.Pieces.{IsReach, IsFirstValue};
ghost use Rattle.hll_grammar.specs.Reading.{Reads};
ghost use Rattle.hll_grammar.specs.Starts.{start_of_word as start_of_word_lem, start_of_mark as start_of_mark_lem, start_of_next, is_start};
ghost use Rattle.hll_grammar.specs.Unread.{starts};

use crate::cursor::Cursor;
use crate::expression::{expressions, inside};
use crate::fault::SyntaxFault;
use crate::nodes::{at_token, minus_node, not_node, pre_node, put_first, size_node, some_boxed};
use crate::quantifier::quantifier;
use crate::reading::{append, push};
use hll_lexer::{Mark, Reserved, TokenKind};
use hll_tree::{Expr, Form, Quant, Reach};
use sqlite_items::{Boxed, Items};
use std::alloc::Global;

/// With what an operand begins.
#[derive(Clone, Copy, PartialEq, Eq)]
enum Start {
    Minus,
    Not,
    Number,
    Truth,
    Name,
    Parenthesis,
    Brace,
    Quantifier(Quant),
    Pre,
    Least,
    Greatest,
    Size,
    /// No operand begins so.
    Other,
}

/// With what an operand begins, if this is its first token.
fn start_of_word(word: Reserved) -> Start
    ensures { result ≡ start_of_word_lem word }
{
    match word {
        Reserved::True | Reserved::False => Start::Truth,
        Reserved::All => Start::Quantifier(Quant::All),
        Reserved::Some => Start::Quantifier(Quant::Any),
        Reserved::Sum => Start::Quantifier(Quant::Sum),
        Reserved::Pre => Start::Pre,
        _ => Start::Other,
    }
}

fn start_of_mark(mark: Mark) -> Start
    ensures { result ≡ start_of_mark_lem mark }
{
    match mark {
        Mark::Minus => Start::Minus,
        Mark::Not => Start::Not,
        Mark::Open => Start::Parenthesis,
        Mark::OpenBrace => Start::Brace,
        Mark::Min => Start::Least,
        Mark::Max => Start::Greatest,
        Mark::Abs => Start::Size,
        _ => Start::Other,
    }
}

fn start_of(kind: Option<TokenKind>) -> Start
    ensures { result ≡ start_of_next kind }
{
    match kind {
        None => Start::Other,
        Some(TokenKind::Name) => Start::Name,
        Some(TokenKind::Number(_)) => Start::Number,
        Some(TokenKind::Reserved(word)) => start_of_word(word),
        Some(TokenKind::Mark(mark)) => start_of_mark(mark),
    }
}

fn begins_operand_so(start: Start) -> bool
    ensures { result ≡ is_start start }
{
    match start {
        Start::Other => false,
        Start::Minus
        | Start::Not
        | Start::Number
        | Start::Truth
        | Start::Name
        | Start::Parenthesis
        | Start::Brace
        | Start::Quantifier(_)
        | Start::Pre
        | Start::Least
        | Start::Greatest
        | Start::Size => true,
    }
}

/// Whether an operand begins with the next token.
pub fn is_operand_next(cursor: &Cursor<'_>) -> bool
    ensures { result ≡ starts begins_operand cursor.now.rest }
{
    begins_operand_so(start_of(cursor.peek()))
}

/// An operand.
#[cycle(expression)]
pub fn operand(alloc: Global, cursor: &mut Cursor<'_>, room: u8) -> Result<Expr, SyntaxFault>
    requires { room ≤ 200 }
    ensures text { cursor.new.text ≡ cursor.old.text }
    ensures reads { Reads IsOperand after_operand
        cursor.old.text room cursor.old.rest cursor.new.rest result }
{
    match start_of(cursor.peek()) {
        Start::Minus => minus(alloc, cursor, room),
        Start::Not => not(alloc, cursor, room),
        Start::Number => number(cursor),
        Start::Truth => truth(cursor),
        Start::Name => path(alloc, cursor, room),
        Start::Parenthesis => parenthesised(alloc, cursor, room),
        Start::Brace => group(alloc, cursor, room),
        Start::Quantifier(quant) => quantifier(alloc, cursor, room, quant),
        Start::Pre => pre(alloc, cursor, room),
        Start::Least => least(alloc, cursor, room),
        Start::Greatest => greatest(alloc, cursor, room),
        Start::Size => size(alloc, cursor, room),
        Start::Other => Err(cursor.unexpected()),
    }
}

/// `-` before an operand.
#[cycle(expression)]
fn minus(alloc: Global, cursor: &mut Cursor<'_>, room: u8) -> Result<Expr, SyntaxFault>
    requires { room ≤ 200 }
    ensures text { cursor.new.text ≡ cursor.old.text }
    ensures reads { Reads IsMinus after_operand
        cursor.old.text room cursor.old.rest cursor.new.rest result }
{
    let token = cursor.opening(Mark::Minus, room)?;
    let inner = operand(alloc, cursor, room - 1)?;
    minus_node(alloc, token, inner)
}

/// `~` before an operand.
#[cycle(expression)]
fn not(alloc: Global, cursor: &mut Cursor<'_>, room: u8) -> Result<Expr, SyntaxFault>
    requires { room ≤ 200 }
    ensures text { cursor.new.text ≡ cursor.old.text }
    ensures reads { Reads IsNot after_operand
        cursor.old.text room cursor.old.rest cursor.new.rest result }
{
    let token = cursor.opening(Mark::Not, room)?;
    let inner = operand(alloc, cursor, room - 1)?;
    not_node(alloc, token, inner)
}

pub fn number(cursor: &mut Cursor<'_>) -> Result<Expr, SyntaxFault>
    ensures text { cursor.new.text ≡ cursor.old.text }
    ensures reads { (room : ℕ) → Reads (λ s. IsNumber) nothing
        cursor.old.text room cursor.old.rest cursor.new.rest result }
{
    let Some((token, value)) = cursor.accept_number() else {
        return Err(cursor.unexpected());
    };
    let at = token.from as u64;
    let form = Form::Number(value);
    Ok(Expr { at, form })
}

fn truth(cursor: &mut Cursor<'_>) -> Result<Expr, SyntaxFault>
    ensures text { cursor.new.text ≡ cursor.old.text }
    ensures reads { (room : ℕ) → Reads (λ s. IsTruth) nothing
        cursor.old.text room cursor.old.rest cursor.new.rest result }
{
    if let Some(token) = cursor.accept_word(Reserved::True) {
        return Ok(at_token(token, Form::Truth(true)));
    }
    if let Some(token) = cursor.accept_word(Reserved::False) {
        return Ok(at_token(token, Form::Truth(false)));
    }
    Err(cursor.unexpected())
}

/// A name, and what is reached through it.
#[cycle(expression)]
fn path(alloc: Global, cursor: &mut Cursor<'_>, room: u8) -> Result<Expr, SyntaxFault>
    requires { room ≤ 200 }
    ensures text { cursor.new.text ≡ cursor.old.text }
    ensures reads { Reads IsPath after_operand
        cursor.old.text room cursor.old.rest cursor.new.rest result }
{
    let name = cursor.name(alloc)?;
    let mut reaches = Items::new(alloc);
    'further: while is_reach_next(cursor) {
        let more = reach(alloc, cursor, room)?;
        append(&mut reaches, more)?;
    }
    let at = name.at;
    let form = Form::Path(name, reaches);
    Ok(Expr { at, form })
}

/// Whether an index or a field stands next.
fn is_reach_next(cursor: &Cursor<'_>) -> bool
    ensures { result ≡ starts after_operand cursor.now.rest }
{
    match cursor.peek() {
        None => false,
        Some(kind) => begins_reach(kind),
    }
}

fn begins_reach(kind: TokenKind) -> bool
    ensures { result ≡ holds after_operand kind }
{
    match kind {
        TokenKind::Name | TokenKind::Number(_) | TokenKind::Reserved(_) => false,
        TokenKind::Mark(mark) => is_reach_mark(mark),
    }
}

#[tactic(auto, unfolding(crate::specs::Lookahead::mark_number))]
fn is_reach_mark(mark: Mark) -> bool
    ensures { result ≡ holds after_operand (TokenKind.Mark mark) }
{
    match mark {
        Mark::OpenBracket | Mark::Dot => true,
        _ => false,
    }
}

/// One or more indices in one pair of brackets, or a field.
#[cycle(expression)]
fn reach(alloc: Global, cursor: &mut Cursor<'_>, room: u8) -> Result<Items<Reach>, SyntaxFault>
    requires { room ≤ 200 }
    ensures text { cursor.new.text ≡ cursor.old.text }
    ensures reads { Reads IsReach nothing
        cursor.old.text room cursor.old.rest cursor.new.rest result }
{
    if cursor.sees(Mark::OpenBracket) {
        indices(alloc, cursor, room)
    } else {
        field(alloc, cursor)
    }
}

/// A point and the name of a field.
fn field(alloc: Global, cursor: &mut Cursor<'_>) -> Result<Items<Reach>, SyntaxFault>
    ensures text { cursor.new.text ≡ cursor.old.text }
    ensures reads { (room : ℕ) → Reads IsField nothing
        cursor.old.text room cursor.old.rest cursor.new.rest result }
{
    cursor.expect(Mark::Dot)?;
    let name = cursor.name(alloc)?;
    let mut field = Items::new(alloc);
    push(&mut field, Reach::Field(name))?;
    Ok(field)
}

/// One or more indices in brackets.
#[cycle(expression)]
fn indices(alloc: Global, cursor: &mut Cursor<'_>, room: u8) -> Result<Items<Reach>, SyntaxFault>
    requires { room ≤ 200 }
    ensures text { cursor.new.text ≡ cursor.old.text }
    ensures reads { Reads AreIndices nothing
        cursor.old.text room cursor.old.rest cursor.new.rest result }
{
    cursor.opening(Mark::OpenBracket, room)?;
    let first = inside(alloc, cursor, room)?;
    let mut indices = Items::new(alloc);
    push(&mut indices, Reach::At(first))?;
    'further: while let Some(_comma) = cursor.accept(Mark::Comma) {
        let index = inside(alloc, cursor, room)?;
        push(&mut indices, Reach::At(index))?;
    }
    cursor.expect(Mark::CloseBracket)?;
    Ok(indices)
}

/// An expression in parentheses, which leave no trace in the tree.
#[cycle(expression)]
pub fn parenthesised(alloc: Global, cursor: &mut Cursor<'_>, room: u8) -> Result<Expr, SyntaxFault>
    requires { room ≤ 200 }
    ensures text { cursor.new.text ≡ cursor.old.text }
    ensures reads { Reads IsParenthesised nothing
        cursor.old.text room cursor.old.rest cursor.new.rest result }
{
    cursor.opening(Mark::Open, room)?;
    let inner = inside(alloc, cursor, room)?;
    cursor.expect(Mark::Close)?;
    Ok(inner)
}

/// The parts of an array or a struct, in braces.
#[cycle(expression)]
fn group(alloc: Global, cursor: &mut Cursor<'_>, room: u8) -> Result<Expr, SyntaxFault>
    requires { room ≤ 200 }
    ensures text { cursor.new.text ≡ cursor.old.text }
    ensures reads { Reads IsGroup nothing
        cursor.old.text room cursor.old.rest cursor.new.rest result }
{
    let token = cursor.opening(Mark::OpenBrace, room)?;
    let parts = expressions(alloc, cursor, room)?;
    cursor.expect(Mark::CloseBrace)?;
    Ok(at_token(token, Form::Group(parts)))
}

/// `pre`, and in parentheses an expression and perhaps a first value.
#[cycle(expression)]
fn pre(alloc: Global, cursor: &mut Cursor<'_>, room: u8) -> Result<Expr, SyntaxFault>
    requires { room ≤ 200 }
    ensures text { cursor.new.text ≡ cursor.old.text }
    ensures reads { Reads IsPre nothing
        cursor.old.text room cursor.old.rest cursor.new.rest result }
{
    let token = cursor.expect_word(Reserved::Pre)?;
    cursor.opening(Mark::Open, room)?;
    let before = inside(alloc, cursor, room)?;
    let first = first_value(alloc, cursor, room)?;
    cursor.expect(Mark::Close)?;
    pre_node(alloc, token, before, first)
}

/// A comma and an expression, or nothing.
#[cycle(expression)]
fn first_value(
    alloc: Global,
    cursor: &mut Cursor<'_>,
    room: u8,
) -> Result<Option<Boxed<Expr>>, SyntaxFault>
    requires some { 1 ≤ room }
    requires few { room ≤ 200 }
    ensures text { cursor.new.text ≡ cursor.old.text }
    ensures reads { Reads IsFirstValue (list_goes_on after_expression)
        cursor.old.text room cursor.old.rest cursor.new.rest result }
{
    let Some(_comma) = cursor.accept(Mark::Comma) else {
        return Ok(None);
    };
    let first = inside(alloc, cursor, room)?;
    some_boxed(alloc, first)
}

/// In parentheses two or more expressions.
#[cycle(expression)]
fn operands(alloc: Global, cursor: &mut Cursor<'_>, room: u8) -> Result<Items<Expr>, SyntaxFault>
    requires { room ≤ 200 }
    ensures text { cursor.new.text ≡ cursor.old.text }
    ensures reads { Reads AreOperands nothing
        cursor.old.text room cursor.old.rest cursor.new.rest result }
{
    cursor.opening(Mark::Open, room)?;
    let first = inside(alloc, cursor, room)?;
    cursor.expect(Mark::Comma)?;
    let others = expressions(alloc, cursor, room)?;
    cursor.expect(Mark::Close)?;
    put_first(alloc, first, others)
}

/// `$min` and its operands.
#[cycle(expression)]
fn least(alloc: Global, cursor: &mut Cursor<'_>, room: u8) -> Result<Expr, SyntaxFault>
    requires { room ≤ 200 }
    ensures text { cursor.new.text ≡ cursor.old.text }
    ensures reads { Reads IsLeast nothing
        cursor.old.text room cursor.old.rest cursor.new.rest result }
{
    let token = cursor.expect(Mark::Min)?;
    let operands = operands(alloc, cursor, room)?;
    Ok(at_token(token, Form::Least(operands)))
}

/// `$max` and its operands.
#[cycle(expression)]
fn greatest(alloc: Global, cursor: &mut Cursor<'_>, room: u8) -> Result<Expr, SyntaxFault>
    requires { room ≤ 200 }
    ensures text { cursor.new.text ≡ cursor.old.text }
    ensures reads { Reads IsGreatest nothing
        cursor.old.text room cursor.old.rest cursor.new.rest result }
{
    let token = cursor.expect(Mark::Max)?;
    let operands = operands(alloc, cursor, room)?;
    Ok(at_token(token, Form::Greatest(operands)))
}

/// `$abs` and its operand.
#[cycle(expression)]
fn size(alloc: Global, cursor: &mut Cursor<'_>, room: u8) -> Result<Expr, SyntaxFault>
    requires { room ≤ 200 }
    ensures text { cursor.new.text ≡ cursor.old.text }
    ensures reads { Reads IsSize nothing
        cursor.old.text room cursor.old.rest cursor.new.rest result }
{
    let token = cursor.expect(Mark::Abs)?;
    let inner = parenthesised(alloc, cursor, room)?;
    size_node(alloc, token, inner)
}
