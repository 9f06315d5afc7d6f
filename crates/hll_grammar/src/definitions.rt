//! Definitions of values and of memories.

ghost use Rattle.std.specs.Prelude.{◌≡◌, ℕ};
ghost use Rattle.hll_tree.specs.Spells.{IsSlot, IsLeftSide, IsPlainDefinition, IsMemoryDefinition, IsDefinition};
ghost use Rattle.hll_grammar.specs.Lookahead.{nothing, after_declarator, after_expression, list_goes_on};
ghost use Rattle.hll_grammar.specs.Pieces.{IsFixed, AreSlotsInBrackets, AreSlots, IsAfterComma, IsNextValue, IsPart, IsMemory};
ghost use Rattle.hll_grammar.specs.Reading.{Reads};

use crate::cursor::Cursor;
use crate::expression::expression;
use crate::fault::SyntaxFault;
use crate::model::LEVELS;
use crate::reading::{Read, listed};
use hll_lexer::{Mark, Reserved};
use hll_tree::{Def, Expr, Name, Part, Slot};
use sqlite_items::Items;
use std::alloc::Global;

impl Read for Slot {
    ghost form = { IsSlot };

    ghost goes_on = { nothing };

    fn read(alloc: Global, cursor: &mut Cursor<'_>) -> Result<Slot, SyntaxFault> {
        if cursor.sees_name() {
            Ok(Slot::Index(cursor.name(alloc)?))
        } else {
            fixed(cursor)
        }
    }
}

/// A number for one position.
fn fixed(cursor: &mut Cursor<'_>) -> Result<Slot, SyntaxFault>
    ensures text { cursor.new.text ≡ cursor.old.text }
    ensures reads { (room : ℕ) → Reads IsFixed nothing
        cursor.old.text room cursor.old.rest cursor.new.rest result }
{
    let Some((token, value)) = cursor.accept_number() else {
        return Err(cursor.unexpected());
    };
    let at = token.from as u64;
    Ok(Slot::Fixed { at, value })
}

/// Slots in brackets.
fn slots_in_brackets(alloc: Global, cursor: &mut Cursor<'_>) -> Result<Items<Slot>, SyntaxFault>
    ensures text { cursor.new.text ≡ cursor.old.text }
    ensures reads { Reads AreSlotsInBrackets nothing
        cursor.old.text 200 cursor.old.rest cursor.new.rest result }
{
    cursor.expect(Mark::OpenBracket)?;
    let slots = listed(alloc, cursor)?;
    cursor.expect(Mark::CloseBracket)?;
    Ok(slots)
}

/// Slots in brackets, or none.
fn slots(alloc: Global, cursor: &mut Cursor<'_>) -> Result<Items<Slot>, SyntaxFault>
    ensures text { cursor.new.text ≡ cursor.old.text }
    ensures reads { Reads AreSlots after_declarator
        cursor.old.text 200 cursor.old.rest cursor.new.rest result }
{
    if cursor.sees(Mark::OpenBracket) {
        slots_in_brackets(alloc, cursor)
    } else {
        Ok(Items::new(alloc))
    }
}

/// A name with what stands at its array levels.
fn left_side(alloc: Global, cursor: &mut Cursor<'_>) -> Result<(Name, Items<Slot>), SyntaxFault>
    ensures text { cursor.new.text ≡ cursor.old.text }
    ensures reads { Reads IsLeftSide after_declarator
        cursor.old.text 200 cursor.old.rest cursor.new.rest result }
{
    let name = cursor.name(alloc)?;
    let indices = slots(alloc, cursor)?;
    Ok((name, indices))
}

/// A comma and an expression.
fn after_comma(alloc: Global, cursor: &mut Cursor<'_>) -> Result<Expr, SyntaxFault>
    ensures text { cursor.new.text ≡ cursor.old.text }
    ensures reads { Reads IsAfterComma after_expression
        cursor.old.text 200 cursor.old.rest cursor.new.rest result }
{
    cursor.expect(Mark::Comma)?;
    expression(alloc, cursor, LEVELS)
}

/// The expression of the next value, or none.
fn next_value(alloc: Global, cursor: &mut Cursor<'_>) -> Result<Option<Expr>, SyntaxFault>
    ensures text { cursor.new.text ≡ cursor.old.text }
    ensures reads { Reads IsNextValue (list_goes_on after_expression)
        cursor.old.text 200 cursor.old.rest cursor.new.rest result }
{
    if cursor.sees(Mark::Comma) {
        let next = after_comma(alloc, cursor)?;
        Ok(Some(next))
    } else {
        Ok(None)
    }
}

/// One expression for the value, or two for the first and the next one.
fn part(alloc: Global, cursor: &mut Cursor<'_>) -> Result<Part, SyntaxFault>
    ensures text { cursor.new.text ≡ cursor.old.text }
    ensures reads { Reads IsPart (list_goes_on after_expression)
        cursor.old.text 200 cursor.old.rest cursor.new.rest result }
{
    let value = expression(alloc, cursor, LEVELS)?;
    let next = next_value(alloc, cursor)?;
    match next {
        None => Ok(Part::Value(value)),
        Some(next) => Ok(Part::Both(value, next)),
    }
}

/// A definition of a value.
fn plain(alloc: Global, cursor: &mut Cursor<'_>) -> Result<Def, SyntaxFault>
    ensures text { cursor.new.text ≡ cursor.old.text }
    ensures reads { Reads IsPlainDefinition (list_goes_on after_expression)
        cursor.old.text 200 cursor.old.rest cursor.new.rest result }
{
    let (name, indices) = left_side(alloc, cursor)?;
    cursor.expect(Mark::Assign)?;
    let part = part(alloc, cursor)?;
    let at = name.at;
    Ok(Def {
        at,
        name,
        indices,
        part,
    })
}

/// The left side of a memory's part in parentheses, and its expression.
fn memory(
    alloc: Global,
    cursor: &mut Cursor<'_>,
) -> Result<((Name, Items<Slot>), Expr), SyntaxFault>
    ensures text { cursor.new.text ≡ cursor.old.text }
    ensures reads { Reads IsMemory after_expression
        cursor.old.text 200 cursor.old.rest cursor.new.rest result }
{
    cursor.expect(Mark::Open)?;
    let side = left_side(alloc, cursor)?;
    cursor.expect(Mark::Close)?;
    cursor.expect(Mark::Assign)?;
    let value = expression(alloc, cursor, LEVELS)?;
    Ok((side, value))
}

/// A definition of a memory's first value.
fn first(alloc: Global, cursor: &mut Cursor<'_>) -> Result<Def, SyntaxFault>
    ensures text { cursor.new.text ≡ cursor.old.text }
    ensures reads { Reads (λ s. IsMemoryDefinition s Reserved.First Part.First) after_expression
        cursor.old.text 200 cursor.old.rest cursor.new.rest result }
{
    let token = cursor.expect_word(Reserved::First)?;
    let ((name, indices), value) = memory(alloc, cursor)?;
    let at = token.from as u64;
    let part = Part::First(value);
    Ok(Def {
        at,
        name,
        indices,
        part,
    })
}

/// A definition of a memory's next values.
fn next(alloc: Global, cursor: &mut Cursor<'_>) -> Result<Def, SyntaxFault>
    ensures text { cursor.new.text ≡ cursor.old.text }
    ensures reads { Reads (λ s. IsMemoryDefinition s Reserved.Next Part.Next) after_expression
        cursor.old.text 200 cursor.old.rest cursor.new.rest result }
{
    let token = cursor.expect_word(Reserved::Next)?;
    let ((name, indices), value) = memory(alloc, cursor)?;
    let at = token.from as u64;
    let part = Part::Next(value);
    Ok(Def {
        at,
        name,
        indices,
        part,
    })
}

impl Read for Def {
    ghost form = { IsDefinition };

    ghost goes_on = { list_goes_on after_expression };

    fn read(alloc: Global, cursor: &mut Cursor<'_>) -> Result<Def, SyntaxFault> {
        if cursor.sees_word(Reserved::First) {
            first(alloc, cursor)
        } else if cursor.sees_word(Reserved::Next) {
            next(alloc, cursor)
        } else {
            plain(alloc, cursor)
        }
    }
}
