//! Types, declarations and constants.

ghost use Rattle.std.specs.Prelude.{◌≡◌};
ghost use Rattle.hll_tree.specs.Spells.{IsDigits, IsIntegers, IsType, AreDims, IsDeclarator, IsDecl, IsConstantKind, IsConstant, IsMember, AreElements, IsSort, IsTypeItem};
ghost use Rattle.hll_grammar.specs.Lookahead.{nothing, after_declarator, after_expression, list_goes_on};
ghost use Rattle.hll_grammar.specs.Pieces.{AreMembers, AreDimsInBrackets, IsSigned, IsUnsigned, IsEnumeration, IsStructure, AreLeaves, AreChildren, IsSortItem, IsAlias, IsInt, IsConstantWord};
ghost use Rattle.hll_grammar.specs.Reading.{Reads};

use crate::cursor::Cursor;
use crate::expression::{expression, expressions};
use crate::fault::SyntaxFault;
use crate::model::LEVELS;
use crate::primary::{number, parenthesised};
use crate::quantifier::bounds;
use crate::reading::{Read, listed, named_alone};
use hll_lexer::{Mark, Reserved};
use hll_tree::{ConstItem, Decl, Declarator, Expr, Field, Name, TypeItem, TypeText};
use sqlite_items::Items;
use std::alloc::Global;

/// How many digits a number of a type has.
fn digits(alloc: Global, cursor: &mut Cursor<'_>) -> Result<Expr, SyntaxFault>
    ensures text { cursor.new.text ≡ cursor.old.text }
    ensures reads { Reads IsDigits nothing
        cursor.old.text 200 cursor.old.rest cursor.new.rest result }
{
    if cursor.sees_number() {
        number(cursor)
    } else if cursor.sees_name() {
        Ok(named_alone(alloc, cursor.name(alloc)?))
    } else {
        parenthesised(alloc, cursor, LEVELS)
    }
}

/// What stands behind `int`.
fn integers(alloc: Global, cursor: &mut Cursor<'_>) -> Result<TypeText, SyntaxFault>
    ensures text { cursor.new.text ≡ cursor.old.text }
    ensures reads { Reads IsIntegers nothing
        cursor.old.text 200 cursor.old.rest cursor.new.rest result }
{
    if cursor.sees(Mark::OpenBracket) {
        let (least, greatest) = bounds(alloc, cursor, LEVELS)?;
        Ok(TypeText::Bounds(least, greatest))
    } else if cursor.sees_word(Reserved::Signed) {
        signed(alloc, cursor)
    } else {
        unsigned(alloc, cursor)
    }
}

/// `signed`, and a number of digits.
fn signed(alloc: Global, cursor: &mut Cursor<'_>) -> Result<TypeText, SyntaxFault>
    ensures text { cursor.new.text ≡ cursor.old.text }
    ensures reads { Reads IsSigned nothing
        cursor.old.text 200 cursor.old.rest cursor.new.rest result }
{
    cursor.expect_word(Reserved::Signed)?;
    let digits = digits(alloc, cursor)?;
    Ok(TypeText::Signed(digits))
}

/// `unsigned`, and a number of digits.
fn unsigned(alloc: Global, cursor: &mut Cursor<'_>) -> Result<TypeText, SyntaxFault>
    ensures text { cursor.new.text ≡ cursor.old.text }
    ensures reads { Reads IsUnsigned nothing
        cursor.old.text 200 cursor.old.rest cursor.new.rest result }
{
    cursor.expect_word(Reserved::Unsigned)?;
    let digits = digits(alloc, cursor)?;
    Ok(TypeText::Unsigned(digits))
}

fn type_text(alloc: Global, cursor: &mut Cursor<'_>) -> Result<TypeText, SyntaxFault>
    ensures text { cursor.new.text ≡ cursor.old.text }
    ensures reads { Reads IsType nothing
        cursor.old.text 200 cursor.old.rest cursor.new.rest result }
{
    if cursor.sees_word(Reserved::Bool) {
        cursor.expect_word(Reserved::Bool)?;
        Ok(TypeText::Bool)
    } else if cursor.sees_name() {
        Ok(TypeText::Named(cursor.name(alloc)?))
    } else {
        int(alloc, cursor)
    }
}

/// `int`, and what stands behind it.
fn int(alloc: Global, cursor: &mut Cursor<'_>) -> Result<TypeText, SyntaxFault>
    ensures text { cursor.new.text ≡ cursor.old.text }
    ensures reads { Reads IsInt nothing
        cursor.old.text 200 cursor.old.rest cursor.new.rest result }
{
    cursor.expect_word(Reserved::Int)?;
    integers(alloc, cursor)
}

/// The dimensions of an array in brackets.
fn dims_in_brackets(alloc: Global, cursor: &mut Cursor<'_>) -> Result<Items<Expr>, SyntaxFault>
    ensures text { cursor.new.text ≡ cursor.old.text }
    ensures reads { Reads AreDimsInBrackets nothing
        cursor.old.text 200 cursor.old.rest cursor.new.rest result }
{
    cursor.opening(Mark::OpenBracket, LEVELS)?;
    let dims = expressions(alloc, cursor, LEVELS)?;
    cursor.expect(Mark::CloseBracket)?;
    Ok(dims)
}

/// The dimensions of an array in brackets, or none.
fn dims(alloc: Global, cursor: &mut Cursor<'_>) -> Result<Items<Expr>, SyntaxFault>
    ensures text { cursor.new.text ≡ cursor.old.text }
    ensures reads { Reads AreDims after_declarator
        cursor.old.text 200 cursor.old.rest cursor.new.rest result }
{
    if cursor.sees(Mark::OpenBracket) {
        dims_in_brackets(alloc, cursor)
    } else {
        Ok(Items::new(alloc))
    }
}

impl Read for Declarator {
    ghost form = { IsDeclarator };

    ghost goes_on = { after_declarator };

    fn read(alloc: Global, cursor: &mut Cursor<'_>) -> Result<Declarator, SyntaxFault> {
        let name = cursor.name(alloc)?;
        let dims = dims(alloc, cursor)?;
        Ok(Declarator { name, dims })
    }
}

impl Read for Decl {
    ghost form = { IsDecl };

    ghost goes_on = { list_goes_on after_declarator };

    fn read(alloc: Global, cursor: &mut Cursor<'_>) -> Result<Decl, SyntaxFault> {
        let ty = type_text(alloc, cursor)?;
        let names = listed(alloc, cursor)?;
        Ok(Decl { ty, names })
    }
}

/// `bool`, or `int`: whether a constant is Boolean.
fn is_boolean(cursor: &mut Cursor<'_>) -> Result<bool, SyntaxFault>
    ensures text { cursor.new.text ≡ cursor.old.text }
    ensures reads { Reads (λ s. IsConstantKind) nothing
        cursor.old.text 200 cursor.old.rest cursor.new.rest result }
{
    if cursor.sees_word(Reserved::Bool) {
        constant_word(cursor, Reserved::Bool, true)
    } else {
        constant_word(cursor, Reserved::Int, false)
    }
}

/// The word of a constant, with what it says.
fn constant_word(
    cursor: &mut Cursor<'_>,
    word: Reserved,
    boolean: bool,
) -> Result<bool, SyntaxFault>
    ensures text { cursor.new.text ≡ cursor.old.text }
    ensures reads { Reads (IsConstantWord word boolean) nothing
        cursor.old.text 200 cursor.old.rest cursor.new.rest result }
{
    cursor.expect_word(word)?;
    Ok(boolean)
}

impl Read for ConstItem {
    ghost form = { IsConstant };

    ghost goes_on = { after_expression };

    fn read(alloc: Global, cursor: &mut Cursor<'_>) -> Result<ConstItem, SyntaxFault> {
        let boolean = is_boolean(cursor)?;
        let name = cursor.name(alloc)?;
        cursor.expect(Mark::Assign)?;
        let value = expression(alloc, cursor, LEVELS)?;
        Ok(ConstItem {
            boolean,
            name,
            value,
        })
    }
}

impl Read for Field {
    ghost form = { IsMember };

    ghost goes_on = { after_declarator };

    fn read(alloc: Global, cursor: &mut Cursor<'_>) -> Result<Field, SyntaxFault> {
        let name = cursor.name(alloc)?;
        cursor.expect(Mark::Colon)?;
        let ty = type_text(alloc, cursor)?;
        let dims = dims(alloc, cursor)?;
        let of = Declarator { name, dims };
        Ok(Field { ty, of })
    }
}

/// Names in braces.
fn elements(alloc: Global, cursor: &mut Cursor<'_>) -> Result<Items<Name>, SyntaxFault>
    ensures text { cursor.new.text ≡ cursor.old.text }
    ensures reads { Reads AreElements nothing
        cursor.old.text 200 cursor.old.rest cursor.new.rest result }
{
    cursor.expect(Mark::OpenBrace)?;
    let elements = listed(alloc, cursor)?;
    cursor.expect(Mark::CloseBrace)?;
    Ok(elements)
}

/// Fields in braces.
fn fields(alloc: Global, cursor: &mut Cursor<'_>) -> Result<Items<Field>, SyntaxFault>
    ensures text { cursor.new.text ≡ cursor.old.text }
    ensures reads { Reads AreMembers nothing
        cursor.old.text 200 cursor.old.rest cursor.new.rest result }
{
    cursor.expect(Mark::OpenBrace)?;
    let fields = listed(alloc, cursor)?;
    cursor.expect(Mark::CloseBrace)?;
    Ok(fields)
}

/// `enum`, its elements and its name.
fn enumeration(alloc: Global, cursor: &mut Cursor<'_>) -> Result<TypeItem, SyntaxFault>
    ensures text { cursor.new.text ≡ cursor.old.text }
    ensures reads { Reads IsEnumeration nothing
        cursor.old.text 200 cursor.old.rest cursor.new.rest result }
{
    cursor.expect_word(Reserved::Enum)?;
    let elements = elements(alloc, cursor)?;
    let name = cursor.name(alloc)?;
    Ok(TypeItem::Enumeration(elements, name))
}

/// `struct`, its fields and its name.
fn structure(alloc: Global, cursor: &mut Cursor<'_>) -> Result<TypeItem, SyntaxFault>
    ensures text { cursor.new.text ≡ cursor.old.text }
    ensures reads { Reads IsStructure nothing
        cursor.old.text 200 cursor.old.rest cursor.new.rest result }
{
    cursor.expect_word(Reserved::Struct)?;
    let fields = fields(alloc, cursor)?;
    let name = cursor.name(alloc)?;
    Ok(TypeItem::Structure(fields, name))
}

/// What stands behind `sort`.
fn sort(alloc: Global, cursor: &mut Cursor<'_>) -> Result<TypeItem, SyntaxFault>
    ensures text { cursor.new.text ≡ cursor.old.text }
    ensures reads { Reads IsSort nothing
        cursor.old.text 200 cursor.old.rest cursor.new.rest result }
{
    if cursor.sees(Mark::OpenBrace) {
        leaves(alloc, cursor)
    } else {
        children(alloc, cursor)
    }
}

/// The elements of a sort, and its name.
fn leaves(alloc: Global, cursor: &mut Cursor<'_>) -> Result<TypeItem, SyntaxFault>
    ensures text { cursor.new.text ≡ cursor.old.text }
    ensures reads { Reads AreLeaves nothing
        cursor.old.text 200 cursor.old.rest cursor.new.rest result }
{
    let elements = elements(alloc, cursor)?;
    let name = cursor.name(alloc)?;
    Ok(TypeItem::Leaves(elements, name))
}

/// The sorts that a sort joins, and its name.
fn children(alloc: Global, cursor: &mut Cursor<'_>) -> Result<TypeItem, SyntaxFault>
    ensures text { cursor.new.text ≡ cursor.old.text }
    ensures reads { Reads AreChildren nothing
        cursor.old.text 200 cursor.old.rest cursor.new.rest result }
{
    let joined: Items<Name> = listed(alloc, cursor)?;
    cursor.expect(Mark::Less)?;
    let name = cursor.name(alloc)?;
    Ok(TypeItem::Children(joined, name))
}

/// `sort`, and what stands behind it.
fn sort_item(alloc: Global, cursor: &mut Cursor<'_>) -> Result<TypeItem, SyntaxFault>
    ensures text { cursor.new.text ≡ cursor.old.text }
    ensures reads { Reads IsSortItem nothing
        cursor.old.text 200 cursor.old.rest cursor.new.rest result }
{
    cursor.expect_word(Reserved::Sort)?;
    sort(alloc, cursor)
}

/// Another name for a type.
fn alias(alloc: Global, cursor: &mut Cursor<'_>) -> Result<TypeItem, SyntaxFault>
    ensures text { cursor.new.text ≡ cursor.old.text }
    ensures reads { Reads IsAlias after_declarator
        cursor.old.text 200 cursor.old.rest cursor.new.rest result }
{
    let ty = type_text(alloc, cursor)?;
    let declared = Declarator::read(alloc, cursor)?;
    Ok(TypeItem::Alias(ty, declared))
}

impl Read for TypeItem {
    ghost form = { IsTypeItem };

    ghost goes_on = { after_declarator };

    fn read(alloc: Global, cursor: &mut Cursor<'_>) -> Result<TypeItem, SyntaxFault> {
        if cursor.sees_word(Reserved::Enum) {
            enumeration(alloc, cursor)
        } else if cursor.sees_word(Reserved::Struct) {
            structure(alloc, cursor)
        } else if cursor.sees_word(Reserved::Sort) {
            sort_item(alloc, cursor)
        } else {
            alias(alloc, cursor)
        }
    }
}
