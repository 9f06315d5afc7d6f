//! Sections, and the whole text.

ghost use Rattle.std.specs.Prelude.{◌≡◌, ℕ, Err, IfOk};
ghost use Rattle.hll_tree.specs.declared.tree.HllModel.{HllModel};
ghost use Rattle.hll_tree.specs.Prefixes.{IsUnexpected, IsDeep};
ghost use Rattle.hll_tree.specs.Spells.{Many, IsConstant, IsTypeItem, IsDecl, IsDefinition, IsExpression, IsSectionOf, IsSection, Spells, SpellsWithin};
ghost use Rattle.hll_grammar.specs.Lookahead.{Kinds, holds, begins_constant, begins_type, begins_type_item, begins_definition, begins_expression, begins_section, after_expression, after_section, with};
ghost use Rattle.hll_grammar.specs.Pieces.{AreItems, AreObligations};
ghost use Rattle.hll_grammar.specs.Reading.{Reads};
ghost use Rattle.hll_grammar.specs.Repetition.{Repeats};
ghost use Rattle.hll_grammar.specs.Unread.{AreWithin, starts};

use crate::cursor::Cursor;
use crate::expression::expression;
use crate::fault::SyntaxFault;
use crate::primary::is_operand_next;
use crate::reading::{Read, push};
use hll_lexer::{Mark, Reserved, Token, TokenKind};
use hll_tree::{ConstItem, Decl, Def, Expr, HllModel, Section, TypeItem};
use sqlite_items::Items;
use std::alloc::Global;

/// How many levels may be open at once.
pub const LEVELS: u8 = 200;

/// What stands in a section, each with a semicolon behind it.
pub trait Item: Read {
    /// With what it begins.
    ghost begins: { Kinds };

    /// Whether one begins with the next token.
    fn is_next(cursor: &Cursor<'_>) -> bool
        ensures { result ≡ starts begins cursor.now.rest };
}

impl Item for ConstItem {
    ghost begins = { begins_constant };

    fn is_next(cursor: &Cursor<'_>) -> bool {
        cursor.sees_word(Reserved::Bool) || cursor.sees_word(Reserved::Int)
    }
}

impl Item for Decl {
    ghost begins = { begins_type };

    fn is_next(cursor: &Cursor<'_>) -> bool {
        cursor.sees_name() || cursor.sees_word(Reserved::Bool) || cursor.sees_word(Reserved::Int)
    }
}

impl Item for TypeItem {
    ghost begins = { begins_type_item };

    fn is_next(cursor: &Cursor<'_>) -> bool {
        Decl::is_next(cursor)
            || cursor.sees_word(Reserved::Enum)
            || cursor.sees_word(Reserved::Struct)
            || cursor.sees_word(Reserved::Sort)
    }
}

impl Item for Def {
    ghost begins = { begins_definition };

    fn is_next(cursor: &Cursor<'_>) -> bool {
        cursor.sees_name() || cursor.sees_word(Reserved::First) || cursor.sees_word(Reserved::Next)
    }
}

impl Read for Expr {
    ghost form = { IsExpression };

    ghost goes_on = { after_expression };

    fn read(alloc: Global, cursor: &mut Cursor<'_>) -> Result<Expr, SyntaxFault> {
        expression(alloc, cursor, LEVELS)
    }
}

impl Item for Expr {
    ghost begins = { begins_expression };

    fn is_next(cursor: &Cursor<'_>) -> bool {
        cursor.sees_word(Reserved::If) || is_operand_next(cursor)
    }
}

/// Whether a section begins with this word.
#[tactic(auto, unfolding(crate::specs::Lookahead::word_number))]
fn begins_with(word: Reserved) -> bool
    ensures { result ≡ holds begins_section (TokenKind.Reserved word) }
{
    match word {
        Reserved::Constants
        | Reserved::Types
        | Reserved::Inputs
        | Reserved::Declarations
        | Reserved::Definitions
        | Reserved::Constraints
        | Reserved::Proof => true,
        Reserved::Obligations
        | Reserved::Bool
        | Reserved::Int
        | Reserved::Signed
        | Reserved::Unsigned
        | Reserved::Enum
        | Reserved::Sort
        | Reserved::Struct
        | Reserved::True
        | Reserved::False
        | Reserved::If
        | Reserved::Then
        | Reserved::Elif
        | Reserved::Else
        | Reserved::All
        | Reserved::Some
        | Reserved::Sum
        | Reserved::Pre
        | Reserved::Next
        | Reserved::First => false,
    }
}

/// Whether a section begins with the next token.
fn is_section_next(cursor: &Cursor<'_>) -> bool
    ensures { result ≡ starts begins_section cursor.now.rest }
{
    match cursor.peek() {
        Some(TokenKind::Reserved(word)) => begins_with(word),
        Some(TokenKind::Name | TokenKind::Number(_) | TokenKind::Mark(_)) | None => false,
    }
}

/// The items of a section, as many as there are.
fn items<T: Item>(alloc: Global, cursor: &mut Cursor<'_>) -> Result<Items<T>, SyntaxFault>
    requires { Repeats T.form T.goes_on T.begins }
    ensures text { cursor.new.text ≡ cursor.old.text }
    ensures reads { Reads (λ s. AreItems (T.form s)) T.begins
        cursor.old.text 200 cursor.old.rest cursor.new.rest result }
{
    let mut items = Items::new(alloc);
    while T::is_next(cursor) {
        let item = T::read(alloc, cursor)?;
        cursor.expect(Mark::Semicolon)?;
        push(&mut items, item)?;
    }
    Ok(items)
}

/// `Constants`, and what stands behind it.
fn constants(alloc: Global, cursor: &mut Cursor<'_>) -> Result<Section, SyntaxFault>
    ensures text { cursor.new.text ≡ cursor.old.text }
    ensures reads { Reads (λ s. IsSectionOf Reserved.Constants Section.Constants (IsConstant s)) begins_constant
        cursor.old.text 200 cursor.old.rest cursor.new.rest result }
{
    cursor.expect_word(Reserved::Constants)?;
    cursor.expect(Mark::Colon)?;
    let items = items(alloc, cursor)?;
    Ok(Section::Constants(items))
}

/// `Types`, and what stands behind it.
fn types(alloc: Global, cursor: &mut Cursor<'_>) -> Result<Section, SyntaxFault>
    ensures text { cursor.new.text ≡ cursor.old.text }
    ensures reads { Reads (λ s. IsSectionOf Reserved.Types Section.Types (IsTypeItem s)) begins_type_item
        cursor.old.text 200 cursor.old.rest cursor.new.rest result }
{
    cursor.expect_word(Reserved::Types)?;
    cursor.expect(Mark::Colon)?;
    let items = items(alloc, cursor)?;
    Ok(Section::Types(items))
}

/// `Inputs`, and what stands behind it.
fn inputs(alloc: Global, cursor: &mut Cursor<'_>) -> Result<Section, SyntaxFault>
    ensures text { cursor.new.text ≡ cursor.old.text }
    ensures reads { Reads (λ s. IsSectionOf Reserved.Inputs Section.Inputs (IsDecl s)) begins_type
        cursor.old.text 200 cursor.old.rest cursor.new.rest result }
{
    cursor.expect_word(Reserved::Inputs)?;
    cursor.expect(Mark::Colon)?;
    let items = items(alloc, cursor)?;
    Ok(Section::Inputs(items))
}

/// `Declarations`, and what stands behind it.
fn declarations(alloc: Global, cursor: &mut Cursor<'_>) -> Result<Section, SyntaxFault>
    ensures text { cursor.new.text ≡ cursor.old.text }
    ensures reads { Reads (λ s. IsSectionOf Reserved.Declarations Section.Declarations (IsDecl s)) begins_type
        cursor.old.text 200 cursor.old.rest cursor.new.rest result }
{
    cursor.expect_word(Reserved::Declarations)?;
    cursor.expect(Mark::Colon)?;
    let items = items(alloc, cursor)?;
    Ok(Section::Declarations(items))
}

/// `Definitions`, and what stands behind it.
fn definitions(alloc: Global, cursor: &mut Cursor<'_>) -> Result<Section, SyntaxFault>
    ensures text { cursor.new.text ≡ cursor.old.text }
    ensures reads { Reads (λ s. IsSectionOf Reserved.Definitions Section.Definitions (IsDefinition s)) begins_definition
        cursor.old.text 200 cursor.old.rest cursor.new.rest result }
{
    cursor.expect_word(Reserved::Definitions)?;
    cursor.expect(Mark::Colon)?;
    let items = items(alloc, cursor)?;
    Ok(Section::Definitions(items))
}

/// `Constraints`, and what stands behind it.
fn constraints(alloc: Global, cursor: &mut Cursor<'_>) -> Result<Section, SyntaxFault>
    ensures text { cursor.new.text ≡ cursor.old.text }
    ensures reads { Reads (λ s. IsSectionOf Reserved.Constraints Section.Constraints (IsExpression s)) begins_expression
        cursor.old.text 200 cursor.old.rest cursor.new.rest result }
{
    cursor.expect_word(Reserved::Constraints)?;
    cursor.expect(Mark::Colon)?;
    let items = items(alloc, cursor)?;
    Ok(Section::Constraints(items))
}

/// `Proof Obligations`, and the expressions.
fn obligations(alloc: Global, cursor: &mut Cursor<'_>) -> Result<Section, SyntaxFault>
    ensures text { cursor.new.text ≡ cursor.old.text }
    ensures reads { Reads AreObligations begins_expression
        cursor.old.text 200 cursor.old.rest cursor.new.rest result }
{
    cursor.expect_word(Reserved::Proof)?;
    cursor.expect_word(Reserved::Obligations)?;
    cursor.expect(Mark::Colon)?;
    let items = items(alloc, cursor)?;
    Ok(Section::Obligations(items))
}

/// A section, by its first word.
fn section(alloc: Global, cursor: &mut Cursor<'_>) -> Result<Section, SyntaxFault>
    ensures text { cursor.new.text ≡ cursor.old.text }
    ensures reads { Reads IsSection after_section
        cursor.old.text 200 cursor.old.rest cursor.new.rest result }
{
    if cursor.sees_word(Reserved::Constants) {
        constants(alloc, cursor)
    } else if cursor.sees_word(Reserved::Types) {
        types(alloc, cursor)
    } else if cursor.sees_word(Reserved::Inputs) {
        inputs(alloc, cursor)
    } else if cursor.sees_word(Reserved::Declarations) {
        declarations(alloc, cursor)
    } else if cursor.sees_word(Reserved::Definitions) {
        definitions(alloc, cursor)
    } else if cursor.sees_word(Reserved::Constraints) {
        constraints(alloc, cursor)
    } else {
        obligations(alloc, cursor)
    }
}

/// The sections, as many as there are.
fn sections(alloc: Global, cursor: &mut Cursor<'_>) -> Result<Items<Section>, SyntaxFault>
    ensures text { cursor.new.text ≡ cursor.old.text }
    ensures reads { Reads (λ s. Many (IsSection s)) (with begins_section after_section)
        cursor.old.text 200 cursor.old.rest cursor.new.rest result }
{
    let mut sections = Items::new(alloc);
    while is_section_next(cursor) {
        push(&mut sections, section(alloc, cursor)?)?;
    }
    Ok(sections)
}

/// The model that the tokens of a text spell.
pub fn parse(alloc: Global, text: &[u8], tokens: &[Token]) -> Result<HllModel, SyntaxFault>
    // Each token lies in the text, as the tokens that a text is split into do.
    requires { AreWithin text.now tokens.now }
    ensures spelled { IfOk result (λ m. SpellsWithin 200 text.now tokens.now m) }
    // They spell no other, whatever its levels.
    ensures only { IfOk result (λ m. (other : HllModel) → Spells text.now tokens.now other → other ≡ m) }
    ensures unexpected { (at : ℕ) → result ≡ Err (SyntaxFault.Unexpected at) →
        IsUnexpected text.now tokens.now at }
    ensures deep { (at : ℕ) → result ≡ Err (SyntaxFault.Deep at) → IsDeep text.now tokens.now at }
{
    let mut cursor = Cursor::new(text, tokens);
    let sections = sections(alloc, &mut cursor)?;
    if cursor.peek().is_some() {
        return Err(cursor.unexpected());
    }
    Ok(HllModel { sections })
}
