//! The one layout of a text: types, declarations, definitions and sections.

ghost use Rattle.std.specs.Prelude.{◌≡◌, ◌++◌, codes, map, OnOk, IfOk};
ghost use Rattle.hll_tree.specs.Printing.{Text, joined, name_text, names_text, expression_text, dims_text, is_bare as is_bare_size, size_text, type_text, declarator_text, decl_text, constant_text, field_text, type_item_text, slot_text, slots_text, left_side_text, definition_text, items_text, section_text, model_text};

use crate::expressions::{push_expression, push_name, push_number};
use crate::tree::{
    ConstItem, Decl, Declarator, Def, Expr, Field, Form, HllModel, Name, Part, Section, Slot,
    TypeItem, TypeText,
};
use std::alloc::{AllocError, Global};

/// What is printed in the same way wherever it stands.
trait Layout {
    /// What is printed of it.
    ghost text: { Self → Text };

    /// Appends it.
    fn push(&self, out: &mut Vec<u8>) -> Result<(), AllocError>
        ensures { OnOk result (out.new.items ≡ out.old.items ++ text self.now) };
}

/// Appends things, parted by commas.
fn push_joined<T: Layout>(out: &mut Vec<u8>, items: &[T]) -> Result<(), AllocError>
    ensures { OnOk result (out.new.items ≡ out.old.items ++ joined (codes ", ") (map T.text items.now)) }
{
    match items {
        [] => Ok(()),
        [first, rest @ ..] => {
            first.push(out)?;
            for item in rest {
                out.extend_from_slice(b", ")?;
                item.push(out)?;
            }
            Ok(())
        }
    }
}

/// Appends a heading, and items behind it, each on a line of its own.
fn push_items<T: Layout>(out: &mut Vec<u8>, heading: &str, items: &[T]) -> Result<(), AllocError>
    ensures { OnOk result (out.new.items ≡ out.old.items ++ (heading.now ++ items_text (map T.text items.now))) }
{
    out.extend_from_slice(heading.as_bytes())?;
    for item in items {
        out.extend_from_slice(b"  ")?;
        item.push(out)?;
        out.extend_from_slice(b";\n")?;
    }
    Ok(())
}

impl Layout for Name {
    ghost text = { λ n. name_text n.text };

    fn push(&self, out: &mut Vec<u8>) -> Result<(), AllocError> {
        push_name(out, self)
    }
}

impl Layout for Expr {
    ghost text = { expression_text };

    fn push(&self, out: &mut Vec<u8>) -> Result<(), AllocError> {
        push_expression(out, self)
    }
}

/// Appends dimensions in one bracket, where there are some.
fn push_dims(out: &mut Vec<u8>, dims: &[Expr]) -> Result<(), AllocError>
    ensures { OnOk result (out.new.items ≡ out.old.items ++ dims_text dims.now) }
{
    if dims.is_empty() {
        return Ok(());
    }
    out.push(b'[')?;
    push_joined(out, dims)?;
    out.push(b']')?;
    Ok(())
}

/// Whether the expression is a number or a name alone.
fn is_bare(expr: &Expr) -> bool
    ensures { result ≡ is_bare_size expr.now }
{
    match &expr.form {
        Form::Number(_) => true,
        Form::Path(_, reaches) => reaches.is_empty(),
        Form::Truth(_)
        | Form::Chain(_, _)
        | Form::Compare(_, _, _)
        | Form::Minus(_)
        | Form::Not(_)
        | Form::Choice(_, _)
        | Form::Group(_)
        | Form::Quant(_, _, _, _)
        | Form::Pre(_, _)
        | Form::Least(_)
        | Form::Greatest(_)
        | Form::Size(_)
        | Form::Starting
        | Form::Within(_, _) => false,
    }
}

/// Appends a number of digits.
fn push_size(out: &mut Vec<u8>, size: &Expr) -> Result<(), AllocError>
    ensures { OnOk result (out.new.items ≡ out.old.items ++ size_text size.now) }
{
    if is_bare(size) {
        return push_expression(out, size);
    }
    out.push(b'(')?;
    push_expression(out, size)?;
    out.push(b')')?;
    Ok(())
}

/// Appends the words of a type of numbers, and how many digits these have.
fn push_sized(out: &mut Vec<u8>, words: &str, size: &Expr) -> Result<(), AllocError>
    ensures { OnOk result (out.new.items ≡ out.old.items ++ (words.now ++ size_text size.now)) }
{
    out.extend_from_slice(words.as_bytes())?;
    push_size(out, size)
}

/// Appends the bounds of a type.
fn push_bounds(out: &mut Vec<u8>, lowest: &Expr, greatest: &Expr) -> Result<(), AllocError>
    ensures { OnOk result (out.new.items ≡ out.old.items
        ++ codes "int [" ++ expression_text lowest.now ++ codes ", " ++ expression_text greatest.now ++ codes "]") }
{
    out.extend_from_slice(b"int [")?;
    push_expression(out, lowest)?;
    out.extend_from_slice(b", ")?;
    push_expression(out, greatest)?;
    out.push(b']')?;
    Ok(())
}

/// Appends a type.
fn push_type(out: &mut Vec<u8>, ty: &TypeText) -> Result<(), AllocError>
    ensures { OnOk result (out.new.items ≡ out.old.items ++ type_text ty.now) }
{
    match ty {
        TypeText::Bool => out.extend_from_slice(b"bool"),
        TypeText::Bounds(lowest, greatest) => push_bounds(out, lowest, greatest),
        TypeText::Signed(size) => push_sized(out, "int signed ", size),
        TypeText::Unsigned(size) => push_sized(out, "int unsigned ", size),
        TypeText::Named(name) => push_name(out, name),
    }
}

impl Layout for Declarator {
    ghost text = { declarator_text };

    fn push(&self, out: &mut Vec<u8>) -> Result<(), AllocError> {
        push_name(out, &self.name)?;
        push_dims(out, self.dims.as_slice())
    }
}

impl Layout for Decl {
    ghost text = { decl_text };

    fn push(&self, out: &mut Vec<u8>) -> Result<(), AllocError> {
        push_type(out, &self.ty)?;
        out.push(b' ')?;
        push_joined(out, self.names.as_slice())
    }
}

impl Layout for ConstItem {
    ghost text = { constant_text };

    fn push(&self, out: &mut Vec<u8>) -> Result<(), AllocError> {
        out.extend_from_slice(if self.boolean { "bool " } else { "int " }.as_bytes())?;
        push_name(out, &self.name)?;
        out.extend_from_slice(b" := ")?;
        push_expression(out, &self.value)
    }
}

impl Layout for Field {
    ghost text = { field_text };

    fn push(&self, out: &mut Vec<u8>) -> Result<(), AllocError> {
        push_name(out, &self.of.name)?;
        out.extend_from_slice(b": ")?;
        push_type(out, &self.ty)?;
        push_dims(out, self.of.dims.as_slice())
    }
}

/// Appends a word, things in braces and the name that is declared.
fn push_braced<T: Layout>(
    out: &mut Vec<u8>,
    word: &str,
    items: &[T],
    name: &Name,
) -> Result<(), AllocError>
    ensures { OnOk result (out.new.items ≡ out.old.items
        ++ word.now ++ joined (codes ", ") (map T.text items.now) ++ codes "} " ++ name_text name.now.text) }
{
    out.extend_from_slice(word.as_bytes())?;
    push_joined(out, items)?;
    out.extend_from_slice(b"} ")?;
    push_name(out, name)
}

impl Layout for TypeItem {
    ghost text = { type_item_text };

    fn push(&self, out: &mut Vec<u8>) -> Result<(), AllocError> {
        match self {
            TypeItem::Alias(ty, declarator) => {
                push_type(out, ty)?;
                out.push(b' ')?;
                declarator.push(out)
            }
            TypeItem::Enumeration(elements, name) => push_braced(
                out,
                "enum {",
                elements.as_slice(),
                name,
            ),
            TypeItem::Structure(fields, name) => push_braced(
                out,
                "struct {",
                fields.as_slice(),
                name,
            ),
            TypeItem::Leaves(elements, name) => push_braced(
                out,
                "sort {",
                elements.as_slice(),
                name,
            ),
            TypeItem::Children(sorts, name) => {
                out.extend_from_slice(b"sort ")?;
                push_joined(out, sorts.as_slice())?;
                out.extend_from_slice(b" < ")?;
                push_name(out, name)
            }
        }
    }
}

impl Layout for Slot {
    ghost text = { slot_text };

    fn push(&self, out: &mut Vec<u8>) -> Result<(), AllocError> {
        match self {
            Slot::Index(name) => push_name(out, name),
            Slot::Fixed { value, .. } => push_number(out, *value),
        }
    }
}

/// Appends slots in one bracket, where there are some.
fn push_slots(out: &mut Vec<u8>, slots: &[Slot]) -> Result<(), AllocError>
    ensures { OnOk result (out.new.items ≡ out.old.items ++ slots_text slots.now) }
{
    if slots.is_empty() {
        return Ok(());
    }
    out.push(b'[')?;
    push_joined(out, slots)?;
    out.push(b']')?;
    Ok(())
}

/// Appends the left side of a definition.
fn push_left_side(out: &mut Vec<u8>, def: &Def) -> Result<(), AllocError>
    ensures { OnOk result (out.new.items ≡ out.old.items ++ left_side_text def.now) }
{
    push_name(out, &def.name)?;
    push_slots(out, def.indices.as_slice())
}

/// Appends the definition of one part of a memory, by its word.
fn push_memory(out: &mut Vec<u8>, word: &str, def: &Def, value: &Expr) -> Result<(), AllocError>
    ensures { OnOk result (out.new.items ≡ out.old.items
        ++ word.now ++ left_side_text def.now ++ codes ") := " ++ expression_text value.now) }
{
    out.extend_from_slice(word.as_bytes())?;
    push_left_side(out, def)?;
    out.extend_from_slice(b") := ")?;
    push_expression(out, value)
}

/// Appends the definition of a value.
fn push_value(out: &mut Vec<u8>, def: &Def, value: &Expr) -> Result<(), AllocError>
    ensures { OnOk result (out.new.items ≡ out.old.items ++ left_side_text def.now ++ codes " := " ++ expression_text value.now) }
{
    push_left_side(out, def)?;
    out.extend_from_slice(b" := ")?;
    push_expression(out, value)
}

impl Layout for Def {
    ghost text = { definition_text };

    fn push(&self, out: &mut Vec<u8>) -> Result<(), AllocError> {
        match &self.part {
            Part::Value(value) => push_value(out, self, value),
            Part::Both(first, next) => {
                push_value(out, self, first)?;
                out.extend_from_slice(b", ")?;
                push_expression(out, next)
            }
            Part::First(first) => push_memory(out, "I(", self, first),
            Part::Next(next) => push_memory(out, "X(", self, next),
        }
    }
}

/// Appends a section.
fn push_section(out: &mut Vec<u8>, section: &Section) -> Result<(), AllocError>
    ensures { OnOk result (out.new.items ≡ out.old.items ++ section_text section.now) }
{
    match section {
        Section::Constants(items) => push_items(out, "Constants:\n", items.as_slice()),
        Section::Types(items) => push_items(out, "Types:\n", items.as_slice()),
        Section::Inputs(items) => push_items(out, "Inputs:\n", items.as_slice()),
        Section::Declarations(items) => push_items(out, "Declarations:\n", items.as_slice()),
        Section::Definitions(items) => push_items(out, "Definitions:\n", items.as_slice()),
        Section::Constraints(items) => push_items(out, "Constraints:\n", items.as_slice()),
        Section::Obligations(items) => push_items(out, "Proof Obligations:\n", items.as_slice()),
    }
}

/// The one layout of a text: each item on a line of its own, names in quotes only where they need them, parentheses
/// only where the tree needs them.
#[tactic(auto, unfolding(crate::specs::Printing::model_text))]
pub fn print(alloc: Global, model: &HllModel) -> Result<Vec<u8>, AllocError>
    ensures { IfOk result (λ text. text.items ≡ model_text model.now) }
{
    let mut out = Vec::new(alloc);
    for section in model.sections.as_slice() {
        push_section(&mut out, section)?;
    }
    Ok(out)
}
