//! Parts of variables.

ghost use Rattle.std.specs.Prelude.{◌≡◌, ◌^◌, ◌<◌, Some, option_map};
ghost use Rattle.hll_meaning.specs.Kinds.{index as at_index, name as at_name, place_in};
ghost use Rattle.hll_meaning.specs.Types.{kind_of};
ghost use Rattle.hll_types.specs.Measures.{field_kinds_of};
ghost use Rattle.dependence.specs.Mentions.{Stretch};
ghost use Rattle.cell_layout.specs.Parts.{held, stretch_of_part};
ghost use Rattle.cell_layout.specs.Steps.{field_from, step_from, stretch_into};

use crate::sizes::cells_of_type;
use hll_meaning::{FieldTy, Ty};

/// A part of a variable: its first cell, and its type.
#[derive(Clone, Copy)]
pub struct Part<'t> {
    pub start: u64,
    pub ty: &'t Ty,
}

/// The place of an index in a dimension; an index outside is 0.
fn place(size: u64, index: i128) -> u64
    ensures { result ≡ place_in size index }
{
    if 0 <= index && index < i128::from(size) {
        index as u64
    } else {
        0
    }
}

/// The element at an index, in a value of a type that begins at a cell.
pub(crate) fn element_in<'t>(start: u64, ty: &'t Ty, index: i128) -> Option<Part<'t>>
    ensures { option_map stretch_of_part result ≡ option_map held (step_from start (kind_of ty.now) (at_index index)) }
{
    match ty {
        Ty::Array(size, each) => {
            let each = each.get();
            let before = cells_of_type(each).saturating_mul(place(*size, index));
            Some(Part {
                start: start.saturating_add(before),
                ty: each,
            })
        }
        Ty::Bool | Ty::Int(_) | Ty::Elem(_, _) | Ty::Struct(_, _) => None,
    }
}

/// The field of a name, where the first of these fields begins at a cell.
fn field_among<'t>(start: u64, fields: &'t [FieldTy], name: &[u8]) -> Option<Part<'t>>
    ensures { option_map stretch_of_part result ≡ option_map held (field_from start (field_kinds_of fields.now) name.now) }
{
    let mut next = start;
    for field in fields {
        if field.name.bytes() == name {
            return Some(Part {
                start: next,
                ty: &field.ty,
            });
        }
        next = next.saturating_add(cells_of_type(&field.ty));
    }
    None
}

/// The field of a name, in a value of a type that begins at a cell.
pub(crate) fn field_in<'t>(start: u64, ty: &'t Ty, name: &[u8]) -> Option<Part<'t>>
    ensures { option_map stretch_of_part result ≡ option_map held (step_from start (kind_of ty.now) (at_name name.now)) }
{
    match ty {
        Ty::Struct(_, fields) => field_among(start, fields.as_slice(), name),
        Ty::Bool | Ty::Int(_) | Ty::Elem(_, _) | Ty::Array(_, _) => None,
    }
}

impl<'t> Part<'t> {
    /// The element at an index; an index outside the dimension is 0.
    pub fn element(self, index: i128) -> Part<'t>
        ensures { (x : Stretch) → stretch_into (stretch_of_part self.entry) (at_index index) ≡ Some x → x.start < 2 ^ 64 → stretch_of_part result ≡ x }
    {
        element_in(self.start, self.ty, index).unwrap_or(self)
    }

    /// The field of a name.
    pub fn field(self, name: &[u8]) -> Part<'t>
        ensures { (x : Stretch) → stretch_into (stretch_of_part self.entry) (at_name name.now) ≡ Some x → x.start < 2 ^ 64 → stretch_of_part result ≡ x }
    {
        field_in(self.start, self.ty, name).unwrap_or(self)
    }
}
