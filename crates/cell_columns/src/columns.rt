//! The cells of variables, in their order: what they are called, and which values they have.

ghost use Rattle.std.specs.Prelude.{◌≡◌, ◌++◌, ◌∷◌, [], codes, decimal, map, IfOk, OnOk};
ghost use Rattle.hll_tree.specs.Printing.{name_text};
ghost use Rattle.hll_meaning.specs.Cells.{field_cells, named_cells};
ghost use Rattle.hll_meaning.specs.Kinds.{array, ranges};
ghost use Rattle.hll_meaning.specs.Types.{ends, kind_of};
ghost use Rattle.cell_columns.specs.Columns.{all_columns, cell_of, fields_kinds, kind_of_values};

use crate::spelling::{push_name, push_number};
use hll_lexer::Word;
use hll_meaning::{FieldTy, Ty};
use hll_types::Variable;
use intervals::Interval;
use std::alloc::{AllocError, Global};

/// The numbers of truth values.
const TRUTHS: Interval = Interval { lo: 0, hi: 1 };

/// What the values of a cell are.
#[derive(Drop)]
pub enum Values {
    Truth,
    Whole(Interval),
    /// The elements of a root, by its name, that have these codes.
    Elements(Word, Interval),
}

/// A cell: its name as it is printed, and what its values are.
#[derive(Drop)]
pub struct Column {
    pub name: Word,
    pub values: Values,
}

impl Values {
    /// The lowest and the greatest value, by its number.
    pub fn range(&self) -> Interval
        ensures { ranges (kind_of_values self.now) ≡ ends result ∷ [] }
    {
        match self {
            Values::Truth => TRUTHS,
            Values::Whole(range) | Values::Elements(_, range) => *range,
        }
    }
}

fn push_column(
    alloc: Global,
    columns: &mut Vec<Column>,
    name: &[u8],
    values: Values,
) -> Result<(), AllocError>
    ensures { OnOk result (map cell_of columns.new.items ≡ map cell_of columns.old.items ++ record { name = name.now; kind = kind_of_values values } ∷ []) }
{
    let name = Word::new(alloc, name)?;
    columns.push(Column { name, values })?;
    Ok(())
}

/// The name of an element of an array.
fn element_name(alloc: Global, array: &[u8], place: u64) -> Result<Vec<u8>, AllocError>
    ensures { IfOk result (λ name. name.items ≡ array.now ++ codes "[" ++ decimal place ++ codes "]") }
{
    let mut name = Vec::from_slice(alloc, array)?;
    name.extend_from_slice(b"[")?;
    push_number(&mut name, place)?;
    name.extend_from_slice(b"]")?;
    Ok(name)
}

/// The name of a field of a struct.
fn field_name(alloc: Global, structure: &[u8], field: &[u8]) -> Result<Vec<u8>, AllocError>
    ensures { IfOk result (λ name. name.items ≡ structure.now ++ codes "." ++ name_text field.now) }
{
    let mut name = Vec::from_slice(alloc, structure)?;
    name.extend_from_slice(b".")?;
    push_name(&mut name, field)?;
    Ok(name)
}

/// Appends the cells of the elements of an array.
#[cycle(walking)]
fn push_elements(
    alloc: Global,
    columns: &mut Vec<Column>,
    name: &[u8],
    size: u64,
    each: &Ty,
) -> Result<(), AllocError>
    ensures { OnOk result (map cell_of columns.new.items ≡ map cell_of columns.old.items ++ named_cells name.now (array size (kind_of each.now))) }
{
    for place in 0..size {
        let element = element_name(alloc, name, place)?;
        push_cells(alloc, columns, element.as_slice(), each)?;
    }
    Ok(())
}

/// Appends the cells of the fields of a struct.
#[cycle(walking)]
fn push_fields(
    alloc: Global,
    columns: &mut Vec<Column>,
    name: &[u8],
    fields: &[FieldTy],
) -> Result<(), AllocError>
    ensures { OnOk result (map cell_of columns.new.items ≡ map cell_of columns.old.items ++ field_cells name.now (fields_kinds fields.now)) }
{
    for field in fields {
        let own = field_name(alloc, name, field.name.bytes())?;
        push_cells(alloc, columns, own.as_slice(), &field.ty)?;
    }
    Ok(())
}

/// Appends the cells of a value of a type that is called so.
#[cycle(walking)]
#[tactic(auto, using(hll_meaning::proofs::KindForms::kind_of_bool, hll_meaning::proofs::KindForms::kind_of_int, hll_meaning::proofs::KindForms::kind_of_elem))]
fn push_cells(
    alloc: Global,
    columns: &mut Vec<Column>,
    name: &[u8],
    ty: &Ty,
) -> Result<(), AllocError>
    ensures { OnOk result (map cell_of columns.new.items ≡ map cell_of columns.old.items ++ named_cells name.now (kind_of ty.now)) }
{
    match ty {
        Ty::Bool => push_column(alloc, columns, name, Values::Truth),
        Ty::Int(ends) => push_column(alloc, columns, name, Values::Whole(*ends)),
        Ty::Elem(root, codes) => {
            let root = Word::new(alloc, root.bytes())?;
            push_column(alloc, columns, name, Values::Elements(root, *codes))
        }
        Ty::Array(size, each) => push_elements(alloc, columns, name, *size, each.get()),
        Ty::Struct(_, fields) => push_fields(alloc, columns, name, fields.as_slice()),
    }
}

/// Appends the cells of a variable.
pub fn push_columns(
    alloc: Global,
    columns: &mut Vec<Column>,
    variable: &Variable,
) -> Result<(), AllocError>
    ensures { OnOk result (map cell_of columns.new.items ≡ map cell_of columns.old.items ++ all_columns variable.now) }
{
    let mut name = Vec::new(alloc);
    push_name(&mut name, variable.name.bytes())?;
    push_cells(alloc, columns, name.as_slice(), &variable.ty)
}
