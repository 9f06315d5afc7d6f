//! How many cells values have.

ghost use Rattle.std.specs.Prelude.{◌≡◌, length};
ghost use Rattle.hll_meaning.specs.Kinds.{cells, field_ranges};
ghost use Rattle.hll_meaning.specs.Types.{kind_of};
ghost use Rattle.hll_types.specs.Measures.{capped, field_kinds_of};

use hll_meaning::{FieldTy, Ty};

/// The cells of fields together.
#[cycle(counting)]
fn cells_of_fields(fields: &[FieldTy]) -> u64
    ensures { result ≡ capped (length (field_ranges (field_kinds_of fields.now))) }
{
    let mut count: u64 = 0;
    for field in fields {
        count = count.saturating_add(cells_of_type(&field.ty));
    }
    count
}

/// How many cells a value of a type has; the greatest number where there are more.
#[cycle(counting)]
#[tactic(auto, using(hll_meaning::proofs::KindForms::kind_of_bool, hll_meaning::proofs::KindForms::kind_of_int, hll_meaning::proofs::KindForms::kind_of_elem))]
pub fn cells_of_type(ty: &Ty) -> u64
    ensures { result ≡ capped (cells (kind_of ty.now)) }
{
    match ty {
        Ty::Bool | Ty::Int(_) | Ty::Elem(_, _) => 1,
        Ty::Array(size, each) => cells_of_type(each.get()).saturating_mul(*size),
        Ty::Struct(_, fields) => cells_of_fields(fields.as_slice()),
    }
}
