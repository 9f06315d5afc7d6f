//! How many cells the variables of a text have, and how long a trace may be.

ghost use Rattle.std.specs.Prelude.{◌≡◌, ◌+◌, ◌^◌, ◌<◌, ◌≤◌, ◌*◌, ◌↔◌, IsTrue, length};
ghost use Rattle.hll_meaning.specs.Cells.{text_cells};
ghost use Rattle.hll_meaning.specs.Kinds.{cells, field_ranges};
ghost use Rattle.hll_meaning.specs.Types.{kind_of};
ghost use Rattle.hll_types.specs.Measures.{capped, field_kinds_of};
ghost use Rattle.trace_text.specs.Traces.{AreFew};

use hll_meaning::{FieldTy, Ty};
use hll_types::Checked;

/// A trace has no more instants.
const MOST_INSTANTS: u64 = 65_536;

/// Its instants have no more values of all cells of the text.
const MOST_VALUES: u64 = 4_000_000;

/// The cells of fields together, held at the greatest number.
#[cycle(counting)]
fn cells_of_fields(fields: &[FieldTy]) -> u64
    ensures { result ≡ capped (length (field_ranges (field_kinds_of fields.now))) }
{
    let mut count: u64 = 0;
    for field in fields {
        count = count.saturating_add(cells_of_type(&field.ty));
    }
    count
}

/// The cells of a value of a type, held at the greatest number.
#[cycle(counting)]
#[tactic(auto, using(hll_meaning::proofs::KindForms::kind_of_bool, hll_meaning::proofs::KindForms::kind_of_int, hll_meaning::proofs::KindForms::kind_of_elem))]
fn cells_of_type(ty: &Ty) -> u64
    ensures { result ≡ capped (cells (kind_of ty.now)) }
{
    match ty {
        Ty::Bool | Ty::Int(_) | Ty::Elem(_, _) => 1,
        Ty::Array(size, each) => cells_of_type(each.get()).saturating_mul(*size),
        Ty::Struct(_, fields) => cells_of_fields(fields.as_slice()),
    }
}

/// The cells of all variables of a text, held at the greatest number.
pub(crate) fn all_cells(checked: &Checked) -> u64
    ensures { result ≡ capped (length (text_cells checked.now)) }
{
    let variables = checked.variables();
    let mut count: u64 = 0;
    for variable in variables {
        count = count.saturating_add(cells_of_type(&variable.ty));
    }
    count
}

/// Whether a text of so many cells may have a trace with one more instant.
pub(crate) fn has_room(cells: u64, instants: u64) -> bool
    ensures { IsTrue result ↔ ((instants + 1 ≤ 65536) × ((instants + 1) * cells ≤ 4000000)) }
{
    instants < MOST_INSTANTS && (instants + 1).saturating_mul(cells) <= MOST_VALUES
}
