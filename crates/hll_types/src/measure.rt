//! How large types are.

ghost use Rattle.std.specs.Prelude.{◌≡◌, ◌||◌, nat_lt};
ghost use Rattle.hll_meaning.specs.Types.{kind_of};
ghost use Rattle.hll_types.specs.Measures.{field_kinds_of, fields_measure, kind_measure};

use hll_meaning::{FieldTy, Ty};

/// The greatest number of cells of a type, and of all variables together.
pub const MOST_CELLS: u64 = 100_000;

/// The greatest number of arrays and structs in one another.
pub const MOST_LEVELS: u64 = 200;

/// The cells and the levels of a type. Where there are more than their type holds, its greatest number.
#[derive(Clone, Copy, Debug, PartialEq, Eq)]
pub struct Measure {
    pub cells: u64,
    pub levels: u64,
}

impl Measure {
    /// Whether a type is too large.
    pub fn is_large(&self) -> bool
        ensures { result ≡ (nat_lt 100000 self.now.cells || nat_lt 200 self.now.levels) }
    {
        self.cells > MOST_CELLS || self.levels > MOST_LEVELS
    }
}

/// The measure of fields together.
#[cycle(measuring)]
fn measure_fields(fields: &[FieldTy]) -> Measure
    ensures { result ≡ fields_measure (field_kinds_of fields.now) }
{
    let mut all = Measure {
        cells: 0,
        levels: 0,
    };
    for field in fields {
        let one = measure_of(&field.ty);
        all = Measure {
            cells: all.cells.saturating_add(one.cells),
            levels: all.levels.max(one.levels),
        };
    }
    all
}

/// The measure of a type.
#[cycle(measuring)]
#[tactic(auto, using(hll_expressions::proofs::KindForms::kind_of_bool, hll_expressions::proofs::KindForms::kind_of_int, hll_expressions::proofs::KindForms::kind_of_elem))]
pub fn measure_of(ty: &Ty) -> Measure
    ensures { result ≡ kind_measure (kind_of ty.now) }
{
    match ty {
        Ty::Bool | Ty::Int(_) | Ty::Elem(_, _) => Measure {
            cells: 1,
            levels: 0,
        },
        Ty::Array(count, each) => {
            let one = measure_of(each.get());
            Measure {
                cells: one.cells.saturating_mul(*count),
                levels: one.levels.saturating_add(1),
            }
        }
        Ty::Struct(_, fields) => {
            let all = measure_fields(fields.as_slice());
            Measure {
                cells: all.cells,
                levels: all.levels.saturating_add(1),
            }
        }
    }
}
