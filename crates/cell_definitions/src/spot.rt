//! The element that holds a cell, with the numbers of its index names.

ghost use Rattle.std.specs.Prelude.{◌≡◌, ◌<◌, [], IfOk};
ghost use Rattle.hll_meaning.specs.Kinds.{cells};
ghost use Rattle.hll_meaning.specs.StaticRules.{left_side};
ghost use Rattle.hll_meaning.specs.Types.{kind_of};
ghost use Rattle.cell_definitions.specs.Parts.{IsFoundIn, IsLevel};

use hll_meaning::Ty;
use hll_tree::Slot;
use std::alloc::AllocError;

/// The number of an index name.
#[derive(Clone, Copy)]
pub struct Numbered<'a> {
    pub name: &'a [u8],
    pub number: i128,
}

/// The type of the element that holds a cell, and the place of the cell in it.
#[derive(Clone, Copy)]
pub struct Spot<'a> {
    pub ty: &'a Ty,
    pub place: u64,
}

/// A level of an array that has an index name.
#[derive(Clone, Copy)]
struct Level<'a> {
    name: &'a [u8],
    size: u64,
    each: &'a Ty,
}

/// The level that an index name has in an array.
fn level_of<'a>(slot: &'a Slot, ty: &'a Ty) -> Option<Level<'a>>
    ensures { IsLevel slot.now (kind_of ty.now) result }
{
    match slot {
        Slot::Index(name) => match ty {
            Ty::Array(size, each) => Some(Level {
                name: name.text.bytes(),
                size: *size,
                each: each.get(),
            }),
            Ty::Bool | Ty::Int(_) | Ty::Elem(_, _) | Ty::Struct(_, _) => None,
        },
        Slot::Fixed { .. } => None,
    }
}

/// The element that slots pick at a place of a value with so many cells. Its index names follow with their numbers, the innermost
/// last.
pub(crate) fn find_spot<'a>(
    slots: &'a [Slot],
    ty: &'a Ty,
    count: u64,
    place: u64,
    numbers: &mut Vec<Numbered<'a>>,
) -> Result<Spot<'a>, AllocError>
    requires levels { (left_side slots.now (kind_of ty.now)).faults ≡ [] }
    requires counted { count ≡ cells (kind_of ty.now) }
    requires within { place < count }
    requires empty { numbers.old.items ≡ [] }
    ensures { IfOk result (IsFoundIn slots.now (kind_of ty.now) place numbers.new.items) }
{
    let mut spot = Spot { ty, place };
    let mut count = count;
    for slot in slots {
        let Some(level) = level_of(slot, spot.ty) else {
            break;
        };
        count /= level.size;
        numbers.push(Numbered {
            name: level.name,
            number: i128::from(spot.place / count),
        })?;
        spot = Spot {
            ty: level.each,
            place: spot.place % count,
        };
    }
    Ok(spot)
}
