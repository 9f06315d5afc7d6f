//! All places at which what a path reaches may begin.

ghost use Rattle.std.specs.Prelude.{◌≡◌, ◌+◌, ◌*◌, ◌++◌, map, OnOk};
ghost use Rattle.std.specs.List.{flat_map, range_with_len};
ghost use Rattle.hll_meaning.specs.Types.{kind_of};
ghost use Rattle.hll_types.specs.Measures.{capped};
ghost use Rattle.dependence.specs.Mentions.{reached};
ghost use Rattle.cell_layout.specs.Parts.{picks_of};

use crate::part::{Part, element_in, field_in};
use crate::sizes::cells_of_type;
use hll_meaning::Ty;
use std::alloc::{AllocError, Global};

/// A step into cells: to the element at an index, to every element, or to a field.
#[derive(Clone, Copy)]
pub enum Pick<'p> {
    One(i128),
    Every,
    Named(&'p [u8]),
}

/// Appends numbers, each so much greater.
fn push_shifted(starts: &mut Vec<u64>, firsts: &[u64], by: u64) -> Result<(), AllocError>
    ensures { OnOk result (starts.new.items ≡ starts.old.items ++ map (λ at. capped (at + by)) firsts.now) }
{
    for first in firsts {
        starts.push(first.saturating_add(by))?;
    }
    Ok(())
}

/// Appends what is reached in each element of an array, by what is reached in the first one.
fn push_elements(
    starts: &mut Vec<u64>,
    firsts: &[u64],
    size: u64,
    each: u64,
) -> Result<(), AllocError>
    ensures { OnOk result (starts.new.items ≡ starts.old.items ++ flat_map (λ place. map (λ at. capped (at + capped (each * place))) firsts.now) (range_with_len 0 size)) }
{
    for place in 0..size {
        push_shifted(starts, firsts, each.saturating_mul(place))?;
    }
    Ok(())
}

/// Appends all cells at which what is picked in a value may begin, of a type that begins at a cell.
fn push_in(
    alloc: Global,
    starts: &mut Vec<u64>,
    start: u64,
    ty: &Ty,
    picks: &[Pick<'_>],
) -> Result<(), AllocError>
    ensures { OnOk result (starts.new.items ≡ starts.old.items ++ map (λ at. capped (start + at)) (reached (kind_of ty.now) (picks_of picks.now))) }
{
    let [pick, rest @ ..] = picks else {
        starts.push(start)?;
        return Ok(());
    };
    match pick {
        Pick::One(index) => match element_in(start, ty, *index) {
            Some(element) => push_in(alloc, starts, element.start, element.ty, rest),
            None => Ok(()),
        },
        Pick::Every => match ty {
            Ty::Array(size, each) => {
                let each = each.get();
                let mut firsts = Vec::new(alloc);
                push_in(alloc, &mut firsts, start, each, rest)?;
                push_elements(starts, firsts.as_slice(), *size, cells_of_type(each))
            }
            Ty::Bool | Ty::Int(_) | Ty::Elem(_, _) | Ty::Struct(_, _) => Ok(()),
        },
        Pick::Named(name) => match field_in(start, ty, name) {
            Some(field) => push_in(alloc, starts, field.start, field.ty, rest),
            None => Ok(()),
        },
    }
}

/// Appends all cells at which what is picked in a part may begin, each at most the greatest number.
pub fn push_reached(
    alloc: Global,
    starts: &mut Vec<u64>,
    part: Part<'_>,
    picks: &[Pick<'_>],
) -> Result<(), AllocError>
    ensures { OnOk result (starts.new.items ≡ starts.old.items ++ map (λ at. capped (part.entry.start + at)) (reached (kind_of part.entry.ty.now) (picks_of picks.now))) }
{
    push_in(alloc, starts, part.start, part.ty, picks)
}
