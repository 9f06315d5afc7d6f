use crate::{FieldTy, Ty};
use hll_lexer::Word;
use intervals::Interval;
use sqlite_items::{Boxed, Items};
use std::alloc::{AllocError, Global};
use std::test::Fail;

/// The spelling of the type that is copied.
const SPELLED: &str = "pair{flag:bool row:[4]-3..7 colour:hue 0..2 none:nothing{} }";

/// Appends a spelling of a type, with each of its parts.
fn spell(out: &mut Vec<u8>, alloc: Global, ty: &Ty) -> Result<(), AllocError> {
    match ty {
        Ty::Bool => out.extend_from_slice(b"bool"),
        Ty::Int(ends) => spell_ends(out, alloc, *ends),
        Ty::Elem(root, codes) => {
            out.extend_from_slice(root.bytes())?;
            out.push(b' ')?;
            spell_ends(out, alloc, *codes)
        }
        Ty::Array(length, each) => {
            out.extend_from_slice(format!(in alloc; "[{length}]")?.as_bytes())?;
            spell(out, alloc, each.get())
        }
        Ty::Struct(name, fields) => {
            out.extend_from_slice(name.bytes())?;
            out.push(b'{')?;
            for field in fields.as_slice() {
                out.extend_from_slice(field.name.bytes())?;
                out.push(b':')?;
                spell(out, alloc, &field.ty)?;
                out.push(b' ')?;
            }
            out.push(b'}')?;
            Ok(())
        }
    }
}

fn spell_ends(out: &mut Vec<u8>, alloc: Global, ends: Interval) -> Result<(), AllocError> {
    out.extend_from_slice(format!(in alloc; "{}..{}", ends.lo, ends.hi)?.as_bytes())
}

fn field(alloc: Global, name: &str, ty: Ty) -> Result<FieldTy, AllocError> {
    Ok(FieldTy {
        name: Word::new(alloc, name.as_bytes())?,
        ty,
    })
}

/// A structure with a type of each kind.
fn structure(alloc: Global, numbers: Interval, codes: Interval) -> Result<Ty, AllocError> {
    let row = Ty::Array(4, Boxed::new(alloc, Ty::Int(numbers))?);
    let colour = Ty::Elem(Word::new(alloc, b"hue")?, codes);
    let none = Ty::Struct(Word::new(alloc, b"nothing")?, Items::new(alloc));
    let mut fields = Items::new(alloc);
    fields.push(field(alloc, "flag", Ty::Bool)?)?;
    fields.push(field(alloc, "row", row)?)?;
    fields.push(field(alloc, "colour", colour)?)?;
    fields.push(field(alloc, "none", none)?)?;
    Ok(Ty::Struct(Word::new(alloc, b"pair")?, fields))
}

#[test]
fn copies_of_types_have_every_part(rt: HostRuntime) -> Result<(), Fail> {
    let numbers = Interval::new(-3, 7).ok_or("-3..7")?;
    let codes = Interval::new(0, 2).ok_or("0..2")?;
    let copy = structure(rt.alloc(), numbers, codes)?.copy(rt.alloc())?;
    let mut spelled = Vec::new(rt.alloc());
    spell(&mut spelled, rt.alloc(), &copy)?;
    assert_eq!(rt; spelled.as_slice(), SPELLED.as_bytes());
    let field = field(rt.alloc(), "whole", copy)?.copy(rt.alloc())?;
    assert_eq!(rt; field.name.bytes(), b"whole".as_slice());
    spelled.clear();
    spell(&mut spelled, rt.alloc(), &field.ty)?;
    assert_eq!(rt; spelled.as_slice(), SPELLED.as_bytes());
    Ok(())
}
