ghost use Rattle.std.specs.Prelude.{◌≡◌, IfOk};

use hll_lexer::Word;
use intervals::Interval;
use sqlite_items::{Boxed, Items};
use std::alloc::{AllocError, Global};

/// A type of values.
#[cycle(types)]
#[derive(Drop)]
pub enum Ty {
    Bool,
    Int(Interval),
    /// The elements of an enumeration or a sort, by the name of its root and their codes there.
    Elem(Word, Interval),
    /// How many values of one type.
    Array(u64, Boxed<Ty>),
    /// The name of a struct, and its fields.
    Struct(Word, Items<FieldTy>),
}

/// A field of a struct.
#[cycle(types)]
#[derive(Drop)]
pub struct FieldTy {
    pub name: Word,
    pub ty: Ty,
}

impl Ty {
    /// The same type, in memory of its own.
    #[cycle(copying)]
    pub fn copy(&self, alloc: Global) -> Result<Ty, AllocError>
        ensures { IfOk result (λ t. t ≡ self.now) }
    {
        match self {
            Ty::Bool => Ok(Ty::Bool),
            Ty::Int(ends) => Ok(Ty::Int(*ends)),
            Ty::Elem(root, codes) => Ok(Ty::Elem(Word::new(alloc, root.bytes())?, *codes)),
            Ty::Array(length, each) => {
                Ok(Ty::Array(*length, Boxed::new(alloc, each.get().copy(alloc)?)?))
            }
            Ty::Struct(name, fields) => Ok(Ty::Struct(
                Word::new(alloc, name.bytes())?,
                copy_fields(alloc, fields.as_slice())?,
            )),
        }
    }
}

impl FieldTy {
    /// The same field, in memory of its own.
    #[cycle(copying)]
    pub fn copy(&self, alloc: Global) -> Result<FieldTy, AllocError>
        ensures { IfOk result (λ f. f ≡ self.now) }
    {
        Ok(FieldTy {
            name: Word::new(alloc, self.name.bytes())?,
            ty: self.ty.copy(alloc)?,
        })
    }
}

#[cycle(copying)]
fn copy_fields(alloc: Global, fields: &[FieldTy]) -> Result<Items<FieldTy>, AllocError>
    ensures { IfOk result (λ copies. copies ≡ fields.now) }
{
    let mut copies = Items::new(alloc);
    for field in fields {
        copies.push(field.copy(alloc)?)?;
    }
    Ok(copies)
}
