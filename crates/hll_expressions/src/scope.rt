//! Where an expression stands.

ghost use Rattle.std.specs.Prelude.{◌≡◌, option_map};
ghost use Rattle.std.specs.Option.{option_copied};
ghost use Rattle.hll_meaning.specs.Names.{under};
ghost use Rattle.hll_meaning.specs.Types.{kind_of};
ghost use Rattle.hll_expressions.specs.Scopes.{bound_names, index_names};

use crate::things::Things;
use hll_lexer::Word;
use hll_meaning::Ty;
use std::alloc::Global;

/// The name of an index with the kind of its places.
#[derive(Drop)]
pub struct Index {
    pub name: Word,
    pub kind: Ty,
}

/// Bound and index names with the kinds of their values, which are scalar.
#[derive(Clone, Copy)]
pub enum Bounds<'a> {
    /// The index names of a left side, the innermost last.
    Indices(&'a [Index]),
    /// The name of a quantifier, inside others.
    Bind {
        name: &'a [u8],
        kind: &'a Ty,
        outer: &'a Bounds<'a>,
    },
}

/// What names stand for, the bound and index names, and whether a constant is needed.
#[derive(Clone, Copy)]
pub struct Scope<'a> {
    pub alloc: Global,
    pub names: &'a Things,
    pub bound: Bounds<'a>,
    pub needs_constant: bool,
}

/// The kind of an index name.
fn index_kind<'i>(indices: &'i [Index], name: &[u8]) -> Option<&'i Ty>
    ensures { option_map kind_of (option_copied result) ≡ under name.now (index_names indices.now) }
{
    let mut found = None;
    for index in indices {
        if index.name.bytes() == name {
            found = Some(&index.kind);
        }
    }
    found
}

impl Bounds<'_> {
    /// The kind of a bound or index name.
    pub fn kind(&self, name: &[u8]) -> Option<&Ty>
        ensures { option_map kind_of (option_copied result) ≡ under name.now (bound_names self.now) }
    {
        match self {
            Bounds::Indices(indices) => index_kind(indices, name),
            Bounds::Bind {
                name: own,
                kind,
                outer,
            } => {
                if *own == name {
                    Some(*kind)
                } else {
                    outer.kind(name)
                }
            }
        }
    }
}
