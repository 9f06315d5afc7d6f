//! What names stand for.

ghost use Rattle.std.specs.Prelude.{◌≡◌, ◌++◌, ◌∷◌, [], ℕ, List, false, map, OnOk};
ghost use Rattle.std.specs.List.{IsDistinct};
ghost use Rattle.std.specs.Str.{bytes_eq};
ghost use Rattle.hll_meaning.specs.Declarations.{is_among};
ghost use Rattle.hll_meaning.specs.Names.{later, under};
ghost use Rattle.hll_expressions.specs.Things.{declared_names, names_further, IsAdded};
ghost use Rattle.hll_expressions.specs.Things.{names_of, said_of, thing_found};

use crate::narrow::Narrow;
use hll_lexer::Word;
use hll_meaning::Ty;
use indexmap::map::Iter;
use indexmap::{IndexMap, IndexSet};
use std::alloc::{AllocError, Global};

/// What a name stands for.
#[derive(Drop)]
pub enum Thing {
    /// A constant that is a truth value.
    Truth(bool),
    /// A constant that is a whole number.
    Number(Narrow),
    Type(Ty),
    /// An element, by the name of its root and its code there.
    Element { root: Word, code: u64 },
    Variable { input: bool, ty: Ty },
}

/// What is found under a name.
#[derive(Clone, Copy)]
pub enum Found<'s> {
    Thing(&'s Thing),
    /// A variable or an element stands further on.
    Later,
    Nothing,
}

/// Names with what they stand for, in the order of the text, and names of variables and elements that stand further on.
#[derive(Drop)]
pub struct Things {
    alloc: Global,
    declared: IndexMap<Vec<u8>, Thing>,
    further: IndexSet<Vec<u8>>,
}

impl Things {
    pub fn new(alloc: Global) -> Things
        ensures declared { declared_names result ≡ [] }
        ensures further { names_further result ≡ [] }
    {
        Things {
            alloc,
            declared: IndexMap::new(alloc),
            further: IndexSet::new(alloc),
        }
    }

    /// What is declared, in the order of the text: each name once.
    pub fn iter(&self) -> Iter<'_, Vec<u8>, Thing>
        ensures rest { result ≡ self.now.declared.entries }
        ensures distinct { IsDistinct bytes_eq (map (λ x. x.0) (declared_names self.now)) }
    {
        self.declared.iter()
    }

    /// Whether a name is declared.
    pub fn holds(&self, name: &[u8]) -> bool
        ensures { result ≡ is_among (map (λ x. x.0) (declared_names self.now)) name.now }
    {
        self.declared.get(name).is_some()
    }

    /// What stands under a name.
    pub fn get(&self, name: &[u8]) -> Found<'_>
        ensures { thing_found result ≡ under name.now (names_of self.now) }
    {
        match self.declared.get(name) {
            Some(thing) => Found::Thing(thing),
            None if self.further.contains(name) => Found::Later,
            None => Found::Nothing,
        }
    }

    /// Declares a name: one that isn't declared goes last.
    pub fn declare(&mut self, name: &[u8], thing: Thing) -> Result<(), AllocError>
        ensures { OnOk result (is_among (map (λ x. x.0) (declared_names self.old)) name.now ≡ false → IsAdded self.old self.new (declared_names self.old ++ (name.now, said_of thing) ∷ [])) }
    {
        let name = Vec::from_slice(self.alloc, name)?;
        match self.declared.insert(name, thing) {
            Ok(_) => Ok(()),
            Err(_) => Err(AllocError),
        }
    }

    /// Notes a variable or an element that stands further on.
    pub fn expect(&mut self, name: &[u8]) -> Result<(), AllocError>
        ensures declared { OnOk result (declared_names self.new ≡ declared_names self.old) }
        ensures further { OnOk result ((n : List ℕ) → under n (names_further self.new) ≡ under n (names_further self.old ++ (name.now, later) ∷ [])) }
    {
        let name = Vec::from_slice(self.alloc, name)?;
        match self.further.insert(name) {
            Ok(_) => Ok(()),
            Err(_) => Err(AllocError),
        }
    }
}
