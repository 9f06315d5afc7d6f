//! The definitions of one variable.

ghost use Rattle.std.specs.Prelude.{◌≡◌, ◌++◌, ◌∷◌, [], take};
ghost use Rattle.hll_meaning.specs.StaticRules.{is_first as is_first_part, part_kind};
ghost use Rattle.dependence.specs.Ways.{way_by};
ghost use Rattle.cell_definitions.specs.Ways.{way_of};
ghost use Rattle.cell_definitions.specs.Parts.{kept};

use hll_tree::{Def, Part};

/// What defines a cell.
#[derive(Clone, Copy)]
pub enum Definitions<'a> {
    /// Nothing: it is one of an input.
    Input,
    /// A definition with its value, or with both its first value and the next one.
    One(&'a Def),
    Two { first: &'a Def, next: &'a Def },
}

/// The definitions of a variable, in text order: there are two at most.
#[derive(Clone, Copy)]
pub(crate) struct Kept<'a> {
    pub first: Option<&'a Def>,
    pub second: Option<&'a Def>,
}

/// Whether a part gives the first value alone.
fn is_first(part: &Part) -> bool
    ensures { result ≡ is_first_part (part_kind part.now) }
{
    match part {
        Part::First(_) => true,
        Part::Value(_) | Part::Both(_, _) | Part::Next(_) => false,
    }
}

impl<'a> Kept<'a> {
    pub(crate) fn none() -> Kept<'a>
        ensures { kept result ≡ [] }
    {
        Kept {
            first: None,
            second: None,
        }
    }

    /// One definition more, if there is room for it.
    pub(crate) fn with(self, def: &'a Def) -> Kept<'a>
        ensures { kept result ≡ take 2 (kept self.entry ++ def.now ∷ []) }
    {
        match (self.first, self.second) {
            (None, _) => Kept {
                first: Some(def),
                second: None,
            },
            (Some(first), None) => Kept {
                first: Some(first),
                second: Some(def),
            },
            (Some(_), Some(_)) => self,
        }
    }

    /// What these definitions are.
    pub(crate) fn definitions(self) -> Definitions<'a>
        ensures { way_of result ≡ way_by (kept self.entry) }
    {
        match (self.first, self.second) {
            (Some(def), None) => Definitions::One(def),
            (Some(def), Some(other)) => in_order(def, other),
            (None, _) => Definitions::Input,
        }
    }
}

/// Two definitions, that of the first value in front.
fn in_order<'a>(def: &'a Def, other: &'a Def) -> Definitions<'a>
    ensures { way_of result ≡ way_by (def.now ∷ other.now ∷ []) }
{
    if is_first(&def.part) {
        Definitions::Two {
            first: def,
            next: other,
        }
    } else {
        Definitions::Two {
            first: other,
            next: def,
        }
    }
}
