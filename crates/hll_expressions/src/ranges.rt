//! The ranges of scalar expressions by their places.

ghost use Rattle.std.specs.Prelude.{◌≡◌, [], map, IfErr, List, OnOk};
ghost use Rattle.hll_meaning.specs.Nodes.{Placed as PlacedRange};
ghost use Rattle.hll_meaning.specs.Types.{kind_of};
ghost use Rattle.hll_expressions.specs.declared.faults.StaticFault.TheVariants.{Memory};
ghost use Rattle.hll_expressions.specs.declared.ranges.Ranges.{Ranges};
ghost use Rattle.hll_expressions.specs.Described.{known};
ghost use Rattle.hll_expressions.specs.Ranges.{noted_in, placed, range_at, HasNoted, IsRangeOf};

use crate::faults::{StaticFault, push};
use crate::given::Given;
use hll_meaning::Ty;
use intervals::Interval;
use std::alloc::Global;

/// The place of a scalar expression, and its range.
#[derive(Clone, Copy, Debug, PartialEq, Eq)]
pub struct Placed {
    pub at: u64,
    pub range: Interval,
}

/// The ranges of scalar expressions, in the order in which they are noted.
#[derive(Drop)]
pub struct Ranges {
    list: Vec<Placed>,
    keeps: bool,
}

/// The range of a scalar: a truth value has 0 to 1, an element the codes that it may have.
#[tactic(auto, using(crate::proofs::KindForms::kind_of_bool, crate::proofs::KindForms::kind_of_int, crate::proofs::KindForms::kind_of_elem, crate::proofs::KindForms::kind_of_array, crate::proofs::KindForms::kind_of_struct))]
pub fn scalar_range(kind: &Ty) -> Option<Interval>
    ensures { IsRangeOf (kind_of kind.now) result }
{
    match kind {
        Ty::Bool => Some(Interval { lo: 0, hi: 1 }),
        Ty::Int(range) | Ty::Elem(_, range) => Some(*range),
        Ty::Array(_, _) | Ty::Struct(_, _) => None,
    }
}

impl Ranges {
    /// All that is noted from here on is kept.
    pub fn new(alloc: Global) -> Ranges
        ensures { (new : Ranges) (rs : List PlacedRange) → HasNoted result new rs → noted_in new ≡ rs }
    {
        Ranges {
            list: Vec::new(alloc),
            keeps: true,
        }
    }

    /// Nothing is kept, which takes no memory.
    pub fn silent(alloc: Global) -> Ranges
        ensures { noted_in result ≡ [] }
    {
        Ranges {
            list: Vec::new(alloc),
            keeps: false,
        }
    }

    /// What is noted.
    pub fn as_slice(&self) -> &[Placed]
        ensures { map placed result.now ≡ noted_in self.now }
    {
        self.list.as_slice()
    }

    /// Notes the range of an expression, where it is scalar.
    pub fn note(&mut self, at: u64, given: &Given) -> Result<(), StaticFault>
        ensures noted { OnOk result (HasNoted self.old self.new (range_at at (known given.now).kind)) }
        ensures memory { IfErr result (λ wrong. wrong ≡ Memory) }
    {
        if !self.keeps {
            return Ok(());
        }
        match given.range() {
            Some(range) => push(&mut self.list, Placed { at, range }),
            None => Ok(()),
        }
    }
}
