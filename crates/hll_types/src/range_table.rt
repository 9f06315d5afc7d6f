//! The ranges of scalar expressions, found by their places.

ghost use Rattle.std.specs.Prelude.{◌≡◌, ◌∷◌, ◌++◌, [], List, IfErr, IfOk, OnOk};
ghost use Rattle.hll_meaning.specs.Nodes.{Placed as PlacedRange};
ghost use Rattle.hll_expressions.specs.declared.faults.StaticFault.TheVariants.{Memory};
ghost use Rattle.hll_expressions.specs.Ranges.{noted_in, placed as placed_range};
ghost use Rattle.hll_types.specs.Checked.{IsFoundAt};
ghost use Rattle.hll_types.specs.RangeTables.{Tabulates};

use hll_expressions::{Placed, Ranges, StaticFault};
use indexmap::IndexMap;
use intervals::Interval;
use std::alloc::Global;

/// The ranges of scalar expressions, by their places.
#[derive(Drop)]
pub struct RangeTable {
    by_place: IndexMap<u64, Interval>,
}

impl RangeTable {
    /// The table of what is noted.
    pub fn new(alloc: Global, ranges: &Ranges) -> Result<RangeTable, StaticFault>
        ensures table { IfOk result (λ t. Tabulates t (noted_in ranges.now)) }
        ensures memory { IfErr result (λ wrong. wrong ≡ Memory) }
    {
        let mut table = RangeTable {
            by_place: IndexMap::new(alloc),
        };
        let list = ranges.as_slice();
        for placed in list {
            table.add(placed)?;
        }
        Ok(table)
    }

    /// Adds the range of a place.
    fn add(&mut self, placed: &Placed) -> Result<(), StaticFault>
        ensures added { (rs : List PlacedRange) → Tabulates self.old rs → OnOk result (Tabulates self.new (rs ++ placed_range placed.now ∷ [])) }
        ensures memory { IfErr result (λ wrong. wrong ≡ Memory) }
    {
        match self.by_place.insert(placed.at, placed.range) {
            Ok(_) => Ok(()),
            Err(_) => Err(StaticFault::Memory),
        }
    }

    /// The range of the scalar expression at a place.
    pub fn range_at(&self, at: u64) -> Option<Interval>
        ensures { (rs : List PlacedRange) → Tabulates self.now rs → IsFoundAt rs at result }
    {
        self.by_place.get(&at).copied()
    }
}
