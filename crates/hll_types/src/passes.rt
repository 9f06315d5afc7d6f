//! The static rules over a whole text.

ghost use Rattle.std.specs.Prelude.{◌≡◌, ◌++◌, [], MatchResult};
ghost use Rattle.hll_meaning.specs.Declarations.{names as declared};
ghost use Rattle.hll_meaning.specs.StaticRules.{pass3_faults};
ghost use Rattle.hll_expressions.specs.Answers.{IsFaultAt};
ghost use Rattle.hll_meaning.specs.StaticRules.{faults};
ghost use Rattle.hll_types.specs.Checked.{AreVariables};
ghost use Rattle.hll_types.specs.Defining.{pass2};
ghost use Rattle.hll_types.specs.Tables.{IsChecked};
ghost use Rattle.hll_expressions.specs.Things.{declared_names, names_of};

use crate::declare::declare;
use crate::define::{complete_all, define};
use crate::elements::Elements;
use crate::range_table::RangeTable;
use crate::ranges::ranges_of;
use crate::settle::settled;
use crate::tables::Tables;
use crate::variables::{Variable, places, positions, variables};
use hll_expressions::{StaticFault, Things};
use hll_tree::HllModel;
use std::alloc::Global;

/// The second and the third pass, under the names that the first one has declared: they give the variables.
fn later_passes(
    alloc: Global,
    names: &Things,
    model: &HllModel,
) -> Result<Vec<Variable>, StaticFault>
    requires { declared_names names.now ≡ declared model.now }
    ensures { MatchResult result (λ vs. ((pass2 (names_of names.now) model.now).faults ++ pass3_faults model.now ≡ []) × AreVariables model.now vs.items) (IsFaultAt ((pass2 (names_of names.now) model.now).faults ++ pass3_faults model.now)) }
{
    let defined = define(alloc, names, model)?;
    complete_all(&defined, model)?;
    let places = places(alloc, model)?;
    let variables = variables(alloc, names, &defined, places.as_slice())?;
    Ok(variables)
}

/// The tables of a text without faults; else its first fault.
pub fn tables(alloc: Global, model: &HllModel) -> Result<Tables, StaticFault>
    ensures { MatchResult result (IsChecked model.now) (IsFaultAt (faults model.now)) }
{
    let declared = declare(alloc, model)?;
    let names = settled(alloc, &declared.names, &declared.sorts)?;
    let variables = later_passes(alloc, &names, model)?;
    let positions = positions(alloc, variables.as_slice())?;
    let elements = Elements::among(alloc, &names)?;
    let noted = ranges_of(alloc, &names, model)?;
    let ranges = RangeTable::new(alloc, &noted)?;
    Ok(Tables {
        names,
        variables,
        positions,
        elements,
        ranges,
    })
}
