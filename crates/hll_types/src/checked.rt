//! Texts without static faults.

ghost use Rattle.std.specs.Prelude.{◌≡◌, Some, map, option_map, position, MatchResult};
ghost use Rattle.std.specs.Option.{option_copied};
ghost use Rattle.std.specs.Str.{bytes_eq};
ghost use Rattle.hll_meaning.specs.Declarations.{names};
ghost use Rattle.hll_meaning.specs.Names.{under};
ghost use Rattle.hll_meaning.specs.Nodes.{text_ranges};
ghost use Rattle.hll_meaning.specs.Runs.{variables};
ghost use Rattle.hll_meaning.specs.StaticRules.{faults, Well};
ghost use Rattle.hll_meaning.specs.Texts.{HasText};
ghost use Rattle.hll_meaning.specs.Types.{kind_of};
ghost use Rattle.hll_expressions.specs.Answers.{IsFaultAt};
ghost use Rattle.hll_expressions.specs.Things.{said_of};
ghost use Rattle.hll_types.specs.Checked.{type_in, value_in, AreVariables, IsElementOf, IsFoundAt};

use crate::passes::tables;
use crate::tables::Tables;
use crate::variables::Variable;
use hll_expressions::{Found, StaticFault, Thing};
use hll_lexer::Word;
use hll_meaning::Ty;
use hll_tree::HllModel;
use intervals::Interval;
use std::alloc::Global;
use std::marker::Model;

/// A text that is spelled and has no static faults, with what is kept of it for its readers. Contracts see the text.
#[derive(Drop)]
pub struct Checked {
    model: HllModel,
    tables: Tables,
}

impl Model for Checked {
    ghost use Rattle.hll_tree.specs.declared.tree.HllModel.{HllModel};

    ghost Value = { HllModel };

    ghost use Rattle.hll_tree.specs.contracts.tree.HllModel.{the_row};

    ghost coded = { the_row.coded };

    ghost use Rattle.hll_types.specs.Tables.{IsKept};

    ghost view = { λ c. c.model };

    ghost invariant = { λ c. IsKept c.model c.tables };
}

/// The type that a name stands for.
fn declared_type(thing: &Thing) -> Option<&Ty>
    ensures { option_map kind_of (option_copied result) ≡ type_in (Some (said_of thing.now)) }
{
    match thing {
        Thing::Type(ty) => Some(ty),
        Thing::Truth(_) | Thing::Number(_) | Thing::Element { .. } | Thing::Variable { .. } => None,
    }
}

/// A text that is checked, where it has no static fault; else its first fault, and the text is given up.
pub fn check(alloc: Global, model: HllModel) -> Result<Checked, StaticFault>
    requires { HasText model }
    ensures { MatchResult result (λ checked. (checked ≡ model) × Well model) (IsFaultAt (faults model)) }
{
    let tables = tables(alloc, &model)?;
    Ok(Checked { model, tables })
}

impl Checked {
    pub fn model(&self) -> &HllModel
        ensures is { result.now ≡ self.now }
        ensures well { Well self.now }
        ensures spelled { HasText self.now }
    {
        &self.model
    }

    /// The variables, in text order.
    pub fn variables(&self) -> &[Variable]
        ensures { AreVariables self.now result.now }
    {
        self.tables.variables.as_slice()
    }

    /// Where the variable of a name stands among the variables.
    pub fn variable_of(&self, name: &[u8]) -> Option<usize>
        ensures { result ≡ position (bytes_eq name.now) (map (λ x. x.0) (variables self.now)) }
    {
        self.tables.positions.get_index_of(name)
    }

    /// The number of a constant, of a truth value 0 or 1, or the code of an element.
    pub fn value_of(&self, name: &[u8]) -> Option<i128>
        ensures { result ≡ value_in (under name.now (names self.now)) }
    {
        match self.tables.names.get(name) {
            Found::Thing(Thing::Truth(value)) => Some(i128::from(*value)),
            Found::Thing(Thing::Number(number)) => Some(number.value),
            Found::Thing(Thing::Element { code, .. }) => Some(i128::from(*code)),
            Found::Thing(Thing::Type(_) | Thing::Variable { .. }) | Found::Later | Found::Nothing =>
                None,
        }
    }

    /// The type of a name.
    pub fn type_of(&self, name: &[u8]) -> Option<&Ty>
        ensures { option_map kind_of (option_copied result) ≡ type_in (under name.now (names self.now)) }
    {
        match self.tables.names.get(name) {
            Found::Thing(thing) => declared_type(thing),
            Found::Later | Found::Nothing => None,
        }
    }

    /// The name of the element with this code in a root.
    pub fn element_of(&self, root: &[u8], code: u64) -> Option<&Word>
        ensures { IsElementOf (names self.now) root.now code (option_copied result) }
    {
        self.tables.elements.get(root, code)
    }

    /// The range of the scalar expression at a place, where one stands; a truth value has 0 to 1.
    pub fn interval_of(&self, at: u64) -> Option<Interval>
        ensures { IsFoundAt (text_ranges self.now) at result }
    {
        self.tables.ranges.range_at(at)
    }
}
