//! Where variables begin.

ghost use Rattle.std.specs.Prelude.{◌≡◌, option_map, IfOk};
ghost use Rattle.hll_meaning.specs.Runs.{variables};
ghost use Rattle.hll_meaning.specs.StaticRules.{Well};
ghost use Rattle.hll_meaning.specs.Texts.{HasText};
ghost use Rattle.dependence.specs.Mentions.{stretch_of};
ghost use Rattle.cell_layout.specs.Parts.{stretch_of_part};

use crate::part::Part;
use crate::sizes::cells_of_type;
use hll_types::Checked;
use std::alloc::{AllocError, Global};
use std::marker::Model;

/// Where the variables of a text begin among its cells. Contracts see the text.
#[derive(Drop)]
pub struct Layout<'a> {
    checked: &'a Checked,
    /// For each variable its first cell.
    starts: Vec<u64>,
}

impl<'a> Model for Layout<'a> {
    ghost use Rattle.hll_tree.specs.declared.tree.HllModel.{HllModel};

    ghost Value = { HllModel };

    ghost use Rattle.hll_tree.specs.contracts.tree.HllModel.{the_row};

    ghost coded = { the_row.coded };

    ghost use Rattle.cell_layout.specs.Starts.{IsLayout};

    ghost view = { λ l. l.checked.now };

    ghost invariant = { λ l. IsLayout l.checked.now l.starts.items };
}

impl<'a> Layout<'a> {
    pub fn new(alloc: Global, checked: &'a Checked) -> Result<Layout<'a>, AllocError>
        ensures { IfOk result (λ l. l ≡ checked.now) }
    {
        let _model = checked.model();
        let variables = checked.variables();
        let mut starts = Vec::new(alloc);
        let mut start = 0;
        for variable in variables {
            starts.push(start)?;
            start += cells_of_type(&variable.ty);
        }
        Ok(Layout { checked, starts })
    }

    /// The text.
    pub fn text(&self) -> &'a Checked
        ensures is { result.now ≡ self.now }
        ensures well { Well self.now }
        ensures spelled { HasText self.now }
    {
        self.checked
    }

    /// The variable of a name.
    pub fn variable(&self, name: &[u8]) -> Option<Part<'a>>
        ensures { option_map stretch_of_part result ≡ stretch_of (variables self.now) name.now }
    {
        let at = self.checked.variable_of(name)?;
        let variables = self.checked.variables();
        Some(Part {
            start: self.starts[at],
            ty: &variables[at].ty,
        })
    }
}
