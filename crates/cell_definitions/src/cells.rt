//! What defines each cell of a text.

ghost use Rattle.std.specs.Prelude.{◌≡◌, ◌<◌, Some, IfOk, slice_get};
ghost use Rattle.hll_meaning.specs.Cells.{text_cells};
ghost use Rattle.dependence.specs.Dependence.{cell_count};
ghost use Rattle.dependence.specs.Ways.{DefinesCell, IsWay};
ghost use Rattle.cell_columns.specs.Columns.{cell_of};
ghost use Rattle.cell_definitions.specs.Ways.{IsSpot, way_of};

use crate::definitions::Definitions;
use crate::gathering::gather;
use crate::owners::{Owner, push_variable};
use crate::spot::{Numbered, Spot, find_spot};
use cell_columns::Column;
use hll_tree::Def;
use hll_types::Checked;
use std::alloc::{AllocError, Global};
use std::marker::Model;

/// The cells of a text without static faults, with what defines them. Contracts see the text.
#[derive(Drop)]
pub struct CellDefinitions<'a> {
    checked: &'a Checked,
    /// For each cell its name and its values.
    columns: Vec<Column>,
    /// For each cell its variable.
    owners: Vec<Owner<'a>>,
}

impl<'a> Model for CellDefinitions<'a> {
    ghost use Rattle.hll_tree.specs.declared.tree.HllModel.{HllModel};

    ghost Value = { HllModel };

    ghost use Rattle.hll_tree.specs.contracts.tree.HllModel.{the_row};

    ghost coded = { the_row.coded };

    ghost use Rattle.cell_definitions.specs.Parts.{IsTable};

    ghost view = { λ c. c.checked.now };

    ghost invariant = { λ c. IsTable c.checked.now c.columns.items c.owners.items };
}

impl<'a> CellDefinitions<'a> {
    pub fn new(alloc: Global, checked: &'a Checked) -> Result<CellDefinitions<'a>, AllocError>
        ensures { IfOk result (λ cells. cells ≡ checked.now) }
    {
        let own = gather(alloc, checked)?;
        let mut columns = Vec::new(alloc);
        let mut owners = Vec::new(alloc);
        for (index, variable) in checked.variables().iter().enumerate() {
            push_variable(alloc, &mut columns, &mut owners, variable, own[index])?;
        }
        Ok(CellDefinitions {
            checked,
            columns,
            owners,
        })
    }

    /// How many cells there are.
    pub fn count(&self) -> usize
        ensures { result ≡ cell_count self.now }
    {
        self.columns.len()
    }

    /// The name of a cell as it is printed, and its values.
    pub fn column(&self, cell: usize) -> &Column
        requires { cell < cell_count self.now }
        ensures { slice_get (text_cells self.now) cell ≡ Some (cell_of result.now) }
    {
        &self.columns[cell]
    }

    /// What defines a cell.
    pub fn definitions(&self, cell: usize) -> Definitions<'a>
        requires { cell < cell_count self.now }
        ensures { IsWay self.now cell (way_of result) }
    {
        self.owners[cell].definitions
    }

    /// The element of a definition that holds a cell which it defines, and the place of the cell in it. The index names are given in
    /// text order.
    pub fn spot(
        &self,
        cell: usize,
        definition: &'a Def,
        numbers: &mut Vec<Numbered<'a>>,
    ) -> Result<Spot<'a>, AllocError>
        requires { DefinesCell self.now definition.now cell }
        ensures { IfOk result (IsSpot self.now cell definition.now numbers.new.items) }
    {
        numbers.clear();
        let owner = self.owners[cell];
        let slots = definition.indices.as_slice();
        let place = (cell - owner.start) as u64;
        find_spot(slots, owner.ty, owner.count as u64, place, numbers)
    }
}
