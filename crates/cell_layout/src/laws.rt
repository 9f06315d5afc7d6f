//! The laws of where parts stand. Each is a function with an empty body, whose contract is the law.

ghost use Rattle.cell_layout.specs.Laws.{CellsAreFew, PartsStandInRows, ReachedCellsAreFew, StepsLeadAlike};

/// A text without static faults has at most 100,000 cells.
pub fn cells_are_few()
    ensures { CellsAreFew }
{}

/// What steps lead to in the value of a variable stands in the row of all cells, where they lead among the cells.
pub fn parts_stand_in_rows()
    ensures stand { PartsStandInRows }
    ensures alike { StepsLeadAlike }
{}

/// In a text without static faults each cell at which what is picked in a variable may begin is one of the text's or the one behind
/// its last.
pub fn reached_cells_are_few()
    ensures { ReachedCellsAreFew }
{}
