//! What defines each cell of a text, and which element and place of a definition the cell is.

#![tactic(auto)]

mod cells;
mod definitions;
mod gathering;
mod owners;
mod spot;

pub use cell_columns::{Column, Values};
pub use cells::CellDefinitions;
pub use definitions::Definitions;
pub use spot::{Numbered, Spot};
