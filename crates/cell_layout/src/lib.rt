//! Where variables and their parts stand among the cells of a text.

#![tactic(auto)]

mod laws;
mod layout;
mod part;
mod reaching;
mod sizes;

pub use laws::{cells_are_few, parts_stand_in_rows, reached_cells_are_few};
pub use layout::Layout;
pub use part::Part;
pub use reaching::{Pick, push_reached};
pub use sizes::cells_of_type;
