//! Which cells of a text depend on which, how each cell gets its numbers, and what runs are cell by cell.

#![tactic(auto)]

mod laws;

pub use laws::{
    causal_texts_have_orders, defined_in_one_way, depend_on_cells, each_cell_has_one_way,
    inputs_have_one_run, mentioned_cells_are_cells, runs_go_by_cells, setting_makes_runs,
    spelled_texts_are_linked, statics_are_constant, values_go_by_mentioned_cells,
    worths_are_mentioned,
};
