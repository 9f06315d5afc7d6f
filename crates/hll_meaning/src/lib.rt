//! What texts mean: kinds of values, what a text declares, the values of its expressions, its runs, and its static rules.

#![tactic(auto)]

mod fault;
mod laws;
mod ty;

pub use fault::StaticKind;
pub use laws::{
    constants_have_their_values, definitions_fit, demands_are_truths, expressions_stand_last,
    indices_lie_in_their_ranges, names_are_fine, names_of_pass1_agree, nodes_are_faultless,
    places_differ, values_lie_in_their_ranges, values_of_nodes_lie_in_their_ranges,
    values_of_texts_lie_in_their_ranges, worths_are_looked_at,
};
pub use ty::{FieldTy, Ty};

#[cfg(test)]
mod tests;
