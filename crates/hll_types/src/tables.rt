//! What is kept of a text without static faults.

use crate::elements::Elements;
use crate::range_table::RangeTable;
use crate::variables::Variable;
use hll_expressions::Things;
use indexmap::IndexSet;

/// The tables of a text without static faults.
#[derive(Drop)]
pub struct Tables {
    /// What each name stands for, elements with their roots.
    pub names: Things,
    /// The variables, in text order.
    pub variables: Vec<Variable>,
    /// Their names, in the same order.
    pub positions: IndexSet<Vec<u8>>,
    pub elements: Elements,
    /// The ranges of scalar expressions, by their places.
    pub ranges: RangeTable,
}
