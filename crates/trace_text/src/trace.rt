/// The values of a text's input cells, one row for each instant, in the order of the cells.
#[derive(Debug, Drop)]
pub struct Trace {
    pub rows: Vec<Vec<i128>>,
}
