use sqlite_items::Items;

/// A clause that is said to follow. Its hints are the numbers of earlier clauses: those of the formula are numbered
/// from 0, and those of the steps follow.
#[derive(Debug, Drop)]
pub struct Step {
    pub clause: Items<i32>,
    pub hints: Items<u32>,
}

/// The steps of a proof, in order.
#[derive(Debug, Drop)]
pub struct Log {
    pub steps: Items<Step>,
}
