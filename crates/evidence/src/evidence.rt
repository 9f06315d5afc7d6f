use kinduction::{Equal, Found};
use lll_core::Lll;
use sqlite_items::Items;

/// Two low-level texts, and what is shown of them.
#[derive(Debug, Drop)]
pub struct Evidence {
    /// In how many rounds each obligation was tried at most.
    pub depth: u32,
    /// How many clauses each search might learn.
    pub conflicts: u32,
    pub a: Lll,
    pub b: Lll,
    /// What is shown of the parts of the miter of `a` and `b`.
    pub equal: Equal,
    /// What is shown of each obligation of `a`, in order; nothing, where the parts aren't shown.
    pub entries: Items<Found>,
}
