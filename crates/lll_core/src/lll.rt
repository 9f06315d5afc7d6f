ghost use Rattle.std.proofs.Props.{props};
ghost use Rattle.lll_core.specs.Signals.{IsLll};

use crate::{Named, Signal};
use sqlite_items::Items;

/// A model in the low-level language, with the facts of `specs/Signals.antt`.
#[derive(Debug, Drop)]
pub struct Lll {
    pub signals: Items<Signal>,
    /// True at every instant that counts.
    pub assume: u32,
    /// True at the first instant of a window that counts.
    pub keep: u32,
    pub constraints: Items<u32>,
    pub obligations: Items<u32>,
    pub names: Items<Named>,
    pub ghost is_lll: { IsLll signals assume keep constraints obligations names } by { Prim.hlevel props },
}
