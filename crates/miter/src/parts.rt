ghost use Rattle.std.proofs.Props.{props};
ghost use Rattle.miter.specs.Parts.{AreParts};

use lll_core::Lll;
use sqlite_items::Items;

/// A model with its parts, literals that are compared with true, and the facts of `specs/Parts.antt`.
#[derive(Debug, Drop)]
pub struct MiterLll {
    pub lll: Lll,
    pub parts: Items<u32>,
    pub ghost are_parts: { AreParts lll.signals parts } by { Prim.hlevel props },
}
