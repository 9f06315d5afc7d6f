//! What the definitions mean, over any relation between nodes. Each law is a function with an empty body.

ghost use Rattle.std.specs.Prelude.{◌≡◌, ◌↔◌, ◌<◌, ℕ, List, Contains};
ghost use Rattle.graphs.specs.Paths.{Reaches, IsAcyclic, StaysBelow};
ghost use Rattle.graphs.specs.Orders.{IsOrder};
ghost use Rattle.graphs.specs.Cycles.{IsReportedCycle};

/// A relation between nodes.
pub trait Relation {
    /// A node has an arrow to another.
    ghost arrow: { ℕ → ℕ → Type 0 };
}

/// Where there is an order, no node reaches itself.
pub fn order_is_acyclic<R: Relation>()
    ensures { (n : ℕ) (order : List ℕ) → IsOrder R.arrow n order → IsAcyclic R.arrow n }
{}

/// A relation whose arrows stay among the first `n` nodes and can be listed has an order, where none of these reaches
/// itself.
pub fn acyclic_has_order<R: Relation>()
    ensures { (n : ℕ) (row : ℕ → List ℕ) → StaysBelow R.arrow n →
        ((a b : ℕ) → a < n → R.arrow a b ↔ Contains (row a) b) → IsAcyclic R.arrow n →
        (order : List ℕ) × IsOrder R.arrow n order }
{}

/// A reported cycle is one: a node of it reaches itself.
pub fn cycle_is_cyclic<R: Relation>()
    ensures { (n : ℕ) (cells : List ℕ) → IsReportedCycle R.arrow n cells →
        (a : ℕ) × (a < n) × Contains cells a × Reaches R.arrow a a }
{}

/// There is only one reported cycle.
pub fn one_reported_cycle<R: Relation>()
    ensures { (n : ℕ) (cells others : List ℕ) → IsReportedCycle R.arrow n cells →
        IsReportedCycle R.arrow n others → cells ≡ others }
{}

/// Relations that have the same arrows from the first `n` nodes have the same orders of these, and where the arrows
/// stay there, the same reported cycles.
pub fn same_arrows_same_answers<R: Relation, S: Relation>()
    ensures orders { (n : ℕ) (order : List ℕ) → ((a b : ℕ) → a < n → R.arrow a b ↔ S.arrow a b) →
        IsOrder R.arrow n order → IsOrder S.arrow n order }
    ensures cycles { (n : ℕ) (cells : List ℕ) → StaysBelow R.arrow n →
        ((a b : ℕ) → a < n → R.arrow a b ↔ S.arrow a b) →
        IsReportedCycle R.arrow n cells → IsReportedCycle S.arrow n cells }
{}
