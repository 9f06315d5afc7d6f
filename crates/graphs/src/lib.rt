//! Finite directed graphs: an order of all nodes in which each stands after those that it has an arrow to, or the
//! reported cycle.
//!
//! `specs/Graphs.antt` says what a graph is, `specs/Paths.antt` what paths and distances are, `specs/Orders.antt` what an
//! order is, `specs/Cycles.antt` which cycle is reported.
#![tactic(auto)]

mod arrangement;
mod cycle;
mod distances;
mod graph;
mod law;
mod search;

pub use arrangement::{Cyclic, arrange};
pub use graph::Graph;
pub use law::{
    Relation, acyclic_has_order, cycle_is_cyclic, one_reported_cycle, order_is_acyclic,
    same_arrows_same_answers,
};

#[cfg(test)]
mod tests;
