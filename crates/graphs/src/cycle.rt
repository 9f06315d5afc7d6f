//! The reported cycle, from distances to its start.

ghost use Rattle.std.specs.Prelude.{◌≡◌, ◌<◌, ◌^◌, ◌++◌, ◌∷◌, [], ℕ, List, Option, IfOk, length, All};
ghost use Rattle.graphs.specs.Graphs.{HasArrow, LeadsToNodes};
ghost use Rattle.graphs.specs.Cycles.{IsReportedCycle, IsStart};
ghost use Rattle.graphs.specs.Spreading.{AreDistances, IsBest, IsFollowing, distance};

use crate::graph::Graph;
use std::alloc::{AllocError, Global};

/// A node and its distance to the start.
#[derive(Clone, Copy, Debug)]
struct Near {
    node: u32,
    distance: usize,
}

/// The better of the nearest node so far and another node.
fn better(best: Option<Near>, node: u32, away: Option<usize>) -> Option<Near>
    ensures { (targets : List ℕ) (known : List (Option ℕ)) → distance known node ≡ away →
        IsBest targets known best → IsBest (targets ++ node ∷ []) known result }
{
    let Some(distance) = away else {
        return best;
    };
    if let Some(before) = best {
        if before.distance < distance {
            return best;
        }
        if before.distance == distance && before.node <= node {
            return best;
        }
    }
    Some(Near { node, distance })
}

/// The node that follows one with these targets on the cycle.
fn next(row: &[u32], distances: &[Option<usize>]) -> Option<u32>
    requires { All (λ b. b < length distances.now) row.now }
    ensures { IsFollowing row.now distances.now result }
{
    let mut best = None;
    for &node in row {
        best = better(best, node, distances[node as usize]);
    }
    let near = best?;
    Some(near.node)
}

/// The reported cycle.
pub fn walk(
    alloc: Global,
    graph: &Graph,
    distances: &[Option<usize>],
    start: u32,
) -> Result<Vec<u32>, AllocError>
    requires targets { LeadsToNodes graph.now.rows }
    requires start { IsStart (HasArrow graph.now.rows) (length graph.now.rows) start }
    requires size { length distances.now ≡ length graph.now.rows }
    requires distances { AreDistances (HasArrow graph.now.rows) start distances.now }
    ensures { IfOk result (λ cells. IsReportedCycle (HasArrow graph.now.rows) (length graph.now.rows) cells.items) }
{
    let mut cells = Vec::new(alloc);
    cells.push(start)?;
    let mut after = next(graph.row(start), distances);
    while let Some(node) = after {
        if node == start {
            break;
        }
        cells.push(node)?;
        after = next(graph.row(node), distances);
    }
    Ok(cells)
}
