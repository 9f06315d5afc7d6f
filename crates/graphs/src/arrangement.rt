ghost use Rattle.std.specs.Prelude.{◌^◌, ◌<◌, IfOk, IfErr, length};
ghost use Rattle.graphs.specs.Graphs.{HasArrow, LeadsToNodes};
ghost use Rattle.graphs.specs.Orders.{IsOrder};
ghost use Rattle.graphs.specs.Cycles.{IsCause, IsReportedCycle, IsStart};

use crate::cycle::walk;
use crate::distances::{distances_to, sources};
use crate::graph::Graph;
use crate::search::Search;
use std::alloc::{AllocError, Global};
use thiserror::Error;

/// Why a graph has no order.
#[derive(Debug, Drop, Error)]
pub enum Cyclic {
    /// The nodes of the reported cycle, each with an arrow to the next, and the last with one to the first.
    #[error("the nodes lie on a cycle")]
    Cycle(Vec<u32>),
    #[error("out of memory")]
    Memory,
}

/// The reported cycle, which has this start.
fn cycle_from(alloc: Global, graph: &Graph, start: u32) -> Cyclic
    requires few { length graph.now.rows < 2 ^ 32 }
    requires targets { LeadsToNodes graph.now.rows }
    requires start { IsStart (HasArrow graph.now.rows) (length graph.now.rows) start }
    ensures { IsCause graph.now.rows result }
{
    match reported_cycle(alloc, graph, start) {
        Ok(cells) => Cyclic::Cycle(cells),
        Err(AllocError) => Cyclic::Memory,
    }
}

fn reported_cycle(alloc: Global, graph: &Graph, start: u32) -> Result<Vec<u32>, AllocError>
    requires few { length graph.now.rows < 2 ^ 32 }
    requires targets { LeadsToNodes graph.now.rows }
    requires start { IsStart (HasArrow graph.now.rows) (length graph.now.rows) start }
    ensures { IfOk result (λ cells. IsReportedCycle (HasArrow graph.now.rows) (length graph.now.rows) cells.items) }
{
    let sources = sources(alloc, graph)?;
    let distances = distances_to(alloc, &sources, start)?;
    walk(alloc, graph, &distances, start)
}

/// Every node once, each after all to which it has an arrow; or the reported cycle.
pub fn arrange(alloc: Global, graph: &Graph) -> Result<Vec<u32>, Cyclic>
    requires few { length graph.now.rows < 2 ^ 32 }
    requires targets { LeadsToNodes graph.now.rows }
    ensures order { IfOk result (λ order. IsOrder (HasArrow graph.now.rows) (length graph.now.rows) order.items) }
    ensures cause { IfErr result (IsCause graph.now.rows) }
{
    let Ok(search) = Search::run(alloc, graph) else {
        return Err(Cyclic::Memory);
    };
    let Some(start) = search.start() else {
        return Ok(search.into_order());
    };
    Err(cycle_from(alloc, graph, start))
}
