//! Small graphs with their cycles, orders that are tried arrow by arrow, and long graphs.

ghost use Rattle.std.specs.Prelude.{◌≡◌, ◌<◌, ◌^◌, ◌+◌, ◌↔◌, IsTrue, All, length};
ghost use Rattle.graphs.specs.Graphs.{LeadsToNodes};

use crate::{
    Cyclic, Graph, Relation, acyclic_has_order, arrange, cycle_is_cyclic, one_reported_cycle,
    order_is_acyclic, same_arrows_same_answers,
};
use std::alloc::{AllocError, Global};
use std::test::Fail;

/// Graphs by the targets of each node, and the reported cycle of each: none where there is an order.
const GRAPHS: &[(&[&[u32]], &[u32])] = &[
    (&[], &[]),
    (&[&[]], &[]),
    (&[&[0]], &[0]),
    (&[&[1], &[]], &[]),
    (&[&[], &[0, 0]], &[]),
    (&[&[1], &[0]], &[0, 1]),
    (&[&[1, 0], &[0]], &[0]),
    (&[&[1], &[1, 0]], &[0, 1]),
    // the least node lies on the longer of two cycles
    (&[&[1], &[2], &[0], &[4], &[3]], &[0, 1, 2]),
    // two ways back of the same length
    (&[&[3, 2], &[0], &[1], &[1]], &[0, 2, 1]),
    // a shorter way back by a greater node
    (&[&[1, 3], &[2], &[0], &[0]], &[0, 3]),
    // nodes that only lead to a cycle, and nodes that it leads to
    (&[&[2], &[0, 3], &[3], &[4, 5], &[3], &[]], &[3, 4]),
    // a node with an arrow to itself, which others lead to
    (&[&[1], &[2, 2], &[3], &[3, 4], &[]], &[3]),
    (&[&[5], &[2], &[1, 0], &[4], &[3, 5], &[]], &[1, 2]),
    (&[&[1, 2, 3], &[2, 3], &[3], &[]], &[]),
    (&[&[], &[0], &[1, 0], &[2, 0]], &[]),
];

/// How many nodes the long graphs have.
const LONG: u32 = 100_000;

fn add_row(graph: &mut Graph, row: &[u32]) -> Result<(), AllocError> {
    for &target in row {
        graph.arrow(target)?;
    }
    graph.close()
}

fn built(alloc: Global, rows: &[&[u32]]) -> Result<Graph, AllocError> {
    let mut graph = Graph::new(alloc);
    for row in rows {
        add_row(&mut graph, row)?;
    }
    Ok(graph)
}

/// A chain of all nodes, whose last one has an arrow to one more node, if there is any.
fn long(alloc: Global, last: Option<u32>) -> Result<Graph, AllocError> {
    let mut graph = Graph::new(alloc);
    for node in 1..LONG {
        graph.arrow(node)?;
        graph.close()?;
    }
    if let Some(node) = last {
        graph.arrow(node)?;
    }
    graph.close()?;
    Ok(graph)
}

fn stays_below(row: &[u32], nodes: usize) -> bool
    ensures { IsTrue result ↔ All (λ b. b < nodes) row.now }
{
    row.iter().all(|target| (*target as usize) < nodes)
}

/// What `arrange` asks of a graph.
fn is_closed(graph: &Graph) -> bool
    ensures few { IsTrue result → length graph.now.rows < 2 ^ 32 }
    ensures targets { IsTrue result → LeadsToNodes graph.now.rows }
{
    let nodes = graph.nodes();
    if nodes > LONG as usize {
        return false;
    }
    for node in 0..nodes {
        if !stays_below(graph.row(node as u32), nodes) {
            return false;
        }
    }
    true
}

/// Each node stands once, after all to which it has an arrow.
fn is_order(alloc: Global, rows: &[&[u32]], order: &[u32]) -> Result<bool, AllocError> {
    let mut done = vec![in alloc; false; rows.len()]?;
    for &node in order {
        let Some(row) = rows.get(node as usize) else {
            return Ok(false);
        };
        if !row
            .iter()
            .all(|target| done.get(*target as usize) == Some(&true))
        {
            return Ok(false);
        }
        if done.get(node as usize) != Some(&false) {
            return Ok(false);
        }
        done[node as usize] = true;
    }
    Ok(order.len() == rows.len())
}

#[test]
fn small_graphs_have_their_orders_and_cycles(rt: HostRuntime) -> Result<(), Fail> {
    for (at, (rows, cycle)) in GRAPHS.iter().enumerate() {
        let graph = built(rt.alloc(), rows)?;
        assert!(rt; is_closed(&graph), "graph {at}");
        match arrange(rt.alloc(), &graph) {
            Ok(order) => {
                assert!(rt; cycle.is_empty(), "graph {at}");
                assert!(rt; is_order(rt.alloc(), rows, &order)?, "graph {at}");
            }
            Err(Cyclic::Cycle(cells)) => assert_eq!(rt; cells.as_slice(), *cycle, "graph {at}"),
            Err(Cyclic::Memory) => assert!(rt; false, "graph {at}"),
        }
    }
    Ok(())
}

#[test]
fn long_chain_has_an_order(rt: HostRuntime) -> Result<(), Fail> {
    let graph = long(rt.alloc(), None)?;
    assert!(rt; is_closed(&graph));
    match arrange(rt.alloc(), &graph) {
        Ok(order) => assert_eq!(rt; order.last(), Some(&0)),
        Err(_) => assert!(rt; false),
    }
    Ok(())
}

#[test]
fn long_cycle_is_reported(rt: HostRuntime) -> Result<(), Fail> {
    let graph = long(rt.alloc(), Some(0))?;
    assert!(rt; is_closed(&graph));
    match arrange(rt.alloc(), &graph) {
        Ok(_order) => assert!(rt; false),
        Err(Cyclic::Cycle(cells)) => assert_eq!(rt; cells.len(), LONG as usize),
        Err(Cyclic::Memory) => assert!(rt; false),
    }
    Ok(())
}

/// Each number has an arrow to the next.
struct Successors;

impl Relation for Successors {
    ghost arrow = { λ a b. b ≡ a + 1 };
}

#[test]
fn laws_speak_of_any_relation(_rt: HostRuntime) -> Result<(), Fail> {
    order_is_acyclic::<Successors>();
    acyclic_has_order::<Successors>();
    cycle_is_cyclic::<Successors>();
    one_reported_cycle::<Successors>();
    same_arrows_same_answers::<Successors, Successors>();
    Ok(())
}
