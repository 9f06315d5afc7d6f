//! Distances to a node, by a search backwards, breadth first.

ghost use Rattle.std.specs.Prelude.{◌≡◌, ◌<◌, ◌≤◌, ◌+◌, ◌^◌, ◌↔◌, ◌++◌, ◌∷◌, [], ℕ, Some, None, IfOk, OnOk, length, replicate, slice_set, All, Contains};
ghost use Rattle.graphs.specs.Graphs.{HasArrow, LeadsToNodes, row};
ghost use Rattle.graphs.specs.Spreading.{HasSource, AddsSource, AreDistances, IsSpread, Reaching, Spreads, distance, reaching};

use crate::graph::Graph;
use sqlite_items::Items;
use std::alloc::{AllocError, Global};

/// One more element of a list among others.
fn push_at(lists: &mut Vec<Items<u32>>, at: usize, element: u32) -> Result<(), AllocError>
    requires { at < length lists.old.items }
    ensures { OnOk result (lists.new.items ≡ slice_set lists.old.items at (row lists.old.items at ++ element ∷ [])) }
{
    lists[at].push(element)
}

/// So many empty lists.
fn empty_lists(alloc: Global, count: usize) -> Result<Vec<Items<u32>>, AllocError>
    ensures { IfOk result (λ lists. lists.items ≡ replicate count []) }
{
    let mut lists = Vec::new(alloc);
    for _ in 0..count {
        lists.push(Items::new(alloc)).map_err(|_| AllocError)?;
    }
    Ok(lists)
}

/// A node is a source of each of its targets.
fn add_sources(sources: &mut Vec<Items<u32>>, node: u32, row: &[u32]) -> Result<(), AllocError>
    requires { All (λ b. b < length sources.old.items) row.now }
    ensures { OnOk result (AddsSource sources.old.items sources.new.items node row.now) }
{
    for &target in row {
        push_at(sources, target as usize, node)?;
    }
    Ok(())
}

/// The sources of each node: those that have an arrow to it.
pub fn sources(alloc: Global, graph: &Graph) -> Result<Vec<Items<u32>>, AllocError>
    requires few { length graph.now.rows < 2 ^ 32 }
    requires targets { LeadsToNodes graph.now.rows }
    ensures size { IfOk result (λ sources. length sources.items ≡ length graph.now.rows) }
    ensures same { IfOk result (λ sources. (a b : ℕ) → HasArrow graph.now.rows a b ↔ HasSource sources.items a b) }
{
    let nodes = graph.nodes();
    let mut sources = empty_lists(alloc, nodes)?;
    for node in 0..nodes {
        add_sources(&mut sources, node as u32, graph.row(node as u32))?;
    }
    Ok(sources)
}

/// The distances that are known, and the nodes that have one, in the order in which they got it.
#[derive(Debug, Drop)]
struct Distances {
    known: Vec<Option<usize>>,
    reached: Vec<u32>,
}

impl Distances {
    /// The start has the distance 0.
    fn new(alloc: Global, nodes: usize, start: u32) -> Result<Distances, AllocError>
        requires { start < nodes }
        ensures { IfOk result (λ d. reaching d ≡ record { known = slice_set (replicate nodes None) start (Some 0); reached = start ∷ [] }) }
    {
        let mut distances = Distances {
            known: vec![in alloc; None; nodes]?,
            reached: Vec::new(alloc),
        };
        distances.reach(start, 0)?;
        Ok(distances)
    }

    /// A node gets its distance.
    fn reach(&mut self, node: u32, distance: usize) -> Result<(), AllocError>
        requires { node < length self.old.known.items }
        ensures { OnOk result (reaching self.new ≡ record {
          known = slice_set self.old.known.items node (Some distance);
          reached = self.old.reached.items ++ node ∷ [];
        }) }
    {
        self.reached.push(node)?;
        self.known[node as usize] = Some(distance);
        Ok(())
    }

    /// Those of the sources of a node that have no distance yet get one.
    fn visit(&mut self, sources: &[u32], distance: usize) -> Result<(), AllocError>
        requires { All (λ a. a < length self.old.known.items) sources.now }
        ensures { OnOk result (Spreads (reaching self.old) (reaching self.new) sources.now distance) }
    {
        for &source in sources {
            if self.known[source as usize].is_none() {
                self.reach(source, distance)?;
            }
        }
        Ok(())
    }
}

/// The distance of each node to the start, if it leads there.
pub fn distances_to(
    alloc: Global,
    sources: &[Items<u32>],
    start: u32,
) -> Result<Vec<Option<usize>>, AllocError>
    requires start { start < length sources.now }
    requires nodes { All (All (λ a. a < length sources.now)) sources.now }
    ensures size { IfOk result (λ known. length known.items ≡ length sources.now) }
    ensures distances { IfOk result (λ known. AreDistances (HasSource sources.now) start known.items) }
{
    let mut distances = Distances::new(alloc, sources.len(), start)?;
    let mut visited = 0;
    while visited < distances.reached.len() {
        let node = distances.reached[visited] as usize;
        if let Some(distance) = distances.known[node] {
            distances.visit(sources[node].as_slice(), distance + 1)?;
        }
        visited += 1;
    }
    Ok(distances.known)
}
