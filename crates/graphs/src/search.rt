//! The search that orders the nodes, and finds the least one that lies on a cycle.
//!
//! The path of the search is cut into segments. The nodes of a segment reach each other, and each leads to those of all
//! later segments. Where an arrow leads back to the path, the segments from there on become one. Where no arrow of the
//! last segment is left to be followed, no cycle leads out of it: its nodes are finished.

ghost use Rattle.std.specs.Prelude.{◌≡◌, ◌≢◌, ◌<◌, ◌≤◌, ◌^◌, ◌++◌, ◌∷◌, [], ◌⊎◌, ℕ, List, None, IfOk, OnOk, MatchOption, length, drop, All, AllPairs, Contains, slice_index};
ghost use Rattle.graphs.specs.Graphs.{HasArrow, LeadsToNodes, row};
ghost use Rattle.graphs.specs.Parts.{Leads};
ghost use Rattle.graphs.specs.Searches.{shown, unsearched, entered, place, least_of, effort, AreFinished, IsJoined, IsLeastOnCycle, IsLeft, IsSearch, IsStep, Searching};
ghost use Rattle.graphs.specs.declared.search.Segment.{Segment};
ghost use Rattle.graphs.specs.declared.search.Place.TheVariants.{Unseen};

use crate::graph::Graph;
use std::alloc::{AllocError, Global};

/// Where the search has a node.
#[derive(Clone, Copy, Debug)]
pub enum Place {
    Unseen,
    /// It stands at this place of the path.
    OnPath(usize),
    Finished,
}

/// Where the nodes of a segment begin on the path, and where the targets that wait to be followed from them begin.
#[derive(Clone, Copy, Debug)]
pub struct Segment {
    pub nodes: usize,
    pub targets: usize,
}

#[derive(Debug, Drop)]
pub struct Search {
    places: Vec<Place>,
    path: Vec<u32>,
    segments: Vec<Segment>,
    waiting: Vec<u32>,
    order: Vec<u32>,
    start: Option<u32>,
}

/// The last segment.
fn last_of(segments: &[Segment]) -> Option<Segment>
    ensures { MatchOption result (segments.now ≡ []) (λ m. (before : List Segment) × (segments.now ≡ before ++ m ∷ [])) }
{
    segments.last().copied()
}

/// The lesser of two nodes, as far as there are any.
fn least(one: Option<u32>, other: Option<u32>) -> Option<u32>
    ensures { result ≡ least_of one other }
{
    let Some(a) = one else {
        return other;
    };
    let Some(b) = other else {
        return one;
    };
    Some(a.min(b))
}

/// The least of the nodes of a finished segment, if they lie on a cycle.
fn least_on_cycle(graph: &Graph, nodes: &[u32]) -> Option<u32>
    requires some { 0 < length nodes.now }
    requires nodes { All (λ v. v < length graph.now.rows) nodes.now }
    ensures { IsLeastOnCycle (HasArrow graph.now.rows) nodes.now result }
{
    if nodes.len() == 1 && !graph.row(nodes[0]).contains(&nodes[0]) {
        return None;
    }
    nodes.iter().copied().min()
}

/// The segments from a place of the path on become one.
fn join(segments: &mut Vec<Segment>, place: usize)
    requires { AllPairs (λ a b. (a.nodes < b.nodes) × (a.targets ≤ b.targets)) segments.old.items }
    ensures { IsJoined segments.old.items segments.new.items place }
{
    while let Some(last) = last_of(segments) {
        if last.nodes <= place {
            break;
        }
        let _ = segments.pop();
    }
}

/// The nodes of the path from a place on.
fn nodes_from(path: &[u32], place: usize) -> &[u32]
    requires { place ≤ length path.now }
    ensures { result.now ≡ drop place path.now }
{
    &path[place..]
}

/// Marks nodes as finished.
fn mark_finished(places: &mut Vec<Place>, nodes: &[u32])
    requires { All (λ v. v < length places.old.items) nodes.now }
    ensures { AreFinished places.old.items places.new.items nodes.now }
{
    for &node in nodes {
        places[node as usize] = Place::Finished;
    }
}

impl Search {
    fn new(alloc: Global, nodes: usize) -> Result<Search, AllocError>
        ensures { IfOk result (λ s. shown s ≡ unsearched nodes) }
    {
        Ok(Search {
            places: vec![in alloc; Place::Unseen; nodes]?,
            path: Vec::new(alloc),
            segments: Vec::new(alloc),
            waiting: Vec::new(alloc),
            order: Vec::new(alloc),
            start: None,
        })
    }

    /// The path goes on to a node, in a segment of its own.
    fn enter(&mut self, node: u32, row: &[u32]) -> Result<(), AllocError>
        requires { node < length (shown self.old).places }
        ensures { OnOk result (shown self.new ≡ entered (shown self.old) node row.now) }
    {
        let nodes = self.path.len();
        let targets = self.waiting.len();
        self.segments.push(Segment { nodes, targets })?;
        self.waiting.extend_from_slice(row)?;
        self.path.push(node)?;
        self.places[node as usize] = Place::OnPath(nodes);
        Ok(())
    }

    /// The nodes of the last segment are finished.
    fn leave(&mut self, graph: &Graph, last: Segment) -> Result<(), AllocError>
        requires last { (before : List Segment) × ((shown self.old).segments ≡ before ++ last ∷ []) }
        requires some { last.nodes < length (shown self.old).path }
        requires size { length (shown self.old).places ≡ length graph.now.rows }
        requires nodes { All (λ v. v < length graph.now.rows) (shown self.old).path }
        ensures { OnOk result (IsLeft graph.now.rows (shown self.old) (shown self.new) last) }
    {
        let _ = self.segments.pop();
        let nodes = nodes_from(&self.path, last.nodes);
        self.start = least(self.start, least_on_cycle(graph, nodes));
        self.order.extend_from_slice(nodes)?;
        mark_finished(&mut self.places, nodes);
        self.path.truncate(last.nodes);
        Ok(())
    }

    /// Follows an arrow from the last segment.
    fn follow(&mut self, graph: &Graph, target: u32) -> Result<(), AllocError>
        requires target { target < length graph.now.rows }
        requires search { IsSearch graph.now.rows (λ b. b ≡ target) (shown self.old) }
        requires leads { (i : ℕ) → i < length (shown self.old).path →
            Leads (HasArrow graph.now.rows) (slice_index (shown self.old).path i) target }
        ensures search { OnOk result (IsSearch graph.now.rows (λ b. ⊥) (shown self.new)) }
        ensures effort { OnOk result (effort graph.now.rows (shown self.new) ≤ effort graph.now.rows (shown self.old)) }
        ensures seen { OnOk result ((v : ℕ) → place (shown self.old).places v ≢ Unseen → place (shown self.new).places v ≢ Unseen) }
    {
        match self.places[target as usize] {
            Place::Unseen => self.enter(target, graph.row(target))?,
            Place::OnPath(place) => join(&mut self.segments, place),
            Place::Finished => {}
        }
        Ok(())
    }

    /// Follows an arrow of the last segment, or finishes it.
    fn step(&mut self, graph: &Graph, last: Segment) -> Result<(), AllocError>
        requires targets { LeadsToNodes graph.now.rows }
        requires last { (before : List Segment) × ((shown self.old).segments ≡ before ++ last ∷ []) }
        requires search { IsSearch graph.now.rows (λ b. ⊥) (shown self.old) }
        ensures { OnOk result (IsStep graph.now.rows (shown self.old) (shown self.new)) }
    {
        if last.targets < self.waiting.len() {
            if let Some(target) = self.waiting.pop() {
                self.follow(graph, target)?;
            }
            return Ok(());
        }
        self.leave(graph, last)
    }

    /// Finishes all that can be reached from a node.
    fn finish(&mut self, graph: &Graph, root: u32) -> Result<(), AllocError>
        requires targets { LeadsToNodes graph.now.rows }
        requires root { root < length graph.now.rows }
        requires search { IsSearch graph.now.rows (λ b. ⊥) (shown self.old) }
        requires none { (shown self.old).path ≡ [] }
        requires unseen { place (shown self.old).places root ≡ Unseen }
        ensures search { OnOk result (IsSearch graph.now.rows (λ b. ⊥) (shown self.new)) }
        ensures none { OnOk result ((shown self.new).path ≡ []) }
        ensures root { OnOk result (place (shown self.new).places root ≢ Unseen) }
        ensures seen { OnOk result ((v : ℕ) → place (shown self.old).places v ≢ Unseen → place (shown self.new).places v ≢ Unseen) }
    {
        self.enter(root, graph.row(root))?;
        while let Some(last) = last_of(&self.segments) {
            self.step(graph, last)?;
        }
        Ok(())
    }

    /// Finishes all nodes.
    pub fn run(alloc: Global, graph: &Graph) -> Result<Search, AllocError>
        requires few { length graph.now.rows < 2 ^ 32 }
        requires targets { LeadsToNodes graph.now.rows }
        ensures search { IfOk result (λ s. IsSearch graph.now.rows (λ b. ⊥) (shown s)) }
        ensures all { IfOk result (λ s. (v : ℕ) → v < length graph.now.rows → Contains (shown s).order v) }
    {
        let nodes = graph.nodes();
        let mut search = Search::new(alloc, nodes)?;
        for root in 0..nodes {
            if let Place::Unseen = search.places[root] {
                search.finish(graph, root as u32)?;
            }
        }
        Ok(search)
    }

    /// The least node that lies on a cycle.
    pub fn start(&self) -> Option<u32>
        ensures { result ≡ (shown self.now).start }
    {
        self.start
    }

    /// The nodes as they were finished.
    pub fn into_order(self) -> Vec<u32>
        ensures { result.items ≡ (shown self).order }
    {
        self.order
    }
}
