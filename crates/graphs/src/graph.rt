ghost use Rattle.std.specs.Prelude.{◌≡◌, ◌^◌, ◌<◌, ◌≤◌, ◌++◌, ◌∷◌, [], OnOk, OnErr, length, slice_range};
ghost use Rattle.graphs.specs.Graphs.{row};
ghost use Rattle.graphs.specs.Parts.{start_of};

use std::alloc::{AllocError, Global};
use std::marker::Model;

/// A graph on the nodes 0 to n - 1 by the targets of each node's arrows: all targets one after the other, with the place
/// where those of each node end. Contracts see the rows of targets of the nodes, and that of the node that is being built.
#[derive(Debug, Drop)]
pub struct Graph {
    targets: Vec<u32>,
    ends: Vec<usize>,
}

impl Model for Graph {
    ghost use Rattle.std.specs.Prelude.{length};
    ghost use Rattle.graphs.specs.Graphs.{Arrows};
    ghost use Rattle.graphs.specs.Parts.{pieces, behind, AreEnds};

    ghost Value = { Arrows };

    ghost view = { λ g. record {
      rows = pieces g.targets.items 0 g.ends.items;
      begun = behind g.targets.items 0 g.ends.items;
    } };

    ghost invariant = { λ g. AreEnds 0 g.ends.items (length g.targets.items) };
}

/// Where the piece with this number starts.
fn start(ends: &[usize], number: usize) -> usize
    requires { number < length ends.now }
    ensures { result ≡ start_of ends.now number }
{
    if number == 0 { 0 } else { ends[number - 1] }
}

fn part(targets: &[u32], from: usize, to: usize) -> &[u32]
    requires ordered { from ≤ to }
    requires within { to ≤ length targets.now }
    ensures { result.now ≡ slice_range targets.now from to }
{
    &targets[from..to]
}

impl Graph {
    /// No nodes. It takes no memory.
    pub fn new(alloc: Global) -> Graph
        ensures nodes { result.rows ≡ [] }
        ensures begun { result.begun ≡ [] }
    {
        Graph {
            targets: Vec::new(alloc),
            ends: Vec::new(alloc),
        }
    }

    /// One more arrow of the node that is being built.
    pub fn arrow(&mut self, to: u32) -> Result<(), AllocError>
        ensures ok { OnOk result (self.new ≡ record self.old { begun = self.old.begun ++ to ∷ [] }) }
        ensures err { OnErr result (self.new ≡ self.old) }
    {
        self.targets.push(to)?;
        Ok(())
    }

    /// The node that is being built is done, and the next begins.
    pub fn close(&mut self) -> Result<(), AllocError>
        ensures ok { OnOk result (self.new ≡ record { rows = self.old.rows ++ self.old.begun ∷ []; begun = [] }) }
        ensures err { OnErr result (self.new ≡ self.old) }
    {
        let end = self.targets.len();
        self.ends.push(end)?;
        Ok(())
    }

    /// The number of nodes that are done.
    pub fn nodes(&self) -> usize
        ensures value { result ≡ length self.now.rows }
        ensures bound { result < 2 ^ 63 }
    {
        self.ends.len()
    }

    /// The targets of a node's arrows.
    pub fn row(&self, node: u32) -> &[u32]
        requires { node < length self.now.rows }
        ensures { result.now ≡ row self.now.rows node }
    {
        let node = node as usize;
        let from = start(&self.ends, node);
        let to = self.ends[node];
        part(&self.targets, from, to)
    }
}
