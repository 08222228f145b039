//! The neighbours of each node, in one flat array.

ghost use Rattle.std.specs.Prelude.{◌≡◌, ◌<◌, ◌≤◌, IfOk, All};
ghost use Rattle.net_graph.specs.Layout.{AreArcsOf};
ghost use Rattle.net_graph.specs.Network.{IsEdge, IsInLimits, SameJoins, SameWalks};

use crate::counting::{count_arcs, fill_arcs, sum_counts};
use crate::edge::{Edge, MAX_NODES};
use std::alloc::{AllocError, Global};
use std::marker::Model;

/// One direction of an edge.
#[derive(Clone, Copy, Debug, PartialEq, Eq)]
pub struct Arc {
    pub target: u32,
    pub weight: u32,
}

/// A network as the arcs of each node: those of node u are at `starts[u]` to `starts[u + 1]`.
#[derive(Debug, Drop)]
pub(crate) struct Neighbours {
    nodes: u32,
    starts: Vec<usize>,
    arcs: Vec<Arc>,
}

impl Model for Neighbours {
    ghost use Rattle.net_graph.specs.Network.{Network};

    ghost Value = { Network };

    ghost use Rattle.net_graph.specs.Layout.{IsLaidOut, edges_from};

    ghost view = { λ g. record {
      nodes = g.nodes;
      edges =
          edges_from g.starts.items g.arcs.items g.nodes;
    } };

    ghost invariant = { λ g. IsLaidOut g.nodes g.starts.items g.arcs.items };
}

// What stands in the array until the arcs are written.
const UNWRITTEN: Arc = Arc {
    target: 0,
    weight: 1,
};

impl Neighbours {
    // A network of `n` nodes with an arc either way for each edge that is no loop.
    pub(crate) fn new(alloc: Global, n: u32, edges: &[Edge]) -> Result<Neighbours, AllocError>
        requires positive { 1 ≤ n }
        requires few { n ≤ MAX_NODES }
        requires edges { All (IsEdge n) edges.now }
        ensures nodes { IfOk result (λ g. g.nodes ≡ n) }
        ensures limits { IfOk result IsInLimits }
        ensures joins { IfOk result (λ g. SameJoins edges.now g.edges) }
        ensures same { IfOk result (λ g. SameWalks edges.now g.edges) }
    {
        let mut counts = vec![in alloc; 0usize; n as usize]?;
        count_arcs(edges, &mut counts);
        let starts = sum_counts(alloc, &counts)?;
        let mut taken = vec![in alloc; 0usize; n as usize]?;
        let mut arcs = vec![in alloc; UNWRITTEN; starts[n as usize]]?;
        fill_arcs(edges, &starts, &mut taken, &mut arcs);
        Ok(Neighbours {
            nodes: n,
            starts,
            arcs,
        })
    }

    // How many nodes there are.
    pub(crate) fn nodes(&self) -> u32
        ensures count { result ≡ self.now.nodes }
        ensures limits { IsInLimits self.now }
    {
        self.nodes
    }

    // The arcs from a node.
    pub(crate) fn arcs_of(&self, node: u32) -> &[Arc]
        requires { node < self.now.nodes }
        ensures { AreArcsOf self.now.nodes self.now.edges node result.now }
    {
        &self.arcs[self.starts[node as usize]..self.starts[node as usize + 1]]
    }
}
