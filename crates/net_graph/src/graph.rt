//! Graphs, as contracts see them: a number of nodes and a list of edges.

ghost use Rattle.std.specs.Prelude.{◌≡◌, ◌<◌, ◌≤◌, ◌^◌, [], ℕ, All, IfErr, IfNone, IfOk, IfSome, IsTrue, OnErr, OnOk, length};
ghost use Rattle.net_graph.specs.Network.{IsEdge, IsGraphOf, IsNetwork};
ghost use Rattle.net_graph.specs.Faults.{IsGraphFault};
ghost use Rattle.net_graph.specs.Trees.{AreLeastWeights, AreParents, at_node};
ghost use Rattle.net_graph.specs.Walks.{among};
ghost use Rattle.net_graph.specs.Layout.{AreArcsOf};
ghost use Rattle.net_graph.specs.Near.{AreNear};

use crate::edge::{Edge, MAX_NODES};
use crate::fault::{GraphFault, OutOfMemory};
use crate::near::{Nearby, search_near};
use crate::neighbours::{Arc, Neighbours};
use crate::parents::parents_in;
use crate::search::search_from;
use crate::tree::Tree;
use std::alloc::Global;
use std::marker::Model;

/// A connected network of weighted edges.
#[derive(Debug, Drop)]
pub struct Graph {
    neighbours: Neighbours,
}

impl Model for Graph {
    ghost use Rattle.net_graph.specs.Network.{Network, IsNetwork};

    ghost Value = { Network };

    ghost view = { λ g. g.neighbours };

    ghost invariant = { λ g. IsNetwork g.neighbours };
}

impl Graph {
    /// A graph of `n` nodes. Of edges that join the same nodes the lightest counts, and an edge
    /// from a node to itself counts for nothing. `Apart` names the least node that no walk from
    /// node 0 reaches.
    pub fn new(alloc: Global, n: u32, edges: &[Edge]) -> Result<Graph, GraphFault>
        requires positive { 1 ≤ n }
        requires few { n ≤ MAX_NODES }
        requires edges { All (IsEdge n) edges.now }
        ensures graph { IfOk result (IsGraphOf n edges.now) }
        ensures fault { IfErr result (IsGraphFault n edges.now) }
    {
        let neighbours = Neighbours::new(alloc, n, edges)?;
        let allowed = vec![in alloc; true; n as usize]?;
        let weights = search_from(alloc, &neighbours, &allowed, 0)?;
        match first_apart(&weights) {
            Some(node) => Err(GraphFault::Apart { node }),
            None => Ok(Graph { neighbours }),
        }
    }

    /// How many nodes there are.
    pub fn nodes(&self) -> u32
        ensures count { result ≡ self.now.nodes }
        ensures sound { IsNetwork self.now }
    {
        self.neighbours.nodes()
    }

    /// The arcs that lead from a node.
    pub fn arcs_of(&self, node: u32) -> &[Arc]
        requires { node < self.now.nodes }
        ensures { AreArcsOf self.now.nodes self.now.edges node result.now }
    {
        self.neighbours.arcs_of(node)
    }

    /// For each node the least weight of a walk from `root` through the nodes at which `allowed`
    /// holds true, `None` where there is no walk.
    pub fn weights_from(
        &self,
        alloc: Global,
        allowed: &[bool],
        root: u32,
    ) -> Result<Vec<Option<u64>>, OutOfMemory>
        requires count { length allowed.now ≡ self.now.nodes }
        requires root { IsTrue (among allowed.now root) }
        ensures weights { IfOk result (λ w. AreLeastWeights self.now
            (among allowed.now) root w.items) }
        ensures sound { IsNetwork self.now }
    {
        search_from(alloc, &self.neighbours, allowed, root)
    }

    /// Finds the nodes within `radius` of one of the sources, and the least weight of a walk from a
    /// source to each. It takes as many steps as arcs leave the nodes that are found, and no memory
    /// but for a queue. Where that is wanting nothing is found, and `nearby` serves the next search.
    pub fn near(
        &self,
        alloc: Global,
        sources: &[u32],
        radius: u64,
        nearby: &mut Nearby,
    ) -> Result<(), OutOfMemory>
        requires sources { All (λ v. v < self.now.nodes) sources.now }
        requires radius { radius ≤ 2 ^ 40 }
        requires room { length nearby.old.weights ≡ self.now.nodes }
        ensures near { OnOk result (AreNear self.now sources.now radius nearby.new) }
        ensures none { OnErr result (nearby.new.nodes ≡ []) }
        ensures room { length nearby.new.weights ≡ self.now.nodes }
    {
        search_near(alloc, &self.neighbours, sources, radius, &mut nearby.marks)
    }

    /// The least walks from `root` through the nodes at which `allowed` holds true.
    pub fn tree_from(&self, alloc: Global, allowed: &[bool], root: u32) -> Result<Tree, OutOfMemory>
        requires count { length allowed.now ≡ self.now.nodes }
        requires root { IsTrue (among allowed.now root) }
        ensures weights { IfOk result (λ t. AreLeastWeights self.now
            (among allowed.now) root t.weight.items) }
        ensures parents { IfOk result (λ t.
            AreParents self.now root t.weight.items t.parent.items) }
        ensures sound { IsNetwork self.now }
    {
        let weight = search_from(alloc, &self.neighbours, allowed, root)?;
        let parent = parents_in(alloc, &self.neighbours, &weight)?;
        Ok(Tree { weight, parent })
    }
}

// The first node that has no weight.
fn first_apart(weights: &[Option<u64>]) -> Option<u32>
    requires { length weights.now ≤ MAX_NODES }
    ensures apart { IfSome result (λ node. (node < length weights.now)
        × (at_node weights.now node ≡ None)) }
    ensures first { IfSome result (λ node. (v : ℕ) → v < node → at_node weights.now v ≡ None → ⊥) }
    ensures none { IfNone result ((v : ℕ) → v < length weights.now → at_node weights.now v ≡ None
        → ⊥) }
{
    for (node, weight) in weights.iter().enumerate() {
        if weight.is_none() {
            return Some(node as u32);
        }
    }
    None
}

/// What every graph is: within the limits, and connected. The call does nothing, and its clause is
/// a law.
pub fn graph_is_sound(graph: &Graph)
    ensures { IsNetwork graph.now }
{
    // A look at a field tells the proof what the graph keeps.
    let _ = &graph.neighbours;
}
