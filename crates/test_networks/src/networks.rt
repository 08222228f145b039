//! Networks by their number of nodes.

ghost use Rattle.std.specs.Prelude.{◌≡◌, ◌≤◌, All, IfOk};
ghost use Rattle.distances.specs.Table.{AreDistancesOf};
ghost use Rattle.net_graph.specs.Network.{IsEdge};

use distances::Distances;
use net_graph::{Edge, Graph, MAX_NODES, MAX_WEIGHT};
use std::alloc::Global;
use std::test::Fail;

/// An edge that joins two nodes.
pub fn edge(a: u32, b: u32, weight: u64) -> Edge
    ensures { result ≡ record { a = a; b = b; weight = weight } }
{
    Edge { a, b, weight }
}

/// The edges of the path 0 - 1 - .. of `n` nodes, each of this weight.
pub fn path_edges(alloc: Global, n: u32, weight: u64) -> Result<Vec<Edge>, Fail>
    requires positive { 1 ≤ weight }
    requires light { weight ≤ MAX_WEIGHT }
    ensures { IfOk result (λ edges. All (IsEdge n) edges.items) }
{
    let mut edges = Vec::new(alloc);
    for b in 1..n {
        edges.push(edge(b - 1, b, weight))?;
    }
    Ok(edges)
}

/// The path 0 - 1 - .. of `n` nodes, whose edges have this weight, and its distances.
pub fn path(alloc: Global, n: u32, weight: u64) -> Result<(Graph, Distances), Fail>
    requires some { 1 ≤ n }
    requires few { n ≤ MAX_NODES }
    requires positive { 1 ≤ weight }
    requires light { weight ≤ MAX_WEIGHT }
    ensures nodes { IfOk result (λ network. network.0.nodes ≡ n) }
    ensures distances { IfOk result (λ network. AreDistancesOf network.0 network.1) }
{
    let edges = path_edges(alloc, n, weight)?;
    let graph = Graph::new(alloc, n, &edges)?;
    let distances = Distances::new(alloc, &graph)?;
    Ok((graph, distances))
}

/// A network where all nodes are neighbours: nodes with consecutive numbers by edges of weight 1,
/// and all others by edges of weight 10.
pub fn complete(alloc: Global, n: u32) -> Result<Graph, Fail>
    requires some { 1 ≤ n }
    requires few { n ≤ MAX_NODES }
    ensures { IfOk result (λ graph. graph.nodes ≡ n) }
{
    let mut edges = Vec::new(alloc);
    'rows: for b in 1..n {
        'row: for a in 0..b {
            edges.push(edge(a, b, if a + 1 == b { 1 } else { 10 }))?;
        }
    }
    Ok(Graph::new(alloc, n, &edges)?)
}
