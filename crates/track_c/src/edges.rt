//! Plans, of the edges of a network.
ghost use Rattle.std.specs.Prelude.{◌≡◌, ◌<◌, ◌+◌, ◌≤◌, All, IfOk, MatchResult, None, Some, length, map};
ghost use Rattle.net_graph.specs.Network.{IsEdge, IsGraphOf};
ghost use Rattle.track_c.specs.Edges.{AreRefused, IsApart, IsPlanOfEdges, edge_fault, edge_of, edges_fault, first_fault, is_measured, refusal};
ghost use Rattle.track_c.specs.Handles.{held};
ghost use Rattle.track_c.specs.Held.{nothing, seen_network};
ghost use Rattle.track_c.specs.Plans.{IsUnmade, Makes, WasFull};

use crate::fault::Fault;
use crate::handle::TrackHandle;
use crate::object::Network;
use crate::plans::{TrackRefusal, Unmade, network_of, plan_or_refusal};
use net_graph::{Edge, Graph, GraphFault, MAX_NODES, MAX_WEIGHT};
use std::alloc::{AllocError, Global};

/// An edge of a network, which joins nodes `a` and `b` in both directions.
#[repr(C)]
#[derive(Clone, Copy)]
pub struct TrackEdge {
    pub a: u32,
    pub b: u32,
    pub weight: u64,
}

// A refusal that names no node.
fn refused(cause: u32, line: u32) -> TrackRefusal
    ensures { result ≡ refusal cause line 0 }
{
    TrackRefusal {
        cause,
        line,
        node: 0,
    }
}

// Whether a network of so many nodes may have this trade-off.
fn is_in_measure(nodes: u32, k: u32) -> bool
    ensures { result ≡ is_measured nodes k }
{
    1 <= nodes && nodes <= MAX_NODES && 1 <= k && k <= 8 && (nodes <= 256 || 2 <= k)
}

// Why an edge is refused, if it is.
fn fault_of(nodes: u32, place: u32, edge: TrackEdge) -> Option<TrackRefusal>
    ensures { result ≡ edge_fault nodes place edge }
{
    if !(edge.a < nodes && edge.b < nodes) {
        return Some(refused(4, place));
    }
    if !(1 <= edge.weight && edge.weight <= MAX_WEIGHT) {
        return Some(refused(2, place));
    }
    None
}

// Why one of some edges is refused, if one is.
fn fault_among(nodes: u32, edges: &[TrackEdge]) -> Option<TrackRefusal>
    requires { length edges.now ≤ 32768 }
    ensures { result ≡ first_fault nodes 1 edges.now }
{
    for (at, edge) in edges.iter().enumerate() {
        let fault = fault_of(nodes, at as u32 + 1, *edge);
        if fault.is_some() {
            return fault;
        }
    }
    None
}

// Why edges are refused, but for the walks.
fn fault_in(nodes: u32, k: u32, edges: &[TrackEdge]) -> Option<TrackRefusal>
    ensures { result ≡ edges_fault nodes k edges.now }
{
    if !is_in_measure(nodes, k) {
        return Some(refused(2, 0));
    }
    if 32768 < edges.len() {
        return Some(refused(3, 0));
    }
    fault_among(nodes, edges)
}

// The graph of edges that aren't refused.
fn graph_of(alloc: Global, nodes: u32, edges: &[TrackEdge]) -> Result<Graph, Unmade>
    requires positive { 1 ≤ nodes }
    requires few { nodes ≤ MAX_NODES }
    requires edges { All (IsEdge nodes) (map edge_of edges.now) }
    ensures { MatchResult result (IsGraphOf nodes (map edge_of edges.now))
        (IsUnmade (IsApart nodes edges.now)) }
{
    let Ok(list) = edges_for_graph(alloc, edges) else {
        return Err(Unmade::NoMemory);
    };
    match Graph::new(alloc, nodes, &list) {
        Ok(graph) => Ok(graph),
        Err(GraphFault::Apart { node }) => Err(Unmade::Refused(TrackRefusal {
            cause: 8,
            line: 0,
            node,
        })),
        Err(GraphFault::OutOfMemory) => Err(Unmade::NoMemory),
    }
}

// Edges as graphs have them.
fn edges_for_graph(alloc: Global, edges: &[TrackEdge]) -> Result<Vec<Edge>, AllocError>
    ensures { IfOk result (λ list. list.items ≡ map edge_of edges.now) }
{
    edges
        .iter()
        .map(|edge| Edge {
            a: edge.a,
            b: edge.b,
            weight: edge.weight,
        })
        .collect(alloc)
}

// The network of edges.
fn network_of_edges(
    alloc: Global,
    nodes: u32,
    k: u32,
    edges: &[TrackEdge],
) -> Result<Network, Unmade>
    ensures { MatchResult result
        (λ network. IsPlanOfEdges nodes k edges.now (seen_network network))
        (IsUnmade (AreRefused nodes k edges.now)) }
{
    if let Some(found) = fault_in(nodes, k, edges) {
        return Err(Unmade::Refused(found));
    }
    let graph = graph_of(alloc, nodes, edges)?;
    match network_of(alloc, &graph, k, Vec::new(alloc)) {
        Ok(network) => Ok(network),
        Err(AllocError) => Err(Unmade::NoMemory),
    }
}

/// The plan of a network of so many nodes with these edges.
#[unsafe(no_mangle)]
pub extern "C" fn track_plan_build(
    alloc: Global,
    nodes: u32,
    k: u32,
    edges: &[TrackEdge],
    plan: &mut TrackHandle,
    refusal: &mut TrackRefusal,
) -> u32
    ensures full { (held plan.old ≡ nothing → ⊥) → WasFull result (held plan.old) (held plan.new)
        refusal.old refusal.new }
    ensures made { held plan.old ≡ nothing → Makes (IsPlanOfEdges nodes k edges.now)
        (AreRefused nodes k edges.now) result (held plan.new) refusal.old refusal.new }
{
    if plan.full {
        return Fault::FullHandle.code();
    }
    let network = network_of_edges(alloc, nodes, k, edges);
    let made = plan_or_refusal(alloc, network, refusal);
    plan.fill(alloc, made)
}
