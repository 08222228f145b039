//! Networks and least walks: on lines, inside sets of nodes, at the limits, and compared with a
//! plain relaxation.
ghost use Rattle.std.specs.Prelude.{◌≡◌, ◌<◌, All, IfSome, length};
ghost use Rattle.net_graph.specs.Network.{IsEdge};

use crate::near_tests::tell_near;
use crate::rows::{Asked, WORD, ask_made, five_numbers, halves, tell, tell_node, within};
use crate::sameness::same;
use crate::subjects::ask;
use crate::tree_tests::tell_in_cluster;
use net_graph::{Edge, Graph, GraphFault, MAX_NODES, MAX_WEIGHT, Tree, greatest_weight};
use std::alloc::Global;
use std::process::Abort;
use std::test::Fail;
use test_networks::{edge, path_edges};

// For each node the weight of the least walk to it.
fn tell_weights(told: &mut Vec<u64>, weights: &[Option<u64>]) {
    for weight in weights {
        tell(told, weight.unwrap_or(WORD));
    }
}

// For each node the weight of the least walk to it, and then for each the node before it.
fn tell_tree(told: &mut Vec<u64>, tree: &Tree) {
    tell_weights(told, &tree.weight);
    for parent in &tree.parent {
        tell_node(told, *parent);
    }
}

// The nodes where walks may lead: all but these, and the root.
fn allowed_but(cut: [u32; 5], root: u32) -> [bool; 1024] {
    let mut allowed = [true; 1024];
    for v in cut {
        if v < 1024 && v != root {
            allowed[v as usize] = false;
        }
    }
    allowed
}

// The least walks from a root, by a tree and without one.
fn tell_least(alloc: Global, graph: &Graph, allowed: &[bool], root: u32, told: &mut Vec<u64>)
    requires { length allowed.now ≡ graph.now.nodes }
{
    if (root as usize) < allowed.len() && allowed[root as usize] {
        if let Ok(tree) = graph.tree_from(alloc, allowed, root) {
            tell_tree(told, &tree);
        }
        if let Ok(weights) = graph.weights_from(alloc, allowed, root) {
            tell_weights(told, &weights);
        }
    }
}

// The same where they lead past the nodes of the other numbers.
fn tell_walks(alloc: Global, graph: &Graph, numbers: [u32; 5], told: &mut Vec<u64>) {
    let allowed = allowed_but(numbers, numbers[0]);
    let n = graph.nodes() as usize;
    if n <= allowed.len() {
        tell_least(alloc, graph, &allowed[..n], numbers[0], told);
    }
}

// How many arcs a node has.
fn tell_arcs(graph: &Graph, node: u32, told: &mut Vec<u64>) {
    if node < graph.nodes() {
        tell(told, graph.arcs_of(node).len() as u64);
    }
}

// The weight of the first node, and the parent of the last but one.
fn ends_of(tree: &Tree) -> [u64; 2] {
    match (tree.weight.first(), tree.parent.get(1022)) {
        (Some(Some(weight)), Some(Some(parent))) => [*weight, u64::from(*parent)],
        _ => [0; 2],
    }
}

// The first node is so far from the last, and a walk comes to the last but one from the last.
fn tell_ends(alloc: Global, graph: &Graph, told: &mut Vec<u64>) {
    if graph.nodes() == 1024 {
        if let Ok(tree) = graph.tree_from(alloc, &[true; 1024], 1023) {
            let [weight, parent] = ends_of(&tree);
            tell(told, weight);
            tell(told, parent);
        }
    }
}

impl Asked for Graph {
    fn answer(&self, alloc: Global, name: &str, numbers: [u32; 5], told: &mut Vec<u64>) {
        match name {
            "nodes" => tell(told, u64::from(self.nodes())),
            "arcs" => tell_arcs(self, numbers[0], told),
            "walks" => tell_walks(alloc, self, numbers, told),
            "ends" => tell_ends(alloc, self, told),
            "near" => tell_near(alloc, self, numbers, told),
            _ => tell_in_cluster(alloc, self, name, numbers, told),
        }
    }
}

// The edge of a text: its ends and its weight, if it may be one.
fn edge_in(n: u32, text: &str) -> Option<Edge>
    ensures { IfSome result (IsEdge n) }
{
    let [a, b, weight, ..] = five_numbers(text);
    let weight = u64::from(weight);
    if a >= n || b >= n || weight < 1 || weight > MAX_WEIGHT {
        return None;
    }
    Some(edge(a, b, weight))
}

// The edges of a text, with a comma between two.
fn edges_of(alloc: Global, n: u32, text: &str) -> Vec<Edge>
    ensures { All (IsEdge n) result.items }
{
    let mut edges = Vec::new(alloc);
    'edges: for part in text.split(',') {
        if let Some(edge) = edge_in(n, part) {
            let _ = edges.push(edge);
        }
    }
    edges
}

/// Asks a network: its nodes and its edges.
pub fn ask_network(rt: &impl Abort, alloc: Global, head: &str, rows: &str) {
    let (nodes, edges) = halves(head, ',');
    let n = within(rt, five_numbers(nodes)[0], 1, MAX_NODES);
    let edges = edges_of(alloc, n, edges);
    ask_made(rt, alloc, Graph::new(alloc, n, &edges), head, rows);
}

// An answer about walks is the weights, the nodes from which they come, and the weights again.
//
// In the second network, an allowed set cuts. In the third, node 3 is reached through nodes 1 and 2
// alike, and its edge to node 0 is too heavy. In the fourth, the lightest edge counts.
#[test]
fn least_walks(rt: HostRuntime) -> Result<(), Fail> {
    let subjects = "network 4, 0 1 1, 1 2 1, 2 3 1:\
        walks 0 = 0 1 2 3 none 0 1 2 0 1 2 3|\
        nodes = 4|\
        arcs 0 = 1|\
        arcs 1 = 2|;\
        network 4, 0 1 1, 1 2 1, 2 3 1, 0 3 9:\
        walks 0 1 = 0 none 10 9 none none 3 0 0 none 10 9|;\
        network 4, 0 2 1, 0 1 1, 2 3 1, 1 3 1, 0 3 5:\
        walks 0 = 0 1 1 2 none 0 0 1 0 1 1 2|;\
        network 2, 0 1 5, 1 0 2, 0 0 9:\
        walks 1 = 2 0 1 none 2 0|;";
    ask(&rt, rt.alloc(), subjects)
}

#[test]
fn the_heaviest_line_of_the_most_nodes(rt: HostRuntime) -> Result<(), Fail> {
    ask(
        &rt,
        rt.alloc(),
        "line 1024 1048576:ends = 1072693248 1023|;",
    )
}

// Nodes 130 and 131 are apart from these edges, and the least of them is told.
fn finds_apart(rt: &impl Abort, alloc: Global, edges: &[Edge])
    requires { All (IsEdge 132) edges.now }
{
    let fault = Graph::new(alloc, 132, edges).err();
    assert!(rt; matches!(fault, Some(GraphFault::Apart { node: 130 })));
}

#[test]
fn nodes_apart_past_the_first_word(rt: HostRuntime) -> Result<(), Fail> {
    let edges = path_edges(rt.alloc(), 130, 1)?;
    finds_apart(&rt, rt.alloc(), &edges);
    Ok(())
}

#[test]
fn the_greatest_of_three(rt: HostRuntime) {
    let found = [greatest_weight(&[2, 5, 3]), greatest_weight(&[])];
    assert!(rt; found == [5, 0]);
}

// The next number of a small generator.
fn next(state: u64) -> u64 {
    state
        .wrapping_mul(6_364_136_223_846_793_005)
        .wrapping_add(1_442_695_040_888_963_407)
}

// Each node but the first is joined to two earlier ones. An edge for which there is no memory is
// left out, and then missed in their number.
fn made_edges(alloc: Global, n: u32) -> Vec<Edge>
    ensures { All (IsEdge n) result.items }
{
    let mut edges = Vec::new(alloc);
    let mut state = 42;
    for b in 1..n {
        for _ in 0..2 {
            state = next(state);
            let a = ((state >> 33) % u64::from(b)) as u32;
            let _ = edges.push(edge(a, b, (state >> 20) % 1000 + 1));
        }
    }
    edges
}

// Lowers a weight to that through an edge.
fn lower_to(weights: &mut [u64], from: u32, to: u32, weight: u64)
    requires from { from < length weights.old }
    requires to { to < length weights.old }
    ensures { length weights.new ≡ length weights.old }
{
    let through = weights[from as usize].saturating_add(weight);
    if through < weights[to as usize] {
        weights[to as usize] = through;
    }
}

// Relaxes every edge once, both ways.
fn relax(weights: &mut [u64], edges: &[Edge])
    requires edges { All (IsEdge (length weights.old)) edges.now }
    ensures { length weights.new ≡ length weights.old }
{
    for edge in edges {
        lower_to(weights, edge.a, edge.b, edge.weight);
        lower_to(weights, edge.b, edge.a, edge.weight);
    }
}

// The least weights of walks from node 0, by relaxing every edge as often as there are nodes.
fn plain_weights(edges: &[Edge]) -> [u64; 256]
    requires { All (IsEdge 256) edges.now }
{
    let mut weights = [u64::MAX; 256];
    weights[0] = 0;
    for _ in 0..256 {
        relax(&mut weights, edges);
    }
    weights
}

// The least weights of walks from node 0, by a search.
fn tell_searched(alloc: Global, graph: &Graph, told: &mut Vec<u64>)
    requires { graph.now.nodes ≡ 256 }
{
    if let Ok(tree) = graph.tree_from(alloc, &[true; 256], 0) {
        tell_weights(told, &tree.weight);
    }
}

// The search finds what relaxing finds.
fn has_least(rt: &impl Abort, alloc: Global, edges: &[Edge])
    requires { All (IsEdge 256) edges.now }
{
    let graph = Graph::new(alloc, 256, edges).expect(rt, "memory");
    let mut told = Vec::new(alloc);
    tell_searched(alloc, &graph, &mut told);
    same(
        rt,
        "a network",
        "least weights",
        &told,
        &plain_weights(edges),
    );
}

#[test]
fn a_search_and_a_plain_relaxation(rt: HostRuntime) {
    let edges = made_edges(rt.alloc(), 256);
    assert!(rt; edges.len() == 510);
    has_least(&rt, rt.alloc(), &edges);
}
