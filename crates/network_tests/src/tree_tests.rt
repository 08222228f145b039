//! Trees of clusters, and the weights inside clusters: on paths, and in a triangle of which two
//! nodes are joined best by way of the third.
ghost use Rattle.std.specs.Prelude.{◌≡◌, ◌<◌, ◌++◌, IsTrue, OnOk};
ghost use Rattle.distances.specs.Table.{AreDistancesOf};
ghost use Rattle.node_set.specs.Ascending.{has};

use crate::rows::{WORD, tell, tell_all, tell_unknown};
use crate::set_tests::set_of;
use crate::subjects::ask;
use cluster_tree::{ClusterTree, TreeFault, inside_weights};
use distances::Distances;
use net_graph::Graph;
use node_set::{NodeSet, fill_all, set_is_sound};
use std::alloc::{AllocError, Global};
use std::test::Fail;

// Tells which member is outside.
fn tell_fault(told: &mut Vec<u64>, fault: TreeFault) {
    if let TreeFault::Outside { node } = fault {
        tell(told, WORD);
        tell(told, u64::from(node));
    }
}

// The depth of a cluster, and the weights of its members.
fn tell_tree(
    alloc: Global,
    graph: &Graph,
    cluster: &NodeSet,
    leader: u32,
    name: &str,
    told: &mut Vec<u64>,
)
    requires room { cluster.now.room ≡ graph.now.nodes }
    requires leader { IsTrue (has leader cluster.now.members) }
{
    match ClusterTree::new(alloc, graph, cluster, leader) {
        Ok(tree) => {
            tell(told, tree.depth());
            for v in 0..cluster.room() {
                if name == "tree" && cluster.has(v) {
                    tell(told, tree.weight_of(v));
                }
            }
        }
        Err(fault) => tell_fault(told, fault),
    }
}

// Appends the numbers of a set.
fn push_members(set: &NodeSet, list: &mut Vec<u32>) -> Result<(), AllocError>
    ensures { OnOk result (list.new.items ≡ list.old.items ++ set.now.members) }
{
    // The numbers ascend.
    set_is_sound(set);
    let mut from = 0;
    'member: while let Some(v) = set.next_from(from) {
        list.push(v)?;
        from = v + 1;
    }
    Ok(())
}

// The weights inside a cluster, behind those that stood there, and then its depth.
fn tell_inside(
    alloc: Global,
    graph: &Graph,
    distances: &Distances,
    cluster: &NodeSet,
    leader: u32,
    members: &[u32],
    weights: &mut Vec<u32>,
    told: &mut Vec<u64>,
)
    requires belongs { AreDistancesOf graph.now distances.now }
    requires room { cluster.now.room ≡ graph.now.nodes }
    requires members { members.now ≡ cluster.now.members }
    requires leader { IsTrue (has leader cluster.now.members) }
    requires inside { leader < graph.now.nodes }
{
    let row = distances.row(leader);
    match inside_weights(alloc, graph, row, cluster, members, leader, weights) {
        Ok(depth) => {
            tell_all(told, weights);
            tell(told, u64::from(depth));
        }
        Err(fault) => tell_fault(told, fault),
    }
}

// The same; or behind a weight that stood there.
fn tell_behind(
    alloc: Global,
    graph: &Graph,
    cluster: &NodeSet,
    leader: u32,
    name: &str,
    told: &mut Vec<u64>,
) -> Result<(), AllocError>
    requires room { cluster.now.room ≡ graph.now.nodes }
    requires leader { IsTrue (has leader cluster.now.members) }
    requires inside { leader < graph.now.nodes }
{
    let mut members = Vec::new(alloc);
    push_members(cluster, &mut members)?;
    let mut weights = vec![in alloc; 7; usize::from(name == "behind")]?;
    let distances = Distances::new(alloc, graph)?;
    tell_inside(
        alloc,
        graph,
        &distances,
        cluster,
        leader,
        &members,
        &mut weights,
        told,
    );
    Ok(())
}

// What is asked of a cluster.
fn tell_cluster(
    alloc: Global,
    graph: &Graph,
    cluster: &NodeSet,
    leader: u32,
    name: &str,
    told: &mut Vec<u64>,
)
    requires room { cluster.now.room ≡ graph.now.nodes }
    requires leader { IsTrue (has leader cluster.now.members) }
    requires inside { leader < graph.now.nodes }
{
    match name {
        "tree" | "depth" => tell_tree(alloc, graph, cluster, leader, name, told),
        "inside" | "behind" => {
            let _ = tell_behind(alloc, graph, cluster, leader, name, told);
        }
        _ => tell_unknown(told),
    }
}

/// Tells what is asked of a cluster: its numbers are the leader and the other members, but the
/// depth is that of a cluster of all nodes.
pub fn tell_in_cluster(
    alloc: Global,
    graph: &Graph,
    name: &str,
    numbers: [u32; 5],
    told: &mut Vec<u64>,
) {
    if let Ok(mut cluster) = set_of(alloc, graph.nodes(), &numbers) {
        if name == "depth" {
            fill_all(&mut cluster);
        }
        let leader = numbers[0];
        if leader < graph.nodes() && cluster.has(leader) {
            tell_cluster(alloc, graph, &cluster, leader, name, told);
        }
    }
}

// The answer for a tree is its depth and the weights of its members, and for what is inside a
// cluster the weights and then the depth.
#[test]
fn clusters_of_networks(rt: HostRuntime) -> Result<(), Fail> {
    let subjects = "line 4 1:tree 3 2 = 1 1 0|;\
        network 3, 0 1 1, 1 2 1, 0 2 5:\
        inside 0 1 2 = 0 1 2 2|\
        behind 0 2 = 7 0 5 5|;\
        line 130 1:\
        tree 0 129 = outside 129|\
        behind 129 128 = 7 1 0 1|\
        behind 129 64 = outside 64|;\
        line 1024 1:\
        depth 1023 = 1023|\
        inside 1022 1023 = 0 1 1|;";
    ask(&rt, rt.alloc(), subjects)
}
