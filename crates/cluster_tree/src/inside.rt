//! The weights inside a cluster, for callers that keep those of many clusters in one flat list.

ghost use Rattle.std.specs.Prelude.{◌≡◌, ◌<◌, ◌++◌, All, Contains, IfErr, IfOk, IsTrue};
ghost use Rattle.std.specs.Prelude.{OnErr, OnOk, length, map, slice_index, true};
ghost use Rattle.net_graph.specs.Layout.{IsArc};
ghost use Rattle.net_graph.specs.Trees.{AreDistancesFrom};
ghost use Rattle.node_set.specs.Ascending.{IsAscending, has};
ghost use Rattle.node_set.specs.Nodes.{AreNodes};
ghost use Rattle.cluster_tree.specs.Faults.{IsTreeFault};
ghost use Rattle.cluster_tree.specs.Inside.{AreJoined, HasNearer, IsAppended, AreWeightsWritten};
ghost use Rattle.cluster_tree.specs.Inside.{KeepDistances, StandBefore};

use crate::fault::TreeFault;
use crate::round::is_round;
use crate::weighing::{flags_of, weigh};
use net_graph::{Arc, Graph, OutOfMemory, graph_is_sound, greatest_weight};
use node_set::{NodeSet, set_is_sound};
use std::alloc::Global;

/// Appends to `weights` the weight inside a cluster from its leader to each member, in the order of
/// `members`, which are those of `cluster`, and gives the greatest of them. `row` has the distances
/// from the leader. `Outside` names the least member that no walk through members alone reaches
/// from the leader. After an error the old weights stand, and others may stand after
/// them.
///
/// The weights inside are the distances where the cluster has each node that is no farther from
/// the leader than its farthest member, as a ball has; and also where each member has an arc from
/// a member that is nearer to the leader by just the arc's weight. Where neither holds, there is a
/// search.
pub fn inside_weights(
    alloc: Global,
    graph: &Graph,
    row: &[u32],
    cluster: &NodeSet,
    members: &[u32],
    leader: u32,
    weights: &mut Vec<u32>,
) -> Result<u32, TreeFault>
    requires room { cluster.now.room ≡ graph.now.nodes }
    requires members { members.now ≡ cluster.now.members }
    requires leader { IsTrue (has leader cluster.now.members) }
    requires row { AreDistancesFrom graph.now leader row.now }
    ensures written { IfOk result
        (AreWeightsWritten graph.now members.now leader weights.old.items weights.new.items) }
    ensures fault { IfErr result (IsTreeFault graph.now members.now leader) }
    ensures kept { OnErr result (StandBefore weights.old.items weights.new.items) }
{
    let start = weights.len();
    push_inside(alloc, graph, row, cluster, members, leader, weights)?;
    Ok(greatest_weight(&weights[start..]))
}

// Appends the weight of each member: its distance, where the cluster keeps distances.
fn push_inside(
    alloc: Global,
    graph: &Graph,
    row: &[u32],
    cluster: &NodeSet,
    members: &[u32],
    leader: u32,
    weights: &mut Vec<u32>,
) -> Result<(), TreeFault>
    requires room { cluster.now.room ≡ graph.now.nodes }
    requires members { members.now ≡ cluster.now.members }
    requires leader { IsTrue (has leader cluster.now.members) }
    requires row { AreDistancesFrom graph.now leader row.now }
    ensures appended { OnOk result
        (IsAppended graph.now members.now leader weights.old.items weights.new.items) }
    ensures ordered { IsAscending members.now }
    ensures fault { IfErr result (IsTreeFault graph.now members.now leader) }
    ensures kept { OnErr result (StandBefore weights.old.items weights.new.items) }
{
    set_is_sound(cluster);
    if keeps_distances(graph, row, cluster, members, leader) {
        push_distances(row, members, weights)?;
        return Ok(());
    }
    push_found(alloc, graph, cluster, leader, weights)
}

// Whether the weights inside are known to be the distances.
fn keeps_distances(
    graph: &Graph,
    row: &[u32],
    cluster: &NodeSet,
    members: &[u32],
    leader: u32,
) -> bool
    requires room { cluster.now.room ≡ graph.now.nodes }
    requires members { members.now ≡ cluster.now.members }
    requires sound { AreNodes cluster.now }
    requires leader { IsTrue (has leader cluster.now.members) }
    requires row { AreDistancesFrom graph.now leader row.now }
    ensures { result ≡ true → KeepDistances graph.now cluster.now.members leader row.now }
{
    graph_is_sound(graph);
    // Where members have few arcs, to look at all of these takes less than a count of the row.
    let arcs = members.len().saturating_mul(graph.arcs_of(leader).len());
    if arcs > row.len() / 4 && is_round(row, members) {
        return true;
    }
    are_joined(graph, row, cluster, members, leader)
}

// Whether each member but the leader has an arc from a member that is nearer to the leader by just
// the arc's weight.
fn are_joined(graph: &Graph, row: &[u32], cluster: &NodeSet, members: &[u32], leader: u32) -> bool
    requires room { cluster.now.room ≡ graph.now.nodes }
    requires members { All (λ v. v < graph.now.nodes) members.now }
    requires row { length row.now ≡ graph.now.nodes }
    ensures { result ≡ true →
        AreJoined graph.now cluster.now.members members.now leader row.now }
{
    for member in members {
        if *member != leader
            && !has_nearer(graph.arcs_of(*member), row, cluster, row[*member as usize])
        {
            return false;
        }
    }
    true
}

// Whether an arc leads to a member that is nearer by just the arc's weight.
fn has_nearer(arcs: &[Arc], row: &[u32], cluster: &NodeSet, far: u32) -> bool
    requires arcs { All (IsArc cluster.now.room) arcs.now }
    requires row { length row.now ≡ cluster.now.room }
    ensures { result ≡ true → HasNearer cluster.now.members row.now arcs.now far }
{
    for arc in arcs {
        let through = u64::from(row[arc.target as usize]) + u64::from(arc.weight);
        if through == u64::from(far) && cluster.has(arc.target) {
            return true;
        }
    }
    false
}

// Appends the distance of each member.
fn push_distances(row: &[u32], members: &[u32], weights: &mut Vec<u32>) -> Result<(), OutOfMemory>
    requires { All (λ v. v < length row.now) members.now }
    ensures appended { OnOk result
        (weights.new.items ≡ weights.old.items ++ map (slice_index row.now) members.now) }
    ensures kept { OnErr result (StandBefore weights.old.items weights.new.items) }
{
    for member in members {
        weights.push(row[*member as usize])?;
    }
    Ok(())
}

// Appends the weight of each member by a search.
fn push_found(
    alloc: Global,
    graph: &Graph,
    cluster: &NodeSet,
    leader: u32,
    weights: &mut Vec<u32>,
) -> Result<(), TreeFault>
    requires room { cluster.now.room ≡ graph.now.nodes }
    requires leader { IsTrue (has leader cluster.now.members) }
    ensures found { OnOk result
        (IsAppended graph.now cluster.now.members leader weights.old.items
        weights.new.items) }
    ensures fault { IfErr result (IsTreeFault graph.now cluster.now.members leader) }
    ensures kept { OnErr result (weights.new.items ≡ weights.old.items) }
{
    let flags = flags_of(alloc, cluster)?;
    let found = graph.weights_from(alloc, &flags, leader)?;
    let weighed = weigh(alloc, cluster, &found)?;
    weights.extend_from_slice(&weighed.weights)?;
    Ok(())
}
