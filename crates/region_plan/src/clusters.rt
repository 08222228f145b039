//! The clusters of a level in flat lists: their members ascending, and a weight beside each.

ghost use Rattle.std.specs.Prelude.{◌≡◌, ◌++◌, ◌<◌, [], All, IfOk, IsTrue, OnOk, length};
ghost use Rattle.node_set.specs.Ascending.{IsAscending, has};
ghost use Rattle.cluster_tree.specs.Inside.{AreWeightsWritten};
ghost use Rattle.node_set.specs.Balls.{centres};
ghost use Rattle.node_set.specs.Nodes.{AreNodes};
ghost use Rattle.node_set.specs.Workspaces.{IsWorkspace};
ghost use Rattle.distances.specs.Table.{AreDistancesOf};
ghost use Rattle.region_plan.specs.Kept.{IsSpanned};
ghost use Rattle.region_plan.specs.Laid.{AreLaid, IsPushed, clusters_of_lists};
ghost use Rattle.region_plan.specs.Plan.{cluster_in, weight_in};
ghost use Rattle.region_plan.specs.Meanings.{AreClustersOf};
ghost use Rattle.region_plan.specs.Flat.{IsWholeAlone};

use cluster_tree::{TreeFault, inside_weights};
use coarse_cover::Cluster;
use distances::Distances;
use net_graph::{Graph, OutOfMemory, greatest_weight};
use node_set::{NodeSet, Workspace, set_is_sound};
use std::alloc::{AllocError, Global};
use std::marker::Model;

// A cluster: its leader, its phase, its depth, and where its members begin and end.
#[derive(Clone, Copy)]
pub struct ClusterHead {
    pub leader: u32,
    pub phase: u32,
    pub depth: u32,
    pub start: usize,
    pub end: usize,
}

// Clusters in flat lists: their heads, the members of one after those of another, and beside each
// member the least weight inside the cluster from its leader.
#[derive(Drop)]
pub struct ClusterLists {
    pub heads: Vec<ClusterHead>,
    pub nodes: Vec<u32>,
    pub weights: Vec<u32>,
}

impl ClusterLists {
    // No clusters, with memory for so many, and for so many members of all of them.
    fn with_capacity(
        alloc: Global,
        clusters: usize,
        members: usize,
    ) -> Result<ClusterLists, OutOfMemory>
        ensures heads { IfOk result (λ lists. lists.heads.items ≡ []) }
        ensures nodes { IfOk result (λ lists. lists.nodes.items ≡ []) }
        ensures weights { IfOk result (λ lists. lists.weights.items ≡ []) }
    {
        Ok(ClusterLists {
            heads: Vec::with_capacity(alloc, clusters)?,
            nodes: Vec::with_capacity(alloc, members)?,
            weights: Vec::with_capacity(alloc, members)?,
        })
    }

    // Appends a cluster of a cover, weighed inside it from the centre that leads it.
    fn push(
        &mut self,
        alloc: Global,
        graph: &Graph,
        distances: &Distances,
        cluster: &Cluster,
    ) -> Result<(), OutOfMemory>
        requires belongs { AreDistancesOf graph.now distances.now }
        requires spanned { IsSpanned graph.now cluster.now }
        requires laid { AreLaid self.old }
        ensures laid { OnOk result (AreLaid self.new) }
        ensures pushed { OnOk result (IsPushed graph.now cluster.now self.old self.new) }
    {
        let start = self.nodes.len();
        push_members(&cluster.members, &mut self.nodes)?;
        let nodes = &self.nodes[start..];
        let depth = weigh_members(alloc, graph, distances, cluster, nodes, &mut self.weights)?;
        self.heads.push(ClusterHead {
            leader: cluster.first,
            phase: cluster.phase,
            depth,
            start,
            end: self.nodes.len(),
        })?;
        Ok(())
    }

    // Appends the clusters of a cover. Their sets go back to the workspace that they come from.
    fn push_cover(
        &mut self,
        alloc: Global,
        graph: &Graph,
        distances: &Distances,
        made: Vec<Cluster>,
        work: &mut Workspace,
    ) -> Result<(), OutOfMemory>
        requires belongs { AreDistancesOf graph.now distances.now }
        requires spanned { All (IsSpanned graph.now) made.items }
        requires work { IsWorkspace graph.now.nodes work.old }
        requires laid { AreLaid self.old }
        requires none { clusters_of_lists self.old ≡ [] }
        ensures laid { OnOk result (AreLaid self.new) }
        ensures clusters { OnOk result
            (AreClustersOf graph.now made.items (clusters_of_lists self.new)) }
        ensures work { IsWorkspace graph.now.nodes work.new }
    {
        for cluster in made {
            self.push(alloc, graph, distances, &cluster)?;
            work.give_back(cluster.members)?;
        }
        Ok(())
    }

    // Appends the cluster of all nodes, from node 0.
    fn push_whole(&mut self, distances: &Distances) -> Result<(), OutOfMemory>
        requires heads { self.old.heads.items ≡ [] }
        requires nodes { self.old.nodes.items ≡ [] }
        requires weights { self.old.weights.items ≡ [] }
        ensures laid { OnOk result (AreLaid self.new) }
        ensures whole { OnOk result (IsWholeAlone distances.now (clusters_of_lists self.new)) }
    {
        push_numbers(distances.nodes(), &mut self.nodes)?;
        self.weights.extend_from_slice(distances.row(0))?;
        self.heads.push(ClusterHead {
            leader: 0,
            phase: 0,
            depth: greatest_weight(&self.weights),
            start: 0,
            end: self.nodes.len(),
        })?;
        Ok(())
    }
}

// The clusters of a level.
#[derive(Drop)]
pub struct Clusters {
    lists: ClusterLists,
}

impl Model for Clusters {
    ghost use Rattle.std.specs.Prelude.{List};
    ghost use Rattle.region_plan.specs.Plan.{PlanCluster};
    ghost use Rattle.region_plan.specs.Laid.{AreLaid, clusters_of_lists};

    ghost Value = { List PlanCluster };

    ghost view = { λ c. clusters_of_lists c.lists };

    ghost invariant = { λ c. AreLaid c.lists };
}

impl Clusters {
    // The clusters of a cover, each weighed inside it from the centre that leads it. Their sets go
    // back to the workspace that they come from.
    pub fn of_cover(
        alloc: Global,
        graph: &Graph,
        distances: &Distances,
        made: Vec<Cluster>,
        work: &mut Workspace,
    ) -> Result<Clusters, OutOfMemory>
        requires belongs { AreDistancesOf graph.now distances.now }
        requires spanned { All (IsSpanned graph.now) made.items }
        requires work { IsWorkspace graph.now.nodes work.old }
        ensures work { IsWorkspace graph.now.nodes work.new }
        ensures clusters { IfOk result (AreClustersOf graph.now made.items) }
    {
        // In most levels a node has four clusters at most.
        let room = 4 * graph.nodes() as usize;
        let mut lists = ClusterLists::with_capacity(alloc, made.len(), room)?;
        lists.push_cover(alloc, graph, distances, made, work)?;
        Ok(Clusters { lists })
    }

    // The one cluster of all nodes, from node 0.
    pub fn whole(alloc: Global, distances: &Distances) -> Result<Clusters, OutOfMemory>
        ensures { IfOk result (IsWholeAlone distances.now) }
    {
        let mut lists = ClusterLists::with_capacity(alloc, 1, distances.nodes() as usize)?;
        lists.push_whole(distances)?;
        Ok(Clusters { lists })
    }

    pub fn count(&self) -> usize
        ensures { result ≡ length self.now }
    {
        self.lists.heads.len()
    }

    pub fn leader(&self, c: u32) -> u32
        requires { c < length self.now }
        ensures { result ≡ (cluster_in self.now c).leader }
    {
        self.lists.heads[c as usize].leader
    }

    pub fn phase(&self, c: u32) -> u32
        requires { c < length self.now }
        ensures { result ≡ (cluster_in self.now c).phase }
    {
        self.lists.heads[c as usize].phase
    }

    pub fn depth(&self, c: u32) -> u64
        requires { c < length self.now }
        ensures { result ≡ (cluster_in self.now c).depth }
    {
        u64::from(self.lists.heads[c as usize].depth)
    }

    // The members of a cluster, ascending.
    pub fn nodes(&self, c: u32) -> &[u32]
        requires { c < length self.now }
        ensures members { result.now ≡ (cluster_in self.now c).members }
        ensures ascending { IsAscending (cluster_in self.now c).members }
    {
        let head = self.lists.heads[c as usize];
        &self.lists.nodes[head.start..head.end]
    }

    // The weights beside the members of a cluster.
    pub fn weights(&self, c: u32) -> &[u32]
        requires { c < length self.now }
        ensures weights { result.now ≡ (cluster_in self.now c).weights }
        ensures count { length result.now ≡ length (cluster_in self.now c).members }
    {
        let head = self.lists.heads[c as usize];
        &self.lists.weights[head.start..head.end]
    }

    pub fn member(&self, c: u32, v: u32) -> bool
        requires { c < length self.now }
        ensures { result ≡ has v (cluster_in self.now c).members }
    {
        match self.nodes(c).binary_search(&v) {
            Ok(_) => true,
            Err(_) => false,
        }
    }

    pub fn weight(&self, c: u32, v: u32) -> u64
        requires cluster { c < length self.now }
        requires member { IsTrue (has v (cluster_in self.now c).members) }
        ensures { result ≡ weight_in self.now c v }
    {
        match self.nodes(c).binary_search(&v) {
            Ok(place) => u64::from(self.weights(c)[place]),
            Err(_) => unreachable!(),
        }
    }
}

// Writes the least weight inside a cluster from its leader to each member, and gives the greatest.
// Walks among the members reach them all.
fn weigh_members(
    alloc: Global,
    graph: &Graph,
    distances: &Distances,
    cluster: &Cluster,
    nodes: &[u32],
    weights: &mut Vec<u32>,
) -> Result<u32, OutOfMemory>
    requires belongs { AreDistancesOf graph.now distances.now }
    requires spanned { IsSpanned graph.now cluster.now }
    requires sound { AreNodes cluster.now.members }
    requires nodes { nodes.now ≡ cluster.now.members.members }
    ensures { IfOk result (AreWeightsWritten graph.now cluster.now.members.members cluster.now.first
        weights.old.items weights.new.items) }
{
    let leader = cluster.first;
    let row = distances.row(leader);
    match inside_weights(alloc, graph, row, &cluster.members, nodes, leader, weights) {
        Ok(depth) => Ok(depth),
        Err(TreeFault::OutOfMemory) => Err(AllocError),
        Err(TreeFault::Outside { .. }) => unreachable!(),
    }
}

// Appends the numbers of a set.
fn push_members(set: &NodeSet, list: &mut Vec<u32>) -> Result<(), OutOfMemory>
    ensures sound { AreNodes set.now }
    ensures pushed { OnOk result (list.new.items ≡ list.old.items ++ set.now.members) }
{
    // The numbers ascend.
    set_is_sound(set);
    let mut from = 0;
    'member: while let Some(v) = set.next_from(from) {
        list.push(v)?;
        from = v + 1;
    }
    Ok(())
}

// Appends the numbers below this one.
fn push_numbers(below: u32, list: &mut Vec<u32>) -> Result<(), OutOfMemory>
    ensures { OnOk result (list.new.items ≡ list.old.items ++ centres below) }
{
    for number in 0..below {
        list.push(number)?;
    }
    Ok(())
}
