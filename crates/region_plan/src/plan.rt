//! The plan of a network.

ghost use Rattle.std.specs.Prelude.{◌≡◌, ◌<◌, ◌≤◌, ◌^◌, ℕ, List, IfOk, IsTrue, length, true};
ghost use Rattle.std.specs.Prelude.{slice_index, slice_index_or};
ghost use Rattle.node_set.specs.Ascending.{has};
ghost use Rattle.distances.specs.Table.{AreDistancesOf};
ghost use Rattle.region_plan.specs.Plan.{level_at, levels_of, nodes_of, clusters_of, cluster_at};
ghost use Rattle.region_plan.specs.Plan.{Repeats, members_of, inside};
ghost use Rattle.region_plan.specs.Plan.{home as home_in, readers as readers_at};
ghost use Rattle.region_plan.specs.Plan.{leader as leader_in, threshold as threshold_at};
ghost use Rattle.region_plan.specs.Coverings.{trade_off_of};
ghost use Rattle.region_plan.specs.Regions.{covered_plan, mean_plan, plan_of};
ghost use Rattle.region_plan.specs.Flat.{IsFlat};
ghost use Rattle.region_plan.specs.Matched.{IsMatched, IsWithinReach, BoundsFinds, HasFewReaders};
ghost use Rattle.region_plan.specs.Matched.{HasSmallSum};
ghost use Rattle.region_plan.specs.Measures.{degree_of, stretch_of};
ghost use Rattle.region_plan.specs.Settings.{setting_of};
ghost use Rattle.directory.specs.Finds.{most_looks};
ghost use Rattle.directory.specs.Writes.{most_writes};
ghost use Rattle.region_plan.specs.Kept.{IsKept, plan_with};

use crate::balls::top_for;
use crate::building::build_levels;
use crate::covering::{Covering, covering_home_means, covering_shape};
use crate::flat::flat_levels;
use crate::laws::{covered_plan_is_one, mean_plan_is_small, plan_is_sparse};
use crate::sharing::Levels;
use distances::Distances;
use net_graph::{Graph, OutOfMemory, graph_is_sound};
use node_set::Workspace;
use std::alloc::Global;
use std::marker::Model;

/// A plan: for each level the clusters of a cover, the home of each node and the clusters that it
/// reads.
///
/// A number that names a node is below `nodes`, one that names a level below `levels`, and one that
/// names a cluster below the clusters of its level. All calls but those that make a
/// plan take no memory.
///
/// ```text
/// let graph = Graph::new(alloc, 4, &edges)?;
/// let distances = Distances::new(alloc, &graph)?;
/// let plan = Plan::build(alloc, &graph, &distances, 2)?;
/// ```
#[derive(Drop)]
pub struct Plan {
    k: u32,
    reach: u32,
    degree: u32,
    distances: Distances,
    levels: Levels,
}

impl Model for Plan {
    ghost use Rattle.std.specs.Prelude.{◌≡◌};
    ghost use Rattle.region_plan.specs.Plan.{PlanData};
    ghost use Rattle.region_plan.specs.Kept.{IsPlanKept};

    ghost Value = { PlanData };

    ghost view = { λ p. record {
      k = p.k;
      reach = p.reach;
      distances = p.distances;
      levels = p.levels;
    } };

    ghost invariant = { λ p. IsPlanKept
        (record { k = p.k; reach = p.reach; distances = p.distances; levels = p.levels })
        p.degree };
}

impl Plan {
    /// The flat plan: one level, whose exponent is that of the top level, with one cluster of all
    /// nodes that node 0 leads.
    pub fn flat(alloc: Global, graph: &Graph, distances: &Distances) -> Result<Plan, OutOfMemory>
        requires belongs { AreDistancesOf graph.now distances.now }
        ensures plan { IfOk result (IsFlat graph.now) }
        ensures copy { IfOk result (λ plan. plan.distances ≡ distances.now) }
        ensures matched { IfOk result IsMatched }
        ensures reached { IfOk result IsWithinReach }
    {
        let levels = flat_levels(alloc, distances)?;
        Ok(Plan::of_levels(1, 1, distances.copy()?, levels))
    }

    // The plan of these levels.
    fn of_levels(k: u32, reach: u32, distances: Distances, levels: Levels) -> Plan
        requires kept { IsKept (plan_with k reach distances levels) }
        requires matched { IsMatched (plan_with k reach distances levels) }
        requires reached { IsWithinReach (plan_with k reach distances levels) }
        ensures { result ≡ plan_with k reach distances levels }
    {
        let mut degree = 0;
        for i in 0..levels.count() {
            degree = degree.max(levels.table(i as u32).degree());
        }
        Plan {
            k,
            reach,
            degree,
            distances,
            levels,
        }
    }

    /// The plan of the network with the trade-off `k`: a larger `k` makes larger clusters that
    /// overlap less. Level `i` coarsens the balls of radius 2^`i`.
    pub fn build(
        alloc: Global,
        graph: &Graph,
        distances: &Distances,
        k: u32,
    ) -> Result<Plan, OutOfMemory>
        requires belongs { AreDistancesOf graph.now distances.now }
        requires low { 1 ≤ k }
        requires high { k ≤ 8 }
        ensures plan { IfOk result (λ plan. plan ≡ plan_of graph.now k) }
        ensures copy { IfOk result (λ plan. plan.distances ≡ distances.now) }
        ensures bounding { IfOk result BoundsFinds }
        ensures sparse { IfOk result HasFewReaders }
    {
        graph_is_sound(graph);
        plan_is_sparse();
        Plan::build_by(alloc, graph, distances, Covering::Phased(k))
    }

    /// The plan of the network over mean covers, with the trade-off `k`: the sizes of a level's
    /// clusters are small in the sum, and a node can be in many of them. Level `i` covers the balls
    /// of radius 2^`i` in one phase.
    pub fn build_mean(
        alloc: Global,
        graph: &Graph,
        distances: &Distances,
        k: u32,
    ) -> Result<Plan, OutOfMemory>
        requires belongs { AreDistancesOf graph.now distances.now }
        requires low { 1 ≤ k }
        requires high { k ≤ 8 }
        ensures plan { IfOk result (λ plan. plan ≡ mean_plan graph.now k) }
        ensures copy { IfOk result (λ plan. plan.distances ≡ distances.now) }
        ensures bounding { IfOk result BoundsFinds }
        ensures small_sum { IfOk result HasSmallSum }
    {
        graph_is_sound(graph);
        mean_plan_is_small();
        Plan::build_by(alloc, graph, distances, Covering::Mean(k))
    }

    /// The plan of the network over either covering, as `build` and `build_mean` make it.
    pub fn build_by(
        alloc: Global,
        graph: &Graph,
        distances: &Distances,
        covering: Covering,
    ) -> Result<Plan, OutOfMemory>
        requires belongs { AreDistancesOf graph.now distances.now }
        requires low { 1 ≤ trade_off_of covering }
        requires high { trade_off_of covering ≤ 8 }
        ensures plan { IfOk result (λ plan. plan ≡ covered_plan covering graph.now) }
        ensures copy { IfOk result (λ plan. plan.distances ≡ distances.now) }
        ensures bounding { IfOk result BoundsFinds }
    {
        // The calls tell the proof that the network is connected and within the limits, and what
        // covers keep.
        graph_is_sound(graph);
        covering_shape();
        covering_home_means();
        covered_plan_is_one();
        let top = top_for(distances);
        let levels = build_levels(alloc, graph, distances, covering, top)?;
        let copy = distances.copy()?;
        Ok(Plan::of_levels(covering.trade_off(), covering.reach(), copy, levels))
    }

    /// How many nodes there are.
    pub fn nodes(&self) -> u32
        ensures count { result ≡ nodes_of self.now }
        ensures sound { IsKept self.now }
    {
        self.distances.nodes()
    }

    /// The trade-off that the plan was built with, 1 for the flat plan.
    pub fn k(&self) -> u32
        ensures { result ≡ self.now.k }
    {
        self.k
    }

    /// How many levels there are.
    pub fn levels(&self) -> u32
        ensures { result ≡ levels_of self.now }
    {
        self.levels.count() as u32
    }

    /// The exponent of a level: nodes within 2^exponent of each other meet at it.
    pub fn exponent(&self, i: u32) -> u32
        requires level { i < levels_of self.now }
        ensures { result ≡ (level_at self.now i).exponent }
    {
        self.levels.exponent(i)
    }

    /// The weight that a subscriber gathers before its address at the level is renewed, unless that
    /// of a higher level is renewed before.
    pub fn threshold(&self, i: u32) -> u64
        requires level { i < levels_of self.now }
        ensures { result ≡ threshold_at self.now i }
    {
        self.levels.threshold(i)
    }

    /// Whether a level is known to have the clusters of the one below it, and so their homes.
    pub fn repeats(&self, i: u32) -> bool
        requires level { i < levels_of self.now }
        ensures { result ≡ true → Repeats self.now i }
    {
        self.levels.shares(i)
    }

    /// The number of phases that made the clusters of a level.
    pub fn phases(&self, i: u32) -> u32
        requires level { i < levels_of self.now }
        ensures { result ≡ (level_at self.now i).phases }
    {
        self.levels.table(i).phases
    }

    /// How many clusters a level has.
    pub fn clusters(&self, i: u32) -> u32
        requires level { i < levels_of self.now }
        ensures { result ≡ clusters_of self.now i }
    {
        self.levels.table(i).clusters.count() as u32
    }

    /// The phase that made a cluster.
    pub fn phase_of(&self, i: u32, c: u32) -> u32
        requires level { i < levels_of self.now }
        requires cluster { c < clusters_of self.now i }
        ensures { result ≡ (cluster_at self.now i c).phase }
    {
        self.levels.table(i).clusters.phase(c)
    }

    /// The cluster that is the home of `v`.
    pub fn home(&self, i: u32, v: u32) -> u32
        requires level { i < levels_of self.now }
        requires node { v < nodes_of self.now }
        ensures { result ≡ home_in self.now i v }
    {
        self.levels.table(i).homes[v as usize]
    }

    /// The ascending numbers of the clusters that contain `v`.
    pub fn readers(&self, i: u32, v: u32) -> &[u32]
        requires level { i < levels_of self.now }
        requires node { v < nodes_of self.now }
        ensures { result.now ≡ readers_at self.now i v }
    {
        self.levels.table(i).readers_at(v)
    }

    /// The node that leads a cluster.
    pub fn leader(&self, i: u32, c: u32) -> u32
        requires level { i < levels_of self.now }
        requires cluster { c < clusters_of self.now i }
        ensures { result ≡ leader_in self.now i c }
    {
        self.levels.table(i).clusters.leader(c)
    }

    /// Whether `v` is in a cluster.
    pub fn member(&self, i: u32, c: u32, v: u32) -> bool
        requires level { i < levels_of self.now }
        requires cluster { c < clusters_of self.now i }
        requires node { v < nodes_of self.now }
        ensures { result ≡ has v (members_of self.now i c) }
    {
        self.levels.table(i).clusters.member(c, v)
    }

    /// The members of a cluster, ascending.
    pub fn members(&self, i: u32, c: u32) -> &[u32]
        requires level { i < levels_of self.now }
        requires cluster { c < clusters_of self.now i }
        ensures { result.now ≡ members_of self.now i c }
    {
        self.levels.table(i).clusters.nodes(c)
    }

    /// The greatest weight of a member of a cluster.
    pub fn depth(&self, i: u32, c: u32) -> u64
        requires level { i < levels_of self.now }
        requires cluster { c < clusters_of self.now i }
        ensures { result ≡ (cluster_at self.now i c).depth }
    {
        self.levels.table(i).clusters.depth(c)
    }

    /// The least weight inside a cluster from its leader to the member `v`.
    pub fn tree_weight(&self, i: u32, c: u32, v: u32) -> u64
        requires level { i < levels_of self.now }
        requires cluster { c < clusters_of self.now i }
        requires member { IsTrue (has v (members_of self.now i c)) }
        ensures { result ≡ inside self.now i c v }
    {
        self.levels.table(i).clusters.weight(c, v)
    }

    /// The least weight inside a reader of `v` from its leader to `v`. The place is that of the
    /// reader among the readers of `v`.
    pub fn reader_weight(&self, i: u32, v: u32, place: u32) -> u64
        requires level { i < levels_of self.now }
        requires node { v < nodes_of self.now }
        requires place { place < length (readers_at self.now i v) }
        ensures { result ≡ inside self.now i (slice_index (readers_at self.now i v) place) v }
    {
        self.levels.table(i).reader_weight(v, place)
    }

    /// The largest number of clusters that a node reads at a level.
    pub fn degree(&self) -> u32
        ensures { result ≡ degree_of self.now }
    {
        self.degree
    }

    /// How many times its distance a quiet find may travel, but for twice an open passage, over a
    /// plan that bounds its finds, as those of `build` and `build_mean` do (docs/DIRECTORY.md,
    /// "What a find pays"). Of the flat plan no clause says that it bounds a find.
    pub fn stretch(&self) -> u64
        ensures exact { result ≡ stretch_of self.now }
        ensures small { result ≤ 2 ^ 20 }
    {
        16 * u64::from(self.degree) * u64::from(self.reach) + 12 * u64::from(self.reach) + 12
    }

    /// The most looks of a find from a node.
    pub fn most_looks(&self, from: u32) -> u64
        requires { from < nodes_of self.now }
        ensures { (starts : List ℕ) → result ≡ most_looks (setting_of self.now starts) from }
    {
        let mut read = 0;
        for i in 0..self.levels() {
            read += self.levels.table(i).readers_at(from).len() as u64;
        }
        1 + read + u64::from(self.nodes()) + 3
    }

    /// The most writes of a move.
    pub fn most_writes(&self) -> u64
        ensures { (starts : List ℕ) → result ≡ most_writes (setting_of self.now starts) }
    {
        3 + 2 * u64::from(self.levels()) + u64::from(self.nodes())
    }
}

/// What every plan is: within its sizes, matched, and with clusters within their reach. The call
/// does nothing, and its clauses are laws.
pub fn plan_is_sound(plan: &Plan)
    ensures sound { IsKept plan.now }
    ensures matched { IsMatched plan.now }
    ensures reached { IsWithinReach plan.now }
{
    // A look at a field tells the proof what the plan keeps.
    let _ = &plan.degree;
}
