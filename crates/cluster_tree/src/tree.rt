//! The tree of a cluster.

ghost use Rattle.std.specs.Prelude.{◌≡◌, ◌<◌, ◌^◌, IfErr, IfOk, IsTrue};
ghost use Rattle.node_set.specs.Ascending.{has};
ghost use Rattle.cluster_tree.specs.Tree.{IsDepth, IsTreeOf, inside_weight};
ghost use Rattle.cluster_tree.specs.Faults.{IsTreeFault};

use crate::fault::TreeFault;
use crate::weighing::{flags_of, weigh};
use net_graph::{Graph, greatest_weight};
use node_set::NodeSet;
use std::alloc::Global;
use std::marker::Model;

/// The least weight, inside a cluster, from its leader to each member.
#[derive(Debug, Drop)]
pub struct ClusterTree {
    leader: u32,
    members: Vec<u32>,
    weights: Vec<u32>,
    depth: u32,
}

impl Model for ClusterTree {
    ghost use Rattle.cluster_tree.specs.Tree.{IsSoundTree, WeighedCluster};

    ghost Value = { WeighedCluster };

    ghost view = { λ t. record {
      leader = t.leader;
      members = t.members.items;
      weights = t.weights.items;
    } };

    ghost invariant = { λ t. IsSoundTree
        (record { leader = t.leader; members = t.members.items; weights = t.weights.items })
        t.depth };
}

impl ClusterTree {
    /// The tree of the members from their leader. `Outside` names the least member that no walk
    /// through members alone reaches from the leader.
    pub fn new(
        alloc: Global,
        graph: &Graph,
        members: &NodeSet,
        leader: u32,
    ) -> Result<ClusterTree, TreeFault>
        requires room { members.now.room ≡ graph.now.nodes }
        requires leader { IsTrue (has leader members.now.members) }
        ensures tree { IfOk result (IsTreeOf graph.now members.now.members leader) }
        ensures fault { IfErr result (IsTreeFault graph.now members.now.members leader) }
    {
        let flags = flags_of(alloc, members)?;
        let weights = graph.weights_from(alloc, &flags, leader)?;
        let weighed = weigh(alloc, members, &weights)?;
        let depth = greatest_weight(&weighed.weights);
        Ok(ClusterTree {
            leader,
            members: weighed.nodes,
            weights: weighed.weights,
            depth,
        })
    }

    /// The least weight inside the cluster from the leader to the member `v`.
    pub fn weight_of(&self, v: u32) -> u64
        requires { IsTrue (has v self.now.members) }
        ensures exact { result ≡ inside_weight self.now v }
        ensures light { result < 2 ^ 32 }
    {
        match self.members.binary_search(&v) {
            Ok(place) => u64::from(self.weights[place]),
            Err(_) => unreachable!(),
        }
    }

    /// The greatest weight of a member.
    pub fn depth(&self) -> u64
        ensures { IsDepth self.now result }
    {
        u64::from(self.depth)
    }
}
