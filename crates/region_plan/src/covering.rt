//! The covers that a plan can have: coarsened in phases, which bounds the clusters at each node, or
//! small in the sum of all clusters.

ghost use Rattle.std.specs.Prelude.{◌≡◌, ◌≤◌, All, IfOk, length, map};
ghost use Rattle.node_set.specs.Balls.{AreCentred, AreInside, sets};
ghost use Rattle.node_set.specs.Nodes.{Nodes};
ghost use Rattle.node_set.specs.Turned.{AreTurned};
ghost use Rattle.node_set.specs.Workspaces.{IsWorkspace};
ghost use Rattle.coarse_cover.specs.Covers.{IsCover};
ghost use Rattle.region_plan.specs.Coverings.{covering_of, in_phase_0, reach_of, trade_off_of};
ghost use Rattle.region_plan.specs.Coverings.{CoveringsAreShaped, CoveringsHaveHomes};

use coarse_cover::{Cluster, Cover, cluster_shape, coarsen_by_rows, home_means};
use mean_cover::{
    MeanCluster, MeanCover, coarsen_mean_by_rows, mean_cluster_shape, mean_home_means,
};
use node_set::{NodeSet, OutOfMemory, Workspace};
use std::alloc::Global;

/// How the balls of each level are merged into clusters, with the trade-off `k`: a larger `k` makes
/// larger clusters.
#[derive(Clone, Copy)]
pub enum Covering {
    /// In phases, of which few have a cluster at one node.
    Phased(u32),
    /// In one phase of clusters whose sizes are small in the sum.
    Mean(u32),
}

impl Covering {
    // The trade-off.
    pub(crate) fn trade_off(self) -> u32
        ensures { result ≡ trade_off_of self }
    {
        match self {
            Covering::Phased(k) => k,
            Covering::Mean(k) => k,
        }
    }

    // How many radii of its level a member may be from its leader.
    pub(crate) fn reach(self) -> u32
        requires low { 1 ≤ trade_off_of self }
        requires high { trade_off_of self ≤ 8 }
        ensures { result ≡ reach_of self }
    {
        match self {
            Covering::Phased(k) => 2 * k - 1,
            Covering::Mean(k) => 2 * k + 1,
        }
    }

    // The cover of these balls, each of which is the row of its centre.
    pub(crate) fn cover(
        self,
        alloc: Global,
        balls: &[NodeSet],
        work: &mut Workspace,
    ) -> Result<Cover, OutOfMemory>
        requires small { length balls.now ≤ 1024 }
        requires rooms { All (λ (b : Nodes). b.room ≡ length balls.now) balls.now }
        requires turned { AreTurned (sets balls.now) (sets balls.now) }
        requires centred { AreCentred (sets balls.now) }
        requires inside { AreInside (sets balls.now) }
        requires low { 1 ≤ trade_off_of self }
        requires high { trade_off_of self ≤ 8 }
        requires work { IsWorkspace (length balls.now) work.old }
        ensures work { IsWorkspace (length balls.now) work.new }
        ensures exact { IfOk result (λ cover.
            IsCover (length balls.now) (covering_of self (sets balls.now)) cover) }
        ensures few { IfOk result (λ cover. length cover.clusters.items ≤ length balls.now) }
    {
        match self {
            Covering::Phased(k) => coarsen_by_rows(alloc, balls, balls, k, work),
            Covering::Mean(k) => {
                let cover = coarsen_mean_by_rows(alloc, balls, balls, k, work)?;
                Ok(in_one_phase(alloc, cover)?)
            }
        }
    }
}

// A mean cover as a cover of one phase.
fn in_one_phase(alloc: Global, cover: MeanCover) -> Result<Cover, OutOfMemory>
    ensures clusters { IfOk result
        (λ made. made.clusters.items ≡ map in_phase_0 cover.clusters.items) }
    ensures homes { IfOk result (λ made. made.home.items ≡ cover.home.items) }
    ensures phases { IfOk result (λ made. made.phases ≡ 1) }
{
    let MeanCover { clusters, home } = cover;
    let mut phased = Vec::with_capacity(alloc, clusters.len())?;
    for cluster in clusters {
        let MeanCluster { first, members } = cluster;
        phased.push(Cluster {
            first,
            members,
            phase: 0,
        })?;
    }
    Ok(Cover {
        clusters: phased,
        home,
        phases: 1,
    })
}

// Each cluster is its leader's ball after fewer growths than the covering takes steps, and has the
// nodes of the balls that it is the home of.
pub(crate) fn covering_shape()
    ensures { CoveringsAreShaped }
{
    cluster_shape();
    mean_cluster_shape();
}

// Each ball is one of those that its home was grown from.
pub(crate) fn covering_home_means()
    ensures { CoveringsHaveHomes }
{
    home_means();
    mean_home_means();
}
