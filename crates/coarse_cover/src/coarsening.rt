//! The coarsening of balls: phases until no ball is left.

ghost use Rattle.std.specs.Prelude.{◌≡◌, ℕ, ◌-◌, ◌*◌, ◌^◌, ◌≤◌, ◌<◌, length, count_by, All, IfOk};
ghost use Rattle.std.specs.Prelude.{OnOk};
ghost use Rattle.node_set.specs.Ascending.{has};
ghost use Rattle.node_set.specs.Nodes.{Nodes};
ghost use Rattle.coarse_cover.specs.Coarsening.{coarsening, all_clusters};
ghost use Rattle.node_set.specs.Workspaces.{AreSpareLeft, IsWorkspace, SpareTaken};
ghost use Rattle.node_set.specs.Turned.{AreTurned};
ghost use Rattle.node_set.specs.Balls.{sets, AreCentred, AreHomes};
ghost use Rattle.coarse_cover.specs.Covers.{IsCover, member_lists, AreApart};

use crate::cover::Cover;
use crate::laws::covers_are_sparse;
use crate::phasing::make_phase;
use node_set::{NodeSet, OutOfMemory, Workspace, fill_all, rows_of};
use std::alloc::Global;

/// Coarsens balls into clusters, with a trade-off `k` of 1 to 8: a larger `k` makes larger clusters
/// that overlap less.
///
/// There are at most 1,024 balls, each a set of as many nodes as there are balls, and the ball at
/// place `v` holds `v`, its centre. Takes one set of nodes for each cluster, and the balls' rows
/// and a few sets beside them.
pub fn coarsen(alloc: Global, balls: &[NodeSet], k: u32) -> Result<Cover, OutOfMemory>
    requires small { length balls.now ≤ 1024 }
    requires rooms { All (λ (b : Nodes). b.room ≡ length balls.now) balls.now }
    requires centred { AreCentred (sets balls.now) }
    requires low { 1 ≤ k }
    requires high { k ≤ 8 }
    ensures exact { IfOk result (λ cover.
        IsCover (length balls.now) (coarsening (sets balls.now) k) cover) }

    // What follows from the definition.
    ensures growths { OnOk result (All (λ c. c.growths ≤ k - 1)
        (all_clusters (coarsening (sets balls.now) k))) }
    ensures homes { IfOk result
        (λ cover. AreHomes (sets balls.now) (member_lists cover.clusters.items) cover.home.items) }
    ensures apart { IfOk result (λ cover. AreApart cover.clusters.items) }
    ensures phases { IfOk result (λ cover. cover.phases ^ k ≤ k ^ k * length balls.now) }
    ensures overlap { IfOk result (λ cover. (x : ℕ)
        → count_by (λ c. has x c.members.members) cover.clusters.items ≤ cover.phases) }
    ensures few { IfOk result (λ cover. length cover.clusters.items ≤ length balls.now) }
{
    let rows = rows_of(alloc, balls)?;
    let mut work = Workspace::new(alloc, balls.len() as u32)?;
    let cover = coarsen_by_rows(alloc, balls, &rows, k, &mut work)?;
    Ok(cover)
}

/// Coarsens balls as `coarsen` does, where their rows are there: the row of each node is the set of
/// the centres of the balls that have it. Balls of distances are their own rows. The workspace is
/// for as many balls, and stays so where memory is wanting. Each cluster takes the last of its
/// spare sets, where one is left; its other sets are written over.
pub fn coarsen_by_rows(
    alloc: Global,
    balls: &[NodeSet],
    rows: &[NodeSet],
    k: u32,
    work: &mut Workspace,
) -> Result<Cover, OutOfMemory>
    requires small { length balls.now ≤ 1024 }
    requires rooms { All (λ (b : Nodes). b.room ≡ length balls.now) balls.now }
    requires rows { All (λ (b : Nodes). b.room ≡ length balls.now) rows.now }
    requires row_count { length rows.now ≡ length balls.now }
    requires turned { AreTurned (sets balls.now) (sets rows.now) }
    requires centred { AreCentred (sets balls.now) }
    requires low { 1 ≤ k }
    requires high { k ≤ 8 }
    requires work { IsWorkspace (length balls.now) work.old }
    ensures work { IsWorkspace (length balls.now) work.new }
    ensures exact { IfOk result (λ cover.
        IsCover (length balls.now) (coarsening (sets balls.now) k) cover) }
    ensures phases { IfOk result (λ cover. cover.phases ^ k ≤ k ^ k * length balls.now) }
    ensures overlap { IfOk result (λ cover. (x : ℕ)
        → count_by (λ c. has x c.members.members) cover.clusters.items ≤ cover.phases) }
    ensures few { IfOk result (λ cover. length cover.clusters.items ≤ length balls.now) }
    ensures spare { IfOk result (λ cover. SpareTaken (length cover.clusters.items)
        work.old.growth.spare.items work.new.growth.spare.items) }
    ensures spare_left { AreSpareLeft work.old.growth.spare.items work.new.growth.spare.items }
{
    covers_are_sparse();
    fill_all(&mut work.left);
    let mut cover = Cover {
        clusters: Vec::new(alloc),
        home: vec![in alloc; 0u32; balls.len()]?,
        phases: 0,
    };
    'phase: while work.left.count() > 0 {
        make_phase(alloc, balls, rows, k, work, &mut cover)?;
    }
    Ok(cover)
}
