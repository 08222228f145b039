//! The mean cover of balls: clusters until no ball waits.

ghost use Rattle.std.specs.Prelude.{◌≡◌, ℕ, ◌+◌, ◌^◌, ◌≤◌, ◌<◌, ◌∷◌, List, length, sum_by, All};
ghost use Rattle.std.specs.Prelude.{IfOk, OnOk};
ghost use Rattle.node_set.specs.Nodes.{Nodes};
ghost use Rattle.node_set.specs.Balls.{sets, AreCentred, AreInside, AreHomes};
ghost use Rattle.node_set.specs.Turned.{AreTurned};
ghost use Rattle.node_set.specs.Workspaces.{AreSpareLeft, IsWorkspace, SpareTaken};
ghost use Rattle.mean_cover.specs.Covering.{mean_cluster, mean_covering};
ghost use Rattle.mean_cover.specs.MeanCovers.{IsMeanCover, member_lists};
ghost use Rattle.mean_cover.specs.HalfMade.{IsReady, IsAdded};

use crate::cover::{MeanCluster, MeanCover};
use crate::growing::grow;
use crate::laws::mean_covers_are_small;
use node_set::{NodeSet, OutOfMemory, Workspace, balls_are_inside, fill_all, rows_of, set_homes};
use std::alloc::Global;

/// Coarsens balls into clusters whose sizes are small in the sum, with a trade-off `k` of 1 to 8: a
/// larger `k` makes larger clusters with a smaller sum. A node can be in many of them.
///
/// There are at most 1,024 balls, each a set of as many nodes as there are balls, and the ball at
/// place `v` holds `v`, its centre. Takes one set of nodes for each cluster, and the balls' rows
/// and a few sets beside them.
pub fn coarsen_mean(alloc: Global, balls: &[NodeSet], k: u32) -> Result<MeanCover, OutOfMemory>
    requires small { length balls.now ≤ 1024 }
    requires rooms { All (λ (b : Nodes). b.room ≡ length balls.now) balls.now }
    requires centred { AreCentred (sets balls.now) }
    requires low { 1 ≤ k }
    requires high { k ≤ 8 }
    ensures exact { IfOk result (λ cover.
        IsMeanCover (length balls.now) (mean_covering (sets balls.now) k) cover) }

    // What follows from the definition.
    ensures growths { OnOk result (All (λ c. c.growths ≤ k) (mean_covering (sets balls.now) k)) }
    ensures homes { IfOk result
        (λ cover. AreHomes (sets balls.now) (member_lists cover.clusters.items) cover.home.items) }
    ensures small_sum { IfOk result (λ cover. sum_by (λ c. length c.members.members)
        cover.clusters.items ^ k ≤ length balls.now ^ (k + 1)) }
    ensures few { IfOk result (λ cover. length cover.clusters.items ≤ length balls.now) }
{
    balls_are_inside(balls);
    mean_covers_are_small();
    let rows = rows_of(alloc, balls)?;
    let mut work = Workspace::new(alloc, balls.len() as u32)?;
    let cover = coarsen_mean_by_rows(alloc, balls, &rows, k, &mut work)?;
    Ok(cover)
}

/// Coarsens balls as `coarsen_mean` does, where their rows are there: the row of each node is the
/// set of the centres of the balls that have it. Balls of distances are their own rows. The
/// workspace is for as many balls, and stays so where memory is wanting. Each cluster takes the
/// last of its spare sets, where one is left; its other sets are written over.
pub fn coarsen_mean_by_rows(
    alloc: Global,
    balls: &[NodeSet],
    rows: &[NodeSet],
    k: u32,
    work: &mut Workspace,
) -> Result<MeanCover, OutOfMemory>
    requires small { length balls.now ≤ 1024 }
    requires rooms { All (λ (b : Nodes). b.room ≡ length balls.now) balls.now }
    requires rows { All (λ (b : Nodes). b.room ≡ length balls.now) rows.now }
    requires row_count { length rows.now ≡ length balls.now }
    requires turned { AreTurned (sets balls.now) (sets rows.now) }
    requires centred { AreCentred (sets balls.now) }
    requires inside { AreInside (sets balls.now) }
    requires low { 1 ≤ k }
    requires high { k ≤ 8 }
    requires work { IsWorkspace (length balls.now) work.old }
    ensures work { IsWorkspace (length balls.now) work.new }
    ensures exact { IfOk result (λ cover.
        IsMeanCover (length balls.now) (mean_covering (sets balls.now) k) cover) }
    ensures few { IfOk result (λ cover. length cover.clusters.items ≤ length balls.now) }
    ensures spare { IfOk result (λ cover. SpareTaken (length cover.clusters.items)
        work.old.growth.spare.items work.new.growth.spare.items) }
    ensures spare_left { AreSpareLeft work.old.growth.spare.items work.new.growth.spare.items }
{
    fill_all(&mut work.waiting);
    let mut cover = MeanCover {
        clusters: Vec::new(alloc),
        home: vec![in alloc; 0u32; balls.len()]?,
    };
    let mut from = 0;
    'first: while let Some(first) = work.waiting.next_from(from) {
        add_cluster(alloc, balls, rows, k, first as usize, work, &mut cover)?;
        from = first + 1;
    }
    Ok(cover)
}

// Adds the cluster that `first` leads.
fn add_cluster(
    alloc: Global,
    balls: &[NodeSet],
    rows: &[NodeSet],
    k: u32,
    first: usize,
    work: &mut Workspace,
    cover: &mut MeanCover,
) -> Result<(), OutOfMemory>
    requires small { length balls.now ≤ 1024 }
    requires rooms { All (λ (b : Nodes). b.room ≡ length balls.now) balls.now }
    requires rows { All (λ (b : Nodes). b.room ≡ length balls.now) rows.now }
    requires row_count { length rows.now ≡ length balls.now }
    requires turned { AreTurned (sets balls.now) (sets rows.now) }
    requires inside { AreInside (sets balls.now) }
    requires low { 1 ≤ k }
    requires high { k ≤ 8 }
    requires sized { IsWorkspace (length balls.now) work.old }
    requires home_count { length cover.old.home.items ≡ length balls.now }
    requires numbers { length cover.old.clusters.items < 2 ^ 32 }
    requires ready { IsReady (sets balls.now) work.old.waiting.members }
    requires first { first < length balls.now }
    requires leads { (rest : List ℕ) × (work.old.waiting.members ≡ first ∷ rest) }
    ensures added { OnOk result (IsAdded (length balls.now)
        (mean_cluster (sets balls.now) k work.old.waiting.members first)
        work.old work.new cover.old cover.new) }
    ensures sized { IsWorkspace (length balls.now) work.new }
    ensures spare { SpareTaken 1 work.old.growth.spare.items work.new.growth.spare.items }
{
    let number = cover.clusters.len() as u32;
    let members = grow(
        alloc,
        balls,
        rows,
        k,
        first,
        &work.waiting,
        &mut work.growth,
    )?;
    work.waiting.remove(&work.growth.touched);
    set_homes(&work.growth.touched, number, &mut cover.home);
    cover.clusters.push(MeanCluster {
        first: first as u32,
        members,
    })?;
    Ok(())
}
