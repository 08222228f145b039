//! One phase: clusters are added until no ball waits.

ghost use Rattle.std.specs.Prelude.{◌≡◌, ℕ, ◌+◌, ◌-◌, ◌≤◌, ◌<◌, ◌∷◌, ◌^◌, List, length, All, IfOk};
ghost use Rattle.std.specs.Prelude.{OnOk};
ghost use Rattle.node_set.specs.Nodes.{Nodes};
ghost use Rattle.coarse_cover.specs.Coarsening.{cluster_of};
ghost use Rattle.node_set.specs.Balls.{sets, AreCentred};
ghost use Rattle.coarse_cover.specs.HalfMade.{IsReady, IsAdded, IsBetween};
ghost use Rattle.node_set.specs.Workspaces.{AreSpareLeft, IsWorkspace, SpareTaken};
ghost use Rattle.node_set.specs.Turned.{AreTurned};

use crate::cover::{Cluster, Cover};
use crate::growing::grow;
use node_set::{NodeSet, OutOfMemory, Workspace, set_homes, set_is_sound};
use std::alloc::Global;

// Adds the cluster that `first` leads.
fn add_cluster(
    alloc: Global,
    balls: &[NodeSet],
    rows: &[NodeSet],
    k: u32,
    r: u32,
    first: usize,
    work: &mut Workspace,
    cover: &mut Cover,
) -> Result<(), OutOfMemory>
    requires small { length balls.now ≤ 1024 }
    requires rooms { All (λ (b : Nodes). b.room ≡ length balls.now) balls.now }
    requires rows { All (λ (b : Nodes). b.room ≡ length balls.now) rows.now }
    requires row_count { length rows.now ≡ length balls.now }
    requires turned { AreTurned (sets balls.now) (sets rows.now) }
    requires few { k ≤ 8 }
    requires within { r ≤ 1024 }
    requires sized { IsWorkspace (length balls.now) work.old }
    requires home_count { length cover.old.home.items ≡ length balls.now }
    requires numbers { length cover.old.clusters.items < 2 ^ 32 }
    requires ready { IsReady (sets balls.now) k r work.old.waiting.members }
    requires first { first < length balls.now }
    requires leads { (rest : List ℕ) × (work.old.waiting.members ≡ first ∷ rest) }
    ensures added { OnOk result (IsAdded (length balls.now) (sets balls.now)
        (cluster_of (sets balls.now) k r work.old.waiting.members first)
        work.old work.new cover.old cover.new) }
    ensures sized { IsWorkspace (length balls.now) work.new }
    ensures spare { SpareTaken 1 work.old.growth.spare.items work.new.growth.spare.items }
{
    let number = cover.clusters.len() as u32;
    let members = grow(
        alloc,
        balls,
        rows,
        k,
        r,
        first,
        &work.waiting,
        &mut work.growth,
    )?;
    work.left.remove(&work.growth.taken);
    work.waiting.remove(&work.growth.touched);
    set_homes(&work.growth.taken, number, &mut cover.home);
    cover.clusters.push(Cluster {
        first: first as u32,
        members,
        phase: cover.phases,
    })?;
    Ok(())
}

// Makes one phase of the balls that are left.
pub fn make_phase(
    alloc: Global,
    balls: &[NodeSet],
    rows: &[NodeSet],
    k: u32,
    work: &mut Workspace,
    cover: &mut Cover,
) -> Result<(), OutOfMemory>
    requires small { length balls.now ≤ 1024 }
    requires rooms { All (λ (b : Nodes). b.room ≡ length balls.now) balls.now }
    requires rows { All (λ (b : Nodes). b.room ≡ length balls.now) rows.now }
    requires row_count { length rows.now ≡ length balls.now }
    requires turned { AreTurned (sets balls.now) (sets rows.now) }
    requires centred { AreCentred (sets balls.now) }
    requires low { 1 ≤ k }
    requires few { k ≤ 8 }
    requires sized { IsWorkspace (length balls.now) work.old }
    requires home_count { length cover.old.home.items ≡ length balls.now }
    requires between { IsBetween (sets balls.now) k work.old.left.members
        cover.old.clusters.items cover.old.home.items cover.old.phases }
    requires some { 0 < length work.old.left.members }
    ensures between { OnOk result (IsBetween (sets balls.now) k work.new.left.members
        cover.new.clusters.items cover.new.home.items cover.new.phases) }
    ensures next { OnOk result (cover.new.phases ≡ cover.old.phases + 1) }
    ensures sized { IsWorkspace (length balls.now) work.new }
    ensures home_count { OnOk result (length cover.new.home.items ≡ length balls.now) }
    ensures more { OnOk result (length cover.old.clusters.items ≤ length cover.new.clusters.items) }
    ensures spare { OnOk result (SpareTaken
        (length cover.new.clusters.items - length cover.old.clusters.items)
        work.old.growth.spare.items work.new.growth.spare.items) }
    ensures spare_left { AreSpareLeft work.old.growth.spare.items work.new.growth.spare.items }
{
    // No more balls are left than there are.
    set_is_sound(&work.left);
    work.waiting.assign(&work.left);
    let r = work.left.count();
    let mut from = 0;
    'first: while let Some(first) = work.waiting.next_from(from) {
        add_cluster(alloc, balls, rows, k, r, first as usize, work, cover)?;
        from = first + 1;
    }
    cover.phases += 1;
    Ok(())
}
