//! The growth of one cluster, by one union that grows.

ghost use Rattle.std.specs.Prelude.{◌≡◌, ℕ, ◌≤◌, ◌<◌, ◌∷◌, List, length, All, IfOk, OnOk};
ghost use Rattle.node_set.specs.Nodes.{Nodes};
ghost use Rattle.node_set.specs.Balls.{AreInside, sets};
ghost use Rattle.node_set.specs.Turned.{AreTurned};
ghost use Rattle.node_set.specs.Workspaces.{SpareTaken};
ghost use Rattle.mean_cover.specs.Covering.{mean_cluster};
ghost use Rattle.mean_cover.specs.HalfMade.{IsReady};

use node_set::{Growth, NodeSet, OutOfMemory, absorb_balls, empty_set, touch};
use std::alloc::Global;
use whole_powers::at_most;

// Grows the cluster that `first` leads: the union takes in what touches it, until that doesn't
// multiply its nodes enough. The balls of the last growth are then those that touched.
pub fn grow(
    alloc: Global,
    balls: &[NodeSet],
    rows: &[NodeSet],
    k: u32,
    first: usize,
    waiting: &NodeSet,
    growth: &mut Growth,
) -> Result<NodeSet, OutOfMemory>
    requires small { length balls.now ≤ 1024 }
    requires rooms { All (λ (b : Nodes). b.room ≡ length balls.now) balls.now }
    requires rows { All (λ (b : Nodes). b.room ≡ length balls.now) rows.now }
    requires row_count { length rows.now ≡ length balls.now }
    requires turned { AreTurned (sets balls.now) (sets rows.now) }
    requires inside { AreInside (sets balls.now) }
    requires low { 1 ≤ k }
    requires high { k ≤ 8 }
    requires waiting { waiting.now.room ≡ length balls.now }
    requires touched { growth.old.touched.room ≡ length balls.now }
    requires spare { All (λ (s : Nodes). s.room ≡ length balls.now) growth.old.spare.items }
    requires ready { IsReady (sets balls.now) waiting.now.members }
    requires first { first < length balls.now }
    requires leads { (rest : List ℕ) × (waiting.now.members ≡ first ∷ rest) }
    ensures members { IfOk result (λ m. m ≡ record {
      room = length balls.now;
      members = (mean_cluster (sets balls.now) k waiting.now.members first).members;
    }) }
    ensures touched { OnOk result (growth.new.touched.members
        ≡ (mean_cluster (sets balls.now) k waiting.now.members first).homed) }
    ensures taken_room { growth.new.taken.room ≡ growth.old.taken.room }
    ensures touched_room { growth.new.touched.room ≡ length balls.now }
    ensures spare_rooms { All (λ (s : Nodes). s.room ≡ length balls.now)
        growth.new.spare.items }
    ensures spare { SpareTaken 1 growth.old.spare.items growth.new.spare.items }
{
    let nodes = balls.len() as u32;
    let mut members = empty_set(alloc, &mut growth.spare, nodes)?;
    members.absorb(&balls[first]);
    let mut size = members.count();
    for _step in 0..k {
        touch(rows, waiting, &members, &mut growth.touched);
        absorb_balls(balls, &growth.touched, &mut members);
        let more = members.count();
        if at_most(more, k, nodes, size) {
            return Ok(members);
        }
        size = more;
    }
    unreachable!("fewer than k growths are enough")
}
