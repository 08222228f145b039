//! The growth of one cluster, by one union that grows.

ghost use Rattle.std.specs.Prelude.{◌≡◌, ℕ, ◌≤◌, ◌<◌, ◌∷◌, List, length, filter, All, IfOk, OnOk};
ghost use Rattle.node_set.specs.Nodes.{Nodes};
ghost use Rattle.coarse_cover.specs.Coarsening.{cluster_of};
ghost use Rattle.node_set.specs.Turned.{AreTurned};
ghost use Rattle.node_set.specs.Workspaces.{SpareTaken};
ghost use Rattle.node_set.specs.Balls.{touches, sets};
ghost use Rattle.coarse_cover.specs.HalfMade.{IsReady};

use node_set::{Growth, NodeSet, OutOfMemory, absorb_balls, empty_set, touch};
use std::alloc::Global;
use std::mem;
use whole_powers::at_most;

// Grows the cluster that `first` leads, until one more growth would not multiply its balls enough.
pub fn grow(
    alloc: Global,
    balls: &[NodeSet],
    rows: &[NodeSet],
    k: u32,
    r: u32,
    first: usize,
    waiting: &NodeSet,
    growth: &mut Growth,
) -> Result<NodeSet, OutOfMemory>
    requires small { length balls.now ≤ 1024 }
    requires rooms { All (λ (b : Nodes). b.room ≡ length balls.now) balls.now }
    requires rows { All (λ (b : Nodes). b.room ≡ length balls.now) rows.now }
    requires row_count { length rows.now ≡ length balls.now }
    requires turned { AreTurned (sets balls.now) (sets rows.now) }
    requires few { k ≤ 8 }
    requires within { r ≤ 1024 }
    requires waiting { waiting.now.room ≡ length balls.now }
    requires taken { growth.old.taken.room ≡ length balls.now }
    requires touched { growth.old.touched.room ≡ length balls.now }
    requires spare { All (λ (s : Nodes). s.room ≡ length balls.now) growth.old.spare.items }
    requires ready { IsReady (sets balls.now) k r waiting.now.members }
    requires first { first < length balls.now }
    requires leads { (rest : List ℕ) × (waiting.now.members ≡ first ∷ rest) }
    ensures members { IfOk result (λ m. m ≡ record {
      room = length balls.now;
      members = (cluster_of (sets balls.now) k r waiting.now.members first).members;
    }) }
    ensures taken { OnOk result (growth.new.taken.members
        ≡ (cluster_of (sets balls.now) k r waiting.now.members first).homed) }
    ensures touched { OnOk result (growth.new.touched.members
        ≡ filter (touches (sets balls.now)
        (cluster_of (sets balls.now) k r waiting.now.members first).members)
        waiting.now.members) }
    ensures taken_room { growth.new.taken.room ≡ length balls.now }
    ensures touched_room { growth.new.touched.room ≡ length balls.now }
    ensures spare_rooms { All (λ (s : Nodes). s.room ≡ length balls.now)
        growth.new.spare.items }
    ensures spare { SpareTaken 1 growth.old.spare.items growth.new.spare.items }
{
    let mut members = empty_set(alloc, &mut growth.spare, balls.len() as u32)?;
    members.absorb(&balls[first]);
    growth.taken.clear();
    growth.taken.insert(first as u32);
    let mut size = 1;
    for _step in 0..k {
        touch(rows, waiting, &members, &mut growth.touched);
        let more = growth.touched.count();
        if at_most(more, k, r, size) {
            return Ok(members);
        }
        absorb_balls(balls, &growth.touched, &mut members);
        mem::swap(&mut growth.taken, &mut growth.touched);
        size = more;
    }
    unreachable!("fewer than k growths are enough")
}
