//! The nodes of a handset's trail, as bits.
ghost use Rattle.std.specs.Prelude.{◌≡◌, ◌<◌, ◌≤◌, ◌-◌, true, false, not, ◌==◌, ◌&&◌, IfOk, length, replicate, slice_index_or, slice_set};
ghost use Rattle.handset.specs.StepWrites.{first_with};
ghost use Rattle.handset.specs.Trails.{flags};

use node_set::NodeSet;
use std::alloc::{AllocError, Global};

// The trail of a subscriber that hasn't moved from its start.
pub fn trail_at(alloc: Global, nodes: u32, home: u32) -> Result<NodeSet, AllocError>
    requires node { home < nodes }
    requires few { nodes ≤ 1024 }
    ensures { IfOk result (λ trail. flags trail ≡ slice_set (replicate nodes false) home true) }
{
    let mut trail = NodeSet::empty(alloc, nodes)?;
    mark(&mut trail, home);
    Ok(trail)
}

// The node is on the trail.
pub fn mark(trail: &mut NodeSet, node: u32)
    requires { node < length (flags trail.old) }
    ensures { flags trail.new ≡ slice_set (flags trail.old) node true }
{
    trail.insert(node);
}

// No node is on the trail.
pub fn clear(trail: &mut NodeSet)
    ensures { flags trail.new ≡ replicate (length (flags trail.old)) false }
{
    trail.clear();
}

// The first node from one on that is on the trail, but isn't the new one.
pub fn first_behind(trail: &NodeSet, to: u32, from: u32) -> Option<u32>
    requires { length (flags trail.now) ≤ 1024 }
    ensures { result ≡ first_with (λ node. slice_index_or (flags trail.now) node false && not
        (node == to)) from (length (flags trail.now) - from) }
{
    let node = trail.next_from(from)?;
    if node != to {
        return Some(node);
    }
    trail.next_from(node + 1)
}
