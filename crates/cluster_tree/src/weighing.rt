//! The members of a cluster and their weights.

ghost use Rattle.std.specs.Prelude.{◌≡◌, ◌<◌, ◌≤◌, ◌^◌, ◌++◌, ◌∷◌, [], ℕ, All, Contains, IfErr};
ghost use Rattle.std.specs.Prelude.{IfOk, OnOk, Some, length};
ghost use Rattle.net_graph.specs.Trees.{at_node};
ghost use Rattle.node_set.specs.Nodes.{AreNodes};
ghost use Rattle.cluster_tree.specs.Weighing.{AreFlagsBelow, AreWeighedBelow, IsMissing};

use crate::fault::TreeFault;
use net_graph::OutOfMemory;
use node_set::NodeSet;
use std::alloc::Global;

// Members in ascending order, and the weight of each.
#[derive(Drop)]
pub(crate) struct Weighed {
    pub(crate) nodes: Vec<u32>,
    pub(crate) weights: Vec<u32>,
}

// For each node whether it is a member.
pub(crate) fn flags_of(alloc: Global, members: &NodeSet) -> Result<Vec<bool>, OutOfMemory>
    ensures flags { IfOk result (λ flags.
        AreFlagsBelow members.now.room members.now.members flags.items) }
    ensures sound { AreNodes members.now }
{
    let mut flags = Vec::with_capacity(alloc, members.room() as usize)?;
    for v in 0..members.room() {
        flags.push(members.has(v))?;
    }
    Ok(flags)
}

// The members with their weights, or the least member that has none.
pub(crate) fn weigh(
    alloc: Global,
    members: &NodeSet,
    weights: &[Option<u64>],
) -> Result<Weighed, TreeFault>
    requires count { length weights.now ≡ members.now.room }
    requires light { (v w : ℕ) → v < members.now.room → at_node weights.now v ≡ Some w
        → w < 2 ^ 32 }
    ensures weighed { IfOk result
        (AreWeighedBelow members.now.room members.now.members weights.now) }
    ensures missing { IfErr result (IsMissing members.now weights.now) }
{
    let mut weighed = Weighed {
        nodes: Vec::with_capacity(alloc, members.count() as usize)?,
        weights: Vec::with_capacity(alloc, members.count() as usize)?,
    };
    for v in 0..members.room() {
        if members.has(v) {
            let Some(weight) = weights[v as usize] else {
                return Err(TreeFault::Outside { node: v });
            };
            push_member(&mut weighed, v, weight as u32)?;
        }
    }
    Ok(weighed)
}

// Appends a member and its weight.
fn push_member(weighed: &mut Weighed, node: u32, weight: u32) -> Result<(), OutOfMemory>
    ensures nodes { OnOk result (weighed.new.nodes.items ≡ weighed.old.nodes.items ++ node ∷ []) }
    ensures weights { OnOk result (weighed.new.weights.items
        ≡ weighed.old.weights.items ++ weight ∷ []) }
{
    weighed.nodes.push(node)?;
    weighed.weights.push(weight)?;
    Ok(())
}
