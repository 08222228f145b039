//! The search for least walks: of the unsettled nodes the lightest is settled next, and the arcs
//! that leave it are relaxed. A node waits once for each time that its weight fell; once it is
//! settled, its other entries are skipped.

ghost use Rattle.std.specs.Prelude.{◌≡◌, ◌+◌, ◌*◌, ◌<◌, ◌≤◌, ◌^◌, ◌∷◌, [], All, IfOk, IsTrue, OnOk, false, length, true};
ghost use Rattle.std.specs.BinaryHeap.{heap_items};
ghost use Rattle.net_graph.specs.Trees.{AreLeastWeights};
ghost use Rattle.net_graph.specs.Search.{IsLighter, IsRelaxed};
ghost use Rattle.net_graph.specs.Layout.{IsArc};
ghost use Rattle.net_graph.specs.Least.{IsAtMost};
ghost use Rattle.net_graph.specs.Walks.{among};

use crate::neighbours::{Arc, Neighbours};
use crate::queue::Queue;
use std::alloc::{AllocError, Global};

// The least weight of a walk from the root to each node through the allowed nodes.
pub(crate) fn search_from(
    alloc: Global,
    neighbours: &Neighbours,
    allowed: &[bool],
    root: u32,
) -> Result<Vec<Option<u64>>, AllocError>
    requires count { length allowed.now ≡ neighbours.now.nodes }
    requires root { IsTrue (among allowed.now root) }
    ensures { IfOk result (λ w. AreLeastWeights neighbours.now (among allowed.now) root w.items) }
{
    let mut weights = vec![in alloc; None; neighbours.nodes() as usize]?;
    let mut unsettled = allowed.to_vec(alloc)?;
    let mut queue = Queue::new(alloc);
    weights[root as usize] = Some(0);
    queue.push(0, root)?;
    while let Some(lightest) = queue.next_unsettled(&unsettled) {
        unsettled[lightest.node] = false;
        let arcs = neighbours.arcs_of(lightest.node as u32);
        relax(
            arcs,
            lightest.weight,
            u64::MAX,
            &unsettled,
            &mut weights,
            &mut queue,
        )?;
    }
    Ok(weights)
}

// Lowers the weight of each unsettled node to which an arc leads from a node of this weight, where
// it is within the radius.
pub(crate) fn relax(
    arcs: &[Arc],
    weight: u64,
    radius: u64,
    unsettled: &[bool],
    weights: &mut [Option<u64>],
    queue: &mut Queue,
) -> Result<(), AllocError>
    requires arcs { All (IsArc (length unsettled.now)) arcs.now }
    requires count { length unsettled.now ≡ length weights.old }
    requires weight { weight ≤ 2 ^ 40 }
    ensures { OnOk result (IsRelaxed arcs.now weight radius unsettled.now weights.old weights.new
        (heap_items queue.old.heap) (heap_items queue.new.heap)) }
{
    for arc in arcs {
        relax_arc(*arc, weight, radius, unsettled, weights, queue)?;
    }
    Ok(())
}

// Lowers the weight of a node, if it is unsettled, to what it weighs by an arc from a node of this
// weight, where that is within the radius.
fn relax_arc(
    arc: Arc,
    weight: u64,
    radius: u64,
    unsettled: &[bool],
    weights: &mut [Option<u64>],
    queue: &mut Queue,
) -> Result<(), AllocError>
    requires arc { IsArc (length unsettled.now) arc }
    requires count { length unsettled.now ≡ length weights.old }
    requires weight { weight ≤ 2 ^ 40 }
    ensures { OnOk result (IsRelaxed (arc ∷ []) weight radius unsettled.now weights.old weights.new
        (heap_items queue.old.heap) (heap_items queue.new.heap)) }
{
    let target = arc.target as usize;
    let through = weight + u64::from(arc.weight);
    if through <= radius && unsettled[target] && is_lighter(through, weights[target]) {
        weights[target] = Some(through);
        queue.push(through, arc.target)?;
    }
    Ok(())
}

// Whether a node has no weight yet, or a greater one.
#[inline(always)]
fn is_lighter(through: u64, weight: Option<u64>) -> bool
    ensures lighter { result ≡ true → IsLighter through weight }
    ensures not { result ≡ false → IsAtMost weight through }
{
    match weight {
        Some(least) => through < least,
        None => true,
    }
}
