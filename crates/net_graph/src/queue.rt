//! Nodes that wait to be settled, the lightest first.

ghost use Rattle.std.specs.Prelude.{◌≡◌, ◌<◌, ℕ, [], ◌∷◌, Contains, IfNone, IfSome, IsPermutation, OnOk, length};
ghost use Rattle.std.specs.BinaryHeap.{IsHeap, heap_items};
ghost use Rattle.std.proofs.Props.{props};
ghost use Rattle.net_graph.specs.Queue.{AreSettled, IsNextUnsettled, lighter_first, make_waiting};

use std::alloc::{AllocError, Global};
use std::cmp::Reverse;
use std::collections::BinaryHeap;

// A node, and the weight at which it was reached.
#[derive(Clone, Copy)]
pub(crate) struct Candidate {
    pub(crate) node: usize,
    pub(crate) weight: u64,
}

// Nodes that wait, each with the weight at which it was reached. A node that was reached again
// waits more than once.
#[derive(Drop)]
pub(crate) struct Queue {
    heap: BinaryHeap<Reverse<(u64, u32)>>,
    ghost ordered: { IsHeap lighter_first (heap_items heap) } by { Prim.hlevel props },
}

impl Queue {
    // No node waits.
    pub(crate) fn new(alloc: Global) -> Queue
        ensures { heap_items result.heap ≡ [] }
    {
        Queue {
            heap: BinaryHeap::new(alloc),
        }
    }

    // One more node waits.
    pub(crate) fn push(&mut self, weight: u64, node: u32) -> Result<(), AllocError>
        ensures { OnOk result (IsPermutation (make_waiting weight node ∷ heap_items self.old.heap)
            (heap_items self.new.heap)) }
    {
        self.heap.push(Reverse((weight, node)))?;
        Ok(())
    }

    // The lightest of the unsettled nodes that wait. It and the settled ones before it wait no
    // longer.
    pub(crate) fn next_unsettled(&mut self, unsettled: &[bool]) -> Option<Candidate>
        requires { (w v : ℕ) → Contains (heap_items self.old.heap) (make_waiting w v)
            → v < length unsettled.now }
        ensures next { IfSome result
            (IsNextUnsettled unsettled.now (heap_items self.old.heap) (heap_items self.new.heap)) }
        ensures none { IfNone result (AreSettled unsettled.now (heap_items self.old.heap)) }
    {
        while let Some(Reverse((weight, node))) = self.heap.pop() {
            if unsettled[node as usize] {
                return Some(Candidate {
                    node: node as usize,
                    weight,
                });
            }
        }
        None
    }
}
