//! The search for the nodes near a set, in memory that serves one search after another: a search
//! takes as many steps as nodes are near, however many there are.

ghost use Rattle.std.specs.Prelude.{◌≡◌, ◌<◌, ◌≤◌, ◌^◌, [], All, Contains, IfOk, OnErr, OnOk, ℕ, Some, false, length, true};
ghost use Rattle.std.specs.BinaryHeap.{heap_items};
ghost use Rattle.net_graph.specs.Near.{AreNear, HasBegun, HasEnded, IsBlank, IsClearable, found_of};
ghost use Rattle.net_graph.specs.Trees.{at_node};
ghost use Rattle.net_graph.specs.Walks.{among};

use crate::edge::MAX_NODES;
use crate::neighbours::Neighbours;
use crate::queue::Queue;
use crate::search::relax;
use std::alloc::{AllocError, Global};
use std::marker::Model;

/// Memory for searches over a graph of so many nodes, lent to one after another, and what the last
/// one found.
#[derive(Debug, Drop)]
pub struct Nearby {
    pub(crate) marks: Marks,
}

// The nodes that were found, each node's weight, and whether it is unsettled.
#[derive(Debug, Drop)]
pub(crate) struct Marks {
    pub(crate) found: Vec<u32>,
    pub(crate) weights: Vec<Option<u64>>,
    pub(crate) unsettled: Vec<bool>,
}

impl Model for Nearby {
    ghost use Rattle.net_graph.specs.Near.{Found, IsClearable};

    ghost Value = { Found };

    ghost view = { λ n. record {
      nodes = n.marks.found.items;
      weights = n.marks.weights.items;
    } };

    ghost invariant = { λ n. IsClearable n.marks };
}

impl Nearby {
    /// Memory for searches over a graph of `n` nodes, before the first.
    pub fn new(alloc: Global, n: u32) -> Result<Nearby, AllocError>
        ensures none { IfOk result (λ nearby. nearby.nodes ≡ []) }
        ensures room { IfOk result (λ nearby. length nearby.weights ≡ n) }
    {
        Ok(Nearby {
            marks: Marks {
                found: Vec::new(alloc),
                weights: vec![in alloc; None; n as usize]?,
                unsettled: vec![in alloc; true; n as usize]?,
            },
        })
    }

    /// The nodes that the last search found, the nearest first.
    pub fn found(&self) -> &[u32]
        ensures { result.now ≡ self.now.nodes }
    {
        &self.marks.found
    }

    /// The weight of a node that was found.
    pub fn weight_of(&self, node: u32) -> Option<u64>
        ensures { result ≡ at_node self.now.weights node }
    {
        match self.marks.weights.get(node as usize) {
            Some(weight) => *weight,
            None => None,
        }
    }
}

// Finds the nodes within the radius of some nodes. Where memory is wanting none is found, and the
// marks serve the next search all the same.
pub(crate) fn search_near(
    alloc: Global,
    neighbours: &Neighbours,
    sources: &[u32],
    radius: u64,
    marks: &mut Marks,
) -> Result<(), AllocError>
    requires few { neighbours.now.nodes ≤ MAX_NODES }
    requires sources { All (λ v. v < neighbours.now.nodes) sources.now }
    requires radius { radius ≤ 2 ^ 40 }
    requires room { length marks.old.weights.items ≡ neighbours.now.nodes }
    requires clearable { IsClearable marks.old }
    ensures near { OnOk result (AreNear neighbours.now sources.now radius (found_of marks.new)) }
    ensures none { OnErr result (marks.new.found.items ≡ []) }
    ensures room { length marks.new.weights.items ≡ length marks.old.weights.items }
    ensures clearable { IsClearable marks.new }
{
    clear(marks);
    match spread(alloc, neighbours, sources, radius, marks) {
        Ok(()) => Ok(()),
        Err(error) => {
            forget(marks);
            Err(error)
        }
    }
}

// Clears what the last search found.
fn clear(marks: &mut Marks)
    requires { IsClearable marks.old }
    ensures { IsBlank (length marks.old.weights.items) marks.new }
{
    clear_found(&marks.found, &mut marks.weights, &mut marks.unsettled);
    marks.found.clear();
}

// Clears the weights of the nodes that were found, who are all that have one or are settled.
fn clear_found(found: &[u32], weights: &mut [Option<u64>], unsettled: &mut [bool])
    requires count { length unsettled.old ≡ length weights.old }
    requires below { All (λ v. v < length weights.old) found.now }
    requires weighed { (v w : ℕ) → at_node weights.old v ≡ Some w → Contains found.now v }
    requires settled { (v : ℕ) → v < length unsettled.old → among unsettled.old v ≡ false
        → Contains found.now v }
    ensures weights { (v w : ℕ) → at_node weights.new v ≡ Some w → ⊥ }
    ensures unsettled { (v : ℕ) → v < length unsettled.old → among unsettled.new v ≡ true }
{
    for node in found {
        weights[*node as usize] = None;
        unsettled[*node as usize] = true;
    }
}

// Clears all nodes.
fn forget(marks: &mut Marks)
    requires { length marks.old.unsettled.items ≡ length marks.old.weights.items }
    ensures { IsBlank (length marks.old.weights.items) marks.new }
{
    marks.found.clear();
    marks.weights.fill(None);
    marks.unsettled.fill(true);
}

// Settles one node after another, the lightest first, until none within the radius is left.
fn spread(
    alloc: Global,
    neighbours: &Neighbours,
    sources: &[u32],
    radius: u64,
    marks: &mut Marks,
) -> Result<(), AllocError>
    requires few { neighbours.now.nodes ≤ MAX_NODES }
    requires sources { All (λ v. v < neighbours.now.nodes) sources.now }
    requires radius { radius ≤ 2 ^ 40 }
    requires blank { IsBlank neighbours.now.nodes marks.old }
    ensures ended { OnOk result (HasEnded neighbours.now sources.now radius marks.new) }
    ensures weights { length marks.new.weights.items ≡ length marks.old.weights.items }
    ensures unsettled { length marks.new.unsettled.items ≡ length marks.old.unsettled.items }
{
    let mut queue = Queue::new(alloc);
    push_sources(sources, &mut marks.weights, &mut queue)?;
    while let Some(lightest) = queue.next_unsettled(&marks.unsettled) {
        let node = lightest.node as u32;
        marks.unsettled[lightest.node] = false;
        marks.found.push(node)?;
        let arcs = neighbours.arcs_of(node);
        relax(
            arcs,
            lightest.weight,
            radius,
            &marks.unsettled,
            &mut marks.weights,
            &mut queue,
        )?;
    }
    Ok(())
}

// Gives each source the weight 0, at which it waits.
fn push_sources(
    sources: &[u32],
    weights: &mut [Option<u64>],
    queue: &mut Queue,
) -> Result<(), AllocError>
    requires below { All (λ v. v < length weights.old) sources.now }
    requires unweighed { (v w : ℕ) → at_node weights.old v ≡ Some w → ⊥ }
    requires empty { heap_items queue.old.heap ≡ [] }
    ensures { OnOk result
        (HasBegun sources.now weights.new (heap_items queue.new.heap)) }
{
    for source in sources {
        weights[*source as usize] = Some(0);
        queue.push(0, *source)?;
    }
    Ok(())
}
