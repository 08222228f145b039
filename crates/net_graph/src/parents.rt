//! The parents in a tree of least walks.

ghost use Rattle.std.specs.Prelude.{◌≡◌, ◌↔◌, ◌<◌, ℕ, All, IfOk, IsTrue, length};
ghost use Rattle.net_graph.specs.Layout.{IsArc};
ghost use Rattle.net_graph.specs.Least.{lesser_of};
ghost use Rattle.net_graph.specs.Parents.{AreLeastNeighbours, IsLeastTarget, MakesUp};

use crate::neighbours::{Arc, Neighbours};
use std::alloc::{AllocError, Global};

// For each node the least neighbour whose weight and edge make up the node's weight.
pub(crate) fn parents_in(
    alloc: Global,
    neighbours: &Neighbours,
    weights: &[Option<u64>],
) -> Result<Vec<Option<u32>>, AllocError>
    requires { length weights.now ≡ neighbours.now.nodes }
    ensures { IfOk result (λ p.
        AreLeastNeighbours neighbours.now.edges weights.now neighbours.now.nodes p.items) }
{
    let mut parents = Vec::with_capacity(alloc, neighbours.nodes() as usize)?;
    for node in 0..neighbours.nodes() {
        parents.push(least_target(neighbours.arcs_of(node), weights, weights[node as usize]))?;
    }
    Ok(parents)
}

// Of the arcs whose weight, with that of their target, makes up this weight, the least target.
fn least_target(arcs: &[Arc], weights: &[Option<u64>], weight: Option<u64>) -> Option<u32>
    requires { All (IsArc (length weights.now)) arcs.now }
    ensures { IsLeastTarget arcs.now weights.now weight result }
{
    let mut least: Option<u32> = None;
    for arc in arcs {
        if makes_up(*arc, weights, weight) {
            lower(&mut least, arc.target);
        }
    }
    least
}

// Lowers a number that may be missing to another.
fn lower(least: &mut Option<u32>, number: u32)
    ensures { least.new ≡ lesser_of least.old number }
{
    *least = Some(least.map_or(number, |x| x.min(number)));
}

// Whether an arc's weight and that of its target make up this weight.
fn makes_up(arc: Arc, weights: &[Option<u64>], weight: Option<u64>) -> bool
    requires { IsArc (length weights.now) arc }
    ensures { IsTrue result ↔ MakesUp weights.now arc.target arc.weight weight }
{
    match (weights[arc.target as usize], weight) {
        (Some(before), Some(weight)) => before <= weight
            && weight - before == u64::from(arc.weight),
        _ => false,
    }
}
