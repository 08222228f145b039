//! The rows of balls.

ghost use Rattle.std.specs.Prelude.{◌≡◌, ◌≤◌, ◌<◌, length, All, IfOk};
ghost use Rattle.node_set.specs.Ascending.{has, sift};
ghost use Rattle.node_set.specs.Nodes.{Nodes};
ghost use Rattle.node_set.specs.Balls.{AreInside, ball, sets};
ghost use Rattle.node_set.specs.Turned.{AreTurned};

use crate::set::{NodeSet, OutOfMemory, set_is_sound};
use std::alloc::Global;

// The centres of the balls that have the node.
fn row_of(alloc: Global, balls: &[NodeSet], node: u32) -> Result<NodeSet, OutOfMemory>
    requires small { length balls.now ≤ 1024 }
    requires rooms { All (λ (b : Nodes). b.room ≡ length balls.now) balls.now }
    requires node { node < length balls.now }
    ensures { IfOk result (λ row. row ≡ record {
      room = length balls.now;
      members = sift (λ u. has node (ball (sets balls.now) u)) 0 (length balls.now);
    }) }
{
    let mut row = NodeSet::empty(alloc, balls.len() as u32)?;
    for u in 0..balls.len() {
        if balls[u].has(node) {
            row.insert(u as u32);
        }
    }
    Ok(row)
}

/// The rows of all nodes: for each the centres of the balls that have it. There are at most 1,024
/// balls, and the room of each is their number.
pub fn rows_of(alloc: Global, balls: &[NodeSet]) -> Result<Vec<NodeSet>, OutOfMemory>
    requires small { length balls.now ≤ 1024 }
    requires rooms { All (λ (b : Nodes). b.room ≡ length balls.now) balls.now }
    ensures count { IfOk result (λ rows. length rows.items ≡ length balls.now) }
    ensures rooms { IfOk result
        (λ rows. All (λ (b : Nodes). b.room ≡ length balls.now) rows.items) }
    ensures turned { IfOk result (λ rows. AreTurned (sets balls.now) (sets rows.items)) }
{
    let mut rows = Vec::with_capacity(alloc, balls.len())?;
    for v in 0..balls.len() as u32 {
        rows.push(row_of(alloc, balls, v)?)?;
    }
    Ok(rows)
}

/// Each node of a ball has a ball of its own, where the room of each ball is the number of balls.
pub fn balls_are_inside(balls: &[NodeSet])
    requires { All (λ (b : Nodes). b.room ≡ length balls.now) balls.now }
    ensures { AreInside (sets balls.now) }
{
    for u in 0..balls.len() {
        set_is_sound(&balls[u]);
    }
}
