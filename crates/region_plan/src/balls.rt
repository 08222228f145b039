//! The levels' exponents, and the balls of a level.

ghost use Rattle.std.specs.Prelude.{◌≡◌, ℕ, ◌<◌, ◌≤◌, ◌^◌, All, IfOk, length};
ghost use Rattle.node_set.specs.Nodes.{Nodes};
ghost use Rattle.distances.specs.Table.{IsMetric};
ghost use Rattle.node_set.specs.Balls.{sets};
ghost use Rattle.region_plan.specs.Regions.{balls_of};
ghost use Rattle.region_plan.specs.Meanings.{IsTop};
ghost use Rattle.region_plan.specs.Spread.{AreExponents};

use distances::{Distances, distances_are_sound};
use net_graph::OutOfMemory;
use node_set::NodeSet;
use std::alloc::Global;

// The least exponent whose power of two reaches the diameter.
pub fn top_for(distances: &Distances) -> u32
    ensures top { IsTop distances.now result }
    ensures few { result ≤ 30 }
    ensures metric { IsMetric distances.now }
{
    // Distances are bounded.
    distances_are_sound(distances);
    least_exponent(distances.diameter())
}

// The least exponent whose power of two reaches the number, 30 where none below does.
fn least_exponent(number: u64) -> u32
    ensures few { result ≤ 30 }
    ensures enough { number ≤ 2 ^ 30 → number ≤ 2 ^ result }
    ensures least { (i : ℕ) → i < result → 2 ^ i < number }
{
    for exponent in 0..30 {
        if number <= 1 << exponent {
            return exponent;
        }
    }
    30
}

// As many empty sets.
pub fn empty_sets(alloc: Global, count: usize, room: u32) -> Result<Vec<NodeSet>, OutOfMemory>
    requires { room ≤ 1024 }
    ensures count { IfOk result (λ sets. length sets.items ≡ count) }
    ensures rooms { IfOk result (λ sets. All (λ (s : Nodes). s.room ≡ room) sets.items) }
{
    let mut sets = Vec::with_capacity(alloc, count)?;
    for _place in 0..count {
        sets.push(NodeSet::empty(alloc, room)?)?;
    }
    Ok(sets)
}

// Makes the sets the balls of level `i` round all nodes.
pub fn fill_balls(distances: &Distances, exponents: &[u8], i: u32, balls: &mut [NodeSet])
    requires exponents { AreExponents distances.now exponents.now }
    requires few { i ≤ 30 }
    requires count { length balls.old ≡ distances.now.nodes }
    requires rooms { All (λ (b : Nodes). b.room ≡ distances.now.nodes) balls.old }
    ensures balls { sets balls.new ≡ balls_of distances.now i }
    ensures rooms { All (λ (b : Nodes). b.room ≡ distances.now.nodes) balls.new }
{
    let nodes = distances.nodes() as usize;
    for v in 0..nodes {
        balls[v].fill_within(&exponents[v * nodes..(v + 1) * nodes], i as u8);
    }
}
