//! At which exponents the balls of a network grow.
ghost use Rattle.std.specs.Prelude.{◌≡◌, ◌+◌, ◌*◌, ◌^◌, ◌<◌, ◌≤◌, ℕ, All, IfOk, true, false, slice_index_or};
ghost use Rattle.std.specs.Prelude.{length, slice_index};
ghost use Rattle.distances.specs.Table.{IsMetric};
ghost use Rattle.region_plan.specs.Spread.{AreExponents, IsExponent, IsSpreadOf};

use distances::Distances;
use net_graph::OutOfMemory;
use std::alloc::Global;

// For each pair of nodes the least exponent whose power of two reaches their distance, row by row;
// and for each exponent to 30 whether some distance has it. At the others balls are as they are one
// exponent below.
#[derive(Drop)]
pub struct Spread {
    pub exponents: Vec<u8>,
    pub in_use: Vec<bool>,
}

impl Spread {
    // The exponents of these distances.
    pub fn new(alloc: Global, distances: &Distances) -> Result<Spread, OutOfMemory>
        ensures { IfOk result (IsSpreadOf distances.now) }
    {
        let exponents = exponents_of(alloc, distances)?;
        let in_use = exponents_in_use(alloc, &exponents)?;
        Ok(Spread { exponents, in_use })
    }
}

// The exponents of all distances.
fn exponents_of(alloc: Global, distances: &Distances) -> Result<Vec<u8>, OutOfMemory>
    ensures { IfOk result (λ exponents. AreExponents distances.now exponents.items) }
{
    let nodes = distances.nodes() as usize;
    let mut exponents = vec![in alloc; 0u8; nodes * nodes]?;
    for u in 0..nodes {
        write_exponents(distances.row(u as u32), &mut exponents, u * nodes);
    }
    Ok(exponents)
}

// Writes the exponents of a row of distances from a place on.
fn write_exponents(row: &[u32], exponents: &mut [u8], at: usize)
    requires small { All (λ d. d ≤ 2 ^ 30) row.now }
    requires room { at + length row.now ≤ length exponents.old }
    ensures few { All (λ e. e ≤ 30) exponents.old → All (λ e. e ≤ 30) exponents.new }
    ensures kept { (x : ℕ) → x < at
        → slice_index exponents.new x ≡ slice_index exponents.old x }
    ensures each { (v : ℕ) → v < length row.now
        → IsExponent (slice_index row.now v) (slice_index exponents.new (at + v)) }
{
    for v in 0..row.len() {
        exponents[at + v] = exponent_of(row[v]);
    }
}

// The least exponent whose power of two reaches the distance.
fn exponent_of(distance: u32) -> u8
    requires small { distance ≤ 2 ^ 30 }
    ensures few { result ≤ 30 }
    ensures exact { IsExponent distance result }
{
    if distance == 0 {
        0
    } else {
        (2 * distance - 1).ilog2() as u8
    }
}

// For each exponent to 30 whether it is among these.
fn exponents_in_use(alloc: Global, exponents: &[u8]) -> Result<Vec<bool>, OutOfMemory>
    requires few { All (λ e. e ≤ 30) exponents.now }
    ensures count { IfOk result (λ marks. length marks.items ≡ 31) }
    ensures marked { IfOk result (λ marks. (x : ℕ) → x < length exponents.now
        → slice_index_or marks.items (slice_index exponents.now x) false ≡ true) }
{
    let mut marks = vec![in alloc; false; 31]?;
    for exponent in exponents {
        marks[*exponent as usize] = true;
    }
    Ok(marks)
}
