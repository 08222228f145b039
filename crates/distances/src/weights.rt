//! Weights in a list, and how they are lowered: one, sixteen at once, and as many as wanted.

ghost use Rattle.std.specs.Prelude.{◌≡◌, ◌+◌, ◌*◌, ◌<◌, ◌≤◌, All, length, map, min, slice_set, slice_index};
ghost use lib.Lanes.{zip2};
ghost use Rattle.distances.specs.Lowering.{ChunkOffer, IsLowered, SpanOffer};

use std::simd::prelude::*;

/// A weight that stands for none: no sum of two passes the end of u32.
pub(crate) const FAR: u32 = 0x3fff_ffff;

// Lowers a weight to another.
#[inline(always)]
pub(crate) fn lower(weights: &mut [u32], place: usize, weight: u32)
    requires { place < length weights.old }
    ensures { weights.new
        ≡ slice_set weights.old place (min (slice_index weights.old place) weight) }
{
    weights[place] = weights[place].min(weight);
}

// The lesser of each two lanes.
#[inline(always)]
fn lesser_lanes(a: u32x16, b: u32x16) -> u32x16
    ensures { result ≡ zip2 (λ x y. min x y) a b }
{
    a.simd_min(b)
}

// One more weight on each lane.
#[inline(always)]
fn more_lanes(a: u32x16, by: u32) -> u32x16
    requires count { length a ≡ 16 }
    requires light { All (λ w. w ≤ FAR) a }
    requires by { by ≤ FAR }
    ensures { result ≡ map (λ x. by + x) a }
{
    a + u32x16::splat(by)
}

// Lowers sixteen weights to those of a row, each with one more weight.
#[inline(always)]
fn lower_chunk(weights: &mut [u32], place: usize, row: &[u32], from: usize, by: u32)
    requires place { place + 16 ≤ length weights.old }
    requires from { from + 16 ≤ length row.now }
    requires light { All (λ w. w ≤ FAR) row.now }
    requires by { by ≤ FAR }
    ensures { IsLowered (ChunkOffer place row.now from by) weights.old weights.new }
{
    let old = u32x16::from_slice(&weights[place..place + 16]);
    let through = more_lanes(u32x16::from_slice(&row[from..from + 16]), by);
    lesser_lanes(old, through).copy_to_slice(&mut weights[place..place + 16]);
}

// Lowers so many weights from a place on to those of a row, each with one more weight.
pub(crate) fn lower_span(
    weights: &mut [u32],
    place: usize,
    row: &[u32],
    from: usize,
    count: usize,
    by: u32,
)
    requires place { place + count ≤ length weights.old }
    requires from { from + count ≤ length row.now }
    requires light { All (λ w. w ≤ FAR) row.now }
    requires by { by ≤ FAR }
    ensures { IsLowered (SpanOffer count place row.now from by) weights.old weights.new }
{
    let whole = count / 16;
    for i in 0..whole {
        lower_chunk(weights, place + i * 16, row, from + i * 16, by);
    }
    for x in whole * 16..count {
        lower(weights, place + x, by + row[from + x]);
    }
}
