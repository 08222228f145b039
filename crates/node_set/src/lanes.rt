//! Lists of words side by side, four places at a time.
ghost use Rattle.std.specs.Prelude.{◌≡◌, ◌↔◌, ◌+◌, ◌≤◌, length, IsTrue};
ghost use Rattle.node_set.specs.Lanes.{Meet, MeetWithin, AreWordsJoined, AreWordsJoinedWithin};

use std::simd::prelude::*;

// The places of one block.
const LANES: usize = 4;

/// Whether some place has a bit that is set in both lists, which have one length.
pub fn lanes_meet(a: &[u64], b: &[u64]) -> bool
    requires { length a.now ≡ length b.now }
    ensures { IsTrue result ↔ Meet a.now b.now }
{
    let blocks = a.len() / LANES;
    for block in 0..blocks {
        if block_meets(a, b, LANES * block) {
            return true;
        }
    }
    rest_meets(a, b, LANES * blocks)
}

// Whether a place of the block from here has a bit that is set in both.
#[inline(always)]
fn block_meets(a: &[u64], b: &[u64], at: usize) -> bool
    requires a { at + 4 ≤ length a.now }
    requires b { at + 4 ≤ length b.now }
    ensures { IsTrue result ↔ MeetWithin a.now b.now at (at + 4) }
{
    let both = u64x4::from_slice(&a[at..]) & u64x4::from_slice(&b[at..]);
    both.reduce_or() != 0
}

// Whether a place from here on has a bit that is set in both.
#[inline(always)]
fn rest_meets(a: &[u64], b: &[u64], from: usize) -> bool
    requires { length a.now ≡ length b.now }
    ensures { IsTrue result ↔ MeetWithin a.now b.now from (length a.now) }
{
    for i in from..a.len() {
        if a[i] & b[i] != 0 {
            return true;
        }
    }
    false
}

/// Leaves at each place of `a` the bits that were set in either list, which have one length.
pub fn lanes_absorb(a: &mut [u64], b: &[u64])
    requires { length a.old ≡ length b.now }
    ensures { AreWordsJoined a.old b.now a.new }
{
    let blocks = a.len() / LANES;
    for block in 0..blocks {
        absorb_block(a, b, LANES * block);
    }
    absorb_rest(a, b, LANES * blocks);
}

// Absorbs the block from here.
#[inline(always)]
fn absorb_block(a: &mut [u64], b: &[u64], at: usize)
    requires a { at + 4 ≤ length a.old }
    requires b { at + 4 ≤ length b.now }
    ensures { AreWordsJoinedWithin a.old b.now a.new at (at + 4) }
{
    let either = u64x4::from_slice(&a[at..]) | u64x4::from_slice(&b[at..]);
    either.copy_to_slice(&mut a[at..]);
}

// Absorbs all from here on.
#[inline(always)]
fn absorb_rest(a: &mut [u64], b: &[u64], from: usize)
    requires { length a.old ≡ length b.now }
    ensures { AreWordsJoinedWithin a.old b.now a.new from (length a.old) }
{
    for i in from..a.len() {
        a[i] |= b[i];
    }
}
