//! The places of bytes that are within a limit, as bits.

ghost use Rattle.std.specs.Prelude.{◌≡◌, ◌+◌, ◌/◌, ◌≤◌, ◌<◌, ◌&&◌, ◌==◌, ℕ, length};
ghost use Rattle.std.specs.Prelude.{nat_le, nat_lt, slice_index};
ghost use Rattle.std.specs.Int.{bit_at};
ghost use Rattle.node_set.specs.Limits.{AreWithin};

use std::simd::prelude::*;

// Which of 64 bytes are at most the limit.
#[inline(always)]
fn lanes_within(bytes: u8x64, limit: u8) -> u64
    ensures { (i : ℕ) → i < 64 → (bit_at result i == 1) ≡ nat_le (slice_index bytes i) limit }
{
    bytes.simd_le(u8x64::splat(limit)).to_bitmask()
}

// Which of the 64 bytes from a place on are at most the limit.
#[inline(always)]
fn block_within(bytes: &[u8], at: usize, limit: u8) -> u64
    requires { at + 64 ≤ length bytes.now }
    ensures { (i : ℕ) → i < 64
        → (bit_at result i == 1) ≡ nat_le (slice_index bytes.now (at + i)) limit }
{
    lanes_within(u8x64::from_slice(&bytes[at..]), limit)
}

// Which of the last bytes, fewer than 64, are at most the limit.
fn rest_within(bytes: &[u8], at: usize, limit: u8) -> u64
    requires at { at ≤ length bytes.now }
    requires few { length bytes.now < at + 64 }
    ensures { (i : ℕ) → i < 64 → (bit_at result i == 1)
        ≡ (nat_lt (at + i) (length bytes.now) && nat_le (slice_index bytes.now (at + i)) limit) }
{
    let mut word = 0;
    for i in 0..bytes.len() - at {
        if bytes[at + i] <= limit {
            word |= 1 << i;
        }
    }
    word
}

// Makes the bits of the words those of the places of the bytes that are at most the limit.
pub(crate) fn fill_words(words: &mut [u64], bytes: &[u8], limit: u8)
    requires { length words.old ≡ (length bytes.now + 63) / 64 }
    ensures { AreWithin bytes.now limit (length bytes.now) words.new }
{
    let whole = bytes.len() / 64;
    for block in 0..whole {
        words[block] = block_within(bytes, 64 * block, limit);
    }
    if bytes.len() % 64 > 0 {
        words[whole] = rest_within(bytes, 64 * whole, limit);
    }
}
