//! The places of numbers that are within a limit, as bits.

ghost use Rattle.std.specs.Prelude.{◌≡◌, ◌+◌, ◌≤◌, ◌<◌, ◌&&◌, ◌==◌, ℕ, IfOk, length, nat_le, nat_lt, slice_index};
ghost use Rattle.std.specs.Int.{bit_at};
ghost use Rattle.node_set.specs.Limits.{AreWithin};

use std::alloc::{AllocError, Global};
use std::simd::prelude::*;

// Which of 64 numbers are at most the limit.
#[inline(always)]
fn lanes_within(numbers: u32x64, limit: u32) -> u64
    ensures { (i : ℕ) → i < 64 → (bit_at result i == 1) ≡ nat_le (slice_index numbers i) limit }
{
    numbers.simd_le(u32x64::splat(limit)).to_bitmask()
}

// Which of the 64 numbers from a place on are at most the limit.
#[inline(always)]
fn block_within(numbers: &[u32], at: usize, limit: u32) -> u64
    requires { at + 64 ≤ length numbers.now }
    ensures { (i : ℕ) → i < 64
        → (bit_at result i == 1) ≡ nat_le (slice_index numbers.now (at + i)) limit }
{
    lanes_within(u32x64::from_slice(&numbers[at..]), limit)
}

// Which of the last numbers, fewer than 64, are at most the limit.
fn rest_within(numbers: &[u32], at: usize, limit: u32) -> u64
    requires at { at ≤ length numbers.now }
    requires few { length numbers.now < at + 64 }
    ensures { (i : ℕ) → i < 64 → (bit_at result i == 1)
        ≡ (nat_lt (at + i) (length numbers.now)
        && nat_le (slice_index numbers.now (at + i)) limit) }
{
    let mut word = 0;
    for i in 0..numbers.len() - at {
        if numbers[at + i] <= limit {
            word |= 1 << i;
        }
    }
    word
}

// The places of the numbers that are at most the limit, as the bits of words.
pub(crate) fn words_within(
    alloc: Global,
    numbers: &[u32],
    limit: u32,
) -> Result<Vec<u64>, AllocError>
    requires { length numbers.now ≤ 1024 }
    ensures { IfOk result (λ words. AreWithin numbers.now limit (length numbers.now) words.items) }
{
    let mut words = Vec::with_capacity(alloc, numbers.len().div_ceil(64))?;
    let whole = numbers.len() / 64;
    for block in 0..whole {
        words.push(block_within(numbers, 64 * block, limit))?;
    }
    if numbers.len() % 64 > 0 {
        words.push(rest_within(numbers, 64 * whole, limit))?;
    }
    Ok(words)
}
