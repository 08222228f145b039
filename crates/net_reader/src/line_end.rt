//! Where a line ends.
ghost use Rattle.std.specs.Prelude.{◌≡◌, ◌+◌, ◌<◌, ◌≤◌, ℕ, true, length, take, slice_index};
ghost use Rattle.std.specs.List.{list_all};
ghost use Rattle.net_reader.specs.Steps.{is_inside};

use std::simd::prelude::*;

// The bytes of one block.
const LANES: usize = 32;

// Whether the byte doesn't end a line.
pub(crate) fn is_inside(byte: u8) -> bool
    ensures { result ≡ is_inside byte }
{
    byte != b'\n' && byte != b'\r'
}

// How many bytes of the block from here come before one that may end a line.
#[inline(always)]
fn quiet_lanes(piece: &[u8], at: usize) -> usize
    requires { at + 32 ≤ length piece.now }
    ensures few { result ≤ 32 }
    ensures inside { (k : ℕ) → at ≤ k → k < at + result
        → is_inside (slice_index piece.now k) ≡ true }
{
    let block = u8x32::from_slice(&piece[at..]);
    let marks = block.simd_le(u8x32::splat(b'\r')).to_bitmask();
    if marks == 0 {
        LANES
    } else {
        marks.trailing_zeros() as usize
    }
}

// How many bytes at the front don't end a line, where so many are known not to.
fn rest_by_bytes(piece: &[u8], known: usize) -> usize
    requires within { known ≤ length piece.now }
    requires inside { (k : ℕ) → k < known → is_inside (slice_index piece.now k) ≡ true }
    ensures within { result ≤ length piece.now }
    ensures inside { (k : ℕ) → k < result → is_inside (slice_index piece.now k) ≡ true }
{
    let mut count = known;
    'bytes: while count < piece.len() && is_inside(piece[count]) {
        count += 1;
    }
    count
}

// How many bytes at the front don't end a line: up to one that may, where a block has it.
fn quiet_front(piece: &[u8]) -> usize
    ensures within { result ≤ length piece.now }
    ensures inside { (k : ℕ) → k < result → is_inside (slice_index piece.now k) ≡ true }
{
    let mut count = 0;
    'front: while piece.len() - count >= LANES {
        let quiet = quiet_lanes(piece, count);
        count += quiet;
        if quiet < LANES {
            return count;
        }
    }
    rest_by_bytes(piece, count)
}

// How many bytes at the front don't end the line. It may stop at a control character.
pub(crate) fn rest_of_line(piece: &[u8]) -> usize
    ensures within { result ≤ length piece.now }
    ensures inside { list_all is_inside (take result piece.now) ≡ true }
{
    quiet_front(piece)
}
