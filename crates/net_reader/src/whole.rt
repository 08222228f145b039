//! The parts of a line that lies whole in a piece, as most do.
ghost use Rattle.std.specs.Prelude.{◌≡◌, ◌<◌, ◌≤◌, ◌+◌, ◌^◌, length, take, drop, IfOk, IfSome, IfNone, [], ◌∷◌};
ghost use Rattle.net_reader.specs.Whole.{IsComment, IsDigits, IsEnd, IsLast, IsNumbers, IsNumberTo, Opens, Takes};

use crate::line_end::rest_of_line;
use crate::word::Word;
use std::alloc::AllocError;

// The most numbers of a line of the order.
const MAX_ORDER: usize = 64;

// The most bytes of a number of seven digits and what ends it.
const ROOM: usize = 8;

// The most bytes of a number of three digits and what ends it.
const SHORT_ROOM: usize = 4;

// The most bytes of a line with a word of four letters and three numbers of at most seven digits,
// up to its line feed.
pub(crate) const LINE_ROOM: usize = 29;

// The letters of the words that most lines begin with, as one number each, the first letter lowest.
const MOVE: u32 = 0x6576_6f6d;

const FIND: u32 = 0x646e_6966;

const EDGE: u32 = 0x6567_6465;

// The word of a line of the order, where a blank stands after it, and what stands after that.
#[inline(always)]
fn opening_of_order(piece: &[u8]) -> Option<(Word, &[u8])>
    ensures { IfSome result (λ found. Opens found.0 piece.now found.1.now) }
{
    match piece {
        [b'o', b'r', b'd', b'e', b'r', b' ', after @ ..] => Some((Word::Order, after)),
        _ => None,
    }
}

// The word of a line of a kind of which there are many, where a blank stands after it, and what
// stands after that. Four letters are told at once.
#[inline(always)]
pub(crate) fn opening(piece: &[u8]) -> Option<(Word, &[u8])>
    ensures { IfSome result (λ found. Opens found.0 piece.now found.1.now) }
{
    let [a, b, c, d, blank, after @ ..] = piece else {
        return None;
    };
    if *blank != b' ' {
        return opening_of_order(piece);
    }
    match u32::from_le_bytes([*a, *b, *c, *d]) {
        MOVE => Some((Word::Move, after)),
        FIND => Some((Word::Find, after)),
        EDGE => Some((Word::Edge, after)),
        _ => None,
    }
}

// The number of so many digits at the front with the byte after them as one digit more, where it
// is one.
#[inline(always)]
fn digit_more(piece: &[u8], taken: usize, value: u64) -> Option<u64>
    requires within { taken < length piece.now }
    requires few { taken < 18 }
    requires read { IsDigits piece.now taken value }
    ensures { IfSome result (λ more. IsDigits piece.now (taken + 1) more) }
{
    let digit = u64::from(piece[taken]).wrapping_sub(u64::from(b'0'));
    if digit > 9 {
        return None;
    }
    Some(10 * value + digit)
}

// The number of so many digits at the front, the byte that ends it, and how many bytes these are.
#[inline(always)]
fn number_of(piece: &[u8], taken: usize, value: u64) -> (u64, u8, usize)
    requires some { 0 < taken }
    requires within { taken < length piece.now }
    requires read { IsDigits piece.now taken value }
    ensures number { IsNumberTo result.1 result.0 piece.now (drop result.2 piece.now) }
    ensures bytes { result.2 ≡ taken + 1 }
{
    (value, piece[taken], taken + 1)
}

// A number of at most three digits at the front, the byte that ends it, and how many bytes these
// are.
#[inline(always)]
fn short_number(piece: &[u8]) -> Option<(u64, u8, usize)>
    requires { 4 ≤ length piece.now }
    ensures number { IfSome result (λ found. IsNumberTo found.1 found.0 piece.now (drop found.2
        piece.now)) }
    ensures few { IfSome result (λ found. found.2 ≤ 4) }
{
    let ones = digit_more(piece, 0, 0)?;
    let Some(tens) = digit_more(piece, 1, ones) else {
        return Some(number_of(piece, 1, ones));
    };
    let Some(hundreds) = digit_more(piece, 2, tens) else {
        return Some(number_of(piece, 2, tens));
    };
    Some(number_of(piece, 3, hundreds))
}

// The same of a number of at most seven digits, as weights have.
#[inline(always)]
fn wide_number(piece: &[u8]) -> Option<(u64, u8, usize)>
    requires { 8 ≤ length piece.now }
    ensures number { IfSome result (λ found. IsNumberTo found.1 found.0 piece.now (drop found.2
        piece.now)) }
    ensures few { IfSome result (λ found. found.2 ≤ 8) }
{
    let one = digit_more(piece, 0, 0)?;
    let Some(two) = digit_more(piece, 1, one) else {
        return Some(number_of(piece, 1, one));
    };
    let Some(three) = digit_more(piece, 2, two) else {
        return Some(number_of(piece, 2, two));
    };
    let Some(four) = digit_more(piece, 3, three) else {
        return Some(number_of(piece, 3, three));
    };
    let Some(five) = digit_more(piece, 4, four) else {
        return Some(number_of(piece, 4, four));
    };
    let Some(six) = digit_more(piece, 5, five) else {
        return Some(number_of(piece, 5, five));
    };
    let Some(seven) = digit_more(piece, 6, six) else {
        return Some(number_of(piece, 6, six));
    };
    Some(number_of(piece, 7, seven))
}

// The number at the front that a blank ends, where it has more than three digits.
#[inline(always)]
fn long_number(piece: &[u8]) -> Option<(u64, &[u8])>
    requires { 8 ≤ length piece.now }
    ensures number { IfSome result (λ found. IsNumberTo 32 found.0 piece.now found.1.now) }
    ensures near { IfSome result (λ found. length piece.now ≤ length found.1.now + 8) }
{
    let (value, end, taken) = wide_number(piece)?;
    if end == b' ' {
        Some((value, piece.split_at(taken).1))
    } else {
        None
    }
}

// The number at the front that a blank ends, and what stands after the blank. Most have at most
// three digits.
#[inline(always)]
fn number(piece: &[u8]) -> Option<(u64, &[u8])>
    requires { 8 ≤ length piece.now }
    ensures number { IfSome result (λ found. IsNumberTo 32 found.0 piece.now found.1.now) }
    ensures near { IfSome result (λ found. length piece.now ≤ length found.1.now + 8) }
{
    if let Some((value, end, taken)) = short_number(piece) {
        if end == b' ' {
            return Some((value, piece.split_at(taken).1));
        }
    }
    long_number(piece)
}

// The number at the front that the end of the line ends, and what stands after it, where it has
// more than three digits. As a call it leaves the lines around it fewer steps.
#[inline(never)]
fn long_last(piece: &[u8]) -> Option<(u64, &[u8])>
    requires { 8 ≤ length piece.now }
    ensures { IfSome result (λ found. IsLast found.0 piece.now found.1.now) }
{
    wide_last(piece)
}

// The same of any that has at most seven.
#[inline(always)]
fn wide_last(piece: &[u8]) -> Option<(u64, &[u8])>
    requires { 8 ≤ length piece.now }
    ensures { IfSome result (λ found. IsLast found.0 piece.now found.1.now) }
{
    let (value, end, taken) = wide_number(piece)?;
    let rest = past_end(end, piece.split_at(taken).1)?;
    Some((value, rest))
}

// The same, where most have at most three.
#[inline(always)]
fn last_number(piece: &[u8]) -> Option<(u64, &[u8])>
    requires { 8 ≤ length piece.now }
    ensures { IfSome result (λ found. IsLast found.0 piece.now found.1.now) }
{
    if let Some((value, end, taken)) = short_number(piece) {
        if let Some(rest) = past_end(end, piece.split_at(taken).1) {
            return Some((value, rest));
        }
    }
    long_last(piece)
}

// What stands after the end of a line that begins with this byte, before the bytes after it.
#[inline(always)]
fn past_end(end: u8, after: &[u8]) -> Option<&[u8]>
    ensures { IfSome result (λ rest. IsEnd end after.now rest.now) }
{
    if end == b'\n' {
        return Some(after);
    }
    if end != b'\r' {
        return None;
    }
    match after {
        [b'\n', rest @ ..] => Some(rest),
        _ => None,
    }
}

// What stands after a comment at the front, and the end of its line.
#[inline(always)]
pub(crate) fn past_comment(piece: &[u8]) -> Option<&[u8]>
    ensures { IfSome result (λ rest. IsComment piece.now rest.now) }
{
    let [b'#', after @ ..] = piece else {
        return None;
    };
    let [end, behind @ ..] = after.split_at(rest_of_line(after)).1 else {
        return None;
    };
    let rest = past_end(*end, behind)?;
    Some(rest)
}

// The two numbers that stand one blank apart before the end of the line, and what stands after it.
#[inline(always)]
pub(crate) fn two_numbers(piece: &[u8]) -> Option<(u64, u64, &[u8])>
    ensures { IfSome result (λ found. IsNumbers (found.0 ∷ found.1 ∷ []) piece.now found.2.now) }
{
    if piece.len() < 2 * ROOM {
        return None;
    }
    let (first, rest) = number(piece)?;
    let (second, rest) = last_number(rest)?;
    Some((first, second, rest))
}

// Three such numbers.
#[inline(always)]
pub(crate) fn three_numbers(piece: &[u8]) -> Option<(u64, u64, u64, &[u8])>
    ensures { IfSome result (λ found. IsNumbers (found.0 ∷ found.1 ∷ found.2 ∷ []) piece.now
        found.3.now) }
{
    if piece.len() < 3 * ROOM {
        return None;
    }
    let (first, rest) = number(piece)?;
    let (second, rest) = number(rest)?;
    let (third, rest) = last_number(rest)?;
    Some((first, second, third, rest))
}

// The numbers of an edge: its nodes and its weight.
#[inline(always)]
pub(crate) fn edge_numbers(piece: &[u8]) -> Option<(u64, u64, u64, &[u8])>
    ensures { IfSome result (λ found. IsNumbers (found.0 ∷ found.1 ∷ found.2 ∷ []) piece.now
        found.3.now) }
{
    if piece.len() < 3 * ROOM {
        return None;
    }
    let (first, rest) = number(piece)?;
    let (second, rest) = number(rest)?;
    let (weight, rest) = wide_last(rest)?;
    Some((first, second, weight, rest))
}

// Writes down the numbers below the limit that stand one blank apart before the end of the line,
// and gives how many they are and what stands after the line; none where the line isn't so, has
// more numbers than there is room for, or stands so near the end of the piece that it might be cut.
#[inline(always)]
fn take_numbers<'a>(numbers: &mut [u32], limit: u64, piece: &'a [u8]) -> Option<(usize, &'a [u8])>
    requires few { length numbers.old ≤ 64 }
    requires limit { limit ≤ 2 ^ 32 }
    ensures within { IfSome result (λ found. found.0 ≤ length numbers.new) }
    ensures taken { IfSome result (λ found. Takes limit [] (take found.0 numbers.new) piece.now
        found.1.now) }
{
    let most = numbers.len().min(piece.len() / SHORT_ROOM);
    let mut count = 0;
    let mut at = 0;
    'numbers: while count < most {
        let (number, end, taken) = short_number(piece.split_at(at).1)?;
        if number >= limit {
            return None;
        }
        numbers[count] = number as u32;
        count += 1;
        at += taken;
        if end != b' ' {
            let behind = past_end(end, piece.split_at(at).1)?;
            return Some((count, behind));
        }
    }
    None
}

// Adds to an order the numbers below the limit that stand one blank apart before the end of the
// line, and gives what stands after it; where the line isn't so, or has more than an order's line
// may have, it adds nothing.
pub(crate) fn push_line<'a>(
    order: &mut Vec<u32>,
    limit: u64,
    piece: &'a [u8],
) -> Result<Option<&'a [u8]>, AllocError>
    requires { limit ≤ 2 ^ 32 }
    ensures taken { IfOk result (λ found. IfSome found (λ rest. Takes limit order.old.items
        order.new.items piece.now rest.now)) }
    ensures still { IfOk result (λ found. IfNone found (order.new.items ≡ order.old.items)) }
{
    let mut numbers = [0; MAX_ORDER];
    let Some((count, rest)) = take_numbers(&mut numbers, limit, piece) else {
        return Ok(None);
    };
    order.extend_from_slice(&numbers[..count])?;
    Ok(Some(rest))
}
