//! Numbers, written two digits at a time.
ghost use Rattle.std.specs.Prelude.{◌≡◌, ◌+◌, ◌/◌, ◌%◌, ◌<◌, ◌≤◌, ◌++◌, ◌∷◌, [], length, take};
ghost use Rattle.std.specs.Fmt.{decimal};
ghost use Rattle.outside.specs.Texts.{field};
ghost use Rattle.text_line.specs.Shorts.{pair};

use itoa::Buffer;

// The two digits of each number below a hundred.
static PAIRS: [u8; 200] =
    *b"00010203040506070809101112131415161718192021222324252627282930313233343536373839\
        40414243444546474849505152535455565758596061626364656667686970717273747576777879\
        8081828384858687888990919293949596979899";

// The digit of a number below ten.
fn digit(number: u64) -> u8
    requires { number < 10 }
    ensures { result ≡ 48 + number }
{
    b'0' + number as u8
}

// Writes a byte, and tells the place behind it.
#[inline(always)]
pub(crate) fn put(bytes: &mut [u8], at: usize, byte: u8) -> usize
    requires { at < length bytes.old }
    ensures text { take result bytes.new ≡ take at bytes.old ++ byte ∷ [] }
    ensures next { result ≡ at + 1 }
{
    bytes[at] = byte;
    at + 1
}

// Writes a number below a hundred as two digits, and tells the place behind them.
#[inline(always)]
fn put_pair(bytes: &mut [u8], at: usize, number: u64) -> usize
    requires room { at + 2 ≤ length bytes.old }
    requires short { number < 100 }
    ensures text { take result bytes.new ≡ take at bytes.old ++ pair number }
    ensures next { result ≡ at + 2 }
{
    let from = 2 * number as usize;
    let (tens, ones) = (PAIRS[from], PAIRS[from + 1]);
    let end = put(bytes, at, tens);
    put(bytes, end, ones)
}

// Writes a number of at most two digits, and tells the place behind it.
#[inline(always)]
fn put_two(bytes: &mut [u8], at: usize, number: u64) -> usize
    requires room { at + 2 ≤ length bytes.old }
    requires short { number < 100 }
    ensures text { take result bytes.new ≡ take at bytes.old ++ decimal number }
    ensures next { result ≤ at + 2 }
{
    if number < 10 {
        return put(bytes, at, digit(number));
    }
    put_pair(bytes, at, number)
}

// Writes a number of at most four digits, and tells the place behind it.
#[inline(always)]
fn put_four(bytes: &mut [u8], at: usize, number: u64) -> usize
    requires room { at + 4 ≤ length bytes.old }
    requires short { number < 10000 }
    ensures text { take result bytes.new ≡ take at bytes.old ++ decimal number }
    ensures next { result ≤ at + 4 }
{
    if number < 100 {
        return put_two(bytes, at, number);
    }
    let end = put_two(bytes, at, number / 100);
    put_pair(bytes, end, number % 100)
}

// Writes a number of five to eight digits, and tells the place behind it.
#[inline(always)]
fn put_eight(bytes: &mut [u8], at: usize, number: u64) -> usize
    requires room { at + 8 ≤ length bytes.old }
    requires long { 10000 ≤ number }
    requires short { number < 100000000 }
    ensures text { take result bytes.new ≡ take at bytes.old ++ decimal number }
    ensures next { result ≤ at + 8 }
{
    let last = number % 10_000;
    let first_end = put_four(bytes, at, number / 10_000);
    let end = put_pair(bytes, first_end, last / 100);
    put_pair(bytes, end, last % 100)
}

// Writes a number of any length, and tells the place behind it.
#[inline(never)]
fn put_any(bytes: &mut [u8], at: usize, number: u64) -> usize
    requires room { at + 40 ≤ length bytes.old }
    ensures text { take result bytes.new ≡ take at bytes.old ++ decimal number }
    ensures next { result ≤ at + 40 }
{
    let mut buffer = Buffer::new();
    let digits = buffer.format(number).as_bytes();
    let end = at + digits.len();
    bytes[at..end].copy_from_slice(digits);
    end
}

// Writes a blank and a number of at most four digits, and tells the place behind them.
#[inline(always)]
pub(crate) fn put_short_field(bytes: &mut [u8], at: usize, number: u64) -> usize
    requires room { at + 5 ≤ length bytes.old }
    requires short { number < 10000 }
    ensures text { take result bytes.new ≡ take at bytes.old ++ field number }
    ensures next { result ≤ at + 5 }
{
    let from = put(bytes, at, b' ');
    put_four(bytes, from, number)
}

// Writes a blank and a number, and tells the place behind them.
#[inline(never)]
pub(crate) fn put_field(bytes: &mut [u8], at: usize, number: u64) -> usize
    requires room { at + 41 ≤ length bytes.old }
    ensures text { take result bytes.new ≡ take at bytes.old ++ field number }
    ensures next { result ≤ at + 41 }
{
    if number < 10_000 {
        return put_short_field(bytes, at, number);
    }
    let from = put(bytes, at, b' ');
    if number < 100_000_000 {
        put_eight(bytes, from, number)
    } else {
        put_any(bytes, from, number)
    }
}
