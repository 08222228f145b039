//! A line that is written piece by piece into memory that was taken before.
ghost use Rattle.std.specs.Prelude.{◌≡◌, ◌+◌, ◌*◌, ◌<◌, ◌≤◌, ◌++◌, ◌∷◌, List, ℕ, [], length, take};
ghost use Rattle.std.specs.Prelude.{◌%◌, IfOk, replicate, slice_index};
ghost use Rattle.std.specs.Fmt.{decimal};
ghost use Rattle.outside.specs.Texts.{field, fields};
ghost use Rattle.text_line.specs.Shorts.{AreShort, IsShort};

use crate::digits::{put_field, put_short_field};
use crate::run::{Run, lone_actor};
use std::alloc::{AllocError, Global};
use std::marker::Model;

const ROOM: usize = 4_096;

// Writes a short field, and tells the place behind it. Eight bytes are written at once, of which
// those of the field count.
#[inline(always)]
fn put_short(bytes: &mut [u8], at: usize, short: [u8; 8]) -> usize
    requires room { at + 8 ≤ length bytes.old }
    requires few { slice_index short 7 ≤ 7 }
    ensures text { take result bytes.new
        ≡ take at bytes.old ++ take (slice_index short 7) short }
    ensures next { result ≡ at + slice_index short 7 }
{
    bytes[at..at + 8].copy_from_slice(&short);
    at + short[7] as usize
}

// A blank and a number of at most four digits, in eight bytes: the last one tells how many of the
// others are text.
fn short_field(number: u64) -> [u8; 8]
    requires { number < 10000 }
    ensures { IsShort number result }
{
    let mut short = [0u8; 8];
    let end = put_short_field(&mut short, 0, number);
    short[7] = end as u8;
    short
}

// The short fields of the numbers below this one.
fn short_fields(alloc: Global, count: usize) -> Result<Vec<[u8; 8]>, AllocError>
    requires { count ≤ 10000 }
    ensures { IfOk result (λ shorts. AreShort shorts.items) }
{
    let mut shorts = Vec::with_capacity(alloc, count)?;
    for number in 0..count {
        shorts.push(short_field(number as u64))?;
    }
    Ok(shorts)
}

/// A line of text under way, for whoever writes many lines one after another: it takes its memory
/// once, in `new`, and `clear` begins the next line in the same room. A line has room for 4,096
/// bytes. Each call that writes asks, by its `requires`, that what it writes fits: a number with
/// the byte before it counts as 41 bytes. So none of them has an error to answer.
#[derive(Debug, Drop)]
pub struct Line {
    // Those before `end` are written.
    bytes: Vec<u8>,
    end: usize,
    // The fields of the numbers that are written most, and those of a full line of one actor: they
    // are copied in place of being made anew.
    shorts: Vec<[u8; 8]>,
    run: Run,
}

impl Model for Line {
    ghost use Rattle.std.specs.Prelude.{◌≡◌, ◌≤◌, List, ℕ, length, take};
    ghost use Rattle.text_line.specs.Runs.{KeepsRun};
    ghost use Rattle.text_line.specs.Shorts.{AreShort};

    ghost Value = { List ℕ };

    ghost view = { λ l. take l.end l.bytes.items };

    ghost invariant = { λ l. (length l.bytes.items ≡ 4104) × (l.end ≤ 4096)
        × AreShort l.shorts.items × KeepsRun l.run };
}

impl Line {
    /// An empty line. Numbers below `count`, and below 1,024, are written fast, by fields that are
    /// made here, 8 bytes each. It answers `AllocError` where memory is wanting.
    pub fn new(alloc: Global, count: usize) -> Result<Line, AllocError>
        ensures { IfOk result (λ line. line ≡ []) }
    {
        Ok(Line {
            bytes: vec![in alloc; 0u8; ROOM + 8]?,
            end: 0,
            shorts: short_fields(alloc, count.min(1_024))?,
            run: Run::new(alloc)?,
        })
    }

    /// The bytes that were written since `new` or the last `clear`.
    pub fn bytes(&self) -> &[u8]
        ensures { result.now ≡ self.now }
    {
        &self.bytes[..self.end]
    }

    /// Begins the next line: nothing is written, and the room is kept.
    pub fn clear(&mut self)
        ensures { self.new ≡ [] }
    {
        self.end = 0;
    }

    /// Writes a word as it is, behind what stands there, with no blank before it.
    pub fn word(&mut self, word: &str)
        requires { length self.old + length word.now ≤ 4096 }
        ensures text { self.new ≡ self.old ++ word.now }
        ensures long { length self.new ≡ length self.old + length word.now }
    {
        let end = self.end + word.len();
        self.bytes[self.end..end].copy_from_slice(word.as_bytes());
        self.end = end;
    }

    /// Writes a blank and a number, in decimal digits without leading zeros.
    #[inline(always)]
    pub fn number(&mut self, number: u64)
        requires { length self.old + 41 ≤ 4096 }
        ensures text { self.new ≡ self.old ++ field number }
        ensures long { length self.new ≤ length self.old + 41 }
    {
        self.end = match self.shorts.get(number as usize) {
            Some(short) => put_short(&mut self.bytes, self.end, *short),
            None => put_field(&mut self.bytes, self.end, number),
        };
    }

    /// Writes a byte and a number behind it, as JSON has its commas and brackets.
    #[inline(always)]
    pub fn number_after(&mut self, byte: u8, number: u64)
        requires { length self.old + 41 ≤ 4096 }
        ensures text { self.new ≡ self.old ++ byte ∷ decimal number }
        ensures long { length self.new ≤ length self.old + 41 }
    {
        let at = self.end;
        self.number(number);
        self.bytes[at] = byte;
    }

    /// Writes numbers in turn, each behind a blank.
    pub fn numbers(&mut self, numbers: &[u32])
        requires { length self.old + 41 * length numbers.now ≤ 4096 }
        ensures text { self.new ≡ self.old ++ fields numbers.now }
        ensures long { length self.new ≤ length self.old + 41 * length numbers.now }
    {
        for &number in numbers {
            self.number(u64::from(number));
        }
    }

    /// Writes the actors of a line of an order, each behind a blank, as `numbers` does. The fields
    /// of 64 times one actor are kept, and copied for the next such line of that actor.
    pub fn actors(&mut self, actors: &[u32])
        requires { length self.old + 41 * length actors.now ≤ 4096 }
        ensures text { self.new ≡ self.old ++ fields actors.now }
        ensures long { length self.new ≤ length self.old + 41 * length actors.now }
    {
        match lone_actor(actors) {
            Some(actor) => self.run(actors, actor),
            None => self.numbers(actors),
        }
    }

    // A full line of one actor.
    fn run(&mut self, actors: &[u32], actor: u32)
        requires room { length self.old + 2624 ≤ 4096 }
        requires alone { actors.now ≡ replicate 64 actor }
        ensures text { self.new ≡ self.old ++ fields actors.now }
        ensures long { length self.new ≤ length self.old + 2624 }
    {
        let at = self.end;
        if self.run.is_of(actor) {
            self.end = self.run.put(&mut self.bytes, at);
        } else {
            self.numbers(actors);
            self.run.keep(actor, &self.bytes[at..self.end]);
        }
    }

    /// Writes a label as it is, and a blank and a number behind it.
    pub fn label_number(&mut self, label: &str, number: u64)
        requires { length self.old + length label.now + 41 ≤ 4096 }
        ensures text { self.new ≡ self.old ++ (label.now ++ field number) }
        ensures long { length self.new ≤ length self.old + length label.now + 41 }
    {
        self.word(label);
        self.number(number);
    }
}
