//! A line that isn't at its end yet: its fields are counted and none of its bytes is kept.
ghost use Rattle.std.specs.Prelude.{◌≡◌, ◌≢◌, ◌≤◌, IfOk, OnOk, IsTrue, true, false, length, take, fold};
ghost use Rattle.std.specs.List.{list_all};
ghost use Rattle.net_reader.specs.TextLines.{is_blank};
ghost use Rattle.net_reader.specs.declared.line.Open.TheVariants.{Number, Word};
ghost use Rattle.net_reader.specs.Steps.{IsRun, LineState, pack, more, more_digits, close, keep, put, fresh, is_inside, is_plain};
ghost use Rattle.net_reader.specs.Seen.{seen_line};

use crate::line_end::{is_inside, rest_of_line};
use std::alloc::{AllocError, Global};

const MAX_DIGITS: u32 = 18;

// A number of fewer than 18 digits is below this.
const MOST_VALUE: u64 = 100_000_000_000_000_000;

const MAX_NUMBERS: usize = 65;

/// What the field at the end of a line is so far.
#[derive(Clone, Copy)]
pub(crate) enum Open {
    /// No field has begun on the line.
    Blank,
    /// The line is a comment.
    Comment,
    /// The first field, packed.
    Word { packed: u64 },
    /// No field, after the first one.
    Between,
    /// So many digits, and their number.
    Number { count: u32, value: u64 },
    /// A field of the line isn't a number.
    Wrong,
}

#[derive(Drop)]
pub(crate) struct Line {
    pub(crate) field: Open,
    pub(crate) word: u64,
    pub(crate) numbers: Vec<u64>,
}

fn is_blank(byte: u8) -> bool
    ensures { result ≡ is_blank byte }
{
    byte == b' ' || byte == b'\t'
}

// A number that stands for the bytes so far and one more; 0 where they are too many for a word.
#[tactic(auto, unfolding(crate::specs::Steps::pack))]
fn pack(packed: u64, byte: u8) -> u64
    ensures { result ≡ pack packed byte }
{
    if 0 < packed && packed < 1 << 56 {
        256 * packed + u64::from(byte)
    } else {
        0
    }
}

#[tactic(auto, unfolding(crate::specs::Steps::more_digits))]
fn more_digits(count: u32, value: u64, byte: u8) -> Open
    ensures { result ≡ more_digits count value byte }
{
    if byte.is_ascii_digit() && count < MAX_DIGITS && value < MOST_VALUE {
        Open::Number {
            count: count + 1,
            value: 10 * value + u64::from(byte - b'0'),
        }
    } else {
        Open::Wrong
    }
}

#[tactic(auto, unfolding(crate::specs::Steps::more))]
fn more(field: Open, byte: u8) -> Open
    ensures { result ≡ more field byte }
{
    match field {
        Open::Blank => {
            if byte == b'#' {
                Open::Comment
            } else {
                Open::Word {
                    packed: pack(1, byte),
                }
            }
        }
        Open::Comment => Open::Comment,
        Open::Word { packed } => Open::Word {
            packed: pack(packed, byte),
        },
        Open::Between => more_digits(0, 0, byte),
        Open::Number { count, value } => more_digits(count, value, byte),
        Open::Wrong => Open::Wrong,
    }
}

// The digits at the front that go on with a number: how many digits it has then, its value, and how
// many more they are.
#[tactic(auto, unfolding(crate::specs::Steps::more, crate::specs::Steps::more_digits))]
fn digit_run(count: u32, value: u64, piece: &[u8]) -> (u32, u64, usize)
    ensures within { result.2 ≤ length piece.now }
    ensures plain { list_all is_plain (take result.2 piece.now) ≡ true }
    ensures read { Number result.0 result.1
        ≡ fold more (Number count value) (take result.2 piece.now) }
{
    let mut digits = count;
    let mut number = value;
    let mut taken = 0;
    'digits: while taken < piece.len()
        && piece[taken].is_ascii_digit()
        && digits < MAX_DIGITS
        && number < MOST_VALUE
    {
        number = 10 * number + u64::from(piece[taken] - b'0');
        digits += 1;
        taken += 1;
    }
    (digits, number, taken)
}

// The number that the digits at the front are, up to 18 of them, and how many they are.
#[tactic(auto, unfolding(crate::specs::Steps::more, crate::specs::Steps::more_digits))]
fn leading_number(piece: &[u8]) -> (u64, usize)
    ensures within { result.1 ≤ length piece.now }
    ensures plain { list_all is_plain (take result.1 piece.now) ≡ true }
    ensures read { Number result.1 result.0
        ≡ fold more (Number 0 0) (take result.1 piece.now) }
    ensures few { result.1 ≤ 18 }
{
    let most = piece.len().min(MAX_DIGITS as usize);
    let mut number = 0;
    let mut taken = 0;
    'digits: while taken < most && piece[taken].is_ascii_digit() {
        number = 10 * number + u64::from(piece[taken] - b'0');
        taken += 1;
    }
    (number, taken)
}

// The bytes at the front that go on with a word: what it is packed into then, and how many more
// they are.
#[tactic(auto, unfolding(crate::specs::Steps::more))]
fn word_run(packed: u64, piece: &[u8]) -> (u64, usize)
    ensures within { result.1 ≤ length piece.now }
    ensures plain { list_all is_plain (take result.1 piece.now) ≡ true }
    ensures read { Word result.0 ≡ fold more (Word packed) (take result.1 piece.now) }
{
    let mut word = packed;
    let mut taken = 0;
    'letters: while taken < piece.len() && piece[taken] > b' ' {
        word = pack(word, piece[taken]);
        taken += 1;
    }
    (word, taken)
}

impl Line {
    pub(crate) fn new(alloc: Global) -> Result<Line, AllocError>
        ensures { IfOk result (λ line. seen_line line ≡ fresh) }
    {
        Ok(Line {
            field: Open::Blank,
            word: 0,
            numbers: Vec::with_capacity(alloc, MAX_NUMBERS)?,
        })
    }

    // One number more, where it is among the first 65.
    #[inline(always)]
    fn keep(&mut self, number: u64) -> Result<(), AllocError>
        ensures { OnOk result (seen_line self.new ≡ record (seen_line self.old) {
          numbers = keep self.old.numbers.items number;
        }) }
    {
        if self.numbers.len() < MAX_NUMBERS {
            self.numbers.push(number)?;
        }
        Ok(())
    }

    // Ends the field at the end.
    #[inline(always)]
    #[tactic(auto, unfolding(crate::specs::Steps::close_as))]
    pub(crate) fn close(&mut self) -> Result<(), AllocError>
        ensures { OnOk result (seen_line self.new ≡ close (seen_line self.old)) }
    {
        match self.field {
            Open::Word { packed } => {
                self.word = packed;
                self.field = Open::Between;
            }
            Open::Number { value, .. } => {
                self.keep(value)?;
                self.field = Open::Between;
            }
            _ => {}
        }
        Ok(())
    }

    // One byte more.
    #[inline(always)]
    #[tactic(auto, unfolding(crate::specs::Steps::put))]
    pub(crate) fn put(&mut self, byte: u8) -> Result<(), AllocError>
        ensures { OnOk result (seen_line self.new ≡ put (seen_line self.old) byte) }
    {
        if is_blank(byte) {
            self.close()
        } else {
            self.field = more(self.field, byte);
            Ok(())
        }
    }

    // Reads a number at the front, with the blank after it where there is one, and gives what
    // stands after; where there is no number it reads nothing.
    #[inline(always)]
    fn number<'a>(&mut self, piece: &'a [u8]) -> Result<&'a [u8], AllocError>
        requires { self.old.field ≡ Open.Between }
        ensures { IfOk result (λ rest. IsRun (seen_line self.old) (seen_line self.new) piece.now
            rest.now) }
    {
        let (value, taken) = leading_number(piece);
        if taken == 0 {
            return Ok(piece);
        }
        let behind = piece.split_at(taken).1;
        if let [byte, after @ ..] = behind {
            if is_blank(*byte) {
                self.keep(value)?;
                return Ok(after);
            }
        }
        self.field = Open::Number {
            count: taken as u32,
            value,
        };
        Ok(behind)
    }

    // Reads all numbers at the front that stand one blank apart, where no field is open, and gives
    // what stands after.
    fn numbers<'a>(&mut self, piece: &'a [u8]) -> Result<&'a [u8], AllocError>
        ensures { IfOk result (λ rest. IsRun (seen_line self.old) (seen_line self.new) piece.now
            rest.now) }
    {
        let mut rest = piece;
        'numbers: while let Open::Between = self.field {
            let behind = self.number(rest)?;
            if behind.len() == rest.len() {
                return Ok(behind);
            }
            rest = behind;
        }
        Ok(rest)
    }

    // What the field at the end is after the bytes at the front that only go on with it, and what
    // stands after them.
    fn go_on<'a>(&self, piece: &'a [u8]) -> (Open, &'a [u8])
        ensures { IsRun (seen_line self.now) (record (seen_line self.now) { open_field = result.0 })
            piece.now result.1.now }
    {
        let (field, taken) = match self.field {
            Open::Number { count, value } => {
                let (count, value, taken) = digit_run(count, value, piece);
                (Open::Number { count, value }, taken)
            }
            Open::Word { packed } => {
                let (packed, taken) = word_run(packed, piece);
                (Open::Word { packed }, taken)
            }
            Open::Comment => (Open::Comment, rest_of_line(piece)),
            Open::Wrong => (Open::Wrong, rest_of_line(piece)),
            field => (field, 0),
        };
        (field, piece.split_at(taken).1)
    }

    // Reads the bytes at the front that don't end the line, and gives those after.
    pub(crate) fn run<'a>(&mut self, piece: &'a [u8]) -> Result<&'a [u8], AllocError>
        ensures { IfOk result (λ rest. IsRun (seen_line self.old) (seen_line self.new) piece.now
            rest.now) }
    {
        let mut rest = piece;
        'bytes: while let [byte, after @ ..] = rest {
            if !is_inside(*byte) {
                break;
            }
            rest = self.read(*byte, after)?;
        }
        Ok(rest)
    }

    // Reads the first word of a line, of which this byte is the first, and where a blank stands
    // after it that and the numbers there; and gives what stands after.
    #[inline(always)]
    fn first_word<'a>(&mut self, byte: u8, after: &'a [u8]) -> Result<&'a [u8], AllocError>
        requires fresh { self.old.field ≡ Open.Blank }
        requires begins { is_blank byte ≡ false }
        requires no_comment { byte ≢ 35 }
        ensures { IfOk result (λ rest. IsRun (put (seen_line self.old) byte) (seen_line self.new)
            after.now rest.now) }
    {
        let (packed, taken) = word_run(pack(1, byte), after);
        let behind = after.split_at(taken).1;
        if let [blank, rest @ ..] = behind {
            if is_blank(*blank) {
                self.word = packed;
                self.field = Open::Between;
                return self.numbers(rest);
            }
        }
        self.field = Open::Word { packed };
        Ok(behind)
    }

    // Reads a byte that doesn't end the line and those that only go on with its field, and gives
    // those after.
    #[inline(always)]
    fn read<'a>(&mut self, byte: u8, after: &'a [u8]) -> Result<&'a [u8], AllocError>
        ensures { IfOk result (λ rest. IsRun (put (seen_line self.old) byte) (seen_line self.new)
            after.now rest.now) }
    {
        if matches!(self.field, Open::Blank) && !is_blank(byte) && byte != b'#' {
            return self.first_word(byte, after);
        }
        self.put(byte)?;
        if is_blank(byte) {
            return self.numbers(after);
        }
        let (field, behind) = self.go_on(after);
        self.field = field;
        Ok(behind)
    }

    // Whether no byte of the line was read.
    pub(crate) fn is_fresh(&self) -> bool
        ensures { IsTrue result → seen_line self.now ≡ fresh }
    {
        matches!(self.field, Open::Blank) && self.word == 0 && self.numbers.is_empty()
    }

    pub(crate) fn clear(&mut self)
        ensures { seen_line self.new ≡ fresh }
    {
        self.field = Open::Blank;
        self.word = 0;
        self.numbers.clear();
    }
}
