//! What is read of an input so far, byte by byte: it keeps what the lines said, and no byte of
//! them.
ghost use Rattle.std.specs.Prelude.{◌≡◌, ◌<◌, ◌≤◌, ◌+◌, ◌^◌, length, IfOk, OnOk, IsTrue, None, Some, nat_lt, true, if◌then◌else◌};
ghost use Rattle.net_reader.specs.Steps.{end_line, past_line, release, byte_read, next, after_bytes, end_result, fresh_reader, fault_at, number_of_place};
ghost use Rattle.net_reader.specs.Rows.{judge_word};
ghost use Rattle.net_reader.specs.Whole.{IsLeft, Opens, Rests};
ghost use Rattle.net_reader.specs.declared.word.Word.TheVariants.{Order};
ghost use Rattle.net_reader.specs.Seen.{seen_line, seen_known, seen_scan, KeepsLimits, Finishes, IsWell, Judges};

use crate::fault::{InputCause, InputFault, ReadRefusal};
use crate::known::Known;
use crate::line::{Line, Open};
use crate::stop::Stop;
use crate::whole::{LINE_ROOM, edge_numbers, opening, past_comment, three_numbers, two_numbers};
use crate::word::{Place, Word};
use std::alloc::{AllocError, Global};

// What was read so far: what the whole lines said or their first fault, how many lines have begun,
// whether one hasn't ended, whether that one ends with a carriage return, and what it is without
// it.
#[derive(Drop)]
pub(crate) struct Scan {
    pub(crate) fault: Option<InputFault>,
    lines: u32,
    begun: bool,
    held: bool,
    line: Line,
    known: Known,
}

// The line with the carriage return that was held back.
#[tactic(auto, unfolding(crate::specs::Steps::release))]
fn release(held: bool, line: &mut Line) -> Result<(), AllocError>
    ensures { OnOk result (seen_line line.new ≡ release held (seen_line line.old)) }
{
    if held { line.put(b'\r') } else { Ok(()) }
}

// What a line says that is at its end.
#[tactic(auto, unfolding(crate::specs::Steps::end_line))]
fn end_line(line: &mut Line, known: &mut Known) -> Result<(), Stop>
    requires { KeepsLimits known.old }
    ensures { Judges result known.new (end_line (seen_line line.old) (seen_known known.old)) }
{
    line.close()?;
    match line.field {
        Open::Blank => Ok(()),
        Open::Comment => Ok(()),
        Open::Between => known.hear(line.word, &line.numbers),
        _ => Err(Stop::Fault(InputCause::Form)),
    }
}

// Whether no callers line was read.
fn is_before_callers(place: Place) -> bool
    ensures { result ≡ nat_lt (number_of_place place) 6 }
{
    matches!(
        place,
        Place::Start | Place::Track | Place::Nodes | Place::K | Place::Edges | Place::Subs
    )
}

impl Scan {
    // No byte was read.
    pub(crate) fn new(alloc: Global) -> Result<Scan, AllocError>
        ensures fresh { IfOk result (λ scan. seen_scan scan ≡ fresh_reader) }
        ensures well { IfOk result (λ scan. IsWell scan.fault scan.known) }
    {
        Ok(Scan {
            fault: None,
            lines: 0,
            begun: false,
            held: false,
            line: Line::new(alloc)?,
            known: Known::new(alloc),
        })
    }

    // The end of a line.
    #[tactic(auto, unfolding(crate::specs::Steps::past_line))]
    fn end_of_line(&mut self) -> Result<(), AllocError>
        requires going { self.old.fault ≡ None }
        requires well { IsWell self.old.fault self.old.known }
        ensures read { OnOk result (seen_scan self.new
            ≡ past_line (seen_scan self.old) (seen_known self.old.known)) }
        ensures well { OnOk result (IsWell self.new.fault self.new.known) }
    {
        self.begun = false;
        self.held = false;
        match end_line(&mut self.line, &mut self.known) {
            Ok(()) => {}
            Err(Stop::Fault(cause)) => {
                self.fault = Some(InputFault {
                    line: self.lines,
                    cause,
                });
            }
            Err(Stop::Memory) => return Err(AllocError),
        }
        self.line.clear();
        Ok(())
    }

    // One line more.
    #[inline(always)]
    fn count(&mut self)
        requires { self.old.lines + 1 < 2 ^ 32 }
        ensures { self.new ≡ record self.old { lines = self.old.lines + 1 } }
    {
        self.lines += 1;
    }

    // One line more has begun where none had.
    fn begin(&mut self)
        requires { self.old.lines + 1 < 2 ^ 32 }
        ensures { self.new ≡ record self.old {
          lines = if self.old.begun then self.old.lines else self.old.lines + 1;
          begun = true;
        } }
    {
        if !self.begun {
            self.count();
            self.begun = true;
        }
    }

    // One byte more.
    fn byte(&mut self, byte: u8) -> Result<(), AllocError>
        requires going { self.old.fault ≡ None }
        requires well { IsWell self.old.fault self.old.known }
        requires room { self.old.lines + 1 < 2 ^ 32 }
        ensures read { OnOk result (seen_scan self.new
            ≡ byte_read (seen_scan self.old) (seen_known self.old.known) byte) }
        ensures well { OnOk result (IsWell self.new.fault self.new.known) }
    {
        self.begin();
        if byte == b'\n' {
            return self.end_of_line();
        }
        release(self.held, &mut self.line)?;
        if byte == b'\r' {
            self.held = true;
        } else {
            self.held = false;
            self.line.put(byte)?;
        }
        Ok(())
    }

    // One byte more, which changes nothing after a fault.
    #[tactic(auto, unfolding(crate::specs::Steps::next))]
    fn step(&mut self, byte: u8) -> Result<(), AllocError>
        requires well { IsWell self.old.fault self.old.known }
        requires room { self.old.lines + 1 < 2 ^ 32 }
        ensures read { OnOk result (seen_scan self.new ≡ next (seen_scan self.old) byte) }
        ensures well { OnOk result (IsWell self.new.fault self.new.known) }
    {
        if self.fault.is_some() {
            return Ok(());
        }
        self.byte(byte)
    }

    // Reads the bytes at the front that don't end a line, and gives those after.
    fn skip<'a>(&mut self, piece: &'a [u8]) -> Result<&'a [u8], AllocError>
        requires well { IsWell self.old.fault self.old.known }
        requires room { self.old.lines + length piece.now < 2 ^ 32 }
        ensures read { IfOk result (λ rest. after_bytes (seen_scan self.new) rest.now
            ≡ after_bytes (seen_scan self.old) piece.now) }
        ensures shorter { IfOk result (λ rest. length rest.now ≤ length piece.now) }
        ensures lines { IfOk result (λ rest. self.new.lines + length rest.now ≤ self.old.lines +
            length piece.now) }
        ensures well { IfOk result (λ rest. IsWell self.new.fault self.new.known) }
    {
        if self.fault.is_some() || self.held {
            return Ok(piece);
        }
        let rest = self.line.run(piece)?;
        if rest.len() == piece.len() {
            return Ok(rest);
        }
        self.begin();
        Ok(rest)
    }

    // Whether a line is to begin.
    fn is_between_lines(&self) -> bool
        ensures { IsTrue result → Rests self.now }
    {
        self.fault.is_none() && !self.begun && !self.held && self.line.is_fresh()
    }

    // What a whole line with this word and these numbers says, and what is left to be read after
    // it: all that stands there, and nothing after a fault.
    #[inline(always)]
    fn hear<'a>(
        &mut self,
        word: Word,
        numbers: &[u64],
        behind: &'a [u8],
    ) -> Result<&'a [u8], AllocError>
        requires going { self.old.fault ≡ None }
        requires well { IsWell self.old.fault self.old.known }
        requires room { self.old.lines + 1 < 2 ^ 32 }
        ensures read { OnOk result (seen_scan self.new ≡ record (seen_scan self.old) {
          said = fault_at (self.old.lines + 1)
              (judge_word (seen_known self.old.known) (Some word) (Some numbers.now));
          lines = self.old.lines + 1;
        }) }
        ensures well { OnOk result (IsWell self.new.fault self.new.known) }
        ensures lines { self.new.lines ≡ self.old.lines + 1 }
        ensures left { IfOk result (λ left. IsLeft self.new.fault behind.now left.now) }
    {
        self.count();
        match self.known.hear_word(word, numbers) {
            Ok(()) => Ok(behind),
            Err(Stop::Fault(cause)) => {
                self.fault = Some(InputFault {
                    line: self.lines,
                    cause,
                });
                Ok(behind.split_at(behind.len()).1)
            }
            Err(Stop::Memory) => Err(AllocError),
        }
    }

    // Reads a line of the order at the front that lies whole there, after its word and a blank,
    // where it is plain, and gives what stands after; or reads nothing.
    fn whole_order<'a>(&mut self, piece: &'a [u8], after: &'a [u8]) -> Result<&'a [u8], AllocError>
        requires rests { Rests self.old }
        requires opens { Opens Order piece.now after.now }
        requires well { IsWell self.old.fault self.old.known }
        requires room { self.old.lines + length piece.now < 2 ^ 32 }
        ensures read { IfOk result (λ rest. after_bytes (seen_scan self.new) rest.now
            ≡ after_bytes (seen_scan self.old) piece.now) }
        ensures shorter { IfOk result (λ rest. length rest.now ≤ length piece.now) }
        ensures lines { IfOk result (λ rest. self.new.lines + length rest.now ≤ self.old.lines +
            length piece.now) }
        ensures well { IfOk result (λ rest. IsWell self.new.fault self.new.known) }
        ensures rests { IfOk result (λ rest. Rests self.new) }
    {
        match self.known.order_line(after)? {
            Some(rest) => {
                self.count();
                Ok(rest)
            }
            None => Ok(piece),
        }
    }

    // Reads a line at the front that lies whole there, where it is plain, and gives what stands
    // after; or reads nothing.
    fn whole_line<'a>(&mut self, piece: &'a [u8]) -> Result<&'a [u8], AllocError>
        requires rests { Rests self.old }
        requires well { IsWell self.old.fault self.old.known }
        requires room { self.old.lines + length piece.now < 2 ^ 32 }
        ensures read { IfOk result (λ rest. after_bytes (seen_scan self.new) rest.now
            ≡ after_bytes (seen_scan self.old) piece.now) }
        ensures shorter { IfOk result (λ rest. length rest.now ≤ length piece.now) }
        ensures lines { IfOk result (λ rest. self.new.lines + length rest.now ≤ self.old.lines +
            length piece.now) }
        ensures well { IfOk result (λ rest. IsWell self.new.fault self.new.known) }
        ensures rests { IfOk result (λ rest. 0 < length rest.now → Rests self.new) }
    {
        let Some((word, after)) = opening(piece) else {
            let Some(rest) = past_comment(piece) else {
                return Ok(piece);
            };
            self.count();
            return Ok(rest);
        };
        if let Word::Order = word {
            return self.whole_order(piece, after);
        }
        if let Word::Move = word {
            let Some((first, second, rest)) = two_numbers(after) else {
                return Ok(piece);
            };
            let left = self.hear(word, &[first, second], rest)?;
            return Ok(left);
        }
        if let Word::Find = word {
            let Some((first, second, third, rest)) = three_numbers(after) else {
                return Ok(piece);
            };
            let left = self.hear(word, &[first, second, third], rest)?;
            return Ok(left);
        }
        let Some((first, second, weight, rest)) = edge_numbers(after) else {
            return Ok(piece);
        };
        let left = self.hear(word, &[first, second, weight], rest)?;
        Ok(left)
    }

    // Reads the lines at the front that lie whole there, as long as they are plain, and gives what
    // stands after.
    fn whole_lines<'a>(&mut self, piece: &'a [u8]) -> Result<&'a [u8], AllocError>
        requires well { IsWell self.old.fault self.old.known }
        requires room { self.old.lines + length piece.now < 2 ^ 32 }
        ensures read { IfOk result (λ rest. after_bytes (seen_scan self.new) rest.now
            ≡ after_bytes (seen_scan self.old) piece.now) }
        ensures lines { IfOk result (λ rest. self.new.lines + length rest.now ≤ self.old.lines +
            length piece.now) }
        ensures shorter { IfOk result (λ rest. length rest.now ≤ length piece.now) }
        ensures well { IfOk result (λ rest. IsWell self.new.fault self.new.known) }
    {
        if !self.is_between_lines() {
            return Ok(piece);
        }
        let mut rest = piece;
        'lines: while rest.len() >= LINE_ROOM {
            let behind = self.whole_line(rest)?;
            if behind.len() == rest.len() {
                return Ok(behind);
            }
            rest = behind;
        }
        Ok(rest)
    }

    // So many bytes more.
    pub(crate) fn read(&mut self, piece: &[u8]) -> Result<(), AllocError>
        requires well { IsWell self.old.fault self.old.known }
        requires room { self.old.lines + length piece.now < 2 ^ 32 }
        ensures read { OnOk result
            (seen_scan self.new ≡ after_bytes (seen_scan self.old) piece.now) }
        ensures well { OnOk result (IsWell self.new.fault self.new.known) }
    {
        let mut rest = piece;
        'bytes: while !rest.is_empty() && self.fault.is_none() {
            let behind = self.whole_lines(rest)?;
            rest = self.skip(behind)?;
            if let [byte, after @ ..] = rest {
                self.step(*byte)?;
                rest = after;
            }
        }
        Ok(())
    }

    // What the text said that ends here.
    #[tactic(auto, unfolding(crate::specs::Steps::end_result))]
    pub(crate) fn finish(mut self) -> Result<(Known, u32), ReadRefusal>
        requires well { IsWell self.fault self.known }
        ensures read { Finishes result (end_result (seen_scan self)) }
    {
        if self.fault.is_none() && self.begun {
            self.end_of_line()?;
        }
        match self.fault {
            Some(fault) => Err(ReadRefusal::Fault(fault)),
            None => {
                if is_before_callers(self.known.place) {
                    Err(ReadRefusal::Fault(InputFault {
                        line: self.lines,
                        cause: InputCause::Unfinished,
                    }))
                } else {
                    Ok((self.known, self.lines))
                }
            }
        }
    }
}
