//! Sources and sinks over std's readers and writers: the edge of what is proved.
//! They tell no bytes.
ghost use Rattle.std.specs.Prelude.{◌≡◌, ◌≢◌, ◌<◌, ◌≤◌, ℕ, None, IfErr, IfOk, length, drop, take};
ghost use Rattle.outside.specs.Bytes.{prepend_known, append_known, IsAtEnd};
ghost use Rattle.std.specs.Io.KnownBytes.{Consumes, Appends};
ghost use Rattle.std.specs.Io.KnownBytes.{IsAtEnd as IsReaderAtEnd};
ghost use Rattle.outside.specs.declared.source.Took.{Took};
ghost use Rattle.outside.specs.Calls.{count_taken, count_given, TakesWithin, GivesWithin, CountsRead, CountsWrite};

use crate::copy::copy_front;
use crate::{Gave, Sink, Source, Took};
use std::io::{Read, Write};

const BUFFER: usize = 16384;

/// A source over a reader. Each error of the reader is a fault, and a read of 0 bytes is the end.
///
/// std says nothing of the part of a buffer that a read didn't fill. So `fill` reads straight into
/// the buffer, and `read` into one of its own, of which it copies what came.
#[derive(Drop)]
pub struct StdSource<R: Read> {
    reader: R,
    faults: u64,
}

impl<R: Read> StdSource<R> {
    /// A source over what the reader gives from here on.
    pub fn new(reader: R) -> StdSource<R>
        ensures reader { result.reader ≡ reader }
        ensures faults { result.faults ≡ 0 }
    {
        StdSource { reader, faults: 0 }
    }
}

impl<R: Read> Source for StdSource<R> {
    ghost faults = { λ s. s.faults };

    ghost left = { λ _. None };

    fn read(&mut self, into: &mut [u8]) -> Took
        requires { 0 < length into.old }
        ensures within { TakesWithin result (length into.old) }
        ensures bytes { None ≡ prepend_known (take (count_taken result) into.new) None }
        ensures rest { drop (count_taken result) into.new ≡ drop (count_taken result) into.old }
        ensures count { CountsRead result self.old.faults self.new.faults }
        ensures end { result ≡ Took.End → IsAtEnd None }
        ensures passes { Consumes (R.remaining self.old.reader) (R.remaining self.new.reader) (take
            (count_taken result) into.new) }
        ensures ends { result ≡ Took.End → IsReaderAtEnd (R.remaining self.new.reader) }
    {
        let mut buffer = [0; BUFFER];
        let room = into.len().min(BUFFER);
        let took = self.fill(&mut buffer[..room]);
        if let Took::Got(count) = took {
            copy_front(&buffer, into, count);
        }
        took
    }

    fn fill(&mut self, into: &mut [u8]) -> Took
        requires { 0 < length into.old }
        ensures within { TakesWithin result (length into.old) }
        ensures bytes { None ≡ prepend_known (take (count_taken result) into.new) None }
        ensures count { CountsRead result self.old.faults self.new.faults }
        ensures end { result ≡ Took.End → IsAtEnd None }
        ensures passes { Consumes (R.remaining self.old.reader) (R.remaining self.new.reader) (take
            (count_taken result) into.new) }
        ensures ends { result ≡ Took.End → IsReaderAtEnd (R.remaining self.new.reader) }
    {
        match self.reader.read(into) {
            Ok(0) => Took::End,
            Ok(count) => Took::Got(count),
            Err(_) => {
                self.faults = self.faults.saturating_add(1);
                Took::Failed
            }
        }
    }
}

/// A sink over a writer, flushed at each call. Each error of the writer is a fault, and so is a
/// write of 0 bytes.
#[derive(Drop)]
pub struct StdSink<W: Write> {
    writer: W,
    faults: u64,
}

impl<W: Write> StdSink<W> {
    /// A sink for the writer.
    pub fn new(writer: W) -> StdSink<W>
        ensures writer { result.writer ≡ writer }
        ensures faults { result.faults ≡ 0 }
    {
        StdSink { writer, faults: 0 }
    }

    // Writes a front of the piece, and flushes.
    fn push(&mut self, piece: &[u8]) -> std::io::Result<usize>
        ensures within { IfOk result (λ count. count ≤ length piece.now) }
        ensures same { self.new.faults ≡ self.old.faults }
        ensures passes { IfOk result (λ count. Appends (W.contents self.old.writer) (W.contents
            self.new.writer) (take count piece.now)) }
        ensures fails { IfErr result (λ _. (count : ℕ) × (count ≤ length piece.now) × Appends
            (W.contents self.old.writer) (W.contents self.new.writer) (take count piece.now)) }
    {
        let count = self.writer.write(piece)?;
        self.writer.flush()?;
        Ok(count)
    }
}

impl<W: Write> Sink for StdSink<W> {
    ghost faults = { λ s. s.faults };

    ghost written = { λ _. None };

    fn write(&mut self, piece: &[u8]) -> Gave
        requires { 0 < length piece.now }
        ensures within { GivesWithin result (length piece.now) }
        ensures bytes { None ≡ append_known None (take (count_given result) piece.now) }
        ensures count { CountsWrite result self.old.faults self.new.faults }
        ensures passes { result ≢ Gave.Failed
            → Appends (W.contents self.old.writer) (W.contents self.new.writer) (take (count_given
            result) piece.now) }

        // After a fault the writer may have taken a front of the piece, and nothing else.
        ensures fails { result ≡ Gave.Failed → (count : ℕ) × (count ≤ length piece.now) × Appends
            (W.contents self.old.writer) (W.contents self.new.writer) (take count piece.now) }
    {
        match self.push(piece) {
            Ok(count) if count > 0 => Gave::Wrote(count),
            _ => {
                self.faults = self.faults.saturating_add(1);
                Gave::Failed
            }
        }
    }
}
