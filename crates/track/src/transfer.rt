//! All bytes of a source into a reader, and a whole text into a sink.
ghost use Rattle.std.specs.Prelude.{◌≡◌, ◌<◌, ◌^◌, IfOk, IfErr, OnOk, length};
ghost use Rattle.net_reader.specs.Reading.{StandsFor, most_bytes};
ghost use Rattle.outside.specs.Bytes.{append_known};
ghost use Rattle.track.specs.declared.stop.WriteStop.TheVariants.{Failed};
ghost use Rattle.track.specs.Transfer.{HasFaultedOnce, IsAllRead, IsEndOf, IsTextRead, IsWrittenPart, StopsReading};

use crate::stop::{ReadStop, WriteStop};
use net_reader::{MAX_BYTES, Reader};
use outside::{Gave, Sink, Source, Took};
use std::alloc::{AllocError, Global};

// How much is read at once. The piece is set to zero in each run, so that a greater one would make
// small runs dearer.
const PIECE: usize = 16_384;

// A reader of all that is left in the source, where it isn't too much. It stops at the first fault.
pub(crate) fn read_all<S: Source>(alloc: Global, source: &mut S) -> Result<Reader, ReadStop>
    ensures all { IfOk result (λ reader. IsAllRead reader
        (S.left source.old) (S.left source.new) (S.faults source.old) (S.faults source.new)) }
    ensures stops { IfErr result (λ stop. StopsReading most_bytes stop
        (S.left source.old) (S.left source.new) (S.faults source.old) (S.faults source.new)) }
    ensures rest { IsEndOf (S.left source.old) (S.left source.new) }
{
    let mut reader = Reader::new(alloc)?;
    let mut piece = [0; PIECE];
    let mut count = 0;
    'pieces: while count <= MAX_BYTES {
        match source.fill(&mut piece) {
            Took::Got(more) => {
                reader.feed(&piece[..more])?;
                count += more;
            }
            Took::End => return Ok(reader),
            Took::Failed => return Err(ReadStop::Failed),
        }
    }
    Err(ReadStop::TooLong)
}

// All bytes that are left in the source, where they are at most so many. It stops at the first
// fault.
pub(crate) fn read_text<S: Source>(
    alloc: Global,
    source: &mut S,
    limit: usize,
) -> Result<Vec<u8>, ReadStop>
    ensures all { IfOk result (λ text. IsTextRead limit text.items
        (S.left source.old) (S.left source.new) (S.faults source.old) (S.faults source.new)) }
    ensures stops { IfErr result (λ stop. StopsReading limit stop
        (S.left source.old) (S.left source.new) (S.faults source.old) (S.faults source.new)) }
    ensures rest { IsEndOf (S.left source.old) (S.left source.new) }
{
    let mut text = Vec::new(alloc);
    let mut piece = [0; PIECE];
    'pieces: while text.len() <= limit {
        match source.fill(&mut piece) {
            Took::Got(more) => text.extend_from_slice(&piece[..more])?,
            Took::End => return Ok(text),
            Took::Failed => return Err(ReadStop::Failed),
        }
    }
    Err(ReadStop::TooLong)
}

// A reader of a whole text.
pub(crate) fn reader_of(alloc: Global, text: &[u8]) -> Result<Reader, AllocError>
    requires { length text.now < 2 ^ 32 }
    ensures { IfOk result (λ reader. StandsFor reader text.now) }
{
    let mut reader = Reader::new(alloc)?;
    reader.feed(text)?;
    Ok(reader)
}

// The whole text into the sink. It stops at the first fault.
pub(crate) fn write_all<K: Sink>(sink: &mut K, text: &[u8]) -> Result<(), WriteStop>
    ensures all { OnOk result (K.written sink.new ≡ append_known (K.written sink.old) text.now) }
    ensures no_fault { OnOk result (K.faults sink.new ≡ K.faults sink.old) }
    ensures stops { IfErr result (λ stop.
        (stop ≡ Failed) × HasFaultedOnce (K.faults sink.old) (K.faults sink.new)) }
    ensures part { IsWrittenPart text.now (K.written sink.old) (K.written sink.new) }
{
    let mut rest = text;
    'pieces: while !rest.is_empty() {
        match sink.write(rest) {
            Gave::Wrote(count) => rest = rest.split_at(count).1,
            Gave::Failed => return Err(WriteStop::Failed),
        }
    }
    Ok(())
}
