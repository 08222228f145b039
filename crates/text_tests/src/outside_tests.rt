//! What no clause says of sources and sinks: that the calls succeed, and what std's readers and
//! writers do below them.
ghost use Rattle.std.specs.Prelude.{◌<◌, Some, length};

use crate::rows::{row_of, rows_in};
use crate::sameness::{is_like, same, same_shown, same_text};
use outside::{MemorySink, MemorySource, Sink, Source, StdSink, StdSource, Took};
use std::alloc::Global;
use std::io::{Error, ErrorKind, Read, Write};
use std::process::Abort;

// How a source is read.
#[derive(Clone, Copy)]
enum Way {
    /// By `read`.
    Read,
    /// By `fill`.
    Fill,
}

fn take(source: &mut impl Source, buffer: &mut [u8], way: Way) -> Took
    requires { 0 < length buffer.old }
{
    match way {
        Way::Read => source.read(buffer),
        Way::Fill => source.fill(buffer),
    }
}

// Each row `TOOK>BYTES` is what a call is to answer, and what the buffer then holds. Behind what
// `fill` hands over it may hold anything.
fn takes(
    rt: &impl Abort,
    alloc: Global,
    source: &mut impl Source,
    buffer: &mut [u8],
    way: Way,
    rows: &str,
) {
    for place in 0..rows_in(rows) {
        let (took, bytes) = row_of(rows, place);
        assert!(rt; buffer.len() > 0);
        same_shown(rt, alloc, place, &take(source, buffer, way), took);
        is_like(rt, place, buffer, bytes);
    }
}

// Each row `BYTES>GAVE` is a write to a sink, and what it is to answer.
fn writes(rt: &impl Abort, alloc: Global, sink: &mut impl Sink, rows: &str) {
    for place in 0..rows_in(rows) {
        let (bytes, gave) = row_of(rows, place);
        assert!(rt; bytes.len() > 0);
        same_shown(rt, alloc, place, &sink.write(bytes.as_bytes()), gave);
    }
}

// Six bytes, of which a call gives four at most; the second call fails.
fn six_bytes(rt: &impl Abort, alloc: Global) -> MemorySource {
    let bytes = Vec::from_slice(alloc, b"abcdef").expect(rt, "memory");
    let failing = Vec::from_slice(alloc, &[1]).expect(rt, "memory");
    MemorySource::new(bytes, 4, failing)
}

const FILLS: &str = "Got(4)>abcd*|Failed>*|Got(2)>ef*|End>*|";

#[test]
fn source_in_memory(rt: HostRuntime) {
    let alloc = rt.alloc();
    let mut source = six_bytes(&rt, alloc);
    let rows = "Got(4)>abcd-|Failed>abcd-|Got(2)>efcd-|End>efcd-|";
    takes(&rt, alloc, &mut source, &mut [b'-'; 5], Way::Read, rows);
}

#[test]
fn source_in_memory_fills(rt: HostRuntime) {
    let mut source = six_bytes(&rt, rt.alloc());
    takes(&rt, rt.alloc(), &mut source, &mut [0; 5], Way::Fill, FILLS);
}

// A source that has no `fill` of its own.
#[derive(Drop)]
struct Plain {
    inner: MemorySource,
}

impl Source for Plain {
    ghost faults = { λ s. s.inner.faults };

    ghost left = { λ s. Some s.inner.left };

    fn read(&mut self, into: &mut [u8]) -> Took {
        self.inner.read(into)
    }
}

#[test]
fn source_that_only_reads_fills(rt: HostRuntime) {
    let inner = six_bytes(&rt, rt.alloc());
    let mut plain = Plain { inner };
    takes(&rt, rt.alloc(), &mut plain, &mut [0; 5], Way::Fill, FILLS);
}

// A sink of five bytes, of which a call takes four at most; the second call fails.
fn five_bytes(rt: &impl Abort, alloc: Global) -> MemorySink {
    let room = Vec::with_capacity(alloc, 5).expect(rt, "memory");
    let failing = Vec::from_slice(alloc, &[1]).expect(rt, "memory");
    MemorySink::new(room, 5, 4, failing)
}

#[test]
fn sink_in_memory(rt: HostRuntime) {
    let mut sink = five_bytes(&rt, rt.alloc());
    let rows = "abcdef>Wrote(4)|ef>Failed|ef>Wrote(1)|f>Failed|";
    writes(&rt, rt.alloc(), &mut sink, rows);
    same_text(&rt, 4, &sink.into_bytes(), b"abcde");
}

// Calls over a reader of a text are to answer these rows.
fn reader_takes(rt: &impl Abort, alloc: Global, text: &[u8], way: Way, rows: &str) {
    let mut source = StdSource::new(text);
    takes(rt, alloc, &mut source, &mut [b'-'; 2], way, rows);
}

#[test]
fn source_over_a_reader(rt: HostRuntime) {
    let rows = "Got(2)>ab|Got(1)>cb|End>cb|";
    reader_takes(&rt, rt.alloc(), b"abc", Way::Read, rows);
    let rows = "Got(2)>ab|Got(1)>c*|End>*|";
    reader_takes(&rt, rt.alloc(), b"abc", Way::Fill, rows);
}

// A text that is longer than the buffer of `read`.
fn long_text(rt: &impl Abort, alloc: Global) -> Vec<u8> {
    let mut text = vec![in alloc; b'a'; 16_384].expect(rt, "memory");
    text.extend_from_slice(b"bcd").expect(rt, "memory");
    text
}

// A read of more than the buffer of `read` takes what that holds, and the next one goes on behind
// it.
fn reads_in_two(rt: &impl Abort, alloc: Global, source: &mut impl Source, into: &mut [u8; 20_000]) {
    same(rt, 0, source.read(into), Took::Got(16_384));
    same_text(rt, 1, &into[16_382..16_386], b"aa--");
    let rows = "Got(3)>bcda|End>bcda|";
    takes(rt, alloc, source, &mut into[..4], Way::Read, rows);
}

#[test]
fn source_over_a_long_reader(rt: HostRuntime) {
    let text = long_text(&rt, rt.alloc());
    let mut source = StdSource::new(text.as_slice());
    reads_in_two(&rt, rt.alloc(), &mut source, &mut [b'-'; 20_000]);
}

#[test]
fn sink_over_a_writer(rt: HostRuntime) {
    let mut bytes = Vec::new(rt.alloc());
    let rows = "ab>Wrote(2)|c>Wrote(1)|";
    writes(&rt, rt.alloc(), &mut StdSink::new(&mut bytes), rows);
    same_text(&rt, 2, &bytes, b"abc");
}

// A device that takes one byte a call, and shows what it took where it is flushed.
#[derive(Drop)]
struct Slow {
    held: Option<u8>,
    shown: Vec<u8>,
}

impl Write for Slow {
    fn write(&mut self, bytes: &[u8]) -> std::io::Result<usize> {
        if let [first, ..] = bytes {
            self.held = Some(*first);
            return Ok(1);
        }
        Ok(0)
    }

    fn flush(&mut self) -> std::io::Result<()> {
        if let Some(byte) = self.held.take() {
            self.shown.push(byte)?;
        }
        Ok(())
    }
}

#[test]
fn sink_over_a_slow_writer(rt: HostRuntime) {
    let mut slow = Slow {
        held: None,
        shown: Vec::new(rt.alloc()),
    };
    let rows = "ab>Wrote(1)|b>Wrote(1)|";
    writes(&rt, rt.alloc(), &mut StdSink::new(&mut slow), rows);
    same_text(&rt, 2, &slow.shown, b"ab");
}

// A device that takes all bytes, and fails where it is flushed.
#[derive(Drop)]
struct Full;

impl Write for Full {
    fn write(&mut self, bytes: &[u8]) -> std::io::Result<usize> {
        Ok(bytes.len())
    }

    fn flush(&mut self) -> std::io::Result<()> {
        Err(Error::from(ErrorKind::StorageFull))
    }
}

// A device whose first calls fail in one way. From then on a read gives one byte, and a write takes
// all.
#[derive(Drop)]
struct Faulty {
    kind: ErrorKind,
    faults: u32,
}

impl Read for Faulty {
    fn read(&mut self, into: &mut [u8]) -> std::io::Result<usize> {
        if self.faults > 0 {
            self.faults -= 1;
            return Err(Error::from(self.kind));
        }
        if let [first, ..] = into {
            *first = b'a';
            return Ok(1);
        }
        Ok(0)
    }
}

impl Write for Faulty {
    fn write(&mut self, bytes: &[u8]) -> std::io::Result<usize> {
        if self.faults > 0 {
            self.faults -= 1;
            return Err(Error::from(self.kind));
        }
        Ok(bytes.len())
    }

    fn flush(&mut self) -> std::io::Result<()> {
        Ok(())
    }
}

// A device whose every call fails in one way.
fn broken(kind: ErrorKind) -> Faulty {
    let faults = u32::MAX;
    Faulty { kind, faults }
}

// A device that fails at its first call.
fn late(kind: ErrorKind) -> Faulty {
    Faulty { kind, faults: 1 }
}

// A call that fails in some way is a fault.
fn fails(rt: &impl Abort, alloc: Global, kind: ErrorKind) {
    let mut source = StdSource::new(broken(kind));
    let rows = "Failed>--|";
    takes(rt, alloc, &mut source, &mut [b'-'; 2], Way::Read, rows);
    takes(rt, alloc, &mut source, &mut [0; 2], Way::Fill, "Failed>*|");
    writes(rt, alloc, &mut StdSink::new(broken(kind)), "a>Failed|");
}

// Also one that a stream interrupts or would let wait, and one that fails where it is flushed.
#[test]
fn devices_that_fail(rt: HostRuntime) {
    fails(&rt, rt.alloc(), ErrorKind::Other);
    fails(&rt, rt.alloc(), ErrorKind::Interrupted);
    fails(&rt, rt.alloc(), ErrorKind::WouldBlock);
    writes(&rt, rt.alloc(), &mut StdSink::new(Full), "a>Failed|");
}

// Calls of a device that fails once are to answer these rows.
fn late_takes(rt: &impl Abort, alloc: Global, way: Way, rows: &str) {
    let mut source = StdSource::new(late(ErrorKind::Other));
    takes(rt, alloc, &mut source, &mut [b'-'; 2], way, rows);
}

// A write that failed isn't tried again, nor is a read.
#[test]
fn devices_that_fail_once(rt: HostRuntime) {
    let mut sink = StdSink::new(late(ErrorKind::StorageFull));
    writes(&rt, rt.alloc(), &mut sink, "ab>Failed|ab>Wrote(2)|");
    late_takes(&rt, rt.alloc(), Way::Read, "Failed>--|Got(1)>a-|");
    late_takes(&rt, rt.alloc(), Way::Fill, "Failed>*|Got(1)>a*|");
}
