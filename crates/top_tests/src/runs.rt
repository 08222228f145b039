//! How tests run the program: words and an input, over a source and a sink in memory.
ghost use Rattle.std.specs.Prelude.{◌≤◌};

use crate::sameness::{same_number, same_text};
use outside::{MemorySink, MemorySource};
use runner::{Gate, OpenGate, RUN_TRIES};
use std::alloc::Global;
use std::process::Abort;
use std::thread::Threads;
use track::{command, command_with_threads};

/// The line of four nodes.
pub(crate) const FOUR: &str =
    "track 1\nnodes 4\nk 2\nedge 0 1 1\nedge 1 2 1\nedge 2 3 1\nsub 3\ncallers 1\n";

/// The words that read an input.
pub(crate) const READING: &str =
    "cover replay census costs stretch run meancover meanreplay meanstretch tojson replayjson";

/// How many bytes come in a call: one, a few, and more than most lines have.
pub(crate) const PIECES: &str = "1 7 64";

/// The room of a sink that is large enough.
pub(crate) const ROOM: usize = 4096;

/// A call that no run makes, so that none of its calls fails.
pub(crate) const NEVER: u64 = u64::MAX;

/// What a run ended with, and what it wrote.
#[derive(Drop)]
pub(crate) struct Ran {
    pub(crate) status: u8,
    pub(crate) written: Vec<u8>,
}

/// How a run is made: its words, which stand in one text, its input, how many bytes move in a call,
/// the room of its sink, and which read and which write fail.
#[derive(Clone, Copy)]
pub(crate) struct Run<'a> {
    pub(crate) words: &'a str,
    pub(crate) input: &'a [u8],
    pub(crate) most: usize,
    pub(crate) room: usize,
    pub(crate) failing_read: u64,
    pub(crate) failing_write: u64,
}

/// A run none of whose calls fails, into a sink that is large enough.
pub(crate) fn run_of<'a>(words: &'a str, input: &'a [u8], most: usize) -> Run<'a> {
    Run {
        words,
        input,
        most,
        room: ROOM,
        failing_read: NEVER,
        failing_write: NEVER,
    }
}

fn words_of(rt: &impl Abort, alloc: Global, words: &str) -> Vec<String> {
    let mut list = Vec::new(alloc);
    for word in words.split_ascii_whitespace() {
        let word = String::from_str(alloc, word).expect(rt, "memory");
        list.push(word).expect(rt, "memory");
    }
    list
}

fn source_of(rt: &impl Abort, alloc: Global, run: &Run<'_>) -> MemorySource {
    let input = Vec::from_slice(alloc, run.input).expect(rt, "memory");
    let failing = Vec::from_slice(alloc, &[run.failing_read]).expect(rt, "memory");
    MemorySource::new(input, run.most.max(1), failing)
}

fn sink_of(rt: &impl Abort, alloc: Global, run: &Run<'_>) -> MemorySink {
    let failing = Vec::from_slice(alloc, &[run.failing_write]).expect(rt, "memory");
    let written = Vec::with_capacity(alloc, run.room).expect(rt, "memory");
    MemorySink::new(written, run.room, run.most.max(1), failing)
}

pub(crate) fn perform(rt: &impl Abort, alloc: Global, run: &Run<'_>) -> Ran {
    let words = words_of(rt, alloc, run.words);
    let mut source = source_of(rt, alloc, run);
    let mut sink = sink_of(rt, alloc, run);
    let status = command(alloc, &words, &mut source, &mut sink);
    Ran {
        status,
        written: sink.into_bytes(),
    }
}

/// The same where threads may be started.
pub(crate) fn perform_by_threads<R: Threads + Sync + Abort, G: Gate>(
    rt: &R,
    alloc: Global,
    run: &Run<'_>,
    gate: &G,
    tries: u64,
) -> Ran {
    let words = words_of(rt, alloc, run.words);
    let (mut source, mut sink) = (source_of(rt, alloc, run), sink_of(rt, alloc, run));
    let (from, to) = (&mut source, &mut sink);
    let status = command_with_threads(rt, alloc, &words, from, to, gate, tries);
    Ran {
        status,
        written: sink.into_bytes(),
    }
}

// A run by the call that serves its words.
fn perform_either<R: Threads + Sync + Abort>(rt: &R, alloc: Global, run: &Run<'_>) -> Ran {
    if run.words.starts_with("run") {
        return perform_by_threads(rt, alloc, run, &OpenGate, RUN_TRIES);
    }
    perform(rt, alloc, run)
}

/// A run is to have ended with this status, and to have written this text.
pub(crate) fn has_ended(rt: &impl Abort, place: usize, ran: &Ran, status: u32, text: &[u8]) {
    same_number(rt, place, u64::from(ran.status), u64::from(status));
    same_text(rt, place, &ran.written, text);
}

/// A run by the call that serves its words is to end so.
pub(crate) fn ends<R: Threads + Sync + Abort>(
    rt: &R,
    alloc: Global,
    place: usize,
    run: &Run<'_>,
    status: u32,
    text: &[u8],
) {
    has_ended(rt, place, &perform_either(rt, alloc, run), status, text);
}

// What stands before a mark, and what stands behind it.
fn halves(text: &str, mark: char) -> (&str, &str) {
    text.split_once(mark).unwrap_or((text, ""))
}

/// Puts a part behind a text.
pub(crate) fn append(rt: &impl Abort, text: &mut Vec<u8>, part: &str) {
    text.extend_from_slice(part.as_bytes()).expect(rt, "memory");
}

/// A text, and its end: another text, or `HEAD^LINE*TIMES^TAIL`, where the line stands so many
/// times between the head and the tail.
pub(crate) fn text_of(rt: &impl Abort, alloc: Global, before: &str, end: &str) -> Vec<u8> {
    let (head, lines) = halves(end, '^');
    let (line, rest) = halves(lines, '*');
    let (times, tail) = halves(rest, '^');
    let mut text = Vec::new(alloc);
    append(rt, &mut text, before);
    append(rt, &mut text, head);
    for _ in 0..times.parse::<u32>().unwrap_or(0) {
        append(rt, &mut text, line);
    }
    append(rt, &mut text, tail);
    text
}

/// An input is to be answered so by each of these words, however many bytes come in a call.
pub(crate) fn play_words<R: Threads + Sync + Abort>(
    rt: &R,
    alloc: Global,
    place: usize,
    words: &str,
    pieces: &str,
    input: &[u8],
    status: u32,
    text: &str,
) {
    for word in words.split_ascii_whitespace() {
        play_word(rt, alloc, place, word, pieces, input, status, text);
    }
}

fn play_word<R: Threads + Sync + Abort>(
    rt: &R,
    alloc: Global,
    place: usize,
    word: &str,
    pieces: &str,
    input: &[u8],
    status: u32,
    text: &str,
) {
    for piece in pieces.split_ascii_whitespace() {
        let most = piece.parse::<usize>().expect(rt, "a number of bytes");
        ends(
            rt,
            alloc,
            place,
            &run_of(word, input, most),
            status,
            text.as_bytes(),
        );
    }
}
