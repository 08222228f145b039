//! Made inputs and the summaries of their replays: worked texts, what reads nothing, and the
//! limits.
use crate::faults::call_of;
use crate::rows::{Row, row_of, rows_in};
use crate::runs::{Run, ends, perform, run_of};
use crate::sameness::{same_number, same_text};
use std::alloc::Global;
use std::process::Abort;
use std::thread::Threads;

// Reads would fail, and must not be made.
fn is_made<R: Threads + Sync + Abort>(rt: &R, alloc: Global, place: usize, row: &Row<'_>) {
    let (write, words) = row.input.split_once(' ').expect(rt, "a write");
    let run = Run {
        failing_read: 0,
        failing_write: call_of(write),
        ..run_of(words, b"track", 10)
    };
    ends(rt, alloc, place, &run, row.number, row.text.as_bytes());
}

// Each row is `WRITE WORDS>STATUS TEXT`: the write that fails, or `-`, and what is wanted.
fn play_made<R: Threads + Sync + Abort>(rt: &R, alloc: Global, rows: &str) {
    for place in 0..rows_in(rows) {
        is_made(rt, alloc, place, &row_of(rt, rows, place));
    }
}

#[test]
fn worked_loads(rt: HostRuntime) {
    let rows = "- make 42 2 2 1 0 1>0 \
        track 1\nnodes 2\nk 2\nedge 0 1 8\nedge 1 0 4\nsub 1\ncallers 0\nmove 0 0\n\
        order 0 0 0 0 0 0 0 0\n|\
        - make 7 3 2 2 1 5>0 \
        track 1\nnodes 3\nk 2\nedge 0 1 4\nedge 0 2 13\nedge 1 2 9\nsub 1\n\
        sub 2\ncallers 1\nmove 1 1\nfind 2 0 0\nmove 0 2\nfind 2 2 1\nmove 0 0\n\
        order 2 1 0 0 1 1 2 0 2 1 0 0 2 0 0 0 1 1 1 2 0 2 0 1 0 1 2 0 0 0 0 0 0 2 1 1 0 2 2 1\n|\
        - make 42 1 1 1 0 0>0 track 1\nnodes 1\nk 1\nsub 0\ncallers 0\n|";
    play_made(&rt, rt.alloc(), rows);
}

// A trial is told by its summary, also that of the made input of 256 nodes and 2,048 calls.
#[test]
fn worked_trials(rt: HostRuntime) {
    let rows = "- trial 42 2 2 1 0 1>0 \
        summary moves 1 moved 4 finds 0 again 0 travelled 0 visits 9\n|\
        - trial 42 256 4 64 64 2048>0 \
        summary moves 1024 moved 42874 finds 1015 again 9 travelled 116195 visits 25064\n|";
    play_made(&rt, rt.alloc(), rows);
}

// Loads beyond a limit are words of no form, and write nothing. What was written before the write
// that fails stays.
#[test]
fn loads_that_end_early(rt: HostRuntime) {
    let rows = "0 make 1 2>2 |\
        0 make 1 1 1 1 0 1>2 |\
        0 make -1 2 2 1 1 1>2 |\
        0 trial 1 257 1 1 1 1>2 |\
        0 make 42 2 2 1 0 1>5 |\
        2 make 42 2 2 1 0 1>5 track 1\nnodes 2\nk 2\n|\
        1 trial 42 2 2 1 0 1>5 summary mo|";
    play_made(&rt, rt.alloc(), rows);
}

// The widest input of so many nodes begins so.
fn is_widest(rt: &impl Abort, alloc: Global, words: &str, start: &[u8]) {
    let run = Run {
        room: 100_000,
        failing_read: 0,
        ..run_of(words, b"", 100_000)
    };
    let ran = perform(rt, alloc, &run);
    same_number(rt, 0, u64::from(ran.status), 0);
    same_text(rt, 1, ran.written.get(..8).unwrap_or(b""), start);
}

// The widest made inputs: of 256 nodes in the first format, and of 1,024 in the second.
#[test]
fn widest_loads(rt: HostRuntime) {
    is_widest(&rt, rt.alloc(), "make 5 256 1 64 64 0", b"track 1\n");
    is_widest(&rt, rt.alloc(), "make 5 1024 8 64 64 0", b"track 2\n");
}
