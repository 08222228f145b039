//! Runs whose sources and sinks fail at one call.
use crate::rows::{Row, row_of, rows_in};
use crate::runs::{NEVER, Run, ends};
use std::alloc::Global;
use std::process::Abort;
use std::thread::Threads;

/// The call that a text names; `-` names none.
pub(crate) fn call_of(text: &str) -> u64 {
    text.parse::<u64>().unwrap_or(NEVER)
}

fn play_fault<R: Threads + Sync + Abort>(
    rt: &R,
    alloc: Global,
    place: usize,
    run: &Run<'_>,
    row: &Row<'_>,
) {
    let (read, rest) = row.input.split_once(' ').expect(rt, "a read");
    let (write, most) = rest.split_once(' ').expect(rt, "a write");
    let run = Run {
        most: most.parse::<usize>().expect(rt, "a number of bytes"),
        failing_read: call_of(read),
        failing_write: call_of(write),
        ..*run
    };
    ends(rt, alloc, place, &run, row.number, row.text.as_bytes());
}

/// Each row is `READ WRITE BYTES>STATUS TEXT`: the read and the write that fail, or `-`, how many
/// bytes move in a call, and what is wanted of the run.
pub(crate) fn play_faults<R: Threads + Sync + Abort>(
    rt: &R,
    alloc: Global,
    run: &Run<'_>,
    rows: &str,
) {
    for place in 0..rows_in(rows) {
        play_fault(rt, alloc, place, run, &row_of(rt, rows, place));
    }
}

/// Each of so many reads of a run fails in turn, and ends it; the later ones of those that are
/// tried aren't made, so that it writes its text.
pub(crate) fn each_read_fails<R: Threads + Sync + Abort>(
    rt: &R,
    alloc: Global,
    run: &Run<'_>,
    made: u64,
    tried: u64,
    text: &[u8],
) {
    for call in 0..tried {
        let run = Run {
            failing_read: call,
            ..*run
        };
        let (status, text) = if call < made {
            (4, &b""[..])
        } else {
            (0, text)
        };
        ends(rt, alloc, call as usize, &run, status, text);
    }
}

/// Each of so many writes of a run fails in turn: what was written before it stays, and where the
/// text is whole by then the write isn't made.
pub(crate) fn each_write_fails<R: Threads + Sync + Abort>(
    rt: &R,
    alloc: Global,
    run: &Run<'_>,
    tried: u64,
    text: &[u8],
) {
    for call in 0..tried {
        let run = Run {
            failing_write: call,
            ..*run
        };
        let written = text.len().min(run.most.saturating_mul(call as usize));
        let status = if written < text.len() { 5 } else { 0 };
        ends(rt, alloc, call as usize, &run, status, &text[..written]);
    }
}
