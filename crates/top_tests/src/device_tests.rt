//! Sources and sinks that fail at one call and would go on at the next: the first fault ends the
//! work.
use crate::faults::{each_read_fails, each_write_fails, play_faults};
use crate::rows::{Row, row_of, rows_in};
use crate::runs::{FOUR, run_of, text_of};
use std::alloc::Global;
use std::process::Abort;
use std::thread::Threads;

const CALLS: &str = "move 0 2\nfind 1 3 0\n";

// What each word writes for the line of four with these calls.
const WRITTEN: &str = "replay>0 move 0 1 3 2 weight 1 first 0 commit 3 last 5\n\
        find 1 3 0 at 2 number 1 level 0 weight 5 first 6 last 8\norder 0 0 0 0 0 0 1 1 1\nend 9\n|\
        meanreplay>0 move 0 1 3 2 weight 1 first 0 commit 3 last 5\n\
        find 1 3 0 at 2 number 1 level 0 weight 5 first 6 last 8\norder 0 0 0 0 0 0 1 1 1\nend 9\n|\
        cover>0 plan nodes 4 k 2 levels 3 degree 2 stretch 144\n\
        level 0 radius 1 clusters 2 phases 2\n\
        cluster 0 phase 0 leader 0 depth 3 members 0 1 2 3\n\
        cluster 1 phase 1 leader 3 depth 1 members 2 3\nhomes 0 0 0 1\n\
        level 1 radius 2 clusters 1 phases 1\n\
        cluster 0 phase 0 leader 0 depth 3 members 0 1 2 3\nhomes 0 0 0 0\n\
        level 2 radius 4 clusters 1 phases 1\n\
        cluster 0 phase 0 leader 0 depth 3 members 0 1 2 3\nhomes 0 0 0 0\nend\n|\
        meancover>0 plan nodes 4 k 2 levels 3 degree 2 stretch 232\n\
        level 0 radius 1 clusters 2 phases 1\n\
        cluster 0 phase 0 leader 0 depth 3 members 0 1 2 3\n\
        cluster 1 phase 0 leader 3 depth 1 members 2 3\nhomes 0 0 0 1\n\
        level 1 radius 2 clusters 1 phases 1\n\
        cluster 0 phase 0 leader 0 depth 3 members 0 1 2 3\nhomes 0 0 0 0\n\
        level 2 radius 4 clusters 1 phases 1\n\
        cluster 0 phase 0 leader 0 depth 3 members 0 1 2 3\nhomes 0 0 0 0\nend\n|\
        census>0 node 2 count 1 subs 0\nend 1\n|\
        costs>0 cost 0 moves 1 moved 1 written 12 purged 0\nend\n|\
        stretch>0 stretch 144 own 14 any 27\n|\
        meanstretch>0 stretch 232 own 14 any 27\n|";

// Twelve reads of 8 bytes take the input, and one more tells its end: no read comes after it. The
// writes have 10 bytes.
fn each_call_of_a_word_fails<R: Threads + Sync + Abort>(
    rt: &R,
    alloc: Global,
    input: &[u8],
    row: &Row<'_>,
) {
    let text = row.text.as_bytes();
    each_read_fails(rt, alloc, &run_of(row.input, input, 8), 13, 14, text);
    each_write_fails(rt, alloc, &run_of(row.input, input, 10), 40, text);
}

#[test]
fn each_call_fails(rt: HostRuntime) {
    let input = text_of(&rt, rt.alloc(), FOUR, CALLS);
    for place in 0..rows_in(WRITTEN) {
        each_call_of_a_word_fails(&rt, rt.alloc(), &input, &row_of(&rt, WRITTEN, place));
    }
}

// The other words that read an input, up to the read that tells its end.
#[test]
fn each_read_of_other_words_fails(rt: HostRuntime) {
    let input = text_of(&rt, rt.alloc(), FOUR, CALLS);
    for word in "run tojson replayjson".split_ascii_whitespace() {
        each_read_fails(&rt, rt.alloc(), &run_of(word, &input, 8), 13, 13, b"");
    }
}

// Faults of a replay, whose input ends so.
fn replay_breaks<R: Threads + Sync + Abort>(
    rt: &R,
    alloc: Global,
    before: &str,
    end: &str,
    faults: &str,
) {
    let input = text_of(rt, alloc, before, end);
    play_faults(rt, alloc, &run_of("replay", &input, 10), faults);
}

// The second read of 64 bytes, which has the end of the input, and the third write of 10.
#[test]
fn one_call_fails(rt: HostRuntime) {
    let faults = "1 - 64>4 |- 2 10>5 move 0 1 3 2 weight |";
    replay_breaks(&rt, rt.alloc(), FOUR, CALLS, faults);
}

// A fault of reading comes before the length, that before the faults of the input.
#[test]
fn a_long_input_and_a_fault(rt: HostRuntime) {
    replay_breaks(
        &rt,
        rt.alloc(),
        "",
        "^#*4194305",
        "0 0 100000>4 |- 0 100000>6 |",
    );
}

// The faults of writing come last.
#[test]
fn a_refused_input_and_a_fault(rt: HostRuntime) {
    let faults = "0 0 10>4 |1 - 10>4 |- 0 10>5 |- 1 10>5 refused 1 |";
    replay_breaks(&rt, rt.alloc(), "", "track 3\n", faults);
}
