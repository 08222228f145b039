//! Inputs that are refused, cut short or meant to do harm, at the top call.
use crate::rows::play_rows;
use crate::runs::{FOUR, PIECES, READING, play_words, text_of};
use std::alloc::Global;
use std::process::Abort;
use std::thread::Threads;

const TWO: &str = "track 1\nnodes 2\nk 2\n";

const ONE: &str = "track 1\nnodes 1\nk 1\n";

const SWITCHING: &str =
    "track 2\nnodes 4\nk 2\nedge 0 1 1\nedge 1 2 1\nedge 2 3 1\nsub 3\ncallers 1\n";

// The first fault of an input is told to each word, however the bytes come.
#[test]
fn refused_inputs(rt: HostRuntime) {
    let networks = "edge 0 1 1048577\n>1 refused 4 too-large\n|\
        edge 0 1 1048576\n>1 refused 4 unfinished\n|\
        nodes 2\n>1 refused 4 form\n|\
        edge 0>1 refused 4 form\n|";
    play_rows(&rt, rt.alloc(), READING, PIECES, TWO, networks);
    let calls = "move 0 3\n>1 refused 9 nowhere\n|\
        move 1 2\n>1 refused 9 unknown\n|\
        order 2\n>1 refused 9 unknown\n|";
    play_rows(&rt, rt.alloc(), READING, PIECES, FOUR, calls);
    let whole = "track 1\nnodes 2\nnodes 2\n>1 refused 3 form\n|\
        track 1\nnodes 3\nk 2\nedge 0 1 1\nsub 0\ncallers 0\n>1 refused 6 apart 2\n|\
        track 1\nnodes 0\n>1 refused 2 form\n|\
        >1 refused 0 unfinished\n|";
    play_rows(&rt, rt.alloc(), READING, PIECES, "", whole);
}

#[test]
fn refused_subscribers(rt: HostRuntime) {
    let rows = "^sub 0\n*64>1 refused 67 unfinished\n|\
        ^sub 0\n*65>1 refused 68 too-many\n|";
    play_rows(&rt, rt.alloc(), READING, PIECES, ONE, rows);
}

// Both sides of the limits of numbers.
#[test]
fn limits_of_numbers(rt: HostRuntime) {
    let rows = "track 1\nnodes 256\n>1 refused 2 unfinished\n|\
        track 1\nnodes 257\n>1 refused 2 too-large\n|\
        track 2\nnodes 1024\n>1 refused 2 unfinished\n|\
        track 2\nnodes 1025\n>1 refused 2 too-large\n|\
        track 2\nnodes 1024\nk 1\n>1 refused 3 too-large\n|\
        track 2\nnodes 1024\nk 2\n>1 refused 3 unfinished\n|\
        track 2\nnodes 256\nk 1\n>1 refused 3 unfinished\n|\
        track 1\nnodes 2\nk 8\n>1 refused 3 unfinished\n|\
        track 1\nnodes 2\nk 9\n>1 refused 3 too-large\n|\
        track 1\nnodes 2\nk 000000000000000008\n>1 refused 3 unfinished\n|\
        track 1\nnodes 2\nk 0000000000000000008\n>1 refused 3 form\n|\
        track 1\nnodes 2\nk 999999999999999999\n>1 refused 3 too-large\n|\
        track 1\nnodes 1\nk 1\nsub 0\ncallers 65\n>1 refused 5 too-large\n|";
    play_rows(&rt, rt.alloc(), "replay", "64", "", rows);
}

// The text of a move and a find, cut behind so many bytes, is answered so by these words.
fn cut_behind<R: Threads + Sync + Abort>(
    rt: &R,
    alloc: Global,
    words: &str,
    length: usize,
    status: u32,
    text: &str,
) {
    let mut input = text_of(rt, alloc, FOUR, "move 0 2\nfind 1 3 0\n");
    input.truncate(length);
    play_words(rt, alloc, length, words, "7", &input, status, text);
}

// Within line 2, behind lines 3 and 6, within line 8, before the LF of line 8, and within line 10.
#[test]
fn cut_inputs(rt: HostRuntime) {
    cut_behind(&rt, rt.alloc(), READING, 10, 1, "refused 2 form\n");
    cut_behind(&rt, rt.alloc(), READING, 20, 1, "refused 3 unfinished\n");
    cut_behind(&rt, rt.alloc(), READING, 53, 1, "refused 6 unfinished\n");
    cut_behind(&rt, rt.alloc(), READING, 66, 1, "refused 8 form\n");
    cut_behind(&rt, rt.alloc(), "replay run", 68, 0, "end 0\n");
    cut_behind(&rt, rt.alloc(), READING, 86, 1, "refused 10 form\n");
}

// Lines behind a callers line that are meant to do harm, and such lines of many words.
#[test]
fn harmful_lines(rt: HostRuntime) {
    let rows = "order 999999999999999999>1 refused 9 unknown\n|\
        order 9999999999999999999>1 refused 9 form\n|\
        find 0 1 0>1 refused 9 unknown\n|\
        find 1 4 0>1 refused 9 unknown\n|\
        order^ 9*65>1 refused 9 too-many\n|\
        order^ 9*64>1 refused 9 unknown\n|\
        order^ 1*200000>1 refused 9 too-many\n|\
        find^find*250000>1 refused 9 form\n|";
    play_rows(&rt, rt.alloc(), READING, "64", FOUR, rows);
}

// Bytes that no other test has: a comment with a byte that begins no character, tabs between
// fields, NUL within a field.
#[test]
fn unusual_bytes(rt: HostRuntime) {
    let input =
        b"track 1\nnodes 4\nk 2\nedge 0 1 1\nedge 1 2 1\nedge 2 3 1\nsub 3\ncallers 1\n#\xff";
    play_words(&rt, rt.alloc(), 0, "replay run", "7", input, 0, "end 0\n");
    let rows = "\t#\t\0\r\r\n \t\r\n>0 end 0\n|\
        find\t1\t3\t0\0\n>1 refused 9 form\n|\
        find 1 3 0\r\r\n>1 refused 9 form\n|";
    play_rows(&rt, rt.alloc(), "replay run", "7", FOUR, rows);
}

// Switches that don't fit, and those of a format that has none.
#[test]
fn refused_switches(rt: HostRuntime) {
    let switches = "off 0\nmove 0 2\n>1 refused 10 switched\n|\
        on 0\n>1 refused 9 switched\n|\
        off 1\n>1 refused 9 unknown\n|";
    play_rows(&rt, rt.alloc(), "replay", "64", SWITCHING, switches);
    let call = "off 0\n>1 refused 9 form\n|";
    play_rows(&rt, rt.alloc(), "replay", "64", FOUR, call);
    play_rows(
        &rt,
        rt.alloc(),
        "replay",
        "64",
        "",
        "track 3>1 refused 1 form\n|",
    );
}
