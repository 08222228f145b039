//! Checks of reports by the top call: worked rows, a report by hand whose rules are broken one by
//! one, inputs that are refused, lengths at the limits, and faults of reading and writing.
use crate::faults::{each_read_fails, each_write_fails};
use crate::foreign_reports::{ANSWERS, FORMS, INPUT, REPORT, TICKETS};
use crate::rows::{Row, play_rows, row_of, rows_in};
use crate::runs::{FOUR, append, play_words, run_of, text_of};
use std::alloc::Global;
use std::process::Abort;
use std::thread::Threads;

const CALLS: &str = "track 1\nnodes 4\nk 2\nedge 0 1 1\nedge 1 2 1\nedge 2 3 1\nsub 3\n\
        callers 1\nmove 0 2\nfind 1 3 0\n";

const REPORTED: &str = "report\nmove 0 1 3 2 weight 1 first 0 commit 3 last 5\n\
        find 1 3 0 at 2 number 1 level 0 weight 5 first 6 last 8\norder 0 0 0 0 0 0 1 1 1\n\
        end 9\n";

#[test]
fn worked_verdicts(rt: HostRuntime) {
    let rows = "report\nmove 0 1 3 2 weight 1 first 0 commit 3 last 5\n\
        find 1 3 0 at 2 number 1 level 0 weight 5 first 6 last 8\norder 0 0 0 0 0 0 1 1 1\n\
        end 9\n>0 yes\n|\
        report\nmove 0 1 3 2 weight 1 first 0 commit 5 last 5\n\
        find 1 3 0 at 2 number 1 level 0 weight 5 first 6 last 8\norder 0 0 0 0 0 0 1 1 1\n\
        end 9\n>8 no 1 tickets\n|\
        report\nmove 0 1 3 2 weight 1 first 0 commit 3 last 5\n\
        find 1 3 0 at 2 number 1 level 0 weight 5 first 6 last 8\norder 0 0 0 0 0 0 1 1 1\n\
        >8 no 4 form\n|";
    play_rows(&rt, rt.alloc(), "check", "1 7 4096", CALLS, rows);
}

// The same with other lines of the find. Under the first format a subscriber is never off: such a
// line of a find has a form.
#[test]
fn worked_finds(rt: HostRuntime) {
    let rows = "report\nmove 0 1 3 2 weight 1 first 0 commit 3 last 5\n\
        find 1 3 0 at 3 number 1 level 0 weight 5 first 6 last 8\norder 0 0 0 0 0 0 1 1 1\n\
        end 9\n>8 no 2 place\n|\
        report\nmove 0 1 3 2 weight 1 first 0 commit 3 last 5\n\
        find 1 3 0 at 2 number 1 level 0 weight 144 first 6 last 8\norder 0 0 0 0 0 0 1 1 1\n\
        end 9\n>0 yes\n|\
        report\nmove 0 1 3 2 weight 1 first 0 commit 3 last 5\n\
        find 1 3 0 at 2 number 1 level 0 weight 145 first 6 last 8\norder 0 0 0 0 0 0 1 1 1\n\
        end 9\n>8 no 2 weight\n|\
        report\nmove 0 1 3 2 weight 1 first 0 commit 3 last 5\n\
        again 1 3 0 none weight 5 first 6 last 8\norder 0 0 0 0 0 0 1 1 1\nend 9\n\
        >8 no 2 again\n|\
        report\nmove 0 1 3 2 weight 1 first 0 commit 3 last 5\n\
        off 1 3 0 at 2 number 1 level 0 weight 5 first 6 last 8\n\
        order 0 0 0 0 0 0 1 1 1\nend 9\n>8 no 2 place\n|";
    play_rows(&rt, rt.alloc(), "check", "4096", CALLS, rows);
}

// Where a text is cut, and input parts that are refused.
#[test]
fn cuts(rt: HostRuntime) {
    let whole = ">1 refused 0 unfinished\n|\
        report\nend 0\n>1 refused 0 unfinished\n|";
    play_rows(&rt, rt.alloc(), "check", "1 7 4096", "", whole);
    let rows = ">8 no 1 form\n|\
        \x20\treport \r\nend 0\n>0 yes\n|\
        report\r\r\nend 0\n>1 refused 9 form\n|\
        report\nreport\n>8 no 1 form\n|\
        report>8 no 1 form\n|\
        edge 0 1 1\nreport\nend 0\n>1 refused 9 form\n|";
    play_rows(&rt, rt.alloc(), "check", "1 7 4096", FOUR, rows);
}

// The input and its report, but for the line that a row changes.
fn changed(rt: &impl Abort, alloc: Global, row: &Row<'_>) -> Vec<u8> {
    let mut text = text_of(rt, alloc, INPUT, "report\n");
    for index in 0..REPORT.len() {
        let kept = index + 1 != row.number as usize;
        append(rt, &mut text, if kept { REPORT[index] } else { row.input });
    }
    text
}

fn play_changes<R: Threads + Sync + Abort>(rt: &R, alloc: Global, changes: &str) {
    for place in 0..rows_in(changes) {
        let row = row_of(rt, changes, place);
        let text = changed(rt, alloc, &row);
        let status = if row.text == "yes\n" { 0 } else { 8 };
        play_words(rt, alloc, place, "check", "4096", &text, status, row.text);
    }
}

#[test]
fn broken_forms(rt: HostRuntime) {
    play_changes(&rt, rt.alloc(), FORMS);
}

#[test]
fn broken_tickets(rt: HostRuntime) {
    play_changes(&rt, rt.alloc(), TICKETS);
}

#[test]
fn broken_answers(rt: HostRuntime) {
    play_changes(&rt, rt.alloc(), ANSWERS);
}

// An input part may have 4,194,304 bytes and no more.
#[test]
fn longest_part(rt: HostRuntime) {
    let rows = "^#*4194304>1 refused 1 unfinished\n|\
        ^#*4194305>6 |";
    play_rows(&rt, rt.alloc(), "check", "100000", "", rows);
}

// All of it may have 67,108,864 bytes and no more: an empty input part, and a line of so many.
#[test]
fn longest_text(rt: HostRuntime) {
    let rows = "^xxxxxxxxxxxxxxxxxxxxxxxxxxxxxxxxxxxxxxxxxxxxxxxxxxxxxxxxxxxxxxxx*1048575^\
        xxxxxxxxxxxxxxxxxxxxxxxxxxxxxxxxxxxxxxxxxxxxxxxxxxxxxxxxx>1 refused 0 unfinished\n|\
        ^xxxxxxxxxxxxxxxxxxxxxxxxxxxxxxxxxxxxxxxxxxxxxxxxxxxxxxxxxxxxxxxx*1048575^\
        xxxxxxxxxxxxxxxxxxxxxxxxxxxxxxxxxxxxxxxxxxxxxxxxxxxxxxxxxx>6 |";
    play_rows(&rt, rt.alloc(), "check", "1000000", "report\n", rows);
}

// Each of the 77 reads of three bytes fails, and the one that tells the end. Two writes of at most
// three bytes take the verdict.
#[test]
fn each_call_fails(rt: HostRuntime) {
    let input = text_of(&rt, rt.alloc(), CALLS, REPORTED);
    let run = run_of("check", &input, 3);
    each_read_fails(&rt, rt.alloc(), &run, 78, 80, b"yes\n");
    each_write_fails(&rt, rt.alloc(), &run, 3, b"yes\n");
}
