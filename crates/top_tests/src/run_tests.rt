//! Whole runs over sources and sinks in memory: worked inputs with their texts, and inputs and
//! reports at the limits.
use crate::rows::play_rows;
use crate::runs::{FOUR, PIECES, ROOM, Ran, Run, has_ended, perform, play_words, run_of, text_of};
use crate::sameness::same_number;
use std::alloc::Global;
use std::process::Abort;
use std::thread::Threads;

const TWO_AT_A_NODE: &str =
    "track 1\nnodes 4\nk 2\nedge 0 1 1\nedge 1 2 1\nedge 2 3 1\nsub 3\nsub 3\ncallers 1\n";

const TWO_NODES: &str = "track 1\nnodes 2\nk 1\nedge 0 1 1\nsub 0\ncallers 1\nfind 1 0 0\n";

// Its plan has two clusters of both nodes.
const TWO_PHASES: &str =
    "plan nodes 2 k 1 levels 1 degree 2 stretch 56\nlevel 0 radius 1 clusters 2 phases 2\n\
        cluster 0 phase 0 leader 0 depth 1 members 0 1\n\
        cluster 1 phase 1 leader 1 depth 1 members 0 1\nhomes 0 1\nend\n";

const ONE_NODE: &str = "track 2\r\nnodes 1\r\nk 1\r\n# one node\r\nsub 0\r\ncallers 0\r\noff 0";

const ONE_CLUSTER: &str = "plan nodes 1 k 1 levels 1 degree 1 stretch 40\n\
        level 0 radius 1 clusters 1 phases 1\n\
        cluster 0 phase 0 leader 0 depth 0 members 0\nhomes 0\nend\n";

const APART: &str = "track 1\nnodes 3\nk 2\nedge 0 1 1\nsub 0\ncallers 0\n";

// An input is to be answered so by a word, however many bytes come in a call.
fn answers<R: Threads + Sync + Abort>(
    rt: &R,
    alloc: Global,
    place: usize,
    word: &str,
    input: &str,
    status: u32,
    text: &str,
) {
    play_words(
        rt,
        alloc,
        place,
        word,
        PIECES,
        input.as_bytes(),
        status,
        text,
    );
}

#[test]
fn worked_plans(rt: HostRuntime) {
    answers(&rt, rt.alloc(), 0, "cover", TWO_NODES, 0, TWO_PHASES);
    answers(&rt, rt.alloc(), 1, "cover", ONE_NODE, 0, ONE_CLUSTER);
    answers(&rt, rt.alloc(), 2, "cover", "", 1, "refused 0 unfinished\n");
    let refused = "track 1\nnodes 2\nnodes 2\n";
    answers(&rt, rt.alloc(), 3, "cover", refused, 1, "refused 3 form\n");
    answers(&rt, rt.alloc(), 4, "cover", APART, 1, "refused 6 apart 2\n");
}

// The plan of two nodes over mean covers: one cluster, where phases made two.
const TWO_NODES_MEAN: &str =
    "plan nodes 2 k 1 levels 1 degree 1 stretch 96\nlevel 0 radius 1 clusters 1 phases 1\n\
        cluster 0 phase 0 leader 0 depth 1 members 0 1\nhomes 0 0\nend\n";

const ONE_NODE_MEAN: &str = "plan nodes 1 k 1 levels 1 degree 1 stretch 96\n\
        level 0 radius 1 clusters 1 phases 1\n\
        cluster 0 phase 0 leader 0 depth 0 members 0\nhomes 0\nend\n";

const FOUR_MEAN: &str = "plan nodes 4 k 2 levels 3 degree 2 stretch 232\n\
        level 0 radius 1 clusters 2 phases 1\n\
        cluster 0 phase 0 leader 0 depth 3 members 0 1 2 3\n\
        cluster 1 phase 0 leader 3 depth 1 members 2 3\nhomes 0 0 0 1\n\
        level 1 radius 2 clusters 1 phases 1\n\
        cluster 0 phase 0 leader 0 depth 3 members 0 1 2 3\nhomes 0 0 0 0\n\
        level 2 radius 4 clusters 1 phases 1\n\
        cluster 0 phase 0 leader 0 depth 3 members 0 1 2 3\nhomes 0 0 0 0\nend\n";

#[test]
fn worked_mean_plans(rt: HostRuntime) {
    answers(&rt, rt.alloc(), 0, "meancover", FOUR, 0, FOUR_MEAN);
    answers(
        &rt,
        rt.alloc(),
        1,
        "meancover",
        TWO_NODES,
        0,
        TWO_NODES_MEAN,
    );
    answers(&rt, rt.alloc(), 2, "meancover", ONE_NODE, 0, ONE_NODE_MEAN);
    answers(
        &rt,
        rt.alloc(),
        3,
        "meancover",
        APART,
        1,
        "refused 6 apart 2\n",
    );
}

// Over mean covers a find on two nodes has one reader, where over phases it asks an empty one
// first.
#[test]
fn worked_mean_reports(rt: HostRuntime) {
    let far = "find 1 0 0\n>0 find 1 0 0 at 3 number 0 level 1 weight 3 first 0 last 3\n\
        order 1 1 1 1\nend 4\n|";
    play_rows(&rt, rt.alloc(), "meanreplay", PIECES, FOUR, far);
    let rows = "track 1\nnodes 2\nk 1\nedge 0 1 1\nsub 1\ncallers 1\nfind 1 0 0\n\
        >0 find 1 0 0 at 1 number 0 level 0 weight 1 first 0 last 2\norder 1 1 1\nend 3\n|\
        >1 refused 0 unfinished\n|";
    play_rows(&rt, rt.alloc(), "meanreplay", PIECES, "", rows);
}

// An input may have 4,194,304 bytes and no more.
#[test]
fn longest_input(rt: HostRuntime) {
    let rows = "^#*4194304>1 refused 1 unfinished\n|\
        ^#*4194305>6 |";
    play_rows(&rt, rt.alloc(), "cover", "100000", "", rows);
}

// Neither a read nor a write is made, which would fail.
fn is_refused(rt: &impl Abort, alloc: Global, place: usize, words: &str) {
    let run = Run {
        failing_read: 0,
        failing_write: 0,
        ..run_of(words, TWO_NODES.as_bytes(), ROOM)
    };
    has_ended(rt, place, &perform(rt, alloc, &run), 2, b"");
}

#[test]
fn words_that_are_refused(rt: HostRuntime) {
    is_refused(&rt, rt.alloc(), 0, "");
    is_refused(&rt, rt.alloc(), 1, "cover x");
    is_refused(&rt, rt.alloc(), 2, "--help");
    is_refused(&rt, rt.alloc(), 3, "Cover");
    is_refused(&rt, rt.alloc(), 4, "run");
}

// A move, and a find behind it.
#[test]
fn worked_report(rt: HostRuntime) {
    let rows = "move 0 2\nfind 1 3 0\n>0 move 0 1 3 2 weight 1 first 0 commit 3 last 5\n\
        find 1 3 0 at 2 number 1 level 0 weight 5 first 6 last 8\n\
        order 0 0 0 0 0 0 1 1 1\nend 9\n|";
    play_rows(&rt, rt.alloc(), "replay", PIECES, FOUR, rows);
}

// Who is where at the end: where a move led, and two subscribers at one node.
#[test]
fn worked_censuses(rt: HostRuntime) {
    let rows = "move 0 2\n>0 node 2 count 1 subs 0\nend 1\n|";
    play_rows(&rt, rt.alloc(), "census", "7", FOUR, rows);
    let rows = ">0 node 3 count 2 subs 0 1\nend 2\n|";
    play_rows(&rt, rt.alloc(), "census", "7", TWO_AT_A_NODE, rows);
}

// The report of an input, into a sink of so much room.
fn report_of(rt: &impl Abort, alloc: Global, before: &str, end: &str, room: usize) -> Ran {
    let input = text_of(rt, alloc, before, end);
    let run = Run {
        room,
        ..run_of("replay", &input, 100_000)
    };
    perform(rt, alloc, &run)
}

// The report of as many finds at one node as an input of the first format may have.
fn report_of_finds(rt: &impl Abort, alloc: Global, room: usize) -> Ran {
    let head = "track 1\nnodes 1\nk 1\nsub 0\ncallers 1\n";
    report_of(rt, alloc, head, "^find 1 0 0\n*8192", room)
}

// A run has this status, and its text these measures: its length, and how it ends.
fn is_long(rt: &impl Abort, ran: &Ran, status: u64, length: u64, end: &str) {
    same_number(rt, 0, u64::from(ran.status), status);
    same_number(rt, 1, ran.written.len() as u64, length);
    assert!(rt; ran.written.ends_with(end.as_bytes()));
}

// One call more than as many as an input may have.
#[test]
fn too_long_a_script(rt: HostRuntime) {
    let rows =
        "track 1\nnodes 1\nk 1\nsub 0\ncallers 1\n^find 1 0 0\n*8193>1 refused 8198 too-many\n|";
    play_rows(&rt, rt.alloc(), "replay", "100000", "", rows);
}

// The report of an input has this status, this length and this end.
fn ends_long(rt: &impl Abort, alloc: Global, input: &str, status: u64, length: u64, end: &str) {
    is_long(
        rt,
        &report_of(rt, alloc, "track 2\n", input, 1_300_000),
        status,
        length,
        end,
    );
}

// One script with as many calls as an input of format 2 may have, of each kind, and one call more.
// The lengths are those of the reports that scripts/directory.py writes: a line for each call, one
// for each 64 visits, and the end.
#[test]
fn longest_scripts(rt: HostRuntime) {
    let moves = "nodes 2\nk 1\nedge 0 1 1\nsub 0\ncallers 0\n^move 0 1\nmove 0 0\n*8192";
    ends_long(&rt, rt.alloc(), moves, 0, 1_204_981, "end 98304\n");
    let switches = "nodes 1\nk 1\nsub 0\ncallers 0\n^off 0\non 0\n*8192";
    ends_long(&rt, rt.alloc(), switches, 0, 621_220, "end 16384\n");
    let finds = "nodes 1\nk 1\nsub 0\ncallers 1\n^find 1 0 0\n*16384";
    ends_long(&rt, rt.alloc(), finds, 0, 1_077_054, "end 16384\n");
    let more = "nodes 1\nk 1\nsub 0\ncallers 1\n^find 1 0 0\n*16385";
    ends_long(&rt, rt.alloc(), more, 1, 23, "refused 16390 too-many\n");
}

// A sink that is full holds the beginning.
fn is_cut(rt: &impl Abort, alloc: Global, whole: &Ran) {
    let cut = report_of_finds(rt, alloc, 100_000);
    is_long(rt, &cut, 5, 100_000, "");
    assert!(rt; whole.written.starts_with(&cut.written));
}

// As many calls as an input may have, whose report is longer than what waits for the sink. The
// report has 8,192 lines of finds, 128 of orders, and the end.
#[test]
fn longest_report_whole_and_cut(rt: HostRuntime) {
    let whole = report_of_finds(&rt, rt.alloc(), 1_000_000);
    is_long(&rt, &whole, 0, 531_037, "end 8192\n");
    is_cut(&rt, rt.alloc(), &whole);
}
