//! Texts that are read: every cause, both sides of each limit, and every way of cutting.
ghost use Rattle.std.specs.Prelude.{◌≤◌, length};
ghost use Rattle.net_reader.specs.Reading.{most_bytes};

use crate::rows::{Row, row_of, rows_in};
use crate::runs::{FOUR, append, text_of};
use crate::sameness::{same_number, same_text};
use net_graph::{Arc, Graph};
use net_reader::{Call, Input, InputCause, MAX_BYTES, ReadRefusal, Reader, read_input};
use std::alloc::Global;
use std::io::Write;
use std::process::Abort;

const SWITCHING: &str =
    "track 2\nnodes 4\nk 2\nedge 0 1 1\nedge 1 2 1\nedge 2 3 1\nsub 3\ncallers 1\n";

// The input of a text that is read in pieces of one length.
fn read_in_pieces(alloc: Global, text: &[u8], most: usize) -> Result<Input, ReadRefusal>
    requires { length text.now ≤ most_bytes }
{
    let mut reader = Reader::new(alloc)?;
    let mut rest = text;
    'pieces: while !rest.is_empty() && most > 0 {
        let (piece, after) = rest.split_at(rest.len().min(most));
        reader.feed(piece)?;
        rest = after;
    }
    reader.end(alloc)
}

const SCRIPTS: &[u8] =
    b"track 1\r\n# a comment\n\nnodes 2\nk 2\n  edge 0\t1 005 \nsub 1\ncallers 1\nmove 0 0\n\
        find 1 0 0\nmove 0 1\norder 0 1\norder 1";

// The input has these scripts of two actors, and the order 0 1 1.
fn is_read(rt: &impl Abort, input: &Input) {
    let measures = [input.format, input.nodes, input.k, input.callers];
    assert!(rt; measures == [1, 2, 2, 1] && input.order.as_slice() == [0, 1, 1].as_slice());
    assert!(rt; input.scripts.len() == 2);
    have_scripts(rt, &input.scripts[0], &input.scripts[1]);
}

fn have_scripts(rt: &impl Abort, subscriber: &[Call], caller: &[Call]) {
    let moves = [Call::Move { to: 0 }, Call::Move { to: 1 }];
    let finds = [Call::Find { from: 0, sub: 0 }];
    assert!(rt; subscriber == moves.as_slice() && caller == finds.as_slice());
}

#[test]
fn two_scripts(rt: HostRuntime) {
    assert!(rt; SCRIPTS.len() <= MAX_BYTES);
    for most in [1, 7, 64, 1_000] {
        let input = read_in_pieces(rt.alloc(), SCRIPTS, most);
        is_read(&rt, &input.expect(&rt, "an input"));
    }
}

// The graph of a text's network.
fn graph_of(rt: &impl Abort, alloc: Global, text: &[u8]) -> Graph {
    assert!(rt; text.len() <= MAX_BYTES);
    let mut reader = Reader::new(alloc).expect(rt, "memory");
    reader.feed(text).expect(rt, "memory");
    let (_, graph) = reader.end_with_graph(alloc).expect(rt, "an input");
    graph
}

// A network of three nodes whose weights from node 2 are these.
fn has_weights(rt: &impl Abort, alloc: Global, graph: &Graph) {
    assert!(rt; graph.nodes() == 3);
    let known = [true, true, true];
    let weights = graph.weights_from(alloc, &known, 2).expect(rt, "memory");
    assert!(rt; weights.as_slice() == [Some(11), Some(7), Some(0)].as_slice());
}

#[test]
fn graph_of_the_network(rt: HostRuntime) {
    let text = b"track 1\nnodes 3\nk 1\nedge 2 1 7\nedge 0 1 5\nedge 0 1 4\nsub 0\ncallers 0\n";
    has_weights(&rt, rt.alloc(), &graph_of(&rt, rt.alloc(), text));
}

// Node 0 has an edge to each other node, of that one's number as its weight.
fn star(rt: &impl Abort, alloc: Global) -> Vec<u8> {
    let mut text = text_of(rt, alloc, "track 2\nnodes 1024\nk 2\n", "");
    for b in 1..1024 {
        write!(text, "edge 0 {b} {b}\n").expect(rt, "memory");
    }
    append(rt, &mut text, "sub 0\ncallers 0\n");
    text
}

// The network of the star.
fn is_star(rt: &impl Abort, graph: &Graph) {
    assert!(rt; graph.nodes() == 1024 && graph.arcs_of(0).len() == 1023);
    let back = Arc {
        target: 0,
        weight: 1023,
    };
    assert!(rt; graph.nodes() == 1024 && graph.arcs_of(1023) == [back].as_slice());
}

#[test]
fn graph_of_the_most_nodes(rt: HostRuntime) {
    is_star(&rt, &graph_of(&rt, rt.alloc(), &star(&rt, rt.alloc())));
}

// The name of a cause. The test of a torn network has node 2 apart.
fn name_of(cause: InputCause) -> &'static str {
    match cause {
        InputCause::Form => "form",
        InputCause::TooLarge => "too-large",
        InputCause::TooMany => "too-many",
        InputCause::Unknown => "unknown",
        InputCause::Switched => "switched",
        InputCause::Nowhere => "nowhere",
        InputCause::Unfinished => "unfinished",
        InputCause::Apart { node: 2 } => "apart",
        InputCause::Apart { .. } => "apart elsewhere",
    }
}

// The line and the cause of a text's fault, or `none`.
fn fault_of(rt: &impl Abort, alloc: Global, text: &[u8]) -> (u32, &'static str) {
    assert!(rt; text.len() <= MAX_BYTES);
    match read_input(alloc, text) {
        Ok(_) => (0, "none"),
        Err(ReadRefusal::Fault(fault)) => (fault.line, name_of(fault.cause)),
        Err(ReadRefusal::OutOfMemory) => (0, "out of memory"),
    }
}

// A text is refused as a row says, or isn't.
fn is_refused(rt: &impl Abort, alloc: Global, place: usize, text: &[u8], row: &Row<'_>) {
    let (line, name) = fault_of(rt, alloc, text);
    same_number(rt, place, u64::from(line), u64::from(row.number));
    same_text(rt, place, name.as_bytes(), row.text.as_bytes());
}

// Each row is the end of a text behind `before`, and the line and the cause of its fault, or
// `none`.
fn play_texts(rt: &impl Abort, alloc: Global, before: &str, rows: &str) {
    for place in 0..rows_in(rows) {
        let row = row_of(rt, rows, place);
        let text = text_of(rt, alloc, before, row.input);
        is_refused(rt, alloc, place, &text, &row);
    }
}

#[test]
fn refused_texts(rt: HostRuntime) {
    let rows = ">0 unfinished|\
        track 1\n\r>2 unfinished|\
        track 3>1 form|\
        track\01\n>1 form|\
        track 1\nnodes 2\nnodes 2\n>3 form|\
        track 1\nnodes 0\n>2 form|\
        track 1\nnodes 2\nk 2\ncallers 0\n>4 form|\
        track 1\nnodes 256\nk 8\n>3 unfinished|\
        track 1\nnodes 257\n>2 too-large|\
        track 2\nnodes 1024\nk 2\n>3 unfinished|\
        track 2\nnodes 1025\n>2 too-large|\
        track 2\nnodes 256\nk 1\n>3 unfinished|\
        track 2\nnodes 257\nk 1\n>3 too-large|\
        track 1\nnodes 2\nk 9\n>3 too-large|";
    play_texts(&rt, rt.alloc(), "", rows);
}

#[test]
fn refused_edges_and_callers(rt: HostRuntime) {
    let rows = "track 1\nnodes 2\nk 2\nedge 0 1 000000000001048576\n>4 unfinished|\
        track 1\nnodes 2\nk 2\nedge 0 1 1048577\n>4 too-large|\
        track 1\nnodes 2\nk 2\nedge 0 1 0000000000000000001\n>4 form|\
        track 1\nnodes 1\nk 1\nsub 0\ncallers 65\n>5 too-large|\
        track 1\nnodes 3\nk 2\nedge 0 1 1\nsub 0\ncallers 64\n# the end>7 apart|";
    play_texts(&rt, rt.alloc(), "", rows);
}

#[test]
fn refused_calls(rt: HostRuntime) {
    let rows = "off 0\n>9 form|\
        edge 9 9 1048577\n>9 form|\
        move 1 2\n>9 unknown|\
        find 0 2 0\n>9 unknown|\
        find 1 4 0\n>9 unknown|\
        order 2\n>9 unknown|\
        move 0 3\n>9 nowhere|\
        move 0 2\nmove 0 2\n>10 nowhere|";
    play_texts(&rt, rt.alloc(), FOUR, rows);
}

#[test]
fn refused_switches(rt: HostRuntime) {
    let rows = "off 0\nmove 0 2\n>10 switched|\
        on 0\n>9 switched|\
        off 1\n>9 unknown|\
        off 0\nmove 0 4\n>10 unknown|";
    play_texts(&rt, rt.alloc(), SWITCHING, rows);
}

// What stands on one side of a limit is an input, and one line more is refused.
#[test]
fn limits_of_lines(rt: HostRuntime) {
    let rows = "track 1\nnodes 1\nk 1\n^sub 0\n*64^callers 64\n>0 none|\
        track 1\nnodes 1\nk 1\n^sub 0\n*65^callers 64\n>68 too-many|\
        track 1\nnodes 1\nk 1\n^edge 0 0 1\n*32768^sub 0\ncallers 0\n>0 none|\
        track 1\nnodes 1\nk 1\n^edge 0 0 1\n*32769^sub 0\ncallers 0\n>32772 too-many|\
        track 1\nnodes 1\nk 1\nsub 0\ncallers 1\n^find 1 0 0\n*8192>0 none|\
        track 1\nnodes 1\nk 1\nsub 0\ncallers 1\n^find 1 0 0\n*8193>8198 too-many|\
        track 2\nnodes 1\nk 1\nsub 0\ncallers 1\n^find 1 0 0\n*16384>0 none|\
        track 2\nnodes 1\nk 1\nsub 0\ncallers 1\n^find 1 0 0\n*16385>16390 too-many|";
    play_texts(&rt, rt.alloc(), "", rows);
}

#[test]
fn lines_of_any_length(rt: HostRuntime) {
    let rows = "#^ word*200000>1 unfinished|\
        t^rack*200000>1 form|\
        track 1\nnodes 1\nk 1\nsub 0\ncallers 0\norder^ 0*64>0 none|\
        track 1\nnodes 1\nk 1\nsub 0\ncallers 0\norder^ 0*65>6 too-many|";
    play_texts(&rt, rt.alloc(), "", rows);
    play_texts(&rt, rt.alloc(), FOUR, "^# word\n*100000>0 none|");
}
