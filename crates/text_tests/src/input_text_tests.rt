//! Texts of inputs that were read, and of inputs that loads make.
ghost use Rattle.std.specs.Prelude.{◌≤◌, length};

use crate::loads::{load_of, load_text_of};
use crate::playing::{Table, play};
use crate::sameness::same_text;
use input_text::{InputLines, Listing, input_text};
use make_load::{Workload, make_input};
use net_reader::Input;
use std::alloc::Global;
use std::process::Abort;
use std::test::Fail;
use test_networks::input_of;

const MOST_SCRIPTS: usize = 128;

// The text of an input, which has few scripts.
fn text_of(rt: &impl Abort, alloc: Global, input: &Input) -> Vec<u8> {
    assert!(rt; input.scripts.len() <= MOST_SCRIPTS);
    input_text(alloc, input).expect(rt, "memory")
}

/// What is read of a text is to be written as this.
pub fn is_written(
    rt: &impl Abort,
    alloc: Global,
    place: usize,
    text: &[u8],
    wanted: &[u8],
) -> Result<(), Fail> {
    let input = input_of(alloc, text)?;
    same_text(rt, place, &text_of(rt, alloc, &input), wanted);
    Ok(())
}

// Each row is a text, and what is written of it.
#[test]
fn texts_of_inputs(rt: HostRuntime) -> Result<(), Fail> {
    let rows = "track 01\r\n# a comment\n\nnodes 2\nk 2\n  edge 0\t1 005 \nsub 1\ncallers 1\n\
        move 0 0\nfind 1 0 0\nmove 0 1\norder 0 1\norder 1>\
        track 1\nnodes 2\nk 2\nedge 0 1 5\nsub 1\ncallers 1\nmove 0 0\nmove 0 1\nfind 1 0 0\n\
        order 0 1 1\n|\
        track 2\nnodes 1\nk 8\nedge 0 0 1048576\nsub 0\nsub 0\ncallers 0\noff 1\noff 0\non 1>\
        track 2\nnodes 1\nk 8\nedge 0 0 1048576\nsub 0\nsub 0\ncallers 0\noff 0\noff 1\n\
        on 1\n|";
    play(&rt, rt.alloc(), Table::Written, rows)
}

// The text of the input that a load makes.
fn made_text(rt: &impl Abort, alloc: Global, words: &str) -> Vec<u8> {
    let made = make_input(alloc, load_of(rt, alloc, words)).expect(rt, "memory");
    text_of(rt, alloc, &made)
}

/// The text of a load is to be read as the input that it makes.
pub fn is_read_again(
    rt: &impl Abort,
    alloc: Global,
    place: usize,
    words: &str,
) -> Result<(), Fail> {
    let made = made_text(rt, alloc, words);
    is_written(rt, alloc, place, &load_text_of(rt, alloc, words), &made)
}

#[test]
fn loads_are_read(rt: HostRuntime) -> Result<(), Fail> {
    let rows = "make 42 2 2 1 0 1|make 0 1 1 1 0 0|make 3 4 3 2 2 9|make 7 1024 3 64 64 16384|\
        make 5 257 2 1 0 1|make 6 256 1 1 64 8192|";
    play(&rt, rt.alloc(), Table::ReadAgain, rows)
}

// Appends the lines that come. One for which there is no room is left out, and then missed.
fn append_lines(lines: &mut InputLines<'_>, text: &mut Vec<u8>) {
    'lines: while let Some(line) = lines.next_line() {
        let _ = text.extend_from_slice(line);
    }
}

// The lines of a listing, one behind another.
fn joined(rt: &impl Abort, alloc: Global, listing: Listing<'_>) -> Vec<u8> {
    let mut lines = InputLines::new(alloc, listing).expect(rt, "memory");
    let mut text = Vec::new(alloc);
    append_lines(&mut lines, &mut text);
    text
}

// The lines of a load's listing.
fn lines_of(rt: &impl Abort, alloc: Global, words: &str) -> Vec<u8> {
    let workload = Workload::new(alloc, load_of(rt, alloc, words)).expect(rt, "memory");
    joined(rt, alloc, workload.listing())
}

#[test]
fn lines_of_a_load(rt: HostRuntime) {
    let words = "make 3 4 3 2 2 9";
    let text = lines_of(&rt, rt.alloc(), words);
    same_text(&rt, 0, &text, &load_text_of(&rt, rt.alloc(), words));
}
