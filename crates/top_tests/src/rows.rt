//! Tables that are one text each. The prover takes a table of tuples apart, value by value, and a
//! text at once.
use crate::runs::{play_words, text_of};
use std::alloc::Global;
use std::process::Abort;
use std::thread::Threads;

/// The parts of a row `INPUT>NUMBER TEXT`.
#[derive(Clone, Copy)]
pub(crate) struct Row<'a> {
    pub(crate) input: &'a str,
    pub(crate) number: u32,
    pub(crate) text: &'a str,
}

/// How many rows a table has. Behind each row stands `|`.
pub(crate) fn rows_in(table: &str) -> usize {
    table.split_terminator('|').count()
}

/// The row of a table that stands at this place.
pub(crate) fn row_of<'a>(rt: &impl Abort, table: &'a str, place: usize) -> Row<'a> {
    let row = table.split_terminator('|').nth(place).unwrap_or("");
    let (input, told) = row.split_once('>').expect(rt, "a row has an input");
    let (number, text) = told.split_once(' ').expect(rt, "a row has a number");
    let number = number.parse::<u32>().expect(rt, "a number");
    Row {
        input,
        number,
        text,
    }
}

/// Each row is the end of an input behind `before`, as `text_of` takes it, and the status and the
/// text that are wanted of each of these words, however many bytes come in a call.
pub(crate) fn play_rows<R: Threads + Sync + Abort>(
    rt: &R,
    alloc: Global,
    words: &str,
    pieces: &str,
    before: &str,
    rows: &str,
) {
    for place in 0..rows_in(rows) {
        let row = row_of(rt, rows, place);
        let input = text_of(rt, alloc, before, row.input);
        play_words(
            rt, alloc, place, words, pieces, &input, row.number, row.text,
        );
    }
}
