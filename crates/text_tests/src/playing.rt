//! Tables whose rows are played one by one, whatever they ask.
use crate::checker_tests::{MOVED, SWITCHED};
use crate::input_text_tests::{is_read_again, is_written};
use crate::inputs::{Asked, tells};
use crate::load_tests::makes;
use crate::rows::{row_of, rows_in};
use crate::word_tests::reads;
use std::alloc::Global;
use std::process::Abort;
use std::test::Fail;

/// What the rows of a table ask.
#[derive(Clone, Copy)]
pub enum Table {
    /// How the input of a text is written.
    Written,
    /// Whether the text of a load is read as the input that it makes.
    ReadAgain,
    /// The text of a load.
    Made,
    /// What the words of a line say.
    Words,
    /// What the moves of a text's input cost.
    Costs,
    /// The verdict on a report of a move and a find.
    Moved,
    /// The verdict on a report of a switch off and on and a find.
    Switched,
}

fn play_row(
    rt: &impl Abort,
    alloc: Global,
    table: Table,
    place: usize,
    asked: &str,
    wanted: &str,
) -> Result<(), Fail> {
    match table {
        Table::Written => return is_written(rt, alloc, place, asked.as_bytes(), wanted.as_bytes()),
        Table::ReadAgain => return is_read_again(rt, alloc, place, asked),
        Table::Made => makes(rt, alloc, place, asked, wanted),
        Table::Words => reads(rt, alloc, place, asked, wanted),
        Table::Costs => return tells(rt, alloc, place, asked, Asked::Costs, wanted),
        Table::Moved => {
            return tells(rt, alloc, place, MOVED, Asked::Verdict(asked), wanted);
        }
        Table::Switched => {
            return tells(rt, alloc, place, SWITCHED, Asked::Verdict(asked), wanted);
        }
    }
    Ok(())
}

/// Plays the rows of a table.
pub fn play(rt: &impl Abort, alloc: Global, table: Table, rows: &str) -> Result<(), Fail> {
    for place in 0..rows_in(rows) {
        let (asked, wanted) = row_of(rows, place);
        play_row(rt, alloc, table, place, asked, wanted)?;
    }
    Ok(())
}
