//! Tables that are one text each, since the prover takes a text at once, and a table of tuples
//! value by value. Behind each row stands `|`, and a row `ASKED>WANTED` has two parts.

/// How many rows a table has.
pub fn rows_in(table: &str) -> usize {
    table.split_terminator('|').count()
}

/// The parts of a row of a table; nothing is wanted of a row of one part.
pub fn row_of(table: &str, place: usize) -> (&str, &str) {
    let row = table.split_terminator('|').nth(place).unwrap_or("");
    row.split_once('>').unwrap_or((row, ""))
}
