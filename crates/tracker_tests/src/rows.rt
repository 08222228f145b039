//! Tables that are one text each, since the prover takes a text at once, and a table of tuples
//! value by value. Behind each row stands `|`, and a row is `STEP>SEEN`: who does what, with
//! numbers, and how what is seen is shown.

/// How many rows a table has.
pub fn rows_in(table: &str) -> usize {
    table.split_terminator('|').count()
}

/// The step of a row of a table, and what is to be seen of it.
pub fn row_of(table: &str, place: usize) -> (&str, &str) {
    let row = table.split_terminator('|').nth(place).unwrap_or("");
    row.split_once('>').unwrap_or((row, ""))
}

/// The first word of a step, and what stands behind it.
pub fn first_word(step: &str) -> (&str, &str) {
    step.split_once(' ').unwrap_or((step, ""))
}

/// The number of a word; one that no test names, where the word is none.
pub fn number_of(word: &str) -> u32 {
    word.parse::<u32>().unwrap_or(u32::MAX)
}

/// The name of a step, and the numbers behind it.
pub fn step_of(step: &str) -> (&str, u32, u32) {
    let (name, numbers) = first_word(step);
    let (one, two) = first_word(numbers);
    (name, number_of(one), number_of(two))
}
