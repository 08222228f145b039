//! Tables that are one text each, since the prover takes a text at once, and a table of tuples
//! value by value. Behind each row stands `|`, and a row is `STEP>SEEN`: a name with its numbers,
//! and how what is seen is shown.
ghost use Rattle.std.specs.Prelude.{◌≡◌, ◌<◌, ◌≤◌};

use std::process::Abort;

/// How many rows a table has.
pub fn rows_in(table: &str) -> usize {
    table.split_terminator('|').count()
}

/// The step of a row of a table, and what is to be seen of it.
pub fn row_of(table: &str, place: usize) -> (&str, &str) {
    let row = table.split_terminator('|').nth(place).unwrap_or("");
    halves(row, '>')
}

/// What stands before a mark and what behind it; all and nothing, where there is no such mark.
pub fn halves(text: &str, mark: char) -> (&str, &str) {
    text.split_once(mark).unwrap_or((text, ""))
}

/// The number of a word; one that no test names, where the word is none.
pub fn number_of(word: Option<&str>) -> u32 {
    match word {
        Some(word) => word.parse::<u32>().unwrap_or(u32::MAX),
        None => u32::MAX,
    }
}

/// The name of a step and the numbers behind it.
pub fn step_of(step: &str) -> (&str, [u32; 4]) {
    let mut words = step.split_ascii_whitespace();
    let name = words.next().unwrap_or("");
    let numbers = [
        number_of(words.next()),
        number_of(words.next()),
        number_of(words.next()),
        number_of(words.next()),
    ];
    (name, numbers)
}

/// A number of a subject, which is to be at least the one and less than the other.
pub fn within(rt: &impl Abort, number: u32, least: u32, beyond: u32) -> u32
    ensures same { result ≡ number }
    ensures least { least ≤ result }
    ensures beyond { result < beyond }
{
    assert!(rt; least <= number && number < beyond);
    number
}
