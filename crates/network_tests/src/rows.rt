//! Tables that are one text: the prover takes a table of tuples apart, value by value, and a text
//! at once. `KIND NUMBERS: ROWS;` says what is asked, and each row `QUESTION = NUMBERS|` what
//! answers it. Where a number is wanted a word is a number too, always the same: `none` stands for
//! what isn't there, and `outside` for a fault.
ghost use Rattle.std.specs.Prelude.{◌≡◌, ◌≤◌};

use crate::sameness::same;
use std::alloc::Global;
use std::fmt::Debug;
use std::process::Abort;

/// The number of a word that is no number.
pub const WORD: u64 = u64::MAX;
/// The answer to what can't be asked: no row wants it.
const UNKNOWN: u64 = u64::MAX - 1;

/// What rows ask.
pub trait Asked {
    /// Tells what answers the question of this name, behind which these numbers stand.
    fn answer(&self, alloc: Global, name: &str, numbers: [u32; 5], told: &mut Vec<u64>);
}

/// Tells a number. One for which there is no memory is left out, and then missed.
pub fn tell(told: &mut Vec<u64>, number: u64) {
    let _ = told.push(number);
}

/// Tells these numbers.
pub fn tell_all(told: &mut Vec<u64>, numbers: &[u32]) {
    for number in numbers {
        tell(told, u64::from(*number));
    }
}

/// Tells a node that may not be there.
pub fn tell_node(told: &mut Vec<u64>, node: Option<u32>) {
    match node {
        Some(node) => tell(told, u64::from(node)),
        None => tell(told, WORD),
    }
}

/// Tells that this can't be asked.
pub fn tell_unknown(told: &mut Vec<u64>) {
    tell(told, UNKNOWN);
}

/// The first numbers of a text, and past them a number that nothing has.
pub fn five_numbers(text: &str) -> [u32; 5] {
    let mut numbers = [u32::MAX; 5];
    let mut place = 0;
    for word in text.split_ascii_whitespace() {
        if let Ok(number) = word.parse::<u32>() {
            if place < 5 {
                numbers[place] = number;
                place += 1;
            }
        }
    }
    numbers
}

/// A number of a subject, which is to be within these limits.
pub fn within(rt: &impl Abort, number: u32, low: u32, high: u32) -> u32
    ensures same { result ≡ number }
    ensures low { low ≤ result }
    ensures high { result ≤ high }
{
    assert!(rt; low <= number && number <= high);
    number
}

/// What stands before a mark, and what stands behind it.
pub fn halves(text: &str, mark: char) -> (&str, &str) {
    text.split_once(mark).unwrap_or((text, ""))
}

/// What a row asks: a name, and the numbers behind it.
pub fn question_of(row: &str) -> (&str, [u32; 5]) {
    let (question, _) = halves(row, '=');
    let (name, numbers) = halves(question, ' ');
    (name, five_numbers(numbers))
}

// The numbers that a text wants.
fn wanted_in(alloc: Global, text: &str) -> Vec<u64> {
    let mut wanted = Vec::new(alloc);
    for word in text.split_ascii_whitespace() {
        tell(&mut wanted, word.parse::<u64>().unwrap_or(WORD));
    }
    wanted
}

/// Stops where the answer to a row isn't what it wants.
pub fn check(rt: &impl Abort, alloc: Global, head: &str, row: &str, told: &[u64]) {
    let (_, wanted) = halves(row, '=');
    same(rt, head, row, told, &wanted_in(alloc, wanted));
}

/// Asks each row.
pub fn ask_rows<A: Asked>(rt: &impl Abort, alloc: Global, subject: &A, head: &str, rows: &str) {
    for row in rows.split_terminator('|') {
        let (name, numbers) = question_of(row);
        let mut told = Vec::new(alloc);
        subject.answer(alloc, name, numbers, &mut told);
        check(rt, alloc, head, row, &told);
    }
}

/// Asks what was made each row.
pub fn ask_made<A: Asked + Drop, E: Debug>(
    rt: &impl Abort,
    alloc: Global,
    made: Result<A, E>,
    head: &str,
    rows: &str,
) {
    ask_rows(rt, alloc, &made.expect(rt, head), head, rows);
}
