//! Lines of an input's text, out of values.
ghost use Rattle.std.specs.Prelude.{◌≡◌, ◌≢◌, ◌≤◌, ℕ, List, [], ◌∷◌, length, option_and_then, option_map, Some, None, true, false};
ghost use Rattle.input_text.specs.Listing.{call_line, edge_line, line_of};
ghost use Rattle.serde_json.specs.View.{items_view, view};
ghost use Rattle.json_form.specs.Left.{line_in};
ghost use Rattle.json_form.specs.Taking.{call_in, call_of, each_in, edge_in, number_in, within_most};

use serde_json::Value;
use text_line::Line;

// The greatest number that a field of an input can hold: eighteen digits.
const MOST_NUMBER: u64 = 999_999_999_999_999_999;

// What the items of a list are.
#[derive(Clone, Copy)]
pub(crate) enum Kind {
    Edge,
    Sub,
    Call,
}

// The number, where it is within its limit.
fn within_limit(number: u64) -> Option<u64>
    ensures { result ≡ within_most number }
{
    if number <= MOST_NUMBER {
        Some(number)
    } else {
        None
    }
}

// The number that a value is.
fn number_of(value: &Value) -> Option<u64>
    ensures { result ≡ number_in (view value.now) }
{
    value.as_u64().and_then(within_limit)
}

// The line of a word and the number that a value is, where it is one.
pub(crate) fn write_number(line: &mut Line, word: &str, value: &Value) -> bool
    requires empty { line.old ≡ [] }
    requires short { length word.now ≤ 16 }
    ensures yes { result ≡ true → (n : ℕ) × (number_in (view value.now) ≡ Some n)
        × (line.new ≡ line_of word.now (n ∷ [])) }
    ensures no { result ≡ false → number_in (view value.now) ≡ None }
{
    match number_of(value) {
        Some(number) => {
            line.label_number(word, number);
            line.word("\n");
            true
        }
        None => false,
    }
}

// The line of a word and the numbers that the items are, where they are so many numbers.
pub(crate) fn write_row(line: &mut Line, word: &str, items: &[Value], count: usize) -> bool
    requires empty { line.old ≡ [] }
    requires short { length word.now ≤ 16 }
    requires few { count ≤ 64 }
    ensures yes { result ≡ true → (ns : List ℕ)
        × (each_in number_in (items_view items.now) ≡ Some ns) × (length ns ≡ count)
        × (line.new ≡ line_of word.now ns) }
    ensures no { result ≡ false → (ns : List ℕ)
        → each_in number_in (items_view items.now) ≡ Some ns → length ns ≢ count }
{
    if items.len() != count {
        return false;
    }
    line.word(word);
    for item in items {
        match number_of(item) {
            Some(number) => line.number(number),
            None => return false,
        }
    }
    line.word("\n");
    true
}

// The line of an edge, where the value is one.
fn write_edge(line: &mut Line, value: &Value) -> bool
    requires { line.old ≡ [] }
    ensures yes { result ≡ true → option_map edge_line (edge_in (view value.now))
        ≡ Some line.new }
    ensures no { result ≡ false → edge_in (view value.now) ≡ None }
{
    match value.as_array() {
        Some(items) => write_row(line, "edge", items, 3),
        None => false,
    }
}

// The line of a call, where the value is one.
fn write_call(line: &mut Line, value: &Value) -> bool
    requires { line.old ≡ [] }
    ensures yes { result ≡ true → option_map call_line (call_in (view value.now))
        ≡ Some line.new }
    ensures no { result ≡ false → call_in (view value.now) ≡ None }
{
    let Some(items) = value.as_array() else {
        return false;
    };
    let [first, numbers @ ..] = items.as_slice() else {
        return false;
    };
    match first.as_str() {
        Some(word) => write_spoken(line, word, numbers),
        None => false,
    }
}

// The line of a call by its word, where the items are its numbers.
fn write_spoken(line: &mut Line, word: &str, numbers: &[Value]) -> bool
    requires { line.old ≡ [] }
    ensures yes { result ≡ true → option_map call_line
        (option_and_then (call_of word.now) (each_in number_in (items_view numbers.now)))
        ≡ Some line.new }
    ensures no { result ≡ false →
        option_and_then (call_of word.now) (each_in number_in (items_view numbers.now)) ≡ None }
{
    if word == "move" {
        write_row(line, "move", numbers, 2)
    } else if word == "find" {
        write_row(line, "find", numbers, 3)
    } else if word == "off" {
        write_row(line, "off", numbers, 1)
    } else if word == "on" {
        write_row(line, "on", numbers, 1)
    } else {
        false
    }
}

// The line of an item, where it has its shape.
pub(crate) fn write_item(line: &mut Line, kind: Kind, value: &Value) -> bool
    requires { line.old ≡ [] }
    ensures yes { result ≡ true → line_in kind (view value.now) ≡ Some line.new }
    ensures no { result ≡ false → line_in kind (view value.now) ≡ None }
{
    match kind {
        Kind::Edge => write_edge(line, value),
        Kind::Sub => write_number(line, "sub", value),
        Kind::Call => write_call(line, value),
    }
}
