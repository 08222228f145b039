//! The text of an input, out of its JSON.
ghost use Rattle.std.specs.Prelude.{◌≡◌, ◌⊎◌, ◌≤◌, ◌++◌, ℕ, List, length, [], ◌∷◌, option_map, Some, None, Err, OnOk, IfOk, IfErr, IsUtf8};
ghost use Rattle.std.specs.List.{concat};
ghost use Rattle.input_text.specs.Listing.{line_of, listing_text};
ghost use Rattle.serde_json.specs.Read.{read};
ghost use Rattle.serde_json.specs.View.{items_view, view};
ghost use Rattle.text_line.specs.OrderLines.{order_lines};
ghost use Rattle.json_form.specs.declared.fault.JsonFault.TheVariants as faults;
ghost use Rattle.json_form.specs.TextOfJson.{IsJson, IsJsonText, IsNoJson};
ghost use Rattle.json_form.specs.Left.{HasLines, HasNone, line_in, seen_values};
ghost use Rattle.json_form.specs.Taking.{each_in, list_in, listing_of_values, number_in};

use crate::fault::JsonFault;
use crate::lists::push_line;
use crate::rows::{Kind, write_item, write_number, write_row};
use crate::values::{InputValues, take_values};
use serde_json::Value;
use std::alloc::Global;
use text_line::Line;

// Numbers below this are written fast: those of all nodes, and of all actors, are among them.
const FAST_NUMBERS: usize = 1_024;

// How many numbers a line of the order has at most.
const MOST_ON_A_LINE: usize = 64;

// The value that bytes are.
fn read_value(alloc: Global, bytes: &[u8]) -> Result<Value, JsonFault>
    ensures ok { IfOk result (λ value. IsJson bytes.now (view value)) }
    ensures err { IfErr result (λ fault. (fault ≡ faults.OutOfMemory)
        ⊎ ((fault ≡ faults.Json) × IsNoJson bytes.now)) }
{
    match Value::from_slice(alloc, bytes) {
        Ok(value) => Ok(value),
        Err(error) => Err(if error.is_memory() {
            JsonFault::OutOfMemory
        } else {
            JsonFault::Json
        }),
    }
}

// The line of a number after the text, where the value is one.
fn push_number(
    text: &mut Vec<u8>,
    line: &mut Line,
    word: &str,
    value: &Value,
) -> Result<(), JsonFault>
    requires empty { line.old ≡ [] }
    requires short { length word.now ≤ 16 }
    ensures ok { OnOk result ((n : ℕ) × (number_in (view value.now) ≡ Some n)
        × (text.new.items ≡ text.old.items ++ line_of word.now (n ∷ []))) }
    ensures err { IfErr result (λ fault. (fault ≡ faults.OutOfMemory)
        ⊎ ((fault ≡ faults.Shape) × (number_in (view value.now) ≡ None))) }
    ensures clear { OnOk result (line.new ≡ []) }
{
    if !write_number(line, word, value) {
        return Err(JsonFault::Shape);
    }
    push_line(text, line)?;
    Ok(())
}

// The lines of items after the text, where each has its shape.
fn push_each(
    text: &mut Vec<u8>,
    line: &mut Line,
    kind: Kind,
    items: &[Value],
) -> Result<(), JsonFault>
    requires { line.old ≡ [] }
    ensures ok { OnOk result ((pieces : List (List ℕ))
        × (each_in (line_in kind) (items_view items.now) ≡ Some pieces)
        × (text.new.items ≡ text.old.items ++ concat pieces)) }
    ensures err { IfErr result (λ fault. (fault ≡ faults.OutOfMemory)
        ⊎ ((fault ≡ faults.Shape) × (each_in (line_in kind) (items_view items.now) ≡ None))) }
    ensures clear { OnOk result (line.new ≡ []) }
{
    for item in items {
        if !write_item(line, kind, item) {
            return Err(JsonFault::Shape);
        }
        push_line(text, line)?;
    }
    Ok(())
}

// The lines of the items of a list after the text, where each has its shape.
fn push_items(
    text: &mut Vec<u8>,
    line: &mut Line,
    kind: Kind,
    value: &Value,
) -> Result<(), JsonFault>
    requires { line.old ≡ [] }
    ensures ok { OnOk result ((lines : List ℕ) × HasLines kind (view value.now) lines
        × (text.new.items ≡ text.old.items ++ lines)) }
    ensures err { IfErr result (λ fault. (fault ≡ faults.OutOfMemory)
        ⊎ ((fault ≡ faults.Shape) × HasNone kind (view value.now))) }
    ensures clear { OnOk result (line.new ≡ []) }
{
    match value.as_array() {
        Some(items) => push_each(text, line, kind, items),
        None => Err(JsonFault::Shape),
    }
}

// The lines of an order after the text, where the items are numbers.
fn push_lines(text: &mut Vec<u8>, line: &mut Line, items: &[Value]) -> Result<(), JsonFault>
    requires { line.old ≡ [] }
    ensures ok { OnOk result ((ns : List ℕ)
        × (each_in number_in (items_view items.now) ≡ Some ns)
        × (text.new.items ≡ text.old.items ++ concat (order_lines ns))) }
    ensures err { IfErr result (λ fault. (fault ≡ faults.OutOfMemory)
        ⊎ ((fault ≡ faults.Shape) × (each_in number_in (items_view items.now) ≡ None))) }
{
    let mut left = items;
    'lines: while !left.is_empty() {
        let (now, later) = left.split_at(left.len().min(MOST_ON_A_LINE));
        if !write_row(line, "order", now, now.len()) {
            return Err(JsonFault::Shape);
        }
        push_line(text, line)?;
        left = later;
    }
    Ok(())
}

// The lines of the order after the text, where the value is a list of numbers.
fn push_order(text: &mut Vec<u8>, line: &mut Line, value: &Value) -> Result<(), JsonFault>
    requires { line.old ≡ [] }
    ensures ok { OnOk result ((ns : List ℕ) × (list_in number_in (view value.now) ≡ Some ns)
        × (text.new.items ≡ text.old.items ++ concat (order_lines ns))) }
    ensures err { IfErr result (λ fault. (fault ≡ faults.OutOfMemory)
        ⊎ ((fault ≡ faults.Shape) × (list_in number_in (view value.now) ≡ None))) }
{
    match value.as_array() {
        Some(items) => push_lines(text, line, items),
        None => Err(JsonFault::Shape),
    }
}

// The lines of the listing that the values are after the text, where they have the shape.
fn push_listing(text: &mut Vec<u8>, line: &mut Line, values: &InputValues) -> Result<(), JsonFault>
    requires { line.old ≡ [] }
    ensures ok { OnOk result ((lines : List ℕ)
        × (option_map listing_text (listing_of_values (seen_values values.now)) ≡ Some lines)
        × (text.new.items ≡ text.old.items ++ lines)) }
    ensures err { IfErr result (λ fault. (fault ≡ faults.OutOfMemory)
        ⊎ ((fault ≡ faults.Shape) × (listing_of_values (seen_values values.now) ≡ None))) }
{
    push_number(text, line, "track", &values.last.track)?;
    push_number(text, line, "nodes", &values.last.nodes)?;
    push_number(text, line, "k", &values.first.k)?;
    push_items(text, line, Kind::Edge, &values.first.edges)?;
    push_items(text, line, Kind::Sub, &values.last.subs)?;
    push_number(text, line, "callers", &values.first.callers)?;
    push_items(text, line, Kind::Call, &values.first.calls)?;
    push_order(text, line, &values.last.order)
}

// The text of the listing that the values are, where they have the shape.
fn text_of_values(alloc: Global, values: &InputValues) -> Result<Vec<u8>, JsonFault>
    ensures ok { IfOk result (λ text. option_map listing_text
        (listing_of_values (seen_values values.now)) ≡ Some text.items) }
    ensures err { IfErr result (λ fault. (fault ≡ faults.OutOfMemory)
        ⊎ ((fault ≡ faults.Shape) × (listing_of_values (seen_values values.now) ≡ None))) }
{
    let mut line = Line::new(alloc, FAST_NUMBERS)?;
    let mut text = Vec::new(alloc);
    push_listing(&mut text, &mut line, values)?;
    Ok(text)
}

/// The text of the input that bytes tell as JSON, calls as they stand, or why they tell none.
/// docs/FORMATS.md ("JSON") tells the shape, and what is read as JSON. Whether the text says an
/// input is for [`net_reader`] to see.
pub fn json_text(alloc: Global, bytes: &[u8]) -> Result<Vec<u8>, JsonFault>
    ensures { IsJsonText bytes.now result }
{
    let value = read_value(alloc, bytes)?;
    match take_values(alloc, value) {
        Some(values) => text_of_values(alloc, &values),
        None => Err(JsonFault::Shape),
    }
}
