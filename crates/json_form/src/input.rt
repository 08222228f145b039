//! The JSON of an input.
ghost use Rattle.std.specs.Prelude.{◌≡◌, ◌≤◌, ◌++◌, [], length, IfOk, OnOk, codes, true};
ghost use Rattle.net_reader.specs.Seen.{seen_input};
ghost use Rattle.serde_json.specs.Written.{compact_text};
ghost use Rattle.json_form.specs.Inputs.{call_value, edge_value, input_json_of};
ghost use Rattle.json_form.specs.Left.{list_left, member_text, opening};
ghost use Rattle.json_form.specs.Values.{list_by, whole, wholes};

use crate::lists::{
    push_line, push_numbers, write_closing, write_opening, write_others, write_small,
};
use input_text::{ActorCall, calls_by_actor};
use net_graph::Edge;
use net_reader::{Call, Input};
use std::alloc::{AllocError, Global};
use text_line::Line;

// Numbers below this are written fast: those of all nodes, and of all actors, are among them.
const FAST_NUMBERS: usize = 1_024;

// An edge, after what stands before it.
fn write_edge(line: &mut Line, begun: bool, edge: &Edge)
    requires { line.old ≡ [] }
    ensures { line.new ≡ opening begun ++ compact_text (edge_value edge.now) }
{
    write_opening(line, begun);
    line.number_after(b'[', u64::from(edge.a));
    line.number_after(b',', u64::from(edge.b));
    line.number_after(b',', edge.weight);
    line.word("]");
}

// A row: its bracket and word, and its numbers.
fn write_row(line: &mut Line, word: &str, numbers: &[u32])
    requires begun { length line.old ≤ 1 }
    requires short { length word.now ≤ 16 }
    requires few { length numbers.now ≤ 8 }
    ensures { line.new ≡ line.old ++ (word.now ++ list_left true whole numbers.now) }
{
    line.word(word);
    write_others(line, numbers);
    line.word("]");
}

// A call, after what stands before it.
fn write_call(line: &mut Line, begun: bool, call: &ActorCall)
    requires { line.old ≡ [] }
    ensures { line.new ≡ opening begun ++ compact_text (call_value call.now) }
{
    write_opening(line, begun);
    let actor = call.actor;
    match call.call {
        Call::Move { to } => write_row(line, "[\"move\"", &[actor, to]),
        Call::Find { from, sub } => write_row(line, "[\"find\"", &[actor, from, sub]),
        Call::Off => write_row(line, "[\"off\"", &[actor]),
        Call::On => write_row(line, "[\"on\"", &[actor]),
    }
}

// The list of the edges.
fn push_edges(text: &mut Vec<u8>, line: &mut Line, edges: &[Edge]) -> Result<(), AllocError>
    requires { line.old ≡ [] }
    ensures text { OnOk result (text.new.items
        ≡ text.old.items ++ compact_text (list_by edge_value edges.now)) }
    ensures clear { OnOk result (line.new ≡ []) }
{
    let mut left = edges;
    let mut begun = false;
    'edges: while let [edge, others @ ..] = left {
        write_edge(line, begun, edge);
        push_line(text, line)?;
        left = others;
        begun = true;
    }
    write_closing(line, begun);
    push_line(text, line)
}

// The list of the calls.
fn push_calls(text: &mut Vec<u8>, line: &mut Line, calls: &[ActorCall]) -> Result<(), AllocError>
    requires { line.old ≡ [] }
    ensures text { OnOk result (text.new.items
        ≡ text.old.items ++ compact_text (list_by call_value calls.now)) }
    ensures clear { OnOk result (line.new ≡ []) }
{
    let mut left = calls;
    let mut begun = false;
    'calls: while let [call, others @ ..] = left {
        write_call(line, begun, call);
        push_line(text, line)?;
        left = others;
        begun = true;
    }
    write_closing(line, begun);
    push_line(text, line)
}

// The keys up to `calls`.
fn push_to_calls(
    text: &mut Vec<u8>,
    line: &mut Line,
    callers: u32,
    calls: &[ActorCall],
) -> Result<(), AllocError>
    requires { line.old ≡ [] }
    ensures text { OnOk result (text.new.items ≡ (text.old.items
        ++ (member_text (codes "{\"callers\"") callers ++ codes ",\"calls\":"))
        ++ compact_text (list_by call_value calls.now)) }
    ensures clear { OnOk result (line.new ≡ []) }
{
    write_small(line, "{\"callers\"", callers);
    line.word(",\"calls\":");
    push_line(text, line)?;
    push_calls(text, line, calls)
}

// The keys from `edges` to `order`.
fn push_to_order(text: &mut Vec<u8>, line: &mut Line, input: &Input) -> Result<(), AllocError>
    requires { line.old ≡ [] }
    ensures text { OnOk result (text.new.items ≡ (((text.old.items ++ codes ",\"edges\":")
        ++ compact_text (list_by edge_value input.now.edges.items))
        ++ ((member_text (codes ",\"k\"") input.now.k
        ++ member_text (codes ",\"nodes\"") input.now.nodes) ++ codes ",\"order\":"))
        ++ compact_text (wholes input.now.order.items)) }
    ensures clear { OnOk result (line.new ≡ []) }
{
    line.word(",\"edges\":");
    push_line(text, line)?;
    push_edges(text, line, &input.edges)?;
    write_small(line, ",\"k\"", input.k);
    write_small(line, ",\"nodes\"", input.nodes);
    line.word(",\"order\":");
    push_line(text, line)?;
    push_numbers(text, line, &input.order)
}

// The keys from `subs` on, and the end of the line.
fn push_to_end(text: &mut Vec<u8>, line: &mut Line, input: &Input) -> Result<(), AllocError>
    requires { line.old ≡ [] }
    ensures { OnOk result (text.new.items ≡ ((text.old.items ++ codes ",\"subs\":")
        ++ compact_text (wholes input.now.homes.items))
        ++ (member_text (codes ",\"track\"") input.now.format ++ codes "}\n")) }
{
    line.word(",\"subs\":");
    push_line(text, line)?;
    push_numbers(text, line, &input.homes)?;
    write_small(line, ",\"track\"", input.format);
    line.word("}\n");
    push_line(text, line)
}

/// The JSON of an input: one line, with its keys ascending and its calls by actor.
/// docs/FORMATS.md ("JSON") tells its shape.
pub fn input_json(alloc: Global, input: &Input) -> Result<Vec<u8>, AllocError>
    requires { length input.now.scripts.items ≤ 4294967295 }
    ensures { IfOk result (λ text. text.items ≡ input_json_of (seen_input input.now)) }
{
    let calls = calls_by_actor(alloc, &input.scripts)?;
    let mut line = Line::new(alloc, FAST_NUMBERS)?;
    let mut text = Vec::new(alloc);
    push_to_calls(&mut text, &mut line, input.callers, &calls)?;
    push_to_order(&mut text, &mut line, input)?;
    push_to_end(&mut text, &mut line, input)?;
    Ok(text)
}
