//! The text of an input, line by line.
ghost use Rattle.std.specs.Prelude.{◌≡◌, ◌⊎◌, ◌≤◌, ◌++◌, ◌∷◌, [], length, drop, true, false, IfOk, IfSome, IfNone};
ghost use types.Logic.{sem};
ghost use mir.Syntax.{named};
ghost use Rattle.std.specs.Io.BufRead.{Rests};
ghost use Rattle.input_text.specs.contracts.lines.InputLines.{the_row};
ghost use Rattle.input_text.specs.Listing.{call_line, call_lines, edge_line, input_lines, line_of, listing_text as text_of_listing, network_lines};
ghost use Rattle.input_text.specs.Written.{lines_left, seen_listing};

use crate::listing::{ActorCall, Listing};
use net_graph::Edge;
use net_reader::Call;
use std::alloc::{AllocError, Global};
use std::marker::Model;
use text_line::{Line, write_next_order};

// Numbers below this are written fast: those of all nodes, and of all actors, are among them.
const FAST_NUMBERS: usize = 1_024;

/// The line that is next, where one of the first few is, or else what has one line for each part.
#[derive(Clone, Copy, Debug)]
pub(crate) enum NextLine {
    Format,
    Nodes,
    K,
    Network,
    Calls,
}

// A line: its word, and its numbers.
fn write_line(line: &mut Line, word: &str, numbers: &[u32])
    requires empty { line.old ≡ [] }
    requires short { length word.now ≤ 16 }
    requires few { length numbers.now ≤ 64 }
    ensures { line.new ≡ line_of word.now numbers.now }
{
    line.word(word);
    line.numbers(numbers);
    line.word("\n");
}

// The line of an edge.
fn write_edge(line: &mut Line, edge: &Edge)
    requires { line.old ≡ [] }
    ensures { line.new ≡ edge_line edge.now }
{
    line.word("edge");
    line.numbers(&[edge.a, edge.b]);
    line.number(edge.weight);
    line.word("\n");
}

// The line of a call.
fn write_call(line: &mut Line, call: &ActorCall)
    requires { line.old ≡ [] }
    ensures { line.new ≡ call_line call.now }
{
    let actor = call.actor;
    match call.call {
        Call::Move { to } => write_line(line, "move", &[actor, to]),
        Call::Find { from, sub } => write_line(line, "find", &[actor, from, sub]),
        Call::Off => write_line(line, "off", &[actor]),
        Call::On => write_line(line, "on", &[actor]),
    }
}

// The first line of the network or of its actors that is left, and what comes next.
fn write_network(line: &mut Line, left: &mut Listing) -> NextLine
    requires { line.old ≡ [] }
    ensures { network_lines (seen_listing left.old)
        ≡ line.new ∷ lines_left result (seen_listing left.new) }
{
    if let [edge, edges @ ..] = left.edges {
        write_edge(line, edge);
        left.edges = edges;
        NextLine::Network
    } else if let [home, homes @ ..] = left.homes {
        write_line(line, "sub", &[*home]);
        left.homes = homes;
        NextLine::Network
    } else {
        write_line(line, "callers", &[left.callers]);
        NextLine::Calls
    }
}

// The first line of a call or of the order that is left, if there is one.
fn write_calls(line: &mut Line, left: &mut Listing) -> bool
    requires { line.old ≡ [] }
    ensures line { result ≡ true → call_lines (seen_listing left.old)
        ≡ line.new ∷ call_lines (seen_listing left.new) }
    ensures none { result ≡ false → (call_lines (seen_listing left.old) ≡ [])
        × (call_lines (seen_listing left.new) ≡ []) }
    ensures blank { result ≡ false → line.new ≡ [] }
{
    if let [call, calls @ ..] = left.calls {
        write_call(line, call);
        left.calls = calls;
    } else if !left.order.is_empty() {
        left.order = write_next_order(line, left.order);
    } else {
        return false;
    }
    true
}

/// The lines of an input's text, one after another. It takes its memory at once, and keeps one
/// line.
#[derive(Debug, Drop)]
pub struct InputLines<'a> {
    next: NextLine,
    left: Listing<'a>,
    line: Line,
}

impl<'a> Model for InputLines<'a> {
    ghost use Rattle.input_text.specs.Written.{ListingState, lines_left, seen_listing};

    ghost Value = { ListingState };

    ghost view = { λ l. record { line = l.line; left = lines_left l.next (seen_listing l.left) } };
}

impl<'a> InputLines<'a> {
    /// All lines of a listing.
    pub fn new(alloc: Global, listing: Listing<'a>) -> Result<InputLines<'a>, AllocError>
        ensures lines { IfOk result
            (λ lines. lines.left ≡ input_lines (seen_listing listing.entry)) }
        ensures blank { IfOk result (λ lines. lines.line ≡ []) }
    {
        Ok(InputLines {
            next: NextLine::Format,
            left: listing,
            line: Line::new(alloc, FAST_NUMBERS)?,
        })
    }

    /// Makes the next line, and answers whether there was one left. It can't fail for want of
    /// memory.
    pub fn advance(&mut self) -> bool
        ensures line { result ≡ true → self.old.left ≡ self.new.line ∷ self.new.left }
        ensures none { result ≡ false → (self.old.left ≡ []) × (self.new.left ≡ []) }
        ensures blank { result ≡ false → self.new.line ≡ [] }
    {
        self.line.clear();
        match self.next {
            NextLine::Format => {
                write_line(&mut self.line, "track", &[self.left.format]);
                self.next = NextLine::Nodes;
            }
            NextLine::Nodes => {
                write_line(&mut self.line, "nodes", &[self.left.nodes]);
                self.next = NextLine::K;
            }
            NextLine::K => {
                write_line(&mut self.line, "k", &[self.left.k]);
                self.next = NextLine::Network;
            }
            NextLine::Network => self.next = write_network(&mut self.line, &mut self.left),
            NextLine::Calls => return write_calls(&mut self.line, &mut self.left),
        }
        true
    }

    /// The line that `advance` has just made, with its line feed. Before the first `advance`, and
    /// after one that answered false, it is empty.
    pub fn line(&self) -> &[u8]
        ensures { result.now ≡ self.now.line }
    {
        self.line.bytes()
    }

    /// The next line with its line feed, and None where none is left. It can't fail for want of
    /// memory.
    pub fn next_line(&mut self) -> Option<&[u8]>
        ensures line { IfSome result (λ line. self.old.left ≡ line.now ∷ drop 1 self.old.left) }
        ensures none { IfNone result (self.old.left ≡ []) }

        // Once the borrow of the answer ends, the lines that are left are those after it, and the
        // line is that of the answer, or empty where there was none left.
        ensures* after { sem 𝓛 (Rests (the_row (record { mir = named 1; lft = [] })) self.entry
            (λ new. (self.old.left ≡ new.line ∷ new.left)
            ⊎ ((self.old.left ≡ []) × (new.left ≡ []) × (new.line ≡ [])))) }
    {
        if self.advance() {
            Some(self.line())
        } else {
            None
        }
    }
}

/// The text of a listing.
pub fn listing_text(alloc: Global, listing: Listing) -> Result<Vec<u8>, AllocError>
    ensures { IfOk result (λ text. text.items ≡ text_of_listing (seen_listing listing.entry)) }
{
    let mut lines = InputLines::new(alloc, listing)?;
    let mut text = Vec::new(alloc);
    'lines: while let Some(line) = lines.next_line() {
        text.extend_from_slice(line)?;
    }
    Ok(text)
}
