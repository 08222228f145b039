//! The JSON of a report, part by part.
ghost use Rattle.std.specs.Prelude.{◌≡◌, ◌≢◌, ◌<◌, ◌≤◌, ◌+◌, ◌++◌, [], length, true, false, IfOk, None, OnOk, codes};
ghost use Rattle.std.specs.List.{concat};
ghost use Rattle.directory.specs.CallLines.{find_of, line_of_find};
ghost use Rattle.directory.specs.Outcomes.{result_of};
ghost use Rattle.directory.specs.declared.answers.Done.TheVariants.{Switched};
ghost use Rattle.json_form.specs.declared.report.NextPart.TheVariants as parts;
ghost use Rattle.json_form.specs.Left.{calls_left, done_pieces, kind_text, null_text, off_text, order_left, text_left, why_node_text, why_text};
ghost use Rattle.json_form.specs.Reports.{report_json_of};

use crate::lists::{write_closing, write_member, write_numbers, write_opening, write_small};
use directory::{Done, FindLine, Found, Outcome, Why};
use std::alloc::{AllocError, Global};
use std::fmt::{self, Debug, Formatter};
use std::marker::Model;
use text_line::Line;

// One field is made beforehand for so many visits, so that making them costs less than it saves.
const VISITS_A_FIELD: usize = 8;

// The level of a find that climbed, or null.
fn write_level(line: &mut Line, level: Option<u32>)
    requires { length line.old ≤ 1000 }
    ensures text { line.new ≡ line.old ++ null_text (codes ",\"level\"") level }
    ensures long { length line.new ≤ length line.old + 60 }
{
    match level {
        Some(level) => write_small(line, ",\"level\"", level),
        None => line.word(",\"level\":null"),
    }
}

// The node that had no mark, or null.
fn write_why_node(line: &mut Line, why: Why)
    requires { length line.old ≤ 1000 }
    ensures text { line.new ≡ line.old ++ why_node_text why }
    ensures long { length line.new ≤ length line.old + 60 }
{
    match why {
        Why::Empty { node } => write_small(line, ",\"node\"", node),
        Why::NoEntry | Why::Chased => line.word(",\"node\":null"),
    }
}

// Why a find has to be made again.
fn write_why(line: &mut Line, why: Why)
    requires { length line.old ≤ 1000 }
    ensures { line.new ≡ line.old ++ why_text why }
{
    line.word(match why {
        Why::Empty { .. } => ",\"why\":\"empty\"}",
        Why::NoEntry => ",\"why\":\"none\"}",
        Why::Chased => ",\"why\":\"chased\"}",
    });
}

// Whether a switch goes off.
fn write_off(line: &mut Line, off: bool)
    requires { length line.old ≤ 1000 }
    ensures text { line.new ≡ line.old ++ off_text off }
    ensures long { length line.new ≤ length line.old + 60 }
{
    line.word(if off {
        ",\"off\":true"
    } else {
        ",\"off\":false"
    });
}

// The kind of a find, after what stands before it.
fn kind_of(found: Found) -> &'static str
    ensures text { result.now ≡ kind_text found }
    ensures short { length result.now ≤ 20 }
{
    match found {
        Found::At { .. } => ",\"kind\":\"find\"",
        Found::Off { .. } => ",\"kind\":\"off\"",
        Found::Again { .. } => ",\"kind\":\"again\"",
    }
}

// What became of a find, after what stands before it.
fn write_find(line: &mut Line, find: FindLine)
    requires { length line.old ≤ 1 }
    ensures { line.new ≡ line.old ++ concat (done_pieces (line_of_find find)) }
{
    write_small(line, "{\"actor\"", find.actor);
    write_member(line, ",\"first\"", find.first);
    write_small(line, ",\"from\"", find.from);
    line.word(kind_of(find.found));
    write_member(line, ",\"last\"", find.last);
    match find.found {
        Found::At {
            node,
            number,
            level,
            weight,
        }
        | Found::Off {
            node,
            number,
            level,
            weight,
        } => {
            write_level(line, level);
            write_small(line, ",\"node\"", node);
            write_small(line, ",\"number\"", number);
            write_small(line, ",\"sub\"", find.sub);
            write_member(line, ",\"weight\"", weight);
            line.word("}");
        }
        Found::Again { why, weight } => {
            write_why_node(line, why);
            write_small(line, ",\"sub\"", find.sub);
            write_member(line, ",\"weight\"", weight);
            write_why(line, why);
        }
    }
}

// What became of a switch, after what stands before it.
fn write_switch(line: &mut Line, actor: u32, off: bool, node: u32, number: u32, ticket: u64)
    requires { length line.old ≤ 1 }
    ensures { line.new ≡ line.old ++ concat (done_pieces (Switched actor off node number ticket)) }
{
    write_small(line, "{\"actor\"", actor);
    line.word(",\"kind\":\"switch\"");
    write_small(line, ",\"node\"", node);
    write_small(line, ",\"number\"", number);
    write_off(line, off);
    write_member(line, ",\"ticket\"", ticket);
    line.word("}");
}

// What became of a move or of a switch, after what stands before it.
fn write_step(line: &mut Line, call: &Done)
    requires begun { length line.old ≤ 1 }
    requires step { find_of call.now ≡ None }
    ensures { line.new ≡ line.old ++ concat (done_pieces call.now) }
{
    match *call {
        Done::Moved {
            actor,
            number,
            from,
            to,
            weight,
            first,
            commit,
            last,
        } => {
            write_small(line, "{\"actor\"", actor);
            write_member(line, ",\"commit\"", commit);
            write_member(line, ",\"first\"", first);
            write_small(line, ",\"from\"", from);
            line.word(",\"kind\":\"move\"");
            write_member(line, ",\"last\"", last);
            write_small(line, ",\"number\"", number);
            write_small(line, ",\"to\"", to);
            write_member(line, ",\"weight\"", weight);
            line.word("}");
        }
        Done::Switched {
            actor,
            off,
            node,
            number,
            ticket,
        } => write_switch(line, actor, off, node, number, ticket),
        Done::Found { .. } | Done::Off { .. } | Done::Again { .. } => unreachable!(),
    }
}

// What became of a call, after what stands before it.
fn write_done(line: &mut Line, call: &Done)
    requires { length line.old ≤ 1 }
    ensures { line.new ≡ line.old ++ concat (done_pieces call.now) }
{
    match call.find() {
        Some(find) => write_find(line, find),
        None => write_step(line, call),
    }
}

// What comes next: the head, a call or the end of their list, some tickets or the end of theirs, or
// nothing. A list is begun where its bracket was written.
#[derive(Clone, Copy)]
enum NextPart {
    Open,
    Calls { begun: bool },
    Order { begun: bool },
    Done,
}

// The calls and the tickets that are left, and how many tickets there were.
#[derive(Clone, Copy)]
struct Left<'a> {
    calls: &'a [Done],
    order: &'a [u32],
    visits: u64,
}

// The next call, or the end of their list.
fn write_calls(line: &mut Line, left: &mut Left<'_>, begun: bool) -> NextPart
    requires { line.old ≡ [] }
    ensures text { calls_left begun left.old.calls.now left.old.order.now left.old.visits
        ≡ line.new ++ text_left result left.new }
    ensures some { 0 < length line.new }
{
    if let [call, calls @ ..] = left.calls {
        write_opening(line, begun);
        write_done(line, call);
        left.calls = calls;
        NextPart::Calls { begun: true }
    } else {
        write_closing(line, begun);
        line.word(",\"order\":");
        NextPart::Order { begun: false }
    }
}

// The next tickets, or the end of their list and of the report.
fn write_order(line: &mut Line, left: &mut Left<'_>, begun: bool) -> NextPart
    requires { line.old ≡ [] }
    ensures text { order_left begun left.old.order.now left.old.visits
        ≡ line.new ++ text_left result left.new }
    ensures some { 0 < length line.new }
{
    if left.order.is_empty() {
        write_closing(line, begun);
        write_member(line, ",\"visits\"", left.visits);
        line.word("}\n");
        NextPart::Done
    } else {
        let order = write_numbers(line, begun, left.order);
        left.order = order;
        NextPart::Order { begun: true }
    }
}

// One part more, and what comes next.
fn write_part(line: &mut Line, left: &mut Left<'_>, next: NextPart) -> NextPart
    requires empty { line.old ≡ [] }
    requires going { next ≢ parts.Done }
    ensures text { text_left next left.old ≡ line.new ++ text_left result left.new }
    ensures some { 0 < length line.new }
{
    match next {
        NextPart::Open => {
            line.word("{\"calls\":");
            NextPart::Calls { begun: false }
        }
        NextPart::Calls { begun } => write_calls(line, left, begun),
        NextPart::Order { begun } => write_order(line, left, begun),
        NextPart::Done => unreachable!(),
    }
}

/// The parts of a report's JSON, one after another. It takes its memory at once, and keeps one
/// part.
#[derive(Drop)]
pub struct ReportParts<'a> {
    next: NextPart,
    left: Left<'a>,
    part: Line,
}

impl<'a> Model for ReportParts<'a> {
    ghost use Rattle.json_form.specs.Left.{PartsState, text_left};

    ghost Value = { PartsState };

    ghost view = { λ p. record { part = p.part; left = text_left p.next p.left } };
}

impl<'a> Debug for ReportParts<'a> {
    fn fmt<W: fmt::Write>(&self, f: &mut Formatter<W>) -> fmt::Result {
        f.debug_struct("ReportParts").finish_non_exhaustive()
    }
}

impl<'a> ReportParts<'a> {
    /// All parts of the JSON of an outcome.
    pub fn new(alloc: Global, outcome: &'a Outcome) -> Result<ReportParts<'a>, AllocError>
        ensures text { IfOk result
            (λ parts. parts.left ≡ report_json_of (result_of outcome.now)) }
        ensures blank { IfOk result (λ parts. parts.part ≡ []) }
    {
        let visits = outcome.order.len();
        Ok(ReportParts {
            next: NextPart::Open,
            left: Left {
                calls: &outcome.calls,
                order: &outcome.order,
                visits: visits as u64,
            },
            part: Line::new(alloc, visits / VISITS_A_FIELD)?,
        })
    }

    /// Makes the next part, which isn't empty, and answers whether there was one left. It
    /// can't fail for want of memory.
    pub fn advance(&mut self) -> bool
        ensures part { result ≡ true → self.old.left ≡ self.new.part ++ self.new.left }
        ensures some { result ≡ true → 0 < length self.new.part }
        ensures none { result ≡ false → (self.old.left ≡ []) × (self.new.left ≡ []) }
        ensures blank { result ≡ false → self.new.part ≡ [] }
    {
        self.part.clear();
        if let NextPart::Done = self.next {
            return false;
        }
        self.next = write_part(&mut self.part, &mut self.left, self.next);
        true
    }

    /// The part that `advance` has just made. Before the first `advance`, and after one that
    /// answered false, it is empty.
    pub fn part(&self) -> &[u8]
        ensures { result.now ≡ self.now.part }
    {
        self.part.bytes()
    }
}

// The parts that are left, after a text.
fn push_parts(text: &mut Vec<u8>, parts: &mut ReportParts<'_>) -> Result<(), AllocError>
    ensures { OnOk result (text.new.items ≡ text.old.items ++ parts.old.left) }
{
    'parts: while parts.advance() {
        text.extend_from_slice(parts.part())?;
    }
    Ok(())
}

/// The JSON of the report of an outcome: one line, with its keys ascending.
pub fn report_json(alloc: Global, outcome: &Outcome) -> Result<Vec<u8>, AllocError>
    ensures { IfOk result (λ text. text.items ≡ report_json_of (result_of outcome.now)) }
{
    let mut parts = ReportParts::new(alloc, outcome)?;
    let mut text = Vec::new(alloc);
    push_parts(&mut text, &mut parts)?;
    Ok(text)
}
