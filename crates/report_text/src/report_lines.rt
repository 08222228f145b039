//! The text of a report, line by line.
ghost use Rattle.std.specs.Prelude.{◌≡◌, ◌⊎◌, ◌≤◌, ◌+◌, ◌++◌, ◌∷◌, [], length, drop, true, false, IfOk, IfSome, IfNone, None, OnOk, codes};
ghost use types.Logic.{sem};
ghost use mir.Syntax.{named};
ghost use Rattle.std.specs.List.{concat};
ghost use Rattle.directory.specs.declared.answers.Done.TheVariants.{Switched};
ghost use Rattle.outside.specs.Texts.{◌then◌, field};
ghost use Rattle.std.specs.Io.BufRead.{Rests};
ghost use Rattle.report_text.specs.contracts.report_lines.Lines.{the_row};
ghost use Rattle.report_text.specs.ReportText.{call_line, place_fields, report_lines, report_of, visit_fields, why_field};
ghost use Rattle.report_text.specs.Written.{word_of};
ghost use Rattle.directory.specs.CallLines.{find_of, line_of_find};
ghost use Rattle.directory.specs.Outcomes.{result_of};

use directory::{Done, FindLine, Found, Outcome, Why};
use std::alloc::{AllocError, Global};
use std::marker::Model;
use text_line::{Line, write_next_order};

// One field is made beforehand for so many visits, so that making them costs less than it saves.
const VISITS_A_FIELD: usize = 8;

// Where a find answers.
fn write_place(line: &mut Line, node: u32, number: u32, level: Option<u32>)
    requires { length line.old ≤ 200 }
    ensures text { line.new ≡ line.old ++ place_fields node number level }
    ensures long { length line.new ≤ length line.old + 200 }
{
    line.label_number(" at", u64::from(node));
    line.label_number(" number", u64::from(number));
    match level {
        Some(level) => line.label_number(" level", u64::from(level)),
        None => line.word(" level -"),
    }
}

// What a find weighs, and its first ticket and its last.
fn write_visits(line: &mut Line, weight: u64, first: u64, last: u64)
    requires { length line.old ≤ 500 }
    ensures { line.new ≡ line.old ++ visit_fields weight first last }
{
    line.label_number(" weight", weight);
    line.label_number(" first", first);
    line.label_number(" last", last);
    line.word("\n");
}

// Why a find has to be made again.
fn write_why(line: &mut Line, why: Why)
    requires { length line.old ≤ 200 }
    ensures text { line.new ≡ line.old ++ why_field why }
    ensures long { length line.new ≤ length line.old + 50 }
{
    match why {
        Why::Empty { node } => line.label_number(" empty", u64::from(node)),
        Why::NoEntry => line.word(" none"),
        Why::Chased => line.word(" chased"),
    }
}

// The word that begins the line of a find.
fn word_of(found: Found) -> &'static str
    ensures text { result.now ≡ word_of found }
    ensures short { length result.now ≤ 5 }
{
    match found {
        Found::At { .. } => "find",
        Found::Off { .. } => "off",
        Found::Again { .. } => "again",
    }
}

// The line of a find.
fn write_find(line: &mut Line, find: FindLine)
    requires { line.old ≡ [] }
    ensures { line.new ≡ call_line (line_of_find find) }
{
    line.word(word_of(find.found));
    line.numbers(&[find.actor, find.from, find.sub]);
    match find.found {
        Found::At {
            node,
            number,
            level,
            weight,
        }
        | Found::Off {
            node,
            number,
            level,
            weight,
        } => {
            write_place(line, node, number, level);
            write_visits(line, weight, find.first, find.last);
        }
        Found::Again { why, weight } => {
            write_why(line, why);
            write_visits(line, weight, find.first, find.last);
        }
    }
}

// What a move weighs, and its tickets.
fn write_tickets(line: &mut Line, weight: u64, first: u64, commit: u64, last: u64)
    requires { length line.old ≤ 500 }
    ensures { line.new ≡ line.old ++ (codes " weight" then field weight then codes " first"
        then field first then codes " commit" then field commit then codes " last"
        then field last then 10 ∷ []) }
{
    line.label_number(" weight", weight);
    line.label_number(" first", first);
    line.label_number(" commit", commit);
    line.label_number(" last", last);
    line.word("\n");
}

// The line of a switch.
fn write_switch(line: &mut Line, actor: u32, off: bool, node: u32, number: u32, ticket: u64)
    requires { line.old ≡ [] }
    ensures { line.new ≡ call_line (Switched actor off node number ticket) }
{
    line.word("switch");
    line.number(u64::from(actor));
    line.word(if off { " off" } else { " on" });
    line.number(u64::from(node));
    line.label_number(" number", u64::from(number));
    line.label_number(" ticket", ticket);
    line.word("\n");
}

// The line of a move or of a switch.
fn write_step(line: &mut Line, call: &Done)
    requires empty { line.old ≡ [] }
    requires step { find_of call.now ≡ None }
    ensures { line.new ≡ call_line call.now }
{
    match *call {
        Done::Moved {
            actor,
            number,
            from,
            to,
            weight,
            first,
            commit,
            last,
        } => {
            line.word("move");
            line.numbers(&[actor, number, from, to]);
            write_tickets(line, weight, first, commit, last);
        }
        Done::Switched {
            actor,
            off,
            node,
            number,
            ticket,
        } => write_switch(line, actor, off, node, number, ticket),
        Done::Found { .. } | Done::Off { .. } | Done::Again { .. } => unreachable!(),
    }
}

// The line of a call.
fn write_call(line: &mut Line, call: &Done)
    requires { line.old ≡ [] }
    ensures { line.new ≡ call_line call.now }
{
    match call.find() {
        Some(find) => write_find(line, find),
        None => write_step(line, call),
    }
}

/// The lines of a report, one after another. It takes its memory at once, and keeps one line.
#[derive(Debug, Drop)]
pub struct Lines<'a> {
    calls: &'a [Done],
    order: &'a [u32],
    visits: u64,
    ended: bool,
    line: Line,
}

impl<'a> Model for Lines<'a> {
    ghost use Rattle.report_text.specs.Written.{ReportState, lines_left};

    ghost Value = { ReportState };

    ghost view = { λ l. record {
      line = l.line;
      left = lines_left l.calls.now l.order.now l.visits l.ended;
    } };
}

impl<'a> Lines<'a> {
    /// All lines of the report of an outcome.
    pub fn new(alloc: Global, outcome: &'a Outcome) -> Result<Lines<'a>, AllocError>
        ensures lines { IfOk result (λ lines. lines.left ≡ report_lines (result_of outcome.now)) }
        ensures blank { IfOk result (λ lines. lines.line ≡ []) }
    {
        Ok(Lines {
            calls: &outcome.calls,
            order: &outcome.order,
            visits: outcome.order.len() as u64,
            ended: false,
            line: Line::new(alloc, outcome.order.len() / VISITS_A_FIELD)?,
        })
    }

    /// Makes the next line, and answers whether there was one left. It can't fail for want of
    /// memory.
    pub fn advance(&mut self) -> bool
        ensures line { result ≡ true → self.old.left ≡ self.new.line ∷ self.new.left }
        ensures none { result ≡ false → (self.old.left ≡ []) × (self.new.left ≡ []) }
        ensures blank { result ≡ false → self.new.line ≡ [] }
    {
        self.line.clear();
        if let [call, calls @ ..] = self.calls {
            write_call(&mut self.line, call);
            self.calls = calls;
        } else if !self.order.is_empty() {
            let order = write_next_order(&mut self.line, self.order);
            self.order = order;
        } else if !self.ended {
            self.line.label_number("end", self.visits);
            self.line.word("\n");
            self.ended = true;
        } else {
            return false;
        }
        true
    }

    /// The line that `advance` has just made, with its line feed. Before the first `advance`, and
    /// after one that answered false, it is empty.
    pub fn line(&self) -> &[u8]
        ensures { result.now ≡ self.now.line }
    {
        self.line.bytes()
    }

    /// The next line with its line feed, and None where none is left. It can't fail for want of
    /// memory.
    pub fn next_line(&mut self) -> Option<&[u8]>
        ensures line { IfSome result (λ line. self.old.left ≡ line.now ∷ drop 1 self.old.left) }
        ensures none { IfNone result (self.old.left ≡ []) }

        // Once the borrow of the answer ends, the lines that are left are those behind it, and the
        // line is that of the answer, or empty where there was none left.
        ensures* after { sem 𝓛 (Rests (the_row (record { mir = named 1; lft = [] })) self.entry
            (λ new. (self.old.left ≡ new.line ∷ new.left)
            ⊎ ((self.old.left ≡ []) × (new.left ≡ []) × (new.line ≡ [])))) }
    {
        if self.advance() {
            Some(self.line())
        } else {
            None
        }
    }
}

// The lines that are left, behind a text.
fn push_lines(text: &mut Vec<u8>, lines: &mut Lines<'_>) -> Result<(), AllocError>
    ensures { OnOk result (text.new.items ≡ text.old.items ++ concat lines.old.left) }
{
    'lines: while let Some(line) = lines.next_line() {
        text.extend_from_slice(line)?;
    }
    Ok(())
}

/// The text of the report of an outcome.
pub fn report(alloc: Global, outcome: &Outcome) -> Result<Vec<u8>, AllocError>
    ensures { IfOk result (λ text. text.items ≡ report_of (result_of outcome.now)) }
{
    let mut lines = Lines::new(alloc, outcome)?;
    let mut text = Vec::new(alloc);
    push_lines(&mut text, &mut lines)?;
    Ok(text)
}
