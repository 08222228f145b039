//! What the lines of a report tell of a subscriber before a ticket.
ghost use Rattle.std.specs.Prelude.{◌≡◌, ◌-◌, ◌<◌, ◌^◌, Some, None, drop, fold, length, map, suc};
ghost use Rattle.std.specs.List.{list_any};
ghost use Rattle.report_check.specs.Blocks.{AreBlocks};
ghost use Rattle.report_check.specs.ReadLines.{done_of};
ghost use Rattle.report_check.specs.Parts.{at_start, first_from, is_of_move, is_switch_at, meets_from, meets_move, next_ticket, tell, told_before};

use crate::blocks::LinesByActor;
use crate::calls::Line;

/// Where a subscriber is, how many moves it has made, whether it is off, and the commit and the
/// weight of its last move.
#[derive(Clone, Copy)]
pub(crate) struct Told {
    pub(crate) node: u32,
    pub(crate) number: u64,
    pub(crate) is_off: bool,
    pub(crate) commit: Option<u64>,
    pub(crate) weight: u64,
}

// What a line more tells of a subscriber before a ticket.
fn tell(sub: u32, ticket: u64, told: Told, line: &Line) -> Told
    requires { told.number < 2 ^ 64 - 1 }
    ensures { result ≡ tell sub ticket told (done_of line.now) }
{
    match *line {
        Line::Move {
            actor,
            to,
            weight,
            commit,
            ..
        } => {
            if actor != sub || commit >= ticket {
                return told;
            }
            Told {
                node: to,
                number: told.number + 1,
                is_off: told.is_off,
                commit: Some(commit),
                weight,
            }
        }
        Line::Switch {
            actor,
            off,
            ticket: at,
            ..
        } => {
            if actor != sub || at >= ticket {
                return told;
            }
            Told {
                node: told.node,
                number: told.number,
                is_off: off,
                commit: told.commit,
                weight: told.weight,
            }
        }
        _ => told,
    }
}

// A subscriber where it starts, before its moves.
fn at_start(node: u32) -> Told
    ensures { result ≡ at_start node }
{
    Told {
        node,
        number: 0,
        is_off: false,
        commit: None,
        weight: 0,
    }
}

// What some lines tell of a subscriber before a ticket.
fn told_before(start: u32, calls: &[Line], sub: u32, ticket: u64) -> Told
    ensures { result ≡ fold (tell sub ticket) (at_start start) (map done_of calls.now) }
{
    let mut told = at_start(start);
    'lines: for line in calls {
        told = tell(sub, ticket, told, line);
    }
    told
}

// What all lines tell of a subscriber before a ticket, by those among which its own stand.
pub(crate) fn told_of(lines: &LinesByActor<'_>, start: u32, sub: u32, ticket: u64) -> Told
    requires { AreBlocks lines.now }
    ensures { result ≡ fold (tell sub ticket) (at_start start) (map done_of lines.now.calls.now) }
{
    told_before(start, lines.of_actor(sub), sub, ticket)
}

// Whether a line is that of a switch with this ticket.
fn is_switch_at(ticket: u64, line: &Line) -> bool
    ensures { result ≡ is_switch_at ticket (done_of line.now) }
{
    match *line {
        Line::Switch { ticket: at, .. } => at == ticket,
        _ => false,
    }
}

// Whether a switch has this ticket.
fn is_switch(calls: &[Line], ticket: u64) -> bool
    ensures { result ≡ list_any (is_switch_at ticket) (map done_of calls.now) }
{
    'lines: for line in calls {
        if is_switch_at(ticket, line) {
            return true;
        }
    }
    false
}

// The same by the lines among which the switches stand.
fn is_switch_among(lines: &LinesByActor<'_>, ticket: u64) -> bool
    requires { AreBlocks lines.now }
    ensures { result ≡ list_any (is_switch_at ticket) (map done_of lines.now.calls.now) }
{
    is_switch(lines.of_switches(), ticket)
}

// Whether an actor's ticket is of a move of a subscriber.
fn is_of_move(lines: &LinesByActor<'_>, sub: u32, ticket: u64, actor: u64) -> bool
    requires { AreBlocks lines.now }
    ensures { result ≡ is_of_move (map done_of lines.now.calls.now) sub ticket actor }
{
    actor == u64::from(sub) && !is_switch_among(lines, ticket)
}

// The first ticket of an actor from this ticket on.
fn first_from(order: &[u64], actor: u32, start: usize) -> Option<u64>
    ensures { result ≡ first_from actor start (drop start order.now) }
{
    'tickets: for ticket in start..order.len() {
        if order[ticket] == u64::from(actor) {
            return Some(ticket as u64);
        }
    }
    None
}

// The first ticket of an actor behind a ticket, or of all.
pub(crate) fn next_ticket(order: &[u64], actor: u32, before: Option<u64>) -> Option<u64>
    ensures { result ≡ next_ticket order.now actor before }
{
    match before {
        None => first_from(order, actor, 0),
        Some(ticket) => {
            if ticket >= order.len() as u64 {
                return None;
            }
            first_from(order, actor, ticket as usize + 1)
        }
    }
}

// Whether a ticket of a move of a subscriber comes between two tickets.
pub(crate) fn meets_move(
    lines: &LinesByActor<'_>,
    order: &[u64],
    sub: u32,
    first: u64,
    last: u64,
) -> bool
    requires { AreBlocks lines.now }
    ensures { result ≡ meets_move (map done_of lines.now.calls.now) order.now sub first last }
{
    lines.has_line(sub) && meets_later(lines, order, sub, first, last)
}

// The same of a subscriber that has a line.
fn meets_later(lines: &LinesByActor<'_>, order: &[u64], sub: u32, first: u64, last: u64) -> bool
    requires { AreBlocks lines.now }
    ensures { result ≡ meets_from (map done_of lines.now.calls.now) sub last (suc first)
        (drop (suc first) order.now) }
{
    if first >= order.len() as u64 {
        return false;
    }
    'tickets: for ticket in first as usize + 1..order.len() {
        if ticket as u64 >= last {
            return false;
        }
        if is_of_move(lines, sub, ticket as u64, order[ticket]) {
            return true;
        }
    }
    false
}
