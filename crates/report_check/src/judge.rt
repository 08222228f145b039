//! The parts that a sound report keeps, line by line.
ghost use Rattle.std.specs.Prelude.{◌≡◌, ◌+◌, ◌*◌, ◌<◌, ◌≤◌, ◌^◌, None, Some, if◌then◌else◌, nat_le, suc, ℕ, List, length, map, slice_index};
ghost use Rattle.std.specs.List.{list_all};
ghost use Rattle.region_plan.specs.Plan.{PlanData};
ghost use Rattle.region_plan.specs.Settings.{setting_of};
ghost use Rattle.report_check.specs.ReadLines.{done_of};
ghost use Rattle.report_check.specs.Parts.{again_holds, end_of, has_tickets, is_light, is_number, is_told, is_ticket, none_left, open_passage, place_holds, tickets_hold, unconfirmed, weight_holds};
ghost use Rattle.report_check.specs.Verdicts.{flaw_of, has_call, is_last_at, judged, line_behind};
ghost use Rattle.report_check.specs.Blocks.{AreBehind, AreBlocks};
ghost use Rattle.report_check.specs.Grounds.{IsGround, IsGroundAlone};

use crate::blocks::{LinesByActor, actor_of};
use crate::calls::{Line, Place, Visits};
use crate::told::{Told, meets_move, next_ticket, told_of};
use crate::verdict::{Flaw, Verdict};
use distances::Distances;
use net_reader::Call;

// What a report is judged by.
#[derive(Clone, Copy)]
pub(crate) struct Ground<'a> {
    pub(crate) homes: &'a [u32],
    pub(crate) nodes: u32,
    pub(crate) stretch: u64,
    pub(crate) distances: &'a Distances,
}

// The last ticket of a call.
fn end_of(line: &Line) -> u64
    ensures { result ≡ end_of (done_of line.now) }
{
    match *line {
        Line::Move { last, .. } => last,
        Line::Switch { ticket, .. } => ticket,
        Line::Answer { visits, .. } => visits.last,
        Line::Again { visits, .. } => visits.last,
    }
}

// Whether this number is there.
fn is_number(number: u64, found: Option<u64>) -> bool
    ensures { result ≡ is_number number found }
{
    match found {
        None => false,
        Some(other) => other == number,
    }
}

// Whether a ticket is an actor's.
fn is_ticket(order: &[u64], actor: u32, ticket: u64) -> bool
    ensures { result ≡ is_ticket order.now actor ticket }
{
    match order.get(ticket as usize) {
        None => false,
        Some(other) => *other == u64::from(actor),
    }
}

// Whether a call has its first ticket and its last.
fn has_tickets(order: &[u64], before: Option<u64>, actor: u32, first: u64, last: u64) -> bool
    ensures { result ≡ has_tickets order.now before actor first last }
{
    is_number(first, next_ticket(order, actor, before))
        && is_ticket(order, actor, last)
        && first <= last
}

fn tickets_hold(order: &[u64], before: Option<u64>, line: &Line) -> bool
    ensures { result ≡ tickets_hold order.now before (done_of line.now) }
{
    match *line {
        Line::Move {
            actor,
            first,
            commit,
            last,
            ..
        } => {
            has_tickets(order, before, actor, first, last)
                && is_ticket(order, actor, commit)
                && first < commit
                && commit < last
        }
        Line::Switch { actor, ticket, .. } => {
            is_number(ticket, next_ticket(order, actor, before))
        }
        Line::Answer { actor, visits, .. } => {
            has_tickets(order, before, actor, visits.first, visits.last)
        }
        Line::Again { actor, visits, .. } => {
            has_tickets(order, before, actor, visits.first, visits.last)
        }
    }
}

// Whether a ticket is at most the one behind another.
fn is_at_most_behind(ticket: u64, end: u64) -> bool
    ensures { result ≡ nat_le ticket (suc end) }
{
    ticket == 0 || ticket - 1 <= end
}

// Whether no ticket of an actor is behind its last call, by the tickets behind the last ones.
fn none_left(behind: &[u64], order: &[u64], line: &Line) -> bool
    requires { AreBehind order.now behind.now }
    ensures { result ≡ none_left order.now (done_of line.now) }
{
    match behind.get(actor_of(line) as usize) {
        Some(ticket) => is_at_most_behind(*ticket, end_of(line)),
        None => next_ticket(order, actor_of(line), Some(end_of(line))).is_none(),
    }
}

// Whether a find tells where its subscriber was.
fn is_told(told: Told, off: bool, place: Place) -> bool
    ensures { result ≡ is_told told off place.node place.number }
{
    told.node == place.node
        && told.number == place.number
        && (if off { told.is_off } else { !told.is_off })
}

// The start node of a subscriber; there is one where it is known.
fn start_of(homes: &[u32], sub: u32) -> u32
    ensures { result ≡ slice_index homes.now sub }
{
    match homes.get(sub as usize) {
        Some(node) => *node,
        None => 0,
    }
}

fn place_holds(ground: &Ground<'_>, lines: &LinesByActor<'_>, line: &Line) -> bool
    requires { AreBlocks lines.now }
    ensures { result ≡ place_holds ground.now.homes.now (map done_of lines.now.calls.now)
        (done_of line.now) }
{
    match *line {
        Line::Answer {
            sub,
            off,
            place,
            visits,
            ..
        } => {
            let told = told_of(lines, start_of(ground.homes, sub), sub, visits.last);
            is_told(told, off, place)
        }
        _ => true,
    }
}

fn again_holds(lines: &LinesByActor<'_>, order: &[u64], line: &Line) -> bool
    requires { AreBlocks lines.now }
    ensures { result ≡ again_holds (map done_of lines.now.calls.now) order.now (done_of line.now) }
{
    match *line {
        Line::Again { sub, visits, .. } => {
            meets_move(lines, order, sub, visits.first, visits.last)
        }
        _ => true,
    }
}

// The weight of a move that isn't confirmed by a ticket.
fn unconfirmed(last: u64, weight: u64, confirm: Option<u64>) -> u64
    ensures { result ≡ unconfirmed last weight confirm }
{
    match confirm {
        Some(confirm) if last < confirm => weight,
        _ => 0,
    }
}

// The weight of the passage that is open at a ticket.
fn open_passage(order: &[u64], sub: u32, last: u64, told: Told) -> u64
    ensures { result ≡ open_passage order.now sub last told told.commit }
{
    match told.commit {
        None => 0,
        Some(commit) => unconfirmed(last, told.weight, next_ticket(order, sub, Some(commit))),
    }
}

// The distance of two nodes, 0 outside of the network.
fn distance(ground: &Ground<'_>, from: u32, to: u32) -> u64
    requires { IsGroundAlone ground.now }
    ensures { (plan : PlanData) (homes : List ℕ) → IsGround plan ground.now
        → result ≡ (setting_of plan homes).distance from to }
{
    if from < ground.nodes && to < ground.nodes {
        ground.distances.between(from, to)
    } else {
        0
    }
}

// Whether a weight is within the stretch times a distance, and twice a passage.
fn is_within(weight: u64, stretch: u64, distance: u64, passage: u64) -> bool
    requires { stretch ≤ 2 ^ 20 }
    ensures { result ≡ nat_le weight (stretch * distance + 2 * passage) }
{
    let way = u128::from(stretch) * u128::from(distance);
    u128::from(weight) <= way + 2 * u128::from(passage)
}

// Whether a find that met no move weighs what is promised at most.
fn is_light(
    ground: &Ground<'_>,
    lines: &LinesByActor<'_>,
    order: &[u64],
    from: u32,
    sub: u32,
    place: Place,
    visits: Visits,
) -> bool
    requires ground { IsGroundAlone ground.now }
    requires blocks { AreBlocks lines.now }
    ensures { (plan : PlanData) → IsGround plan ground.now
        → result ≡ is_light plan ground.now.homes.now (map done_of lines.now.calls.now) order.now
        from sub
        place.node visits.weight visits.first visits.last }
{
    if meets_move(lines, order, sub, visits.first, visits.last) {
        return true;
    }
    let told = told_of(lines, start_of(ground.homes, sub), sub, visits.last);
    let passage = open_passage(order, sub, visits.last, told);
    let way = distance(ground, from, place.node);
    is_within(visits.weight, ground.stretch, way, passage)
}

fn weight_holds(ground: &Ground<'_>, lines: &LinesByActor<'_>, order: &[u64], line: &Line) -> bool
    requires ground { IsGroundAlone ground.now }
    requires blocks { AreBlocks lines.now }
    ensures { (plan : PlanData) → IsGround plan ground.now
        → result ≡ weight_holds plan ground.now.homes.now (map done_of lines.now.calls.now)
        order.now
        (done_of line.now) }
{
    match *line {
        Line::Move {
            from,
            to,
            weight,
            ..
        } => distance(ground, from, to) == weight,
        Line::Answer {
            from,
            sub,
            place,
            visits,
            ..
        } => is_light(ground, lines, order, from, sub, place, visits),
        _ => true,
    }
}

// The first part that a line breaks; the end of the actor's call before is handed in.
fn flaw_of(
    ground: &Ground<'_>,
    lines: &LinesByActor<'_>,
    order: &[u64],
    behind: &[u64],
    before: Option<u64>,
    last: bool,
    line: &Line,
) -> Option<Flaw>
    requires ground { IsGroundAlone ground.now }
    requires blocks { AreBlocks lines.now }
    requires behind { AreBehind order.now behind.now }
    ensures { (plan : PlanData) → IsGround plan ground.now
        → result ≡ flaw_of plan ground.now.homes.now (map done_of lines.now.calls.now) order.now
        before last
        (done_of line.now) }
{
    if !tickets_hold(order, before, line) {
        return Some(Flaw::Tickets);
    }
    if last && !none_left(behind, order, line) {
        return Some(Flaw::Tickets);
    }
    if !place_holds(ground, lines, line) {
        return Some(Flaw::Place);
    }
    if !again_holds(lines, order, line) {
        return Some(Flaw::Again);
    }
    if !weight_holds(ground, lines, order, line) {
        return Some(Flaw::Weight);
    }
    None
}

// Whether a call is its actor's last.
fn is_last(calls: &[Line], index: usize) -> bool
    requires { index < length calls.now }
    ensures { result ≡ is_last_at (map done_of calls.now) index }
{
    if index + 1 == calls.len() {
        return true;
    }
    actor_of(&calls[index + 1]) != actor_of(&calls[index])
}

// Whether an actor has a call.
fn has_call(scripts: &[Vec<Call>], actor: u64) -> bool
    ensures { result ≡ has_call (map (λ script. script.items) scripts.now) actor }
{
    match scripts.get(actor as usize) {
        None => false,
        Some(script) => !script.is_empty(),
    }
}

// Whether each ticket is of an actor that has a call.
fn all_called(scripts: &[Vec<Call>], order: &[u64]) -> bool
    ensures { result ≡ list_all (has_call (map (λ script. script.items) scripts.now)) order.now }
{
    'tickets: for actor in order {
        if !has_call(scripts, *actor) {
            return false;
        }
    }
    true
}

// The number of the line behind so many; it stands still at the end of 32 bits.
pub(crate) fn line_behind(lines: usize) -> u32
    ensures { result ≡ line_behind lines }
{
    if lines < u32::MAX as usize {
        lines as u32 + 1
    } else {
        u32::MAX
    }
}

// The end of the call before the next one of its actor.
fn end_before(last: bool, line: &Line) -> Option<u64>
    ensures { result ≡ (if last then None else Some (end_of (done_of line.now))) }
{
    if last { None } else { Some(end_of(line)) }
}

// The verdict on a report that was read. It is apart from what reads the report, so that its loop
// stays short.
#[inline(never)]
pub(crate) fn judge(
    ground: &Ground<'_>,
    scripts: &[Vec<Call>],
    lines: &LinesByActor<'_>,
    order: &[u64],
    behind: &[u64],
) -> Verdict
    requires ground { IsGroundAlone ground.now }
    requires blocks { AreBlocks lines.now }
    requires behind { AreBehind order.now behind.now }
    ensures { (plan : PlanData) → IsGround plan ground.now
        → result ≡ judged plan ground.now.homes.now (map (λ script. script.items) scripts.now)
        (record { calls = map done_of lines.now.calls.now; order = order.now }) }
{
    let calls = lines.calls;
    let mut before = None;
    'lines: for index in 0..calls.len() {
        let last = is_last(calls, index);
        match flaw_of(ground, lines, order, behind, before, last, &calls[index]) {
            Some(cause) => {
                return Verdict::Unsound {
                    line: line_behind(index),
                    cause,
                };
            }
            None => before = end_before(last, &calls[index]),
        }
    }
    if all_called(scripts, order) {
        Verdict::Sound
    } else {
        Verdict::Unsound {
            line: line_behind(calls.len()),
            cause: Flaw::Tickets,
        }
    }
}
