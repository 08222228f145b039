//! Scripts: rows of steps, each with what is to be seen of it, and how they are played. A row
//! begins with who does it: `own`, the subscriber; `caller`, the first caller; `other`, the second
//! one, which hears what the first has seen; or `held`, behind which stand a node and a step of one
//! of the first two, taken while the second caller is inside the node.

ghost use Rattle.station.specs.Handsets.{IsHandsetOf};
ghost use Rattle.station.specs.Passes.{IsFree};
ghost use Rattle.tracker_tests.specs.Ready.{AreNew, AreReady, IsOver};

use crate::parties::{Parties, reserve_all};
use crate::rows::{first_word, number_of, row_of, rows_in, step_of};
use crate::sameness::same_shown;
use crate::steps::{
    begin, census, find_soon, find_through, first_look, hear, look, make_step, put, switch,
    whole_move,
};
use distances::Distances;
use handset::Handset;
use region_plan::Plan;
use station::{Pass, Tracker};
use std::alloc::Global;
use std::process::Abort;
use std::sync::Wait;

// A step of the subscriber.
fn take_own<R: Wait + Abort>(
    rt: &R,
    alloc: Global,
    place: usize,
    tracker: &Tracker,
    plan: &Plan,
    distances: &Distances,
    own: &mut Pass,
    handset: &mut Handset,
    step: &str,
    wanted: &str,
)
    requires over { IsOver tracker.now plan.now distances.now }
    requires free { IsFree tracker.now 0 own.old }
    requires own { IsHandsetOf tracker.now.setup own.old.view handset.old }
    ensures free { IsFree tracker.now 0 own.new }
    ensures own { IsHandsetOf tracker.now.setup own.new.view handset.new }
{
    let (name, one, two) = step_of(step);
    match name {
        "begin" => {
            let begun = begin(tracker, own, plan, distances, handset, one);
            same_shown(rt, alloc, place, &begun, wanted)
        }
        "switch" => {
            let begun = switch(tracker, own, handset, one == 1);
            same_shown(rt, alloc, place, &begun, wanted)
        }
        "put" => same_shown(rt, alloc, place, &put(tracker, own, plan, handset), wanted),
        "step" => {
            let made = make_step(tracker, own, plan, handset);
            same_shown(rt, alloc, place, &made, wanted)
        }
        "move" => {
            let moved = whole_move(rt, tracker, own, plan, distances, handset, one);
            same_shown(rt, alloc, place, &moved, wanted)
        }
        "look" => {
            let looked = look(tracker, own, plan, distances, one);
            same_shown(rt, alloc, place, &looked, wanted)
        }
        "census" => same_shown(rt, alloc, place, &census(tracker, own, plan, one), wanted),
        "find-now" => {
            let found = find_soon(tracker, own, plan, distances, one, two);
            same_shown(rt, alloc, place, &found, wanted)
        }
        _ => panic!(rt; "there is no such step"),
    }
}

// A step of the first caller.
fn take_called<R: Wait + Abort>(
    rt: &R,
    alloc: Global,
    place: usize,
    tracker: &Tracker,
    plan: &Plan,
    distances: &Distances,
    caller: &mut Pass,
    step: &str,
    wanted: &str,
)
    requires over { IsOver tracker.now plan.now distances.now }
    requires free { IsFree tracker.now 0 caller.old }
    ensures free { IsFree tracker.now 0 caller.new }
{
    let (name, one, two) = step_of(step);
    match name {
        "look" => {
            let looked = look(tracker, caller, plan, distances, one);
            same_shown(rt, alloc, place, &looked, wanted)
        }
        "first-look" => {
            let looked = first_look(tracker, caller, plan, distances, one);
            same_shown(rt, alloc, place, &looked, wanted)
        }
        "census" => same_shown(
            rt,
            alloc,
            place,
            &census(tracker, caller, plan, one),
            wanted,
        ),
        "find-now" => {
            let found = find_soon(tracker, caller, plan, distances, one, two);
            same_shown(rt, alloc, place, &found, wanted)
        }
        "find" => {
            let found = find_through(rt, tracker, caller, plan, distances, one, two);
            same_shown(rt, alloc, place, &found, wanted)
        }
        _ => panic!(rt; "there is no such call"),
    }
}

// A step of one of these two.
fn take_free<R: Wait + Abort>(
    rt: &R,
    alloc: Global,
    place: usize,
    tracker: &Tracker,
    plan: &Plan,
    distances: &Distances,
    own: &mut Pass,
    caller: &mut Pass,
    handset: &mut Handset,
    step: &str,
    wanted: &str,
)
    requires over { IsOver tracker.now plan.now distances.now }
    requires free { IsFree tracker.now 0 own.old }
    requires caller { IsFree tracker.now 0 caller.old }
    requires own { IsHandsetOf tracker.now.setup own.old.view handset.old }
    ensures free { IsFree tracker.now 0 own.new }
    ensures caller { IsFree tracker.now 0 caller.new }
    ensures own { IsHandsetOf tracker.now.setup own.new.view handset.new }
{
    let (who, step) = first_word(step);
    if who == "own" {
        take_own(
            rt, alloc, place, tracker, plan, distances, own, handset, step, wanted,
        );
    } else {
        take_called(
            rt, alloc, place, tracker, plan, distances, caller, step, wanted,
        );
    }
}

// A step of one of these two, while the second caller is inside a node.
fn take_held<R: Wait + Abort>(
    rt: &R,
    alloc: Global,
    place: usize,
    tracker: &Tracker,
    plan: &Plan,
    distances: &Distances,
    parties: &mut Parties,
    step: &str,
    wanted: &str,
)
    requires over { IsOver tracker.now plan.now distances.now }
    requires ready { AreReady tracker.now parties.old.own parties.old.caller parties.old.other
        parties.old.handset }
    ensures { AreReady tracker.now parties.new.own parties.new.caller parties.new.other
        parties.new.handset }
{
    let Parties {
        own,
        caller,
        other,
        handset,
    } = parties;
    let (node, step) = first_word(step);
    let node = number_of(node);
    assert!(rt; node < plan.nodes(), "there is such a node");
    let Ok(stay) = tracker.enter(other, node) else {
        panic!(rt; "nobody is inside the node");
    };
    take_free(
        rt, alloc, place, tracker, plan, distances, own, caller, handset, step, wanted,
    );
    tracker.leave(other, stay);
}

// One pass hears what another has seen, if they are such.
fn take_heard(tracker: &Tracker, parties: &mut Parties, step: &str) -> bool
    requires ready { AreReady tracker.now parties.old.own parties.old.caller parties.old.other
        parties.old.handset }
    ensures { AreReady tracker.now parties.new.own parties.new.caller parties.new.other
        parties.new.handset }
{
    let Parties {
        own,
        caller,
        other,
        handset: _,
    } = parties;
    match step {
        "own caller" => hear(tracker, caller, own),
        "caller own" => hear(tracker, own, caller),
        "other caller" => hear(tracker, caller, other),
        _ => return false,
    }
    true
}

// What each pass has seen and has room for, and whether the subscriber is off.
fn state(parties: &Parties) -> ([u64; 3], [u64; 3], bool) {
    let Parties {
        own,
        caller,
        other,
        handset,
    } = parties;
    (
        [own.seen(), caller.seen(), other.seen()],
        [own.spare(), caller.spare(), other.spare()],
        handset.is_off(),
    )
}

// Whose the passes are, once the rule has been told of the first.
fn actors(tracker: &Tracker, parties: &mut Parties) -> [u32; 3]
    requires ready { AreReady tracker.now parties.old.own parties.old.caller parties.old.other
        parties.old.handset }
    ensures { AreReady tracker.now parties.new.own parties.new.caller parties.new.other
        parties.new.handset }
{
    tracker.witness(&mut parties.own);
    [
        parties.own.actor(),
        parties.caller.actor(),
        parties.other.actor(),
    ]
}

fn take<R: Wait + Abort>(
    rt: &R,
    alloc: Global,
    place: usize,
    tracker: &Tracker,
    plan: &Plan,
    distances: &Distances,
    parties: &mut Parties,
    step: &str,
    wanted: &str,
)
    requires over { IsOver tracker.now plan.now distances.now }
    requires ready { AreReady tracker.now parties.old.own parties.old.caller parties.old.other
        parties.old.handset }
    ensures { AreReady tracker.now parties.new.own parties.new.caller parties.new.other
        parties.new.handset }
{
    let (who, rest) = first_word(step);
    match who {
        "state" => same_shown(rt, alloc, place, &state(parties), wanted),
        "actors" => same_shown(rt, alloc, place, &actors(tracker, parties), wanted),
        "hear" => same_shown(
            rt,
            alloc,
            place,
            &take_heard(tracker, parties, rest),
            wanted,
        ),
        "held" => take_held(
            rt, alloc, place, tracker, plan, distances, parties, rest, wanted,
        ),
        _ => {
            let Parties {
                own,
                caller,
                other: _,
                handset,
            } = parties;
            take_free(
                rt, alloc, place, tracker, plan, distances, own, caller, handset, step, wanted,
            )
        }
    }
}

// Each row is to be seen as it says.
fn play<R: Wait + Abort>(
    rt: &R,
    alloc: Global,
    tracker: &Tracker,
    plan: &Plan,
    distances: &Distances,
    parties: &mut Parties,
    rows: &str,
)
    requires over { IsOver tracker.now plan.now distances.now }
    requires ready { AreReady tracker.now parties.old.own parties.old.caller parties.old.other
        parties.old.handset }
    ensures { AreReady tracker.now parties.new.own parties.new.caller parties.new.other
        parties.new.handset }
{
    'steps: for place in 0..rows_in(rows) {
        let (step, wanted) = row_of(rows, place);
        take(
            rt, alloc, place, tracker, plan, distances, parties, step, wanted,
        );
    }
}

/// The same from the opening on, where each pass has room for so many visits.
pub fn play_from_opening<R: Wait + Abort>(
    rt: &R,
    alloc: Global,
    tracker: &Tracker,
    plan: &Plan,
    distances: &Distances,
    parties: &mut Parties,
    visits: u32,
    rows: &str,
)
    requires over { IsOver tracker.now plan.now distances.now }
    requires new { AreNew tracker.now parties.old.own parties.old.caller parties.old.other
        parties.old.handset }
    ensures { AreReady tracker.now parties.new.own parties.new.caller parties.new.other
        parties.new.handset }
{
    reserve_all(rt, tracker, parties, visits);
    play(rt, alloc, tracker, plan, distances, parties, rows);
}
