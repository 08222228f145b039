//! The calls that a script makes over a tracker with one subscriber and two callers. Each keeps
//! what the next one needs.

ghost use Rattle.std.specs.Prelude.{◌≡◌};
ghost use Rattle.station.specs.Handsets.{IsHandsetOf};
ghost use Rattle.station.specs.Passes.{IsFree};
ghost use Rattle.tracker_calls.specs.Added.{KeepsHandsets};
ghost use Rattle.tracker_tests.specs.Ready.{IsOver};

use directory::Found;
use distances::Distances;
use entry_word::Key;
use handset::{Handset, MoveFault, SwitchFault};
use region_plan::Plan;
use station::{CensusSeen, Held, Looked, Pass, Tracker};
use std::sync::Wait;
use tracker_calls::{
    FindFault, FindRefusal, MoveToFault, Moved, StepFault, find, find_now, move_step, move_to,
};
use walk::Walk;

// The handset begins a move.
pub fn begin(
    tracker: &Tracker,
    own: &Pass,
    plan: &Plan,
    distances: &Distances,
    handset: &mut Handset,
    to: u32,
) -> Result<(), MoveFault>
    requires plan { plan.now ≡ tracker.now.setup.plan }
    requires belongs { plan.now.distances ≡ distances.now }
    requires own { IsHandsetOf tracker.now.setup own.now.view handset.old }
    ensures own { IsHandsetOf tracker.now.setup own.now.view handset.new }
{
    let _ = tracker;
    let _ = own;
    match handset.begin(plan, distances, to) {
        Ok(()) => Ok(()),
        Err(fault) => Err(fault),
    }
}

// The handset begins to switch off or on.
pub fn switch(
    tracker: &Tracker,
    own: &Pass,
    handset: &mut Handset,
    off: bool,
) -> Result<(), SwitchFault>
    requires own { IsHandsetOf tracker.now.setup own.now.view handset.old }
    ensures own { IsHandsetOf tracker.now.setup own.now.view handset.new }
{
    let _ = tracker;
    let _ = own;
    match handset.switch(off) {
        Ok(()) => Ok(()),
        Err(fault) => Err(fault),
    }
}

// The next put, by the tracker's own call, if there is one and room for it.
pub fn put(
    tracker: &Tracker,
    pass: &mut Pass,
    plan: &Plan,
    handset: &mut Handset,
) -> Option<Result<u64, Held>>
    requires free { IsFree tracker.now 0 pass.old }
    requires plan { plan.now ≡ tracker.now.setup.plan }
    requires own { IsHandsetOf tracker.now.setup pass.old.view handset.old }
    ensures free { IsFree tracker.now 0 pass.new }
    ensures own { IsHandsetOf tracker.now.setup pass.new.view handset.new }
{
    if handset.next(plan).is_none() || pass.spare() == 0 {
        return None;
    }
    match tracker.visit_put(pass, plan, handset) {
        Ok(ticket) => Some(Ok(ticket)),
        Err(held) => Some(Err(held)),
    }
}

// The next put, by a whole call.
pub fn make_step(
    tracker: &Tracker,
    pass: &mut Pass,
    plan: &Plan,
    handset: &mut Handset,
) -> Result<u64, StepFault>
    requires free { IsFree tracker.now 0 pass.old }
    requires plan { plan.now ≡ tracker.now.setup.plan }
    requires own { IsHandsetOf tracker.now.setup pass.old.view handset.old }
    ensures free { IsFree tracker.now 0 pass.new }
    ensures own { IsHandsetOf tracker.now.setup pass.new.view handset.new }
{
    match move_step(tracker, pass, plan, handset) {
        Ok(ticket) => Ok(ticket),
        Err(fault) => Err(fault),
    }
}

// A whole move, after which there may be another.
pub fn whole_move<R: Wait>(
    rt: &R,
    tracker: &Tracker,
    pass: &mut Pass,
    plan: &Plan,
    distances: &Distances,
    handset: &mut Handset,
    to: u32,
) -> Result<Moved, MoveToFault>
    requires free { IsFree tracker.now 0 pass.old }
    requires plan { plan.now ≡ tracker.now.setup.plan }
    requires belongs { plan.now.distances ≡ distances.now }
    requires own { IsHandsetOf tracker.now.setup pass.old.view handset.old }
    ensures free { IsFree tracker.now 0 pass.new }
    ensures own { IsHandsetOf tracker.now.setup pass.new.view handset.new }
{
    match move_to(rt, tracker, pass, plan, distances, handset, to) {
        Ok(moved) => Ok(moved),
        Err(fault) => Err(fault),
    }
}

// A pass hears what another has seen.
pub fn hear(tracker: &Tracker, from: &mut Pass, pass: &mut Pass)
    requires from { IsFree tracker.now 0 from.old }
    requires free { IsFree tracker.now 0 pass.old }
    ensures from { from.new ≡ from.old }
    ensures free { IsFree tracker.now 0 pass.new }
    ensures keeps { KeepsHandsets tracker.now.setup pass.old pass.new }
{
    let note = tracker.note(from);
    tracker.hear(pass, note);
}

// A look at a presence cell of the subscriber, if there is such a node and room.
pub fn look(
    tracker: &Tracker,
    pass: &mut Pass,
    plan: &Plan,
    distances: &Distances,
    node: u32,
) -> Option<Result<Looked, Held>>
    requires over { IsOver tracker.now plan.now distances.now }
    requires free { IsFree tracker.now 0 pass.old }
    ensures free { IsFree tracker.now 0 pass.new }
    ensures keeps { KeepsHandsets tracker.now.setup pass.old pass.new }
{
    let _ = distances;
    if node >= plan.nodes() || pass.spare() == 0 {
        return None;
    }
    match tracker.visit_look(pass, plan, Key::Presence { node, sub: 0 }) {
        Ok(looked) => Some(Ok(looked)),
        Err(held) => Some(Err(held)),
    }
}

// The first look of a find of the subscriber, if there is such a node and room.
pub fn first_look(
    tracker: &Tracker,
    pass: &mut Pass,
    plan: &Plan,
    distances: &Distances,
    from: u32,
) -> Option<Result<u64, Held>>
    requires over { IsOver tracker.now plan.now distances.now }
    requires free { IsFree tracker.now 0 pass.old }
    ensures free { IsFree tracker.now 0 pass.new }
{
    let Ok(mut walk) = Walk::new(from, 0, 1, plan) else {
        return None;
    };
    if pass.spare() == 0 {
        return None;
    }
    match tracker.visit_walk(pass, plan, distances, &mut walk) {
        Ok(ticket) => Some(Ok(ticket)),
        Err(held) => Some(Err(held)),
    }
}

// A census of a node, if there is such a node and room.
pub fn census(
    tracker: &Tracker,
    pass: &mut Pass,
    plan: &Plan,
    node: u32,
) -> Option<Result<CensusSeen, Held>>
    requires plan { plan.now ≡ tracker.now.setup.plan }
    requires free { IsFree tracker.now 0 pass.old }
    ensures free { IsFree tracker.now 0 pass.new }
    ensures keeps { KeepsHandsets tracker.now.setup pass.old pass.new }
{
    if node >= plan.nodes() || pass.spare() == 0 {
        return None;
    }
    match tracker.visit_census(pass, node) {
        Ok(seen) => Some(Ok(seen)),
        Err(held) => Some(Err(held)),
    }
}

// A find that doesn't wait.
pub fn find_soon(
    tracker: &Tracker,
    pass: &mut Pass,
    plan: &Plan,
    distances: &Distances,
    from: u32,
    sub: u32,
) -> Result<Found, FindFault>
    requires over { IsOver tracker.now plan.now distances.now }
    requires free { IsFree tracker.now 0 pass.old }
    ensures free { IsFree tracker.now 0 pass.new }
    ensures keeps { KeepsHandsets tracker.now.setup pass.old pass.new }
{
    match find_now(tracker, pass, plan, distances, 1, from, sub) {
        Ok(found) => Ok(found),
        Err(fault) => Err(fault),
    }
}

// A find that waits on the way.
pub fn find_through<R: Wait>(
    rt: &R,
    tracker: &Tracker,
    pass: &mut Pass,
    plan: &Plan,
    distances: &Distances,
    from: u32,
    sub: u32,
) -> Result<Found, FindRefusal>
    requires over { IsOver tracker.now plan.now distances.now }
    requires free { IsFree tracker.now 0 pass.old }
    ensures free { IsFree tracker.now 0 pass.new }
{
    match find(rt, tracker, pass, plan, distances, 1, from, sub) {
        Ok(found) => Ok(found),
        Err(refusal) => Err(refusal),
    }
}
