//! Two threads over one tracker: looks side by side, and calls that lose a turn and try again.

ghost use Rattle.std.specs.Prelude.{◌<◌};
ghost use Rattle.std.specs.Thread.{IsSync};
ghost use Rattle.station.specs.Handsets.{IsHandsetOf};
ghost use Rattle.station.specs.Passes.{IsFree};
ghost use Rattle.station.specs.Setup.{nodes_in};
ghost use Rattle.tracker_tests.specs.Ready.{AreReady, IsOver};

use crate::parties::Parties;
use crate::plays::{End, Over, Script, Subject, perform};
use crate::sameness::same_shown;
use crate::steps::{find_through, whole_move};
use directory::Found;
use distances::Distances;
use handset::Handset;
use region_plan::Plan;
use station::{Pass, Tracker};
use std::alloc::Global;
use std::process::Abort;
use std::sync::Wait;
use std::sync::atomic::{AtomicU64, Ordering};
use std::test::Fail;
use std::thread::{Threads, join, yield_now};
use tracker_calls::{FindRefusal, MoveToFault, Moved};

// How far the two threads are: the one is inside the node, and then the other calls.
const INSIDE: u64 = 1;

const CALLING: u64 = 2;

// Looks at a node, and answers how many visits are then seen.
fn look(tracker: &Tracker, plan: &Plan, distances: &Distances, mut pass: Pass, node: u32) -> u64
    requires over { IsOver tracker.now plan.now distances.now }
    requires free { IsFree tracker.now 0 pass }
{
    let _ = crate::steps::look(tracker, &mut pass, plan, distances, node);
    pass.seen()
}

// Both callers look at once, at nodes 1 and 2: how many visits each has seen then.
fn look_at_once<R: Threads + Sync>(
    rt: &R,
    tracker: &Tracker,
    plan: &Plan,
    distances: &Distances,
    parties: Parties,
) -> (u64, u64)
    requires over { IsOver tracker.now plan.now distances.now }
    requires caller { IsFree tracker.now 0 parties.caller }
    requires other { IsFree tracker.now 0 parties.other }
{
    let Parties {
        own: _,
        caller,
        other,
        handset: _,
    } = parties;
    join(
        rt,
        || -> u64
            requires { IsOver tracker.now plan.now distances.now × IsFree tracker.now 0 caller }
        { look(tracker, plan, distances, caller, 1) },
        || -> u64
            requires { IsOver tracker.now plan.now distances.now × IsFree tracker.now 0 other }
        { look(tracker, plan, distances, other, 2) },
    )
}

fn wait_for(rt: &impl Wait, reached: &AtomicU64, point: u64) {
    'waits: for _ in rt.forever() {
        if reached.load(Ordering::SeqCst) >= point {
            break;
        }
        yield_now();
    }
}

// Lets other threads run for a while.
fn dwell() {
    'yields: for _ in 0..100_000 {
        yield_now();
    }
}

// Stays in a node until the other thread has called, and a while longer.
fn hold(rt: &impl Wait, tracker: &Tracker, mut pass: Pass, node: u32, reached: &AtomicU64) -> bool
    requires node { node < nodes_in tracker.now.setup }
    requires free { IsFree tracker.now 0 pass }
{
    let Ok(stay) = tracker.enter(&mut pass, node) else {
        return false;
    };
    reached.store(INSIDE, Ordering::SeqCst);
    wait_for(rt, reached, CALLING);
    dwell();
    tracker.leave(&mut pass, stay);
    true
}

// Finds the subscriber from node 2 once the other thread is inside its node.
fn find_late<R: Wait>(
    rt: &R,
    tracker: &Tracker,
    plan: &Plan,
    distances: &Distances,
    mut pass: Pass,
    reached: &AtomicU64,
) -> Result<Found, FindRefusal>
    requires over { IsOver tracker.now plan.now distances.now }
    requires free { IsFree tracker.now 0 pass }
{
    wait_for(rt, reached, INSIDE);
    reached.store(CALLING, Ordering::SeqCst);
    find_through(rt, tracker, &mut pass, plan, distances, 2, 0)
}

// Moves the subscriber to node 2 once the other thread is inside its node.
fn move_late<R: Wait>(
    rt: &R,
    tracker: &Tracker,
    plan: &Plan,
    distances: &Distances,
    mut pass: Pass,
    mut handset: Handset,
    reached: &AtomicU64,
) -> Result<Moved, MoveToFault>
    requires over { IsOver tracker.now plan.now distances.now }
    requires free { IsFree tracker.now 0 pass }
    requires own { IsHandsetOf tracker.now.setup pass.view handset }
{
    wait_for(rt, reached, INSIDE);
    reached.store(CALLING, Ordering::SeqCst);
    whole_move(rt, tracker, &mut pass, plan, distances, &mut handset, 2)
}

// The caller finds while the other caller holds node 3: whether it held, and what the find saw.
fn find_beside<R: Threads + Wait + Sync>(
    rt: &R,
    tracker: &Tracker,
    plan: &Plan,
    distances: &Distances,
    parties: Parties,
) -> (bool, Result<Found, FindRefusal>)
    requires node { 3 < nodes_in tracker.now.setup }
    requires over { IsOver tracker.now plan.now distances.now }
    requires caller { IsFree tracker.now 0 parties.caller }
    requires other { IsFree tracker.now 0 parties.other }
{
    let Parties {
        own: _,
        caller,
        other,
        handset: _,
    } = parties;
    let reached = AtomicU64::new(0);
    let shared = &reached;
    join(
        rt,
        || -> bool
            requires { IsSync R.row × (3 < nodes_in tracker.now.setup)
                × IsFree tracker.now 0 other }
        { hold(rt, tracker, other, 3, shared) },
        || -> Result<Found, FindRefusal>
            requires { IsSync R.row × IsOver tracker.now plan.now distances.now
                × IsFree tracker.now 0 caller }
        { find_late(rt, tracker, plan, distances, caller, shared) },
    )
}

// The subscriber moves while the other caller holds node 3: whether it held, and what the move saw.
fn move_beside<R: Threads + Wait + Sync>(
    rt: &R,
    tracker: &Tracker,
    plan: &Plan,
    distances: &Distances,
    parties: Parties,
) -> (bool, Result<Moved, MoveToFault>)
    requires node { 3 < nodes_in tracker.now.setup }
    requires over { IsOver tracker.now plan.now distances.now }
    requires free { IsFree tracker.now 0 parties.own }
    requires own { IsHandsetOf tracker.now.setup parties.own.view parties.handset }
    requires other { IsFree tracker.now 0 parties.other }
{
    let Parties {
        own,
        caller: _,
        other,
        handset,
    } = parties;
    let reached = AtomicU64::new(0);
    let shared = &reached;
    join(
        rt,
        || -> bool
            requires { IsSync R.row × (3 < nodes_in tracker.now.setup)
                × IsFree tracker.now 0 other }
        { hold(rt, tracker, other, 3, shared) },
        || -> Result<Moved, MoveToFault>
            requires { IsSync R.row × IsOver tracker.now plan.now distances.now
                × IsFree tracker.now 0 own × IsHandsetOf tracker.now.setup own.view handset }
        { move_late(rt, tracker, plan, distances, own, handset, shared) },
    )
}

/// What two threads do at once.
#[derive(Clone, Copy)]
pub enum Pair {
    Looks,
    Find,
    Move,
}

/// What is to be shown of it: of looks, how many visits each pass has seen, the lesser number
/// first; of a call, whether the other thread held its node, and what the call answered.
pub fn act<R: Threads + Wait + Sync + Abort>(
    rt: &R,
    alloc: Global,
    tracker: &Tracker,
    plan: &Plan,
    distances: &Distances,
    parties: Parties,
    pair: Pair,
    wanted: &str,
)
    requires node { 3 < nodes_in tracker.now.setup }
    requires over { IsOver tracker.now plan.now distances.now }
    requires ready { AreReady tracker.now parties.own parties.caller parties.other
        parties.handset }
{
    match pair {
        Pair::Looks => {
            let (a, b) = look_at_once(rt, tracker, plan, distances, parties);
            same_shown(rt, alloc, 0, &(a.min(b), a.max(b)), wanted);
        }
        Pair::Find => {
            let both = find_beside(rt, tracker, plan, distances, parties);
            same_shown(rt, alloc, 0, &both, wanted);
        }
        Pair::Move => {
            let both = move_beside(rt, tracker, plan, distances, parties);
            same_shown(rt, alloc, 0, &both, wanted);
        }
    }
}

// On the line, where each pass has room for so many visits.
fn act_on_line<R: Threads + Wait + Sync + Abort>(
    rt: &R,
    alloc: Global,
    visits: u32,
    pair: Pair,
    wanted: &str,
) -> Result<(), Fail> {
    let script = Script {
        is_switching: false,
        visits,
        rows: "",
        end: End::AtOnce(pair),
    };
    perform(rt, alloc, Over::Line, Subject::Script(script), wanted)
}

#[test]
fn two_looks(rt: HostRuntime) -> Result<(), Fail> {
    act_on_line(&rt, rt.alloc(), 9, Pair::Looks, "(1, 2)")
}

// The find has looked at nodes 2 and 0 when it loses its turn at node 3.
#[test]
fn a_find_waits(rt: HostRuntime) -> Result<(), Fail> {
    let wanted = "(true, Ok(At { node: 3, number: 0, level: Some(0), weight: 5 }))";
    act_on_line(&rt, rt.alloc(), 20, Pair::Find, wanted)
}

// The move has made three puts when it loses its turn at node 3.
#[test]
fn a_move_waits(rt: HostRuntime) -> Result<(), Fail> {
    let wanted = "(true, Ok(Moved { number: 1, first: 0, commit: 3, last: 5 }))";
    act_on_line(&rt, rt.alloc(), 20, Pair::Move, wanted)
}
