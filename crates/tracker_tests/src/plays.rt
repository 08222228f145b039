//! What is played over plans. One function owns each plan, since the prover takes long for every
//! function that owns one.

ghost use Rattle.std.specs.Prelude.{◌≡◌, ◌<◌, ◌≤◌, IfOk};
ghost use Rattle.region_plan.specs.Plan.{nodes_of};
ghost use Rattle.station.specs.Setup.{nodes_in};
ghost use Rattle.tracker_tests.specs.Ready.{AreReady, IsOver};

use crate::parties::{Parties, close, open};
use crate::scripts::play_from_opening;
use crate::thread_tests::{Pair, act};
use crate::{bound_tests, room_tests};
use distances::Distances;
use region_plan::Plan;
use station::Tracker;
use std::alloc::Global;
use std::process::Abort;
use std::sync::Wait;
use std::test::Fail;
use std::thread::Threads;
use test_networks::{line_of_four, plan_of_most_nodes};

/// Over which plan rows are played: subscribers start at its last node.
#[derive(Clone, Copy)]
pub enum Over {
    /// The line 0 - 1 - 2 - 3 of unit weights.
    Line,
    /// The flat plan of a path of the most nodes.
    MostNodes,
}

/// How a script ends.
#[derive(Clone, Copy)]
pub enum End {
    /// The tracker is closed, first without the pass of the first caller.
    Closed,
    /// The same, first without the pass of the subscriber.
    OwnClosed,
    /// Two threads act at once.
    AtOnce(Pair),
}

/// A script of a subscriber and two callers, whose passes have room for so many visits. The
/// subscriber is at rest, or has begun to switch off.
#[derive(Clone, Copy)]
pub struct Script<'a> {
    pub is_switching: bool,
    pub visits: u32,
    pub rows: &'a str,
    pub end: End,
}

/// What is played.
#[derive(Clone, Copy)]
pub enum Subject<'a> {
    Script(Script<'a>),
    /// The bound on the weight of finds.
    Bounds,
    /// Room for visits of a pass.
    Rooms,
    /// Visits of the last two of the most actors.
    Crowd,
    /// A find of the last of them.
    Find,
    /// Some thousand visits of two actors each.
    Many,
}

fn plan_of(alloc: Global, over: Over) -> Result<(Plan, Distances), Fail>
    ensures copy { IfOk result (λ pair. pair.0.distances ≡ pair.1) }
{
    match over {
        Over::Line => line_of_four(alloc),
        Over::MostNodes => plan_of_most_nodes(alloc),
    }
}

// Ends a script.
fn finish<R: Threads + Wait + Sync + Abort>(
    rt: &R,
    alloc: Global,
    tracker: Tracker,
    plan: &Plan,
    distances: &Distances,
    parties: Parties,
    end: End,
    wanted: &str,
)
    requires node { 3 < nodes_in tracker.setup }
    requires over { IsOver tracker plan.now distances.now }
    requires ready { AreReady tracker parties.own parties.caller parties.other parties.handset }
{
    match end {
        End::Closed => close(rt, alloc, tracker, parties, false, wanted),
        End::OwnClosed => close(rt, alloc, tracker, parties, true, wanted),
        End::AtOnce(pair) => act(rt, alloc, &tracker, plan, distances, parties, pair, wanted),
    }
}

// A script over a tracker of its own.
fn play_script<R: Threads + Wait + Sync + Abort>(
    rt: &R,
    alloc: Global,
    plan: &Plan,
    distances: &Distances,
    home: u32,
    script: Script<'_>,
    wanted: &str,
)
    requires belongs { plan.now.distances ≡ distances.now }
    requires inside { home < nodes_of plan.now }
    requires nodes { 4 ≤ nodes_of plan.now }
{
    let Script {
        is_switching,
        visits,
        rows,
        end,
    } = script;
    let (tracker, mut parties) = open(rt, alloc, plan, home, is_switching);
    play_from_opening(
        rt,
        alloc,
        &tracker,
        plan,
        distances,
        &mut parties,
        visits,
        rows,
    );
    finish(rt, alloc, tracker, plan, distances, parties, end, wanted);
}

fn play_over<R: Threads + Wait + Sync + Abort>(
    rt: &R,
    alloc: Global,
    plan: &Plan,
    distances: &Distances,
    subject: Subject<'_>,
    wanted: &str,
)
    requires belongs { plan.now.distances ≡ distances.now }
{
    assert!(rt; plan.nodes() >= 4, "there are four nodes or more");
    let home = plan.nodes() - 1;
    match subject {
        Subject::Script(script) => play_script(rt, alloc, plan, distances, home, script, wanted),
        Subject::Bounds => bound_tests::tell(rt, alloc, plan, wanted),
        Subject::Rooms => room_tests::tell_rooms(rt, alloc, plan, home, wanted),
        Subject::Crowd => room_tests::tell_crowd(rt, alloc, plan, home, wanted),
        Subject::Find => room_tests::tell_find(rt, alloc, plan, distances, home, wanted),
        Subject::Many => room_tests::tell_many(rt, alloc, plan, home, wanted),
    }
}

/// Plays over a plan. What is seen at the end is to be shown as is wanted.
pub fn perform<R: Threads + Wait + Sync + Abort>(
    rt: &R,
    alloc: Global,
    over: Over,
    subject: Subject<'_>,
    wanted: &str,
) -> Result<(), Fail> {
    let (plan, distances) = plan_of(alloc, over)?;
    play_over(rt, alloc, &plan, &distances, subject, wanted);
    Ok(())
}
