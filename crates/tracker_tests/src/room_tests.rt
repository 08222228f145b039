//! Passes with much room, a tracker with as many actors and nodes as there may be, and one of some
//! thousand visits.

ghost use Rattle.std.specs.Prelude.{◌≡◌, ◌<◌, ◌≤◌, ◌^◌, []};
ghost use Rattle.region_plan.specs.Plan.{nodes_of};
ghost use Rattle.station.specs.Passes.{AreFresh, IsFreshPass, IsPassOf};
ghost use Rattle.station.specs.Setup.{nodes_in, subs_in};

use crate::parties::{next_pass, order_of};
use crate::plays::{Over, Subject, perform};
use crate::sameness::same_shown;
use directory::Found;
use distances::Distances;
use entry_word::Key;
use region_plan::Plan;
use station::{CensusSeen, Looked, Pass, Tracker};
use std::alloc::Global;
use std::process::Abort;
use std::test::Fail;
use tracker_calls::find_now;

// Whether a pass that has seen nothing has room for so many visits from now on.
fn has_reserved(pass: &mut Pass, visits: u64) -> bool
    requires fresh { pass.old.view.seen ≡ [] }
    requires few { visits ≤ 2 ^ 56 }
    ensures fresh { pass.new.view.seen ≡ [] }
{
    match pass.reserve(visits) {
        Ok(()) => true,
        Err(_) => false,
    }
}

// For how many visits there is room after each of some reserves, of 9 first: what is reserved
// stays, and room that no memory has is refused.
fn rooms(mut pass: Pass) -> [u64; 5]
    requires fresh { pass.view.seen ≡ [] }
{
    let _ = has_reserved(&mut pass, 9);
    let first = pass.spare();
    let some = u64::from(has_reserved(&mut pass, 1 << 23));
    let more = pass.spare();
    let most = u64::from(has_reserved(&mut pass, 1 << 50));
    let few = u64::from(has_reserved(&mut pass, 9));
    [first, more, pass.spare(), some, most + 2 * few]
}

/// The same of the subscriber's pass of a new tracker without callers.
pub fn tell_rooms(rt: &impl Abort, alloc: Global, plan: &Plan, home: u32, wanted: &str)
    requires inside { home < nodes_of plan.now }
{
    let (tracker, mut passes) = Tracker::new(alloc, plan, &[home], 0).expect(rt, "memory");
    let pass = next_pass(&tracker, &mut passes, 0);
    same_shown(rt, alloc, 0, &rooms(pass), wanted);
}

#[test]
fn room_for_many_visits(rt: HostRuntime) -> Result<(), Fail> {
    let wanted = "[9, 8388608, 8388608, 1, 2]";
    perform(&rt, rt.alloc(), Over::Line, Subject::Rooms, wanted)
}

// The passes of all but the last two actors, and of these.
#[derive(Drop)]
struct Crowd {
    passes: Vec<Pass>,
    one: Pass,
    last: Pass,
}

// A tracker of the most subscribers, all at one node, and of the most callers, with their passes.
fn open_all(rt: &impl Abort, alloc: Global, plan: &Plan, home: u32) -> (Tracker, Crowd)
    requires inside { home < nodes_of plan.now }
    ensures plan { result.0.setup.plan ≡ plan.now }
    ensures subs { subs_in result.0.setup ≡ 64 }
    ensures fresh { AreFresh result.0 result.1.passes.items }
    ensures one { IsFreshPass result.0 126 result.1.one }
    ensures last { IsFreshPass result.0 127 result.1.last }
{
    let (tracker, mut passes) = Tracker::new(alloc, plan, &[home; 64], 64).expect(rt, "memory");
    assert!(rt; passes.len() == 128, "there are 128 actors");
    let last = next_pass(&tracker, &mut passes, 127);
    let one = next_pass(&tracker, &mut passes, 126);
    (tracker, Crowd { passes, one, last })
}

// A census of a node by the last pass, and then a look by the one before it for the last
// subscriber, where either has room for 9 visits.
fn visits(
    tracker: &Tracker,
    plan: &Plan,
    crowd: &mut Crowd,
    node: u32,
) -> Option<(CensusSeen, Looked)>
    requires plan { plan.now ≡ tracker.now.setup.plan }
    requires node { node < nodes_in tracker.now.setup }
    requires subs { subs_in tracker.now.setup ≡ 64 }
    requires fresh { AreFresh tracker.now crowd.old.passes.items }
    requires one { IsFreshPass tracker.now 126 crowd.old.one }
    requires last { IsFreshPass tracker.now 127 crowd.old.last }
    ensures fresh { AreFresh tracker.now crowd.new.passes.items }
    ensures one { IsPassOf tracker.now crowd.new.one }
    ensures last { IsPassOf tracker.now crowd.new.last }
{
    crowd.last.reserve(9).ok()?;
    crowd.one.reserve(9).ok()?;
    let everybody = tracker.visit_census(&mut crowd.last, node).ok()?;
    let here = Key::Presence { node, sub: 63 };
    let looked = tracker.visit_look(&mut crowd.one, plan, here).ok()?;
    Some((everybody, looked))
}

// Closes a tracker with some fresh passes and two more.
fn close_all(rt: &impl Abort, alloc: Global, tracker: Tracker, crowd: Crowd) -> Vec<u32>
    requires fresh { AreFresh tracker crowd.passes.items }
    requires one { IsPassOf tracker crowd.one }
    requires last { IsPassOf tracker crowd.last }
{
    let Crowd {
        mut passes,
        one,
        last,
    } = crowd;
    passes.reserve(2).expect(rt, "memory");
    passes.push_reserved(one);
    passes.push_reserved(last);
    order_of(rt, alloc, tracker, passes)
}

/// Those visits, and the actors of their tickets at the end.
pub fn tell_crowd(rt: &impl Abort, alloc: Global, plan: &Plan, home: u32, wanted: &str)
    requires inside { home < nodes_of plan.now }
{
    let (tracker, mut crowd) = open_all(rt, alloc, plan, home);
    let seen = visits(&tracker, plan, &mut crowd, home);
    let order = close_all(rt, alloc, tracker, crowd);
    same_shown(rt, alloc, 0, &(seen, order), wanted);
}

// The word of the look is that of a subscriber's presence where it starts.
#[test]
fn as_many_actors_as_there_may_be(rt: HostRuntime) -> Result<(), Fail> {
    let wanted = "(Some((CensusSeen { ticket: 0, who: 18446744073709551615, count: 64 }, \
        Looked { ticket: 1, word: 281474976710656 })), [127, 126])";
    perform(&rt, rt.alloc(), Over::MostNodes, Subject::Crowd, wanted)
}

// What a find of the last of 64 subscribers answers, where its pass has room for 1029 visits, and
// what the pass then says: its actor, how many visits it knows of, and for how many it has room.
fn find_of_last(
    tracker: &Tracker,
    pass: &mut Pass,
    plan: &Plan,
    distances: &Distances,
) -> (Option<Found>, [u64; 3])
    requires plan { plan.now ≡ tracker.now.setup.plan }
    requires belongs { plan.now.distances ≡ distances.now }
    requires subs { subs_in tracker.now.setup ≡ 64 }
    requires fresh { IsFreshPass tracker.now 127 pass.old }
{
    if pass.reserve(1029).is_err() {
        return (None, [0; 3]);
    }
    let found = find_now(tracker, pass, plan, distances, 64, 0, 63).ok();
    (found, [u64::from(pass.actor()), pass.seen(), pass.spare()])
}

/// The same of the last caller.
pub fn tell_find(
    rt: &impl Abort,
    alloc: Global,
    plan: &Plan,
    distances: &Distances,
    home: u32,
    wanted: &str,
)
    requires inside { home < nodes_of plan.now }
    requires belongs { plan.now.distances ≡ distances.now }
{
    let (tracker, mut crowd) = open_all(rt, alloc, plan, home);
    let seen = find_of_last(&tracker, &mut crowd.last, plan, distances);
    same_shown(rt, alloc, 0, &seen, wanted);
}

#[test]
fn a_find_among_all(rt: HostRuntime) -> Result<(), Fail> {
    let wanted = "(Some(At { node: 1023, number: 0, level: Some(0), weight: 1023 }), \
        [127, 3, 1026])";
    perform(&rt, rt.alloc(), Over::MostNodes, Subject::Find, wanted)
}

// So many censuses of a node by one fresh pass; whether each was made.
fn count_often(tracker: &Tracker, pass: &mut Pass, actor: u32, node: u32, times: u32) -> bool
    requires node { node < nodes_in tracker.now.setup }
    requires fresh { IsFreshPass tracker.now actor pass.old }
    ensures of { IsPassOf tracker.now pass.new }
{
    let _ = actor;
    if pass.reserve(u64::from(times)).is_err() {
        return false;
    }
    for _step in 0..times {
        if tracker.visit_census(pass, node).is_err() {
            return false;
        }
    }
    true
}

// Whether each of some numbers is this one.
fn are_all(numbers: &[u32], wanted: u32) -> bool {
    for number in numbers {
        if *number != wanted {
            return false;
        }
    }
    true
}

// Whether an order is that: so many tickets of the caller, and as many of the subscriber.
fn are_in_turn(order: &[u32], times: usize) -> bool {
    if times > order.len() {
        return false;
    }
    let (first, rest) = order.split_at(times);
    rest.len() == times && are_all(first, 1) && are_all(rest, 0)
}

// The actors of the tickets where the caller counts so often at one node, and then the subscriber
// at node 0; and whether each count was made.
fn order_of_many(
    rt: &impl Abort,
    alloc: Global,
    plan: &Plan,
    home: u32,
    times: u32,
) -> (bool, Vec<u32>)
    requires inside { home < nodes_of plan.now }
{
    let (tracker, mut passes) = Tracker::new(alloc, plan, &[home], 1).expect(rt, "memory");
    let mut last = next_pass(&tracker, &mut passes, 1);
    let mut one = next_pass(&tracker, &mut passes, 0);
    let first = count_often(&tracker, &mut last, 1, home, times);
    let second = count_often(&tracker, &mut one, 0, 0, times);
    let order = close_all(rt, alloc, tracker, Crowd { passes, one, last });
    (first && second, order)
}

/// Whether the counts were made, and such an order is that of 5000 visits each.
pub fn tell_many(rt: &impl Abort, alloc: Global, plan: &Plan, home: u32, wanted: &str)
    requires inside { home < nodes_of plan.now }
{
    let (made, order) = order_of_many(rt, alloc, plan, home, 5_000);
    same_shown(rt, alloc, 0, &(made, are_in_turn(&order, 5_000)), wanted);
}

#[test]
fn a_tracker_of_many_visits(rt: HostRuntime) -> Result<(), Fail> {
    perform(&rt, rt.alloc(), Over::Line, Subject::Many, "(true, true)")
}
