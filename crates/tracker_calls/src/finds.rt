//! Finds, look by look.
ghost use Rattle.std.specs.Prelude.{◌≡◌, None, MatchResult};
ghost use Rattle.directory.specs.Finds.{FindCall, at_origin};
ghost use Rattle.station.specs.Passes.{IsPassOf, TrackerData};
ghost use Rattle.station.specs.Setup.{subs_in};
ghost use Rattle.walk.specs.Walks.{IsWalkOver, call_of, pursuit_of};
ghost use Rattle.tracker_calls.specs.Finds.{HasFound, IsFindFault, IsRefusal, MayFind};

use crate::walking::{walk_on, walk_through};
use directory::Found;
use distances::Distances;
use region_plan::Plan;
use station::{Held, Pass, Tracker};
use std::sync::Wait;
use walk::{Walk, WalkFault};

/// Why a find has no answer now: the first of these that holds. After `Held` the find may be made
/// again; its looks so far are visits like others, which have used room of the pass. Otherwise
/// nothing has changed.
#[derive(Clone, Copy, PartialEq, Eq, Debug)]
pub enum FindFault {
    /// There is no such node.
    NoNode,
    /// There is no such subscriber.
    NoSubscriber,
    /// The pass has no room for so many visits.
    Unreserved { need: u64 },
    /// Another pass was inside the node of the next look: that of the actor `by`.
    Held { node: u32, by: u32 },
}

/// Why a find can't begin: the first of these that holds.
#[derive(Clone, Copy, PartialEq, Eq, Debug)]
pub enum FindRefusal {
    /// There is no such node.
    NoNode,
    /// There is no such subscriber.
    NoSubscriber,
    /// The pass has no room for so many visits.
    Unreserved { need: u64 },
}

/// Finds a subscriber from a node, unless another pass is inside a node on the way. It waits for
/// nobody.
pub fn find_now(
    tracker: &Tracker,
    pass: &mut Pass,
    plan: &Plan,
    distances: &Distances,
    subs: u32,
    from: u32,
    sub: u32,
) -> Result<Found, FindFault>
    requires of { IsPassOf tracker.now pass.old }
    requires plan { plan.now ≡ tracker.now.setup.plan }
    requires belongs { plan.now.distances ≡ distances.now }
    requires subs { subs ≡ subs_in tracker.now.setup }
    requires outside { pass.old.view.inside ≡ None }
    ensures find { let call : FindCall = record { from = from; sub = sub } in MatchResult result
        (λ found. MayFind tracker.now.setup pass.old call
        × HasFound tracker.now.setup pass.old call found pass.new
        × (pass.new.view.lost ≡ pass.old.view.lost))
        (λ fault. IsFindFault tracker.now.setup pass.old call fault pass.new) }
{
    let mut walk = match begin_walk(pass, plan, subs, from, sub) {
        Ok(walk) => walk,
        Err(FindRefusal::NoNode) => return Err(FindFault::NoNode),
        Err(FindRefusal::NoSubscriber) => return Err(FindFault::NoSubscriber),
        Err(FindRefusal::Unreserved { need }) => return Err(FindFault::Unreserved { need }),
    };
    match walk_on(tracker, pass, plan, distances, &mut walk) {
        Ok(found) => Ok(found),
        Err(Held { node, by }) => Err(FindFault::Held { node, by }),
    }
}

/// Finds a subscriber from a node. It waits at each node on the way until no other pass is inside.
/// It may wait for ever.
pub fn find<R: Wait>(
    rt: &R,
    tracker: &Tracker,
    pass: &mut Pass,
    plan: &Plan,
    distances: &Distances,
    subs: u32,
    from: u32,
    sub: u32,
) -> Result<Found, FindRefusal>
    requires of { IsPassOf tracker.now pass.old }
    requires plan { plan.now ≡ tracker.now.setup.plan }
    requires belongs { plan.now.distances ≡ distances.now }
    requires subs { subs ≡ subs_in tracker.now.setup }
    requires outside { pass.old.view.inside ≡ None }
    ensures find { let call : FindCall = record { from = from; sub = sub } in MatchResult result
        (λ found. MayFind tracker.now.setup pass.old call
        × HasFound tracker.now.setup pass.old call found pass.new)
        (λ refusal. IsRefusal tracker.now.setup pass.old call refusal × (pass.new ≡ pass.old)) }
{
    let mut walk = begin_walk(pass, plan, subs, from, sub)?;
    Ok(walk_through(rt, tracker, pass, plan, distances, &mut walk))
}

// The walk of a find that may begin.
fn begin_walk(pass: &Pass, plan: &Plan, subs: u32, from: u32, sub: u32) -> Result<Walk, FindRefusal>
    ensures { (tracker : TrackerData) → plan.now ≡ tracker.setup.plan → subs ≡ subs_in tracker.setup
        → let call : FindCall = record { from = from; sub = sub } in MatchResult result
        (λ walk. MayFind tracker.setup pass.now call
        × (call_of walk ≡ call)
        × IsWalkOver tracker.setup.plan walk × (pursuit_of tracker.setup.plan walk ≡ at_origin))
        (λ refusal. IsRefusal tracker.setup pass.now call refusal) }
{
    let walk = match Walk::new(from, sub, subs, plan) {
        Ok(walk) => walk,
        Err(WalkFault::NoNode) => return Err(FindRefusal::NoNode),
        Err(WalkFault::NoSubscriber) => return Err(FindRefusal::NoSubscriber),
    };
    let need = plan.most_looks(from);
    if pass.spare() < need {
        return Err(FindRefusal::Unreserved { need });
    }
    Ok(walk)
}
