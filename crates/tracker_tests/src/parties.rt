//! A tracker with one subscriber and two callers, and what they have at hand.

ghost use Rattle.std.specs.Prelude.{◌≡◌, ◌+◌, ◌<◌, ◌∷◌, [], All, IfOk, length};
ghost use Rattle.region_plan.specs.Plan.{nodes_of};
ghost use Rattle.station.specs.Handsets.{IsHandsetOf};
ghost use Rattle.station.specs.Opening.{setup_of};
ghost use Rattle.station.specs.Passes.{AreFresh, IsFreshPass, IsPassOf, fresh_view};
ghost use Rattle.tracker_tests.specs.Ready.{AreNew, AreReady};

use crate::sameness::same_shown;
use handset::Handset;
use region_plan::Plan;
use station::{CloseCause, CloseFault, Pass, Tracker};
use std::alloc::{AllocError, Global};
use std::process::Abort;

// The pass of the subscriber with its handset, and the passes of the callers.
#[derive(Drop)]
pub struct Parties {
    pub own: Pass,
    pub caller: Pass,
    pub other: Pass,
    pub handset: Handset,
}

// A tracker of a subscriber that starts at this node, at rest or about to switch off, and its
// parties.
pub fn open(
    rt: &impl Abort,
    alloc: Global,
    plan: &Plan,
    home: u32,
    is_switching: bool,
) -> (Tracker, Parties)
    requires inside { home < nodes_of plan.now }
    ensures setup { result.0.setup ≡ setup_of plan.now (home ∷ []) 3 }
    ensures parties { AreNew result.0 result.1.own result.1.caller result.1.other
        result.1.handset }
{
    let handset = handset_for(rt, alloc, plan, home, is_switching);
    let (tracker, passes) = Tracker::new(alloc, plan, &[home], 2).expect(rt, "memory");
    let parties = parties_of(&tracker, passes, handset);
    (tracker, parties)
}

// The parties of the fresh passes of a tracker.
fn parties_of(tracker: &Tracker, mut passes: Vec<Pass>, handset: Handset) -> Parties
    requires fresh { AreFresh tracker.now passes.items }
    requires count { length passes.items ≡ 3 }
    requires handset { IsHandsetOf tracker.now.setup (fresh_view tracker.now.setup 0) handset }
    ensures { AreNew tracker.now result.own result.caller result.other result.handset }
{
    let other = next_pass(tracker, &mut passes, 2);
    let caller = next_pass(tracker, &mut passes, 1);
    let own = next_pass(tracker, &mut passes, 0);
    Parties {
        own,
        caller,
        other,
        handset,
    }
}

// Sees to room for so many visits in each pass.
pub fn reserve_all(rt: &impl Abort, tracker: &Tracker, parties: &mut Parties, visits: u32)
    requires { AreNew tracker.now parties.old.own parties.old.caller parties.old.other
        parties.old.handset }
    ensures { AreReady tracker.now parties.new.own parties.new.caller parties.new.other
        parties.new.handset }
{
    let _ = tracker;
    let visits = u64::from(visits);
    parties.own.reserve(visits).expect(rt, "memory");
    parties.caller.reserve(visits).expect(rt, "memory");
    parties.other.reserve(visits).expect(rt, "memory");
}

// The last of some fresh passes.
pub fn next_pass(tracker: &Tracker, passes: &mut Vec<Pass>, actor: u32) -> Pass
    requires fresh { AreFresh tracker.now passes.old.items }
    requires count { length passes.old.items ≡ actor + 1 }
    ensures fresh { AreFresh tracker.now passes.new.items }
    ensures count { length passes.new.items ≡ actor }
    ensures is_fresh { IsFreshPass tracker.now actor result }
{
    let _ = tracker;
    let Some(pass) = passes.pop() else {
        unreachable!()
    };
    pass
}

// The handset of the subscriber.
fn handset_for(
    rt: &impl Abort,
    alloc: Global,
    plan: &Plan,
    home: u32,
    is_switching: bool,
) -> Handset
    requires inside { home < nodes_of plan.now }
    ensures own { IsHandsetOf (setup_of plan.now (home ∷ []) 3)
        (fresh_view (setup_of plan.now (home ∷ []) 3) 0) result }
{
    let made = if is_switching {
        switching_handset(rt, alloc, plan, home)
    } else {
        resting_handset(alloc, plan, home)
    };
    made.expect(rt, "memory")
}

// The handset at rest.
fn resting_handset(alloc: Global, plan: &Plan, home: u32) -> Result<Handset, AllocError>
    requires inside { home < nodes_of plan.now }
    ensures own { IfOk result (IsHandsetOf (setup_of plan.now (home ∷ []) 3)
        (fresh_view (setup_of plan.now (home ∷ []) 3) 0)) }
{
    let handset = Handset::new(alloc, 0, home, plan)?;
    Ok(handset)
}

// The handset, which has begun to switch off.
fn switching_handset(
    rt: &impl Abort,
    alloc: Global,
    plan: &Plan,
    home: u32,
) -> Result<Handset, AllocError>
    requires inside { home < nodes_of plan.now }
    ensures own { IfOk result (IsHandsetOf (setup_of plan.now (home ∷ []) 3)
        (fresh_view (setup_of plan.now (home ∷ []) 3) 0)) }
{
    let mut handset = Handset::new(alloc, 0, home, plan)?;
    match handset.switch(true) {
        Ok(()) => Ok(handset),
        Err(_) => panic!(rt; "the switch begins"),
    }
}

// The pass that is handed in before the last one, and the last: that of the subscriber or of the
// first caller.
fn in_order(tracker: &Tracker, own: Pass, caller: Pass, own_is_last: bool) -> (Pass, Pass)
    requires own { IsPassOf tracker.now own }
    requires caller { IsPassOf tracker.now caller }
    ensures one { IsPassOf tracker.now result.0 }
    ensures last { IsPassOf tracker.now result.1 }
{
    let _ = tracker;
    if own_is_last {
        return (caller, own);
    }
    (own, caller)
}

// Closes a tracker, first without its last pass: why that fails, and the actor of each ticket.
fn close_twice(
    rt: &impl Abort,
    alloc: Global,
    tracker: Tracker,
    one: Pass,
    two: Pass,
    last: Pass,
) -> (CloseCause, Vec<u32>)
    requires one { IsPassOf tracker one }
    requires two { IsPassOf tracker two }
    requires last { IsPassOf tracker last }
{
    let mut passes = Vec::with_capacity(alloc, 2).expect(rt, "memory");
    passes.push_reserved(one);
    passes.push_reserved(two);
    let CloseFault {
        cause,
        tracker,
        mut passes,
    } = tracker
        .close(alloc, passes)
        .expect_err(rt, "a pass is missing");
    passes.push(last).expect(rt, "memory");
    (cause, order_of(rt, alloc, tracker, passes))
}

/// The actor of each ticket of a tracker whose passes are all handed in.
pub fn order_of(rt: &impl Abort, alloc: Global, tracker: Tracker, passes: Vec<Pass>) -> Vec<u32>
    requires { All (IsPassOf tracker) passes.items }
{
    let closed = tracker.close(alloc, passes);
    closed.ok().expect(rt, "all passes are there")
}

// Closes a tracker, first without the pass of the subscriber or of the first caller. Why that fails
// and the actor of each ticket are to be shown so.
pub fn close(
    rt: &impl Abort,
    alloc: Global,
    tracker: Tracker,
    parties: Parties,
    own_is_last: bool,
    wanted: &str,
)
    requires { AreReady tracker parties.own parties.caller parties.other parties.handset }
{
    let Parties {
        own,
        caller,
        other,
        handset: _,
    } = parties;
    let (two, last) = in_order(&tracker, own, caller, own_is_last);
    let ended = close_twice(rt, alloc, tracker, other, two, last);
    same_shown(rt, alloc, usize::MAX, &ended, wanted);
}
