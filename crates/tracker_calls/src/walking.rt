//! A walk over the tracker.
ghost use Rattle.std.specs.Prelude.{◌≡◌, ◌≤◌, ℕ, None, MatchResult};
ghost use Rattle.directory.specs.Finds.{answer_of, at_origin, most_looks};
ghost use Rattle.directory.specs.Keys.{key_node};
ghost use Rattle.station.specs.Passes.{PassData};
ghost use Rattle.station.specs.Setup.{setting_in};
ghost use Rattle.station.specs.Walking.{HasLookedOn, MayWalkOn};
ghost use Rattle.walk.specs.Walks.{call_of, pursuit_of};
ghost use Rattle.tracker_calls.specs.Added.{HasTried};
ghost use Rattle.tracker_calls.specs.Finds.{HasFound, HasStopped};

use busy_finds::plan_finds_are_bounded;
use directory::{Found, histories_begin, looks_fall, own_after};
use distances::Distances;
use region_plan::{Plan, plan_is_sound};
use station::{Held, Pass, Tracker};
use std::sync::Wait;
use std::thread::yield_now;
use stretch_laws::plan_finds_are_near;
use trail_laws::{again_has_its_cause, answers_are_right};
use walk::Walk;

// A walk that has looked at nothing goes on to its answer, unless a turn is lost.
pub fn walk_on(
    tracker: &Tracker,
    pass: &mut Pass,
    plan: &Plan,
    distances: &Distances,
    walk: &mut Walk,
) -> Result<Found, Held>
    requires way { MayWalkOn tracker.now plan.now distances.now pass.old walk.old }
    requires origin { pursuit_of tracker.now.setup.plan walk.old ≡ at_origin }
    requires spare { most_looks (setting_in tracker.now.setup) walk.old.from ≤ pass.old.spare }
    ensures found { MatchResult result
        (λ found. HasFound tracker.now.setup pass.old (call_of walk.old) found pass.new
        × (pass.new.view.lost ≡ pass.old.view.lost))
        (λ held. HasStopped tracker.now.setup pass.old (call_of walk.old) held pass.new) }
{
    own_after();
    histories_begin();
    looks_fall();
    answers_are_right();
    again_has_its_cause();
    plan_finds_are_near();
    plan_finds_are_bounded();
    plan_is_sound(plan);
    'looks: while walk.answer().is_none() {
        tracker.visit_walk(pass, plan, distances, walk)?;
    }
    let Some(found) = walk.answer() else {
        unreachable!()
    };
    Ok(found)
}

// A walk that has looked at nothing goes on to its answer, and waits at each node until it is free.
pub fn walk_through<R: Wait>(
    rt: &R,
    tracker: &Tracker,
    pass: &mut Pass,
    plan: &Plan,
    distances: &Distances,
    walk: &mut Walk,
) -> Found
    requires way { MayWalkOn tracker.now plan.now distances.now pass.old walk.old }
    requires origin { pursuit_of tracker.now.setup.plan walk.old ≡ at_origin }
    requires spare { most_looks (setting_in tracker.now.setup) walk.old.from ≤ pass.old.spare }
    ensures found { HasFound tracker.now.setup pass.old (call_of walk.old) result pass.new }
{
    own_after();
    histories_begin();
    looks_fall();
    answers_are_right();
    again_has_its_cause();
    plan_finds_are_near();
    plan_finds_are_bounded();
    plan_is_sound(plan);
    'looks: while walk.answer().is_none() {
        look_when_free(rt, tracker, pass, plan, distances, walk);
    }
    let Some(found) = walk.answer() else {
        unreachable!()
    };
    found
}

// The next look of a walk, once the node is free.
fn look_when_free<R: Wait>(
    rt: &R,
    tracker: &Tracker,
    pass: &mut Pass,
    plan: &Plan,
    distances: &Distances,
    walk: &mut Walk,
)
    requires way { MayWalkOn tracker.now plan.now distances.now pass.old walk.old }
    requires spare { 1 ≤ pass.old.spare }
    requires left { answer_of (pursuit_of tracker.now.setup.plan walk.old) ≡ None }
    ensures looked { (tried : PassData) × (ticket : ℕ)
        × (looked : HasLookedOn tracker.now.setup tried walk.old ticket pass.new walk.new)
        × HasTried (key_node (setting_in tracker.now.setup) looked.key) pass.old tried }
{
    'tries: for _ in rt.forever() {
        if let Ok(_ticket) = tracker.visit_walk(pass, plan, distances, walk) {
            return;
        }
        yield_now();
    }
    unreachable!()
}
