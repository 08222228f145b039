//! Whole moves, which wait at each node on the way.
ghost use Rattle.std.specs.Prelude.{◌≡◌, ◌≤◌, [], None, IsSome, MatchResult};
ghost use Rattle.directory.specs.Keys.{act_node};
ghost use Rattle.handset.specs.Condition.{GoesWith};
ghost use Rattle.handset.specs.StepWrites.{due};
ghost use Rattle.region_plan.specs.Settings.{setting_of};
ghost use Rattle.station.specs.Handsets.{IsHandsetOf};
ghost use Rattle.station.specs.Passes.{IsPassOf, PassData};
ghost use Rattle.station.specs.Setup.{setting_in};
ghost use Rattle.tracker_calls.specs.Added.{HasTried};
ghost use Rattle.tracker_calls.specs.Moves.{HasStepped};
ghost use Rattle.tracker_calls.specs.WholeMoves.{HasMoved, IsMoveToFault, MayMoveTo};

use directory::{histories_begin, moves_are_short};
use distances::Distances;
use handset::Handset;
use region_plan::{Plan, plan_is_sound};
use station::{Pass, Tracker};
use std::sync::Wait;
use std::thread::yield_now;

/// A whole move: its number, and the tickets of its first put, of its commit and of its last put.
#[derive(Clone, Copy, PartialEq, Eq, Debug)]
pub struct Moved {
    pub number: u32,
    pub first: u64,
    pub commit: u64,
    pub last: u64,
}

/// Why a whole move isn't made: the first of these that holds. Nothing has changed then. After
/// `Unreserved` the move may be made once the pass has reserved so much; after `UnderWay` once
/// `move_step` has made the puts that are left.
#[derive(Clone, Copy, PartialEq, Eq, Debug)]
pub enum MoveToFault {
    /// There is no such node.
    NoNode,
    /// The subscriber stands there.
    SamePlace,
    /// A step that was begun has puts left.
    UnderWay,
    /// The subscriber is off.
    IsOff,
    /// The greatest number has been given to a move.
    NumbersSpent,
    /// The pass has no room for so many visits.
    Unreserved { need: u64 },
}

/// Moves a subscriber to a node: all puts of the move. It waits at each node on the way until no
/// other pass is inside. It may wait for ever. After a refusal all is as before.
pub fn move_to<R: Wait>(
    rt: &R,
    tracker: &Tracker,
    pass: &mut Pass,
    plan: &Plan,
    distances: &Distances,
    handset: &mut Handset,
    to: u32,
) -> Result<Moved, MoveToFault>
    requires of { IsPassOf tracker.now pass.old }
    requires plan { plan.now ≡ tracker.now.setup.plan }
    requires belongs { plan.now.distances ≡ distances.now }
    requires outside { pass.old.view.inside ≡ None }
    requires handset { IsHandsetOf tracker.now.setup pass.old.view handset.old }
    ensures moved { MatchResult result
        (λ moved. MayMoveTo plan.now pass.old handset.old to
        × HasMoved tracker.now.setup pass.old handset.old to moved pass.new handset.new)
        (λ fault. IsMoveToFault plan.now pass.old handset.old to fault
        × (pass.new ≡ pass.old) × (handset.new ≡ handset.old)) }
{
    histories_begin();
    moves_are_short();
    plan_is_sound(plan);
    may_move_to(pass, plan, handset, to)?;
    let number = handset.number();
    let Ok(()) = handset.begin(plan, distances, to) else {
        unreachable!()
    };
    let first = put_when_free(rt, tracker, pass, plan, handset);
    let mut moved = Moved {
        number: number + 1,
        first,
        commit: first,
        last: first,
    };
    'puts: while handset.next(plan).is_some() {
        let commits = handset.commits();
        moved.last = put_when_free(rt, tracker, pass, plan, handset);
        if commits {
            moved.commit = moved.last;
        }
    }
    Ok(moved)
}

// Whether a move may begin, and its pass has room for all its puts.
fn may_move_to(pass: &Pass, plan: &Plan, handset: &Handset, to: u32) -> Result<(), MoveToFault>
    requires goes { GoesWith plan.now handset.now }
    ensures may { MatchResult result (λ _. MayMoveTo plan.now pass.now handset.now to)
        (λ fault. IsMoveToFault plan.now pass.now handset.now to fault) }
{
    if to >= plan.nodes() {
        return Err(MoveToFault::NoNode);
    }
    if to == handset.place() {
        return Err(MoveToFault::SamePlace);
    }
    if handset.next(plan).is_some() {
        return Err(MoveToFault::UnderWay);
    }
    if handset.is_off() {
        return Err(MoveToFault::IsOff);
    }
    if handset.number() == u32::MAX {
        return Err(MoveToFault::NumbersSpent);
    }
    let need = plan.most_writes();
    if pass.spare() < need {
        return Err(MoveToFault::Unreserved { need });
    }
    Ok(())
}

// Makes the next put of a move once its node is free, and answers its ticket.
fn put_when_free<R: Wait>(
    rt: &R,
    tracker: &Tracker,
    pass: &mut Pass,
    plan: &Plan,
    handset: &mut Handset,
) -> u64
    requires of { IsPassOf tracker.now pass.old }
    requires plan { plan.now ≡ tracker.now.setup.plan }
    requires outside { pass.old.view.inside ≡ None }
    requires spare { 1 ≤ pass.old.spare }
    requires handset { IsHandsetOf tracker.now.setup pass.old.view handset.old }
    requires left { IsSome (due (setting_of plan.now []) handset.old) }
    ensures put { (tried : PassData) × (stepped : HasStepped tracker.now.setup tried handset.old
        result pass.new handset.new)
        × HasTried (act_node (setting_in tracker.now.setup) stepped.visit.act) pass.old tried }
{
    'tries: for _ in rt.forever() {
        if let Ok(ticket) = tracker.visit_put(pass, plan, handset) {
            return ticket;
        }
        yield_now();
    }
    unreachable!()
}
