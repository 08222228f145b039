//! The thread that moves the subscriber.
ghost use Rattle.station.specs.Handsets.{IsHandsetOf};
ghost use Rattle.station.specs.Passes.{IsFree};
ghost use Rattle.four_threads.specs.Ready.{IsReady};

use crate::stop::Stop;
use distances::Distances;
use handset::Handset;
use region_plan::Plan;
use station::{Pass, Tracker};
use std::sync::Wait;
use tracker_calls::{MoveToFault, Moved, move_to};

// How many moves are made in a round.
const MOVES: u32 = 500;

// One move, which leaves the pass and the handset fit for the next.
fn move_once<R: Wait>(
    rt: &R,
    tracker: &Tracker,
    plan: &Plan,
    distances: &Distances,
    pass: &mut Pass,
    handset: &mut Handset,
    to: u32,
) -> Result<Moved, MoveToFault>
    requires ready { IsReady tracker.now plan.now distances.now }
    requires free { IsFree tracker.now 0 pass.old }
    requires own { IsHandsetOf tracker.now.setup pass.old.view handset.old }
    ensures free { IsFree tracker.now 0 pass.new }
    ensures own { IsHandsetOf tracker.now.setup pass.new.view handset.new }
{
    match move_to(rt, tracker, pass, plan, distances, handset, to) {
        Ok(moved) => Ok(moved),
        Err(fault) => Err(fault),
    }
}

/// Moves between nodes 3 and 0, to and fro.
pub fn move_on<R: Wait>(
    rt: &R,
    tracker: &Tracker,
    plan: &Plan,
    distances: &Distances,
    mut pass: Pass,
    mut handset: Handset,
) -> (Result<(), Stop>, Pass, Handset)
    requires ready { IsReady tracker.now plan.now distances.now }
    requires free { IsFree tracker.now 0 pass }
    requires own { IsHandsetOf tracker.now.setup pass.view handset }
    ensures free { IsFree tracker.now 0 result.1 }
    ensures own { IsHandsetOf tracker.now.setup result.1.view result.2 }
{
    'moves: for _ in 0..MOVES {
        let to = if handset.place() == 3 { 0 } else { 3 };
        let moved = move_once(rt, tracker, plan, distances, &mut pass, &mut handset, to);
        if let Err(fault) = moved {
            return (Err(Stop::Move(fault)), pass, handset);
        }
    }
    (Ok(()), pass, handset)
}
