//! A thread that finds the subscriber.
ghost use Rattle.std.specs.Prelude.{OnOk};
ghost use Rattle.station.specs.Passes.{IsFree, IsNoteOf};
ghost use Rattle.four_threads.specs.Ready.{IsReady};

use crate::stop::Stop;
use crate::tally::Tally;
use directory::Found;
use distances::Distances;
use region_plan::Plan;
use station::{Note, Pass, Tracker};
use std::sync::Wait;
use tracker_calls::{FindRefusal, find};

// How many answers a finder wants in a round.
const ANSWERS: u32 = 500;

// One find, which leaves the pass fit for the next.
fn find_once<R: Wait>(
    rt: &R,
    tracker: &Tracker,
    plan: &Plan,
    distances: &Distances,
    pass: &mut Pass,
    from: u32,
) -> Result<Found, FindRefusal>
    requires ready { IsReady tracker.now plan.now distances.now }
    requires free { IsFree tracker.now 0 pass.old }
    ensures free { IsFree tracker.now 0 pass.new }
{
    match find(rt, tracker, pass, plan, distances, 1, from, 0) {
        Ok(found) => Ok(found),
        Err(refusal) => Err(refusal),
    }
}

// Finds until there is an answer: a find that a move fell into may have to be made again.
fn find_until_answered<R: Wait>(
    rt: &R,
    tracker: &Tracker,
    plan: &Plan,
    distances: &Distances,
    pass: &mut Pass,
    from: u32,
) -> Result<Found, FindRefusal>
    requires ready { IsReady tracker.now plan.now distances.now }
    requires free { IsFree tracker.now 0 pass.old }
    ensures free { IsFree tracker.now 0 pass.new }
{
    'tries: for _ in rt.forever() {
        match find_once(rt, tracker, plan, distances, pass, from) {
            Ok(Found::Again { .. }) => {}
            answer => return answer,
        }
    }
    unreachable!()
}

/// Hears what the mover had seen, and then finds the subscriber from a node, again and again. The
/// numbers of the answers are no lower than the number that the note brought.
pub fn find_on<R: Wait>(
    rt: &R,
    tracker: &Tracker,
    plan: &Plan,
    distances: &Distances,
    mut pass: Pass,
    note: Note,
    known: u32,
    from: u32,
) -> (Result<Tally, Stop>, Pass)
    requires ready { IsReady tracker.now plan.now distances.now }
    requires free { IsFree tracker.now 0 pass }
    requires note { IsNoteOf tracker.now note }
    ensures free { IsFree tracker.now 0 result.1 }
{
    tracker.hear(&mut pass, note);
    let mut tally = Tally::new(known);
    'finds: for _ in 0..ANSWERS {
        match find_until_answered(rt, tracker, plan, distances, &mut pass, from) {
            Ok(found) => tally = tally.with(found),
            Err(refusal) => return (Err(Stop::Find(refusal)), pass),
        }
    }
    (Ok(tally), pass)
}
