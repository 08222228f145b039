//! A round: all four at once.
ghost use Rattle.std.specs.Thread.{IsSync};
ghost use Rattle.station.specs.Handsets.{IsHandsetOf};
ghost use Rattle.station.specs.Passes.{IsFree, IsNoteOf};
ghost use Rattle.four_threads.specs.Ready.{IsCrewOf, IsReady};

use crate::crew::Crew;
use crate::finder::find_on;
use crate::mover::move_on;
use crate::stop::Stop;
use crate::tally::Tally;
use distances::Distances;
use handset::Handset;
use region_plan::Plan;
use station::{Note, Pass, Tracker};
use std::sync::Wait;
use std::thread::{Threads, join};

/// What the three finders counted.
#[derive(Clone, Copy)]
pub struct Tallies {
    pub near: Tally,
    pub middle: Tally,
    pub far: Tally,
}

// The mover and a finder at node 3, side by side.
fn mover_and_finder<R: Threads + Wait + Sync>(
    rt: &R,
    tracker: &Tracker,
    plan: &Plan,
    distances: &Distances,
    own: Pass,
    handset: Handset,
    other: Pass,
    note: Note,
) -> (
    (Result<(), Stop>, Pass, Handset),
    (Result<Tally, Stop>, Pass),
)
    requires ready { IsReady tracker.now plan.now distances.now }
    requires own { IsFree tracker.now 0 own }
    requires its { IsHandsetOf tracker.now.setup own.view handset }
    requires other { IsFree tracker.now 0 other }
    requires note { IsNoteOf tracker.now note }
    ensures own { IsFree tracker.now 0 result.0.1 }
    ensures its { IsHandsetOf tracker.now.setup result.0.1.view result.0.2 }
    ensures other { IsFree tracker.now 0 result.1.1 }
{
    let known = handset.number();
    join(
        rt,
        || -> (Result<(), Stop>, Pass, Handset)
            requires { IsSync R.row × IsReady tracker.now plan.now distances.now
                × IsFree tracker.now 0 own × IsHandsetOf tracker.now.setup own.view handset }
            ensures { IsFree tracker.entry.now 0 result.1
                × IsHandsetOf tracker.entry.now.setup result.1.view result.2 }
        { move_on(rt, tracker, plan, distances, own, handset) },
        || -> (Result<Tally, Stop>, Pass)
            requires { IsSync R.row × IsReady tracker.now plan.now distances.now
                × IsFree tracker.now 0 other × IsNoteOf tracker.now note }
            ensures { IsFree tracker.entry.now 0 result.1 }
        { find_on(rt, tracker, plan, distances, other, note, known, 3) },
    )
}

// Finders at nodes 1 and 0, side by side.
fn two_finders<R: Threads + Wait + Sync>(
    rt: &R,
    tracker: &Tracker,
    plan: &Plan,
    distances: &Distances,
    known: u32,
    one: Pass,
    note: Note,
    other: Pass,
    copy: Note,
) -> ((Result<Tally, Stop>, Pass), (Result<Tally, Stop>, Pass))
    requires ready { IsReady tracker.now plan.now distances.now }
    requires one { IsFree tracker.now 0 one }
    requires note { IsNoteOf tracker.now note }
    requires other { IsFree tracker.now 0 other }
    requires copy { IsNoteOf tracker.now copy }
    ensures one { IsFree tracker.now 0 result.0.1 }
    ensures other { IsFree tracker.now 0 result.1.1 }
{
    join(
        rt,
        || -> (Result<Tally, Stop>, Pass)
            requires { IsSync R.row × IsReady tracker.now plan.now distances.now
                × IsFree tracker.now 0 one × IsNoteOf tracker.now note }
            ensures { IsFree tracker.entry.now 0 result.1 }
        { find_on(rt, tracker, plan, distances, one, note, known, 1) },
        || -> (Result<Tally, Stop>, Pass)
            requires { IsSync R.row × IsReady tracker.now plan.now distances.now
                × IsFree tracker.now 0 other × IsNoteOf tracker.now copy }
            ensures { IsFree tracker.entry.now 0 result.1 }
        { find_on(rt, tracker, plan, distances, other, copy, known, 0) },
    )
}

// What the finders counted, where nobody stopped.
fn tallies_of(
    moved: Result<(), Stop>,
    near: Result<Tally, Stop>,
    middle: Result<Tally, Stop>,
    far: Result<Tally, Stop>,
) -> Result<Tallies, Stop> {
    moved?;
    Ok(Tallies {
        near: near?,
        middle: middle?,
        far: far?,
    })
}

// The crew after a round, and what its finders counted.
fn gather(
    tracker: &Tracker,
    moved: (Result<(), Stop>, Pass, Handset),
    far: (Result<Tally, Stop>, Pass),
    middle: (Result<Tally, Stop>, Pass),
    near: (Result<Tally, Stop>, Pass),
) -> (Crew, Result<Tallies, Stop>)
    requires own { IsFree tracker.now 0 moved.1 }
    requires its { IsHandsetOf tracker.now.setup moved.1.view moved.2 }
    requires far { IsFree tracker.now 0 far.1 }
    requires middle { IsFree tracker.now 0 middle.1 }
    requires near { IsFree tracker.now 0 near.1 }
    ensures crew { IsCrewOf tracker.now result.0 }
{
    let _ = tracker;
    let tallies = tallies_of(moved.0, near.0, middle.0, far.0);
    let crew = Crew {
        own: moved.1,
        handset: moved.2,
        near: near.1,
        middle: middle.1,
        far: far.1,
    };
    (crew, tallies)
}

/// A round: the mover notes what it has seen, and then all four run at once. Each finder hears a
/// note in its own thread.
pub fn round<R: Threads + Wait + Sync>(
    rt: &R,
    tracker: &Tracker,
    plan: &Plan,
    distances: &Distances,
    crew: Crew,
) -> (Crew, Result<Tallies, Stop>)
    requires ready { IsReady tracker.now plan.now distances.now }
    requires crew { IsCrewOf tracker.now crew }
    ensures crew { IsCrewOf tracker.now result.0 }
{
    let Crew {
        mut own,
        handset,
        near,
        middle,
        far,
    } = crew;
    let known = handset.number();
    let first = tracker.note(&mut own);
    let second = tracker.note(&mut own);
    let third = tracker.note(&mut own);
    let ((moved, found), (one, other)) = join(
        rt,
        || -> (
            (Result<(), Stop>, Pass, Handset),
            (Result<Tally, Stop>, Pass),
        )
            requires { IsSync R.row × IsReady tracker.now plan.now distances.now
                × IsFree tracker.now 0 own × IsHandsetOf tracker.now.setup own.view handset
                × IsFree tracker.now 0 far × IsNoteOf tracker.now first }
            ensures { IsFree tracker.entry.now 0 result.0.1
                × IsHandsetOf tracker.entry.now.setup result.0.1.view result.0.2
                × IsFree tracker.entry.now 0 result.1.1 }
        { mover_and_finder(rt, tracker, plan, distances, own, handset, far, first) },
        || -> ((Result<Tally, Stop>, Pass), (Result<Tally, Stop>, Pass))
            requires { IsSync R.row × IsReady tracker.now plan.now distances.now
                × IsFree tracker.now 0 middle × IsNoteOf tracker.now second
                × IsFree tracker.now 0 near × IsNoteOf tracker.now third }
            ensures { IsFree tracker.entry.now 0 result.0.1
                × IsFree tracker.entry.now 0 result.1.1 }
        {
            two_finders(
                rt, tracker, plan, distances, known, middle, second, near, third,
            )
        },
    );
    gather(tracker, moved, found, one, other)
}
