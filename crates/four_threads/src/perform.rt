//! The whole: two rounds, the end of the tracker, and what is printed.
ghost use Rattle.std.specs.Prelude.{◌≡◌, IfOk};
ghost use Rattle.region_plan.specs.Plan.{nodes_of};
ghost use Rattle.station.specs.Passes.{IsPassOf};
ghost use Rattle.four_threads.specs.Ready.{IsCrewOf, IsReady};

use crate::crew::{Crew, open};
use crate::network::line_of_four;
use crate::round::{Tallies, round};
use crate::stop::Stop;
use crate::tally::Tally;
use distances::Distances;
use region_plan::Plan;
use station::Tracker;
use std::alloc::Global;
use std::io::Print;
use std::sync::Wait;
use std::thread::Threads;

// Tells what a finder counted.
fn tell<R: Print>(rt: &R, node: u32, tally: Tally) -> Result<(), Stop> {
    let Tally { answers, right, .. } = tally;
    match println!(rt; "  from node {node}: {answers} answers, {right} of them right") {
        Ok(()) => Ok(()),
        Err(_) => Err(Stop::NotWritten),
    }
}

// Tells what a round made, where nobody stopped.
fn tell_round<R: Print>(rt: &R, moves: u32, tallies: Result<Tallies, Stop>) -> Result<(), Stop> {
    let tallies = tallies?;
    let Ok(()) = println!(rt; "{moves} moves") else {
        return Err(Stop::NotWritten);
    };
    tell(rt, 0, tallies.near)?;
    tell(rt, 1, tallies.middle)?;
    tell(rt, 3, tallies.far)
}

// The actor of each ticket, once all have handed in their passes.
fn order_of(alloc: Global, tracker: Tracker, crew: Crew) -> Result<Vec<u32>, Stop>
    requires crew { IsCrewOf tracker crew }
{
    let mut passes = Vec::with_capacity(alloc, 4)?;
    passes.push_reserved(crew.own);
    passes.push_reserved(crew.near);
    passes.push_reserved(crew.middle);
    passes.push_reserved(crew.far);
    match tracker.close(alloc, passes) {
        Ok(order) => Ok(order),
        Err(fault) => Err(Stop::from(fault.cause)),
    }
}

// How many tickets are the subscriber's.
fn puts_in(order: &[u32]) -> usize {
    let mut puts = 0;
    for k in 0..order.len() {
        if order[k] == 0 {
            puts += 1;
        }
    }
    puts
}

// Tells how many visits of the order are the subscriber's.
fn tell_order<R: Print>(rt: &R, order: &[u32]) -> Result<(), Stop> {
    let puts = puts_in(order);
    match println!(rt; "{puts} visits of the subscriber in the order") {
        Ok(()) => Ok(()),
        Err(_) => Err(Stop::NotWritten),
    }
}

// A round and what it made, told.
fn round_and_tell<R: Threads + Wait + Sync + Print>(
    rt: &R,
    tracker: &Tracker,
    plan: &Plan,
    distances: &Distances,
    crew: Crew,
) -> Result<Crew, Stop>
    requires ready { IsReady tracker.now plan.now distances.now }
    requires crew { IsCrewOf tracker.now crew }
    ensures crew { IfOk result (IsCrewOf tracker.now) }
{
    let (crew, tallies) = round(rt, tracker, plan, distances, crew);
    tell_round(rt, crew.handset.number(), tallies)?;
    Ok(crew)
}

// Two rounds over one tracker, and the order that it ends with.
fn two_rounds<R: Threads + Wait + Sync + Print>(
    rt: &R,
    alloc: Global,
    plan: &Plan,
    distances: &Distances,
) -> Result<Vec<u32>, Stop>
    requires belongs { plan.now.distances ≡ distances.now }
    requires nodes { nodes_of plan.now ≡ 4 }
{
    let (tracker, crew) = open(alloc, plan)?;
    let crew = round_and_tell(rt, &tracker, plan, distances, crew)?;
    let crew = round_and_tell(rt, &tracker, plan, distances, crew)?;
    order_of(alloc, tracker, crew)
}

/// Two rounds of four threads over one tracker, and then its end.
pub fn perform<R: Threads + Wait + Sync + Print>(rt: &R, alloc: Global) -> Result<(), Stop> {
    let (plan, distances) = line_of_four(alloc)?;
    let order = two_rounds(rt, alloc, &plan, &distances)?;
    tell_order(rt, &order)
}
