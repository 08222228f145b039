//! Runs by hand: one worker plays alone, or nobody does, or a node is held.
ghost use Rattle.std.specs.Prelude.{◌<◌, ℕ, IfSome};
ghost use Rattle.machine.specs.Stands.{BelongTogether};
ghost use Rattle.net_reader.specs.Input.{Contents};
ghost use Rattle.net_reader.specs.Seen.{seen_input};
ghost use Rattle.region_plan.specs.Plan.{nodes_of};
ghost use Rattle.station.specs.Passes.{IsFree, IsPassOf, TrackerData};
ghost use Rattle.station.specs.Setup.{nodes_in};
ghost use Rattle.runner.specs.Roles.{IsSetFor};
ghost use Rattle.runner.specs.Runs.{AreWorkersOf};
ghost use Rattle.runner.specs.Workers.{IsWorkerOf};

use crate::runs::{MOVED, ShutGate, input_of_calls, same_outcome};
use directory::Outcome;
use distances::Distances;
use net_reader::Input;
use region_plan::Plan;
use runner::{Gate, OpenGate, Played, Worker, finish_run, open_run};
use station::{Pass, Tracker};
use std::alloc::{AllocError, Global};
use std::process::Abort;
use std::test::Fail;
use test_networks::plan_of;

const TRIES: u64 = 5;

// The worker of actor 0 plays at this gate, if there is one.
fn play_first<G: Gate>(
    workers: &mut Vec<Worker>,
    tracker: &Tracker,
    plan: &Plan,
    distances: &Distances,
    gate: Option<&G>,
) -> Option<Played>
    requires set { (input : Contents) × IsSetFor input tracker.now.setup plan.now distances.now
        × AreWorkersOf input tracker.now workers.old.items }
    ensures { (input : Contents) → IsSetFor input tracker.now.setup plan.now distances.now
        → AreWorkersOf input tracker.now workers.old.items
        → AreWorkersOf input tracker.now workers.new.items }
{
    let gate = gate?;
    if workers.is_empty() {
        return None;
    }
    Some(workers[0].play(tracker, plan, distances, gate, TRIES))
}

// How the worker of actor 0 ends, where it plays, and what becomes of all calls over this plan.
fn by_hand_over<G: Gate>(
    alloc: Global,
    input: &Input,
    plan: &Plan,
    distances: &Distances,
    gate: Option<&G>,
) -> Result<(Option<Played>, Outcome), Fail>
    requires together { BelongTogether (seen_input input.now) plan.now distances.now }
{
    let (tracker, mut workers) = open_run(alloc, input, plan)?;
    let played = play_first(&mut workers, &tracker, plan, distances, gate);
    let outcome = finish_run(alloc, input, plan, distances, tracker, workers)?;
    Ok((played, outcome))
}

// The same over the line.
fn by_hand<G: Gate>(
    alloc: Global,
    calls: &str,
    gate: Option<&G>,
) -> Result<(Option<Played>, Outcome), Fail> {
    let input = input_of_calls(alloc, calls)?;
    let (plan, distances) = plan_of(alloc, &input)?;
    by_hand_over(alloc, &input, &plan, &distances, gate)
}

// The workers of actors 0 and 1.
fn first_two(workers: Vec<Worker>) -> Option<(Worker, Worker)>
    ensures { IfSome result (λ two. (input : Contents) (tracker : TrackerData)
        → AreWorkersOf input tracker workers.items
        → IsWorkerOf input tracker two.0 × IsWorkerOf input tracker two.1) }
{
    let mut rest = workers.into_iter();
    let first = rest.next()?;
    let second = rest.next()?;
    Some((first, second))
}

// How a worker's plays end: one while another pass is inside a node, and one after it has left.
fn play_around(
    tracker: &Tracker,
    other: &mut Pass,
    worker: &mut Worker,
    plan: &Plan,
    distances: &Distances,
    node: u32,
) -> Option<[Played; 2]>
    requires set { (input : Contents) × IsSetFor input tracker.now.setup plan.now distances.now
        × IsWorkerOf input tracker.now worker.old }
    requires other { IsFree tracker.now 0 other.old }
    requires node { node < nodes_in tracker.now.setup }
    ensures other { IsPassOf tracker.now other.new }
    ensures worker { IsPassOf tracker.now worker.new.pass }
{
    let Ok(stay) = tracker.enter(other, node) else {
        return None;
    };
    let first = worker.play(tracker, plan, distances, &OpenGate, TRIES);
    tracker.leave(other, stay);
    let second = worker.play(tracker, plan, distances, &OpenGate, TRIES);
    Some([first, second])
}

// The order of all tickets, once two passes are handed in.
fn close_two(alloc: Global, tracker: Tracker, one: Pass, two: Pass) -> Result<Vec<u32>, Fail>
    requires one { IsPassOf tracker one }
    requires two { IsPassOf tracker two }
{
    let mut passes = Vec::with_capacity(alloc, 2)?;
    passes.push_reserved(one);
    passes.push_reserved(two);
    match tracker.close(alloc, passes) {
        Ok(order) => Ok(order),
        Err(_) => Err(AllocError.into()),
    }
}

// How the caller's plays end around a stay of the subscriber's pass, and the order of all tickets.
fn around_a_stay_over(
    alloc: Global,
    input: &Input,
    plan: &Plan,
    distances: &Distances,
    node: u32,
) -> Result<([Played; 2], Vec<u32>), Fail>
    requires together { BelongTogether (seen_input input.now) plan.now distances.now }
    requires node { node < nodes_of plan.now }
{
    let (tracker, workers) = open_run(alloc, input, plan)?;
    let Some((subscriber, mut caller)) = first_two(workers) else {
        return Err(AllocError.into());
    };
    let mut pass = subscriber.into_pass();
    let Some(played) = play_around(&tracker, &mut pass, &mut caller, plan, distances, node) else {
        return Err(AllocError.into());
    };
    let order = close_two(alloc, tracker, pass, caller.into_pass())?;
    Ok((played, order))
}

// The same over the line.
fn around_a_stay(alloc: Global, calls: &str, node: u32) -> Result<([Played; 2], Vec<u32>), Fail> {
    let input = input_of_calls(alloc, calls)?;
    let (plan, distances) = plan_of(alloc, &input)?;
    if node >= plan.nodes() {
        return Err(AllocError.into());
    }
    around_a_stay_over(alloc, &input, &plan, &distances, node)
}

// The play at a gate ends so, and the move is made in any case.
fn ends_so<R: Abort, G: Gate>(
    rt: &R,
    alloc: Global,
    gate: Option<&G>,
    wanted: Option<Played>,
) -> Result<(), Fail> {
    let (played, outcome) = by_hand(alloc, "callers 1\nmove 0 2\n", gate)?;
    assert!(rt; played == wanted);
    same_outcome(rt, &outcome, &MOVED, &[0; 6]);
    Ok(())
}

#[test]
fn one_worker_or_none_has_played(rt: HostRuntime) -> Result<(), Fail> {
    let kept = Played::Stopped { held: 0, kept: 5 };
    ends_so(&rt, rt.alloc(), Some(&OpenGate), Some(Played::Finished))?;
    ends_so(&rt, rt.alloc(), Some(&ShutGate), Some(kept))?;
    ends_so(&rt, rt.alloc(), None::<&OpenGate>, None)
}

#[test]
fn a_worker_stops_at_a_held_node(rt: HostRuntime) -> Result<(), Fail> {
    let (played, order) = around_a_stay(rt.alloc(), "callers 1\nfind 1 2 0\n", 3)?;
    let stopped = Played::Stopped { held: 5, kept: 0 };
    assert!(rt; played == [stopped, Played::Finished]);
    assert!(rt; order.as_slice() == [1; 4].as_slice());
    Ok(())
}
