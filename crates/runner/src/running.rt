//! A run: all workers play, and what is left is made in the end.
ghost use Rattle.std.specs.Prelude.{◌≡◌, ◌<◌, IfOk, length, map};
ghost use Rattle.directory.specs.Outcomes.{outcome_of, result_of};
ghost use Rattle.machine.specs.Stands.{BelongTogether, setting_over};
ghost use Rattle.net_reader.specs.Input.{Contents};
ghost use Rattle.net_reader.specs.Seen.{seen_input};
ghost use Rattle.scripts.specs.Scripts.{scripts_of};
ghost use Rattle.station.specs.Passes.{AreFresh, TrackerData, actor_of};
ghost use Rattle.runner.specs.Roles.{IsSetFor};
ghost use Rattle.runner.specs.Runs.{AreFreshWorkers, AreWorkersOf, HasFinished, IsOutcomeOfRun};
ghost use Rattle.runner.specs.Workers.{IsWorkerOf, MayPlay};
ghost use Rattle.runner.specs.declared.worker.Worker.{Worker};

use crate::gate::Gate;
use crate::worker::Worker;
use directory::{Outcome, all_scripts_done, each_visit_is_next, order_of_history};
use distances::Distances;
use machine::Machine;
use net_reader::Input;
use region_plan::Plan;
use station::{Pass, Tracker};
use std::alloc::{AllocError, Global};
use std::thread;
use std::thread::Threads;

/// How many tries a worker of a program has in one play: turns lost to others and closed gates
/// together. There is a bound, since a thread may rest inside a node and a play is to end all the
/// same; and it is high, since what a worker that stops leaves is made by one thread in the end. No
/// clause depends on which number it is, and none was measured against another.
pub const RUN_TRIES: u64 = 10_000;

/// Serves all actors of an input on one tracker, each in a thread of its own where one can be made,
/// and tells what became of all calls: the outcome is the directory's own under its order. A worker
/// whose tries are used up stops, and the visits that are left are made in the end, actor by actor,
/// without asking the gate.
pub fn run_workers<R: Threads + Sync, G: Gate>(
    rt: &R,
    alloc: Global,
    input: &Input,
    plan: &Plan,
    distances: &Distances,
    gate: &G,
    tries: u64,
) -> Result<Outcome, AllocError>
    requires together { BelongTogether (seen_input input.now) plan.now distances.now }
    ensures outcome { IfOk result (λ outcome. IsOutcomeOfRun
        (setting_over (seen_input input.now) plan.now) (scripts_of (seen_input input.now))
        (result_of outcome)) }
{
    let (tracker, mut workers) = open_run(alloc, input, plan)?;
    play_all(rt, &tracker, &mut workers, plan, distances, gate, tries);
    finish_run(alloc, input, plan, distances, tracker, workers)
}

/// Opens a tracker for an input, and makes a worker for each of its actors, in ascending number; no
/// worker has made a visit, lost a turn or begun a call. [`run_workers`] begins so; who lets
/// workers play by hand calls [`finish_run`] in the end.
pub fn open_run(
    alloc: Global,
    input: &Input,
    plan: &Plan,
) -> Result<(Tracker, Vec<Worker>), AllocError>
    requires together { BelongTogether (seen_input input.now) plan.now plan.now.distances }
    ensures set { IfOk result (λ opened. IsSetFor (seen_input input.now) opened.0.setup plan.now
        plan.now.distances) }
    ensures workers { IfOk result (λ opened. AreWorkersOf (seen_input input.now) opened.0
        opened.1.items) }
    ensures fresh { IfOk result (λ opened. AreFreshWorkers opened.0 opened.1.items) }
{
    let (tracker, passes) = Tracker::new(alloc, plan, &input.homes, input.callers)?;
    let workers = workers_of(alloc, passes, input, plan)?;
    Ok((tracker, workers))
}

/// Closes the tracker, makes the visits that are left, and tells what became of all calls. There is
/// one worker for each actor, in ascending number. Without memory all is dropped.
pub fn finish_run(
    alloc: Global,
    input: &Input,
    plan: &Plan,
    distances: &Distances,
    tracker: Tracker,
    workers: Vec<Worker>,
) -> Result<Outcome, AllocError>
    requires set { IsSetFor (seen_input input.now) tracker.setup plan.now distances.now }
    requires workers { AreWorkersOf (seen_input input.now) tracker workers.items }
    ensures finished { IfOk result (λ outcome. HasFinished (seen_input input.now) tracker.setup
        workers.items (result_of outcome)) }
    ensures outcome { IfOk result (λ outcome. IsOutcomeOfRun
        (setting_over (seen_input input.now) plan.now) (scripts_of (seen_input input.now))
        (result_of outcome)) }
{
    order_of_history();
    each_visit_is_next();
    all_scripts_done();
    let passes = passes_of(alloc, workers)?;
    let Ok(order) = tracker.close(alloc, passes) else {
        return Err(AllocError);
    };
    complete(alloc, input, plan, distances, &order)
}

// What becomes of all calls under an order: its turns, and then the visits that are left.
fn complete(
    alloc: Global,
    input: &Input,
    plan: &Plan,
    distances: &Distances,
    order: &[u32],
) -> Result<Outcome, AllocError>
    requires together { BelongTogether (seen_input input.now) plan.now distances.now }
    ensures { IfOk result (λ outcome. result_of outcome
        ≡ outcome_of (setting_over (seen_input input.now) plan.now)
        (scripts_of (seen_input input.now)) order.now) }
{
    all_scripts_done();
    let mut machine = Machine::new(alloc, input, plan, distances)?;
    machine.play(order);
    machine.finish();
    Ok(machine.outcome())
}

// The passes of workers.
fn passes_of(alloc: Global, workers: Vec<Worker>) -> Result<Vec<Pass>, AllocError>
    ensures { IfOk result
        (λ passes. passes.items ≡ map (λ (worker : Worker). worker.pass) workers.items) }
{
    let mut passes = Vec::with_capacity(alloc, workers.len())?;
    'workers: for worker in workers {
        passes.push(worker.into_pass())?;
    }
    Ok(passes)
}

// A worker for each pass of a new tracker.
fn workers_of(
    alloc: Global,
    passes: Vec<Pass>,
    input: &Input,
    plan: &Plan,
) -> Result<Vec<Worker>, AllocError>
    requires together { BelongTogether (seen_input input.now) plan.now plan.now.distances }
    requires count { length passes.items ≡ length (seen_input input.now).scripts }
    requires fresh { (tracker : TrackerData) × AreFresh tracker passes.items
        × IsSetFor (seen_input input.now) tracker.setup plan.now plan.now.distances }
    ensures workers { IfOk result (λ workers. (tracker : TrackerData)
        → AreFresh tracker passes.items
        → IsSetFor (seen_input input.now) tracker.setup plan.now plan.now.distances
        → AreWorkersOf (seen_input input.now) tracker workers.items) }
    ensures fresh { IfOk result (λ workers. (tracker : TrackerData)
        → AreFresh tracker passes.items → AreFreshWorkers tracker workers.items) }
{
    let mut workers = Vec::with_capacity(alloc, passes.len())?;
    'passes: for pass in passes {
        let Ok(worker) = Worker::new(alloc, pass, input, plan) else {
            return Err(AllocError);
        };
        workers.push(worker)?;
    }
    Ok(workers)
}

// All workers play, each in a thread of its own where one can be made.
fn play_all<R: Threads + Sync, G: Gate>(
    rt: &R,
    tracker: &Tracker,
    workers: &mut [Worker],
    plan: &Plan,
    distances: &Distances,
    gate: &G,
    tries: u64,
)
    requires set { (input : Contents) × IsSetFor input tracker.now.setup plan.now distances.now
        × AreWorkersOf input tracker.now workers.old }
    requires some { 0 < length workers.old }
    ensures { (input : Contents) → IsSetFor input tracker.now.setup plan.now distances.now
        → AreWorkersOf input tracker.now workers.old → AreWorkersOf input tracker.now workers.new }
{
    let threads = workers.len();
    thread::for_each_mut(
        rt,
        workers,
        threads,
        &|_, worker: &mut Worker|
            requires { (input : Contents)
                × MayPlay input tracker.now plan.now distances.now worker.old }
            ensures { (input : Contents)
                → MayPlay input tracker.entry.now plan.entry.now distances.entry.now worker.old
                → IsWorkerOf input tracker.entry.now worker.new
                × (actor_of worker.new.pass ≡ actor_of worker.old.pass) }
        {
            let _ = worker.play(tracker, plan, distances, gate, tries);
        },
    );
}
