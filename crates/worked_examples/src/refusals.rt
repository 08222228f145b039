//! Calls whose clauses no code above needs: what comes back where there is no memory, and what is told
//! where there is. Each is made here as by a program that rests on the clause.
ghost use Rattle.std.specs.Prelude.{◌≡◌, ◌+◌, ◌≤◌, ◌^◌, [], All, IfErr, IfOk, Ok, length, max, true};
ghost use Rattle.directory.specs.Histories.{own};
ghost use Rattle.make_load.specs.Load.{IsLoad, load_contents};
ghost use Rattle.net_reader.specs.Input.{Contents, IsInput};
ghost use Rattle.net_reader.specs.Seen.{seen_input};
ghost use Rattle.region_plan.specs.Settings.{setting_of};
ghost use Rattle.scripts.specs.Scripts.{most_in};
ghost use Rattle.station.specs.Passes.{IsPassOf, actor_of};
ghost use Rattle.runner.specs.Roles.{script_in};
ghost use Rattle.runner.specs.Workers.{KeptNone, MayPlay, MayServe};

use distances::Distances;
use make_load::load_text;
use net_reader::Input;
use region_plan::Plan;
use runner::{OpenGate, Played, Worker};
use station::{Pass, Tracker};
use std::alloc::{AllocError, Global};
use word_line::Load;

/// A worker plays before a gate that is open: no try of it goes to a closed one.
pub fn play_openly(
    worker: &mut Worker,
    tracker: &Tracker,
    plan: &Plan,
    distances: &Distances,
    tries: u64,
) -> Played
    requires may { (input : Contents) × MayPlay input tracker.now plan.now distances.now
        worker.old }
    ensures { KeptNone result }
{
    worker.play(tracker, plan, distances, &OpenGate, tries)
}

/// A worker with room for its script, or the very pass.
pub fn worker_or_pass(alloc: Global, pass: Pass, input: &Input, plan: &Plan) -> Result<Worker, Pass>
    requires may { MayServe (seen_input input.now) plan.now pass }
    ensures room { IfOk result (λ worker. worker.pass.spare ≡ max pass.spare
        (most_in (setting_of plan.now []) (script_in (seen_input input.now) (actor_of pass)))) }
    ensures refused { IfErr result (λ back. back ≡ pass) }
{
    match Worker::new(alloc, pass, input, plan) {
        Ok(worker) => Ok(worker),
        Err(refused) => Err(refused.pass),
    }
}

/// The order of all visits, or the very tracker.
pub fn order_or_tracker(
    alloc: Global,
    tracker: Tracker,
    passes: Vec<Pass>,
) -> Result<Vec<u32>, Tracker>
    requires of { All (IsPassOf tracker) passes.items }
    ensures { IfErr result (λ back. back ≡ tracker) }
{
    match tracker.close(alloc, passes) {
        Ok(order) => Ok(order),
        Err(fault) => Err(fault.tracker),
    }
}

/// Whether a pass has room for just the visits that it has room for: no memory is asked for.
pub fn has_own_room(pass: &mut Pass, visits: u64) -> bool
    requires few { length (own (actor_of pass.old) pass.old.view.seen) + visits ≤ 2 ^ 56 }
    requires spare { visits ≡ pass.old.spare }
    ensures { result ≡ true }
{
    pass.reserve(visits).is_ok()
}

/// The text of a load, which reads as what the load says.
pub fn readable_load(alloc: Global, load: Load) -> Result<Vec<u8>, AllocError>
    requires { IsLoad load }
    ensures { IfOk result (λ text. IsInput text.items (Ok (load_contents load))) }
{
    load_text(alloc, load)
}
