//! A worker: the pass of an actor, and what its script makes of it.
ghost use Rattle.std.specs.Prelude.{◌≡◌, ◌≢◌, ◌≤◌, ◌^◌, [], true, IfErr, IfOk, max};
ghost use Rattle.net_reader.specs.Input.{Contents};
ghost use Rattle.net_reader.specs.Seen.{seen_input};
ghost use Rattle.region_plan.specs.Settings.{setting_of};
ghost use Rattle.scripts.specs.Scripts.{most_in};
ghost use Rattle.station.specs.Passes.{IsPassOf, TrackerData, actor_of};
ghost use Rattle.runner.specs.Roles.{HasBegunNone, IsRoleAt, MayStart, script_in};
ghost use Rattle.runner.specs.Workers.{HasAttempted, HasPlayed, HasStayed, IsWorkerOf, KeptNone, MayPlay, MayServe, MayTry};

use crate::finder::Finder;
use crate::gate::Gate;
use crate::mover::Mover;
use crate::role::Role;
use crate::room::most_of_script;
use directory::{lines_grow, moves_are_short};
use distances::Distances;
use net_reader::Input;
use region_plan::Plan;
use scripts::scripts_are_valid;
use station::{Pass, Tracker};
use std::alloc::{AllocError, Global};

/// Serves one actor: it has the actor's pass, and makes the visits of its script.
#[derive(Drop)]
pub struct Worker {
    pub(crate) pass: Pass,
    pub(crate) made: u64,
    pub(crate) role: Role,
}

/// There is no memory for a worker. The pass comes back.
#[derive(Drop)]
pub struct WorkerRefused {
    pub pass: Pass,
}

/// How a play ended.
#[derive(Clone, Copy, PartialEq, Eq, Debug)]
pub enum Played {
    /// The script has no visit left.
    Finished,
    /// Visits are left, and the tries are used up: so many turns were lost to other passes, and
    /// `kept` is the rest of the tries, which went to a closed gate.
    Stopped { held: u64, kept: u64 },
}

// What came of one try.
enum Attempt {
    Made,
    Held,
    Shut,
}

impl Worker {
    /// A worker for the actor of a pass that has made no visit, with room for the whole script, and
    /// no more than that or what the pass has.
    pub fn new(
        alloc: Global,
        mut pass: Pass,
        input: &Input,
        plan: &Plan,
    ) -> Result<Worker, WorkerRefused>
        requires may { MayServe (seen_input input.now) plan.now pass }
        ensures worker { IfOk result (λ worker. (tracker : TrackerData) → IsPassOf tracker pass
            → IsWorkerOf (seen_input input.now) tracker worker) }
        ensures pass { IfOk result
            (λ worker. worker.pass ≡ record pass { spare = worker.pass.spare }) }
        ensures room { IfOk result (λ worker. worker.pass.spare ≡ max pass.spare
            (most_in (setting_of plan.now []) (script_in (seen_input input.now) (actor_of pass)))) }
        ensures fresh { IfOk result
            (λ worker. (worker.made ≡ 0) × HasBegunNone worker.role) }
        ensures refused { IfErr result (λ refused. refused.pass ≡ pass) }
    {
        let Ok((role, visits)) = role_of(alloc, pass.actor(), input, plan) else {
            return Err(WorkerRefused { pass });
        };
        if pass.reserve(visits).is_err() {
            return Err(WorkerRefused { pass });
        }
        Ok(Worker {
            pass,
            made: 0,
            role,
        })
    }

    /// Makes visit after visit, each the next one of its actor's script, until none is left or the
    /// tries are used up. Before each it asks the gate, and after each it tells it. A turn that is
    /// lost to another pass uses up a try, and so does a gate that is closed. It takes no memory
    /// and waits for nobody.
    pub fn play<G: Gate>(
        &mut self,
        tracker: &Tracker,
        plan: &Plan,
        distances: &Distances,
        gate: &G,
        tries: u64,
    ) -> Played
        requires may { (input : Contents) × MayPlay input tracker.now plan.now distances.now
            self.old }
        ensures played { (input : Contents)
            → MayPlay input tracker.now plan.now distances.now self.old
            → HasPlayed input tracker.now tries self.old self.new result }
        ensures closed { G.is_open gate.now ≡ true → KeptNone result }
        ensures shut { G.is_shut gate.now ≡ true → HasStayed self.old self.new result }
    {
        lines_grow();
        let mut held = 0;
        let mut kept = 0;
        'tries: while self.role.prepare(plan, distances) {
            if held + kept == tries {
                return Played::Stopped { held, kept };
            }
            match self.attempt(tracker, plan, distances, gate) {
                Attempt::Made => {}
                Attempt::Held => held += 1,
                Attempt::Shut => kept += 1,
            }
        }
        Played::Finished
    }

    /// The worker's pass.
    pub fn into_pass(self) -> Pass
        ensures { result ≡ self.pass }
    {
        self.pass
    }

    // One try at the next visit.
    fn attempt<G: Gate>(
        &mut self,
        tracker: &Tracker,
        plan: &Plan,
        distances: &Distances,
        gate: &G,
    ) -> Attempt
        requires may { (input : Contents) × MayTry input tracker.now plan.now distances.now
            self.old }
        ensures tried { (input : Contents)
            → MayTry input tracker.now plan.now distances.now self.old
            → HasAttempted input tracker.now self.old self.new result }
        ensures closed { G.is_open gate.now ≡ true → result ≢ Attempt.Shut }
        ensures shut { G.is_shut gate.now ≡ true → result ≡ Attempt.Shut }
    {
        lines_grow();
        if !gate.may_go(self.pass.actor(), self.made) {
            return Attempt::Shut;
        }
        if self
            .role
            .visit(tracker, &mut self.pass, plan, distances)
            .is_err()
        {
            return Attempt::Held;
        }
        self.made += 1;
        gate.made(self.pass.actor(), self.made);
        Attempt::Made
    }
}

// What the worker of an actor does, and the most visits that it makes.
fn role_of(alloc: Global, actor: u32, input: &Input, plan: &Plan) -> Result<(Role, u64), AllocError>
    requires may { MayStart (seen_input input.now) plan.now actor }
    ensures role { IfOk result
        (λ made. IsRoleAt (seen_input input.now) plan.now actor made.1 made.0) }
    ensures most { IfOk result (λ made. made.1
        ≡ most_in (setting_of plan.now []) (script_in (seen_input input.now) actor)) }
    ensures few { IfOk result (λ made. made.1 ≤ 2 ^ 56) }
    ensures fresh { IfOk result (λ made. HasBegunNone made.0) }
{
    lines_grow();
    moves_are_short();
    scripts_are_valid();
    let script = input.scripts[actor as usize].as_slice();
    let visits = most_of_script(plan, script)?;
    if (actor as usize) < input.homes.len() {
        let mover = Mover::new(alloc, script, actor, input.homes[actor as usize], plan)?;
        return Ok((Role::Mover(mover), visits));
    }
    let finder = Finder::new(alloc, script, input.homes.len() as u32, plan)?;
    Ok((Role::Finder(finder), visits))
}
