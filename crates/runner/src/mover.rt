//! A subscriber's part of a worker: its handset, and the steps of its script.
ghost use Rattle.std.specs.Prelude.{◌≡◌, ◌<◌, ◌↔◌, ◌++◌, ◌∷◌, [], ℕ, List, None, IfOk, IsSome, false, not, slice_index};
ghost use Rattle.directory.specs.Courses.{Step};
ghost use Rattle.directory.specs.Settings.{Setting};
ghost use Rattle.handset.specs.Condition.{GoesWith};
ghost use Rattle.handset.specs.StepWrites.{due};
ghost use Rattle.handset.specs.Stands.{StandsForSteps, switch_to};
ghost use Rattle.machine.specs.Subscribers.{MayBegin};
ghost use Rattle.net_reader.specs.Input.{Contents};
ghost use Rattle.region_plan.specs.Plan.{PlanData, nodes_of};
ghost use Rattle.region_plan.specs.Settings.{setting_of};
ghost use Rattle.scripts.specs.Scripts.{step_of};
ghost use Rattle.station.specs.Passes.{IsPassOf};
ghost use Rattle.station.specs.Setup.{Setup};
ghost use Rattle.station.specs.declared.view.View.{View};
ghost use Rattle.runner.specs.Playing.{next_of};
ghost use Rattle.runner.specs.Roles.{IsMover, IsSetFor, IsUnderWay, TriesVisit};

use distances::Distances;
use handset::Handset;
use net_reader::Call;
use region_plan::Plan;
use scripts::scripts_are_valid;
use station::{Held, Pass, Tracker};
use std::alloc::{AllocError, Global};

/// A subscriber's steps, how many of them are begun, and its handset.
#[derive(Drop)]
pub struct Mover {
    pub script: Vec<Call>,
    pub begun: usize,
    pub handset: Handset,
}

impl Mover {
    // A subscriber at its start, before its first step.
    pub fn new(
        alloc: Global,
        script: &[Call],
        sub: u32,
        home: u32,
        plan: &Plan,
    ) -> Result<Mover, AllocError>
        requires node { home < nodes_of plan.now }
        ensures script { IfOk result (λ mover. mover.script.items ≡ script.now) }
        ensures begun { IfOk result (λ mover. mover.begun ≡ 0) }
        ensures its { IfOk result (λ mover. mover.handset.sub ≡ sub) }
        ensures goes { IfOk result (λ mover. GoesWith plan.now mover.handset) }
        ensures stands { IfOk result (λ mover. (starts : List ℕ) → slice_index starts sub ≡ home
            → StandsForSteps (setting_of plan.now starts) mover.handset [] 0) }
    {
        Ok(Mover {
            script: Vec::from_slice(alloc, script)?,
            begun: 0,
            handset: Handset::new(alloc, sub, home, plan)?,
        })
    }

    // Begins the next step where none is under way, and tells whether a visit is left.
    pub fn prepare(&mut self, plan: &Plan, distances: &Distances) -> bool
        requires its { (input : Contents) × (setup : Setup) × (view : View) × (spare : ℕ)
            × IsSetFor input setup plan.now distances.now
            × IsMover input setup view spare self.old }
        ensures left { (result ≡ false) ↔ (due (setting_of plan.now []) self.new.handset ≡ None) }
        ensures its { (input : Contents) (setup : Setup) (view : View) (spare : ℕ)
            → IsSetFor input setup plan.now distances.now → IsMover input setup view spare self.old
            → IsMover input setup view spare self.new
            × (next_of input setup view ≡ due (setting_of plan.now []) self.new.handset) }
    {
        self.begin_next(plan, distances);
        self.handset.next(plan).is_some()
    }

    // Begins the next step, if one is left and none is under way.
    fn begin_next(&mut self, plan: &Plan, distances: &Distances)
        requires its { (input : Contents) × (setup : Setup) × (view : View) × (spare : ℕ)
            × IsSetFor input setup plan.now distances.now
            × IsMover input setup view spare self.old }
        ensures its { (input : Contents) (setup : Setup) (view : View) (spare : ℕ)
            → IsSetFor input setup plan.now distances.now → IsMover input setup view spare self.old
            → IsUnderWay input setup view spare self.new }
    {
        scripts_are_valid();
        if self.handset.next(plan).is_some() {
            return;
        }
        if self.begun >= self.script.len() {
            return;
        }
        begin_step(&mut self.handset, self.script[self.begun], plan, distances);
        self.begun += 1;
    }

    // The next put, unless another pass is inside its node.
    pub fn put(&mut self, tracker: &Tracker, pass: &mut Pass, plan: &Plan) -> Result<(), Held>
        requires of { IsPassOf tracker.now pass.old }
        requires outside { pass.old.view.inside ≡ None }
        requires plan { plan.now ≡ tracker.now.setup.plan }
        requires left { IsSome (due (setting_of plan.now []) self.old.handset) }
        requires its { (input : Contents)
            × IsMover input tracker.now.setup pass.old.view pass.old.spare self.old
            × (next_of input tracker.now.setup pass.old.view
            ≡ due (setting_of plan.now []) self.old.handset) }
        ensures tries { (input : Contents)
            → IsMover input tracker.now.setup pass.old.view pass.old.spare self.old
            → next_of input tracker.now.setup pass.old.view
            ≡ due (setting_of plan.now []) self.old.handset
            → TriesVisit input tracker.now.setup pass.old result pass.new
            × IsMover input tracker.now.setup pass.new.view pass.new.spare self.new }
    {
        match tracker.visit_put(pass, plan, &mut self.handset) {
            Ok(_ticket) => Ok(()),
            Err(held) => Err(held),
        }
    }
}

// Begins the step of a call.
fn begin_step(handset: &mut Handset, call: Call, plan: &Plan, distances: &Distances)
    requires goes { GoesWith plan.now handset.old }
    requires belongs { plan.now.distances ≡ distances.now }
    requires rests { due (setting_of plan.now []) handset.old ≡ None }
    requires may { MayBegin plan.now handset.old call }
    ensures goes { GoesWith plan.now handset.new }
    ensures its { handset.new.sub ≡ handset.old.sub }
    ensures stands { (starts : List ℕ) (steps : List Step) (made : ℕ)
        → StandsForSteps (setting_of plan.now starts) handset.old steps made
        → StandsForSteps (setting_of plan.now starts) handset.new (steps ++ step_of call ∷ [])
        made }
{
    match call {
        Call::Move { to } => {
            if handset.begin(plan, distances, to).is_err() {
                unreachable!()
            }
        }
        Call::Off => switch(handset, true),
        Call::On => switch(handset, false),
        Call::Find { .. } => unreachable!(),
    }
}

// Begins a switch.
fn switch(handset: &mut Handset, off: bool)
    requires rests { (plan : PlanData) × (due (setting_of plan []) handset.old ≡ None) }
    requires other { handset.old.is_off ≡ not off }
    ensures goes { (plan : PlanData) → GoesWith plan handset.old → GoesWith plan handset.new }
    ensures its { handset.new.sub ≡ handset.old.sub }
    ensures stands { (setting : Setting) (steps : List Step) (made : ℕ)
        → StandsForSteps setting handset.old steps made
        → StandsForSteps setting handset.new (steps ++ switch_to off ∷ []) made }
{
    if handset.switch(off).is_err() {
        unreachable!()
    }
}
