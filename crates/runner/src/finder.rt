//! A caller's part of a worker: the find that it is at.
ghost use Rattle.std.specs.Prelude.{◌≡◌, ◌≤◌, ◌<◌, ℕ, None, All, IsSome, MatchBool, drop, length, map, slice_index_or, [], IfOk};
ghost use Rattle.directory.specs.Finds.{at_origin};
ghost use Rattle.machine.specs.Stands.{IsWalking};
ghost use Rattle.net_reader.specs.Input.{Contents};
ghost use Rattle.net_reader.specs.Seen.{seen_input};
ghost use Rattle.net_reader.specs.Valid.{IsSearch};
ghost use Rattle.region_plan.specs.Plan.{nodes_of};
ghost use Rattle.scripts.specs.Scripts.{find_of};
ghost use Rattle.station.specs.Passes.{IsPassOf};
ghost use Rattle.runner.specs.Playing.{next_of};
ghost use Rattle.runner.specs.Roles.{IsFinder, IsSetFor, TriesVisit};

use directory::{lines_grow, looks_fall};
use distances::Distances;
use net_reader::Call;
use region_plan::Plan;
use scripts::scripts_are_valid;
use station::{Held, Pass, Tracker};
use std::alloc::{AllocError, Global};
use walk::Walk;

/// A caller's finds, how many of them are done, and the walk of the one that it is at.
#[derive(Drop)]
pub struct Finder {
    pub script: Vec<Call>,
    pub subs: u32,
    pub done: usize,
    pub walk: Option<Walk>,
}

impl Finder {
    // A caller before its first look.
    pub fn new(alloc: Global, script: &[Call], subs: u32, plan: &Plan) -> Result<Finder, AllocError>
        requires searches { All (IsSearch (nodes_of plan.now) subs) script.now }
        ensures script { IfOk result (λ finder. finder.script.items ≡ script.now) }
        ensures subs { IfOk result (λ finder. finder.subs ≡ subs) }
        ensures done { IfOk result (λ finder. finder.done ≡ 0) }
        ensures walk { IfOk result
            (λ finder. IsWalking plan.now (map find_of script.now) at_origin finder.walk) }
    {
        Ok(Finder {
            script: Vec::from_slice(alloc, script)?,
            subs,
            done: 0,
            walk: walk_at(script, 0, subs, plan),
        })
    }

    // The next look, unless another pass is inside its node.
    pub fn look(
        &mut self,
        tracker: &Tracker,
        pass: &mut Pass,
        plan: &Plan,
        distances: &Distances,
    ) -> Result<(), Held>
        requires of { IsPassOf tracker.now pass.old }
        requires outside { pass.old.view.inside ≡ None }
        requires left { IsSome self.old.walk }
        requires its { (input : Contents)
            × IsSetFor input tracker.now.setup plan.now distances.now
            × IsFinder input tracker.now.setup pass.old.view.low pass.old.view.seen pass.old.spare
            self.old }
        ensures tries { (input : Contents)
            → IsSetFor input tracker.now.setup plan.now distances.now
            → IsFinder input tracker.now.setup pass.old.view.low pass.old.view.seen pass.old.spare
            self.old
            → TriesVisit input tracker.now.setup pass.old result pass.new
            × IsFinder input tracker.now.setup pass.new.view.low pass.new.view.seen pass.new.spare
            self.new }
    {
        scripts_are_valid();
        lines_grow();
        looks_fall();
        let Some(walk) = &mut self.walk else {
            unreachable!()
        };
        tracker.visit_walk(pass, plan, distances, walk)?;
        if walk.answer().is_some() {
            self.done += 1;
            self.walk = walk_at(&self.script, self.done, self.subs, plan);
        }
        Ok(())
    }
}

// The walk of the find at a place of a script, if there is one.
fn walk_at(script: &[Call], place: usize, subs: u32, plan: &Plan) -> Option<Walk>
    requires searches { All (IsSearch (nodes_of plan.now) subs) script.now }
    ensures { IsWalking plan.now (drop place (map find_of script.now)) at_origin result }
{
    match *script.get(place)? {
        Call::Find { from, sub } => Walk::new(from, sub, subs, plan).ok(),
        Call::Move { .. } | Call::Off | Call::On => None,
    }
}
