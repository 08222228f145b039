//! What a worker does: a subscriber's steps, or a caller's finds.
ghost use Rattle.std.specs.Prelude.{◌≡◌, ◌↔◌, ◌≢◌, ◌<◌, ◌≤◌, ◌^◌, ℕ, false, None, IfOk, length, slice_index_or, []};
ghost use Rattle.net_reader.specs.Input.{Contents};
ghost use Rattle.net_reader.specs.Seen.{seen_input};
ghost use Rattle.region_plan.specs.Plan.{PlanData};
ghost use Rattle.station.specs.Passes.{IsPassOf};
ghost use Rattle.station.specs.Setup.{Setup};
ghost use Rattle.station.specs.declared.view.View.{View};
ghost use Rattle.runner.specs.Playing.{next_of};
ghost use Rattle.runner.specs.Roles.{IsPrepared, IsRole, IsSetFor, TriesVisit};

use crate::finder::Finder;
use crate::mover::Mover;
use distances::Distances;
use region_plan::Plan;
use station::{Held, Pass, Tracker};

/// What a worker does, by its actor.
#[derive(Drop)]
pub enum Role {
    /// A subscriber's moves and switches.
    Mover(Mover),
    /// A caller's finds.
    Finder(Finder),
}

impl Role {
    // Whether a visit is left; a subscriber begins its next step where none is under way.
    pub fn prepare(&mut self, plan: &Plan, distances: &Distances) -> bool
        requires its { (input : Contents) × (setup : Setup) × (view : View) × (spare : ℕ)
            × IsSetFor input setup plan.now distances.now × IsRole input setup view spare self.old }
        ensures its { (input : Contents) (setup : Setup) (view : View) (spare : ℕ)
            → IsSetFor input setup plan.now distances.now → IsRole input setup view spare self.old
            → IsRole input setup view spare self.new × IsPrepared input setup view self.new
            × ((result ≡ false) ↔ (next_of input setup view ≡ None)) }
    {
        match self {
            Role::Mover(mover) => mover.prepare(plan, distances),
            Role::Finder(finder) => finder.walk.is_some(),
        }
    }

    // The next visit, unless another pass is inside its node.
    pub fn visit(
        &mut self,
        tracker: &Tracker,
        pass: &mut Pass,
        plan: &Plan,
        distances: &Distances,
    ) -> Result<(), Held>
        requires of { IsPassOf tracker.now pass.old }
        requires outside { pass.old.view.inside ≡ None }
        requires its { (input : Contents)
            × IsSetFor input tracker.now.setup plan.now distances.now
            × IsRole input tracker.now.setup pass.old.view pass.old.spare self.old
            × IsPrepared input tracker.now.setup pass.old.view self.old
            × (next_of input tracker.now.setup pass.old.view ≢ None) }
        ensures tries { (input : Contents)
            → IsSetFor input tracker.now.setup plan.now distances.now
            → IsRole input tracker.now.setup pass.old.view pass.old.spare self.old
            → IsPrepared input tracker.now.setup pass.old.view self.old
            → next_of input tracker.now.setup pass.old.view ≢ None
            → TriesVisit input tracker.now.setup pass.old result pass.new
            × IsRole input tracker.now.setup pass.new.view pass.new.spare self.new }
    {
        match self {
            Role::Mover(mover) => mover.put(tracker, pass, plan),
            Role::Finder(finder) => finder.look(tracker, pass, plan, distances),
        }
    }
}
