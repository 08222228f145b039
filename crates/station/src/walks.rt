//! Visits of a walk: each look that a find makes, one after another.
ghost use Rattle.std.specs.Prelude.{◌≡◌, ◌≤◌, None, MatchResult};
ghost use Rattle.directory.specs.Finds.{answer_of};
ghost use Rattle.walk.specs.Walks.{pursuit_of};
ghost use Rattle.station.specs.Walking.{HasLookedOn, HasLostLook, MayWalkOn};

use crate::pass::Pass;
use crate::tracker::Tracker;
use crate::turns::Held;
use distances::Distances;
use region_plan::{Plan, plan_is_sound};
use trail_laws::{entries_tell, front_of_history_is_legal, marks_tell};
use walk::Walk;

impl Tracker {
    /// Makes the look that a walk has next, tells the walk what was read, and answers the ticket.
    /// While another pass is inside the node, one turn is lost, and nothing else changes.
    pub fn visit_walk(
        &self,
        pass: &mut Pass,
        plan: &Plan,
        distances: &Distances,
        walk: &mut Walk,
    ) -> Result<u64, Held>
        requires way { MayWalkOn self.now plan.now distances.now pass.old walk.old }
        requires spare { 1 ≤ pass.old.spare }
        requires left { answer_of (pursuit_of self.now.setup.plan walk.old) ≡ None }
        ensures looked { MatchResult result
            (λ ticket. HasLookedOn self.now.setup pass.old walk.old ticket pass.new walk.new)
            (λ held. HasLostLook self.now.setup pass.old walk.old held pass.new walk.new) }
    {
        marks_tell();
        entries_tell();
        front_of_history_is_legal();
        plan_is_sound(plan);
        let Some(key) = walk.next(plan) else {
            unreachable!()
        };
        let looked = self.visit_look(pass, plan, key)?;
        walk.saw(plan, distances, looked.word);
        Ok(looked.ticket)
    }
}
