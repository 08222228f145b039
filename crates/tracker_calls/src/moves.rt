//! Moves, put by put.
ghost use Rattle.std.specs.Prelude.{◌≡◌, None, MatchResult};
ghost use Rattle.station.specs.Handsets.{IsHandsetOf};
ghost use Rattle.station.specs.Passes.{IsPassOf};
ghost use Rattle.tracker_calls.specs.Moves.{HasStepped, IsStepFault};

use handset::Handset;
use region_plan::Plan;
use station::{Held, Pass, Tracker};

/// Why the next put of a move isn't made: the first of these that holds.
#[derive(Clone, Copy, PartialEq, Eq, Debug)]
pub enum StepFault {
    /// The handset has no put left.
    AtRest,
    /// The pass has no room for so many visits.
    Unreserved { need: u64 },
    /// Another pass was inside the node: that of the actor `by`.
    Held { node: u32, by: u32 },
}

/// Makes the put that a handset has next, and answers its ticket.
pub fn move_step(
    tracker: &Tracker,
    pass: &mut Pass,
    plan: &Plan,
    handset: &mut Handset,
) -> Result<u64, StepFault>
    requires of { IsPassOf tracker.now pass.old }
    requires plan { plan.now ≡ tracker.now.setup.plan }
    requires outside { pass.old.view.inside ≡ None }
    requires handset { IsHandsetOf tracker.now.setup pass.old.view handset.old }
    ensures step { MatchResult result
        (λ ticket. HasStepped tracker.now.setup pass.old handset.old ticket pass.new handset.new)
        (λ fault. IsStepFault tracker.now.setup pass.old handset.old fault pass.new
        × (handset.new ≡ handset.old)) }
{
    if handset.next(plan).is_none() {
        return Err(StepFault::AtRest);
    }
    if pass.spare() == 0 {
        return Err(StepFault::Unreserved { need: 1 });
    }
    match tracker.visit_put(pass, plan, handset) {
        Ok(ticket) => Ok(ticket),
        Err(Held { node, by }) => Err(StepFault::Held { node, by }),
    }
}
