//! Laws of the weight of finds over plans.
ghost use Rattle.stretch_laws.specs.Plans.{PlanFindsAreNear, PlansTrack};

use crate::laws::quiet_finds_are_near;

/// A plan that bounds its finds tracks its subscribers: its clusters are within its reach, and no
/// node reads more than its degree.
pub fn plans_track()
    ensures { PlansTrack }
{}

/// A quiet find over a plan that bounds its finds has its answer, and travels at most the plan's
/// stretch times the distance, and twice the open passage.
pub fn plan_finds_are_near()
    ensures { PlanFindsAreNear }
{
    quiet_finds_are_near();
}
