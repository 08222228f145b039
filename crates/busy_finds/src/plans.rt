//! Laws of finds over plans.
ghost use Rattle.busy_finds.specs.Plans.{PlanFindsAreBounded, PlanFindsBetweenCommits, PlanFindsInTurnAreBounded, PlansGatherHalf};

use crate::prices::{every_find_has_its_price, finds_in_turn_are_bounded};
use stretch_laws::plans_track;

/// A plan that bounds its finds renews no level before it has gathered half of its radius.
pub fn plans_gather_half()
    ensures { PlansGatherHalf }
{}

/// Over a plan that bounds its finds every find, whatever falls within it, is within the plan's
/// bound on its distance, at any of its tickets, and what the moves within had gathered; and where
/// no commit falls within it, on its distance alone.
pub fn plan_finds_are_bounded()
    ensures bounded { PlanFindsAreBounded }
    ensures between { PlanFindsBetweenCommits }
{
    every_find_has_its_price();
    plans_track();
}

/// And finds of a subscriber in turn are in all within that bound on their distances and what the
/// subscriber moved, once for each level.
pub fn plan_finds_in_turn_are_bounded()
    ensures { PlanFindsInTurnAreBounded }
{
    finds_in_turn_are_bounded();
    plans_track();
}
