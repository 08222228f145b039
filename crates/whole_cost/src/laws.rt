//! Laws of the weight of all finds and moves of a subscriber.
ghost use Rattle.whole_cost.specs.WholeRuns.{PlanRunsAreBounded, WholeRunsAreBounded};

use busy_finds::{finds_in_turn_are_bounded, plan_finds_in_turn_are_bounded};
use move_cost::{plans_are_paced, written_is_bounded};

/// All finds of a subscriber, by any number of callers of which each makes its own in turn, and all
/// that the subscriber writes weigh together at most so many times the distances, so many times for
/// each caller and 16 widths and 4 times the way that it goes, once for each level, and twice the
/// passages that were open before the finds.
pub fn whole_runs_are_bounded()
    ensures { WholeRunsAreBounded }
{
    finds_in_turn_are_bounded();
    written_is_bounded();
}

/// Over a plan that bounds its finds they weigh at most that, with the stretch of the plan.
pub fn plan_runs_are_bounded()
    ensures { PlanRunsAreBounded }
{
    plan_finds_in_turn_are_bounded();
    plans_are_paced();
    written_is_bounded();
}
