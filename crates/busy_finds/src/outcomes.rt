//! Laws of the weight of the finds of outcomes.
ghost use Rattle.busy_finds.specs.PricedOutcomes.{PlanOutcomesArePriced};

use crate::plans::plan_finds_are_bounded;
use directory::{all_scripts_done, each_visit_is_next, every_order_is_legal, lines_are_made};

/// Under every order over a plan that bounds its finds, the line of each find, quiet or not, tells a
/// weight within the plan's bound on its distance and what the moves within had gathered.
pub fn plan_outcomes_are_priced()
    ensures { PlanOutcomesArePriced }
{
    plan_finds_are_bounded();
    each_visit_is_next();
    all_scripts_done();
    every_order_is_legal();
    lines_are_made();
}
