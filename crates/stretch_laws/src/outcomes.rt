//! Laws of the weight of the finds of outcomes.
ghost use Rattle.stretch_laws.specs.NearOutcomes.{OutcomesAreNear, PlanOutcomesAreNear};

use crate::laws::quiet_finds_are_near;
use crate::plans::plan_finds_are_near;
use directory::{all_scripts_done, each_visit_is_next, every_order_is_legal, lines_are_made};

/// Under every order, each line of a quiet find tells a weight of at most the stretch times the
/// distance, and twice the open passage.
pub fn outcomes_are_near()
    ensures { OutcomesAreNear }
{
    quiet_finds_are_near();
    each_visit_is_next();
    all_scripts_done();
    every_order_is_legal();
    lines_are_made();
}

/// Under every order over a plan that bounds its finds, each line of a quiet find tells a weight
/// within the plan's bound.
pub fn plan_outcomes_are_near()
    ensures { PlanOutcomesAreNear }
{
    plan_finds_are_near();
    each_visit_is_next();
    all_scripts_done();
    every_order_is_legal();
    lines_are_made();
}
