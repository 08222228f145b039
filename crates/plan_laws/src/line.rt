//! The line of four nodes and its plans.
ghost use Rattle.std.specs.Prelude.{◌≡◌};
ghost use Rattle.region_plan.specs.Matched.{BoundsFinds};
ghost use Rattle.region_plan.specs.Measures.{stretch_of};
ghost use Rattle.region_plan.specs.Regions.{mean_plan, plan_of};
ghost use Rattle.plan_laws.specs.Examples.{line_network, line_of_four, mean_line_of_four};

use region_plan::{covered_plan_is_bounding, plan_is_bounding};

/// The plan of the line of four is the plan of its network with the trade-off 2, and bounds its
/// finds.
pub fn line_has_its_plan()
    ensures plan { plan_of line_network 2 ≡ line_of_four }
    ensures bounding { BoundsFinds line_of_four }
{
    plan_is_bounding();
}

/// The same of its plan over mean covers, whose stretch is 232.
pub fn line_has_its_mean_plan()
    ensures plan { mean_plan line_network 2 ≡ mean_line_of_four }
    ensures stretch { stretch_of mean_line_of_four ≡ 232 }
    ensures bounding { BoundsFinds mean_line_of_four }
{
    covered_plan_is_bounding();
}
