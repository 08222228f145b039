//! Plans of networks over which the least walks weigh the same.
ghost use Rattle.plan_laws.specs.SameWalks.{CoveredPlansOfSameWalks, PlansOfSameWalks};

use region_plan::{covered_plan_is_one, covered_plan_means};

/// Networks over which the least walks weigh the same have one plan over each covering.
pub fn covered_plan_of_same_walks()
    ensures { CoveredPlansOfSameWalks }
{
    covered_plan_means();
    covered_plan_is_one();
}

/// And so one plan.
pub fn plan_of_same_walks()
    ensures { PlansOfSameWalks }
{
    covered_plan_of_same_walks();
}
