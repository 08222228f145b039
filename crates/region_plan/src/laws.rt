//! Laws of plans, for the proofs of callers: each function does nothing, and its clauses are laws.

ghost use Rattle.std.specs.Prelude.{◌≡◌, ◌+◌, ◌*◌, ◌<◌, ◌≤◌, ℕ, List, [], ◌∷◌, length, sum_by};
ghost use Rattle.net_graph.specs.Network.{Network};
ghost use Rattle.distances.specs.Table.{IsMetric};
ghost use Rattle.region_plan.specs.Plan.{PlanData, nodes_of, levels_of, readers_in, distance, home};
ghost use Rattle.region_plan.specs.Plan.{readers, leader, inside};
ghost use Rattle.region_plan.specs.Meanings.{CoveredPlansAreOne, CoveredPlansMean, PlansMean};
ghost use Rattle.region_plan.specs.Flat.{IsFlat};
ghost use Rattle.region_plan.specs.Matched.{IsMatched, IsWithinReach, PlansBoundFinds};
ghost use Rattle.region_plan.specs.Matched.{CoveredPlansBoundFinds, MeanPlansHaveSmallSums};
ghost use Rattle.region_plan.specs.Matched.{PlansHaveFewReaders};
ghost use Rattle.region_plan.specs.Measures.{degree_of};
ghost use Rattle.region_plan.specs.Settings.{setting_of};
ghost use Rattle.directory.specs.Finds.{most_looks};
ghost use Rattle.directory.specs.Writes.{most_writes};

use crate::covering::{covering_home_means, covering_shape};
use coarse_cover::covers_are_sparse;
use distances::{distances_are_one, networks_have_distances};
use mean_cover::mean_covers_are_small;
use net_graph::{least_weight_is_found, least_weight_is_one};

/// What the plan of a network over a covering is in words of walks: its distances and the weights
/// inside its clusters are those of least walks, and its clusters are those of the covering.
pub fn covered_plan_means()
    ensures { CoveredPlansMean }
{
    least_weight_is_found();
    networks_have_distances();
    covering_shape();
}

/// The same of the plan of a network.
pub fn plan_means()
    ensures { PlansMean }
{
    covered_plan_means();
}

/// The plan of a network over a covering is matched, and has what bounds the weight of finds.
pub fn covered_plan_is_bounding()
    ensures { CoveredPlansBoundFinds }
{
    networks_have_distances();
    covering_shape();
    covering_home_means();
    covered_plan_means();
}

/// The same of the plan of a network.
pub fn plan_is_bounding()
    ensures { PlansBoundFinds }
{
    covered_plan_is_bounding();
}

/// The plan of a network over mean covers has clusters that are small in the sum: at each level the
/// sum of their sizes to the power `k` is at most the number of nodes to the power `k + 1`.
pub fn mean_plan_is_small()
    ensures { MeanPlansHaveSmallSums }
{
    networks_have_distances();
    mean_covers_are_small();
    covered_plan_means();
}

/// The plan of a network has few clusters at a node: the degree to the power `k` is at most `k` to
/// the power `k` times the number of nodes.
pub fn plan_is_sparse()
    ensures { PlansHaveFewReaders }
{
    networks_have_distances();
    covers_are_sparse();
    plan_means();
}

/// What is a plan of a network over a covering is the plan.
pub fn covered_plan_is_one()
    ensures { CoveredPlansAreOne }
{
    distances_are_one();
    least_weight_is_one();
    covered_plan_means();
}

/// In a flat plan cluster 0 is the home of each node and all that it reads, node 0 leads it, and
/// weights are distances.
pub fn flat_means()
    ensures home { (network : Network) (plan : PlanData) (v : ℕ) → IsFlat network plan
        → v < nodes_of plan → home plan 0 v ≡ 0 }
    ensures readers { (network : Network) (plan : PlanData) (v : ℕ) → IsFlat network plan
        → v < nodes_of plan → readers plan 0 v ≡ 0 ∷ [] }
    ensures leader { (network : Network) (plan : PlanData) → IsFlat network plan → leader plan 0 0
        ≡ 0 }
    ensures inside { (network : Network) (plan : PlanData) (v : ℕ) → IsFlat network plan
        → v < nodes_of plan → inside plan 0 0 v ≡ distance plan 0 v }
    ensures matched { (network : Network) (plan : PlanData) → IsFlat network plan
        → IsMetric plan.distances → IsMatched plan }
    ensures reached { (network : Network) (plan : PlanData) → IsFlat network plan
        → IsWithinReach plan }
{}

/// The most looks of a find and the most writes of a move, from the plan's own data.
pub fn plan_counts()
    ensures looks { (plan : PlanData) (starts : List ℕ) (v : ℕ) → 1 ≤ levels_of plan
        → most_looks (setting_of plan starts) v
        ≡ 1 + sum_by (λ level. length (readers_in level v)) plan.levels + nodes_of plan + 3 }
    ensures writes { (plan : PlanData) (starts : List ℕ) → 1 ≤ levels_of plan
        → most_writes (setting_of plan starts) ≡ 3 + 2 * levels_of plan + nodes_of plan }
{}

/// No node reads more clusters of a level than the degree.
pub fn degree_bounds()
    ensures { (plan : PlanData) (i v : ℕ) → length (readers plan i v) ≤ degree_of plan }
{}
