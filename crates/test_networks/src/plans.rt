//! Plans, and the distances of their networks.

ghost use Rattle.std.specs.Prelude.{◌≡◌, IfOk};
ghost use Rattle.region_plan.specs.Matched.{BoundsFinds};
ghost use Rattle.region_plan.specs.Plan.{nodes_of};

use crate::networks::path;
use distances::Distances;
use net_graph::MAX_NODES;
use region_plan::Plan;
use std::alloc::Global;
use std::test::Fail;

/// The plan with trade-off 2 of the line 0 - 1 - 2 - 3 of unit weights: three levels, the lowest of
/// which has two clusters.
pub fn line_of_four(alloc: Global) -> Result<(Plan, Distances), Fail>
    ensures copy { IfOk result (λ pair. pair.0.distances ≡ pair.1) }
    ensures nodes { IfOk result (λ pair. nodes_of pair.0 ≡ 4) }
    ensures bounding { IfOk result (λ pair. BoundsFinds pair.0) }
{
    let (graph, distances) = path(alloc, 4, 1)?;
    let plan = Plan::build(alloc, &graph, &distances, 2)?;
    Ok((plan, distances))
}

/// The plan of a path of 130 nodes whose nine levels have a cluster for each node.
pub fn plan_past_two_words(alloc: Global) -> Result<(Plan, Distances), Fail>
    ensures copy { IfOk result (λ pair. pair.0.distances ≡ pair.1) }
    ensures nodes { IfOk result (λ pair. nodes_of pair.0 ≡ 130) }
    ensures bounding { IfOk result (λ pair. BoundsFinds pair.0) }
{
    let (graph, distances) = path(alloc, 130, 1)?;
    let plan = Plan::build(alloc, &graph, &distances, 1)?;
    Ok((plan, distances))
}

/// The flat plan of a path of the most nodes.
pub fn plan_of_most_nodes(alloc: Global) -> Result<(Plan, Distances), Fail>
    ensures copy { IfOk result (λ pair. pair.0.distances ≡ pair.1) }
    ensures nodes { IfOk result (λ pair. nodes_of pair.0 ≡ MAX_NODES) }
{
    let (graph, distances) = path(alloc, MAX_NODES, 1)?;
    let plan = Plan::flat(alloc, &graph, &distances)?;
    Ok((plan, distances))
}
