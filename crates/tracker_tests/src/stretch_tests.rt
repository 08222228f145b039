//! A plan's own stretches: over the line 0 - 1 - 2 - 3 of unit weights, and over a path past two
//! words.
ghost use Rattle.std.specs.Prelude.{◌≡◌};
ghost use Rattle.region_plan.specs.Matched.{BoundsFinds};

use crate::sameness::same_shown;
use distances::Distances;
use own_stretch::own_stretches;
use region_plan::Plan;
use std::alloc::Global;
use std::process::Abort;
use std::test::Fail;
use test_networks::{line_of_four, plan_past_two_words};

// A plan's own stretches are to be shown so.
fn has_own(
    rt: &impl Abort,
    alloc: Global,
    place: usize,
    plan: &Plan,
    distances: &Distances,
    wanted: &str,
)
    requires bounding { BoundsFinds plan.now }
    requires belongs { plan.now.distances ≡ distances.now }
{
    let found = own_stretches(alloc, plan, distances).expect(rt, "memory");
    same_shown(rt, alloc, place, &[found.own, found.any], wanted);
}

// The first are those of the worked example. The others are of a path whose clusters are the balls
// of its nodes, by a plain program.
#[test]
fn stretches_of_paths(rt: HostRuntime) -> Result<(), Fail> {
    let (plan, distances) = line_of_four(rt.alloc())?;
    has_own(&rt, rt.alloc(), 0, &plan, &distances, "[14, 27]");
    let (plan, distances) = plan_past_two_words(rt.alloc())?;
    has_own(&rt, rt.alloc(), 1, &plan, &distances, "[675, 704]");
    Ok(())
}
