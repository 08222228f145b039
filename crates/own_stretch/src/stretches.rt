//! The numbers of a plan's own stretches.
ghost use Rattle.std.specs.Prelude.{◌≡◌, ◌<◌, ◌≤◌, ◌^◌, ℕ, List, IfOk, length};
ghost use Rattle.region_plan.specs.Matched.{BoundsFinds};
ghost use Rattle.region_plan.specs.Plan.{levels_of, nodes_of};
ghost use Rattle.region_plan.specs.Settings.{setting_of};
ghost use Rattle.busy_finds.specs.Levels.{reaching};
ghost use Rattle.own_stretch.specs.OwnStretch.{any_stretch_of, greatest_below, own_stretch_of, stretch_between, stretch_past};
ghost use Rattle.own_stretch.specs.Tables.{AreCosts, bare};

use crate::costs::{costs_from, farthest_of_levels};
use distances::Distances;
use region_plan::{Plan, plan_is_sound};
use std::alloc::{AllocError, Global};

/// How many times its distance a find over a plan may weigh, beside twice the passage that is open
/// before it.
#[derive(Clone, Copy, PartialEq, Eq, Debug)]
pub struct OwnStretches {
    /// Of a find with no commit of its subscriber within it.
    pub own: u64,
    /// Of any find, where the greatest threshold that the moves within reached stands for the
    /// distance if it is more; what these moves weigh comes on top.
    pub any: u64,
}

// The radius of a level.
fn radius(level: u32) -> u64
    requires { level ≤ 31 }
    ensures { result ≡ 2 ^ level }
{
    1 << level
}

// The level at which a climb ends at the latest for a distance.
fn level_for(top: u32, distance: u64) -> u32
    requires top { top ≤ 30 }
    requires distance { distance ≤ 2 ^ 30 }
    ensures { result ≡ reaching distance 0 top }
{
    for level in 0..top {
        if 2 * distance <= radius(level) + 1 {
            return level;
        }
    }
    top
}

// The own stretch of finds from a node, by what they pay up to each level.
fn own_from(plan: &Plan, distances: &Distances, costs: &[u64], from: u32) -> u64
    requires belongs { plan.now.distances ≡ distances.now }
    requires node { from < nodes_of plan.now }
    requires costs { AreCosts plan.now from (levels_of plan.now) costs.now }
    ensures { result ≡ greatest_below (stretch_between (bare plan.now) from) (nodes_of plan.now) }
{
    plan_is_sound(plan);
    let mut own = 0;
    for to in 0..plan.nodes() {
        if to != from {
            let distance = distances.between(from, to);
            let level = level_for(plan.levels() - 1, distance);
            own = own.max((costs[level as usize] + distance).div_ceil(distance));
        }
    }
    own
}

// The stretch of any finds from a node, past each level.
fn any_from(plan: &Plan, costs: &[u64], from: u32) -> u64
    requires bounding { BoundsFinds plan.now }
    requires node { from < nodes_of plan.now }
    requires costs { AreCosts plan.now from (levels_of plan.now) costs.now }
    ensures { result ≡ greatest_below (stretch_past (bare plan.now) from) (levels_of plan.now) }
{
    plan_is_sound(plan);
    let mut any = 0;
    for level in 0..plan.levels() {
        let above = (level + 1).min(plan.levels() - 1);
        any = any.max(costs[above as usize].div_ceil(plan.threshold(level)) + 1);
    }
    any
}

/// A plan's own stretches, over a plan that bounds its finds; its distances are these. The only
/// fault is want of memory.
pub fn own_stretches(
    alloc: Global,
    plan: &Plan,
    distances: &Distances,
) -> Result<OwnStretches, AllocError>
    requires bounding { BoundsFinds plan.now }
    requires belongs { plan.now.distances ≡ distances.now }
    ensures own { IfOk result (λ found. (starts : List ℕ)
        → found.own ≡ own_stretch_of (setting_of plan.now starts)) }
    ensures any { IfOk result (λ found. (starts : List ℕ)
        → found.any ≡ any_stretch_of (setting_of plan.now starts)) }
{
    let far = farthest_of_levels(alloc, plan, distances)?;
    let mut own = 0;
    let mut any = 0;
    for from in 0..plan.nodes() {
        let costs = costs_from(alloc, plan, &far, from)?;
        own = own.max(own_from(plan, distances, &costs, from));
        any = any.max(any_from(plan, &costs, from));
    }
    Ok(OwnStretches {
        own,
        any: own.max(any),
    })
}
