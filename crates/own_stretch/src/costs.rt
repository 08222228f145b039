//! What finds from a node pay up to each level, by the clusters that the node reads.
ghost use Rattle.std.specs.Prelude.{◌≡◌, ◌<◌, ◌+◌, IfOk, length, map};
ghost use Rattle.region_plan.specs.Matched.{BoundsFinds};
ghost use Rattle.region_plan.specs.Plan.{levels_of, nodes_of};
ghost use Rattle.own_stretch.specs.Tables.{AreAllFarthest, AreCosts, AreFarthest, IsSmall, bare, pay_all, readers_at};

use distances::Distances;
use region_plan::{Plan, plan_is_sound};
use std::alloc::{AllocError, Global};

// What a node has paid for the clusters that it read: the weight of reading them, and the most that
// a find pays which meets its address at one of them.
#[derive(Clone, Copy)]
pub(crate) struct Paid {
    pub passed: u64,
    pub most: u64,
}

// How far the farthest node that is homed at each cluster of a level is from its leader.
fn farthest_of_level(
    alloc: Global,
    plan: &Plan,
    distances: &Distances,
    level: u32,
) -> Result<Vec<u64>, AllocError>
    requires belongs { plan.now.distances ≡ distances.now }
    requires level { level < levels_of plan.now }
    ensures { IfOk result (λ far. AreFarthest plan.now level far.items) }
{
    plan_is_sound(plan);
    let mut far = vec![in alloc; 0u64; plan.clusters(level) as usize]?;
    for node in 0..plan.nodes() {
        let home = plan.home(level, node);
        let away = distances.between(plan.leader(level, home), node);
        far[home as usize] = far[home as usize].max(away);
    }
    Ok(far)
}

// The same at each level.
pub(crate) fn farthest_of_levels(
    alloc: Global,
    plan: &Plan,
    distances: &Distances,
) -> Result<Vec<Vec<u64>>, AllocError>
    requires belongs { plan.now.distances ≡ distances.now }
    ensures { IfOk result (λ lists. AreAllFarthest plan.now (levels_of plan.now)
        (map (λ far. far.items) lists.items)) }
{
    let mut lists = Vec::with_capacity(alloc, plan.levels() as usize)?;
    for level in 0..plan.levels() {
        lists.push(farthest_of_level(alloc, plan, distances, level)?)?;
    }
    Ok(lists)
}

// What a node has paid once it has read its clusters of one level more.
fn pay_level(plan: &Plan, far: &[u64], node: u32, level: u32, before: Paid) -> Paid
    requires bounding { BoundsFinds plan.now }
    requires node { node < nodes_of plan.now }
    requires level { level < levels_of plan.now }
    requires far { AreFarthest plan.now level far.now }
    requires small { IsSmall level before }
    ensures paid { result
        ≡ pay_all (bare plan.now) node before (readers_at (bare plan.now) node level) }
    ensures small { IsSmall (level + 1) result }
{
    // What readers weigh is bounded.
    plan_is_sound(plan);
    let readers = plan.readers(level, node);
    let gap = 2 * plan.threshold(level) - 2;
    let mut paid = before;
    for place in 0..readers.len() {
        paid.passed += 2 * plan.reader_weight(level, node, place as u32);
        let met = paid.passed + 2 * far[readers[place] as usize] + gap;
        paid.most = paid.most.max(met);
    }
    paid
}

// What finds from a node pay up to each level.
pub(crate) fn costs_from(
    alloc: Global,
    plan: &Plan,
    far: &[Vec<u64>],
    node: u32,
) -> Result<Vec<u64>, AllocError>
    requires bounding { BoundsFinds plan.now }
    requires node { node < nodes_of plan.now }
    requires far { AreAllFarthest plan.now (levels_of plan.now) (map (λ list. list.items) far.now) }
    ensures { IfOk result (λ costs. AreCosts plan.now node (levels_of plan.now) costs.items) }
{
    plan_is_sound(plan);
    let mut costs = Vec::with_capacity(alloc, plan.levels() as usize)?;
    let mut paid = Paid { passed: 0, most: 0 };
    for level in 0..plan.levels() {
        paid = pay_level(plan, &far[level as usize], node, level, paid);
        costs.push(paid.passed.max(paid.most))?;
    }
    Ok(costs)
}
