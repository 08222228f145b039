//! The level of the flat plan.
ghost use Rattle.std.specs.Prelude.{◌≡◌, ◌≤◌, ℕ, All, IfOk, length};
ghost use Rattle.distances.specs.Table.{IsMetric};
ghost use Rattle.region_plan.specs.Plan.{level_in};
ghost use Rattle.region_plan.specs.Flat.{IsFlatLevel};
ghost use Rattle.region_plan.specs.Kept.{IsSized, level_of};
ghost use Rattle.region_plan.specs.Meanings.{IsTop};

use crate::balls::top_for;
use crate::clusters::Clusters;
use crate::level::LevelTable;
use crate::sharing::Levels;
use distances::Distances;
use net_graph::OutOfMemory;
use std::alloc::Global;

// What the level of one cluster of all nodes has, which is the home of each.
fn flat_table(alloc: Global, distances: &Distances) -> Result<LevelTable, OutOfMemory>
    ensures level { IfOk result (λ table. (top : ℕ) → IsTop distances.now top
        → IsFlatLevel distances.now (level_of top 1 table)) }
    ensures sized { IfOk result (λ table. (top : ℕ) → top ≤ 30
        → IsSized distances.now.nodes (level_of top 1 table)) }
{
    let clusters = Clusters::whole(alloc, distances)?;
    let homes = vec![in alloc; 0u32; distances.nodes() as usize]?;
    LevelTable::new(alloc, 1, clusters, homes)
}

// The level of one cluster of all nodes.
pub fn flat_levels(alloc: Global, distances: &Distances) -> Result<Levels, OutOfMemory>
    ensures one { IfOk result (λ levels. length levels ≡ 1) }
    ensures level { IfOk result (λ levels. IsFlatLevel distances.now (level_in levels 0)) }
    ensures sized { IfOk result (All (IsSized distances.now.nodes)) }
    ensures metric { IsMetric distances.now }
{
    let top = top_for(distances);
    let table = flat_table(alloc, distances)?;
    let mut levels = Levels::with_capacity(alloc, 1)?;
    levels.push_table(top, 1, table)?;
    Ok(levels)
}
