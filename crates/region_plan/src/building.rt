//! The levels of the plan of a network, one after another.

ghost use Rattle.std.specs.Prelude.{◌≡◌, ◌+◌, ◌≤◌, ◌^◌, All, IfOk, OnOk, length};
ghost use Rattle.net_graph.specs.Network.{IsNetwork};
ghost use Rattle.distances.specs.Table.{AreDistancesOf, IsMetric};
ghost use Rattle.node_set.specs.Workspaces.{IsWorkspace};
ghost use Rattle.region_plan.specs.Coverings.{trade_off_of};
ghost use Rattle.region_plan.specs.Regions.{threshold_of};
ghost use Rattle.region_plan.specs.Meanings.{IsLevelOf};
ghost use Rattle.region_plan.specs.Kept.{AreLevelsOf, IsSized, level_of};
ghost use Rattle.region_plan.specs.Spread.{IsSpreadOf};
ghost use Rattle.node_set.specs.Nodes.{Nodes};

use crate::balls::{empty_sets, fill_balls};
use crate::clusters::Clusters;
use crate::covering::{Covering, covering_shape};
use crate::level::LevelTable;
use crate::sharing::Levels;
use crate::spread::Spread;
use coarse_cover::Cover;
use distances::Distances;
use net_graph::{Graph, OutOfMemory};
use node_set::{NodeSet, Workspace};
use std::alloc::Global;

// What level `i` of the plan over the covering shares. The sets, one for each node, and the
// workspace are written over.
fn build_table(
    alloc: Global,
    graph: &Graph,
    distances: &Distances,
    spread: &Spread,
    covering: Covering,
    i: u32,
    sets: &mut [NodeSet],
    work: &mut Workspace,
) -> Result<LevelTable, OutOfMemory>
    requires belongs { AreDistancesOf graph.now distances.now }
    requires metric { IsMetric distances.now }
    requires network { IsNetwork graph.now }
    requires low { 1 ≤ trade_off_of covering }
    requires high { trade_off_of covering ≤ 8 }
    requires few { i ≤ 30 }
    requires spread { IsSpreadOf distances.now spread.now }
    requires count { length sets.old ≡ distances.now.nodes }
    requires rooms { All (λ (s : Nodes). s.room ≡ distances.now.nodes) sets.old }
    requires work { IsWorkspace distances.now.nodes work.old }
    ensures work { IsWorkspace distances.now.nodes work.new }
    ensures rooms { All (λ (s : Nodes). s.room ≡ distances.now.nodes) sets.new }
    ensures level { IfOk result (λ table.
        IsLevelOf graph.now distances.now covering i (level_of i (threshold_of i) table)) }
    ensures sized { IfOk result (λ table.
        IsSized distances.now.nodes (level_of i (threshold_of i) table)) }
{
    fill_balls(distances, &spread.exponents, i, sets);
    // Distances are the same both ways, so each ball is the row of its centre.
    let Cover {
        clusters: made,
        home,
        phases,
    } = covering.cover(alloc, sets, work)?;
    covering_shape();
    let clusters = Clusters::of_cover(alloc, graph, distances, made, work)?;
    LevelTable::new(alloc, phases, clusters, home)
}

// Adds level `i` of the plan to the levels below it: where no distance lies between its radius and
// the one below, the two share their table. The sets, one for each node, and the workspace are
// written over.
fn push_level(
    alloc: Global,
    graph: &Graph,
    distances: &Distances,
    spread: &Spread,
    covering: Covering,
    i: u32,
    sets: &mut [NodeSet],
    work: &mut Workspace,
    levels: &mut Levels,
) -> Result<(), OutOfMemory>
    requires belongs { AreDistancesOf graph.now distances.now }
    requires metric { IsMetric distances.now }
    requires network { IsNetwork graph.now }
    requires low { 1 ≤ trade_off_of covering }
    requires high { trade_off_of covering ≤ 8 }
    requires few { i ≤ 30 }
    requires spread { IsSpreadOf distances.now spread.now }
    requires count { length sets.old ≡ distances.now.nodes }
    requires rooms { All (λ (s : Nodes). s.room ≡ distances.now.nodes) sets.old }
    requires work { IsWorkspace distances.now.nodes work.old }
    requires below { AreLevelsOf graph.now distances.now covering i levels.old }
    ensures rooms { All (λ (s : Nodes). s.room ≡ distances.now.nodes) sets.new }
    ensures work { IsWorkspace distances.now.nodes work.new }
    ensures levels { OnOk result (AreLevelsOf graph.now distances.now covering (i + 1) levels.new) }
{
    if i > 0 && !spread.in_use[i as usize] {
        levels.push_shared(i, threshold_for(i))
    } else {
        let table = build_table(alloc, graph, distances, spread, covering, i, sets, work)?;
        levels.push_table(i, threshold_for(i), table)
    }
}

// The power of two.
fn two_to(i: u32) -> u32
    requires { i ≤ 30 }
    ensures { result ≡ 2 ^ i }
{
    1 << i
}

// The threshold of level `i`.
fn threshold_for(i: u32) -> u64
    requires { i ≤ 30 }
    ensures { result ≡ threshold_of i }
{
    if i == 0 { 1 } else { u64::from(two_to(i - 1)) }
}

// Adds the levels up to the top one. The sets, one for each node, and the workspace are written
// over.
fn push_levels(
    alloc: Global,
    graph: &Graph,
    distances: &Distances,
    spread: &Spread,
    covering: Covering,
    top: u32,
    sets: &mut [NodeSet],
    work: &mut Workspace,
    levels: &mut Levels,
) -> Result<(), OutOfMemory>
    requires belongs { AreDistancesOf graph.now distances.now }
    requires metric { IsMetric distances.now }
    requires network { IsNetwork graph.now }
    requires low { 1 ≤ trade_off_of covering }
    requires high { trade_off_of covering ≤ 8 }
    requires few { top ≤ 30 }
    requires spread { IsSpreadOf distances.now spread.now }
    requires count { length sets.old ≡ distances.now.nodes }
    requires rooms { All (λ (s : Nodes). s.room ≡ distances.now.nodes) sets.old }
    requires work { IsWorkspace distances.now.nodes work.old }
    requires below { AreLevelsOf graph.now distances.now covering 0 levels.old }
    ensures { OnOk result (AreLevelsOf graph.now distances.now covering (top + 1) levels.new) }
{
    for i in 0..top + 1 {
        push_level(
            alloc, graph, distances, spread, covering, i, sets, work, levels,
        )?;
    }
    Ok(())
}

// The same, with a workspace of its own.
fn push_levels_in_workspace(
    alloc: Global,
    graph: &Graph,
    distances: &Distances,
    spread: &Spread,
    covering: Covering,
    top: u32,
    sets: &mut [NodeSet],
    levels: &mut Levels,
) -> Result<(), OutOfMemory>
    requires belongs { AreDistancesOf graph.now distances.now }
    requires metric { IsMetric distances.now }
    requires low { 1 ≤ trade_off_of covering }
    requires high { trade_off_of covering ≤ 8 }
    requires few { top ≤ 30 }
    requires spread { IsSpreadOf distances.now spread.now }
    requires count { length sets.old ≡ distances.now.nodes }
    requires rooms { All (λ (s : Nodes). s.room ≡ distances.now.nodes) sets.old }
    requires below { AreLevelsOf graph.now distances.now covering 0 levels.old }
    ensures { OnOk result (AreLevelsOf graph.now distances.now covering (top + 1) levels.new) }
{
    let mut work = Workspace::new(alloc, graph.nodes())?;
    push_levels(
        alloc, graph, distances, spread, covering, top, sets, &mut work, levels,
    )
}

// The same, with the exponents of the distances and sets of its own.
fn push_levels_by_spread(
    alloc: Global,
    graph: &Graph,
    distances: &Distances,
    covering: Covering,
    top: u32,
    levels: &mut Levels,
) -> Result<(), OutOfMemory>
    requires belongs { AreDistancesOf graph.now distances.now }
    requires metric { IsMetric distances.now }
    requires low { 1 ≤ trade_off_of covering }
    requires high { trade_off_of covering ≤ 8 }
    requires few { top ≤ 30 }
    requires below { AreLevelsOf graph.now distances.now covering 0 levels.old }
    ensures { OnOk result (AreLevelsOf graph.now distances.now covering (top + 1) levels.new) }
{
    let nodes = distances.nodes();
    let spread = Spread::new(alloc, distances)?;
    let mut sets = empty_sets(alloc, nodes as usize, nodes)?;
    push_levels_in_workspace(
        alloc, graph, distances, &spread, covering, top, &mut sets, levels,
    )
}

// The levels of the plan over the covering, up to the top one.
pub fn build_levels(
    alloc: Global,
    graph: &Graph,
    distances: &Distances,
    covering: Covering,
    top: u32,
) -> Result<Levels, OutOfMemory>
    requires belongs { AreDistancesOf graph.now distances.now }
    requires metric { IsMetric distances.now }
    requires low { 1 ≤ trade_off_of covering }
    requires high { trade_off_of covering ≤ 8 }
    requires few { top ≤ 30 }
    ensures levels { IfOk result (AreLevelsOf graph.now distances.now covering (top + 1)) }
{
    let mut levels = Levels::with_capacity(alloc, top as usize + 1)?;
    push_levels_by_spread(alloc, graph, distances, covering, top, &mut levels)?;
    Ok(levels)
}
