//! The words of the table at the opening.
ghost use Rattle.std.specs.Prelude.{◌≡◌, ◌+◌, ◌*◌, ◌^◌, ◌<◌, ◌≤◌, [], ℕ, All, OnOk, IfOk, length, suc};
ghost use Rattle.directory.specs.Census.{census};
ghost use Rattle.region_plan.specs.Plan.{PlanData, clusters_of, levels_of, nodes_of};
ghost use Rattle.region_plan.specs.Settings.{setting_of};
ghost use Rattle.visit_log.specs.Numbers.{clusters_below};
ghost use Rattle.visit_log.specs.Cells.{GoWith, Hold};
ghost use Rattle.station.specs.Opening.{AreLaid, AreOpening, setup_of};

use entry_word::Key;
use net_graph::OutOfMemory;
use region_plan::Plan;
use std::alloc::Global;
use visit_log::{PlainCells, cell_numbers};

// All words: nobody has visited, no node is entered, and each subscriber is at its start.
pub fn opening_words(alloc: Global, plan: &Plan, homes: &[u32]) -> Result<Vec<u64>, OutOfMemory>
    requires some { 1 ≤ length homes.now }
    requires few { length homes.now ≤ 64 }
    requires inside { All (λ home. home < nodes_of plan.now) homes.now }
    ensures opening { IfOk result (λ words. (actors : ℕ)
        → AreOpening (setup_of plan.now homes.now actors) words.items) }
{
    let cells = PlainCells::new(alloc, plan, homes)?;
    lay_words(alloc, plan, homes, &cells)
}

// The words of each kind, one kind after another.
fn lay_words(
    alloc: Global,
    plan: &Plan,
    homes: &[u32],
    cells: &PlainCells,
) -> Result<Vec<u64>, OutOfMemory>
    requires few { length homes.now ≤ 64 }
    requires goes { GoWith plan.now cells.now }
    requires hold { Hold plan.now homes.now cells.now [] }
    ensures opening { IfOk result (λ words. (actors : ℕ)
        → AreOpening (setup_of plan.now homes.now actors) words.items) }
{
    let mut words = Vec::new(alloc);
    words.push(0)?;
    lay_locks(&mut words, plan, homes)?;
    lay_tallies(&mut words, plan, homes)?;
    lay_presences(&mut words, plan, homes, cells)?;
    lay_entries(&mut words, plan, homes, cells)?;
    Ok(words)
}

// Tells the proof that words in memory can be numbered.
pub fn words_are_few(words: &[u64])
    ensures { length words.now < 2 ^ 64 }
{}

// A free lock word for each node.
fn lay_locks(words: &mut Vec<u64>, plan: &Plan, homes: &[u32]) -> Result<(), OutOfMemory>
    requires laid { AreLaid (setup_of plan.now homes.now 0) words.old.items }
    requires at { length words.old.items ≡ 1 }
    ensures laid { OnOk result (AreLaid (setup_of plan.now homes.now 0) words.new.items) }
    ensures at { OnOk result (length words.new.items ≡ 1 + nodes_of plan.now) }
{
    let _ = homes;
    for _ in 0..plan.nodes() {
        words.push(0)?;
    }
    Ok(())
}

// The tally word of each node.
fn lay_tallies(words: &mut Vec<u64>, plan: &Plan, homes: &[u32]) -> Result<(), OutOfMemory>
    requires few { length homes.now ≤ 64 }
    requires laid { AreLaid (setup_of plan.now homes.now 0) words.old.items }
    requires at { length words.old.items ≡ 1 + nodes_of plan.now }
    ensures laid { OnOk result (AreLaid (setup_of plan.now homes.now 0) words.new.items) }
    ensures at { OnOk result (length words.new.items ≡ 1 + 2 * nodes_of plan.now) }
{
    for node in 0..plan.nodes() {
        words.push(starting_at(homes, node))?;
    }
    Ok(())
}

// How many subscribers start at a node.
fn starting_at(homes: &[u32], node: u32) -> u64
    requires few { length homes.now ≤ 64 }
    ensures count { (plan : PlanData)
        → result ≡ length (census (setting_of plan homes.now) [] node) }
{
    let mut count = 0;
    for sub in 0..homes.len() {
        if node == homes[sub] {
            count += 1;
        }
    }
    count
}

// The presence cells of all nodes.
fn lay_presences(
    words: &mut Vec<u64>,
    plan: &Plan,
    homes: &[u32],
    cells: &PlainCells,
) -> Result<(), OutOfMemory>
    requires few { length homes.now ≤ 64 }
    requires goes { GoWith plan.now cells.now }
    requires hold { Hold plan.now homes.now cells.now [] }
    requires laid { AreLaid (setup_of plan.now homes.now 0) words.old.items }
    requires at { length words.old.items ≡ 1 + 2 * nodes_of plan.now }
    ensures laid { OnOk result (AreLaid (setup_of plan.now homes.now 0) words.new.items) }
    ensures at { OnOk result (length words.new.items
        ≡ 1 + 2 * nodes_of plan.now + nodes_of plan.now * length homes.now) }
{
    for node in 0..plan.nodes() {
        for sub in 0..homes.len() as u32 {
            cell_numbers();
            let word = cells.look(plan, Key::Presence { node, sub });
            words.push(word)?;
        }
    }
    Ok(())
}

// The entry cells of all levels.
fn lay_entries(
    words: &mut Vec<u64>,
    plan: &Plan,
    homes: &[u32],
    cells: &PlainCells,
) -> Result<(), OutOfMemory>
    requires few { length homes.now ≤ 64 }
    requires goes { GoWith plan.now cells.now }
    requires hold { Hold plan.now homes.now cells.now [] }
    requires laid { AreLaid (setup_of plan.now homes.now 0) words.old.items }
    requires at { length words.old.items
        ≡ 1 + 2 * nodes_of plan.now + nodes_of plan.now * length homes.now }
    ensures laid { OnOk result (AreLaid (setup_of plan.now homes.now 0) words.new.items) }
    ensures at { OnOk result (length words.new.items ≡ 1 + 2 * nodes_of plan.now
        + (nodes_of plan.now + clusters_below plan.now (levels_of plan.now)) * length homes.now) }
{
    for level in 0..plan.levels() {
        lay_level(words, plan, homes, cells, level)?;
    }
    Ok(())
}

// The entry cells of a level.
fn lay_level(
    words: &mut Vec<u64>,
    plan: &Plan,
    homes: &[u32],
    cells: &PlainCells,
    level: u32,
) -> Result<(), OutOfMemory>
    requires few { length homes.now ≤ 64 }
    requires goes { GoWith plan.now cells.now }
    requires hold { Hold plan.now homes.now cells.now [] }
    requires level { level < levels_of plan.now }
    requires laid { AreLaid (setup_of plan.now homes.now 0) words.old.items }
    requires at { length words.old.items ≡ 1 + 2 * nodes_of plan.now
        + (nodes_of plan.now + clusters_below plan.now level) * length homes.now }
    ensures laid { OnOk result (AreLaid (setup_of plan.now homes.now 0) words.new.items) }
    ensures at { OnOk result (length words.new.items ≡ 1 + 2 * nodes_of plan.now
        + (nodes_of plan.now + (clusters_below plan.now level + clusters_of plan.now level))
        * length homes.now) }
{
    for cluster in 0..plan.clusters(level) {
        for sub in 0..homes.len() as u32 {
            cell_numbers();
            let key = Key::Entry {
                level,
                cluster,
                sub,
            };
            let word = cells.look(plan, key);
            words.push(word)?;
        }
    }
    Ok(())
}
