//! Where a cell lies, and its number.
ghost use Rattle.std.specs.Prelude.{◌≡◌, ◌*◌, ◌≤◌, []};
ghost use Rattle.entry_word.specs.declared.visit.Key.{Key};
ghost use Rattle.directory.specs.Keys.{key_node};
ghost use Rattle.region_plan.specs.Plan.{levels_of};
ghost use Rattle.region_plan.specs.Settings.{setting_of};
ghost use Rattle.region_plan.specs.Cells.{IsCell, IsPlace};
ghost use Rattle.visit_log.specs.Numbers.{cell_count, cell_number, clusters_below, NumbersApart, NumbersBelow};

use entry_word::Key;
use region_plan::{Plan, plan_is_sound};

/// The node at which a cell lies.
pub fn key_node(plan: &Plan, key: Key) -> u32
    requires place { IsPlace plan.now key }
    ensures { result ≡ key_node (setting_of plan.now []) key }
{
    match key {
        Key::Presence { node, .. } => node,
        Key::Entry { level, cluster, .. } => plan.leader(level, cluster),
    }
}

/// How many cells so many subscribers have.
pub fn cell_count(plan: &Plan, subs: u32) -> u64
    ensures { result ≡ cell_count plan.now subs }
{
    // The call tells the proof that there are few nodes and levels.
    let nodes = plan.nodes();
    u64::from(nodes + clusters_below(plan, plan.levels())) * u64::from(subs)
}

/// The number of a cell among those of so many subscribers.
pub fn cell_number(plan: &Plan, subs: u32, key: Key) -> u64
    requires cell { IsCell plan.now subs key }
    ensures { result ≡ cell_number plan.now subs key }
{
    let nodes = plan.nodes();
    match key {
        Key::Presence { node, sub } => u64::from(node) * u64::from(subs) + u64::from(sub),
        Key::Entry {
            level,
            cluster,
            sub,
        } => {
            let place = nodes + clusters_below(plan, level) + cluster;
            u64::from(place) * u64::from(subs) + u64::from(sub)
        }
    }
}

/// A cell's number is below the count of cells, and different cells have different numbers.
pub fn cell_numbers()
    ensures below { NumbersBelow }
    ensures apart { NumbersApart }
{}

// How many clusters the levels below one have.
pub fn clusters_below(plan: &Plan, level: u32) -> u32
    requires level { level ≤ levels_of plan.now }
    ensures count { result ≡ clusters_below plan.now level }
    ensures few { result ≤ 1024 * level }
{
    // Levels have few clusters.
    plan_is_sound(plan);
    let mut count = 0;
    for i in 0..level {
        count += plan.clusters(i);
    }
    count
}
