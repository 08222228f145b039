//! How a find climbs past entries that hold nothing.
ghost use Rattle.std.specs.Prelude.{◌≡◌, ◌+◌, ◌-◌, ◌*◌, ◌^◌, ◌<◌, ◌≤◌, ◌++◌, [], ℕ, None, true, suc, length, drop, slice_index};
ghost use Rattle.node_set.specs.Ascending.{has};
ghost use Rattle.directory.specs.Finds.{FindCall, after_entry, climb};
ghost use Rattle.region_plan.specs.Kept.{IsKept};
ghost use Rattle.region_plan.specs.Plan.{clusters_of, inside, leader, levels_of, members_of, nodes_of, readers};
ghost use Rattle.region_plan.specs.Settings.{setting_of};
ghost use Rattle.walk.specs.Walks.{IsProgressWithin, reader_in, readers_above, readers_at, pursuit_at};

use crate::progress::Progress;
use directory::{Found, Why};
use region_plan::{Plan, plan_is_sound};

// The climb goes on to the first reader of a level or above.
pub fn climb_from(plan: &Plan, from: u32, known: Option<u32>, weight: u64, level: u32) -> Progress
    requires from { from < nodes_of plan.now }
    requires level { level ≤ levels_of plan.now }
    requires light { weight ≤ level * 1024 * 2 ^ 36 }
    ensures pursuit { pursuit_at (setting_of plan.now []) from result ≡ climb known weight
        (readers_above (setting_of plan.now []) from level) }
    ensures within { IsProgressWithin plan.now from result }
{
    // There is a level.
    plan_is_sound(plan);
    for level in level..plan.levels() {
        if !plan.readers(level, from).is_empty() {
            return Progress::Climbing {
                known,
                weight,
                level,
                index: 0,
            };
        }
    }
    Progress::Ended {
        found: Found::Again {
            why: Why::NoEntry,
            weight,
        },
    }
}

// The climb goes on past a reader whose entry is empty.
pub fn past_entry(
    plan: &Plan,
    from: u32,
    known: Option<u32>,
    weight: u64,
    level: u32,
    index: u32,
) -> Progress
    requires from { from < nodes_of plan.now }
    requires within { IsProgressWithin plan.now from (Progress.Climbing known weight level index) }
    ensures pursuit { (sub : ℕ) → let call : FindCall = record { from = from; sub = sub } in
        pursuit_at (setting_of plan.now []) from result
        ≡ after_entry (setting_of plan.now []) call known weight
        (reader_in plan.now from level index)
        (drop (suc index) (readers_at (setting_of plan.now []) from level) ++ readers_above
        (setting_of plan.now []) from (suc level)) None }
    ensures within { IsProgressWithin plan.now from result }
{
    let weight = weight + 2 * way_in(plan, from, level, index);
    if (index as usize) + 1 < plan.readers(level, from).len() {
        Progress::Climbing {
            known,
            weight,
            level,
            index: index + 1,
        }
    } else {
        climb_from(plan, from, known, weight, level + 1)
    }
}

// The cluster that a node reads at a level, by its place.
pub fn reader_at(plan: &Plan, from: u32, level: u32, index: u32) -> u32
    requires from { from < nodes_of plan.now }
    requires level { level < levels_of plan.now }
    requires index { index < length (readers plan.now level from) }
    ensures value { result ≡ slice_index (readers plan.now level from) index }
    ensures cluster { result < clusters_of plan.now level }
    ensures member { has from (members_of plan.now level result) ≡ true }
    ensures few { length (readers plan.now level from) ≤ 1024 }
    ensures kept { IsKept plan.now }
{
    // There are few clusters, and the node is in those that it reads.
    plan_is_sound(plan);
    plan.readers(level, from)[index as usize]
}

// The weight from the leader of a reader to the origin.
pub fn way_in(plan: &Plan, from: u32, level: u32, index: u32) -> u64
    requires from { from < nodes_of plan.now }
    requires level { level < levels_of plan.now }
    requires index { index < length (readers plan.now level from) }
    ensures way { result ≡ inside plan.now level (slice_index
        (readers plan.now level from) index) from }
    ensures light { result ≤ 2 ^ 35 }
    ensures few { length (readers plan.now level from) ≤ 1024 }
    ensures kept { IsKept plan.now }
{
    // There are few readers, and the weights inside them are light.
    plan_is_sound(plan);
    plan.reader_weight(level, from, index)
}
