//! What the levels of a handset have gathered, and their addresses.
ghost use Rattle.std.specs.Prelude.{◌≡◌, ◌<◌, ◌≤◌, ◌+◌, ◌-◌, ◌^◌, ◌++◌, [], ℕ, suc, not, ◌==◌, length, drop, replicate, slice_index};
ghost use Rattle.region_plan.specs.Plan.{home, levels_of, nodes_of};
ghost use Rattle.region_plan.specs.Settings.{setting_of};
ghost use Rattle.handset.specs.StepWrites.{first_with};
ghost use Rattle.handset.specs.Beginning.{gathered_after, renewal_in};

use crate::stage::Journey;
use region_plan::{Plan, plan_is_sound};

// The highest level that a move of this weight renews, by what the levels have gathered.
pub fn renewal(plan: &Plan, gathered: &[u64], weight: u64) -> u32
    requires levels { length gathered.now ≡ levels_of plan.now }
    requires light { (level : ℕ) → level < levels_of plan.now
        → slice_index gathered.now level + weight < 2 ^ 64 }
    ensures highest { result ≡ renewal_in (setting_of plan.now []) gathered.now weight }
    ensures within { result < levels_of plan.now }
{
    // There is a level.
    plan_is_sound(plan);
    let mut limit = plan.levels();
    while limit > 0 {
        limit -= 1;
        if plan.threshold(limit) <= gathered[limit as usize] + weight {
            return limit;
        }
    }
    0
}

// The levels up to the one that a move renews have gathered nothing, the others its weight more.
pub fn gather(gathered: &mut [u64], renewed: u32, weight: u64)
    requires light { (level : ℕ) → level < length gathered.old
        → slice_index gathered.old level + weight < 2 ^ 64 }
    ensures { gathered.new ≡ gathered_after gathered.old renewed weight }
{
    for level in 0..gathered.len() {
        gathered[level] = if level <= renewed as usize {
            0
        } else {
            gathered[level] + weight
        };
    }
}

// The levels up to the one that a move renews have the new node's address.
pub fn readdress(addresses: &mut [u32], renewed: u32, to: u32)
    requires { renewed < length addresses.old }
    ensures { addresses.new ≡ replicate (suc renewed) to ++ drop (suc renewed) addresses.old }
{
    for level in 0..renewed as usize + 1 {
        addresses[level] = to;
    }
}

// The first level from one on whose old address has another home than the new one.
pub fn first_old(plan: &Plan, addresses: &[u32], last: Journey, from: u32) -> Option<u32>
    requires levels { last.renewed < levels_of plan.now }
    requires count { length addresses.now ≡ levels_of plan.now }
    requires inside { (level : ℕ) → level < levels_of plan.now
        → slice_index addresses.now level < nodes_of plan.now }
    requires to { last.to < nodes_of plan.now }
    ensures { result ≡ first_with (λ level. not (home plan.now level
        (slice_index addresses.now level) == home plan.now level last.to)) from
        (suc last.renewed - from) }
{
    // Levels are few.
    plan_is_sound(plan);
    for level in from..last.renewed + 1 {
        if plan.home(level, addresses[level as usize]) != plan.home(level, last.to) {
            return Some(level);
        }
    }
    None
}
