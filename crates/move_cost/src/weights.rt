//! What one write costs, read from its visit.
ghost use Rattle.std.specs.Prelude.{◌≡◌, ◌<◌, ◌≤◌, [], true};
ghost use Rattle.entry_word.specs.Addresses.{address_in};
ghost use Rattle.entry_word.specs.Marks.{mark_in};
ghost use Rattle.node_set.specs.Ascending.{has};
ghost use Rattle.region_plan.specs.Plan.{clusters_of, inside, levels_of, members_of, nodes_of};
ghost use Rattle.region_plan.specs.Settings.{setting_of};
ghost use Rattle.move_cost.specs.Costs.{entry_weight, mark_weight, says_nothing};
ghost use Rattle.move_cost.specs.Counting.{IsFitAct, IsFitEntry, IsFitMark, act_purges, act_weight, most_weight};

use distances::Distances;
use entry_word::{Act, Address, Key, PresenceMark, unpack_address, unpack_mark};
use region_plan::{Plan, plan_is_sound};

// The mark that a word is read as.
fn mark_in(word: u64) -> PresenceMark
    ensures { result ≡ mark_in word }
{
    unpack_mark(word).unwrap_or(PresenceMark::Empty)
}

// The entry that a word is read as.
fn address_in(word: u64) -> Option<Address>
    ensures { result ≡ address_in word }
{
    unpack_address(word).unwrap_or(None)
}

// The weight of a mark that is written at a node.
fn mark_weight(plan: &Plan, distances: &Distances, place: u32, mark: PresenceMark) -> u64
    requires belongs { plan.now.distances ≡ distances.now }
    requires place { place < nodes_of plan.now }
    requires fit { IsFitMark plan.now mark }
    ensures weight { result ≡ mark_weight (setting_of plan.now []) place mark }
    ensures small { result ≤ most_weight }
{
    // Distances are small.
    plan_is_sound(plan);
    match mark {
        PresenceMark::Gone { to, .. } => 2 * distances.between(place, u32::from(to)),
        PresenceMark::Empty
        | PresenceMark::Here { .. }
        | PresenceMark::Coming { .. }
        | PresenceMark::Off { .. } => 0,
    }
}

// The least weight inside a cluster from its leader to a member, which reads few clusters.
fn weight_inside(plan: &Plan, level: u32, cluster: u32, node: u32) -> u64
    requires node { node < nodes_of plan.now }
    requires level { level < levels_of plan.now }
    requires cluster { cluster < clusters_of plan.now level }
    requires member { has node (members_of plan.now level cluster) ≡ true }
    ensures { result ≡ inside plan.now level cluster node }
{
    // A node reads few clusters: just those that contain it.
    plan_is_sound(plan);
    match plan.readers(level, node).binary_search(&cluster) {
        Ok(place) => plan.reader_weight(level, node, place as u32),
        Err(_) => unreachable!(),
    }
}

// The weight of an entry that is written at a cluster of a level, by a subscriber that goes to a
// node.
fn entry_weight(
    plan: &Plan,
    distances: &Distances,
    node: u32,
    level: u32,
    cluster: u32,
    address: Option<Address>,
) -> u64
    requires belongs { plan.now.distances ≡ distances.now }
    requires node { node < nodes_of plan.now }
    requires level { level < levels_of plan.now }
    requires cluster { cluster < clusters_of plan.now level }
    requires fit { IsFitEntry plan.now level cluster address }
    ensures weight { result ≡ entry_weight (setting_of plan.now []) node level cluster address }
    ensures small { result ≤ most_weight }
{
    // Distances are small, and so are weights inside clusters.
    plan_is_sound(plan);
    match address {
        Some(address) => 2 * weight_inside(plan, level, cluster, u32::from(address.node)),
        None => 2 * distances.between(node, plan.leader(level, cluster)),
    }
}

// The weight of an act, by a subscriber that goes to a node.
pub fn act_weight(plan: &Plan, distances: &Distances, node: u32, act: Act) -> u64
    requires belongs { plan.now.distances ≡ distances.now }
    requires node { node < nodes_of plan.now }
    requires fit { IsFitAct plan.now act }
    ensures weight { result ≡ act_weight (setting_of plan.now []) node act }
    ensures small { result ≤ most_weight }
{
    match act {
        Act::Put(Key::Presence { node: place, .. }, word) => {
            mark_weight(plan, distances, place, mark_in(word))
        }
        Act::Put(Key::Entry { level, cluster, .. }, word) => {
            entry_weight(plan, distances, node, level, cluster, address_in(word))
        }
        Act::Look(_) | Act::Census(_) => 0,
    }
}

// Whether a mark says nothing.
fn says_nothing(mark: PresenceMark) -> bool
    ensures { result ≡ says_nothing mark }
{
    match mark {
        PresenceMark::Empty => true,
        PresenceMark::Here { .. }
        | PresenceMark::Gone { .. }
        | PresenceMark::Coming { .. }
        | PresenceMark::Off { .. } => false,
    }
}

// Whether an act is a purge.
pub fn is_purge(act: Act) -> bool
    ensures { result ≡ act_purges act }
{
    match act {
        Act::Put(Key::Presence { .. }, word) => says_nothing(mark_in(word)),
        Act::Put(Key::Entry { .. }, _) | Act::Look(_) | Act::Census(_) => false,
    }
}
