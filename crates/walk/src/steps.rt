//! How a find goes on by the word that it reads.
ghost use Rattle.std.specs.Prelude.{◌≡◌, ◌+◌, ◌-◌, ◌^◌, ◌<◌, ◌≤◌, [], ℕ, None, length, slice_index};
ghost use Rattle.node_set.specs.Ascending.{has};
ghost use Rattle.entry_word.specs.Marks.{mark_in};
ghost use Rattle.entry_word.specs.Addresses.{address_in};
ghost use Rattle.directory.specs.Finds.{FindCall, after_mark, after_origin, after_word, begin_chase, climb, hop};
ghost use Rattle.region_plan.specs.Kept.{IsKept};
ghost use Rattle.region_plan.specs.Plan.{inside, leader, levels_of, nodes_of, readers};
ghost use Rattle.region_plan.specs.Settings.{setting_of};
ghost use Rattle.walk.specs.Walks.{IsMarkBelow, IsProgressWithin, IsWordBelow, chase_of, pursuit_at};

use crate::climb::{climb_from, past_entry, reader_at, way_in};
use crate::progress::{Chase, Progress};
use directory::{Found, Why};
use distances::Distances;
use entry_word::{Address, PresenceMark, unpack_address, unpack_mark};
use region_plan::{Plan, plan_is_sound};

// The progress of a find from a node, after one more word.
pub fn progress_after(
    plan: &Plan,
    distances: &Distances,
    from: u32,
    progress: Progress,
    word: u64,
) -> Progress
    requires from { from < nodes_of plan.now }
    requires within { IsProgressWithin plan.now from progress }
    requires belongs { plan.now.distances ≡ distances.now }
    requires word { IsWordBelow (nodes_of plan.now) progress word }
    ensures pursuit { (sub : ℕ) → let call : FindCall = record { from = from; sub = sub } in
        pursuit_at (setting_of plan.now []) from result ≡ after_word (setting_of plan.now []) call
        (pursuit_at (setting_of plan.now []) from progress) word }
    ensures within { IsProgressWithin plan.now from result }
{
    match progress {
        Progress::AtOrigin => from_origin(plan, distances, from, mark_of(word)),
        Progress::Climbing {
            known,
            weight,
            level,
            index,
        } => match address_of(word) {
            None => past_entry(plan, from, known, weight, level, index),
            Some(address) => {
                let way = to_address(plan, distances, from, level, index, address);
                chase_from(
                    plan,
                    known,
                    Some(level),
                    weight + way,
                    u32::from(address.node),
                )
            }
        },
        Progress::Chasing { chase, node } => at_mark(plan, distances, chase, node, mark_of(word)),
        Progress::Ended { found } => Progress::Ended { found },
    }
}

// The mark that a word is read as.
fn mark_of(word: u64) -> PresenceMark
    ensures { result ≡ mark_in word }
{
    unpack_mark(word).unwrap_or(PresenceMark::Empty)
}

// The entry that a word is read as.
fn address_of(word: u64) -> Option<Address>
    ensures { result ≡ address_in word }
{
    unpack_address(word).unwrap_or(None)
}

// The mark at the origin.
fn from_origin(plan: &Plan, distances: &Distances, from: u32, mark: PresenceMark) -> Progress
    requires from { from < nodes_of plan.now }
    requires belongs { plan.now.distances ≡ distances.now }
    requires mark { IsMarkBelow (nodes_of plan.now) mark }
    ensures pursuit { (sub : ℕ) → let call : FindCall = record { from = from; sub = sub } in
        pursuit_at (setting_of plan.now []) from result
        ≡ after_origin (setting_of plan.now []) call mark }
    ensures within { IsProgressWithin plan.now from result }
{
    match mark {
        PresenceMark::Empty => climb_from(plan, from, None, 0, 0),
        PresenceMark::Coming { from: node, .. } => {
            let node = u32::from(node);
            chase_from(plan, None, None, between(plan, distances, from, node), node)
        }
        PresenceMark::Gone { number, .. } => climb_from(plan, from, Some(number), 0, 0),
        PresenceMark::Here { number } => Progress::Ended {
            found: Found::At {
                node: from,
                number,
                level: None,
                weight: 0,
            },
        },
        PresenceMark::Off { number } => Progress::Ended {
            found: Found::Off {
                node: from,
                number,
                level: None,
                weight: 0,
            },
        },
    }
}

// The weight from the origin to the leader of a reader, and on to the address that it has.
fn to_address(
    plan: &Plan,
    distances: &Distances,
    from: u32,
    level: u32,
    index: u32,
    address: Address,
) -> u64
    requires from { from < nodes_of plan.now }
    requires level { level < levels_of plan.now }
    requires index { index < length (readers plan.now level from) }
    requires belongs { plan.now.distances ≡ distances.now }
    requires node { address.node < nodes_of plan.now }
    ensures way { result ≡ inside plan.now level (slice_index
        (readers plan.now level from) index) from
        + (setting_of plan.now []).distance (leader plan.now level (slice_index
        (readers plan.now level from) index)) address.node }
    ensures light { result ≤ 2 ^ 36 }
    ensures few { length (readers plan.now level from) ≤ 1024 }
    ensures kept { IsKept plan.now }
{
    // A leader is a node.
    plan_is_sound(plan);
    let cluster = reader_at(plan, from, level, index);
    let leader = plan.leader(level, cluster);
    way_in(plan, from, level, index) + between(plan, distances, leader, u32::from(address.node))
}

// The distance of two nodes, as the directory reads it of the plan.
fn between(plan: &Plan, distances: &Distances, u: u32, v: u32) -> u64
    requires from { u < nodes_of plan.now }
    requires to { v < nodes_of plan.now }
    requires belongs { plan.now.distances ≡ distances.now }
    ensures distance { result ≡ (setting_of plan.now []).distance u v }
    ensures light { result ≤ 2 ^ 30 }
{
    // Distances are small.
    plan_is_sound(plan);
    distances.between(u, v)
}

// The chase begins at a node.
fn chase_from(
    plan: &Plan,
    known: Option<u32>,
    level: Option<u32>,
    weight: u64,
    node: u32,
) -> Progress
    requires node { node < nodes_of plan.now }
    requires light { weight ≤ 2 ^ 52 }
    ensures pursuit { (from : ℕ) → pursuit_at (setting_of plan.now []) from result
        ≡ begin_chase (setting_of plan.now []) known level weight node }
    ensures within { (from : ℕ) → IsProgressWithin plan.now from result }
{
    let chase = Chase {
        known,
        level,
        weight,
        hops_left: plan.nodes() + 2,
    };
    Progress::Chasing { chase, node }
}

// The mark at a node of the chase.
fn at_mark(
    plan: &Plan,
    distances: &Distances,
    chase: Chase,
    node: u32,
    mark: PresenceMark,
) -> Progress
    requires within { IsProgressWithin plan.now 0 (Progress.Chasing chase node) }
    requires belongs { plan.now.distances ≡ distances.now }
    requires mark { IsMarkBelow (nodes_of plan.now) mark }
    ensures pursuit { (from : ℕ) → pursuit_at (setting_of plan.now []) from result
        ≡ after_mark (setting_of plan.now []) (chase_of chase) node mark }
    ensures within { (from : ℕ) → IsProgressWithin plan.now from result }
{
    match mark {
        PresenceMark::Empty => Progress::Ended {
            found: Found::Again {
                why: Why::Empty { node },
                weight: chase.weight,
            },
        },
        PresenceMark::Here { number } => here(chase, node, number),
        PresenceMark::Off { number } => Progress::Ended {
            found: Found::Off {
                node,
                number,
                level: chase.level,
                weight: chase.weight,
            },
        },
        PresenceMark::Gone { number, to } => {
            let known = Some(chase.known.map_or(number, |known| known.max(number)));
            hop_to(
                plan,
                distances,
                Chase { known, ..chase },
                node,
                u32::from(to),
            )
        }
        PresenceMark::Coming { number, from } => {
            if chase.known.is_some_and(|known| known >= number) {
                here(chase, node, number)
            } else {
                hop_to(plan, distances, chase, node, u32::from(from))
            }
        }
    }
}

// The subscriber is here.
fn here(chase: Chase, node: u32, number: u32) -> Progress
    ensures { result ≡ Progress.Ended (Found.At node number chase.level chase.weight) }
{
    Progress::Ended {
        found: Found::At {
            node,
            number,
            level: chase.level,
            weight: chase.weight,
        },
    }
}

// The chase hops on from a node to another, if it has a hop left.
fn hop_to(plan: &Plan, distances: &Distances, chase: Chase, node: u32, to: u32) -> Progress
    requires within { IsProgressWithin plan.now 0 (Progress.Chasing chase node) }
    requires belongs { plan.now.distances ≡ distances.now }
    requires to { to < nodes_of plan.now }
    ensures pursuit { (from : ℕ) → pursuit_at (setting_of plan.now []) from result
        ≡ hop (setting_of plan.now []) chase.known chase.level chase.weight chase.hops_left node
        to }
    ensures within { (from : ℕ) → IsProgressWithin plan.now from result }
{
    // Distances are small.
    plan_is_sound(plan);
    if chase.hops_left == 0 {
        return Progress::Ended {
            found: Found::Again {
                why: Why::Chased,
                weight: chase.weight,
            },
        };
    }
    let chase = Chase {
        weight: chase.weight + between(plan, distances, node, to),
        hops_left: chase.hops_left - 1,
        ..chase
    };
    Progress::Chasing { chase, node: to }
}
