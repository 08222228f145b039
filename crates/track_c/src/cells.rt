//! Cells and answers, as C has them.
ghost use Rattle.std.specs.Prelude.{◌≡◌, []};
ghost use Rattle.directory.specs.Keys.{key_node};
ghost use Rattle.region_plan.specs.Settings.{setting_of};
ghost use Rattle.track_c.specs.Told.{again_told, answer_told, cell_told, node_told};

use directory::{Found, Why};
use entry_word::Key;
use region_plan::Plan;

/// A cell, and the node at which it lies. Of kind 0 it is the presence of a subscriber at the node,
/// and level and cluster are 0; of kind 1 it is its entry at a cluster of a level, which the node
/// leads.
#[repr(C)]
#[derive(Clone, Copy)]
pub struct TrackCell {
    pub kind: u32,
    pub node: u32,
    pub level: u32,
    pub cluster: u32,
    pub sub: u32,
}

/// A put: the cell, and the word that it holds from now on.
#[repr(C)]
#[derive(Clone, Copy)]
pub struct TrackPut {
    pub cell: TrackCell,
    pub word: u64,
}

/// The answer of a find. Of kind 0 the subscriber is at the node, and on; of kind 1 it is there,
/// and off; its move of this number brought it there. Of kind 2 the find is to be made again, since
/// a mark was empty at the node (why 1), no entry was found (2), or the chase was too long (3).
/// Where the find climbed, `climbed` is 1 and the level is the one whose entry it found.
#[repr(C)]
#[derive(Clone, Copy)]
pub struct TrackAnswer {
    pub kind: u32,
    pub why: u32,
    pub node: u32,
    pub number: u32,
    pub climbed: u32,
    pub level: u32,
    pub weight: u64,
}

/// The node at which a cell of a plan lies.
pub fn node_of(plan: &Plan, key: Key) -> u32
    ensures { result ≡ key_node (setting_of plan.now []) key }
{
    match key {
        Key::Presence { node, .. } => node,
        Key::Entry { level, cluster, .. } => {
            if level < plan.levels() && cluster < plan.clusters(level) {
                plan.leader(level, cluster)
            } else {
                0
            }
        }
    }
}

/// The cell of a key.
pub fn tell_cell(plan: &Plan, key: Key) -> TrackCell
    ensures { result ≡ cell_told plan.now key }
{
    let node = node_of(plan, key);
    match key {
        Key::Presence { sub, .. } => TrackCell {
            kind: 0,
            node,
            level: 0,
            cluster: 0,
            sub,
        },
        Key::Entry {
            level,
            cluster,
            sub,
        } => TrackCell {
            kind: 1,
            node,
            level,
            cluster,
            sub,
        },
    }
}

// An answer with a node.
fn tell_node(kind: u32, node: u32, number: u32, level: Option<u32>, weight: u64) -> TrackAnswer
    ensures { result ≡ node_told kind node number level weight }
{
    TrackAnswer {
        kind,
        why: 0,
        node,
        number,
        climbed: u32::from(level.is_some()),
        level: level.unwrap_or(0),
        weight,
    }
}

// An answer that says to look again.
fn tell_again(why: u32, node: u32, weight: u64) -> TrackAnswer
    ensures { result ≡ again_told why node weight }
{
    TrackAnswer {
        kind: 2,
        why,
        node,
        number: 0,
        climbed: 0,
        level: 0,
        weight,
    }
}

/// The answer of a find.
pub fn tell_answer(found: Found) -> TrackAnswer
    ensures { result ≡ answer_told found }
{
    match found {
        Found::At {
            node,
            number,
            level,
            weight,
        } => tell_node(0, node, number, level, weight),
        Found::Off {
            node,
            number,
            level,
            weight,
        } => tell_node(1, node, number, level, weight),
        Found::Again { why, weight } => match why {
            Why::Empty { node } => tell_again(1, node, weight),
            Why::NoEntry => tell_again(2, 0, weight),
            Why::Chased => tell_again(3, 0, weight),
        },
    }
}
