//! The places of nodes and clusters in one row.
ghost use Rattle.std.specs.Prelude.{◌≡◌, ◌^◌, ◌<◌, IfOk, length, slice_index};
ghost use Rattle.region_plan.specs.Cells.{IsPlace};
ghost use Rattle.region_plan.specs.Plan.{PlanData};
ghost use Rattle.visit_log.specs.Numbers.{ArePlaces, key_place};

use entry_word::Key;
use region_plan::Plan;
use std::alloc::{AllocError, Global};
use std::marker::Model;

/// The place of each node and of each cluster of a plan in one row: first the nodes, then the
/// clusters, level by level. The place of each level's first cluster is kept.
#[derive(Drop)]
pub struct Places {
    width: u32,
    firsts: Vec<u32>,
}

impl Model for Places {
    ghost use Rattle.std.specs.Prelude.{◌≡◌, ◌^◌, ◌<◌, vec_capacity, vec_len};
    ghost use Rattle.visit_log.specs.Numbers.{PlaceData};

    ghost Value = { PlaceData };

    ghost view = { λ p. record { width = p.width; firsts = p.firsts.items } };

    // Places are counted in 32 bits, and no room is kept beside what is told.
    ghost invariant = { λ p. (p.width < 2 ^ 32) × (vec_capacity p.firsts ≡ vec_len p.firsts) };
}

impl Places {
    /// The places of a plan's nodes and clusters.
    pub fn new(alloc: Global, plan: &Plan) -> Result<Places, AllocError>
        ensures { IfOk result (ArePlaces plan.now) }
    {
        let mut first = plan.nodes();
        let mut firsts = Vec::with_capacity(alloc, plan.levels() as usize)?;
        for level in 0..plan.levels() {
            firsts.push_reserved(first);
            first += plan.clusters(level);
        }
        Ok(Places {
            width: first,
            firsts,
        })
    }

    /// How many there are.
    pub fn width(&self) -> u32
        ensures { result ≡ self.now.width }
    {
        self.width
    }

    /// The place of the node or the cluster at which a cell is.
    pub fn place(&self, key: Key) -> u32
        requires { (plan : PlanData) × ArePlaces plan self.now × IsPlace plan key }
        ensures { (plan : PlanData) → ArePlaces plan self.now → IsPlace plan key
            → result ≡ key_place plan key }
    {
        match key {
            Key::Presence { node, .. } => node,
            Key::Entry { level, cluster, .. } => self.firsts[level as usize] + cluster,
        }
    }

    /// The place of a level's first cluster.
    pub fn first(&self, level: u32) -> u32
        requires { level < length self.now.firsts }
        ensures { result ≡ slice_index self.now.firsts level }
    {
        self.firsts[level as usize]
    }
}

/// Law: there are fewer than 2^32 places. It takes no time.
pub fn places_are_few(places: &Places)
    ensures { places.now.width < 2 ^ 32 }
{
    // A look at a field tells the proof what the places keep.
    let _ = &places.width;
}
