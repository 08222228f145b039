//! The clusters of a level in flat arrays, with each node's home and readers.

ghost use Rattle.std.specs.Prelude.{◌≡◌, ◌+◌, ◌*◌, ◌<◌, ◌≤◌, IfOk, length};
ghost use Rattle.std.specs.Prelude.{map, slice_index};
ghost use Rattle.region_plan.specs.Plan.{weight_in};
ghost use Rattle.region_plan.specs.Regions.{clusters_with};
ghost use Rattle.region_plan.specs.Measures.{most};
ghost use Rattle.region_plan.specs.Kept.{readers_for, shape_with};

use crate::clusters::Clusters;
use crate::readers::ReaderLists;
use net_graph::OutOfMemory;
use std::alloc::Global;
use std::marker::Model;

// What levels with equal balls share: their clusters, each node's home, and the clusters of each
// node.
#[derive(Drop)]
pub struct LevelTable {
    pub phases: u32,
    pub clusters: Clusters,
    pub homes: Vec<u32>,
    lists: ReaderLists,
}

impl Model for LevelTable {
    ghost use Rattle.std.specs.Prelude.{length};
    ghost use Rattle.region_plan.specs.Regions.{readers_of};
    ghost use Rattle.region_plan.specs.Kept.{IsTable, Shape};

    ghost Value = { Shape };

    ghost view = { λ l. record {
      phases = l.phases;
      clusters = l.clusters;
      homes = l.homes.items;
      readers = readers_of (length l.homes.items) l.clusters;
    } };

    ghost invariant = { λ l. IsTable (length l.homes.items) l.clusters l.lists.starts.items
        l.lists.readers.items l.lists.weights.items };
}

impl LevelTable {
    // The table of these clusters and homes.
    pub fn new(
        alloc: Global,
        phases: u32,
        clusters: Clusters,
        homes: Vec<u32>,
    ) -> Result<LevelTable, OutOfMemory>
        requires nodes { length homes.items ≤ 1024 }
        requires clusters { length clusters ≤ length homes.items }
        ensures { IfOk result (λ table. table ≡ shape_with phases clusters homes.items) }
    {
        let lists = ReaderLists::new(alloc, &clusters, homes.len())?;
        Ok(LevelTable {
            phases,
            clusters,
            homes,
            lists,
        })
    }

    // The largest number of clusters that a node reads.
    pub fn degree(&self) -> u32
        requires clusters { length self.now.clusters ≤ 1024 }
        requires nodes { length self.now.homes ≤ 1024 }
        ensures exact { result ≡ most (map length self.now.readers) }
        ensures few { result ≤ 1024 }
    {
        let mut degree = 0;
        for v in 0..self.homes.len() {
            degree = degree.max(self.readers_at(v as u32).len() as u32);
        }
        degree
    }

    // The numbers of the clusters that contain `v`.
    pub fn readers_at(&self, v: u32) -> &[u32]
        requires { v < length self.now.homes }
        ensures numbers { result.now ≡ readers_for self.now v }
        ensures few { length result.now ≤ length self.now.clusters }
    {
        let first = self.lists.starts[v as usize] as usize;
        let end = self.lists.starts[v as usize + 1] as usize;
        &self.lists.readers[first..end]
    }

    // The weight inside the reader of `v` at this place from its leader to `v`.
    pub fn reader_weight(&self, v: u32, place: u32) -> u64
        requires node { v < length self.now.homes }
        requires place { place < length (readers_for self.now v) }
        ensures { result
            ≡ weight_in self.now.clusters (slice_index (readers_for self.now v) place) v }
    {
        let first = self.lists.starts[v as usize] as usize;
        u64::from(self.lists.weights[first + place as usize])
    }
}
