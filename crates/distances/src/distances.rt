//! The table of all distances.

ghost use Rattle.std.specs.Prelude.{◌≡◌, ◌+◌, ◌*◌, ◌<◌, ◌^◌, ◌++◌, ℕ, All, Contains, IfOk, OnOk, length, map};
ghost use Rattle.distances.specs.Rows.{AreRowsOf};
ghost use Rattle.distances.specs.Table.{AreDistancesOf, IsDiameter, IsMetric, IsRowOf, ball_of, dist};

use crate::arcs::{degrees_of, first_table};
use crate::elimination::eliminate;
use crate::rows::{close_rows, width_for};
use net_graph::{
    Graph, OutOfMemory, greatest_weight, least_weight_is_bounded, least_weight_is_found,
};
use node_set::NodeSet;
use std::alloc::Global;
use std::marker::Model;
use std::sync::Arc;

/// The distance between each two nodes of a network. Copies share one table.
#[derive(Debug, Drop)]
pub struct Distances {
    nodes: u32,
    table: Arc<Vec<u32>>,
    diameter: u32,
}

impl Model for Distances {
    ghost use Rattle.distances.specs.Table.{DistanceTable, IsDiameter, IsMetric};
    ghost use Rattle.distances.specs.Table.{IsSoundTable};

    ghost Value = { DistanceTable };

    ghost view = { λ d. record { nodes = d.nodes; cells = d.table.value.items } };

    ghost invariant = { λ d. IsSoundTable (record { nodes = d.nodes; cells = d.table.value.items })
        d.diameter };
}

// The distances between each two nodes of a network, row by row.
fn all_distances(alloc: Global, graph: &Graph) -> Result<Vec<u32>, OutOfMemory>
    ensures { IfOk result (λ table. AreRowsOf graph.now table.items) }
{
    least_weight_is_bounded();
    least_weight_is_found();
    let n = graph.nodes() as usize;
    let width = width_for(n);
    let mut table = first_table(alloc, graph, width)?;
    let mut degrees = degrees_of(alloc, graph)?;
    eliminate(alloc, &mut table, n, width, &mut degrees)?;
    close_rows(&mut table, n, width);
    Ok(table)
}

impl Distances {
    /// The distances of a network. Nodes are eliminated one after another, one with the fewest
    /// neighbours first: of those that are left, each two neighbours of it are joined by the sum of
    /// its edges to them. Then the nodes are taken back in the opposite order, each over the
    /// neighbours that it had.
    pub fn new(alloc: Global, graph: &Graph) -> Result<Self, OutOfMemory>
        ensures { IfOk result (AreDistancesOf graph.now) }
    {
        let table = all_distances(alloc, graph)?;
        let diameter = greatest_weight(&table);
        Ok(Distances {
            nodes: graph.nodes(),
            table: Arc::new(alloc, table)?,
            diameter,
        })
    }

    /// A copy. It shares the table, and so takes no memory, which no clause says.
    pub fn copy(&self) -> Result<Distances, OutOfMemory>
        ensures { IfOk result (λ copy. copy ≡ self.now) }
    {
        Ok(Distances {
            nodes: self.nodes,
            table: Arc::try_clone(&self.table)?,
            diameter: self.diameter,
        })
    }

    /// How many nodes there are.
    pub fn nodes(&self) -> u32
        ensures count { result ≡ self.now.nodes }
        ensures metric { IsMetric self.now }
    {
        self.nodes
    }

    /// The distance from `u` to `v`.
    pub fn between(&self, u: u32, v: u32) -> u64
        requires from { u < self.now.nodes }
        requires to { v < self.now.nodes }
        ensures { result ≡ dist self.now u v }
    {
        u64::from(self.table[u as usize * self.nodes as usize + v as usize])
    }

    /// The distances from `u` to each node, in the order of the nodes.
    pub fn row(&self, u: u32) -> &[u32]
        requires { u < self.now.nodes }
        ensures { IsRowOf self.now u result.now }
    {
        let width = self.nodes as usize;
        &self.table[u as usize * width..(u as usize + 1) * width]
    }

    /// The greatest distance.
    pub fn diameter(&self) -> u64
        ensures { IsDiameter self.now result }
    {
        u64::from(self.diameter)
    }

    /// All nodes within this radius of `v`.
    pub fn ball(&self, alloc: Global, v: u32, radius: u64) -> Result<NodeSet, OutOfMemory>
        requires { v < self.now.nodes }
        ensures room { IfOk result (λ ball. ball.room ≡ self.now.nodes) }
        ensures members { IfOk result (λ ball. ball.members ≡ ball_of self.now v radius) }
    {
        let mut ball = NodeSet::empty(alloc, self.nodes)?;
        for w in 0..self.nodes {
            if self.between(v, w) <= radius {
                ball.insert(w);
            }
        }
        Ok(ball)
    }
}

/// What all distances are: a metric. The call does nothing, and its clause is a law.
pub fn distances_are_sound(distances: &Distances)
    ensures { IsMetric distances.now }
{
    // A look at a field tells the proof what distances keep.
    let _ = &distances.nodes;
}
