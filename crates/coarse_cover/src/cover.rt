//! What a coarsening gives.
use node_set::NodeSet;

/// A set of nodes that merges some of the balls.
#[derive(Drop)]
pub struct Cluster {
    /// The centre that leads the cluster.
    pub first: u32,
    /// The nodes of the cluster.
    pub members: NodeSet,
    /// The phase that made it.
    pub phase: u32,
}

/// Clusters such that each ball lies in one of them, its home.
#[derive(Drop)]
pub struct Cover {
    /// The clusters, in the order in which they were made.
    pub clusters: Vec<Cluster>,
    /// For each ball the number of the cluster that is its home.
    pub home: Vec<u32>,
    /// The number of phases.
    pub phases: u32,
}
