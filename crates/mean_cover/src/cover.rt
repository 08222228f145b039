//! What a mean cover is.
use node_set::NodeSet;

/// A set of nodes that merges some of the balls.
#[derive(Drop)]
pub struct MeanCluster {
    /// The centre that leads the cluster.
    pub first: u32,
    /// The nodes of the cluster.
    pub members: NodeSet,
}

/// Clusters such that each ball lies in one of them, its home.
#[derive(Drop)]
pub struct MeanCover {
    /// The clusters, in the order in which they were made.
    pub clusters: Vec<MeanCluster>,
    /// For each ball the number of the cluster that is its home.
    pub home: Vec<u32>,
}
