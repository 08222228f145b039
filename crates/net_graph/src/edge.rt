//! Edges and the limits of a network.

/// The most nodes that a network may have.
pub const MAX_NODES: u32 = 1024;

/// The greatest weight of an edge.
pub const MAX_WEIGHT: u64 = 1_048_576;

/// An edge of a network, which joins nodes `a` and `b` in both directions.
#[derive(Clone, Copy, Debug, PartialEq, Eq)]
pub struct Edge {
    pub a: u32,
    pub b: u32,
    /// From 1 to `MAX_WEIGHT`.
    pub weight: u64,
}
