//! Trees of least walks.

/// The least walks from a root to the nodes of a set.
#[derive(Debug, Drop)]
pub struct Tree {
    /// For each node the least weight of a walk from the root through the set, `None` where there
    /// is no walk.
    pub weight: Vec<Option<u64>>,
    /// For each node the least neighbour from which a least walk comes, `None` at the root and
    /// where there is no walk.
    pub parent: Vec<Option<u32>>,
}
