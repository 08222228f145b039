//! Why no graph could be made.

ghost use Rattle.std.specs.Prelude.{◌≡◌};
ghost use Rattle.net_graph.specs.declared.fault.GraphFault.TheVariants.{OutOfMemory as no_memory};

use std::alloc::{AllocError, AllocFailed};

/// Memory ran out.
pub type OutOfMemory = AllocError;

/// Why no graph could be made of a list of edges.
#[derive(Debug, Drop)]
pub enum GraphFault {
    /// No walk leads from node 0 to this node, the least such.
    Apart { node: u32 },
    /// Memory ran out.
    OutOfMemory,
}

impl From<AllocError> for GraphFault {
    ghost from_gives = { λ _ e. e ≡ no_memory };

    fn from(_: AllocError) -> Self {
        GraphFault::OutOfMemory
    }
}

impl<T: Drop> From<AllocFailed<T>> for GraphFault {
    ghost from_gives = { λ _ e. e ≡ no_memory };

    fn from(_: AllocFailed<T>) -> Self {
        GraphFault::OutOfMemory
    }
}
