//! Why a cluster has no tree.

ghost use Rattle.std.specs.Prelude.{◌≡◌};
ghost use Rattle.cluster_tree.specs.declared.fault.TreeFault.TheVariants.{OutOfMemory as no_memory};

use std::alloc::{AllocError, AllocFailed};

/// Why a cluster has no tree from its leader.
#[derive(Debug, Drop)]
pub enum TreeFault {
    /// No walk through members alone leads from the leader to this member, the least such.
    Outside { node: u32 },
    /// Memory ran out.
    OutOfMemory,
}

impl From<AllocError> for TreeFault {
    ghost from_gives = { λ _ e. e ≡ no_memory };

    fn from(_: AllocError) -> Self {
        TreeFault::OutOfMemory
    }
}

impl<T: Drop> From<AllocFailed<T>> for TreeFault {
    ghost from_gives = { λ _ e. e ≡ no_memory };

    fn from(_: AllocFailed<T>) -> Self {
        TreeFault::OutOfMemory
    }
}
