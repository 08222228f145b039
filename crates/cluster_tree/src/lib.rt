//! The tree of least walks inside a cluster, from its leader to its members.
#![tactic(auto)]

mod fault;
mod inside;
mod round;
mod tree;
mod weighing;

pub use fault::TreeFault;
pub use inside::inside_weights;
pub use net_graph::OutOfMemory;
pub use tree::ClusterTree;
