//! Weighted networks: a graph by the neighbours of each node, least walks from a node inside a set
//! of nodes, and the nodes near a set.
#![tactic(auto)]

mod counting;
mod edge;
mod fault;
mod graph;
mod laws;
mod near;
mod neighbours;
mod parents;
mod queue;
mod search;
mod tree;
mod weights;

pub use edge::{Edge, MAX_NODES, MAX_WEIGHT};
pub use fault::{GraphFault, OutOfMemory};
pub use graph::{Graph, graph_is_sound};
pub use laws::{
    all_allowed_is_everywhere, least_weight_is_bounded, least_weight_is_found, least_weight_is_one,
    least_weight_is_positive, least_weight_is_reached, least_weight_of_a_step,
    least_weight_to_itself, least_weight_turned, least_weights_add_up, near_nodes_are_within,
    reached_both_ways, unreached_turned,
};
pub use near::Nearby;
pub use neighbours::Arc;
pub use tree::Tree;
pub use weights::greatest_weight;
