//! Networks, inputs and plans for the crates of tests: the line 0 - 1 - 2 - 3 of unit weights,
//! paths, networks where all nodes are neighbours, and what a text says.
#![tactic(auto)]

mod inputs;
mod networks;
mod plans;

pub use inputs::{input_of, plan_of};
pub use networks::{complete, edge, path, path_edges};
pub use plans::{line_of_four, plan_of_most_nodes, plan_past_two_words};
