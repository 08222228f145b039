//! Tests of sets, powers, networks, distances, trees, covers and plans, in a crate above them, so
//! that none of those crates is proved twice.
#![tactic(auto)]

#[cfg(test)]
mod cover_tests;
#[cfg(test)]
mod distance_tests;
#[cfg(test)]
mod graph_tests;
#[cfg(test)]
mod near_tests;
#[cfg(test)]
mod plan_tests;
#[cfg(test)]
mod power_tests;
#[cfg(test)]
mod rows;
#[cfg(test)]
mod sameness;
#[cfg(test)]
mod set_tests;
#[cfg(test)]
mod subjects;
#[cfg(test)]
mod tree_tests;
