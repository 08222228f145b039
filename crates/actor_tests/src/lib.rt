//! Tests of what the actors are made of: handsets, cells, walks and machines.
#![tactic(auto)]

#[cfg(test)]
mod cell_tests;
#[cfg(test)]
mod handset_tests;
#[cfg(test)]
mod machine_tests;
#[cfg(test)]
mod plays;
#[cfg(test)]
mod route_tests;
#[cfg(test)]
mod rows;
#[cfg(test)]
mod sameness;
#[cfg(test)]
mod turn_tests;
#[cfg(test)]
mod walk_tests;
