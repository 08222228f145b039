//! Tests of the shared tracker, of whole calls, and of what bounds their weights.
#![tactic(auto)]

#[cfg(test)]
mod bound_tests;
#[cfg(test)]
mod call_tests;
#[cfg(test)]
mod parties;
#[cfg(test)]
mod plays;
#[cfg(test)]
mod room_tests;
#[cfg(test)]
mod rows;
#[cfg(test)]
mod sameness;
#[cfg(test)]
mod scripts;
#[cfg(test)]
mod station_tests;
#[cfg(test)]
mod steps;
#[cfg(test)]
mod stretch_tests;
#[cfg(test)]
mod thread_tests;
