//! Tests of the reader of inputs and of the top calls, in a crate above them, so that none of those
//! crates is proved twice.
#![tactic(auto)]

#[cfg(test)]
mod device_tests;
#[cfg(test)]
mod faults;
#[cfg(test)]
mod foreign_reports;
#[cfg(test)]
mod grammar_tests;
#[cfg(test)]
mod json_tests;
#[cfg(test)]
mod load_tests;
#[cfg(test)]
mod reader_tests;
#[cfg(test)]
mod rows;
#[cfg(test)]
mod run_tests;
#[cfg(test)]
mod runs;
#[cfg(test)]
mod sameness;
#[cfg(test)]
mod thread_tests;
#[cfg(test)]
mod verdict_tests;
