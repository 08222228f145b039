//! Tests of words, inputs and texts, of made inputs, of what moves cost, and of the checker of
//! reports, in a crate above them, so that none of those crates is proved twice.
#![tactic(auto)]

#[cfg(test)]
mod census_tests;
#[cfg(test)]
mod checker_tests;
#[cfg(test)]
mod cost_tests;
#[cfg(test)]
mod entry_tests;
#[cfg(test)]
mod input_text_tests;
#[cfg(test)]
mod inputs;
#[cfg(test)]
mod load_tests;
#[cfg(test)]
mod loads;
#[cfg(test)]
mod outcomes;
#[cfg(test)]
mod outside_tests;
#[cfg(test)]
mod plan_text_tests;
#[cfg(test)]
mod playing;
#[cfg(test)]
mod report_tests;
#[cfg(test)]
mod rows;
#[cfg(test)]
mod sameness;
#[cfg(test)]
mod summary_tests;
#[cfg(test)]
mod word_tests;
