//! Tests of runs, whole and by hand: what becomes of all calls, and that three threads meet.
#![tactic(auto)]

#[cfg(test)]
mod hand_tests;
#[cfg(test)]
mod meeting_tests;
#[cfg(test)]
mod run_tests;
#[cfg(test)]
mod runs;
